ghost use Rattle.std.specs.Prelude.{◌≡◌};
ghost use Rattle.curp_script.specs.Digits.{hash_of, counted};
ghost use Rattle.curp_script.specs.Nodes.{keeper_of, node_of, counted_node, letter_kind};

use super::digits::{decode, whole_of};
use curp_cmd::{Keeper, NodeId, NodeKind};

// A hash, which 16 digits write.
pub(crate) fn hash_of(text: &str) -> Option<u64>
    ensures { result ≡ hash_of text.now }
{
    let mut bytes = [0; 8];
    let len = decode(text, &mut bytes)?;
    (len == 8).then_some(u64::from_be_bytes(bytes))
}

pub(crate) fn keeper_of(text: &str) -> Option<Keeper>
    ensures { result ≡ keeper_of text.now }
{
    match text {
        "backup" => Some(Keeper::Backup),
        "witness" => Some(Keeper::Witness),
        _ => None,
    }
}

// The name of a node: G, or a letter and a number.
pub(crate) fn node_of(text: &str) -> Option<NodeId>
    ensures { result ≡ node_of text.now }
{
    match text {
        "G" => Some(NodeId::manager()),
        _ => counted_node(text),
    }
}

fn counted_node(text: &str) -> Option<NodeId>
    ensures { result ≡ counted_node text.now }
{
    let [letter, digits @ ..] = text.as_bytes() else {
        return None;
    };
    let kind = letter_kind(*letter)?;
    let number = counted(digits)?;
    Some(NodeId { kind, number })
}

fn letter_kind(letter: u8) -> Option<NodeKind>
    ensures { result ≡ letter_kind letter }
{
    match letter {
        b'C' => Some(NodeKind::Client),
        b'M' => Some(NodeKind::Master),
        b'B' => Some(NodeKind::Backup),
        b'W' => Some(NodeKind::Witness),
        _ => None,
    }
}

// The number of a node, from 1 to 2^32 - 1.
fn counted(digits: &[u8]) -> Option<u32>
    ensures { result ≡ counted digits.now }
{
    match whole_of(digits)? {
        number @ 1..=0xffff_ffff => Some(number as u32),
        _ => None,
    }
}
