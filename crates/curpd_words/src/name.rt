//! The names of nodes, as people write them.
ghost use Rattle.std.specs.Prelude.{◌≡◌, ◌==◌, IfSome, false, true};
ghost use Rattle.curp_items.specs.Items.{is_node};

use curp_cmd::{NodeId, NodeKind};
use std::fmt;

/// A node by its name: the letter of its kind, and its number in decimal digits. `G` is the manager, and has none.
#[derive(Clone, Copy, Debug)]
pub struct NodeName(pub NodeId);

impl fmt::Display for NodeName {
    fn fmt<W: fmt::Write>(&self, f: &mut fmt::Formatter<W>) -> fmt::Result {
        let number = self.0.number;
        match self.0.kind {
            NodeKind::Manager => f.write_str("G"),
            NodeKind::Client => write!(f, "C{number}"),
            NodeKind::Master => write!(f, "M{number}"),
            NodeKind::Backup => write!(f, "B{number}"),
            NodeKind::Witness => write!(f, "W{number}"),
        }
    }
}

/// The node of a name.
pub fn node_named(name: &str) -> Option<NodeId>
    ensures { IfSome result (λ node. is_node node ≡ true) }
{
    if name == "G" {
        return Some(NodeId::manager());
    }
    let (kind, digits) = name.split_at_checked(1)?;
    let number = number_of(digits)?;
    match kind {
        "C" => Some(NodeId::client(number)),
        "M" => Some(NodeId::master(number)),
        "B" => Some(NodeId::backup(number)),
        "W" => Some(NodeId::witness(number)),
        _ => None,
    }
}

/// The number of a node: decimal digits, without zeros before it.
fn number_of(digits: &str) -> Option<u32>
    ensures { IfSome result (λ number. (number == 0) ≡ false) }
{
    if !digits.bytes().all(|byte| byte.is_ascii_digit()) || digits.starts_with('0') {
        return None;
    }
    match digits.parse() {
        Ok(number) if number != 0 => Some(number),
        _ => None,
    }
}
