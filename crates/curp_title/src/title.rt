//! A title, written and read.
ghost use Rattle.std.specs.Prelude.{◌≡◌, ◌≢◌, IfNone, IfSome};
ghost use Rattle.curp_items.specs.Calls.{ReadsItem};
ghost use Rattle.curp_items.specs.Items.{kind_byte};
ghost use Rattle.curp_title.specs.Title.{IsTitle, ReadsTitle, between, fast_byte, header_format, mark_format};
ghost use Rattle.curp_title.specs.Title.{protocol_byte, protocol_format, title_bytes, title_format, title_read};
ghost use Rattle.curp_title.specs.declared.title.Title.{Title};

use curp_cmd::{NodeId, NodeKind};
use curp_items::{Fault, Item, Reader};
use curp_msg::{Header, Protocol};

/// How many bytes a title has.
pub const TITLE_LENGTH: usize = 36;

/// The letters of a node's journal, and the version of what follows.
const MARK: [u8; 9] = *b"CURPNODE\x01";

/// What the title of a journal says: whose it is, and of which run that is a node.
#[derive(Clone, Copy, PartialEq, Eq)]
pub struct Title {
    pub node: NodeId,
    pub header: Header,
}

/// The title of the journal of a node. Of a node that there can't be, or a header with a number out of its range, it is
/// bytes that `title_in` doesn't take for a title.
#[tactic(auto, unfolding(crate::specs::Title::title_bytes))]
pub fn title_of(node: NodeId, header: &Header) -> [u8; TITLE_LENGTH]
    ensures { result ≡ title_bytes (record { node = node; header = header.now }) }
{
    let [n1, n2, n3, n4] = node.number.to_be_bytes();
    let [c1, c2, c3, c4] = header.clients.to_be_bytes();
    let [f1, f2, f3, f4] = header.f.to_be_bytes();
    let [p1, p2, p3, p4] = header.parts.to_be_bytes();
    let [s1, s2, s3, s4] = header.sets.to_be_bytes();
    let [w1, w2, w3, w4] = header.ways.to_be_bytes();
    let kind = kind_byte(node.kind);
    let fast = fast_byte(header.fast);
    let protocol = protocol_byte(header.protocol);
    [
        b'C', b'U', b'R', b'P', b'N', b'O', b'D', b'E', 1, kind, n1, n2, n3, n4, c1, c2, c3, c4,
        f1, f2, f3, f4, fast, p1, p2, p3, p4, protocol, s1, s2, s3, s4, w1, w2, w3, w4,
    ]
}

fn kind_byte(kind: NodeKind) -> u8
    ensures { result ≡ kind_byte kind }
{
    match kind {
        NodeKind::Manager => 0,
        NodeKind::Client => 1,
        NodeKind::Master => 2,
        NodeKind::Backup => 3,
        NodeKind::Witness => 4,
    }
}

fn fast_byte(fast: bool) -> u8
    ensures { result ≡ fast_byte fast }
{
    match fast {
        false => 0,
        true => 1,
    }
}

fn protocol_byte(protocol: Protocol) -> u8
    ensures { result ≡ protocol_byte protocol }
{
    match protocol {
        Protocol::One => 1,
        Protocol::Two => 2,
    }
}

/// What the title says that the bytes are, with nothing left over, if they are one.
pub fn title_in(bytes: &[u8]) -> Option<Title>
    ensures some { IfSome result (λ title. IsTitle title × (bytes.now ≡ title_bytes title)) }
    ensures none { IfNone result ((title : Title) → IsTitle title → bytes.now ≢ title_bytes title) }
{
    match whole_title(bytes) {
        Ok(title) => Some(title),
        Err(_) => None,
    }
}

fn whole_title(bytes: &[u8]) -> Result<Title, Fault>
    ensures { ReadsTitle result (title_read bytes.now) }
{
    let mut reader = Reader::new(bytes);
    let title = read_title(&mut reader)?;
    reader.end()?;
    Ok(title)
}

#[tactic(auto, unfolding(crate::specs::Title::title_format))]
fn read_title(reader: &mut Reader) -> Result<Title, Fault>
    ensures { ReadsItem result reader.new (title_format.read reader.old) }
{
    read_mark(reader)?;
    let node = NodeId::read(reader)?;
    let header = read_header(reader)?;
    Ok(Title { node, header })
}

#[tactic(auto, unfolding(crate::specs::Title::mark_format))]
fn read_mark(reader: &mut Reader) -> Result<(), Fault>
    ensures { ReadsItem result reader.new (mark_format.read reader.old) }
{
    let place = reader.place();
    if reader.take()? == MARK {
        Ok(())
    } else {
        Err(Fault { place })
    }
}

#[tactic(auto, unfolding(crate::specs::Title::header_format))]
fn read_header(reader: &mut Reader) -> Result<Header, Fault>
    ensures { ReadsItem result reader.new (header_format.read reader.old) }
{
    let clients = read_between(reader, 1, 64)?;
    let f = read_between(reader, 1, 5)?;
    let fast = bool::read(reader)?;
    let parts = read_between(reader, 1, 16)?;
    let protocol = read_protocol(reader)?;
    let sets = read_between(reader, 1, 1024)?;
    let ways = read_between(reader, 1, 16)?;
    Ok(Header {
        clients,
        f,
        fast,
        parts,
        protocol,
        sets,
        ways,
    })
}

/// A number from `low` to `high`.
fn read_between(reader: &mut Reader, low: u32, high: u32) -> Result<u32, Fault>
    ensures { ReadsItem result reader.new ((between low high).read reader.old) }
{
    let place = reader.place();
    let number = u32::read(reader)?;
    if low <= number && number <= high {
        Ok(number)
    } else {
        Err(Fault { place })
    }
}

#[tactic(auto, unfolding(crate::specs::Title::protocol_format))]
fn read_protocol(reader: &mut Reader) -> Result<Protocol, Fault>
    ensures { ReadsItem result reader.new (protocol_format.read reader.old) }
{
    let place = reader.place();
    match reader.byte()? {
        1 => Ok(Protocol::One),
        2 => Ok(Protocol::Two),
        _ => Err(Fault { place }),
    }
}
