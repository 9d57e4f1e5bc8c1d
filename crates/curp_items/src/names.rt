ghost use Rattle.std.specs.Prelude.{◌≡◌, ⊤};
ghost use Rattle.curp_items.specs.Items.{is_node, kind_byte, kind_of, node_named};

use crate::{Fault, Item, Reader, Writer};
use curp_base::NoMemory;
use curp_cmd::{NodeId, NodeKind, RequestId};

impl Item for NodeId {
    ghost use Rattle.std.specs.Prelude.{◌≡◌, true};
    ghost use Rattle.curp_items.specs.Items.{node, is_node};

    ghost format = { node };

    ghost HasEncoding = { λ n. is_node n ≡ true };

    #[tactic(auto, unfolding(crate::specs::Items::node))]
    fn write(&self, out: &mut Writer) -> Result<(), NoMemory> {
        out.byte(kind_byte(self.kind))?;
        out.bytes(&self.number.to_be_bytes())
    }

    #[tactic(auto, unfolding(crate::specs::Items::node))]
    fn read(reader: &mut Reader) -> Result<NodeId, Fault> {
        let place = reader.place();
        let [byte, a, b, c, d] = reader.take::<5>()?;
        node_of(byte, u32::from_be_bytes([a, b, c, d])).ok_or(Fault { place })
    }
}

impl Item for RequestId {
    ghost use Rattle.curp_items.specs.Items.{id};

    ghost format = { id };

    ghost HasEncoding = { λ _. ⊤ };

    #[tactic(auto, unfolding(crate::specs::Items::id))]
    fn write(&self, out: &mut Writer) -> Result<(), NoMemory> {
        self.client.write(out)?;
        self.seq.write(out)
    }

    #[tactic(auto, unfolding(crate::specs::Items::id))]
    fn read(reader: &mut Reader) -> Result<RequestId, Fault> {
        let client = u32::read(reader)?;
        let seq = u32::read(reader)?;
        Ok(RequestId { client, seq })
    }
}

/// Whether there may be a node of this name: the manager alone has the number 0.
pub fn is_node(node: &NodeId) -> bool
    ensures { result ≡ is_node node.now }
{
    (node.number == 0) == (node.kind == NodeKind::Manager)
}

fn kind_byte(kind: NodeKind) -> u8
    ensures { result ≡ kind_byte kind }
{
    match kind {
        NodeKind::Manager => 0,
        NodeKind::Client => 1,
        NodeKind::Master => 2,
        NodeKind::Backup => 3,
        NodeKind::Witness => 4,
    }
}

fn node_of(byte: u8, number: u32) -> Option<NodeId>
    ensures { result ≡ node_named (kind_of byte) number }
{
    let kind = match byte {
        0 => NodeKind::Manager,
        1 => NodeKind::Client,
        2 => NodeKind::Master,
        3 => NodeKind::Backup,
        4 => NodeKind::Witness,
        _ => return None,
    };
    let node = NodeId { kind, number };
    is_node(&node).then_some(node)
}
