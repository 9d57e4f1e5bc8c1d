// What a client sends to the nodes of a partition.
ghost use Rattle.std.specs.Prelude.{◌≡◌, ◌∷◌, [], IfOk};
ghost use Rattle.curp_cmd.specs.Node.{client_node};
ghost use Rattle.curp_cmd.specs.Store.{is_update};
ghost use Rattle.curp_model.specs.Client as model;
ghost use Rattle.curp_msg.specs.Moved.{says, says_each};

use curp_base::{NoMemory, Shared};
use curp_cmd::{NodeId, Request};
use curp_msg::{Ask, Body, Message, PartConfig, Probe, Protocol, Record};
use std::alloc::Global;

/// An update goes to the master and to each witness, or alone as a Sync where the client isn't fast. A read goes to the
/// master, and in protocol 2 a probe to each witness.
pub(crate) fn sent_by(
    alloc: Global,
    number: u32,
    fast: bool,
    protocol: Protocol,
    request: &Shared<Request>,
    part: &PartConfig,
) -> Result<Vec<Message>, NoMemory>
    ensures { IfOk result (λ messages. messages.items
        ≡ model.sent_by number fast protocol (is_update request.now.command) request.now part.now) }
{
    let ask = Ask {
        request: request.share()?,
        epoch: part.epoch,
        version: part.version,
    };
    match (request.command.is_update(), fast, protocol) {
        (true, true, _) => {
            let record = Body::Record(Record {
                request: request.share()?,
                epoch: part.epoch,
            });
            to_all(alloc, number, part, Body::Update(ask), &record)
        }
        (true, false, _) => to_master(alloc, number, part, Body::Sync(ask)),
        (false, _, Protocol::One) => to_master(alloc, number, part, Body::Read(ask)),
        (false, _, Protocol::Two) => {
            let probe = Body::Probe(Probe {
                id: request.id,
                epoch: part.epoch,
            });
            to_all(alloc, number, part, Body::Glance(ask), &probe)
        }
    }
}

fn to_master(
    alloc: Global,
    number: u32,
    part: &PartConfig,
    asked: Body,
) -> Result<Vec<Message>, NoMemory>
    ensures { IfOk result (λ messages. messages.items ≡ says (client_node number) part.now.master asked ∷ []) }
{
    let mut messages = Vec::with_capacity(alloc, 1)?;
    messages.push(Message {
        from: NodeId::client(number),
        to: part.master,
        body: asked,
    })?;
    Ok(messages)
}

// One message to the master, and another to each witness.
fn to_all(
    alloc: Global,
    number: u32,
    part: &PartConfig,
    asked: Body,
    told: &Body,
) -> Result<Vec<Message>, NoMemory>
    ensures { IfOk result (λ messages. messages.items ≡ says (client_node number) part.now.master asked
        ∷ says_each (client_node number) part.now.witnesses told.now) }
{
    let mut messages = to_master(alloc, number, part, asked)?;
    for witness in part.witnesses.as_slice() {
        messages.push(Message {
            from: NodeId::client(number),
            to: *witness,
            body: told.copy(alloc)?,
        })?;
    }
    Ok(messages)
}
