ghost use Rattle.std.specs.Prelude.{◌≡◌, ◌++◌, flat_map, IfOk, OnOk};
ghost use Rattle.curp_msg.specs.Moved.{says, says_each};
ghost use Rattle.curp_cmd.specs.Node.{client_node, manager_node, master_node};
ghost use Rattle.curp_model.specs.Master.{moved_entry, prepared_message, refuse};

use curp_base::{Boxed, Items, NoMemory, Shared};
use curp_cmd::{Entry, NodeId, Package, RequestId};
use curp_msg::{Append, Body, Gc, Message, Parcel, Quick, Refusal, Refuse, Reply};
use std::alloc::Global;

/// Master `number` doesn't answer a request.
pub fn refuse(number: u32, id: RequestId, refusal: Refusal) -> Message
    ensures { result ≡ refuse number id refusal }
{
    Message {
        from: NodeId::master(number),
        to: NodeId::client(id.client),
        body: Body::Refuse(Refuse { id, refusal }),
    }
}

/// Master `number` replies to the client of the request.
pub fn reply(number: u32, reply: Boxed<Reply>) -> Message
    ensures { result ≡ says (master_node number) (client_node reply.id.client) (Body.Reply reply) }
{
    Message {
        from: NodeId::master(number),
        to: NodeId::client(reply.get().id.client),
        body: Body::Reply(reply),
    }
}

/// Master `number` answers the client of a read at once.
pub fn quick(number: u32, quick: Boxed<Quick>) -> Message
    ensures { result ≡ says (master_node number) (client_node quick.id.client) (Body.Quick quick) }
{
    Message {
        from: NodeId::master(number),
        to: NodeId::client(quick.get().id.client),
        body: Body::Quick(quick),
    }
}

/// Master `number` gives a backup entries.
pub fn append(number: u32, backup: NodeId, append: Append) -> Message
    ensures { result ≡ says (master_node number) backup (Body.Append append) }
{
    Message {
        from: NodeId::master(number),
        to: backup,
        body: Body::Append(append),
    }
}

/// Master `number` lets each witness drop requests.
pub fn gc_each(
    alloc: Global,
    number: u32,
    witnesses: &[NodeId],
    epoch: u32,
    ids: &[RequestId],
) -> Result<Vec<Message>, NoMemory>
    ensures { IfOk result (λ sent. sent.items
        ≡ says_each (master_node number) witnesses.now (Body.Gc (record { epoch = epoch; ids = ids.now }))) }
{
    let mut sent = Vec::with_capacity(alloc, witnesses.len())?;
    for witness in witnesses {
        sent.push(gc(alloc, number, *witness, epoch, ids)?)?;
    }
    Ok(sent)
}

fn gc(
    alloc: Global,
    number: u32,
    witness: NodeId,
    epoch: u32,
    ids: &[RequestId],
) -> Result<Message, NoMemory>
    ensures { IfOk result (λ message. message
        ≡ says (master_node number) witness (Body.Gc (record { epoch = epoch; ids = ids.now }))) }
{
    let ids = Items::new(Vec::from_slice(alloc, ids)?);
    Ok(Message {
        from: NodeId::master(number),
        to: witness,
        body: Body::Gc(Gc { epoch, ids }),
    })
}

/// Master `number` has its log on the backups of the list of that version.
pub fn prepared(number: u32, version: u32) -> Message
    ensures { result ≡ prepared_message number version }
{
    to_manager(number, Body::Prepared { version })
}

/// Master `number` has given a range away.
pub fn taken(
    alloc: Global,
    number: u32,
    migration: u32,
    package: &Shared<Package>,
) -> Result<Message, NoMemory>
    ensures { IfOk result (λ message. message ≡ says (master_node number) manager_node
        (Body.Taken (record { migration = migration; «package» = «package».now }))) }
{
    let parcel = Parcel {
        migration,
        package: package.share()?,
    };
    Ok(to_manager(number, Body::Taken(Boxed::new(alloc, parcel)?)))
}

/// Master `number` has taken a range over.
pub fn given(number: u32, migration: u32) -> Message
    ensures { result ≡ says (master_node number) manager_node (Body.Given migration) }
{
    to_manager(number, Body::Given { migration })
}

/// Master `number` tells of the ranges that these entries move.
pub fn tell_moved(
    sent: &mut Vec<Message>,
    alloc: Global,
    number: u32,
    entries: &[Entry],
) -> Result<(), NoMemory>
    ensures { OnOk result (sent.new.items ≡ sent.old.items ++ flat_map (moved_entry number) entries.now) }
{
    for entry in entries {
        match entry {
            Entry::Take { migration, package } => {
                sent.push(taken(alloc, number, *migration, package)?)?;
            }
            Entry::Give { migration, .. } => {
                sent.push(given(number, *migration))?;
            }
            _ => {}
        }
    }
    Ok(())
}

fn to_manager(number: u32, body: Body) -> Message
    ensures { result ≡ says (master_node number) manager_node body }
{
    Message {
        from: NodeId::master(number),
        to: NodeId::manager(),
        body,
    }
}
