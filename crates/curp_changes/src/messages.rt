// What the manager sends.
ghost use Rattle.std.specs.Prelude.{◌≡◌, ◌∷◌, [], map, IfOk};
ghost use Rattle.curp_cmd.specs.Node.{manager_node};
ghost use Rattle.curp_msg.specs.Moved.{says, says_each};
ghost use Rattle.curp_model.specs.Manager as model;

use crate::migration::Migration;
use crate::work::Replacement;
use curp_base::{Boxed, NoMemory, Shared, TryCopy};
use curp_cmd::{Keeper, NodeId, Package};
use curp_msg::{Adopted, Body, Message, Parcel, PartConfig, Prepare, Recover, Start, TakeOut};
use std::alloc::Global;

/// A message of the manager.
pub fn says(to: NodeId, body: Body) -> Message
    ensures { result ≡ says manager_node to body }
{
    Message {
        from: NodeId::manager(),
        to,
        body,
    }
}

/// One message alone.
pub fn one(alloc: Global, message: Message) -> Result<Vec<Message>, NoMemory>
    ensures { IfOk result (λ messages. messages.items ≡ message ∷ []) }
{
    let mut messages = Vec::with_capacity(alloc, 1)?;
    messages.push(message)?;
    Ok(messages)
}

/// Fresh backups are installed.
pub fn install_on(alloc: Global, epoch: u32, backups: &[NodeId]) -> Result<Vec<Message>, NoMemory>
    ensures { IfOk result (λ messages. messages.items ≡ model.install_on epoch backups.now) }
{
    let mut messages = Vec::with_capacity(alloc, backups.len())?;
    for backup in backups {
        messages.push(says(*backup, Body::Install { epoch }))?;
    }
    Ok(messages)
}

/// Witnesses are started.
pub fn start_on(
    alloc: Global,
    part: u32,
    epoch: u32,
    witnesses: &[NodeId],
) -> Result<Vec<Message>, NoMemory>
    ensures { IfOk result (λ messages. messages.items ≡ model.start_on part epoch witnesses.now) }
{
    let mut messages = Vec::with_capacity(alloc, witnesses.len())?;
    for witness in witnesses {
        messages.push(says(*witness, Body::Start(Start { part, epoch })))?;
    }
    Ok(messages)
}

/// A master is told that it is adopted with its lists.
pub fn adopted_message(part: &PartConfig) -> Message
    ensures { result ≡ model.adopted_message part.now }
{
    let adopted = Adopted {
        part: part.part,
        epoch: part.epoch,
        version: part.version,
    };
    says(part.master, Body::Adopted(adopted))
}

/// What a recovery sends.
pub fn recover_messages(
    alloc: Global,
    master: NodeId,
    order: &Boxed<Recover>,
) -> Result<Vec<Message>, NoMemory>
    ensures { IfOk result (λ messages. messages.items ≡ model.recover_messages master order.now) }
{
    let copy = order.try_copy(alloc)?;
    let order = order.get();
    let mut messages = install_on(alloc, order.epoch, order.backups.as_slice())?;
    let mut starts = start_on(alloc, order.part, order.epoch, order.witnesses.as_slice())?;
    messages.append(&mut starts)?;
    messages.push(says(master, Body::Recover(copy)))?;
    Ok(messages)
}

/// What a replacement sends.
pub fn replace_messages(
    alloc: Global,
    part: &PartConfig,
    replacement: &Replacement,
) -> Result<Vec<Message>, NoMemory>
    ensures { IfOk result (λ messages. messages.items ≡ model.replace_messages part.now replacement.now.kind
        replacement.now.fresh replacement.now.version replacement.now.backups replacement.now.witnesses) }
{
    let prepare = Prepare {
        version: replacement.version,
        backups: replacement.backups.copy(alloc)?,
        witnesses: replacement.witnesses.copy(alloc)?,
    };
    let mut messages = Vec::with_capacity(alloc, 2)?;
    messages.push(fresh_keeper(part, replacement.kind, replacement.fresh))?;
    messages.push(says(part.master, Body::Prepare(prepare)))?;
    Ok(messages)
}

fn fresh_keeper(part: &PartConfig, kind: Keeper, fresh: NodeId) -> Message
    ensures { result ∷ [] ≡ model.fresh_keeper part.now kind fresh }
{
    let body = match kind {
        Keeper::Backup => Body::Install { epoch: part.epoch },
        Keeper::Witness => Body::Start(Start {
            part: part.part,
            epoch: part.epoch,
        }),
    };
    says(fresh, body)
}

/// The owner's master is to give a range away.
pub fn take_message(owner: &PartConfig, migration: &Migration) -> Message
    ensures { result ≡ model.take_message owner.now migration.now.number migration.now.range }
{
    let take = TakeOut {
        migration: migration.number,
        lo: migration.lo,
        hi: migration.hi,
    };
    says(owner.master, Body::TakeOut(take))
}

/// The target's master is to take a range over.
pub fn give_message(
    alloc: Global,
    target: &PartConfig,
    migration: u32,
    carried: &Shared<Package>,
) -> Result<Message, NoMemory>
    ensures { IfOk result (λ message. message ≡ model.give_message target.now migration carried.now) }
{
    let parcel = Parcel {
        migration,
        package: carried.share()?,
    };
    Ok(says(target.master, Body::GiveIn(Boxed::new(alloc, parcel)?)))
}

/// Each partition's master is told of a client that is gone.
pub fn expire_messages(
    alloc: Global,
    parts: &[PartConfig],
    client: u32,
) -> Result<Vec<Message>, NoMemory>
    ensures { IfOk result (λ messages. messages.items
        ≡ says_each manager_node (map (λ (c : PartConfig). c.master) parts.now) (Body.ExpireClient client)) }
{
    let mut messages = Vec::with_capacity(alloc, parts.len())?;
    for part in parts {
        messages.push(says(part.master, Body::ExpireClient { client }))?;
    }
    Ok(messages)
}
