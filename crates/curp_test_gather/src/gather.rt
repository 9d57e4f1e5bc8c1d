// Journals in which a master took another value than its client sent.
ghost use Rattle.std.specs.Prelude.{◌≡◌, false};
ghost use Rattle.curp_gather.specs.Journals.{AreOf};
ghost use Rattle.curp_model.specs.Manager.{opening_config};
ghost use Rattle.curp_model.specs.World.{shape_of};
ghost use Rattle.curp_msg.specs.Script.{IsHeader};

use curp_base::{Failed, NoMemory, Shared};
use curp_cmd::{Command, Key, NodeId, NodeKind, Value};
use curp_gather::{GatherError, Journals, gather};
use curp_journal::{Arrived, Named};
use curp_live::anew_at_opening;
use curp_msg::{Config, Core, Header, Local, Protocol};
use curp_nodes::{ClientNode, ManagerNode, MasterNode};
use curp_same::Same;
use curp_seat::Kept;
use std::alloc::Global;
use std::test::Fail;

// A node of each kind.
fn smallest() -> Header
    ensures { IsHeader result }
{
    Header {
        clients: 1,
        f: 1,
        fast: true,
        parts: 1,
        protocol: Protocol::One,
        sets: 1,
        ways: 1,
    }
}

// The journals of the smallest header's nodes, in which nothing happened.
fn opened(alloc: Global) -> Result<Journals, NoMemory> {
    let manager = curp_nodes::manager(alloc, &smallest())?;
    let mut journals = begun(alloc, manager);
    match open_all(alloc, &mut journals) {
        Ok(()) => Ok(journals),
        Err(error) => Err(error),
    }
}

fn begun(alloc: Global, manager: ManagerNode) -> Journals {
    Journals {
        manager: Kept::begin(alloc, manager, NodeId::manager()),
        clients: Vec::new(alloc),
        masters: Vec::new(alloc),
        backups: Vec::new(alloc),
        witnesses: Vec::new(alloc),
    }
}

// Adds the journals of all nodes but the manager.
fn open_all(alloc: Global, journals: &mut Journals) -> Result<(), NoMemory> {
    open_served(alloc, &smallest(), journals)?;
    let backups = curp_nodes::backups(alloc, 1)?;
    open(alloc, NodeKind::Backup, backups, &mut journals.backups)?;
    let witnesses = curp_nodes::witnesses(alloc, 1, 1, 1)?;
    open(alloc, NodeKind::Witness, witnesses, &mut journals.witnesses)
}

// Adds those of the nodes that begin with the configuration.
fn open_served(alloc: Global, header: &Header, journals: &mut Journals) -> Result<(), NoMemory>
    requires { IsHeader header.now }
{
    let manager = curp_nodes::manager(alloc, header)?;
    let opened = open_with(alloc, header, manager.config(), journals);
    drop(manager);
    opened
}

fn open_with(
    alloc: Global,
    header: &Header,
    config: &Config,
    journals: &mut Journals,
) -> Result<(), NoMemory>
    requires { config.now ≡ opening_config (shape_of header.now) }
{
    let clients = curp_nodes::clients(alloc, header, config)?;
    open(alloc, NodeKind::Client, clients, &mut journals.clients)?;
    let masters = curp_nodes::masters(alloc, header, config)?;
    open(alloc, NodeKind::Master, masters, &mut journals.masters)
}

// Adds an empty journal for each of these nodes, which is one.
fn open<N: Core + Drop>(
    alloc: Global,
    kind: NodeKind,
    nodes: Vec<N>,
    journals: &mut Vec<Kept<N>>,
) -> Result<(), NoMemory> {
    for node in nodes {
        journals.push(Kept::begin(alloc, node, NodeId { kind, number: 1 }))?;
    }
    Ok(())
}

// The update that the client sends where it invokes a put of this value.
fn put(alloc: Global, clients: &mut [Kept<ClientNode>], value: u8) -> Result<Named, Fail> {
    match clients {
        [client] => put_by(alloc, client, value),
        _ => Err(Fail::new("no client")),
    }
}

fn put_by(alloc: Global, client: &mut Kept<ClientNode>, value: u8) -> Result<Named, Fail> {
    if client.ended() {
        return Err(Fail::new("the client has stopped"));
    }
    invoke(alloc, client, value)?;
    update_of(client)
}

fn invoke(alloc: Global, client: &mut Kept<ClientNode>, value: u8) -> Result<(), Fail>
    requires { client.old.ended ≡ false }
{
    let put = Command::Put(Key::new(&[0x61])?, Value::new(&[value])?);
    let put = Shared::new(alloc, put)?;
    client.step(Arrived::Local(Local::Invoke(put), 0))?;
    Ok(())
}

// The update that a client sent to its master with its first item.
fn update_of(client: &Kept<ClientNode>) -> Result<Named, Fail> {
    if client.journal().is_empty() {
        return Err(Fail::new("nothing is invoked"));
    }
    let sent = client.sent(0)?;
    Ok(sent.named.into_iter().next().ok_or("nothing is sent")?)
}

// Gives the master this update.
fn take(alloc: Global, masters: &mut [Kept<MasterNode>], update: &Named) -> Result<(), Fail> {
    match masters {
        [master] => take_by(master, update.copy(alloc)?),
        _ => Err(Fail::new("no master")),
    }
}

fn take_by(master: &mut Kept<MasterNode>, update: Named) -> Result<(), Fail> {
    if master.ended() {
        return Err(Fail::new("the master has stopped"));
    }
    master.step(Arrived::Message(update))?;
    Ok(())
}

// The update of a put of this value.
fn update(alloc: Global, value: u8) -> Result<Named, Fail> {
    let mut journals = opened(alloc)?;
    let update = put(alloc, &mut journals.clients, value);
    drop(journals);
    update
}

fn is_same(a: &Named, b: &Named) -> bool {
    a.from == b.from
        && (a.step, a.place, a.stamp) == (b.step, b.place, b.stamp)
        && a.message.same(&b.message)
}

// Whether a mismatch is at the master's first step, with these two updates: the one that was taken, and the one that the
// client's journal holds.
fn tells(told: &Failed<GatherError>, taken: &Named, sent: &Named) -> bool {
    match told {
        Failed::Because(
            GatherError::Mismatch {
                node,
                step,
                got,
                kept: Some(kept),
            },
        ) => {
            (*node, *step) == (NodeId::master(1), 1) && is_same(got, taken) && is_same(kept, sent)
        }
        _ => false,
    }
}

// Whether gathering these journals tells it.
fn is_told(alloc: Global, journals: Journals, taken: &Named, sent: &Named) -> Result<bool, Fail> {
    let header = smallest();
    match anew_at_opening(alloc, &header, journals)? {
        Some(journals) => {
            let is_told = gathering_tells(alloc, &header, &journals, taken, sent);
            drop(journals);
            Ok(is_told)
        }
        None => Err(Fail::new("the journals aren't those of nodes")),
    }
}

fn gathering_tells(
    alloc: Global,
    header: &Header,
    journals: &Journals,
    taken: &Named,
    sent: &Named,
) -> bool
    requires { AreOf header.now journals.now }
{
    match gather(alloc, header, journals) {
        Ok(_) => false,
        Err(told) => tells(&told, taken, sent),
    }
}

// Whether it is told that the master took this update where its client sent another one.
fn tells_both(alloc: Global, taken: &Named) -> Result<bool, Fail> {
    let mut journals = opened(alloc)?;
    match puts_and_takes(alloc, &mut journals, taken) {
        Ok(sent) => is_told(alloc, journals, taken, &sent),
        Err(fail) => Err(fail),
    }
}

// The client puts another value than that of the update that its master takes. The update that it sent.
fn puts_and_takes(alloc: Global, journals: &mut Journals, taken: &Named) -> Result<Named, Fail> {
    take(alloc, &mut journals.masters, taken)?;
    put(alloc, &mut journals.clients, 0x31)
}

#[test]
fn a_changed_value_is_told_with_the_kept_one(rt: HostRuntime) -> Result<(), Fail> {
    let taken = update(rt.alloc(), 0x32)?;
    assert!(rt; tells_both(rt.alloc(), &taken)?);
    Ok(())
}
