//! A node with its journal, over parcels.
ghost use Rattle.curp_msg.specs.Script.{IsHeader};

use crate::ending::Ending;
use crate::nodes::{backup, client, master, role_of, witness};
use curp_cmd::NodeKind;
use curp_disk::FileDisk;
use curp_durable::Durable;
use curp_io::{Sink, Source};
use curp_msg::Core;
use curp_nodes::ClientNode;
use curp_parcels::Outgoing;
use curp_read_journal::read_journal;
use curp_runner::{pass_on, write};
use curp_title::title_of;
use curp_told::{greet, tell_one};
use curpd_words::Seat;
use std::alloc::Global;
use std::fs::File;
use std::rt::Files;

/// Makes the journal of a node that has done nothing. Its file must not be there.
pub(crate) fn format(
    rt: &impl Files<File = File>,
    alloc: Global,
    seat: &Seat<'_>,
) -> Result<(), Ending> {
    let mut disk = FileDisk::make(rt, seat.journal)?;
    curp_durable::format(alloc, &mut disk, &title_of(seat.node, &seat.header))?;
    Ok(())
}

/// Runs the node of a seat until the input ends.
pub(crate) fn run_node<S: Source, K: Sink>(
    rt: &impl Files<File = File>,
    alloc: Global,
    seat: &Seat<'_>,
    source: &mut S,
    sink: &mut K,
) -> Result<(), Ending>
    requires { IsHeader seat.now.header }
{
    let number = seat.node.number;
    let header = &seat.header;
    let disk = FileDisk::open(rt, seat.journal)?;
    match seat.node.kind {
        NodeKind::Manager => {
            let node = curp_nodes::manager(alloc, header)?;
            run(alloc, seat, disk, node, source, sink)
        }
        NodeKind::Client => run_client(alloc, seat, disk, source, sink),
        NodeKind::Master => run(
            alloc,
            seat,
            disk,
            master(alloc, header, number)?,
            source,
            sink,
        ),
        NodeKind::Backup => run(
            alloc,
            seat,
            disk,
            backup(alloc, header, number)?,
            source,
            sink,
        ),
        NodeKind::Witness => run(
            alloc,
            seat,
            disk,
            witness(alloc, header, number)?,
            source,
            sink,
        ),
    }
}

/// Runs a node that is no client.
fn run<N: Core + Drop, S: Source, K: Sink>(
    alloc: Global,
    seat: &Seat<'_>,
    disk: FileDisk,
    node: N,
    source: &mut S,
    sink: &mut K,
) -> Result<(), Ending>
    requires { IsHeader seat.now.header }
{
    let mut durable = open(alloc, seat, disk, node)?;
    let stands = Outgoing::Stands {
        items: durable.count(),
        last: durable.last_stamp(),
    };
    let mut greeting = Vec::new(alloc);
    tell_one(alloc, &stands, &mut greeting)?;
    serve(alloc, seat, &mut durable, &greeting, source, sink)
}

/// Runs a client, which tells again which requests completed: its user may not have heard of it.
fn run_client<S: Source, K: Sink>(
    alloc: Global,
    seat: &Seat<'_>,
    disk: FileDisk,
    source: &mut S,
    sink: &mut K,
) -> Result<(), Ending>
    requires { IsHeader seat.now.header }
{
    let mut begun = begin_client(alloc, seat, disk)?;
    serve(
        alloc,
        seat,
        &mut begun.client,
        &begun.greeting,
        source,
        sink,
    )
}

/// Runs the client of a seat with Redis' protocol in front, until the input ends.
pub(crate) fn run_front<S: Source, K: Sink>(
    rt: &impl Files<File = File>,
    alloc: Global,
    seat: &Seat<'_>,
    source: &mut S,
    sink: &mut K,
) -> Result<(), Ending>
    requires { IsHeader seat.now.header }
{
    let disk = FileDisk::open(rt, seat.journal)?;
    let mut begun = begin_client(alloc, seat, disk)?;
    say(&begun.greeting, sink)?;
    let number = seat.node.number;
    Ending::of_filter(curp_front_node::serve(alloc, number, &mut begun.client, source, sink))
}

/// A client that stands where its journal leads, and what its process says first.
#[derive(Drop)]
struct BegunClient {
    client: Durable<ClientNode, FileDisk>,
    greeting: Vec<u8>,
}

fn begin_client(alloc: Global, seat: &Seat<'_>, mut disk: FileDisk) -> Result<BegunClient, Ending>
    requires { IsHeader seat.now.header }
{
    let greeting = client_greeting(alloc, seat, &mut disk)?;
    let node = client(alloc, &seat.header, seat.node.number)?;
    let client = open(alloc, seat, disk, node)?;
    Ok(BegunClient { client, greeting })
}

/// What the process of a client says first.
fn client_greeting(alloc: Global, seat: &Seat<'_>, disk: &mut FileDisk) -> Result<Vec<u8>, Ending>
    requires { IsHeader seat.now.header }
{
    let title = title_of(seat.node, &seat.header);
    let node = client(alloc, &seat.header, seat.node.number)?;
    let kept = read_journal(alloc, disk, &title, node, seat.node)?;
    let mut greeting = Vec::new(alloc);
    greet(alloc, &seat.node, kept.journal(), &mut greeting)?;
    Ok(greeting)
}

/// Opens the journal of a seat.
fn open<N: Core + Drop>(
    alloc: Global,
    seat: &Seat<'_>,
    disk: FileDisk,
    node: N,
) -> Result<Durable<N, FileDisk>, Ending> {
    let title = title_of(seat.node, &seat.header);
    match Durable::open(alloc, disk, &title, node, u64::MAX) {
        Ok(durable) => Ok(durable),
        Err(failed) => Err(Ending::from(failed.error)),
    }
}

/// Says what is said first, and answers parcels until the input ends.
fn serve<N: Core + Drop, S: Source, K: Sink>(
    alloc: Global,
    seat: &Seat<'_>,
    durable: &mut Durable<N, FileDisk>,
    greeting: &[u8],
    source: &mut S,
    sink: &mut K,
) -> Result<(), Ending>
    requires { IsHeader seat.now.header }
{
    say(greeting, sink)?;
    let role = role_of(seat.node, &seat.header);
    Ending::of_filter(curp_filter::run_node(alloc, role, durable, source, sink))
}

fn say<K: Sink>(greeting: &[u8], sink: &mut K) -> Result<(), Ending> {
    write(sink, greeting)?;
    pass_on(sink)?;
    Ok(())
}
