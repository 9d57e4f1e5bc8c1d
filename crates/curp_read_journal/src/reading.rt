ghost use Rattle.std.specs.Prelude.{◌≡◌, ◌≢◌, ◌≤◌, List, true, false, IfOk, IfErr, OnOk};
ghost use Rattle.curp_io.specs.Streams.{Rose};
ghost use Rattle.curp_journal.specs.declared.arrived.Arrived.{Arrived};
ghost use Rattle.curp_durable.specs.Appending.{Quiet};
ghost use Rattle.curp_durable.specs.Journal.{HoldsJournal};
ghost use Rattle.curp_durable.specs.Opening.{OpensNot};
ghost use Rattle.curp_read_journal.specs.Items.{log_of};

use curp_base::{Failed, NoMemory};
use curp_cmd::NodeId;
use curp_disk::Disk;
use curp_durable::{OpenError, read_inputs};
use curp_journal::Arrived;
use curp_msg::Core;
use curp_seat::Kept;
use std::alloc::Global;

/// The journal of a title, on a disk that is synced before it is read, as that of a node of this name: the node, which is
/// to be as before any input, gets the inputs that stand there. The journal has no last stop. Nothing is written.
pub fn read_journal<N: Core + Drop, D: Disk>(
    alloc: Global,
    disk: &mut D,
    title: &[u8],
    node: N,
    id: NodeId,
) -> Result<Kept<N>, Failed<OpenError>>
    ensures ok { (inputs : List Arrived) → D.tells ≡ true → HoldsJournal (D.seen disk.old) title.now inputs
        → IfOk result (λ kept. kept ≡ log_of N.machine id node inputs) }
    ensures quiet { Quiet D.seen D.may_leave D.moment D.left_since disk.old disk.new }
    ensures err { D.tells ≡ true → IfErr result (OpensNot (D.seen disk.old) title.now) }
    ensures sound { D.sound disk.old → (result ≢ Err (Failed.Because OpenError.DiskFault)) × D.sound disk.new }
    ensures cause { result ≡ Err (Failed.Because OpenError.DiskFault) → Rose (D.faults disk.old) (D.faults disk.new) }
    ensures never_falls { D.faults disk.old ≤ D.faults disk.new }
{
    let inputs = read_inputs(alloc, disk, title)?;
    match replayed(alloc, inputs, node, id) {
        Ok(kept) => Ok(kept),
        Err(_) => Err(Failed::NoMemory),
    }
}

/// The journal of these inputs.
fn replayed<N: Core + Drop>(
    alloc: Global,
    inputs: Vec<Arrived>,
    node: N,
    id: NodeId,
) -> Result<Kept<N>, NoMemory>
    ensures { IfOk result (λ kept. kept ≡ log_of N.machine id node inputs.items) }
{
    let mut kept = Kept::begin(alloc, node, id);
    for arrived in inputs {
        kept.step(arrived)?;
    }
    Ok(kept)
}
