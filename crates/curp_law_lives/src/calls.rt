//! Which event of a node's lives a call of `curp_durable` is.
ghost use Rattle.std.specs.Prelude.{◌≡◌, ◌++◌, ℕ, List, true, false, IfOk, IfErr, OnErr, IsOk};
ghost use Rattle.curp_io.specs.Streams.{Rose};
ghost use Rattle.curp_journal.specs.declared.arrived.Arrived.{Arrived};
ghost use Rattle.curp_durable.specs.Answering.{RefusesBatch};
ghost use Rattle.curp_durable.specs.Journal.{HoldsJournal, IsSettled};
ghost use Rattle.curp_durable.specs.Opening.{OpensNot};
ghost use Rattle.curp_durable.specs.Standing.{taken};
ghost use Rattle.curp_durable.specs.declared.error.OpenError.{OpenError};
ghost use Rattle.curp_durable.specs.declared.stand.Answered.{Answered};
ghost use Rattle.curp_law_lives.specs.Lives.{Crash, Happens, Opening, down, running};
ghost use Rattle.curp_law_lives.specs.Lives as lives;

use curp_base::Failed;
use curp_disk::Disk;
use curp_durable::{Answered, Durable, DurableError, OpenError, OpenFailed};
use curp_journal::Arrived;
use curp_msg::Core;
use std::alloc::Global;

/// `Durable::open` of a disk that has a journal is an opening of that node. A crash in it leaves what one might have left
/// before it (`quiet` and `quiet_err` there).
pub fn opening_happens<N: Core + Drop, D: Disk>(
    alloc: Global,
    disk: D,
    title: &[u8],
    node: N,
    size_limit: u64,
) -> Result<Durable<N, D>, OpenFailed<D>>
    ensures happens { (answered : List Answered) → D.tells ≡ true
        → IfOk result (λ d. Happens N.machine title.now node Opening (down (D.seen disk) answered)
        (running (D.seen d.disk) d.stand answered)) }
    ensures settled { (inputs : List Arrived) → D.tells ≡ true → HoldsJournal (D.seen disk) title.now inputs
        → IfOk result (λ d. IsSettled N.machine D.seen D.may_leave d.disk d.stand d.commit title.now node inputs) }
    ensures err { D.tells ≡ true → IfErr result (λ f. OpensNot (D.seen disk) title.now f.error) }
    ensures cause { IfErr result (λ f. f.error ≡ Failed.Because OpenError.DiskFault → Rose (D.faults disk) (D.faults f.disk)) }
{
    Durable::open(alloc, disk, title, node, size_limit)
}

/// `Durable::on_all` is a batch that is answered. Where a crash comes at any moment in the call, or it gives up, it is
/// one that is cut off.
pub fn batch_happens<N: Core + Drop, D: Disk>(
    durable: &mut Durable<N, D>,
    inputs: Vec<Arrived>,
) -> Result<Vec<Answered>, Failed<DurableError>>
    ensures happens { (title : List ℕ) (opening : N) (held : List Arrived) (answered : List Answered)
        → D.tells ≡ true
        → IsSettled N.machine D.seen D.may_leave durable.old.disk durable.old.stand durable.old.commit title opening held
        → IfOk result (λ answers. Happens N.machine title opening (lives.Answers inputs.items)
        (running (D.seen durable.old.disk) durable.old.stand answered)
        (running (D.seen durable.new.disk) durable.new.stand (answered ++ answers.items))) }
    ensures settled { (title : List ℕ) (opening : N) (held : List Arrived) → D.tells ≡ true → IsOk result
        → IsSettled N.machine D.seen D.may_leave durable.old.disk durable.old.stand durable.old.commit title opening held
        → IsSettled N.machine D.seen D.may_leave durable.new.disk durable.new.stand durable.new.commit title opening
        (held ++ taken N.machine durable.old.stand inputs.items) }
    ensures cut_off { (title : List ℕ) (opening : N) (held : List Arrived) (answered : List Answered) (left : List ℕ)
        → D.tells ≡ true → durable.old.spent ≡ false
        → IsSettled N.machine D.seen D.may_leave durable.old.disk durable.old.stand durable.old.commit title opening held
        → D.left_since durable.new.disk (D.moment durable.old.disk) left
        → Happens N.machine title opening (lives.CutOff inputs.items)
        (running (D.seen durable.old.disk) durable.old.stand answered) (down left answered) }
    ensures gives_up { (title : List ℕ) (opening : N) (held : List Arrived) (answered : List Answered)
        → D.tells ≡ true → durable.old.spent ≡ false
        → IsSettled N.machine D.seen D.may_leave durable.old.disk durable.old.stand durable.old.commit title opening held
        → OnErr result (Happens N.machine title opening (lives.CutOff inputs.items)
        (running (D.seen durable.old.disk) durable.old.stand answered) (down (D.seen durable.new.disk) answered)) }
    ensures err { IfErr result (RefusesBatch D.faults durable.old durable.new inputs.items) }
{
    durable.on_all(inputs)
}

/// What a crash between two calls leaves is the journal with all that was answered: a law, with no code.
pub fn crash_happens<N: Core, D: Disk>(durable: &Durable<N, D>)
    ensures { (title : List ℕ) (opening : N) (held : List Arrived) (answered : List Answered) (left : List ℕ)
        → IsSettled N.machine D.seen D.may_leave durable.now.disk durable.now.stand durable.now.commit title opening held
        → D.may_leave durable.now.disk left
        → Happens N.machine title opening Crash
        (running (D.seen durable.now.disk) durable.now.stand answered) (down left answered) }
{}
