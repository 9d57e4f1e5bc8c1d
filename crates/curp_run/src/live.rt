ghost use Rattle.std.specs.Prelude.{◌≡◌, true, IfOk};
ghost use Rattle.curp_io.specs.Streaming.{TellsFault};
ghost use Rattle.curp_run.specs.Live.{IsLive, IsLivePrefix, IsLiveText};
ghost use Rattle.curp_play.specs.Show.{EndsMade, IsOfMaking};
ghost use Rattle.curp_words.specs.Plan.{IsLivePlan};

mod steps;

use crate::live::steps::steps_of_run;
use curp_base::NoMemory;
use curp_io::Sink;
use curp_law_print::printed_scripts_are_read;
use curp_play::{script_text, write_played};
use curp_runner::{Status, close};
use curp_seat::Observer;
use curp_words::LivePlan;
use std::alloc::Global;
use std::sync::Wait;
use std::thread::Threads;

/// Runs the nodes of a plan on threads until each client has done its work, and writes the script of what they did, an
/// empty line, and what `play_script` writes for that script. The observer hears of each step of a node before it is made.
/// Nothing says that it returns: a run whose journals are no script is made anew.
pub fn live_script<R: Threads + Wait + Sync, G: Observer + Sync, K: Sink>(
    rt: &R,
    alloc: Global,
    plan: &LivePlan,
    observer: &G,
    sink: &mut K,
) -> Status
    requires { IsLivePlan plan.now }
    // What it writes is the script of a run in which the work was done, and its text; that is passed on.
    ensures wrote { K.tells sink.old ≡ true → result ≡ Status.Ok
        → IsLive plan.now (K.held sink.old) (K.held sink.new) }
    // Where it is cut short, it has written a prefix of that, or nothing.
    ensures prefix { K.tells sink.old ≡ true → IsLivePrefix plan.now (K.held sink.old) (K.held sink.new) }
    ensures flushed { result ≡ Status.Ok → K.flushed sink.new ≡ true }

    // A write fault comes exactly where the count of faults rose; running out of memory is the one other failure.
    ensures of_making { IsOfMaking result }
    ensures complete { EndsMade result (K.faults sink.old) (K.faults sink.new) }
    ensures write_fault { TellsFault (result ≡ Status.WriteFault) (K.faults sink.old) (K.faults sink.new) }
{
    match live_text(rt, alloc, plan, observer) {
        Ok(text) => write_played(alloc, &text, sink),
        Err(_) => close(sink, Err(Status::NoMemory)),
    }
}

// The script of a run, as text.
fn live_text<R: Threads + Wait + Sync, G: Observer + Sync>(
    rt: &R,
    alloc: Global,
    plan: &LivePlan,
    observer: &G,
) -> Result<Vec<u8>, NoMemory>
    requires { IsLivePlan plan.now }
    ensures { IfOk result (λ text. IsLiveText plan.now text.items) }
{
    printed_scripts_are_read();
    let steps = steps_of_run(rt, alloc, plan, observer)?;
    script_text(alloc, &plan.header(), &steps)
}
