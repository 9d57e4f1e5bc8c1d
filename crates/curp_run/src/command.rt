ghost use Rattle.std.specs.Prelude.{◌≡◌, None, Some};
ghost use Rattle.curp_io.specs.Streaming.{took_of, wrote_of};
ghost use Rattle.curp_run.specs.Does.{DoesRun};
ghost use Rattle.curp_words.specs.Arguments.{asked};
ghost use Rattle.curp_words.specs.declared.task.LivePlan.{LivePlan};
ghost use Rattle.curp_words.specs.declared.task.MakePlan.{MakePlan};
ghost use Rattle.curp_words.specs.declared.task.Output.{Output};

use crate::live::live_script;
use crate::script::make_script;
use curp_base::Failed;
use curp_io::{Sink, Source};
use curp_manage::manage_orders;
use curp_play::{play_history, play_script};
use curp_runner::{Status, check_claim};
use curp_seat::Observer;
use curp_session::answer_requests;
use curp_session::laws::sessions_are_of_one_thread;
use curp_words::{Report, Task, Usage, task_of};
use std::alloc::Global;
use std::sync::Wait;
use std::thread::Threads;

/// Does what the arguments of the program say. The first of them is the program's name; of the words behind it,
/// `play` reads a script from the source and writes its text to the sink, as `play_script`, or with `--history` what
/// clients saw, as `play_history`; `make`, with its options, writes a script or its summary, as `make_script`; `live`
/// runs nodes on threads, and writes the script of what they did and its text, as `live_script`; `check` reads a
/// history and an order, and writes whether the order is one of the history, as `check_claim`; `manage` reads orders for
/// a manager whose journal is kept, and writes what it does, as `manage_orders`; `resp` has the commands of requests of
/// Redis' protocol served by a cluster, and replies, as `answer_requests`. The observer is told of each step that
/// a node on a thread makes.
pub fn run<R: Threads + Wait + Sync, G: Observer + Sync, S: Source, K: Sink>(
    rt: &R,
    alloc: Global,
    arguments: &[String],
    source: &mut S,
    sink: &mut K,
    observer: &G,
) -> Status
    // What it took, what it wrote and how it ended is as `DoesRun` says of the task that the words ask for.
    ensures ran { DoesRun (asked arguments.now) (took_of S.tells S.left S.faults source.old source.new)
        (wrote_of K.tells K.held K.flushed K.faults sink.old sink.new) result }

    // For words that are no command line nothing is read or written, and for `make` and `live` nothing is read.
    ensures untouched { asked arguments.now ≡ None → (source.new ≡ source.old) × (sink.new ≡ sink.old) }
    ensures unread { (plan : MakePlan) (output : Output) → asked arguments.now ≡ Some (Task.Make plan output)
        → source.new ≡ source.old }
    ensures unread_living { (plan : LivePlan) → asked arguments.now ≡ Some (Task.Live plan) → source.new ≡ source.old }
{
    match task_of(alloc, arguments) {
        Ok(Task::Play(Report::Steps)) => play_script(alloc, source, sink),
        Ok(Task::Play(Report::History)) => play_history(alloc, source, sink),
        Ok(Task::Make(plan, output)) => make_script(alloc, &plan, output, sink),
        Ok(Task::Live(plan)) => live_script(rt, alloc, &plan, observer, sink),
        Ok(Task::Check) => check_claim(alloc, source, sink),
        Ok(Task::Manage) => manage_orders(alloc, source, sink),
        Ok(Task::Resp(plan)) => {
            sessions_are_of_one_thread();
            answer_requests(alloc, &plan, source, sink)
        }
        Err(Failed::Because(Usage)) => Status::Usage,
        Err(Failed::NoMemory) => Status::NoMemory,
    }
}
