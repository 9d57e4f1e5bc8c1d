//! The lives of a node over one disk: batches that it answers, crashes at any moment, and openings of its journal.
//!
//! - `specs/Lives.antt` says which events there are, over what the disk has, what was answered and where the node
//!   stands. No code is spoken of there.
//! - `lives_are_one_run`: after any events, what is read from the disk is one run of the node's machine, from its
//!   opening state on. Each item that was answered is in it, with its number and in their order, and the node stands
//!   behind all. So for the other nodes a crash and an opening are messages that came late or never.
//! - `opening_happens`, `batch_happens` and `crash_happens` say that the calls of `curp_durable`, cut off at any
//!   moment, are such events, on each disk that tells its bytes. What `format` writes is the empty journal with which
//!   lives begin.
#![tactic(auto)]

mod calls;

ghost use Rattle.std.specs.Prelude.{ℕ, List};
ghost use Rattle.curp_law_lives.specs.Lives.{Life, LifeEvent, Lives};
ghost use Rattle.curp_law_lives.specs.OneRun.{IsOneRun};

pub use calls::{batch_happens, crash_happens, opening_happens};
use curp_msg::Core;

/// All lives of a node are one run of its machine, whatever happens and however often. There is no code here: a caller
/// has the law by the call.
pub fn lives_are_one_run<N: Core>()
    ensures { (title : List ℕ) (opening : N) (events : List LifeEvent) (life : Life N)
        → Lives N.machine title opening events life → IsOneRun N.machine title opening life }
{}
