//! What each node of the protocol is and what the world does, as definitions, after CURP and RIFL, and laws of them that
//! need no world.
//!
//! There is one file for each kind of node, one for logs and one for reply tables, one for the marks, and one for the
//! world with all twelve kinds of step. The program, the world, the nodes and the laws stand on these. Proved are laws
//! of single nodes and of logs: `laws::frozen_witness_stands` (no message changes a frozen witness),
//! `laws::backup_only_grows`, `laws::known_stays_known` (as a log grows, a request that is known stays known, with its
//! answer and its place, until its client acknowledges it or is gone), `laws::replay_in_any_order` (requests of which
//! no two conflict or have one id may be replayed in any order: the store and all answers are the same),
//! `laws::same_packages` (the test whether two packages are the same is equality).
#![tactic(auto)]

pub mod laws;

use curp_cmd::Answer;
use curp_msg::Refusal;

/// What a reply table knows of a request (RIFL's duplicate check).
#[derive(Clone, Copy, PartialEq, Eq)]
pub enum Check {
    /// Its client is gone.
    Expired,
    /// Its client has acknowledged it: the client's first request that isn't acknowledged is this one.
    Stale { first: u32 },
    /// It stands in the log, at an index counted from 0, with that answer.
    Known { answer: Answer, index: u64 },
    /// It was never done.
    New,
}

/// What a witness does with a request.
#[derive(Clone, Copy, PartialEq, Eq, Debug)]
pub enum Mode {
    /// It wasn't started.
    Idle,
    /// It holds requests.
    Normal,
    /// It takes nothing more, and keeps what it held, for good.
    Frozen,
}

/// When a client wishes its answer to an update.
#[derive(Clone, Copy)]
pub enum Wish {
    /// At once, where that is safe.
    AtOnce,
    /// Once it is stored on all backups.
    WhenSynced,
}

/// What becomes of an update at a master.
#[derive(Clone, Copy)]
pub enum Verdict {
    /// It is refused.
    Deny(Refusal),
    /// It is stored on all backups, with that answer.
    Tell(Answer),
    /// It stands in the log, and its answer can be told before it is stored.
    TellAgain(Answer),
    /// It stands in the log at that index, counted from 0, and waits from now on until it is stored on all backups.
    HoldBack(u64),
    /// It is new.
    Execute,
}
