ghost use Rattle.std.specs.Prelude.{◌≡◌};
ghost use Rattle.curp_msg.specs.Script.{IsHeader};
ghost use Rattle.curp_words.specs.Plan.{IsLivePlan, IsPlan, header_of, live_header};

use curp_msg::{Header, Protocol};
use thiserror::Error;

/// What a run of the program is to do.
#[derive(Clone, Copy, PartialEq, Eq)]
pub enum Task {
    /// A script is read from standard input and played.
    Play(Report),
    /// A script is made by the plan.
    Make(MakePlan, Output),
    /// Nodes run on threads by the plan.
    Live(LivePlan),
    /// A history and an order are read from standard input, and it is told whether the order is one of the history.
    Check,
    /// Requests are read from standard input and served by a cluster of the plan.
    Resp(RespPlan),
    /// Orders for a manager are read from standard input, and given to one whose journal crashes where they say so.
    Manage,
}

/// What `play` writes of a script.
#[derive(Clone, Copy, Debug, PartialEq, Eq)]
pub enum Report {
    /// What every step did, and the order with its answers.
    Steps,
    /// What clients saw, and the order, for `check` to read.
    History,
}

/// From what a script is made: a number that everything in it follows from, the size of the world, how its reads are
/// done, and how much happens. Contracts see the range of each number with `IsPlan`.
#[derive(Clone, Copy, PartialEq, Eq)]
pub struct MakePlan {
    pub number: u64,
    pub f: u32,
    pub sets: u32,
    pub ways: u32,
    pub clients: u32,
    pub parts: u32,
    pub protocol: Protocol,
    pub steps: u32,
    pub recoveries: u32,
}

/// What runs on threads: a number that the commands of the clients follow from, the size of the world, how its reads
/// are done, and how much happens. Contracts see the range of each number with `IsLivePlan`.
#[derive(Clone, Copy, PartialEq, Eq)]
pub struct LivePlan {
    pub number: u64,
    pub f: u32,
    pub sets: u32,
    pub ways: u32,
    pub clients: u32,
    pub parts: u32,
    pub protocol: Protocol,
    pub commands: u32,
    pub recoveries: u32,
}

/// Which cluster serves requests, and what is written of it. Contracts see the range of each number with `IsRespPlan`.
#[derive(Clone, Copy, PartialEq, Eq)]
pub struct RespPlan {
    /// How many backups and as many witnesses it has.
    pub f: u32,
    /// After each of so many commands its partition is recovered; never, where that is 0.
    pub every: u64,
    pub output: RespOutput,
}

/// What `resp` writes.
#[derive(Clone, Copy, Debug, PartialEq, Eq)]
pub enum RespOutput {
    /// A reply to each request.
    Replies,
    /// The script of the steps that serve the requests, for `play` to read.
    Script,
}

/// What `make` writes.
#[derive(Clone, Copy, Debug, PartialEq, Eq)]
pub enum Output {
    /// The script, for `play` to read.
    Script,
    /// What happens in it, in numbers.
    Summary,
}

/// There is no task: the words are no command line.
#[derive(Clone, Copy, Debug, PartialEq, Eq, Error)]
#[error("the words are no command line")]
pub struct Usage;

impl MakePlan {
    /// The header of the script: clients are fast.
    pub fn header(&self) -> Header
        ensures header { result ≡ header_of self.now }
        ensures in_range { IsPlan self.now → IsHeader result }
    {
        Header {
            clients: self.clients,
            f: self.f,
            fast: true,
            parts: self.parts,
            protocol: self.protocol,
            sets: self.sets,
            ways: self.ways,
        }
    }
}

impl LivePlan {
    /// The header of the script of the run: clients are fast.
    pub fn header(&self) -> Header
        ensures header { result ≡ live_header self.now }
        ensures in_range { IsLivePlan self.now → IsHeader result }
    {
        Header {
            clients: self.clients,
            f: self.f,
            fast: true,
            parts: self.parts,
            protocol: self.protocol,
            sets: self.sets,
            ways: self.ways,
        }
    }
}

impl Default for MakePlan {
    ghost use Rattle.std.specs.Prelude.{◌≡◌};
    ghost use Rattle.curp_words.specs.Plan.{default_plan};

    ghost is_default = { λ plan. plan ≡ default_plan };

    fn default() -> MakePlan {
        MakePlan {
            number: 1,
            f: 3,
            sets: 64,
            ways: 4,
            clients: 8,
            parts: 2,
            protocol: Protocol::One,
            steps: 4_000,
            recoveries: 3,
        }
    }
}

impl Default for LivePlan {
    ghost use Rattle.std.specs.Prelude.{◌≡◌};
    ghost use Rattle.curp_words.specs.Plan.{default_live_plan};

    ghost is_default = { λ plan. plan ≡ default_live_plan };

    fn default() -> LivePlan {
        LivePlan {
            number: 1,
            f: 3,
            sets: 64,
            ways: 4,
            clients: 8,
            parts: 2,
            protocol: Protocol::One,
            commands: 50,
            recoveries: 3,
        }
    }
}

impl Default for RespPlan {
    ghost use Rattle.std.specs.Prelude.{◌≡◌};
    ghost use Rattle.curp_words.specs.Plan.{default_resp_plan};

    ghost is_default = { λ plan. plan ≡ default_resp_plan };

    fn default() -> RespPlan {
        RespPlan {
            f: 3,
            every: 0,
            output: RespOutput::Replies,
        }
    }
}
