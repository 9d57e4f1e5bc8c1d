ghost use Rattle.std.specs.Prelude.{◌≡◌, IfOk};

use curp_base::{Items, NoMemory, Shared, TryCopy};
use curp_cmd::{Entry, Request, RequestId};
use std::alloc::Global;

/// Why a master doesn't answer a request. After CURP and RIFL; the cases are this project's.
#[derive(Clone, Copy, Debug, PartialEq, Eq)]
pub enum Refusal {
    /// The client knows another version of the lists than the current one.
    Version { current: u32 },
    /// The client knows another epoch than the current one.
    Epoch { current: u32 },
    /// A hash of the command isn't owned here.
    NotOwner,
    /// The client has acknowledged the request: its first request that isn't is this one.
    Stale { first: u32 },
    /// The request stands in the log, and isn't stored on all backups yet.
    InProgress,
    /// The client is gone.
    Expired,
    /// The master serves no requests now: it changes its lists, or isn't adopted yet.
    Switching,
}

/// Why a witness doesn't hold a request.
#[derive(Clone, Copy, Debug, PartialEq, Eq)]
pub enum Reason {
    /// It holds a request that conflicts: this is the least one.
    Conflict { held: RequestId },
    /// A set has no room for it: this is the least one, counted from 0.
    SetFull { set: u32 },
    /// It holds nothing more.
    Frozen,
    /// It was started with another epoch.
    Stranger { epoch: u32 },
    /// It was neither started nor frozen.
    Idle,
}

/// What a backup answers to an append.
#[derive(Clone, Copy, Debug, PartialEq, Eq)]
pub enum AppendAnswer {
    /// Its log has this length now.
    Stored { length: u64 },
    /// It takes nothing of an epoch below its fence.
    Fenced { epoch: u32 },
    /// Its log has only this length, and doesn't reach to the base.
    Gap { length: u64 },
    /// It isn't installed at that epoch.
    NotInstalled,
}

/// What a witness answers to a collection.
pub enum GcAnswer {
    /// The requests that were held for long and were in the way of others.
    Suspects(Items<Shared<Request>>),
    /// It has another epoch, or was never started.
    Stranger { epoch: Option<u32> },
}

impl Drop for GcAnswer {
    fn drop(self) {
        match self {
            GcAnswer::Suspects(_) => {}
            GcAnswer::Stranger { epoch: _ } => {}
        }
    }
}

/// What a backup answers to a fence.
pub enum FenceReply {
    /// Its whole log.
    Log(Items<Entry>),
    /// Its fence is above that epoch already.
    Fenced { epoch: u32 },
}

impl Drop for FenceReply {
    fn drop(self) {
        match self {
            FenceReply::Log(_) => {}
            FenceReply::Fenced { epoch: _ } => {}
        }
    }
}

impl GcAnswer {
    pub fn copy(&self, alloc: Global) -> Result<GcAnswer, NoMemory>
        ensures { IfOk result (λ copy. copy ≡ self.now) }
    {
        match self {
            GcAnswer::Suspects(requests) => Ok(GcAnswer::Suspects(requests.try_copy(alloc)?)),
            GcAnswer::Stranger { epoch } => Ok(GcAnswer::Stranger { epoch: *epoch }),
        }
    }
}

impl FenceReply {
    pub fn copy(&self, alloc: Global) -> Result<FenceReply, NoMemory>
        ensures { IfOk result (λ copy. copy ≡ self.now) }
    {
        match self {
            FenceReply::Log(entries) => Ok(FenceReply::Log(entries.try_copy(alloc)?)),
            FenceReply::Fenced { epoch } => Ok(FenceReply::Fenced { epoch: *epoch }),
        }
    }
}
