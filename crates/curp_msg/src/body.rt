ghost use Rattle.std.specs.Prelude.{◌≡◌, ◌≤◌, IfOk};

use crate::{AppendAnswer, Config, FenceReply, GcAnswer, Reason, Refusal};
use curp_base::{Boxed, Items, NoMemory, Shared, TryCopy};
use curp_cmd::{Answer, Entry, NodeId, Package, Request, RequestId};
use std::alloc::Global;

/// What a message says.
pub enum Body {
    /// A client asks a master to execute an update, and to answer before the backups have it where that is safe.
    Update(Ask),
    /// A client asks a master to execute an update, and to answer once it is stored on all backups.
    Sync(Ask),
    /// A client asks a master to read.
    Read(Ask),
    /// A client asks a witness to hold a request.
    Record(Record),
    /// A client asks the manager for the configuration.
    Fetch,
    /// The manager tells a client the configuration.
    Configuration { config: Config },
    /// A master answers an update.
    Reply(Boxed<Reply>),
    /// A master answers a read.
    Worth(Boxed<Worth>),
    /// A master doesn't answer a request.
    Refuse(Refuse),
    /// A witness holds a request.
    Accepted(Accepted),
    /// A witness doesn't hold a request.
    Rejected(Rejected),
    /// A master gives a backup entries of its log.
    Append(Append),
    /// A backup answers an append.
    Appended(Appended),
    /// A master lets a witness drop requests.
    Gc(Gc),
    /// A witness answers a collection.
    Collected(Collected),
    /// The manager installs a fresh backup at an epoch.
    Install { epoch: u32 },
    /// The manager starts a fresh witness.
    Start(Start),
    /// The manager lets a fresh master recover a partition.
    Recover(Boxed<Recover>),
    /// A recovering master asks a backup for its log. From then on it takes nothing of a lower epoch.
    Fence { epoch: u32 },
    /// A backup answers a fence.
    FenceAnswer(FenceAnswer),
    /// A recovering master asks a witness for what it holds. From then on it takes nothing more, and keeps what it
    /// holds.
    Freeze { epoch: u32 },
    /// A witness says which requests it holds.
    FrozenAnswer { requests: Items<Shared<Request>> },
    /// A master has recovered a partition.
    Recovered(Recovered),
    /// The manager has adopted a master with its lists.
    Adopted(Adopted),
    /// The manager gives a master new lists.
    Prepare(Prepare),
    /// A master has its whole log on the backups of the new list.
    Prepared { version: u32 },
    /// The manager lets a master give a range away.
    TakeOut(TakeOut),
    /// A master has given a range away: the package has what there was.
    Taken(Boxed<Parcel>),
    /// The manager gives a master a range, with the package.
    GiveIn(Boxed<Parcel>),
    /// A master has taken a range over.
    Given { migration: u32 },
    /// The manager tells a master that a client is gone.
    ExpireClient { client: u32 },
    /// A client of protocol 2 asks a witness whether it still serves.
    Probe(Probe),
    /// A witness answers a probe.
    Probed(Probed),
    /// A client of protocol 2 asks a master to read, and to answer at once where that is safe.
    Glance(Ask),
    /// A master answers a read at once.
    Quick(Boxed<Quick>),
}

impl Drop for Body {
    fn drop(self) {
        match self {
            Body::Update(_) => {}
            Body::Sync(_) => {}
            Body::Read(_) => {}
            Body::Record(_) => {}
            Body::Fetch => {}
            Body::Configuration { config: _ } => {}
            Body::Reply(_) => {}
            Body::Worth(_) => {}
            Body::Refuse(_) => {}
            Body::Accepted(_) => {}
            Body::Rejected(_) => {}
            Body::Append(_) => {}
            Body::Appended(_) => {}
            Body::Gc(_) => {}
            Body::Collected(_) => {}
            Body::Install { epoch: _ } => {}
            Body::Start(_) => {}
            Body::Recover(_) => {}
            Body::Fence { epoch: _ } => {}
            Body::FenceAnswer(_) => {}
            Body::Freeze { epoch: _ } => {}
            Body::FrozenAnswer { requests: _ } => {}
            Body::Recovered(_) => {}
            Body::Adopted(_) => {}
            Body::Prepare(_) => {}
            Body::Prepared { version: _ } => {}
            Body::TakeOut(_) => {}
            Body::Taken(_) => {}
            Body::GiveIn(_) => {}
            Body::Given { migration: _ } => {}
            Body::ExpireClient { client: _ } => {}
            Body::Probe(_) => {}
            Body::Probed(_) => {}
            Body::Glance(_) => {}
            Body::Quick(_) => {}
        }
    }
}

/// A request, with the epoch and the version of the lists that its client knows.
#[derive(PartialEq, Eq)]
pub struct Ask {
    pub request: Shared<Request>,
    pub epoch: u32,
    pub version: u32,
}

impl Drop for Ask {
    fn drop(self) {
        let Ask {
            request: _,
            epoch: _,
            version: _,
        } = self;
    }
}

#[derive(PartialEq, Eq)]
pub struct Record {
    pub request: Shared<Request>,
    pub epoch: u32,
}

impl Drop for Record {
    fn drop(self) {
        let Record {
            request: _,
            epoch: _,
        } = self;
    }
}

#[derive(Clone, Copy, PartialEq, Eq)]
pub struct Reply {
    pub id: RequestId,
    /// Whether it is stored on all backups.
    pub synced: bool,
    pub epoch: u32,
    pub version: u32,
    pub answer: Answer,
}

#[derive(Clone, Copy, PartialEq, Eq)]
pub struct Worth {
    pub id: RequestId,
    pub epoch: u32,
    /// The number of the capture at that master.
    pub capture: u64,
    pub answer: Answer,
}

#[derive(Clone, Copy, PartialEq, Eq)]
pub struct Refuse {
    pub id: RequestId,
    pub refusal: Refusal,
}

#[derive(Clone, Copy, PartialEq, Eq)]
pub struct Accepted {
    pub id: RequestId,
    pub epoch: u32,
}

#[derive(Clone, Copy, PartialEq, Eq)]
pub struct Rejected {
    pub id: RequestId,
    pub reason: Reason,
}

/// The entries stand in the master's log from `base` on, counted from 0.
pub struct Append {
    pub epoch: u32,
    pub base: u64,
    pub round: u64,
    pub entries: Items<Entry>,
}

impl Drop for Append {
    fn drop(self) {
        let Append {
            epoch: _,
            base: _,
            round: _,
            entries: _,
        } = self;
    }
}

/// The epoch and the round are those of the append.
#[derive(Clone, Copy, PartialEq, Eq)]
pub struct Appended {
    pub epoch: u32,
    pub round: u64,
    pub answer: AppendAnswer,
}

pub struct Gc {
    pub epoch: u32,
    pub ids: Items<RequestId>,
}

impl Drop for Gc {
    fn drop(self) {
        let Gc { epoch: _, ids: _ } = self;
    }
}

/// The epoch is that of the collection.
pub struct Collected {
    pub epoch: u32,
    pub answer: GcAnswer,
}

impl Drop for Collected {
    fn drop(self) {
        let Collected {
            epoch: _,
            answer: _,
        } = self;
    }
}

#[derive(Clone, Copy, PartialEq, Eq)]
pub struct Start {
    pub part: u32,
    pub epoch: u32,
}

/// The named backup and witness are asked, the lists are the fresh ones, and `lo` to `hi` is the range that the
/// partition had at opening.
pub struct Recover {
    pub part: u32,
    pub epoch: u32,
    pub version: u32,
    pub backup: NodeId,
    pub witness: NodeId,
    pub backups: Items<NodeId>,
    pub witnesses: Items<NodeId>,
    pub lo: u64,
    pub hi: u64,
    pub ghost ordered: { lo ≤ hi },
}

impl Drop for Recover {
    fn drop(self) {
        let Recover {
            part: _,
            epoch: _,
            version: _,
            backup: _,
            witness: _,
            backups: _,
            witnesses: _,
            lo: _,
            hi: _,
        } = self;
    }
}

/// The epoch is that of the fence.
pub struct FenceAnswer {
    pub epoch: u32,
    pub answer: FenceReply,
}

impl Drop for FenceAnswer {
    fn drop(self) {
        let FenceAnswer {
            epoch: _,
            answer: _,
        } = self;
    }
}

#[derive(Clone, Copy, PartialEq, Eq)]
pub struct Recovered {
    pub part: u32,
    pub epoch: u32,
}

#[derive(Clone, Copy, PartialEq, Eq)]
pub struct Adopted {
    pub part: u32,
    pub epoch: u32,
    pub version: u32,
}

pub struct Prepare {
    pub version: u32,
    pub backups: Items<NodeId>,
    pub witnesses: Items<NodeId>,
}

impl Drop for Prepare {
    fn drop(self) {
        let Prepare {
            version: _,
            backups: _,
            witnesses: _,
        } = self;
    }
}

/// The hashes from `lo` to `hi`, both counted, leave with that migration.
#[derive(Clone, Copy)]
pub struct TakeOut {
    pub migration: u32,
    pub lo: u64,
    pub hi: u64,
    pub ghost ordered: { lo ≤ hi },
}

#[derive(Clone, Copy, PartialEq, Eq)]
pub struct Probe {
    pub id: RequestId,
    pub epoch: u32,
}

/// The epoch is that of the probe.
#[derive(Clone, Copy, PartialEq, Eq)]
pub struct Probed {
    pub id: RequestId,
    pub epoch: u32,
    /// Whether the witness takes requests of that epoch.
    pub live: bool,
}

#[derive(Clone, Copy, PartialEq, Eq)]
pub struct Quick {
    pub id: RequestId,
    pub epoch: u32,
    pub version: u32,
    /// The number of the capture at that master.
    pub capture: u64,
    pub answer: Answer,
}

/// What a migration carries.
pub struct Parcel {
    pub migration: u32,
    pub package: Shared<Package>,
}

impl Drop for Parcel {
    fn drop(self) {
        let Parcel {
            migration: _,
            package: _,
        } = self;
    }
}

impl Body {
    pub fn copy(&self, alloc: Global) -> Result<Body, NoMemory>
        ensures { IfOk result (λ copy. copy ≡ self.now) }
    {
        Ok(match self {
            Body::Update(ask) => Body::Update(ask.share()?),
            Body::Sync(ask) => Body::Sync(ask.share()?),
            Body::Read(ask) => Body::Read(ask.share()?),
            Body::Record(record) => Body::Record(record.share()?),
            Body::Fetch => Body::Fetch,
            Body::Configuration { config } => Body::Configuration {
                config: config.copy(alloc)?,
            },
            Body::Reply(reply) => Body::Reply(reply.copy(alloc)?),
            Body::Worth(worth) => Body::Worth(worth.copy(alloc)?),
            Body::Refuse(refuse) => Body::Refuse(*refuse),
            Body::Accepted(accepted) => Body::Accepted(*accepted),
            Body::Rejected(rejected) => Body::Rejected(*rejected),
            Body::Append(append) => Body::Append(append.copy(alloc)?),
            Body::Appended(appended) => Body::Appended(*appended),
            Body::Gc(gc) => Body::Gc(gc.copy(alloc)?),
            Body::Collected(collected) => Body::Collected(collected.copy(alloc)?),
            Body::Install { epoch } => Body::Install { epoch: *epoch },
            Body::Start(start) => Body::Start(*start),
            Body::Recover(recover) => Body::Recover(recover.try_copy(alloc)?),
            Body::Fence { epoch } => Body::Fence { epoch: *epoch },
            Body::FenceAnswer(answer) => Body::FenceAnswer(answer.copy(alloc)?),
            Body::Freeze { epoch } => Body::Freeze { epoch: *epoch },
            Body::FrozenAnswer { requests } => Body::FrozenAnswer {
                requests: requests.try_copy(alloc)?,
            },
            Body::Recovered(recovered) => Body::Recovered(*recovered),
            Body::Adopted(adopted) => Body::Adopted(*adopted),
            Body::Prepare(prepare) => Body::Prepare(prepare.copy(alloc)?),
            Body::Prepared { version } => Body::Prepared { version: *version },
            Body::TakeOut(take) => Body::TakeOut(*take),
            Body::Taken(parcel) => Body::Taken(parcel.try_copy(alloc)?),
            Body::GiveIn(parcel) => Body::GiveIn(parcel.try_copy(alloc)?),
            Body::Given { migration } => Body::Given {
                migration: *migration,
            },
            Body::ExpireClient { client } => Body::ExpireClient { client: *client },
            Body::Probe(probe) => Body::Probe(*probe),
            Body::Probed(probed) => Body::Probed(*probed),
            Body::Glance(ask) => Body::Glance(ask.share()?),
            Body::Quick(quick) => Body::Quick(quick.copy(alloc)?),
        })
    }
}

impl Ask {
    /// The same, with the request shared. It takes no memory.
    pub fn share(&self) -> Result<Ask, NoMemory>
        ensures { IfOk result (λ shared. shared ≡ self.now) }
    {
        Ok(Ask {
            request: self.request.share()?,
            epoch: self.epoch,
            version: self.version,
        })
    }
}

impl Record {
    /// The same, with the request shared. It takes no memory.
    pub fn share(&self) -> Result<Record, NoMemory>
        ensures { IfOk result (λ shared. shared ≡ self.now) }
    {
        Ok(Record {
            request: self.request.share()?,
            epoch: self.epoch,
        })
    }
}

impl Append {
    pub fn copy(&self, alloc: Global) -> Result<Append, NoMemory>
        ensures { IfOk result (λ copy. copy ≡ self.now) }
    {
        Ok(Append {
            epoch: self.epoch,
            base: self.base,
            round: self.round,
            entries: self.entries.try_copy(alloc)?,
        })
    }
}

impl Gc {
    pub fn copy(&self, alloc: Global) -> Result<Gc, NoMemory>
        ensures { IfOk result (λ copy. copy ≡ self.now) }
    {
        Ok(Gc {
            epoch: self.epoch,
            ids: self.ids.copy(alloc)?,
        })
    }
}

impl Collected {
    pub fn copy(&self, alloc: Global) -> Result<Collected, NoMemory>
        ensures { IfOk result (λ copy. copy ≡ self.now) }
    {
        Ok(Collected {
            epoch: self.epoch,
            answer: self.answer.copy(alloc)?,
        })
    }
}

impl TryCopy for Recover {
    fn try_copy(&self, alloc: Global) -> Result<Recover, NoMemory> {
        Ok(Recover {
            part: self.part,
            epoch: self.epoch,
            version: self.version,
            backup: self.backup,
            witness: self.witness,
            backups: self.backups.copy(alloc)?,
            witnesses: self.witnesses.copy(alloc)?,
            lo: self.lo,
            hi: self.hi,
        })
    }
}

impl FenceAnswer {
    pub fn copy(&self, alloc: Global) -> Result<FenceAnswer, NoMemory>
        ensures { IfOk result (λ copy. copy ≡ self.now) }
    {
        Ok(FenceAnswer {
            epoch: self.epoch,
            answer: self.answer.copy(alloc)?,
        })
    }
}

impl Prepare {
    pub fn copy(&self, alloc: Global) -> Result<Prepare, NoMemory>
        ensures { IfOk result (λ copy. copy ≡ self.now) }
    {
        Ok(Prepare {
            version: self.version,
            backups: self.backups.copy(alloc)?,
            witnesses: self.witnesses.copy(alloc)?,
        })
    }
}

impl TryCopy for Parcel {
    fn try_copy(&self, alloc: Global) -> Result<Parcel, NoMemory> {
        Ok(Parcel {
            migration: self.migration,
            package: self.package.share()?,
        })
    }
}
