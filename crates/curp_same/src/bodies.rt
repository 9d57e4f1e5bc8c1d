//! What messages say.
use crate::Same;
use curp_msg::{
    Accepted, Adopted, Append, Appended, Ask, Body, Collected, FenceAnswer, Gc, Message, Parcel,
    Probe, Probed, Quick, Record, Recovered, Refuse, Rejected, Reply, Start, TakeOut, Worth,
};

impl Same for Ask {
    fn same(&self, other: &Ask) -> bool {
        self.request.same(&other.request)
            && self.epoch == other.epoch
            && self.version == other.version
    }
}

impl Same for Record {
    fn same(&self, other: &Record) -> bool {
        self.request.same(&other.request) && self.epoch == other.epoch
    }
}

impl Same for Reply {
    fn same(&self, other: &Reply) -> bool {
        self.id.same(&other.id)
            && self.synced == other.synced
            && self.epoch == other.epoch
            && self.version == other.version
            && self.answer.same(&other.answer)
    }
}

impl Same for Worth {
    fn same(&self, other: &Worth) -> bool {
        self.id.same(&other.id)
            && self.epoch == other.epoch
            && self.capture == other.capture
            && self.answer.same(&other.answer)
    }
}

impl Same for Refuse {
    fn same(&self, other: &Refuse) -> bool {
        self.id.same(&other.id) && self.refusal.same(&other.refusal)
    }
}

impl Same for Accepted {
    fn same(&self, other: &Accepted) -> bool {
        self.id.same(&other.id) && self.epoch == other.epoch
    }
}

impl Same for Rejected {
    fn same(&self, other: &Rejected) -> bool {
        self.id.same(&other.id) && self.reason.same(&other.reason)
    }
}

impl Same for Append {
    fn same(&self, other: &Append) -> bool {
        self.epoch == other.epoch
            && self.base == other.base
            && self.round == other.round
            && self.entries.same(&other.entries)
    }
}

impl Same for Appended {
    fn same(&self, other: &Appended) -> bool {
        self.epoch == other.epoch && self.round == other.round && self.answer.same(&other.answer)
    }
}

impl Same for Gc {
    fn same(&self, other: &Gc) -> bool {
        self.epoch == other.epoch && self.ids.same(&other.ids)
    }
}

impl Same for Collected {
    fn same(&self, other: &Collected) -> bool {
        self.epoch == other.epoch && self.answer.same(&other.answer)
    }
}

impl Same for Start {
    fn same(&self, other: &Start) -> bool {
        self.part == other.part && self.epoch == other.epoch
    }
}

impl Same for FenceAnswer {
    fn same(&self, other: &FenceAnswer) -> bool {
        self.epoch == other.epoch && self.answer.same(&other.answer)
    }
}

impl Same for Recovered {
    fn same(&self, other: &Recovered) -> bool {
        self.part == other.part && self.epoch == other.epoch
    }
}

impl Same for Adopted {
    fn same(&self, other: &Adopted) -> bool {
        self.part == other.part && self.epoch == other.epoch && self.version == other.version
    }
}

impl Same for TakeOut {
    fn same(&self, other: &TakeOut) -> bool {
        self.migration == other.migration && self.lo == other.lo && self.hi == other.hi
    }
}

impl Same for Parcel {
    fn same(&self, other: &Parcel) -> bool {
        self.migration == other.migration && self.package.same(&other.package)
    }
}

impl Same for Probe {
    fn same(&self, other: &Probe) -> bool {
        self.id.same(&other.id) && self.epoch == other.epoch
    }
}

impl Same for Probed {
    fn same(&self, other: &Probed) -> bool {
        self.id.same(&other.id) && self.epoch == other.epoch && self.live == other.live
    }
}

impl Same for Quick {
    fn same(&self, other: &Quick) -> bool {
        self.id.same(&other.id)
            && self.epoch == other.epoch
            && self.version == other.version
            && self.capture == other.capture
            && self.answer.same(&other.answer)
    }
}

impl Same for Body {
    fn same(&self, other: &Body) -> bool {
        match self {
            Body::Update(a) => matches!(other, Body::Update(b) if a.same(b)),
            Body::Sync(a) => matches!(other, Body::Sync(b) if a.same(b)),
            Body::Read(a) => matches!(other, Body::Read(b) if a.same(b)),
            Body::Record(a) => matches!(other, Body::Record(b) if a.same(b)),
            Body::Fetch => matches!(other, Body::Fetch),
            Body::Configuration { config: a } =>
                matches!(other, Body::Configuration { config: b } if a.same(b)),
            Body::Reply(a) => matches!(other, Body::Reply(b) if a.same(b)),
            Body::Worth(a) => matches!(other, Body::Worth(b) if a.same(b)),
            Body::Refuse(a) => matches!(other, Body::Refuse(b) if a.same(b)),
            Body::Accepted(a) => matches!(other, Body::Accepted(b) if a.same(b)),
            Body::Rejected(a) => matches!(other, Body::Rejected(b) if a.same(b)),
            Body::Append(a) => matches!(other, Body::Append(b) if a.same(b)),
            Body::Appended(a) => matches!(other, Body::Appended(b) if a.same(b)),
            Body::Gc(a) => matches!(other, Body::Gc(b) if a.same(b)),
            Body::Collected(a) => matches!(other, Body::Collected(b) if a.same(b)),
            Body::Install { epoch: a } => matches!(other, Body::Install { epoch: b } if a.same(b)),
            Body::Start(a) => matches!(other, Body::Start(b) if a.same(b)),
            Body::Recover(a) => matches!(other, Body::Recover(b) if a.same(b)),
            Body::Fence { epoch: a } => matches!(other, Body::Fence { epoch: b } if a.same(b)),
            Body::FenceAnswer(a) => matches!(other, Body::FenceAnswer(b) if a.same(b)),
            Body::Freeze { epoch: a } => matches!(other, Body::Freeze { epoch: b } if a.same(b)),
            Body::FrozenAnswer { requests: a } =>
                matches!(other, Body::FrozenAnswer { requests: b } if a.same(b)),
            Body::Recovered(a) => matches!(other, Body::Recovered(b) if a.same(b)),
            Body::Adopted(a) => matches!(other, Body::Adopted(b) if a.same(b)),
            Body::Prepare(a) => matches!(other, Body::Prepare(b) if a.same(b)),
            Body::Prepared { version: a } =>
                matches!(other, Body::Prepared { version: b } if a.same(b)),
            Body::TakeOut(a) => matches!(other, Body::TakeOut(b) if a.same(b)),
            Body::Taken(a) => matches!(other, Body::Taken(b) if a.same(b)),
            Body::GiveIn(a) => matches!(other, Body::GiveIn(b) if a.same(b)),
            Body::Given { migration: a } =>
                matches!(other, Body::Given { migration: b } if a.same(b)),
            Body::ExpireClient { client: a } =>
                matches!(other, Body::ExpireClient { client: b } if a.same(b)),
            Body::Probe(a) => matches!(other, Body::Probe(b) if a.same(b)),
            Body::Probed(a) => matches!(other, Body::Probed(b) if a.same(b)),
            Body::Glance(a) => matches!(other, Body::Glance(b) if a.same(b)),
            Body::Quick(a) => matches!(other, Body::Quick(b) if a.same(b)),
        }
    }
}

impl Same for Message {
    fn same(&self, other: &Message) -> bool {
        self.from.same(&other.from) && self.to.same(&other.to) && self.body.same(&other.body)
    }
}
