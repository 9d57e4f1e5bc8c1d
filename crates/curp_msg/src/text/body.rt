ghost use Rattle.std.specs.Prelude.{Some};
ghost use Rattle.curp_msg.specs.Text.{body_text, message_text};

use crate::text::client::{write_ask, write_probe, write_record};
use crate::text::keeper::{
    write_accepted, write_appended, write_collected, write_fence_answer, write_probed,
    write_rejected,
};
use crate::text::lists::Requests;
use crate::text::manager::{
    write_adopted, write_config, write_prepare, write_recover, write_start, write_take_out,
};
use crate::text::master::{
    write_append, write_gc, write_parcel, write_quick, write_recovered, write_refuse, write_reply,
    write_worth,
};
use crate::{Body, Message};
use curp_cmd::Decimal;
use std::fmt;

/// The kind of the message, then what it carries.
impl fmt::Display for Body {
    ghost output = { λ body. Some (body_text body) };

    fn fmt<W: fmt::Write>(&self, f: &mut fmt::Formatter<W>) -> fmt::Result {
        match self {
            Body::Update(ask) => write_ask(f, "update", ask),
            Body::Sync(ask) => write_ask(f, "sync", ask),
            Body::Read(ask) => write_ask(f, "read", ask),
            Body::Record(record) => write_record(f, record),
            Body::Fetch => f.write_str("fetch"),
            Body::Configuration { config } => write_config(f, config),
            Body::Reply(reply) => write_reply(f, reply.get()),
            Body::Worth(worth) => write_worth(f, worth.get()),
            Body::Refuse(refuse) => write_refuse(f, refuse),
            Body::Accepted(accepted) => write_accepted(f, accepted),
            Body::Rejected(rejected) => write_rejected(f, rejected),
            Body::Append(append) => write_append(f, append),
            Body::Appended(appended) => write_appended(f, appended),
            Body::Gc(gc) => write_gc(f, gc),
            Body::Collected(collected) => write_collected(f, collected),
            Body::Install { epoch } => write!(f, "install e{}", Decimal(*epoch as u64)),
            Body::Start(start) => write_start(f, start),
            Body::Recover(recover) => write_recover(f, recover.get()),
            Body::Fence { epoch } => write!(f, "fence e{}", Decimal(*epoch as u64)),
            Body::FenceAnswer(answer) => write_fence_answer(f, answer),
            Body::Freeze { epoch } => write!(f, "freeze e{}", Decimal(*epoch as u64)),
            Body::FrozenAnswer { requests } => write!(f, "frozen{}", Requests(requests.as_slice())),
            Body::Recovered(recovered) => write_recovered(f, recovered),
            Body::Adopted(adopted) => write_adopted(f, adopted),
            Body::Prepare(prepare) => write_prepare(f, prepare),
            Body::Prepared { version } => write!(f, "prepared v{}", Decimal(*version as u64)),
            Body::TakeOut(take) => write_take_out(f, take),
            Body::Taken(parcel) => write_parcel(f, "taken", parcel.get()),
            Body::GiveIn(parcel) => write_parcel(f, "give", parcel.get()),
            Body::Given { migration } => write!(f, "given g{}", Decimal(*migration as u64)),
            Body::ExpireClient { client } => write!(f, "expire c{}", Decimal(*client as u64)),
            Body::Probe(probe) => write_probe(f, probe),
            Body::Probed(probed) => write_probed(f, probed),
            Body::Glance(ask) => write_ask(f, "glance", ask),
            Body::Quick(quick) => write_quick(f, quick.get()),
        }
    }
}

/// Who sent it, whom it goes to, and what it says.
impl fmt::Display for Message {
    ghost output = { λ message. Some (message_text message) };

    fn fmt<W: fmt::Write>(&self, f: &mut fmt::Formatter<W>) -> fmt::Result {
        let Message { from, to, body } = self;
        write!(f, "{from} {to} {body}")
    }
}

impl fmt::Debug for Body {
    fn fmt<W: fmt::Write>(&self, f: &mut fmt::Formatter<W>) -> fmt::Result {
        let body = self;
        write!(f, "Body({body})")
    }
}

impl fmt::Debug for Message {
    fn fmt<W: fmt::Write>(&self, f: &mut fmt::Formatter<W>) -> fmt::Result {
        let message = self;
        write!(f, "Message({message})")
    }
}
