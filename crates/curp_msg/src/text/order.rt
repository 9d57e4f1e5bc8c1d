ghost use Rattle.std.specs.Prelude.{Some, flat_map};
ghost use Rattle.curp_msg.specs.Input.{input_of};
ghost use Rattle.curp_msg.specs.Text.{done_text, input_text, keeper_text, local_text, refused_text, sent_text, then_completed};

use crate::text::lists::Span;
use crate::{Completed, Done, Input, Local, Message};
use curp_cmd::{Decimal, Keeper};
use std::fmt;

/// The order's word in a script, then what it carries: `invoke put 61 31`, `recover p1 2 1`, `replace backup p1 2`,
/// `migrate 0000000000000000-00000000000000ff p2`.
impl fmt::Display for Local {
    ghost output = { λ order. Some (local_text order) };

    fn fmt<W: fmt::Write>(&self, f: &mut fmt::Formatter<W>) -> fmt::Result {
        match self {
            Local::Invoke(command) => write!(f, "invoke {}", **command),
            Local::Retry(seq) => write!(f, "retry {seq}"),
            Local::Fetch => f.write_str("fetch"),
            Local::Sync => f.write_str("sync"),
            Local::Collect => f.write_str("collect"),
            Local::Recover {
                part,
                backup,
                witness,
            } => write!(f, "recover p{part} {backup} {witness}"),
            Local::Replace {
                keeper,
                part,
                place,
            } => write!(f, "replace {} p{part} {place}", KeeperName(*keeper)),
            Local::Migrate { lo, hi, to } => write!(f, "migrate {} p{to}", Span((*lo, *hi))),
            Local::Nudge => f.write_str("nudge"),
            Local::Expire(client) => write!(f, "expire c{client}"),
        }
    }
}

#[derive(Drop)]
struct KeeperName(Keeper);

impl fmt::Display for KeeperName {
    ghost output = { λ name. Some (keeper_text name.0) };

    fn fmt<W: fmt::Write>(&self, f: &mut fmt::Formatter<W>) -> fmt::Result {
        match self.0 {
            Keeper::Backup => f.write_str("backup"),
            Keeper::Witness => f.write_str("witness"),
        }
    }
}

/// The order, or the message.
impl fmt::Display for Input<'_> {
    ghost output = { λ input. Some (input_text (input_of input)) };

    fn fmt<W: fmt::Write>(&self, f: &mut fmt::Formatter<W>) -> fmt::Result {
        match self {
            Input::Local(order) => write!(f, "{order}"),
            Input::Message(message) => write!(f, "{message}"),
        }
    }
}

impl fmt::Debug for Local {
    fn fmt<W: fmt::Write>(&self, f: &mut fmt::Formatter<W>) -> fmt::Result {
        let order = self;
        write!(f, "Local({order})")
    }
}

impl fmt::Debug for Input<'_> {
    fn fmt<W: fmt::Write>(&self, f: &mut fmt::Formatter<W>) -> fmt::Result {
        let input = self;
        write!(f, "Input({input})")
    }
}

/// `done`, or `refused call 2` for a refusal of that number, then each message and what completed, each behind a
/// semicolon and a space.
impl fmt::Display for Done {
    ghost output = { λ done. Some (done_text done) };

    fn fmt<W: fmt::Write>(&self, f: &mut fmt::Formatter<W>) -> fmt::Result {
        write!(
            f,
            "{}{}{}",
            Refused(self.refused),
            Sent(self.sent.as_slice()),
            Then(self.completed)
        )
    }
}

#[derive(Drop)]
struct Refused(u8);

impl fmt::Display for Refused {
    ghost output = { λ refused. Some (refused_text refused.0) };

    fn fmt<W: fmt::Write>(&self, f: &mut fmt::Formatter<W>) -> fmt::Result {
        match self.0 {
            0 => f.write_str("done"),
            number => write!(f, "refused call {number}"),
        }
    }
}

#[derive(Drop)]
struct Sent<'a>(&'a [Message]);

impl fmt::Display for Sent<'_> {
    ghost output = { λ sent. Some (flat_map sent_text sent.0.now) };

    fn fmt<W: fmt::Write>(&self, f: &mut fmt::Formatter<W>) -> fmt::Result {
        for message in self.0 {
            write!(f, "; {message}")?;
        }
        Ok(())
    }
}

#[derive(Drop)]
struct Then(Option<Completed>);

impl fmt::Display for Then {
    ghost output = { λ then. Some (then_completed then.0) };

    fn fmt<W: fmt::Write>(&self, f: &mut fmt::Formatter<W>) -> fmt::Result {
        match self.0 {
            None => Ok(()),
            Some(completed) => write!(f, "; c {completed}"),
        }
    }
}

impl fmt::Debug for Done {
    fn fmt<W: fmt::Write>(&self, f: &mut fmt::Formatter<W>) -> fmt::Result {
        let done = self;
        write!(f, "Done({done})")
    }
}
