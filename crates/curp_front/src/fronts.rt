ghost use Rattle.std.specs.Prelude.{◌≡◌, ◌↔◌, [], true, length, map, OnOk, OnErr, IfOk};
ghost use Rattle.curp_front.specs.Conversation.{completed};
ghost use Rattle.curp_front.specs.Fronts.{after_output, after_taking, bytes_came, ended, is_full, next_output, next_taken, settled_in};
ghost use Rattle.curp_front.specs.declared.due.DueReply.TheVariants as due;

use crate::connection::Connection;
use crate::connections::{Admitted, add_bytes, complete, end, settle, take_command, take_output};
use crate::due::{DueReply, InvokeRefusal};
use crate::output::FrontOutput;
use curp_base::NoMemory;
use curp_cmd::{Answer, Command, RequestId};
use std::alloc::Global;
use std::marker::Model;

/// How many requests of a client node may be pending.
const MOST_PENDING: usize = 8;

/// The connections in front of a client node. Contracts see each as a `Conversation`.
///
/// A connection begins by its first bytes. Whoever holds it says once that no more of its bytes come (`on_closed`): the
/// client has ended it, or it was told to close. Only then it is forgotten, and its number may be used again.
///
/// After anything came, tell all that `next_output` gives, and then invoke what `next_command` gives, until that gives
/// nothing: what is told may bring the next command of a connection to the front.
///
/// At most 1,024 connections are held, and of each at most 131,072 bytes and 16 replies that are due.
pub struct Fronts {
    alloc: Global,
    connections: Vec<Connection>,
}

impl Drop for Fronts {
    fn drop(self) {
        let Fronts {
            alloc: _,
            connections: _,
        } = self;
    }
}

impl Model for Fronts {
    ghost use Rattle.std.specs.Prelude.{List};
    ghost use Rattle.curp_front.specs.Conversation.{Conversation};

    ghost Value = { List Conversation };

    ghost view = { λ f. f.connections.items };
}

impl Fronts {
    /// No connection. It takes no memory.
    pub fn new(alloc: Global) -> Fronts
        ensures { result ≡ [] }
    {
        Fronts {
            alloc,
            connections: Vec::new(alloc),
        }
    }

    /// How many connections there are.
    pub fn len(&self) -> usize
        ensures { result ≡ length self.now }
    {
        self.connections.len()
    }

    // ---- what comes

    /// Bytes of a connection came. Those behind its end, or behind an error that ends it, are passed over.
    pub fn on_bytes(&mut self, connection: u64, bytes: &[u8]) -> Result<Admitted, NoMemory>
        ensures admitted { IfOk result (λ admitted. (admitted ≡ Admitted.TooMany) ↔ (is_full connection self.old ≡ true)) }
        ensures connections { OnOk result (self.new ≡ bytes_came connection bytes.now self.old) }
        ensures err { OnErr result (self.new ≡ self.old) }
    {
        add_bytes(self.alloc, &mut self.connections, connection, bytes)
    }

    /// No more bytes of a connection come: its client ended it, or it was told to close. What came before is answered,
    /// unless it was told to close.
    pub fn on_closed(&mut self, connection: u64)
        ensures connections { self.new ≡ ended connection self.old }
    {
        end(&mut self.connections, connection);
    }

    /// The client node has invoked, under this number, the first of the commands that were given of a connection and
    /// neither invoked nor refused.
    pub fn on_invoked(&mut self, connection: u64, id: RequestId)
        ensures connections { self.new ≡ settled_in connection (due.Pending id) self.old }
    {
        settle(&mut self.connections, connection, &DueReply::Pending(id));
    }

    /// The client node has not invoked the first of those commands.
    pub fn on_refused(&mut self, connection: u64, why: InvokeRefusal)
        ensures connections { self.new ≡ settled_in connection (due.Refused why) self.old }
    {
        settle(&mut self.connections, connection, &DueReply::Refused(why));
    }

    /// A request of the client node was completed. One that is of no connection, as those of an earlier process, changes
    /// nothing.
    pub fn on_completed(&mut self, id: RequestId, answer: &Answer)
        ensures connections { self.new ≡ map (completed id answer.now) self.old }
    {
        complete(&mut self.connections, &id, answer);
    }

    // ---- what is to be done

    /// The command that the client node is to invoke next, with its connection, where so many requests are pending or
    /// about to be. `on_invoked` or `on_refused` tells what came of it. None is given at 8. The connections take turns.
    pub fn next_command(&mut self, pending: usize) -> Result<Option<(u64, Command)>, NoMemory>
        ensures command { IfOk result (λ given. given ≡ next_taken pending self.old) }
        ensures connections { OnOk result (self.new ≡ after_taking pending self.old) }
        ensures err { OnErr result (self.new ≡ self.old) }
    {
        if pending >= MOST_PENDING {
            Ok(None)
        } else {
            take_command(&mut self.connections)
        }
    }

    /// What is to be told next, if anything is. It is told once.
    pub fn next_output(&mut self) -> Result<Option<FrontOutput>, NoMemory>
        ensures output { IfOk result (λ output. output ≡ next_output self.old) }
        ensures connections { OnOk result (self.new ≡ after_output self.old) }
        ensures err { OnErr result (self.new ≡ self.old) }
    {
        take_output(self.alloc, &mut self.connections)
    }
}
