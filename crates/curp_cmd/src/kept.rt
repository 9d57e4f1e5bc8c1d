ghost use Rattle.std.specs.Prelude.{◌≡◌, ◌+◌, ◌≤◌, length, IfOk, OnOk};

use crate::{Command, Key, Request};
use curp_base::{Boxed, NoMemory, Shared};
use std::alloc::Global;
use std::marker::Model;
use std::ops::Deref;

/// The command of a request, as those keep it who outlast the request: it stands in memory once, with the request.
/// Contracts see the command.
pub struct KeptCommand {
    place: Place,
}

impl Drop for KeptCommand {
    fn drop(self) {
        let KeptCommand { place: _ } = self;
    }
}

// Where a kept command stands.
#[derive(Drop)]
pub(crate) enum Place {
    // With the request, which others hold too.
    Shared(Shared<Request>),
    // At a place of its own.
    Own(Boxed<Command>),
}

impl Model for KeptCommand {
    ghost use Rattle.curp_cmd.specs.declared.command.Command.{Command};
    ghost use Rattle.curp_cmd.specs.Kept.{command_at};

    ghost Value = { Command };

    ghost view = { λ c. command_at c.place };
}

impl KeptCommand {
    /// A command that no request has.
    pub fn new(alloc: Global, command: &Command) -> Result<KeptCommand, NoMemory>
        ensures { IfOk result (λ kept. kept ≡ command.now) }
    {
        Ok(KeptCommand {
            place: Place::Own(Boxed::of(alloc, command)?),
        })
    }

    /// The command of a request. It takes no memory.
    pub fn of(request: Shared<Request>) -> KeptCommand
        ensures { result ≡ request.command }
    {
        KeptCommand {
            place: Place::Shared(request),
        }
    }

    /// The same for one more to keep.
    pub fn share(&self, alloc: Global) -> Result<KeptCommand, NoMemory>
        ensures { IfOk result (λ kept. kept ≡ self.now) }
    {
        match &self.place {
            Place::Shared(request) => Ok(KeptCommand::of(request.share()?)),
            Place::Own(command) => KeptCommand::new(alloc, command.get()),
        }
    }
}

impl Deref for KeptCommand {
    type Target = Command;

    ghost deref_gives = { λ c x. x ≡ c };

    fn deref(&self) -> &Command {
        match &self.place {
            Place::Shared(request) => &request.command,
            Place::Own(command) => command.get(),
        }
    }
}

/// Places that stand ready for commands. So many may hold a request as can be counted; one that comes behind them has the
/// command at a place that stood ready, so that keeping a command doesn't fail. Contracts see how many stand ready.
pub struct Standby {
    alloc: Global,
    places: Vec<Boxed<Command>>,
}

impl Drop for Standby {
    fn drop(self) {
        let Standby {
            alloc: _,
            places: _,
        } = self;
    }
}

impl Model for Standby {
    ghost use Rattle.std.specs.Prelude.{ℕ, length};

    ghost Value = { ℕ };

    ghost view = { λ s. length s.places.items };
}

impl Standby {
    /// None stands ready. It takes no memory.
    pub fn new(alloc: Global) -> Standby
        ensures { result ≡ 0 }
    {
        Standby {
            alloc,
            places: Vec::new(alloc),
        }
    }

    /// Makes so many stand ready.
    pub fn reserve(&mut self, count: u64) -> Result<(), NoMemory>
        ensures room { OnOk result (count ≤ self.new) }
        ensures kept { self.old ≤ self.new }
    {
        let there = self.places.len() as u64;
        for _ in there..count.max(there) {
            let place = Boxed::of(self.alloc, &any_command())?;
            self.places.push(place)?;
        }
        Ok(())
    }

    /// The request's command, kept. It takes no memory.
    pub fn keep(&mut self, request: &Shared<Request>) -> KeptCommand
        requires { 1 ≤ self.old }
        ensures command { result ≡ request.now.command }
        ensures ready { self.old ≤ self.new + 1 }
    {
        match request.share() {
            Ok(shared) => KeptCommand::of(shared),
            Err(_) => self.keep_own(&request.command),
        }
    }

    /// The command, kept at a place of its own. It takes no memory.
    pub fn keep_own(&mut self, command: &Command) -> KeptCommand
        requires { 1 ≤ self.old }
        ensures command { result ≡ command.now }
        ensures ready { self.old ≤ self.new + 1 }
    {
        let place = self.places.pop().unwrap();
        KeptCommand {
            place: Place::Own(place.with(command)),
        }
    }
}

// What stands at a place until a command comes.
fn any_command() -> Command {
    match Key::new(&[0]) {
        Ok(key) => Command::Get(key),
        Err(_) => unreachable!(),
    }
}
