ghost use Rattle.std.specs.Prelude.{◌≡◌, IfOk};
ghost use Rattle.curp_script.specs.Values.{value_data};
ghost use Rattle.curp_script.specs.Events.{event_in};
ghost use Rattle.curp_base.specs.Failing.{Gives};
ghost use Rattle.curp_script.specs.Grammar.{header_in, step_in, header_of, protocol_at};
ghost use Rattle.curp_script.specs.Headers.{bad_field};
ghost use Rattle.curp_script.specs.Manage.{HasCall, manage_in};

mod command;
mod delivery;
mod digits;
mod event;
mod fields;
mod manage;
mod number;
mod object;
mod steps;
mod words;

use crate::kind::header_names;
use crate::{EventLine, FieldName, Header, LineError, ManageLine, Protocol, Step};
use curp_base::Failed;
use delivery::printed_delivery;
use event::event_of;
use fields::{flag_at, no_other, number_at};
use json::{Scratch, Value as Json};
use manage::manage_of;
use object::parse_object;
use std::alloc::Global;
use steps::step_of;

/// Reads the lines of a script. From line to line it keeps the memory that reading needs, 16 KB and as many bytes as the
/// longest line had, and nothing else.
pub struct LineReader {
    alloc: Global,
    scratch: Scratch,
}

impl Drop for LineReader {
    fn drop(self) {
        let LineReader {
            alloc: _,
            scratch: _,
        } = self;
    }
}

impl LineReader {
    /// A reader that has read no line.
    pub fn new(alloc: Global) -> LineReader {
        LineReader {
            alloc,
            scratch: Scratch::new(alloc),
        }
    }

    /// The first line of a script as a header, or why it is none. `NoMemory` says nothing of the line.
    pub fn parse_header(&mut self, line: &[u8]) -> Result<Header, Failed<LineError>>
        ensures reads { Gives (header_in line.now) result }
        ensures valid { IfOk result (λ header. bad_field header ≡ None) }
    {
        let object = parse_object(self.alloc, &mut self.scratch, line)?;
        header_of(&object).map_err(Failed::Because)
    }

    /// A later line of a script as a step, or why it is none. `NoMemory` says nothing of the line.
    pub fn parse_line(&mut self, line: &[u8]) -> Result<Step, Failed<LineError>>
        ensures reads { Gives (step_in line.now) result }
    {
        if let Some(message) = printed_delivery(line) {
            return Ok(Step::Deliver { message });
        }
        let object = parse_object(self.alloc, &mut self.scratch, line)?;
        step_of(self.alloc, &object)
    }

    /// A line of a history or of an order, or why it is none. `NoMemory` says nothing of the line.
    pub fn parse_event(&mut self, line: &[u8]) -> Result<EventLine, Failed<LineError>>
        ensures reads { Gives (event_in line.now) result }
    {
        let object = parse_object(self.alloc, &mut self.scratch, line)?;
        match event_of(&object) {
            Ok(line) => Ok(line),
            Err(reason) => Err(Failed::Because(reason)),
        }
    }

    /// A line of orders for a manager whose journal is kept, or why it is none. `NoMemory` says nothing of the line.
    pub fn parse_order(&mut self, line: &[u8]) -> Result<ManageLine, Failed<LineError>>
        ensures reads { Gives (manage_in line.now) result }
        ensures call { IfOk result HasCall }
    {
        let object = parse_object(self.alloc, &mut self.scratch, line)?;
        manage_of(&object).map_err(Failed::Because)
    }
}

fn header_of(object: &Json<'_>) -> Result<Header, LineError>
    ensures reads { result ≡ header_of (value_data object.now) }
    ensures valid { IfOk result (λ header. bad_field header ≡ None) }
{
    let clients = number_at(object, FieldName::Clients, 1, 64)?;
    let f = number_at(object, FieldName::F, 1, 5)?;
    let fast = flag_at(object, FieldName::Fast)?;
    let parts = number_at(object, FieldName::Parts, 1, 16)?;
    let protocol = protocol_at(object)?;
    let sets = number_at(object, FieldName::Sets, 1, 1024)?;
    let ways = number_at(object, FieldName::Ways, 1, 16)?;
    no_other(object, header_names())?;
    Ok(Header {
        clients: clients as u32,
        f: f as u32,
        fast,
        parts: parts as u32,
        protocol,
        sets: sets as u32,
        ways: ways as u32,
    })
}

fn protocol_at(object: &Json<'_>) -> Result<Protocol, LineError>
    ensures { result ≡ protocol_at (value_data object.now) }
{
    let number = number_at(object, FieldName::Protocol, 1, 2)?;
    Ok(if number > 1 {
        Protocol::Two
    } else {
        Protocol::One
    })
}
