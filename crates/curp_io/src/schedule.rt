ghost use Rattle.std.specs.Prelude.{◌≡◌, ◌≤◌, if◌then◌else◌, IfOk};
ghost use Rattle.curp_io.specs.Memory.{called, fails, fresh_calls};

use curp_base::NoMemory;
use std::alloc::Global;
use std::marker::Model;

/// The calls of a source, a sink or a disk, of which those with the listed numbers fail. The first call has number 1.
#[derive(Drop)]
pub struct Schedule {
    made: u64,
    failing: Vec<u64>,
    faults: u64,
}

/// What becomes of a call.
pub enum Turn {
    Goes,
    Fails,
}

impl Model for Schedule {
    ghost use Rattle.curp_io.specs.Memory.{Calls};

    ghost Value = { Calls };

    ghost view = { λ s. record { made = s.made; failing = s.failing.items; faults = s.faults } };
}

impl Schedule {
    pub fn new(alloc: Global, failing: &[u64]) -> Result<Schedule, NoMemory>
        ensures calls { IfOk result (λ calls. calls ≡ fresh_calls failing.now) }
    {
        Ok(Schedule {
            made: 0,
            failing: Vec::from_slice(alloc, failing)?,
            faults: 0,
        })
    }

    /// Counts a call, and says whether it fails.
    pub fn turn(&mut self) -> Turn
        ensures calls { self.new ≡ called self.old }
        ensures fails { result ≡ (if fails self.old then Turn.Fails else Turn.Goes) }
        ensures never_falls { self.old.faults ≤ self.new.faults }
    {
        self.made = self.made.saturating_add(1);
        if self.failing.contains(&self.made) {
            self.faults = self.faults.saturating_add(1);
            Turn::Fails
        } else {
            Turn::Goes
        }
    }
}
