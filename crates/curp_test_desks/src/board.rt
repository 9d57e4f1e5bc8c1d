use curp_base::NoMemory;
use curp_cmd::RequestId;
use curp_desk::{Listener, MadeStep};
use curp_msg::Local;
use curp_seat::{Chores, Took};
use std::sync::{Condvar, Mutex, Wait};

// Counts the steps that were made.
#[derive(Drop)]
pub(crate) struct Board {
    steps: Mutex<u64>,
    changed: Condvar,
}

impl Board {
    pub(crate) fn new() -> Board {
        Board {
            steps: Mutex::new(0),
            changed: Condvar::new(),
        }
    }

    fn tell<R: Wait>(&self, rt: &R, steps: u64) {
        let mut told = self.steps.lock(rt);
        *told = told.saturating_add(steps);
        self.changed.notify_all();
    }

    // Waits until so many steps are made.
    pub(crate) fn wait<R: Wait>(&self, rt: &R, steps: u64) {
        let mut told = self.steps.lock(rt);
        for _ in rt.forever() {
            if *told >= steps {
                return;
            }
            told = self.changed.wait(rt, told);
        }
        unreachable!()
    }
}

impl Listener for Board {
    fn hear_step<R: Wait>(&self, rt: &R, _step: MadeStep) {
        self.tell(rt, 1);
    }

    fn hear_shortage<R: Wait>(&self, rt: &R) {
        self.tell(rt, u64::MAX);
    }
}

// Begins so many messages, each to be passed on so often; and behind each message so many again.
#[derive(Drop)]
pub(crate) struct Beginnings {
    pub begins: u32,
    pub often: u32,
    pub behind: u32,
}

impl Chores for Beginnings {
    fn note(&mut self, took: Took, _completed: Option<RequestId>) {
        if took != Took::Order && self.behind > 0 {
            self.begins = self.behind;
        }
    }

    fn due(&mut self) -> Result<Option<Local>, NoMemory> {
        if self.begins == 0 {
            return Ok(None);
        }
        self.begins -= 1;
        Ok(Some(Local::Retry(self.often)))
    }
}
