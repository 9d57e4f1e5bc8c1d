use curp_base::NoMemory;
use curp_due::Need;
use std::alloc::{AllocError, Global};
use std::sync::{Condvar, Mutex, Wait};

/// What was told so far.
#[derive(Drop)]
struct Told {
    completed: u64,
    /// The greatest number of a master that took the word of its adoption.
    serving: u32,
    /// For each client, that of client 1 first, the greatest number of a master that a configuration it took names.
    configured: Vec<u32>,
    /// The highest stamp of a step of those that told something.
    stamp: u64,
    failed: bool,
}

/// Where workers tell the driver how the run goes.
#[derive(Drop)]
pub(crate) struct Board {
    told: Mutex<Told>,
    changed: Condvar,
}

impl Board {
    /// For a run with so many clients.
    pub(crate) fn new(alloc: Global, clients: u32) -> Result<Board, NoMemory> {
        let mut configured = Vec::with_capacity(alloc, clients as usize)?;
        for _ in 0..clients {
            configured.push(0)?;
        }
        Ok(Board {
            told: Mutex::new(Told {
                completed: 0,
                serving: 0,
                configured,
                stamp: 0,
                failed: false,
            }),
            changed: Condvar::new(),
        })
    }

    /// Something that the driver may wait for came, by a step with that stamp.
    pub(crate) fn tell<R: Wait>(&self, rt: &R, stamp: u64, word: Word) {
        let mut told = self.told.lock(rt);
        told.hear(word);
        told.stamp = told.stamp.max(stamp);
        self.changed.notify_all();
    }

    /// The run can't go on: there was no memory. Every wait ends.
    pub(crate) fn tell_failed<R: Wait>(&self, rt: &R) {
        let mut told = self.told.lock(rt);
        told.failed = true;
        self.changed.notify_all();
    }

    /// An error where it was told that the run can't go on.
    pub(crate) fn fails<R: Wait>(&self, rt: &R) -> Result<(), NoMemory> {
        if self.told.lock(rt).failed {
            Err(AllocError)
        } else {
            Ok(())
        }
    }

    /// Waits for what the driver needs to go on. It gives a stamp that no step which told something of it is above. An
    /// error comes where the run can't go on.
    pub(crate) fn wait<R: Wait>(&self, rt: &R, need: Need) -> Result<u64, NoMemory> {
        let mut told = self.told.lock(rt);
        for _ in rt.forever() {
            if told.failed {
                return Err(AllocError);
            }
            if told.has(need) {
                return Ok(told.stamp);
            }
            told = self.changed.wait(rt, told);
        }
        unreachable!()
    }
}

/// What a worker tells.
#[derive(Clone, Copy)]
pub(crate) enum Word {
    /// So many requests more are completed.
    Completed(u64),
    /// The master of that number serves.
    Serving(u32),
    /// The client of that number took a configuration, and the greatest number of a master that it names is `newest`.
    Configured { client: u32, newest: u32 },
}

impl Told {
    fn hear(&mut self, word: Word) {
        match word {
            Word::Completed(count) => self.completed = self.completed.saturating_add(count),
            Word::Serving(master) => self.serving = self.serving.max(master),
            Word::Configured { client, newest } => self.hear_configured(client, newest),
        }
    }

    fn hear_configured(&mut self, client: u32, newest: u32) {
        if let Some(index) = client.checked_sub(1) {
            if let Some(known) = self.configured.get_mut(index as usize) {
                *known = newest.max(*known);
            }
        }
    }

    fn has(&self, need: Need) -> bool {
        match need {
            Need::Completed(count) => self.completed >= count,
            Need::Serving(master) => self.serving >= master,
            Need::Configured(master) => self.configured.iter().all(|newest| *newest >= master),
        }
    }
}
