// An observer that counts the steps it hears of. At its wish the first steps of the first master and the first witness meet at
// it: each is held until the other is due.
use curp_cmd::{NodeId, NodeKind};
use curp_seat::{Observer, Point};
use std::sync::Wait;
use std::sync::atomic::{AtomicU64, Ordering};
use std::thread;
use std::thread::Parker;
use std::time::Duration;

const FIRST_MASTER: NodeId = NodeId {
    kind: NodeKind::Master,
    number: 1,
};

const FIRST_WITNESS: NodeId = NodeId {
    kind: NodeKind::Witness,
    number: 1,
};

// How many turns a wait for another thread may take.
const TURNS: u32 = 1_000_000;

// How many milliseconds a run that has ended is watched.
const WHILE: u64 = 200;

#[derive(Drop)]
pub(crate) struct Watching {
    // Whether the first steps meet.
    meets: bool,
    steps: AtomicU64,
    // The first step of the first master, and of the first witness: one for each time that the run is made.
    master: AtomicU64,
    witness: AtomicU64,
    // How often a wait for the other one ended without it.
    missed: AtomicU64,
}

impl Watching {
    pub(crate) fn new(meets: bool) -> Watching {
        Watching {
            meets,
            steps: AtomicU64::new(0),
            master: AtomicU64::new(0),
            witness: AtomicU64::new(0),
            missed: AtomicU64::new(0),
        }
    }

    // Hears of a first step, and waits for the other one.
    fn meet(&self, own: &AtomicU64, other: &AtomicU64) {
        own.fetch_add(1, Ordering::SeqCst);
        if self.meets && !comes(other) {
            self.missed.fetch_add(1, Ordering::SeqCst);
        }
    }

    // Whether the run was made once.
    pub(crate) fn heard_one_run(&self) -> bool {
        self.master.load(Ordering::SeqCst) == 1
    }

    // Whether the run was made once, or once more.
    pub(crate) fn heard_two_runs_at_most(&self) -> bool {
        matches!(self.master.load(Ordering::SeqCst), 1 | 2)
    }

    // Whether the first steps were each due while the other one was.
    pub(crate) fn heard_them_meet(&self) -> bool {
        self.master.load(Ordering::SeqCst) == 1
            && self.witness.load(Ordering::SeqCst) == 1
            && self.missed.load(Ordering::SeqCst) == 0
    }

    // How many more steps it hears of for a while.
    pub(crate) fn later_steps<R: Wait>(&self, rt: &R) -> u64 {
        let steps = self.steps.load(Ordering::SeqCst);
        Parker::new().park_timeout(rt, Duration::from_millis(WHILE));
        self.steps.load(Ordering::SeqCst).wrapping_sub(steps)
    }
}

// Whether the other step gets due before the turns are over.
fn comes(other: &AtomicU64) -> bool {
    for _ in 0..TURNS {
        if other.load(Ordering::SeqCst) > 0 {
            return true;
        }
        thread::yield_now();
    }
    false
}

impl Observer for Watching {
    fn reach(&self, point: Point) {
        self.steps.fetch_add(1, Ordering::SeqCst);
        if point.count == 1 && point.node == FIRST_MASTER {
            self.meet(&self.master, &self.witness);
        }
        if point.count == 1 && point.node == FIRST_WITNESS {
            self.meet(&self.witness, &self.master);
        }
    }
}
