ghost use Rattle.std.specs.Prelude.{◌≡◌, ◌≢◌, false, None};

use crate::inside::{Inside, Out};
use crate::{Listener, MadeStep};
use curp_base::NoMemory;
use curp_journal::Arrived;
use curp_msg::Core;
use curp_ruled::{Envelope, Posts, Take};
use curp_seat::{Chores, Kept, Observer};
use std::alloc::Global;
use std::sync::{Condvar, Mutex, Wait};

/// A node with its journal, and an outbox, under one lock. A worker and a courier are at it, each on a thread of its own.
pub struct Desk<N: Core + Drop> {
    alloc: Global,
    inside: Mutex<Inside<N>>,
    /// Something was put out, or the node has ended.
    changed: Condvar,
}

impl<N: Core + Drop> Drop for Desk<N> {
    fn drop(self) {
        let Desk {
            alloc: _,
            inside: _,
            changed: _,
        } = self;
    }
}

impl<N: Core + Drop> Desk<N> {
    /// The desk of the node that has this number as a sender. It takes no memory.
    pub fn new(alloc: Global, number: u32, kept: Kept<N>) -> Desk<N>
        requires { kept.ended ≡ false }
    {
        Desk {
            alloc,
            inside: Mutex::new(Inside::new(alloc, number, kept)),
            changed: Condvar::new(),
        }
    }

    /// Takes envelopes and makes the steps that they ask for, each followed by those of the orders that are due then, until
    /// it has an end of each sender. The node ends with the end of the driver, who is the last of them: what comes after
    /// that is dropped, as it is after running out of memory.
    pub fn work<R: Wait, G: Observer, C: Chores + Drop, L: Listener>(
        &self,
        rt: &R,
        observer: &G,
        mut take: Take,
        mut chores: C,
        listener: &L,
    ) {
        let driver = take.posts().saturating_sub(1);
        let mut left = take.posts();
        let mut works = self.begin(rt, observer, &mut chores, listener);
        for _ in rt.forever() {
            if left == 0 {
                break;
            }
            let envelope = take.receive(rt);
            if envelope.is_end() {
                left -= 1;
                if envelope.sender() == driver {
                    works = false;
                    self.end(rt);
                }
            } else if works {
                works = self.turn(rt, observer, &mut chores, listener, envelope);
            }
        }
    }

    /// Sends what is put out, in its order, until the node has ended and nothing is left, and then an end to each inbox.
    pub fn carry<R: Wait>(&self, rt: &R, mut posts: Posts) {
        for _ in rt.forever() {
            let Some(Out { to, envelope }) = self.next(rt) else {
                break;
            };
            posts.send(rt, to, envelope);
        }
        posts.end_all(rt);
    }

    /// The node with its journal.
    pub fn into_kept(self) -> Kept<N>
        ensures running { result.ended ≡ false }
    {
        let Desk {
            alloc: _,
            inside,
            changed: _,
        } = self;
        inside.into_inner().into_kept()
    }

    /// Makes the steps that are due before the first envelope. False where there was no memory.
    fn begin<R: Wait, G: Observer, C: Chores, L: Listener>(
        &self,
        rt: &R,
        observer: &G,
        chores: &mut C,
        listener: &L,
    ) -> bool {
        let made = self.give_due(rt, observer, chores, listener);
        goes_on(rt, listener, made)
    }

    /// Makes the step that an envelope asks for, and those that are due then. False where there was no memory.
    fn turn<R: Wait, G: Observer, C: Chores, L: Listener>(
        &self,
        rt: &R,
        observer: &G,
        chores: &mut C,
        listener: &L,
        envelope: Envelope,
    ) -> bool
        requires { envelope.carries ≢ None }
    {
        let made = self.give_envelope(rt, observer, chores, listener, envelope);
        goes_on(rt, listener, made)
    }

    fn give_envelope<R: Wait, G: Observer, C: Chores, L: Listener>(
        &self,
        rt: &R,
        observer: &G,
        chores: &mut C,
        listener: &L,
        envelope: Envelope,
    ) -> Result<(), NoMemory>
        requires { envelope.carries ≢ None }
    {
        let input = envelope.open(self.alloc)?;
        self.give(rt, observer, chores, listener, input)?;
        self.give_due(rt, observer, chores, listener)
    }

    fn give_due<R: Wait, G: Observer, C: Chores, L: Listener>(
        &self,
        rt: &R,
        observer: &G,
        chores: &mut C,
        listener: &L,
    ) -> Result<(), NoMemory> {
        for _ in rt.forever() {
            let Some(order) = chores.due()? else {
                break;
            };
            self.give(rt, observer, chores, listener, Arrived::Local(order, 0))?;
        }
        Ok(())
    }

    fn give<R: Wait, G: Observer, C: Chores, L: Listener>(
        &self,
        rt: &R,
        observer: &G,
        chores: &mut C,
        listener: &L,
        input: Arrived,
    ) -> Result<(), NoMemory> {
        if let Some(step) = self.step(rt, observer, input)? {
            chores.note(step.took, step.completed);
            listener.hear_step(rt, step);
        }
        Ok(())
    }

    /// Makes a step under the lock. None where the node refused the input.
    fn step<R: Wait, G: Observer>(
        &self,
        rt: &R,
        observer: &G,
        input: Arrived,
    ) -> Result<Option<MadeStep>, NoMemory> {
        let made = self.inside.lock(rt).make(observer, input);
        self.changed.notify_all();
        made
    }

    fn end<R: Wait>(&self, rt: &R) {
        self.inside.lock(rt).end();
        self.changed.notify_all();
    }

    /// Waits for what is to be sent next. None where the node has ended and nothing is left.
    fn next<R: Wait>(&self, rt: &R) -> Option<Out> {
        let mut inside = self.inside.lock(rt);
        for _ in rt.forever() {
            if let Some(out) = inside.next() {
                return Some(out);
            }
            if inside.ended() {
                return None;
            }
            inside = self.changed.wait(rt, inside);
        }
        unreachable!()
    }
}

/// Whether the node goes on after these steps. Running out of memory is told.
fn goes_on<R: Wait, L: Listener>(rt: &R, listener: &L, made: Result<(), NoMemory>) -> bool {
    let goes_on = made.is_ok();
    if !goes_on {
        listener.hear_shortage(rt);
    }
    goes_on
}
