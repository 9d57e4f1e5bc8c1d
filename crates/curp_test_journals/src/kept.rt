// Journals of a small node: what is kept, how it is stamped and named, and that its inputs can be given again.
use crate::asker::{Asker, begun, fetch, sync};
use curp_journal::{Arrived, Item};
use curp_seat::{Kept, Observer, Point, Running};
use std::alloc::Global;
use std::process::Abort;
use std::sync::atomic::{AtomicU64, Ordering};

// The number of the refusal, and 0 where it was taken.
fn step(rt: &impl Abort, kept: &mut Kept<Asker>, arrived: Arrived) -> u8 {
    assert!(rt; !kept.ended());
    kept.step(arrived).expect(rt, "no memory")
}

// A node that was ordered to fetch twice.
fn asked(rt: &impl Abort, alloc: Global) -> Kept<Asker> {
    let mut kept = begun(alloc);
    step(rt, &mut kept, fetch(5));
    step(rt, &mut kept, fetch(0));
    kept
}

fn has_stamps(items: &[Item]) -> bool {
    match items {
        [first, second] => first.stamp == 6 && second.stamp == 7,
        _ => false,
    }
}

// Whether what its second item sent is named.
fn is_named(rt: &impl Abort, kept: &Kept<Asker>) -> bool {
    assert!(rt; kept.journal().len() == 2);
    let sent = kept.sent(1).expect(rt, "no memory");
    let is_named = match sent.named.as_slice() {
        [named] => named.step == 2 && named.place == 1 && named.stamp == 7,
        _ => false,
    };
    let is_named = is_named && sent.completed.is_none();
    drop(sent);
    is_named
}

// No stamp is left above the highest one, and a refused order isn't kept.
#[test]
fn a_node_keeps_what_it_takes(rt: HostRuntime) {
    let mut kept = asked(&rt, rt.alloc());
    assert!(rt; has_stamps(kept.journal()));
    assert!(rt; step(&rt, &mut kept, fetch(u64::MAX)) == 255);
    assert!(rt; kept.journal().len() == 2);
    assert!(rt; step(&rt, &mut kept, sync(0)) == 1);
    assert!(rt; is_named(&rt, &kept));
    assert!(rt; !kept.ended());
    kept.mark_stop();
    assert!(rt; kept.ended());
    drop(kept);
}

// The journal of another node that is given its inputs and does the same has as many items.
#[test]
fn inputs_are_given_again(rt: HostRuntime) {
    let kept = asked(&rt, rt.alloc());
    let again = kept.begun_with(Asker::new(rt.alloc(), 7));
    let again = again.expect(&rt, "no memory");
    let made = again.expect(&rt, "it does otherwise");
    assert!(rt; made.journal().len() == 2);
    drop(made);
}

// An observer that counts how often it hears of a step that isn't the next one.
#[derive(Drop)]
struct Numbering {
    heard: AtomicU64,
    wrong: AtomicU64,
}

impl Observer for Numbering {
    fn reach(&self, point: Point) {
        let heard = self.heard.fetch_add(1, Ordering::SeqCst);
        if point.count != heard.wrapping_add(1) {
            self.wrong.fetch_add(1, Ordering::SeqCst);
        }
    }
}

// The number of the refusal.
fn refusal(
    rt: &impl Abort,
    running: &mut Running<Asker>,
    observer: &Numbering,
    arrived: Arrived,
) -> u8 {
    match running.make(observer, arrived) {
        Ok(made) => made.refused,
        Err(_) => panic!(rt; "no memory"),
    }
}

// The observer hears of a step before it is made: also of one that the node then refuses.
#[test]
fn a_observer_hears_before_the_step(rt: HostRuntime) {
    let observer = Numbering {
        heard: AtomicU64::new(0),
        wrong: AtomicU64::new(0),
    };
    let mut running = Running::new(rt.alloc(), begun(rt.alloc()));
    assert!(rt; refusal(&rt, &mut running, &observer, fetch(0)) == 0);
    assert!(rt; refusal(&rt, &mut running, &observer, sync(0)) == 1);
    drop(running);
    assert!(rt; observer.heard.load(Ordering::SeqCst) == 2);
    assert!(rt; observer.wrong.load(Ordering::SeqCst) == 0);
}
