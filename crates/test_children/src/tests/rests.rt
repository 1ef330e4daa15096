// How long a sender's gate rests, by a queue that counts.

use outside::Gate;
use resting_gates::{Restful, SendingGate};
use std::alloc::Global;
use std::cell::Cell;
use std::sync::{Arc, Wait};
use std::test::*;
use std::time::Duration;

/// How long a queue was last asked to rest, in milliseconds, and whether news were to end it.
#[derive(Clone, Copy)]
struct Asked {
    millis: u64,
    for_news: bool,
}

/// A queue that doesn't rest, and keeps what it was last asked.
#[derive(Drop)]
struct Counting<'a> {
    asked: &'a Cell<Asked>,
}

impl Counting<'_> {
    fn keep(&self, most: Duration, for_news: bool) {
        let millis = u64::try_from(most.as_millis()).unwrap_or(u64::MAX);
        self.asked.set(Asked { millis, for_news });
    }
}

impl Restful for Counting<'_> {
    fn rest<R: Wait>(&self, _rt: &R, most: Duration) {
        self.keep(most, false);
    }

    fn rest_for_news<R: Wait>(&self, _rt: &R, most: Duration) {
        self.keep(most, true);
    }
}

/// A pause, by both its numbers, and for how many milliseconds it rests: 0 if it doesn't.
type Pause = (u64, u64, u64);

/// The pauses of a sender that rests for 250 ms after an idle turn, and for a second in all before its last turns.
const PAUSES: [Pause; 13] = [
    (0, 1, 10),
    (0, 2, 20),
    (0, 7, 640),
    (0, 8, 1000),
    (0, 1_000_000, 1000),
    (0, 1, 10),
    (1, 1, 250),
    (1, 1_000_000, 250),
    (2, 4, 250),
    (2, 3, 250),
    (2, 2, 250),
    (2, 1, 250),
    (2, 1, 0),
];

/// Those of one that is told no rest.
const WITHOUT: [Pause; 2] = [(1, 1, 0), (0, 1, 10)];

/// What a queue that was asked nothing keeps.
const NOTHING: Asked = Asked {
    millis: 0,
    for_news: false,
};

/// Whether a gate, whose queue keeps there what it is asked, rests so at these pauses, and after idle turns alone until news come.
fn pauses<G: Gate>(gate: &G, asked: &Cell<Asked>, pauses: &[Pause]) -> bool {
    let mut right = true;
    for (mail, step, millis) in pauses {
        asked.set(NOTHING);
        gate.pause(*mail, *step);
        let told = asked.get();
        right = told.millis == *millis && told.for_news == (*mail == 1 && *millis > 0) && right;
    }
    right
}

/// Whether a gate with these two times rests so at these pauses, one after the other.
fn rests<R: Wait + Copy + Drop>(
    rt: R,
    alloc: Global,
    idle: u64,
    drain: u64,
    rows: &[Pause],
) -> bool {
    let asked = Cell::new(NOTHING);
    match Arc::new(alloc, Counting { asked: &asked }) {
        Ok(queue) => {
            let gate = SendingGate::new(rt, queue, idle, drain);
            let is_so = pauses(&gate, &asked, rows);
            drop(gate);
            is_so
        }
        Err(_) => false,
    }
}

#[test]
fn rests_of_a_sender(rt: HostRuntime) {
    assert!(rt;
        rests(rt, rt.alloc(), 250, 1000, &PAUSES) && rests(rt, rt.alloc(), 0, 1000, &WITHOUT)
    );
}
