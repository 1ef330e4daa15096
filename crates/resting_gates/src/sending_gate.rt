// Where a sender rests.
ghost use Rattle.std.specs.Prelude.{◌≡◌};
ghost use Rattle.std.specs.Arc.{arc_value};

use crate::resting::limit;
use outside::Gate;
use piece_queue::PieceQueue;
use std::alloc::Global;
use std::cell::Cell;
use std::sync::{Arc, Wait};
use std::time::Duration;

/// As what a sender pauses that waits for an answer of its links or children.
const AT_WAITS: u64 = 0;

/// As what it pauses after a turn in which it found nothing to do.
const AT_IDLE_TURNS: u64 = 1;

/// The gate of a sender. Each pause sleeps until a piece is pushed, or a limit is over:
///
/// - `pause(0, k)`, before the k-th look in a row that found nothing to do: 10 milliseconds, doubled up to a second
/// - `pause(1, k)`, after the k-th idle turn in a row: what the environment tells for that, or until the queue is nudged
/// - any other, before the turn that is the k-th from the last, with deliveries in flight: its share of what is left of the
///   time that children have to end, so that all these pauses together are no longer than that
#[derive(Drop)]
pub struct SendingGate<R: Wait + Drop, Q: Restful + Drop> {
    rt: R,
    queue: Arc<Q, Global>,
    idle: u64,
    left: Cell<u64>,
}

/// On what a gate rests.
pub trait Restful {
    /// Sleeps until a piece is there, at most so long; it may also return for no reason.
    fn rest<R: Wait>(&self, rt: &R, most: Duration);

    /// The same, or until somebody nudges: not at all after a nudge for which nobody slept so since.
    fn rest_for_news<R: Wait>(&self, rt: &R, most: Duration);
}

impl Restful for PieceQueue {
    fn rest<R: Wait>(&self, rt: &R, most: Duration) {
        PieceQueue::rest(self, rt, most);
    }

    fn rest_for_news<R: Wait>(&self, rt: &R, most: Duration) {
        PieceQueue::rest_for_news(self, rt, most);
    }
}

impl<R: Wait + Drop, Q: Restful + Drop> SendingGate<R, Q> {
    /// A gate that rests on this queue: so many milliseconds after an idle turn, and so many in all before the last turns.
    pub fn new(rt: R, queue: Arc<Q, Global>, idle: u64, drain: u64) -> Self
        ensures queue { arc_value result.queue ≡ arc_value queue }
        ensures idle { result.idle ≡ idle }
    {
        SendingGate {
            rt,
            queue,
            idle,
            left: Cell::new(drain),
        }
    }

    /// The share of one of so many turns, the last ones, of what is left of the time; it is taken off.
    fn share(&self, turns: u64) -> u64 {
        let left = self.left.get();
        let share = left / turns.max(1);
        self.left.set(left.saturating_sub(share));
        share
    }
}

impl<R: Wait + Drop, Q: Restful + Drop> Gate for SendingGate<R, Q> {
    fn pause(&self, mail: u64, step: u64) {
        let most = match mail {
            AT_WAITS => limit(step),
            AT_IDLE_TURNS => self.idle,
            _ => self.share(step),
        };
        if most == 0 {
            return;
        }
        let most = Duration::from_millis(most);
        if mail == AT_IDLE_TURNS {
            self.queue.rest_for_news(&self.rt, most);
        } else {
            self.queue.rest(&self.rt, most);
        }
    }
}
