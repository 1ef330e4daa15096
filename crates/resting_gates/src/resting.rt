// Where a program rests that has nothing to do.
ghost use Rattle.std.specs.Prelude.{◌≡◌};
ghost use Rattle.std.specs.Arc.{arc_value};

use outside::Gate;
use piece_queue::PieceQueue;
use std::alloc::Global;
use std::sync::{Arc, Wait};
use std::time::Duration;

/// The longest rest, in milliseconds: a program that reads the clock, or looks into a directory, does so at least so often.
const LONGEST: u64 = 1000;

/// The shortest rest, in milliseconds.
const SHORTEST: u64 = 10;

/// The gate of a program with children. `pause(0, k)`, before the k-th look in a row that found nothing to do, sleeps until a
/// piece is pushed or a limit is over, which doubles from 10 milliseconds to a second. It holds nobody for a mail.
#[derive(Drop)]
pub struct RestingGate<R: Wait + Drop> {
    rt: R,
    queue: Arc<PieceQueue, Global>,
}

impl<R: Wait + Drop> RestingGate<R> {
    /// A gate that rests on this queue.
    pub fn new(rt: R, queue: Arc<PieceQueue, Global>) -> Self
        ensures { arc_value result.queue ≡ arc_value queue }
    {
        RestingGate { rt, queue }
    }
}

impl<R: Wait + Drop> Gate for RestingGate<R> {
    fn pause(&self, mail: u64, step: u64) {
        if mail == 0 && step > 0 {
            self.queue
                .rest(&self.rt, Duration::from_millis(limit(step)));
        }
    }
}

/// The limit of the k-th rest in a row, in milliseconds.
pub(crate) fn limit(step: u64) -> u64 {
    let mut limit = SHORTEST;
    for _ in 1..step.min(8) {
        limit = limit.saturating_mul(2);
    }
    limit.min(LONGEST)
}
