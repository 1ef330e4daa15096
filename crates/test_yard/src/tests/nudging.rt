// A sleep that a nudge ends.

use piece_queue::PieceQueue;
use std::alloc::Global;
use std::sync::Wait;
use std::test::*;
use std::thread::{Threads, join};
use std::time::Duration;

/// Longer than a test may run, in seconds.
const LONG: u64 = 3600;

/// Whether sleeps end that are nudged: one after a nudge at once, and one in which another thread nudges; a piece ends the others
/// still.
fn ends_by_nudges<R: Threads + Wait + Sync>(rt: &R, alloc: Global) -> bool {
    let Ok((queue, mut opener, mut taking)) = PieceQueue::new(alloc, 1) else {
        return false;
    };
    let long = Duration::from_secs(LONG);
    queue.nudge();
    queue.rest_for_news(rt, long);
    join(rt, || queue.nudge(), || queue.rest_for_news(rt, long));
    let mut zero = queue.open_channel(&mut opener);
    let has_room = queue.try_fail(rt, &mut zero, 0);
    queue.rest_for_news(rt, long);
    queue.rest(rt, long);
    has_room && queue.take(rt, &mut taking).is_some()
}

#[test]
fn a_nudge_ends_a_sleep(rt: HostRuntime) {
    assert!(rt; ends_by_nudges(&rt, rt.alloc()));
}
