// A channel whose reader couldn't be started.
ghost use Rattle.std.specs.Prelude.{◌<◌};

use piece_queue::{Brought, PieceQueue};
use std::alloc::Global;
use std::sync::Wait;
use std::test::*;
use std::time::Duration;

/// Whether the failure of channel 0 is what comes, once, where there is room, and that of channel 1 only where there is room
/// for both.
fn fails<R: Wait>(rt: &R, alloc: Global, room: usize) -> bool
    requires { 0 < room }
{
    let Ok((queue, mut opener, mut taking)) = PieceQueue::new(alloc, room) else {
        return false;
    };
    let mut zero = queue.open_channel(&mut opener);
    let mut one = queue.open_channel(&mut opener);
    let first = queue.try_fail(rt, &mut zero, 0);
    let second = queue.try_fail(rt, &mut one, 1);
    queue.rest(rt, Duration::from_secs(10));
    let Some(piece) = queue.take(rt, &mut taking) else {
        return false;
    };
    let next = queue.take(rt, &mut taking).is_some();
    first
        && second == (room > 1)
        && next == second
        && piece.chan == 0
        && piece.number == 0
        && matches!(piece.brought, Brought::Failed)
}

#[test]
fn a_reader_that_does_not_start(rt: HostRuntime) {
    assert!(rt; fails(&rt, rt.alloc(), 1));
    assert!(rt; fails(&rt, rt.alloc(), 2));
}
