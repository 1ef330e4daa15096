// Two readers push, each in a thread of its own, and one takes: each channel's pieces come in order, to its end.
ghost use Rattle.std.specs.Prelude.{◌≡◌, ◌<◌, [], true};
ghost use Rattle.crossbeam_queue.specs.Passes.{view, IsPassOf};
ghost use Rattle.piece_queue.specs.Rule.{reader};

use piece_queue::{Brought, Inflow, Piece, PieceQueue, QueuePass, ROOM, read_channel};
use std::alloc::Global;
use std::sync::Wait;
use std::test::*;
use std::thread::{Threads, join};
use std::time::Duration;

/// A channel in memory: so many pieces of 1000 bytes, all alike, and then its end or a failure.
#[derive(Clone, Copy)]
struct Letters {
    letter: u8,
    left: u64,
    fails: bool,
}

impl Inflow for Letters {
    ghost use Rattle.std.specs.Prelude.{None};

    ghost readings = { λ _. None };

    fn read(&mut self, into: &mut [u8; ROOM]) -> Brought {
        if self.left == 0 {
            return if self.fails {
                Brought::Failed
            } else {
                Brought::End
            };
        }
        self.left -= 1;
        *into = [self.letter; ROOM];
        Brought::Bytes(1000)
    }
}

/// What was taken of two channels: how many pieces of each, how each ended, and whether all was as it should be.
#[derive(Clone, Copy)]
struct Tally {
    counts: [u64; 2],
    ended: [bool; 2],
    failed: [bool; 2],
    is_right: bool,
}

impl Tally {
    /// One piece more was taken.
    fn add(&mut self, piece: &Piece, letters: [u8; 2]) {
        if piece.chan > 1 {
            self.is_right = false;
            return;
        }
        let at = piece.chan as usize;
        let right = match piece.brought {
            Brought::Bytes(count) => count == 1000 && piece.bytes[999] == letters[at],
            Brought::End | Brought::Cut => true,
            Brought::Failed => true,
        };
        self.is_right = self.is_right
            && right
            && piece.number == self.counts[at]
            && !self.ended[at];
        self.counts[at] = self.counts[at].saturating_add(1);
        self.ended[at] = piece.brought.ends();
        self.failed[at] = matches!(piece.brought, Brought::Failed);
    }
}

/// Takes until both channels have ended.
fn take_all<R: Wait>(
    rt: &R,
    queue: &PieceQueue,
    mut pass: QueuePass,
    letters: [u8; 2],
) -> (QueuePass, Tally)
    requires { IsPassOf queue.now.line pass × ((view pass).takes ≡ true) }
    ensures { IsPassOf queue.now.line result.0 × ((view result.0).takes ≡ true) }
{
    let mut tally = Tally {
        counts: [0; 2],
        ended: [false; 2],
        failed: [false; 2],
        is_right: true,
    };
    for _ in rt.forever() {
        match queue.take(rt, &mut pass) {
            Some(piece) => tally.add(&piece, letters),
            None => queue.rest(rt, Duration::from_secs(10)),
        }
        if tally.ended[0] && tally.ended[1] {
            break;
        }
    }
    (pass, tally)
}

/// Reads the second channel, and takes of both.
fn read_and_take<R: Threads + Wait + Sync>(
    rt: &R,
    queue: &PieceQueue,
    mine: QueuePass,
    taking: QueuePass,
    mut input: Letters,
    letters: [u8; 2],
) -> (QueuePass, QueuePass, Tally)
    requires reader { IsPassOf queue.now.line mine × (view mine ≡ reader 1 []) }
    requires taker { IsPassOf queue.now.line taking × ((view taking).takes ≡ true) }
    ensures reader { IsPassOf queue.now.line result.0 × ((view result.0).reads ≡ true) }
    ensures taker { IsPassOf queue.now.line result.1 × ((view result.1).takes ≡ true) }
{
    let (mine, (taking, tally)) = join(
        rt,
        move || -> QueuePass
            requires { IsPassOf queue.now.line mine × (view mine ≡ reader 1 []) }
            ensures { IsPassOf queue.entry.now.line result × ((view result).reads ≡ true) }
        { read_channel(rt, queue, mine, 1, &mut input) },
        move || -> (QueuePass, Tally)
            requires { IsPassOf queue.now.line taking × ((view taking).takes ≡ true) }
            ensures { IsPassOf queue.entry.now.line result.0 × ((view result.0).takes ≡ true) }
        { take_all(rt, queue, taking, letters) },
    );
    (mine, taking, tally)
}

/// Carries two channels through a queue with this room, and compares at the end what was pushed and what was taken.
fn carried<R: Threads + Wait + Sync>(
    rt: &R,
    alloc: Global,
    room: usize,
    first: Letters,
    second: Letters,
) -> Option<Tally>
    requires { 0 < room }
{
    let (queue, mut opener, taking) = match PieceQueue::new(alloc, room) {
        Ok(queue) => queue,
        Err(_) => return None,
    };
    let queue = &queue;
    let one = queue.open_channel(&mut opener);
    let two = queue.open_channel(&mut opener);
    let letters = [first.letter, second.letter];
    let mut input = first;
    let (one, (two, mut taking, tally)) = join(
        rt,
        move || -> QueuePass
            requires { IsPassOf queue.now.line one × (view one ≡ reader 0 []) }
            ensures { IsPassOf queue.entry.now.line result × ((view result).reads ≡ true) }
        { read_channel(rt, queue, one, 0, &mut input) },
        move || -> (QueuePass, QueuePass, Tally)
            requires { IsPassOf queue.now.line two × (view two ≡ reader 1 []) × IsPassOf queue.now.line taking × ((view taking).takes ≡ true) }
            ensures { IsPassOf queue.entry.now.line result.0 × ((view result.0).reads ≡ true) × IsPassOf queue.entry.now.line result.1 × ((view result.1).takes ≡ true) }
        { read_and_take(rt, queue, two, taking, second, letters) },
    );
    let _ = queue.compare(&mut taking, one);
    let _ = queue.compare(&mut taking, two);
    Some(tally)
}

/// Whether two channels of so many pieces came through whole, the first to its end, the second to a failure.
fn holds<R: Threads + Wait + Sync>(
    rt: &R,
    alloc: Global,
    room: usize,
    first: u64,
    second: u64,
) -> bool
    requires { 0 < room }
{
    let one = Letters {
        letter: b'a',
        left: first,
        fails: false,
    };
    let two = Letters {
        letter: b'b',
        left: second,
        fails: true,
    };
    match carried(rt, alloc, room, one, two) {
        Some(tally) => {
            tally.is_right
                && tally.counts == [first.saturating_add(1), second.saturating_add(1)]
                && tally.failed == [false, true]
        }
        None => false,
    }
}

#[test]
fn two_readers_and_a_taker(rt: HostRuntime) {
    assert!(rt; holds(&rt, rt.alloc(), 1, 0, 0));
    assert!(rt; holds(&rt, rt.alloc(), 1, 30, 40));
    assert!(rt; holds(&rt, rt.alloc(), 3, 500, 1));
    assert!(rt; holds(&rt, rt.alloc(), 64, 200, 300));
}
