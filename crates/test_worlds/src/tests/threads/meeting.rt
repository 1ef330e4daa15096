// Six threads meet at the gate: each is held until all six have come, so that none of them waits for another one's end or turn.
ghost use Rattle.std.specs.Prelude.{◌≤◌};

use super::running::ended_by;
use outside::Gate;
use std::alloc::Global;
use std::sync::Wait;
use std::sync::atomic::{AtomicU64, Ordering};
use std::test::*;
use std::thread::{Threads, yield_now};

/// How often one that waits looks.
const MOST_POLLS: u32 = 1_000_000;

/// All six.
const ALL: u64 = 63;

/// Who has come, and who was not met.
#[derive(Drop)]
struct Meeting {
    came: AtomicU64,
    late: AtomicU64,
}

/// The bit of one of the six: the first mail before its second step, the second one before its ninth, and the four members.
fn bit(mail: u64, step: u64) -> u64 {
    match (mail, step) {
        (1, 2) => 1,
        (2, 9) => 2,
        (0, 1) => 4,
        (0, 2) => 8,
        (0, 3) => 16,
        (0, 4) => 32,
        _ => 0,
    }
}

impl Gate for Meeting {
    fn pause(&self, mail: u64, step: u64) {
        let bit = bit(mail, step);
        if bit == 0 {
            return;
        }
        self.came.fetch_or(bit, Ordering::SeqCst);
        for _ in 0..MOST_POLLS {
            if self.came.load(Ordering::SeqCst) == ALL {
                return;
            }
            yield_now();
        }
        self.late.fetch_or(bit, Ordering::SeqCst);
    }
}

/// Whether all six met, by so many threads, and both mails ended.
fn holds<R: Threads + Wait + Sync>(rt: &R, alloc: Global, threads: u64) -> bool
    requires { (1 ≤ threads) × (threads ≤ 16) }
{
    let meeting = Meeting {
        came: AtomicU64::new(0),
        late: AtomicU64::new(0),
    };
    ended_by(rt, alloc, threads, 2, &meeting) == Some(2)
        && meeting.came.load(Ordering::SeqCst) == ALL
        && meeting.late.load(Ordering::SeqCst) == 0
}

#[test]
fn six_threads_meet(rt: HostRuntime) {
    assert!(rt; holds(&rt, rt.alloc(), 2));
    assert!(rt; holds(&rt, rt.alloc(), 4));
}
