// Members are stepped by threads of their own: the thread of each mail is held before its first step until all six have come and three
// members have made their first calls, so that none of these waits for a mail.
ghost use Rattle.std.specs.Prelude.{◌≤◌};

use super::beginning::queue_disk;
use super::noting_disk::{ALL_ASKED, NotingDisk};
use super::running::{ended, is_step, run_over};
use call_fs::CallFs;
use mail_world::{Event, World};
use outside::Gate;
use std::alloc::Global;
use std::sync::Wait;
use std::sync::atomic::{AtomicU64, Ordering};
use std::test::*;
use std::thread::{Threads, yield_now};

/// How often one that waits looks.
const MOST_POLLS: u32 = 1_000_000;

/// All six.
const ALL: u64 = 63;

/// The members that make calls of their own accord.
const CALLERS: [&[u8]; 3] = [b"sender", b"clean", b"lspawn"];

/// Who has come, who was given up, and which calls were made.
#[derive(Drop)]
struct Holding<'a> {
    came: AtomicU64,
    late: AtomicU64,
    asked: &'a AtomicU64,
}

/// The bit of one of the six: each of two mails before its first step, and the four members.
fn bit(mail: u64, step: u64) -> u64 {
    match (mail, step) {
        (1, 1) => 1,
        (2, 1) => 2,
        (0, 1) => 4,
        (0, 2) => 8,
        (0, 3) => 16,
        (0, 4) => 32,
        _ => 0,
    }
}

impl Holding<'_> {
    /// Whether this one of the six may go on.
    fn is_open(&self, mail: u64) -> bool {
        self.came.load(Ordering::SeqCst) == ALL
            && (mail == 0 || self.asked.load(Ordering::SeqCst) == ALL_ASKED)
    }
}

impl Gate for Holding<'_> {
    fn pause(&self, mail: u64, step: u64) {
        let bit = bit(mail, step);
        if bit == 0 {
            return;
        }
        self.came.fetch_or(bit, Ordering::SeqCst);
        for _ in 0..MOST_POLLS {
            if self.is_open(mail) {
                return;
            }
            yield_now();
        }
        self.late.fetch_or(bit, Ordering::SeqCst);
    }
}

/// Whether each of these members made a step before the second mail's end.
fn step_first<D: CallFs>(world: &World<D>) -> bool {
    CALLERS.iter().all(|member| steps_first(world, *member))
}

/// Whether the actor with this name made a step before the second mail's end.
fn steps_first<D: CallFs>(world: &World<D>, name: &[u8]) -> bool {
    world
        .history()
        .events()
        .iter()
        .take_while(|event| !is_second_end(event))
        .any(|event| is_step(event, name))
}

/// Whether this event is the second mail's end.
fn is_second_end(event: &Event) -> bool {
    matches!(event, Event::End { actor, .. } if actor.is(b"b"))
}

/// Whether the members stepped while both mails were held, by two threads, and the mails ended.
fn holds<R: Threads + Wait + Sync>(rt: &R, alloc: Global) -> Option<bool> {
    let asked = AtomicU64::new(0);
    let gate = Holding {
        came: AtomicU64::new(0),
        late: AtomicU64::new(0),
        asked: &asked,
    };
    let disk = NotingDisk::new(queue_disk(alloc).ok()?, &asked);
    let world = run_over(rt, alloc, disk, 2, 2, &gate)?;
    let are_right = ended(&world) == 2 && step_first(&world);
    drop(world);
    Some(are_right && gate.late.load(Ordering::SeqCst) == 0)
}

#[test]
fn members_step_while_mails_are_held(rt: HostRuntime) {
    assert!(rt; holds(&rt, rt.alloc()) == Some(true));
}
