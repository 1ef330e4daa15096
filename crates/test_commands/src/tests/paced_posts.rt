// Posts of which each comes at its time, and a clock that goes on as they do.

use super::counting_gate::CountingGate;
use outside::{Clock, MemPosts, Post, Posts};

/// Posts that bring nothing for so many asks between any two, and until the command has paused so often at its gate: so each is
/// dealt with as far as it goes before the next one comes.
#[derive(Drop)]
pub struct PacedPosts<'a> {
    posts: &'a mut MemPosts,
    gate: &'a CountingGate,
    asks: u64,
    rests: u64,
    left: u64,
    until: u64,
}

impl<'a> PacedPosts<'a> {
    /// These posts, each after so many asks and so many pauses at this gate.
    pub fn new(posts: &'a mut MemPosts, gate: &'a CountingGate, asks: u64, rests: u64) -> Self {
        PacedPosts {
            posts,
            gate,
            asks,
            rests,
            left: asks,
            until: rests,
        }
    }
}

impl<'a> Posts for PacedPosts<'a> {
    ghost use Rattle.std.specs.Prelude.{None};

    ghost waiting = { λ _. None };

    ghost calls = { λ _. None };

    ghost faults = { λ s. s.posts.now.faults };

    fn faults(&self) -> u64 {
        self.posts.faults()
    }

    fn next(&mut self, into: &mut [u8]) -> Post {
        if self.left > 0 {
            self.left -= 1;
            return Post::Turn;
        }
        if self.gate.pauses() < self.until {
            return Post::Turn;
        }
        self.left = self.asks;
        self.until = self.gate.pauses().saturating_add(self.rests);
        self.posts.next(into)
    }
}

/// A clock that tells one moment once the command has paused so often at its gate, and 0 before.
#[derive(Drop)]
pub struct LateClock<'a> {
    gate: &'a CountingGate,
    pauses: u64,
    moment: u32,
    pid: u32,
    is_late: bool,
}

impl<'a> LateClock<'a> {
    /// This moment after so many pauses at this gate, in a process of this number.
    pub fn new(gate: &'a CountingGate, pauses: u64, moment: u32, pid: u32) -> Self {
        LateClock {
            gate,
            pauses,
            moment,
            pid,
            is_late: false,
        }
    }
}

impl<'a> Clock for LateClock<'a> {
    ghost use Rattle.std.specs.Prelude.{None, if◌then◌else◌};

    ghost calls = { λ _. None };

    ghost last = { λ k. if k.is_late then k.moment else 0 };

    ghost pid = { λ k. k.pid };

    fn now(&mut self) -> u64 {
        self.is_late = self.is_late || self.gate.pauses() >= self.pauses;
        if self.is_late {
            u64::from(self.moment)
        } else {
            0
        }
    }

    fn pid(&self) -> u32 {
        self.pid
    }
}
