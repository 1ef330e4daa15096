// The clock.
ghost use Rattle.std.specs.Prelude.{◌≡◌, ◌≤◌, ℕ, List, Option};
ghost use Rattle.mail_bytes.specs.Moments.{IsMoment};
ghost use Rattle.mail_bytes.specs.Told.{Records};
ghost use Rattle.outside.specs.Forms.{next_told};

use mail_bytes::LAST_MOMENT;
use std::marker::Model;

/// The moment, and the number of this process.
pub trait Clock {
    /// The moments that it has told so far, in order, if it keeps them.
    ghost calls: { Self → Option (List ℕ) };

    /// No moment that it tells is earlier than this one: the last one that it has told.
    ghost last: { Self → ℕ };

    /// The number of this process.
    ghost pid: { Self → ℕ };

    /// The moment, in seconds since 1 January 1970 UTC. It never falls, and is at most 250,000,000,000.
    fn now(&mut self) -> u64
        ensures moment { IsMoment result }
        ensures later { last self.old ≤ result }
        ensures last { last self.new ≡ result }
        ensures same { pid self.new ≡ pid self.old }
        ensures told { Records (calls self.old) (calls self.new) result };

    /// The number of this process, as getpid(2).
    fn pid(&self) -> u32
        ensures { result ≡ pid self.now };
}

/// A clock in memory: moments one after another, of which the last one stays. A moment past the last one of all, or
/// before an earlier one, is told as that one.
#[derive(Drop)]
pub struct MemClock {
    moments: Vec<u64>,
    at: usize,
    last: u64,
    pid: u32,
}

impl Model for MemClock {
    ghost use Rattle.std.specs.Prelude.{drop};
    ghost use Rattle.mail_bytes.specs.Moments.{IsMoment};
    ghost use Rattle.outside.specs.Forms.{ClockForm};

    ghost Value = { ClockForm };

    ghost view = { λ k. record { ahead = drop k.at k.moments.items; last = k.last; pid = k.pid } };

    ghost invariant = { λ k. IsMoment k.last };
}

impl MemClock {
    /// A clock that tells these moments, in a process of this number. With no moments it tells 0.
    pub fn new(moments: Vec<u64>, pid: u32) -> Self
        ensures { result ≡ record { ahead = moments.items; last = 0; pid = pid } }
    {
        MemClock {
            moments,
            at: 0,
            last: 0,
            pid,
        }
    }
}

impl Clock for MemClock {
    ghost use Rattle.std.specs.Prelude.{None};

    ghost calls = { λ _. None };

    ghost last = { λ k. k.last };

    ghost pid = { λ k. k.pid };

    fn now(&mut self) -> u64
        ensures moment { IsMoment result }
        ensures later { self.old.last ≤ result }
        ensures last { self.new.last ≡ result }
        ensures next { self.new ≡ next_told self.old }
    {
        if self.at < self.moments.len() {
            self.last = self.last.max(self.moments[self.at].min(LAST_MOMENT));
            self.at += 1;
        }
        self.last
    }

    fn pid(&self) -> u32 {
        self.pid
    }
}
