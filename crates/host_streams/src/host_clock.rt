// The clock of the system.
ghost use Rattle.std.specs.Prelude.{◌≡◌, ◌≤◌};
ghost use Rattle.mail_bytes.specs.Moments.{IsMoment};
ghost use Rattle.host_streams.specs.Clock.{next_moment};

use crate::pace::Pace;
use crate::writer_sink::WriterSink;
use mail_bytes::LAST_MOMENT;
use outside::{Clock, Sink};
use std::marker::Model;
use std::time::{Clock as Clocks, Duration};
use std::{io, process};

/// How many microseconds a second has.
const SECOND: u64 = 1_000_000;

/// What standard error gets when the system's clock is ahead.
const AHEAD: &[u8] =
    b"clock: over a minute ahead; followed at twice the pace until it is right, or until a new start\n";

/// The clock of the system, and the number of this process; it doesn't tell its calls. It never falls, and goes at the pace of the
/// monotonic clock (`Pace`) while the system's clock is behind, can't be read, or is ahead by over a minute, which standard error
/// is told once. It tells 0 until the system's clock can be read.
#[derive(Drop)]
pub struct HostClock {
    rt: HostRuntime,
    pace: Pace,
    is_ahead: bool,
    last: u64,
    pid: u32,
}

impl Model for HostClock {
    ghost use Rattle.mail_bytes.specs.Moments.{IsMoment};
    ghost use Rattle.host_streams.specs.Clock.{ClockState};

    ghost Value = { ClockState };

    ghost view = { λ k. record { last = k.last; pid = k.pid } };

    ghost invariant = { λ k. IsMoment k.last };
}

impl HostClock {
    /// A clock that told nothing yet.
    pub fn new(rt: &HostRuntime) -> Self
        ensures { result.last ≡ 0 }
    {
        HostClock {
            rt: *rt,
            pace: Pace::new(),
            is_ahead: false,
            last: 0,
            pid: process::id(rt.process()),
        }
    }

    /// The seconds since 1970 that follow by the clocks of the system.
    fn seconds(&mut self) -> u64
        ensures last { self.new.last ≡ self.old.last }
        ensures pid { self.new.pid ≡ self.old.pid }
    {
        let system = micros(self.rt.since_1970());
        let monotonic = micros(self.rt.monotonic());
        let is_ahead = self.pace.is_ahead(system, monotonic);
        if is_ahead && !self.is_ahead {
            let _given = WriterSink::new(self.rt.stderr()).give(AHEAD);
        }
        self.is_ahead = is_ahead;
        self.pace.next(system, monotonic) / SECOND
    }
}

/// A time in microseconds, if it was told.
fn micros(told: io::Result<Duration>) -> Option<u64> {
    Some(u64::try_from(told.ok()?.as_micros()).unwrap_or(u64::MAX))
}

/// The moment to be told if these seconds follow and this moment was told last.
fn next_moment(last: u64, seconds: u64) -> u64
    ensures { result ≡ next_moment last seconds }
{
    last.max(seconds.min(LAST_MOMENT))
}

impl Clock for HostClock {
    ghost use Rattle.std.specs.Prelude.{None};

    ghost calls = { λ _. None };

    ghost last = { λ k. k.last };

    ghost pid = { λ k. k.pid };

    fn now(&mut self) -> u64
        ensures moment { IsMoment result }
        ensures later { self.old.last ≤ result }
        ensures last { self.new.last ≡ result }
        ensures same { self.new.pid ≡ self.old.pid }
    {
        self.last = next_moment(self.last, self.seconds());
        self.last
    }

    fn pid(&self) -> u32 {
        self.pid
    }
}
