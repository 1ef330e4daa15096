// Readings of the system's clock, at the pace of the monotonic one.
ghost use Rattle.std.specs.Prelude.{◌≡◌, ◌≤◌, None};
ghost use Rattle.host_streams.specs.Pace.{is_ahead, next_ran, next_told, paced};

use std::marker::Model;

/// How far the system's clock may be ahead of the monotonic one: a minute, in microseconds.
pub const MINUTE: u64 = 60_000_000;

/// What a clock tells by readings of the system's clock and of the monotonic one, all in microseconds. It follows the system's
/// clock, but never falls. While that is behind, it goes on at half the pace of the monotonic clock; while that is ahead by over a
/// minute, at twice its pace.
#[derive(Drop)]
pub struct Pace {
    told: u64,
    ran: Option<u64>,
}

impl Model for Pace {
    ghost use Rattle.host_streams.specs.Pace.{PaceState};

    ghost Value = { PaceState };

    ghost view = { λ p. record { told = p.told; ran = p.ran } };
}

impl Pace {
    /// One that had no reading yet, and tells 0.
    pub fn new() -> Self
        ensures told { result.told ≡ 0 }
        ensures ran { result.ran ≡ None }
    {
        Pace { told: 0, ran: None }
    }

    /// Whether the system's clock, if it can be read, is ahead by over a minute, by these readings.
    pub fn is_ahead(&self, system: Option<u64>, monotonic: Option<u64>) -> bool
        ensures { result ≡ is_ahead self.now.told self.now.ran system monotonic }
    {
        match (self.ran, system, monotonic) {
            (Some(before), Some(system), Some(now)) => {
                let ran = now.saturating_sub(before);
                system > self.told.saturating_add(ran).saturating_add(MINUTE)
            }
            _ => false,
        }
    }

    /// Takes readings of both clocks, if they can be read, and tells the moment that follows.
    pub fn next(&mut self, system: Option<u64>, monotonic: Option<u64>) -> u64
        ensures told { result ≡ next_told self.old.told self.old.ran system monotonic }
        ensures later { self.old.told ≤ result }
        ensures last { self.new.told ≡ result }
        ensures ran { self.new.ran ≡ next_ran self.old.ran system monotonic }
    {
        let follows = self.is_ahead(system, monotonic);
        match (self.ran, system) {
            (None, None) => {}
            (None, Some(system)) => {
                self.told = self.told.max(system);
                self.ran = monotonic;
            }
            (Some(before), _) => {
                if let Some(now) = monotonic {
                    self.told = paced(self.told, now.saturating_sub(before), system, follows);
                    self.ran = monotonic;
                }
            }
        }
        self.told
    }
}

/// The moment after this one, once the monotonic clock ran so far, by what the system's clock tells and by whether that is ahead.
fn paced(told: u64, ran: u64, system: Option<u64>, is_ahead: bool) -> u64
    ensures moment { result ≡ paced told ran system is_ahead }
    ensures later { told ≤ result }
{
    match system {
        None => told.saturating_add(ran),
        Some(_) if is_ahead => told.saturating_add(ran).saturating_add(ran),
        Some(system) => system.max(told.saturating_add(ran / 2)),
    }
}
