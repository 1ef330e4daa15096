// The clock in memory.

use super::fields::numbers;
use outside::{Clock, MemClock};

/// What a clock of 5, 3 and 250,000,000,001 tells.
const TOLD: [u64; 4] = [5, 5, 250_000_000_000, 250_000_000_000];

/// Whether the clock tells these moments.
fn tells(clock: &mut MemClock, moments: &[u64]) -> bool {
    let mut is_told = true;
    for moment in moments {
        is_told = clock.now() == *moment && is_told;
    }
    is_told
}

#[test]
fn moments_do_not_fall(rt: HostRuntime) {
    let mut clock = MemClock::new(numbers(rt.alloc(), "5 3 250000000001"), 77);
    assert!(rt; tells(&mut clock, &TOLD) && clock.pid() == 77);
}

#[test]
fn a_clock_without_moments_tells_0(rt: HostRuntime) {
    let mut clock = MemClock::new(Vec::new(rt.alloc()), 77);
    assert!(rt; tells(&mut clock, &[0, 0]));
}
