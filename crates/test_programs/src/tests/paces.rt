// Readings of the system's clock, at the pace of the monotonic one.

use host_streams::Pace;

/// No reading.
const NONE: u64 = u64::MAX;

/// Ten years.
const YEARS: u64 = 315_360_000;

/// Readings of the system's clock and of the monotonic one, in seconds; the second that is told then, and whether that is as one that
/// is ahead.
type Row = (u64, u64, u64, bool);

/// Ten years ahead for three seconds, then right.
const AHEAD: [Row; 6] = [
    (1000, 7, 1000, false),
    (1001, 8, 1001, false),
    (1002 + YEARS, 9, 1003, true),
    (1004 + YEARS, 11, 1007, true),
    (1005, 12, 1007, false),
    (1020, 27, 1020, false),
];

/// A minute ahead, which is followed; then over a minute, until the pace has caught up.
const STEPS: [Row; 5] = [
    (100, 0, 100, false),
    (161, 1, 161, false),
    (224, 2, 163, true),
    (254, 32, 223, true),
    (264, 42, 264, false),
];

/// Behind from the start: it was ten years ahead when the program began.
const BEHIND: [Row; 3] = [
    (5 + YEARS, 3, 5 + YEARS, false),
    (8, 6, 6 + YEARS, false),
    (108, 106, 56 + YEARS, false),
];

/// Clocks that can't be read.
const UNREAD: [Row; 6] = [
    (NONE, 1, 0, false),
    (NONE, NONE, 0, false),
    (500, NONE, 500, false),
    (900, 10, 900, false),
    (NONE, 12, 902, false),
    (903, NONE, 902, false),
];

/// The microseconds of these seconds, if that is a reading.
fn reading(seconds: u64) -> Option<u64> {
    if seconds == NONE {
        return None;
    }
    Some(seconds.saturating_mul(1_000_000))
}

/// Whether a clock with these readings tells what stands beside them.
fn tells(rows: &[Row]) -> bool {
    let mut pace = Pace::new();
    let mut is_told = true;
    for (system, monotonic, told, is_ahead) in rows {
        let (system, monotonic) = (reading(*system), reading(*monotonic));
        is_told = pace.is_ahead(system, monotonic) == *is_ahead && is_told;
        is_told = pace.next(system, monotonic) / 1_000_000 == *told && is_told;
    }
    is_told
}

#[test]
fn a_clock_that_is_wrong_for_a_while_does_not_stop_time(rt: HostRuntime) {
    assert!(rt; tells(&AHEAD) && tells(&STEPS) && tells(&BEHIND) && tells(&UNREAD));
}
