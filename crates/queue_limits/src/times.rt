// Times, in seconds.

/// An injector makes no call when more than this has passed since its start (qmail-queue(8)).
pub const DAY: u64 = 86_400;

/// No program stalls for longer between reading the clock and making a call: twelve hours. It is a premise of the headline.
pub const LONGEST_STALL: u64 = 43_200;

/// A file in `pid` that was last written longer ago may be removed: no injection takes longer than a day and the longest
/// stall (qmail-clean(8)). So a message file of that age that was neither accepted nor preprocessed is of no injection that
/// still goes on, and is swept (qmail-send(8)).
pub const PID_NAME_AGE: u64 = 129_600;
