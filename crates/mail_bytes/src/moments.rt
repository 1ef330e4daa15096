// Moments: seconds since 1 January 1970 UTC.

/// The last moment that a clock may tell, in seconds since 1 January 1970 UTC; it is in the year 9892.
pub const LAST_MOMENT: u64 = 250_000_000_000;
