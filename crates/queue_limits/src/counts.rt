// Counts.

/// How many programs a spawner runs at once, in its slots from 0 on: the greatest number of slots of a channel.
pub const MAX_SLOTS: u8 = 120;
