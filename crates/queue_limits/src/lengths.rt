// Lengths, in bytes.

/// The most bytes that a message or an envelope may have.
pub const MOST_BYTES: usize = 1_073_741_824;
