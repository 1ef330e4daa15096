// How long a child may run after its input ended.
ghost use Rattle.std.specs.Prelude.{◌≡◌};
ghost use Rattle.std.specs.Option.{option_map};
ghost use Rattle.resting_gates.specs.Drain.{drain_of};

use mail_bytes::undec;

/// How long a child may run after its input ended if nothing else is told, in milliseconds: ten minutes.
pub const DRAIN: u64 = 600_000;

/// The shortest such time that can be told, in milliseconds: with none, each child would be ended as its input ends.
pub const SHORTEST_DRAIN: u64 = 1;

/// The longest such time that can be told, in milliseconds: a day.
pub const LONGEST_DRAIN: u64 = 86_400_000;

/// How long a child may run after its input ended, in milliseconds, by the environment's QMAIL_DRAIN_MS: ten minutes if that
/// isn't set; None if it isn't a number from 1 to 86,400,000.
pub fn drain_limit(told: Option<&[u8]>) -> Option<u64>
    ensures { result ≡ drain_of (option_map (λ text. text.now) told.entry) }
{
    match told {
        Some(text) => match undec(text) {
            Some(limit) if SHORTEST_DRAIN <= limit && limit <= LONGEST_DRAIN => Some(limit),
            _ => None,
        },
        None => Some(DRAIN),
    }
}
