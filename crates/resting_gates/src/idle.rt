// How long a sender rests after a turn in which it found nothing to do.
ghost use Rattle.std.specs.Prelude.{◌≡◌};
ghost use Rattle.std.specs.Option.{option_map};
ghost use Rattle.resting_gates.specs.Idle.{idle_of};

use mail_bytes::undec;

/// How long a sender rests after an idle turn if nothing else is told, in milliseconds: not at all, so that its turns are soon
/// over.
pub const IDLE: u64 = 0;

/// The longest such rest that can be told, in milliseconds: a minute.
pub const LONGEST_IDLE: u64 = 60_000;

/// How long a sender rests after an idle turn, in milliseconds, by the environment's QMAIL_IDLE_MS: not at all if that isn't
/// set; None if it isn't a number from 0 to 60,000.
pub fn idle_limit(told: Option<&[u8]>) -> Option<u64>
    ensures { result ≡ idle_of (option_map (λ text. text.now) told.entry) }
{
    match told {
        Some(text) => match undec(text) {
            Some(limit) if limit <= LONGEST_IDLE => Some(limit),
            _ => None,
        },
        None => Some(IDLE),
    }
}
