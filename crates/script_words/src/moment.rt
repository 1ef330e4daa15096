// A moment of a script.
ghost use Rattle.std.specs.Prelude.{◌≡◌, ◌≢◌, ℕ, None, ◌↔◌, IfSome, IfOk, OnErr};
ghost use Rattle.mail_bytes.specs.Decimal.{digits};
ghost use Rattle.mail_bytes.specs.Moments.{IsMoment};

use crate::WordError;
use mail_bytes::{LAST_MOMENT, decimals_are_exact, undec};
use std::marker::Model;

/// A moment that a clock may tell, in seconds since 1 January 1970 UTC.
#[derive(Clone, Copy)]
pub struct Moment {
    seconds: u64,
}

impl Model for Moment {
    ghost Value = { ℕ };

    ghost view = { λ m. m.seconds };

    ghost invariant = { λ m. IsMoment m.seconds };

    ghost inverse = { λ seconds. record { seconds = seconds } };
}

impl Moment {
    /// `None` exactly if it lies past the last moment.
    pub fn new(seconds: u64) -> Option<Moment>
        ensures some { IfSome result (λ m. m ≡ seconds) }
        ensures within { (result ≢ None) ↔ IsMoment seconds }
    {
        if seconds > LAST_MOMENT {
            return None;
        }
        Some(Moment { seconds })
    }

    /// Its seconds.
    pub fn seconds(self) -> u64
        ensures value { result ≡ self }
        ensures moment { IsMoment result }
    {
        self.seconds
    }
}

/// Reads a moment. `Malformed` exactly if the word is none.
pub fn read_moment(word: &[u8]) -> Result<Moment, WordError>
    ensures ok { IfOk result (λ moment. (word.now ≡ digits moment) × IsMoment moment) }
    ensures err { OnErr result ((m : ℕ) → IsMoment m → word.now ≢ digits m) }
{
    decimals_are_exact();
    let Some(seconds) = undec(word) else {
        return Err(WordError::Malformed);
    };
    match Moment::new(seconds) {
        Some(moment) => Ok(moment),
        None => Err(WordError::Malformed),
    }
}
