// A number of a script.
ghost use Rattle.std.specs.Prelude.{◌≡◌, ◌≢◌, ◌≤◌, ℕ, None, ◌↔◌, IfSome, IfOk, OnErr, IsTrue};
ghost use Rattle.mail_bytes.specs.Decimal.{digits};
ghost use Rattle.script_words.specs.Words.{IsCount, IsCounted};

use crate::WordError;
use mail_bytes::{decimals_are_exact, undec};
use std::marker::Model;

/// A number from 1.
#[derive(Clone, Copy)]
pub struct Count {
    number: u64,
}

impl Model for Count {
    ghost Value = { ℕ };

    ghost view = { λ c. c.number };

    ghost invariant = { λ c. 1 ≤ c.number };

    ghost inverse = { λ number. record { number = number } };
}

impl Count {
    /// `None` exactly if it is 0.
    pub fn new(number: u64) -> Option<Count>
        ensures some { IfSome result (λ c. c ≡ number) }
        ensures from_one { (result ≢ None) ↔ (1 ≤ number) }
    {
        if number == 0 {
            return None;
        }
        Some(Count { number })
    }

    /// The number.
    pub fn number(self) -> u64
        ensures value { result ≡ self }
        ensures from_one { 1 ≤ result }
    {
        self.number
    }
}

/// Reads a number from 1. `Malformed` exactly if the word is none.
pub fn read_counted(word: &[u8]) -> Result<Count, WordError>
    ensures ok { IfOk result (λ count. (word.now ≡ digits count) × IsCounted count) }
    ensures err { OnErr result ((n : ℕ) → IsCounted n → word.now ≢ digits n) }
{
    decimals_are_exact();
    let Some(number) = undec(word) else {
        return Err(WordError::Malformed);
    };
    match Count::new(number) {
        Some(count) => Ok(count),
        None => Err(WordError::Malformed),
    }
}

/// Whether it is the text of a number from 1.
pub fn is_count(text: &[u8]) -> bool
    ensures { IsTrue result ↔ IsCount text.now }
{
    read_counted(text).is_ok()
}
