// What a remote program reports.
ghost use Rattle.std.specs.Prelude.{◌≡◌, ◌≢◌, List, ℕ, IfOk, IfErr, OnErr};
ghost use Rattle.mail_bytes.specs.Decimal.{digits};
ghost use Rattle.script_words.specs.declared.letter.Letter.{Letter as LetterOf};
ghost use Rattle.script_words.specs.Words.{IsSlot};
ghost use Rattle.script_words.specs.Reading.{IsReport};

use crate::letter::read_letter;
use crate::words::{first_word, read_last_word};
use crate::{Letter, WordError};
use mail_bytes::{ByteText, decimals_are_exact, undec};
use std::alloc::Global;

/// The greatest slot of a delivery.
const MAX_SLOT: u64 = 255;

/// Reads a slot, a letter and one word for a text. `Malformed` only if the words are none; else out of memory.
pub fn read_report(alloc: Global, words: &[u8]) -> Result<(u8, Letter, ByteText), WordError>
    ensures ok { IfOk result (λ read. IsReport words.now read.0 read.1 read.2) }
    ensures err { IfErr result (λ why. why ≡ WordError.Malformed
        → (slot : ℕ) (letter : LetterOf) (text : List ℕ) → ¬ (IsReport words.now slot letter text)) }
{
    let (first, rest) = first_word(words)?;
    let slot = read_slot(first)?;
    let (second, last) = first_word(rest)?;
    let letter = read_letter(second)?;
    let text = read_last_word(alloc, last)?;
    Ok((slot, letter, text))
}

/// Reads a slot.
fn read_slot(word: &[u8]) -> Result<u8, WordError>
    ensures ok { IfOk result (λ slot. (word.now ≡ digits slot) × IsSlot slot) }
    ensures err { OnErr result ((slot : ℕ) → IsSlot slot → word.now ≢ digits slot) }
{
    decimals_are_exact();
    match undec(word) {
        Some(slot) if slot <= MAX_SLOT => Ok(slot as u8),
        _ => Err(WordError::Malformed),
    }
}
