// Words, parted by one space, and the text that a word stands for.
ghost use Rattle.std.specs.Prelude.{◌≡◌, ◌++◌, [], List, ℕ, IfOk, IfErr, IsTrue, ◌↔◌, Contains, Ok, OnOk, OnErr, Some, codes};
ghost use Rattle.std.specs.Option.{option_copied};
ghost use Rattle.mail_bytes.specs.Escape.{unescaped};
ghost use Rattle.script_words.specs.Words.{StandsFor};
ghost use Rattle.script_words.specs.Reading.{IsCut, IsWritten, IsWrittenText, HasRecipients};

use crate::WordError;
use bstr::ByteSlice;
use mail_bytes::{ByteText, EscapeError, unescape};
use std::alloc::Global;

/// What stands before the first such byte, and what stands after it, if it is there.
pub fn cut(text: &[u8], byte: u8) -> (&[u8], Option<&[u8]>)
    ensures { IsCut text.now byte result.0.now (option_copied result.1) }
{
    match text.find_byte(byte) {
        Some(at) => (&text[..at], Some(&text[at + 1..])),
        None => (text, None),
    }
}

/// The first word of several, and what stands after its space. `Malformed` exactly if there is no space.
pub fn first_word(text: &[u8]) -> Result<(&[u8], &[u8]), WordError>
    ensures ok { IfOk result (λ parts. IsCut text.now 32 parts.0.now (Some parts.1.now)) }
    ensures err { OnErr result (¬ (Contains text.now 32)) }
{
    match cut(text, b' ') {
        (word, Some(rest)) => Ok((word, rest)),
        _ => Err(WordError::Malformed),
    }
}

/// Reads the text that one word stands for, which is the last of its line.
/// `Malformed` only if it is no such word; else out of memory.
pub fn read_last_word(alloc: Global, text: &[u8]) -> Result<ByteText, WordError>
    ensures ok { IfOk result (StandsFor text.now) }
    ensures err { IfErr result (λ why. why ≡ WordError.Malformed → (read : List ℕ) → ¬ (StandsFor text.now read)) }
{
    let (word, None) = cut(text, b' ') else {
        return Err(WordError::Malformed);
    };
    if is_end(word) {
        return Err(WordError::Malformed);
    }
    let mut read = Vec::new(alloc);
    put_word(alloc, word, &mut read)?;
    Ok(ByteText::from_vec(read))
}

/// Reads `:`, and gives the body as it is written.
pub(crate) fn read_end(words: &[u8]) -> Result<&[u8], WordError>
    ensures ok { IfOk result (λ body. HasRecipients words.now [] body.now) }
    ensures err { OnErr result ((body : List ℕ) → ¬ (HasRecipients words.now [] body)) }
{
    let (word, after) = cut(words, b' ');
    if is_end(word) {
        return Ok(after.unwrap_or(b""));
    }
    Err(WordError::Malformed)
}

/// Puts the text that a word stands for, which may be empty, at the end of the envelope.
pub(crate) fn put_text(alloc: Global, word: &[u8], envelope: &mut Vec<u8>) -> Result<(), WordError>
    ensures ok { OnOk result ((text : List ℕ) × IsWrittenText word.now text × (envelope.new.items ≡ envelope.old.items ++ text)) }
    ensures err { IfErr result (λ why. why ≡ WordError.Malformed → (text : List ℕ) → ¬ (IsWrittenText word.now text)) }
{
    if is_empty_text(word) {
        return Ok(());
    }
    if is_end(word) {
        return Err(WordError::Malformed);
    }
    put_word(alloc, word, envelope)
}

/// Whether it is the word for the empty text.
fn is_empty_text(word: &[u8]) -> bool
    ensures { IsTrue result ↔ (word.now ≡ codes "-") }
{
    matches!(word, b"-")
}

/// Whether it is the word that ends the words of a line.
pub(crate) fn is_end(word: &[u8]) -> bool
    ensures { IsTrue result ↔ (word.now ≡ codes ":") }
{
    matches!(word, b":")
}

/// Puts the text that a word stands for at the end of the envelope.
pub(crate) fn put_word(alloc: Global, word: &[u8], envelope: &mut Vec<u8>) -> Result<(), WordError>
    ensures ok { OnOk result ((text : List ℕ) × IsWritten word.now text × (envelope.new.items ≡ envelope.old.items ++ text)) }
    ensures err { IfErr result (λ why. why ≡ WordError.Malformed → (text : List ℕ) → ¬ (IsWritten word.now text)) }
{
    if word.is_empty() {
        return Err(WordError::Malformed);
    }
    let text = bytes_of(alloc, word)?;
    envelope.extend_from_slice(&text)?;
    Ok(())
}

/// The bytes that an escaped text stands for. `Malformed` only if it is no escaped text; else out of memory.
pub fn bytes_of(alloc: Global, text: &[u8]) -> Result<Vec<u8>, WordError>
    ensures ok { IfOk result (λ bytes. unescaped text.now ≡ Ok bytes.items) }
    ensures err { IfErr result (λ why. why ≡ WordError.Malformed → (bytes : List ℕ) → ¬ (unescaped text.now ≡ Ok bytes)) }
{
    match unescape(alloc, text) {
        Ok(bytes) => Ok(bytes),
        Err(EscapeError::Bad { .. }) => Err(WordError::Malformed),
        Err(EscapeError::Memory) => Err(WordError::Memory),
    }
}
