// What an envelope is made of.
ghost use Rattle.std.specs.Prelude.{◌≡◌, ◌++◌, List, ℕ, IfOk, IfErr, OnOk, flat_map};
ghost use Rattle.envelope_records.specs.Envelope.{record_of};
ghost use Rattle.script_words.specs.Reading.{IsWritten, HasRecipients, BeginsWithEnvelope, HasRawEnvelope, HasEnvelopeAs};

use crate::WordError;
use crate::words::{cut, first_word, is_end, put_text, put_word, read_end};
use std::alloc::Global;

/// How a line has an envelope.
#[derive(Clone, Copy)]
pub enum Form {
    /// `mail`: by a sender and recipients.
    Written,
    /// `raw`: by its bytes.
    Raw,
}

/// Reads what the envelope is made of, and `:`. Gives the envelope, and the body as it is written.
/// `Malformed` only if the words are no such envelope; else out of memory.
pub fn read_envelope_as(
    alloc: Global,
    form: Form,
    words: &[u8],
) -> Result<(Vec<u8>, &[u8]), WordError>
    ensures ok { IfOk result (λ read. HasEnvelopeAs form words.now read.0.items read.1.now) }
    ensures err { IfErr result (λ why. why ≡ WordError.Malformed → (envelope body : List ℕ) → ¬ (HasEnvelopeAs form words.now envelope body)) }
{
    match form {
        Form::Written => read_envelope(alloc, words),
        Form::Raw => read_raw_envelope(alloc, words),
    }
}

/// Reads the bytes of an envelope, and `:`. Gives them, and the body as it is written.
fn read_raw_envelope(alloc: Global, words: &[u8]) -> Result<(Vec<u8>, &[u8]), WordError>
    ensures ok { IfOk result (λ read. HasRawEnvelope words.now read.0.items read.1.now) }
    ensures err { IfErr result (λ why. why ≡ WordError.Malformed → (envelope body : List ℕ) → ¬ (HasRawEnvelope words.now envelope body)) }
{
    let (word, rest) = first_word(words)?;
    let mut envelope = Vec::new(alloc);
    put_text(alloc, word, &mut envelope)?;
    let body = read_end(rest)?;
    Ok((envelope, body))
}

/// Reads a sender, recipients and `:`. Gives the envelope, and the body as it is written.
fn read_envelope(alloc: Global, words: &[u8]) -> Result<(Vec<u8>, &[u8]), WordError>
    ensures ok { IfOk result (λ read. BeginsWithEnvelope words.now read.0.items read.1.now) }
    ensures err { IfErr result (λ why. why ≡ WordError.Malformed → (envelope body : List ℕ) → ¬ (BeginsWithEnvelope words.now envelope body)) }
{
    let (word, rest) = first_word(words)?;
    let mut envelope = Vec::from_slice(alloc, b"F")?;
    put_text(alloc, word, &mut envelope)?;
    envelope.push(0)?;
    let body = read_recipients(alloc, rest, &mut envelope)?;
    envelope.push(0)?;
    Ok((envelope, body))
}

/// Reads words up to `:` and puts a record for each at the end of the envelope. Gives the body as it is written.
fn read_recipients<'a>(
    alloc: Global,
    words: &'a [u8],
    envelope: &mut Vec<u8>,
) -> Result<&'a [u8], WordError>
    ensures ok { IfOk result (λ body. (recipients : List (List ℕ)) × HasRecipients words.now recipients body.now
        × (envelope.new.items ≡ envelope.old.items ++ flat_map record_of recipients)) }
    ensures err { IfErr result (λ why. why ≡ WordError.Malformed
        → (recipients : List (List ℕ)) (body : List ℕ) → ¬ (HasRecipients words.now recipients body)) }
{
    let mut rest = words;
    'words: loop {
        let (word, after) = cut(rest, b' ');
        if is_end(word) {
            return Ok(after.unwrap_or(b""));
        }
        let Some(after) = after else {
            return Err(WordError::Malformed);
        };
        put_record(alloc, word, envelope)?;
        rest = after;
    }
}

/// Puts a record of the address that a word stands for at the end of the envelope.
fn put_record(alloc: Global, word: &[u8], envelope: &mut Vec<u8>) -> Result<(), WordError>
    ensures ok { OnOk result ((address : List ℕ) × IsWritten word.now address
        × (envelope.new.items ≡ envelope.old.items ++ record_of address)) }
    ensures err { IfErr result (λ why. why ≡ WordError.Malformed → (address : List ℕ) → ¬ (IsWritten word.now address)) }
{
    envelope.push(b'T')?;
    put_word(alloc, word, envelope)?;
    envelope.push(0)?;
    Ok(())
}
