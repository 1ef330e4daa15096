// The report of a program's end.
ghost use Rattle.std.specs.Prelude.{◌≡◌, ◌∷◌, ◌++◌, IfOk, slice_index};
ghost use Rattle.std.specs.Option.{option_copied};
ghost use Rattle.remote_spawn.specs.Parts.{parts, said};
ghost use Rattle.remote_spawn.specs.Reports.{letter_by, letter_told, rank, report_of, text_by, told, untold};

use crate::parts::{Message, first_message, recipient_text};
use mail_bytes::Memory;
use outside::Status;
use std::alloc::Global;

/// The letter of the report of a remote program that ended like this, with this output: `K` for a success, `Z` for a later try,
/// `D` for a failure. A status that couldn't be had counts as a crash. Takes no memory.
pub fn letter_of(status: Status, output: &[u8]) -> u8
    ensures { result ≡ slice_index (report_of status output.now) 0 }
{
    match untold(status, output) {
        Some(report) => first_byte(report),
        None => letter_told(output),
    }
}

/// The report of a remote program that ended like this, with this output: its letter and its text. Fails only when out of memory.
pub fn report_of(alloc: Global, status: Status, output: &[u8]) -> Result<Vec<u8>, Memory>
    ensures { IfOk result (λ report. report.items ≡ report_of status output.now) }
{
    match untold(status, output) {
        Some(report) => Vec::from_slice(alloc, report),
        None => told(alloc, output),
    }
}

/// The report of a program that told nothing: one that crashed, or exited with another status than 0, or has no output.
fn untold(status: Status, output: &[u8]) -> Option<&'static [u8]>
    ensures { option_copied result ≡ untold status output.now }
{
    match status {
        Status::Crashed | Status::Failed => Some(b"Zqmail-remote crashed.\n"),
        Status::Ended(0) if output.is_empty() => Some(b"Zqmail-remote produced no output.\n"),
        Status::Ended(0) => None,
        Status::Ended(111) => Some(b"ZUnable to run qmail-remote.\n"),
        Status::Ended(_) => Some(b"DUnable to run qmail-remote.\n"),
    }
}

/// The first byte; 0 if there is none.
fn first_byte(bytes: &[u8]) -> u8
    ensures { result ≡ slice_index bytes.now 0 }
{
    match bytes.first() {
        Some(byte) => *byte,
        None => 0,
    }
}

/// The letter that an output tells.
fn letter_told(output: &[u8]) -> u8
    ensures { result ≡ letter_told output.now }
{
    letter_by(first_byte(output), first_message(output))
}

/// The report that an output tells.
fn told(alloc: Global, output: &[u8]) -> Result<Vec<u8>, Memory>
    ensures { IfOk result (λ report. report.items ≡ told output.now) }
{
    let message = first_message(output);
    let letter = letter_by(first_byte(output), message);
    let mut report = Vec::new(alloc);
    report.push(letter)?;
    report.extend_from_slice(recipient_text(output))?;
    report.extend_from_slice(text_by(letter, message))?;
    Ok(report)
}

/// The letter that the first byte of an output and its message report lead to.
fn letter_by(first: u8, message: Option<Message<'_>>) -> u8
    ensures { result ≡ letter_by first (said message.entry) }
{
    match (first, message) {
        (b's', _) => b'Z',
        (b'h', _) => b'D',
        (_, Some(message)) => message.letter,
        (_, None) => b'D',
    }
}

/// How good a letter is.
fn rank(letter: u8) -> u8
    ensures { result ≡ rank letter }
{
    match letter {
        b'K' => 2,
        b'Z' => 1,
        _ => 0,
    }
}

/// What of the message report goes into the report: its text, unless it is better than the letter that was given.
fn text_by<'a>(letter: u8, message: Option<Message<'a>>) -> &'a [u8]
    ensures { result.now ≡ text_by letter (said message.entry) }
{
    match message {
        Some(message) if rank(message.letter) <= rank(letter) => message.text,
        _ => &[],
    }
}
