// Notes, and the addresses that a bounce file names.
ghost use Rattle.std.specs.Prelude.{◌≡◌, ◌++◌, ◌==◌, if◌then◌else◌, IfOk, OnOk};
ghost use Rattle.std.specs.Option.{option_and_then, option_copied, option_to_list};
ghost use Rattle.bounce_record.specs.Notes.{late_report, missing_newline, note_name, note_text, plain_note, softened, first_line, named, notes_of};

use mail_bytes::{ByteText, Memory};
use std::alloc::Global;

/// The note of an address with a report: `<`, the address with each newline as `_`, `>:`, a newline, the report, and an
/// empty line. The report gets a newline at its end if it isn't empty and has none there. In this text, except for its
/// last byte, each newline after a newline becomes `/`, so that the report can't look like more notes. The address is given
/// without the prefix of its virtual domain.
pub fn note(alloc: Global, address: &[u8], report: &[u8]) -> Result<Vec<u8>, Memory>
    ensures { IfOk result (λ text. text.items ≡ note_text address.now report.now) }
{
    let mut text = plain_note(alloc, address, report)?;
    soften(&mut text);
    text.push(b'\n')?;
    Ok(text)
}

/// The report of a temporary failure of which a note is written, since the message is too old to be tried again
/// (qmail-send(8), queuelifetime): a line that says so comes directly after it.
pub fn late_report(alloc: Global, report: &[u8]) -> Result<Vec<u8>, Memory>
    ensures { IfOk result (λ text. text.items ≡ late_report report.now) }
{
    let mut text = Vec::from_slice(alloc, report)?;
    text.extend_from_slice(
        b"I'm not going to try again; this message has been in the queue too long.\n",
    )?;
    Ok(text)
}

/// The note, before newlines become `/`, and without its last newline.
fn plain_note(alloc: Global, address: &[u8], report: &[u8]) -> Result<Vec<u8>, Memory>
    ensures { IfOk result (λ text. text.items ≡ plain_note address.now report.now) }
{
    let mut text = Vec::from_slice(alloc, b"<")?;
    put_name(&mut text, address)?;
    text.extend_from_slice(b">:\n")?;
    text.extend_from_slice(report)?;
    text.extend_from_slice(missing_newline(report))?;
    Ok(text)
}

/// An address as a note names it: each newline as `_`. The error: out of memory.
pub fn note_name(alloc: Global, address: &[u8]) -> Result<ByteText, Memory>
    ensures { IfOk result (λ name. name ≡ note_name address.now) }
{
    let mut name = Vec::new(alloc);
    put_name(&mut name, address)?;
    Ok(ByteText::from_vec(name))
}

/// Puts an address at the end of a text, each newline as `_`.
fn put_name(text: &mut Vec<u8>, address: &[u8]) -> Result<(), Memory>
    ensures { OnOk result (text.new.items ≡ text.old.items ++ note_name address.now) }
{
    for byte in address {
        text.push(name_byte(*byte))?;
    }
    Ok(())
}

/// A byte of an address as a note has it.
fn name_byte(byte: u8) -> u8
    ensures { result ≡ (if byte == 10 then 95 else byte) }
{
    if byte == b'\n' { b'_' } else { byte }
}

/// The newline that a report lacks at its end.
fn missing_newline(report: &[u8]) -> &'static [u8]
    ensures { result.now ≡ missing_newline report.now }
{
    match report.last() {
        None | Some(b'\n') => b"",
        Some(_) => b"\n",
    }
}

/// Each newline after a newline becomes `/`, except for the last byte.
fn soften(text: &mut [u8])
    ensures { text.new ≡ softened text.old }
{
    for i in (1..text.len().saturating_sub(1)).rev() {
        if text[i] == b'\n' && text[i - 1] == b'\n' {
            text[i] = b'/';
        }
    }
}

/// The addresses that a bounce file names: one for each paragraph, at its start or after an empty line, whose first line
/// is `<`, an address and `>:`. The error: out of memory.
pub fn notes_of(alloc: Global, bytes: &[u8]) -> Result<Vec<ByteText>, Memory>
    ensures { IfOk result (λ found. found.items ≡ notes_of bytes.now) }
{
    let mut found = Vec::new(alloc);
    let mut before: &[u8] = b"";
    for line in bytes.split(|byte| *byte == b'\n') {
        put_named(alloc, &mut found, before, line)?;
        before = line;
    }
    Ok(found)
}

/// Puts the address that a line names at the end of a list, if the line before it is empty, so that a paragraph begins.
fn put_named(
    alloc: Global,
    found: &mut Vec<ByteText>,
    before: &[u8],
    line: &[u8],
) -> Result<(), Memory>
    ensures { OnOk result (found.new.items ≡ found.old.items ++ option_to_list (option_and_then named (first_line (before.now, line.now)))) }
{
    if !before.is_empty() {
        return Ok(());
    }
    if let Some(address) = named(line) {
        found.push(ByteText::from_slice(alloc, address)?)?;
    }
    Ok(())
}

/// The address that a paragraph's first line names.
fn named(line: &[u8]) -> Option<&[u8]>
    ensures { option_copied result ≡ named line.now }
{
    line.strip_prefix(b"<")?.strip_suffix(b">:")
}
