// What a .qmail file tells to do.
ghost use Rattle.std.specs.Prelude.{◌≡◌, ◌++◌, ◌==◌, Some, position, IfOk, IfErr, OnOk};
ghost use Rattle.std.specs.List.{before_first};
ghost use Rattle.std.specs.Option.{option_to_list};
ghost use Rattle.dot_qmail.specs.Lines.{begins_blank, until_nul, said, said_by, path_line, line_of, plan_of, IsPlanFault};

use mail_bytes::{ByteText, Memory, trimmed};
use std::alloc::{AllocError, AllocFailed, Global};
use thiserror::Error;

/// What a line of a `.qmail` file tells to do (dot-qmail(5)).
#[derive(Drop)]
pub enum Line {
    /// `|COMMAND`: runs the command, which takes the message as its input.
    Command(ByteText),
    /// A path that ends in `/`: delivers to this maildir.
    Maildir(ByteText),
    /// Another path: delivers to this mailbox file.
    Mailbox(ByteText),
    /// `&ADDRESS`, or the address alone: forwards to it.
    Forward(ByteText),
}

/// Why a `.qmail` file has no plan.
#[derive(Clone, Copy, Debug, PartialEq, Eq, Error)]
pub enum PlanError {
    /// Its first line is blank.
    #[error("first line of .qmail file is blank")]
    BlankFirst,
    /// Out of memory.
    #[error("out of memory")]
    Memory,
}

impl From<AllocError> for PlanError {
    ghost use Rattle.std.specs.Prelude.{◌≡◌};
    ghost use Rattle.dot_qmail.specs.declared.line.PlanError.TheVariants.{Memory};

    ghost from_gives = { λ _ why. why ≡ Memory };

    fn from(_: AllocError) -> Self {
        PlanError::Memory
    }
}

impl<T: Drop> From<AllocFailed<T>> for PlanError {
    ghost use Rattle.std.specs.Prelude.{◌≡◌};
    ghost use Rattle.dot_qmail.specs.declared.line.PlanError.TheVariants.{Memory};

    ghost from_gives = { λ _ why. why ≡ Memory };

    fn from(_: AllocFailed<T>) -> Self {
        PlanError::Memory
    }
}

/// What the lines of a `.qmail` file tell to do, in their order. Spaces and tabs at the end of a line are dropped; a last
/// line without a newline counts. Blank lines, comments, which begin with `#`, and lines that begin with `+` are passed
/// over. A line that begins with `|` is a command, one that begins with `.` or `/` a path, of a maildir if it ends in `/`,
/// and any other an address, with or without `&` before it, which ends before its first NUL. An empty file has no lines.
///
/// `BlankFirst` exactly if there is a first line and it is blank.
pub fn plan(alloc: Global, bytes: &[u8]) -> Result<Vec<Line>, PlanError>
    ensures ok { IfOk result (λ lines. plan_of bytes.now ≡ Some lines.items) }
    ensures err { IfErr result (IsPlanFault bytes.now) }
{
    if begins_blank(bytes) {
        return Err(PlanError::BlankFirst);
    }
    let mut told = Vec::new(alloc);
    for line in bytes.split(|byte| *byte == b'\n') {
        put_line(alloc, &mut told, line)?;
    }
    Ok(told)
}

/// Whether there is a first line, and it is blank.
fn begins_blank(bytes: &[u8]) -> bool
    ensures { result ≡ begins_blank bytes.now }
{
    !bytes.is_empty() && trimmed(before(bytes, b'\n')).is_empty()
}

/// Puts what a line tells, if it tells anything, at the end of a list.
fn put_line(alloc: Global, told: &mut Vec<Line>, line: &[u8]) -> Result<(), Memory>
    ensures { OnOk result (told.new.items ≡ told.old.items ++ option_to_list (line_of line.now)) }
{
    if let Some(it) = said(alloc, trimmed(line))? {
        told.push(it)?;
    }
    Ok(())
}

/// What a line without blanks at its end tells.
fn said(alloc: Global, text: &[u8]) -> Result<Option<Line>, Memory>
    ensures { IfOk result (λ line. line ≡ said text.now) }
{
    match text.split_first() {
        None | Some((b'#' | b'+', _)) => Ok(None),
        Some((first, rest)) => Ok(Some(said_by(alloc, text, *first, rest)?)),
    }
}

/// What a line tells that isn't passed over, by its first byte and what comes after that.
fn said_by(alloc: Global, text: &[u8], first: u8, rest: &[u8]) -> Result<Line, Memory>
    ensures { IfOk result (λ line. line ≡ said_by text.now first rest.now) }
{
    match first {
        b'|' => Ok(Line::Command(ByteText::from_slice(alloc, rest)?)),
        b'.' | b'/' => path_line(alloc, text),
        b'&' => forward(alloc, rest),
        _ => forward(alloc, text),
    }
}

/// The delivery to a path.
fn path_line(alloc: Global, text: &[u8]) -> Result<Line, Memory>
    ensures { IfOk result (λ line. line ≡ path_line text.now) }
{
    let path = ByteText::from_slice(alloc, text)?;
    if text.ends_with(b"/") {
        Ok(Line::Maildir(path))
    } else {
        Ok(Line::Mailbox(path))
    }
}

/// The forward to an address.
fn forward(alloc: Global, text: &[u8]) -> Result<Line, Memory>
    ensures { IfOk result (λ line. line ≡ Line.Forward (until_nul text.now)) }
{
    Ok(Line::Forward(ByteText::from_slice(alloc, before(text, 0))?))
}

/// What stands before the first such byte; the whole text if it has none.
fn before(text: &[u8], byte: u8) -> &[u8]
    ensures { result.now ≡ before_first (λ b. b == byte) text.now }
{
    match place_of(text, byte) {
        Some(at) => &text[..at],
        None => text,
    }
}

/// The place of the first such byte.
fn place_of(text: &[u8], byte: u8) -> Option<usize>
    ensures { result ≡ position (λ b. b == byte) text.now }
{
    text.iter().position(|b| *b == byte)
}
