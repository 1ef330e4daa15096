// The lines of a run over a disk.

use crate::trouble::Trouble;
use mail_bytes::Memory;
use std::alloc::Global;

/// The head of a run over a disk.
#[derive(Clone, Copy)]
pub(crate) struct Head<'a> {
    /// The letter of each report.
    pub letter: u8,
    /// After how many turns the sender ends.
    pub turns: u64,
    /// The first call that fails, each in a run of its own; 0 if none does.
    pub first: u64,
    /// The last call that fails.
    pub last: u64,
    /// What the sender needs at the end.
    pub end: &'a str,
}

/// What is expected of a run over a disk.
#[derive(Drop)]
pub(crate) struct Wanted {
    /// The lines of the log.
    pub log: Vec<u8>,
    /// The files that are left, each as `NAME=BYTES` and a space.
    pub left: Vec<u8>,
}

/// Reads a head; `None` if it is none.
pub(crate) fn read_head(text: &str) -> Option<Head<'_>> {
    let (words, end) = text.split_once(" = ")?;
    let (letter, words) = words.split_once(' ')?;
    let (turns, words) = words.split_once(' ')?;
    let (first, last) = words.split_once(' ')?;
    Some(Head {
        letter: letter.as_bytes().first().copied()?,
        turns: turns.parse::<u64>().ok()?,
        first: first.parse::<u64>().ok()?,
        last: last.parse::<u64>().ok()?,
        end,
    })
}

/// Nothing is logged, and nothing left.
pub(crate) fn nothing(alloc: Global) -> Wanted {
    Wanted {
        log: Vec::new(alloc),
        left: Vec::new(alloc),
    }
}

/// Adds the lines after a head.
pub(crate) fn add_lines(wanted: &mut Wanted, lines: &str) -> Result<(), Trouble> {
    for line in lines.split('\n') {
        add_line(wanted, line)?;
    }
    Ok(())
}

/// Adds a line.
fn add_line(wanted: &mut Wanted, line: &str) -> Result<(), Trouble> {
    if line.is_empty() || line.starts_with('#') {
        return Ok(());
    }
    if let Some(text) = line.strip_prefix("log ") {
        put(&mut wanted.log, text, b'\n')?;
        return Ok(());
    }
    if let Some(text) = line.strip_prefix("left ") {
        put(&mut wanted.left, text, b' ')?;
        return Ok(());
    }
    Err(Trouble::Malformed)
}

/// Adds a text, and this byte after it.
fn put(to: &mut Vec<u8>, text: &str, last: u8) -> Result<(), Memory> {
    to.extend_from_slice(text.as_bytes())?;
    to.push(last)?;
    Ok(())
}
