// A text that is given line by line.
ghost use Rattle.std.specs.Prelude.{◌≡◌, ◌<◌, ◌≤◌, length};
ghost use Rattle.mail_bytes.specs.Told.{Meets};
ghost use Rattle.outside.specs.Streams.{CountsFailures, Gives};

use outside::{Gave, Sink};

/// The byte at the end of a line.
const NEWLINE: u8 = 10;

/// Gives each line of this text to the log by itself, so that a reader of what several programs write sees whole lines. After
/// `Failed` the log took a prefix of the text, and has counted that.
pub(crate) fn give_lines<L: Sink>(log: &mut L, text: &[u8]) -> Gave
    ensures told { Meets (L.taken log.old) (L.taken log.new) (Gives result text.now) }
    ensures cause { CountsFailures (L.faults log.old) (L.faults log.new) (result ≡ Gave.Failed) }
{
    let mut at = 0;
    while at < text.len() {
        let end = at + first_line(&text[at..]);
        match log.give(&text[at..end]) {
            Gave::Done => at = end,
            Gave::Failed => return Gave::Failed,
        }
    }
    Gave::Done
}

/// How many bytes the first line of this text has, with its newline; all of them if it has none.
pub(crate) fn first_line(text: &[u8]) -> usize
    ensures within { result ≤ length text.now }
    ensures some { 0 < length text.now → 0 < result }
{
    match text.iter().position(|byte| *byte == NEWLINE) {
        Some(at) => at + 1,
        None => text.len(),
    }
}
