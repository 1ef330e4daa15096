// The lines that tell how many names `pid/` has and which state a number is in.
ghost use Rattle.std.specs.Prelude.{◌≡◌, ◌++◌, OnOk};
ghost use Rattle.queue_states.specs.Lines.{line_of, count_line, state_line};

use crate::state::State;
use mail_bytes::{Memory, dec};

/// Puts `pid COUNT` and a newline at the end of a text. After out of memory the text may have a part of it.
pub fn put_count_line(text: &mut Vec<u8>, count: u64) -> Result<(), Memory>
    ensures { OnOk result (text.new.items ≡ text.old.items ++ count_line count) }
{
    let mut into = [0; 20];
    let length = dec(count, &mut into);
    put_line(text, b"pid", &into[..length])
}

/// Puts the number and its state, `S1` to `S5` or `other`, as a line at the end of a text. After out of memory the text may
/// have a part of it.
pub fn put_state_line(text: &mut Vec<u8>, number: u64, state: State) -> Result<(), Memory>
    ensures { OnOk result (text.new.items ≡ text.old.items ++ state_line number state) }
{
    let mut into = [0; 20];
    let length = dec(number, &mut into);
    put_line(text, &into[..length], state.word())
}

/// Puts a line of two words at the end of a text, with a space between them. After out of memory the text may have a part
/// of it.
pub fn put_line(text: &mut Vec<u8>, word: &[u8], other: &[u8]) -> Result<(), Memory>
    ensures { OnOk result (text.new.items ≡ text.old.items ++ line_of word.now other.now) }
{
    text.extend_from_slice(word)?;
    text.push(b' ')?;
    text.extend_from_slice(other)?;
    text.push(b'\n')?;
    Ok(())
}
