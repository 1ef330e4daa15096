// How a text is written.
ghost use Rattle.std.specs.Prelude.{◌≡◌, ◌%◌, ◌^◌};
ghost use Rattle.child_input.specs.Feedings.{WritesText};

use std::io::{ErrorKind, Write};

/// Writes these bytes. Answers whether all were written; if not, the first of them may have been. An interrupted write is tried
/// again.
pub(crate) fn write_text<I: Write>(input: &mut I, text: &[u8]) -> bool
    ensures { WritesText result (I.contents input.old) (I.contents input.new) text.now }
{
    let mut written = 0;
    for _ in 0..u64::MAX {
        if written == text.len() {
            return true;
        }
        match input.write(&text[written..]) {
            Ok(0) => return false,
            Ok(count) => written += count,
            Err(why) if why.kind() == ErrorKind::Interrupted => {}
            Err(_) => return false,
        }
    }
    false
}

/// The low 32 bits of a count.
pub(crate) fn low_half(count: u64) -> u32
    ensures { result ≡ count % 2 ^ 32 }
{
    (count % (1 << 32)) as u32
}
