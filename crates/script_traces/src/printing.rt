// Putting text together.
ghost use Rattle.std.specs.Prelude.{◌≡◌, ◌++◌, OnOk};
ghost use Rattle.mail_bytes.specs.Decimal.{digits};
ghost use Rattle.mail_bytes.specs.Escape.{escaped};

use mail_bytes::{Memory, dec, escape};
use std::alloc::Global;

/// Puts a decimal number at the end of a text. The error: out of memory.
pub fn put_number(text: &mut Vec<u8>, number: u64) -> Result<(), Memory>
    ensures { OnOk result (text.new.items ≡ text.old.items ++ digits number) }
{
    let mut into = [0; 20];
    let length = dec(number, &mut into);
    text.extend_from_slice(&into[..length])
}

/// Puts bytes at the end of a text, each but 33 to 126, and `%`, as `%` and two hexadecimal digits.
/// The error: out of memory.
pub fn put_escaped(alloc: Global, text: &mut Vec<u8>, bytes: &[u8]) -> Result<(), Memory>
    ensures { OnOk result (text.new.items ≡ text.old.items ++ escaped bytes.now) }
{
    let escaped = escape(alloc, bytes)?;
    text.extend_from_slice(&escaped)
}
