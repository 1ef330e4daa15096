// The words of a mail's lines.
ghost use Rattle.std.specs.Prelude.{◌≡◌, ◌++◌, OnOk};
ghost use Rattle.mail_bytes.specs.Decimal.{digits};
ghost use Rattle.script_maker.specs.Mails.{address, sender, recipient};

use mail_bytes::{Memory, dec};

/// Puts the digits of a number at the end of a text.
pub(crate) fn put_number(text: &mut Vec<u8>, number: u64) -> Result<(), Memory>
    ensures { OnOk result (text.new.items ≡ text.old.items ++ digits number) }
{
    let mut into = [0; 20];
    let length = dec(number, &mut into);
    text.extend_from_slice(&into[..length])
}

/// Puts the address of a sender at the end of a text, by one draw.
pub(crate) fn put_sender(text: &mut Vec<u8>, draw: u64) -> Result<(), Memory>
    ensures { OnOk result (text.new.items ≡ text.old.items ++ sender draw) }
{
    put_address(text, b"s", draw % 100, b"h.example")
}

/// Puts the address of a recipient at the end of a text, by two draws: a local one if the first is even.
pub(crate) fn put_recipient(text: &mut Vec<u8>, first: u64, second: u64) -> Result<(), Memory>
    ensures { OnOk result (text.new.items ≡ text.old.items ++ recipient first second) }
{
    if first % 2 == 0 {
        put_address(text, b"u", second % 10, b"localhost")
    } else {
        put_address(text, b"r", second % 10, b"h.example")
    }
}

/// Puts an address at the end of a text: a name that ends in a number, `@` and a host.
fn put_address(text: &mut Vec<u8>, name: &[u8], number: u64, host: &[u8]) -> Result<(), Memory>
    ensures { OnOk result (text.new.items ≡ text.old.items ++ address name.now number host.now) }
{
    text.extend_from_slice(name)?;
    put_number(text, number)?;
    text.push(b'@')?;
    text.extend_from_slice(host)
}
