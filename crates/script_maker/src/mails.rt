// The lines of a mail.
ghost use Rattle.std.specs.Prelude.{◌≡◌, ◌++◌, ◌*◌, OnOk};
ghost use Rattle.script_maker.specs.Mails.{after_mail, draw, mail, recipients_after};

use crate::draws::Draws;
use crate::words::{put_number, put_recipient, put_sender};
use mail_bytes::Memory;

/// Puts the lines of the mail with this number at the end of a text.
pub(crate) fn put_mail(text: &mut Vec<u8>, draws: &mut Draws, number: u64) -> Result<(), Memory>
    ensures text { OnOk result (text.new.items ≡ text.old.items ++ mail draws.old number) }
    ensures draws { OnOk result (draws.new ≡ after_mail draws.old) }
{
    text.extend_from_slice(b"mail m")?;
    put_number(text, number)?;
    text.push(b' ')?;
    put_sender(text, draws.draw())?;
    let recipients = 1 + draws.draw() % 3;
    put_recipients(text, draws, recipients)?;
    text.extend_from_slice(b" : body ")?;
    put_number(text, number)?;
    text.extend_from_slice(b"%0A\nrun m")?;
    put_number(text, number)?;
    text.push(b'\n')?;
    Ok(())
}

/// Puts so many recipients at the end of a text, each after a space.
fn put_recipients(text: &mut Vec<u8>, draws: &mut Draws, count: u64) -> Result<(), Memory>
    ensures text { OnOk result (text.new.items ≡ text.old.items ++ recipients_after draws.old count) }
    ensures draws { OnOk result (draws.new ≡ draw draws.old (2 * count)) }
{
    for place in 0..count {
        let first = draws.draw();
        let second = draws.draw();
        text.push(b' ')?;
        put_recipient(text, first, second)?;
    }
    Ok(())
}
