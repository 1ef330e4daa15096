// The lines of a mail and of its recipients.
ghost use Rattle.std.specs.Prelude.{◌≡◌, ◌++◌, ◌∷◌, OnOk};
ghost use Rattle.mail_bytes.specs.Decimal.{digits};
ghost use Rattle.queue_states.specs.Lines.{line_of};
ghost use Rattle.script_traces.specs.Mails.{life_word};

use crate::printing::put_number;
use mail_bytes::Memory;
use queue_states::put_line;
use world_events::Life;

/// Puts the line of an injector at the end of a text: its exit status, or whether it lives or was stopped.
pub fn put_life(text: &mut Vec<u8>, name: &[u8], life: Life) -> Result<(), Memory>
    ensures { OnOk result (text.new.items ≡ text.old.items ++ line_of name.now (life_word life)) }
{
    let status = match life {
        Life::Alive => return put_line(text, name, b"alive"),
        Life::Stopped => return put_line(text, name, b"stopped"),
        Life::Ended(status) => status,
    };
    text.extend_from_slice(name)?;
    text.push(b' ')?;
    put_number(text, u64::from(status))?;
    text.push(b'\n')?;
    Ok(())
}

/// Puts the line of a recipient at the end of a text, counted from 1. The error: out of memory.
pub(crate) fn put_recipient(
    text: &mut Vec<u8>,
    name: &[u8],
    index: u64,
    word: &[u8],
) -> Result<(), Memory>
    ensures { OnOk result (text.new.items ≡ text.old.items ++ line_of (name.now ++ 46 ∷ digits index) word.now) }
{
    text.extend_from_slice(name)?;
    text.push(b'.')?;
    put_number(text, index)?;
    text.push(b' ')?;
    text.extend_from_slice(word)?;
    text.push(b'\n')?;
    Ok(())
}
