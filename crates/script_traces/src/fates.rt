// What became of recipients, and the line of each.
ghost use Rattle.std.specs.Prelude.{◌≡◌, ◌++◌, IfOk, OnOk, replicate};
ghost use Rattle.script_traces.specs.Fates.{fate_lines, fate_word};

use crate::mails::put_recipient;
use mail_bytes::Memory;
use std::alloc::Global;

/// What became of a recipient of an accepted mail.
#[derive(Clone, Copy)]
pub enum RecipientFate {
    /// Todo holds the mail, or the record of the recipient reads `T`.
    Pending,
    /// A report said that it was delivered to.
    Delivered,
    /// The bounce file names it.
    Noted,
    /// It failed, and a bounce of the mail was injected.
    Bounced,
    /// It failed, and nothing was injected.
    Dropped,
}

/// So many recipients of which the same became. The error: out of memory.
pub fn alike(alloc: Global, fate: RecipientFate, count: u64) -> Result<Vec<RecipientFate>, Memory>
    ensures { IfOk result (λ fates. fates.items ≡ replicate count fate) }
{
    let mut fates = Vec::new(alloc);
    for _ in 0..count {
        fates.push(fate)?;
    }
    Ok(fates)
}

/// Puts a line for each recipient of a mail at the end of a text, by what became of it. The error: out of memory.
pub fn put_fates(text: &mut Vec<u8>, mail: &[u8], fates: &[RecipientFate]) -> Result<(), Memory>
    ensures { OnOk result (text.new.items ≡ text.old.items ++ fate_lines mail.now fates.now) }
{
    for (index, fate) in fates.iter().enumerate() {
        put_recipient(text, mail, index as u64 + 1, fate_word(*fate))?;
    }
    Ok(())
}

/// The word for it.
fn fate_word(fate: RecipientFate) -> &'static [u8]
    ensures { result.now ≡ fate_word fate }
{
    match fate {
        RecipientFate::Pending => b"pending",
        RecipientFate::Delivered => b"delivered",
        RecipientFate::Noted => b"noted",
        RecipientFate::Bounced => b"bounced",
        RecipientFate::Dropped => b"dropped",
    }
}
