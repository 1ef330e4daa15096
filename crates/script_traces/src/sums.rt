// The line of what became of all recipients.
ghost use Rattle.std.specs.Prelude.{◌≡◌, ◌++◌, OnOk};
ghost use Rattle.std.specs.List.{count_by};
ghost use Rattle.script_traces.specs.Fates.{count_of, is_fate, sum_line, was_accepted, with_number};

use crate::fates::RecipientFate;
use crate::printing::put_number;
use mail_bytes::Memory;
use world_events::Entry;

/// Puts the line of the accepted ones of these mails, by what became of their recipients, at the end of a text. The error: out of
/// memory.
pub fn put_sum(text: &mut Vec<u8>, entries: &[Entry], fates: &[RecipientFate]) -> Result<(), Memory>
    ensures { OnOk result (text.new.items ≡ text.old.items ++ sum_line (count_by was_accepted entries.now) fates.now) }
{
    put_with(text, b"accepted", accepted_in(entries))?;
    put_with(text, b" recipients", fates.len() as u64)?;
    put_with(text, b" pending", count_of(RecipientFate::Pending, fates))?;
    put_with(
        text,
        b" delivered",
        count_of(RecipientFate::Delivered, fates),
    )?;
    put_with(text, b" noted", count_of(RecipientFate::Noted, fates))?;
    put_with(text, b" bounced", count_of(RecipientFate::Bounced, fates))?;
    put_with(text, b" dropped", count_of(RecipientFate::Dropped, fates))?;
    text.push(b'\n')?;
    Ok(())
}

/// Puts a word and a number, with a space between, at the end of a text.
fn put_with(text: &mut Vec<u8>, word: &[u8], number: u64) -> Result<(), Memory>
    ensures { OnOk result (text.new.items ≡ text.old.items ++ with_number word.now number) }
{
    text.extend_from_slice(word)?;
    text.push(b' ')?;
    put_number(text, number)
}

/// How many of these mails were accepted.
fn accepted_in(entries: &[Entry]) -> u64
    ensures { result ≡ count_by was_accepted entries.now }
{
    entries.iter().filter(|entry| entry.accepted).count() as u64
}

/// Of how many this became.
fn count_of(fate: RecipientFate, fates: &[RecipientFate]) -> u64
    ensures { result ≡ count_of fate fates.now }
{
    fates.iter().filter(|other| is_fate(fate, **other)).count() as u64
}

/// Whether the same became of both.
fn is_fate(fate: RecipientFate, other: RecipientFate) -> bool
    ensures { result ≡ is_fate fate other }
{
    match fate {
        RecipientFate::Pending => matches!(other, RecipientFate::Pending),
        RecipientFate::Delivered => matches!(other, RecipientFate::Delivered),
        RecipientFate::Noted => matches!(other, RecipientFate::Noted),
        RecipientFate::Bounced => matches!(other, RecipientFate::Bounced),
        RecipientFate::Dropped => matches!(other, RecipientFate::Dropped),
    }
}
