// The lines of events.
ghost use Rattle.std.specs.Prelude.{◌≡◌, ◌++◌, ◌∷◌, [], OnOk, codes, flat_map};
ghost use Rattle.mail_bytes.specs.Decimal.{digits};
ghost use Rattle.actor_names.specs.MailNames.{members};
ghost use Rattle.script_traces.specs.Events.{survival_word, start_line, report_line, end_line, stop_line, moment_line, halt_line, kept_line};

use crate::acting::put_act;
use crate::printing::put_number;
use actor_names::{ActorName, Member};
use call_fs::Survival;
use mail_bytes::Memory;
use queue_states::put_line;
use std::alloc::Global;
use world_events::Event;

/// Puts the line of an event that a world kept at the end of a text. The error: out of memory.
pub fn put_event(alloc: Global, text: &mut Vec<u8>, event: &Event) -> Result<(), Memory>
    ensures { OnOk result (text.new.items ≡ text.old.items ++ kept_line event.now) }
{
    match event {
        Event::Start { actor, .. } => put_start(text, actor),
        Event::Act { actor, own } => put_act(alloc, text, actor, own),
        Event::Feed { actor, own, .. } => put_act(alloc, text, actor, own.get()),
        Event::Child { child, .. } => put_start(text, child),
        Event::Generation { .. } => put_generation(text),
        Event::Report { slot, letter, .. } => put_report(text, *slot, *letter),
        Event::End { actor, status, .. } => put_end(text, actor, *status),
        Event::Stop { actor } => put_stop(text, actor),
        Event::Moment { moment } => put_moment(text, *moment),
        Event::Halt { how } => put_halt(text, *how),
    }
}

/// Puts the line of a start at the end of a text.
fn put_start(text: &mut Vec<u8>, actor: &ActorName) -> Result<(), Memory>
    ensures { OnOk result (text.new.items ≡ text.old.items ++ start_line actor.now) }
{
    put_line(text, actor.as_slice(), b"start")
}

/// Puts the lines of the start of a generation at the end of a text, one for each member.
fn put_generation(text: &mut Vec<u8>) -> Result<(), Memory>
    ensures { OnOk result (text.new.items ≡ text.old.items ++ flat_map start_line members) }
{
    put_line(text, Member::Sender.name(), b"start")?;
    put_line(text, Member::Cleaner.name(), b"start")?;
    put_line(text, Member::LocalSpawner.name(), b"start")?;
    put_line(text, Member::RemoteSpawner.name(), b"start")
}

/// Puts the line of a report at the end of a text.
fn put_report(text: &mut Vec<u8>, slot: u8, letter: u8) -> Result<(), Memory>
    ensures { OnOk result (text.new.items ≡ text.old.items ++ report_line slot letter) }
{
    text.extend_from_slice(Member::RemoteSpawner.name())?;
    text.push(b' ')?;
    put_reported(text, slot, letter)?;
    text.extend_from_slice(b"\n")
}

/// Puts the slot and the letter of a report at the end of a text.
fn put_reported(text: &mut Vec<u8>, slot: u8, letter: u8) -> Result<(), Memory>
    ensures { OnOk result (text.new.items ≡ text.old.items
        ++ (codes "report " ++ (digits slot ++ (32 ∷ letter ∷ [])))) }
{
    text.extend_from_slice(b"report ")?;
    put_number(text, u64::from(slot))?;
    text.extend_from_slice(&[b' ', letter])
}

/// Puts the line of a stop at the end of a text.
fn put_stop(text: &mut Vec<u8>, actor: &ActorName) -> Result<(), Memory>
    ensures { OnOk result (text.new.items ≡ text.old.items ++ stop_line actor.now) }
{
    put_line(text, actor.as_slice(), b"stop")
}

/// Puts the line of a machine stop at the end of a text.
fn put_halt(text: &mut Vec<u8>, how: Survival) -> Result<(), Memory>
    ensures { OnOk result (text.new.items ≡ text.old.items ++ halt_line how) }
{
    put_line(text, b"world", halt_words(how))
}

/// The words of a machine stop, by what survives it.
fn halt_words(how: Survival) -> &'static [u8]
    ensures { result.now ≡ codes "halt " ++ survival_word how }
{
    match how {
        Survival::Keep => b"halt keep",
        Survival::Lose => b"halt lose",
        Survival::Junk(_) => b"halt junk",
    }
}

/// Puts the line of a moment at the end of a text.
fn put_moment(text: &mut Vec<u8>, moment: u64) -> Result<(), Memory>
    ensures { OnOk result (text.new.items ≡ text.old.items ++ moment_line moment) }
{
    text.extend_from_slice(b"world moment ")?;
    put_number(text, moment)?;
    text.push(b'\n')?;
    Ok(())
}

/// Puts the line of an end at the end of a text.
fn put_end(text: &mut Vec<u8>, actor: &ActorName, status: u8) -> Result<(), Memory>
    ensures { OnOk result (text.new.items ≡ text.old.items ++ end_line actor.now status) }
{
    text.extend_from_slice(actor.as_slice())?;
    text.extend_from_slice(b" end ")?;
    put_number(text, u64::from(status))?;
    text.push(b'\n')?;
    Ok(())
}
