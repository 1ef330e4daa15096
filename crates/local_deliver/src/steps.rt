// Where what came leads, from the input to the end. After an `Err` all is as before.
ghost use Rattle.std.specs.Prelude.{◌≡◌, false, None, OnOk, OnErr, ℕ};
ghost use Rattle.call_fs.specs.Program.{came_of, IsKind};
ghost use Rattle.local_deliver.specs.Drops.{end_drop};
ghost use Rattle.local_deliver.specs.inside.DropAfter.{after_of, is_answer, is_made, went};
ghost use Rattle.local_parts.specs.declared.arguments.LocalArgs.{LocalArgs as Words};
ghost use Rattle.local_deliver.specs.Table.{command_failed, due_by_drop, dropped, exited, fed, forward_failed, forwarded, gave, injected, injected_with, input_ended, line_done, ran, started, took};

use crate::lines::{fails, line_done, lines_done, reports};
use crate::reading::ends;
use crate::{Dropping, Failure, Place, Row, Wanted};
use call_fs::Got;
use local_parts::{
    Blocks, LocalArgs, TEMPORARY, command_report, command_status, forward_report, forward_status,
    forwarded_report, message_in,
};
use mail_bytes::Memory;
use maildir_drop::End;
use queue_limits::{DONE, MEMORY};
use std::alloc::Global;

/// After a taking of the input. The error: out of memory.
pub fn took(place: &mut Place, alloc: Global, got: &Got<'_>) -> Result<(), Memory>
    ensures ok { OnOk result (place.new ≡ took (came_of got.now) place.old) }
    ensures err { OnErr result (place.new ≡ place.old) }
{
    match got {
        Got::Took(bytes) => {
            place.message.put(alloc, bytes)?;
            place.row = Row::TakeInput;
        }
        Got::End => {
            let message = message_in(alloc, &place.message)?;
            input_ended(place, message);
        }
        _ => fails(place, Failure::Unreadable),
    }
    Ok(())
}

/// After the end of the input, which is this message, or none.
fn input_ended(place: &mut Place, message: Option<Blocks>)
    ensures { place.new ≡ input_ended message place.old }
{
    match message {
        Some(message) => {
            place.message = message;
            place.row = Row::Open {
                wanted: Wanted::Host,
            };
        }
        None => fails(place, Failure::Unreadable),
    }
}

/// After a step of the drop. The condition: what came is of the kind of its need. The error: out of memory.
pub fn dropped(
    place: &mut Place,
    alloc: Global,
    args: &LocalArgs,
    now: u64,
    got: Got<'_>,
) -> Result<(), Memory>
    requires { IsKind (due_by_drop place.old.dropping) (came_of got) }
    ensures ok { OnOk result (place.new ≡ dropped args.now now (came_of got.entry) place.old.dropping place.old) }
    ensures err { OnErr result (place.new ≡ place.old) }
{
    if is_made(&place.dropping, &got) {
        return drop_made(place, alloc, args, now);
    }
    drop_goes(place, got);
    Ok(())
}

/// Whether the drop is made with this: its link was, and the unlink after it was answered.
fn is_made(dropping: &Option<Dropping>, got: &Got<'_>) -> bool
    ensures { result ≡ is_made dropping.now (came_of got.now) }
{
    match dropping {
        Some(drop) => is_answer(got) && drop.is_linked(),
        None => false,
    }
}

/// Whether this is an answer to a call.
fn is_answer(got: &Got<'_>) -> bool
    ensures { result ≡ is_answer (came_of got.now) }
{
    matches!(got, Got::File(_, _))
}

/// The drop goes on, or has failed. The condition: what came is of the kind of its need, and the drop isn't made with it.
fn drop_goes(place: &mut Place, got: Got<'_>)
    requires kind { IsKind (due_by_drop place.old.dropping) (came_of got) }
    requires going { is_made place.old.dropping (came_of got) ≡ false }
    ensures { (args : Words) (now : ℕ) → place.new ≡ dropped args now (came_of got.entry) place.old.dropping place.old }
{
    if let Some(drop) = &mut place.dropping {
        drop.done(got);
        let after = after_of(drop);
        went(place, after);
    }
}

/// What becomes of a delivery whose drop isn't made yet.
#[derive(Clone, Copy)]
enum After {
    /// The drop goes on.
    Goes,
    /// It failed.
    Failed,
    /// A call of it found no memory.
    Memory,
}

/// What becomes of it, by the end of the drop.
fn after_of(drop: &Dropping) -> After
    ensures { result ≡ after_of (end_drop drop.now) }
{
    match drop.end() {
        None => After::Goes,
        Some(End::Memory) => After::Memory,
        Some(_) => After::Failed,
    }
}

/// Goes on so.
fn went(place: &mut Place, after: After)
    ensures { place.new ≡ went after place.old }
{
    match after {
        After::Goes => {}
        After::Failed => {
            place.dropping = None;
            fails(place, Failure::Maildir);
        }
        After::Memory => {
            place.dropping = None;
            ends(place, MEMORY);
        }
    }
}

/// The drop was made.
fn drop_made(place: &mut Place, alloc: Global, args: &LocalArgs, now: u64) -> Result<(), Memory>
    ensures ok { OnOk result (place.new ≡ line_done args.now now (record place.old { dropping = None })) }
    ensures err { OnErr result (place.new ≡ place.old) }
{
    let dropping = place.dropping.take();
    let made = line_done(place, alloc, args, now);
    if made.is_err() {
        place.dropping = dropping;
    }
    made
}

/// After a command. The error: out of memory.
pub fn ran(
    place: &mut Place,
    alloc: Global,
    args: &LocalArgs,
    now: u64,
    got: &Got<'_>,
) -> Result<(), Memory>
    ensures ok { OnOk result (place.new ≡ ran args.now now (came_of got.now) place.old) }
    ensures err { OnErr result (place.new ≡ place.old) }
{
    match got {
        Got::Ended(code) => exited(place, alloc, args, now, *code),
        Got::Memory => {
            ends(place, MEMORY);
            Ok(())
        }
        _ => command_failed(place, alloc, 0),
    }
}

/// After a command that exited with this.
fn exited(
    place: &mut Place,
    alloc: Global,
    args: &LocalArgs,
    now: u64,
    code: u8,
) -> Result<(), Memory>
    ensures ok { OnOk result (place.new ≡ exited args.now now code place.old) }
    ensures err { OnErr result (place.new ≡ place.old) }
{
    match code {
        0 => line_done(place, alloc, args, now),
        99 => lines_done(place, alloc, args, now),
        _ => command_failed(place, alloc, code),
    }
}

/// The command has failed.
fn command_failed(place: &mut Place, alloc: Global, code: u8) -> Result<(), Memory>
    ensures ok { OnOk result (place.new ≡ command_failed code place.old) }
    ensures err { OnErr result (place.new ≡ place.old) }
{
    let text = command_report(alloc, code)?;
    reports(place, command_status(code), text);
    Ok(())
}

/// After the start of the injector. The error: out of memory.
pub fn started(place: &mut Place, alloc: Global, got: &Got<'_>) -> Result<(), Memory>
    ensures ok { OnOk result (place.new ≡ started (came_of got.now) place.old) }
    ensures err { OnErr result (place.new ≡ place.old) }
{
    match got {
        Got::Started { pid } => {
            place.row = Row::Feed;
            place.injector = *pid;
            Ok(())
        }
        Got::Memory => {
            ends(place, MEMORY);
            Ok(())
        }
        _ => forward_failed(place, alloc, 0),
    }
}

/// The injection has failed.
fn forward_failed(place: &mut Place, alloc: Global, code: u8) -> Result<(), Memory>
    ensures ok { OnOk result (place.new ≡ forward_failed code place.old) }
    ensures err { OnErr result (place.new ≡ place.old) }
{
    let text = forward_report(alloc, code)?;
    reports(place, forward_status(code), text);
    Ok(())
}

/// After the give to the injector. Takes no memory.
pub fn fed(place: &mut Place, got: &Got<'_>)
    ensures { place.new ≡ fed (came_of got.now) place.old }
{
    match got {
        Got::Gave => place.row = Row::TakeStatus,
        _ => ends(place, TEMPORARY),
    }
}

/// After the taking of the injector's status. The error: out of memory.
pub fn injected(place: &mut Place, alloc: Global, got: &Got<'_>) -> Result<(), Memory>
    ensures ok { OnOk result (place.new ≡ injected (came_of got.now) place.old) }
    ensures err { OnErr result (place.new ≡ place.old) }
{
    match got {
        Got::Ended(code) => injected_with(place, alloc, *code),
        _ => forward_failed(place, alloc, 0),
    }
}

/// After an injector that exited with this.
fn injected_with(place: &mut Place, alloc: Global, code: u8) -> Result<(), Memory>
    ensures ok { OnOk result (place.new ≡ injected_with code place.old) }
    ensures err { OnErr result (place.new ≡ place.old) }
{
    if code == 0 {
        forwarded(place, alloc)
    } else {
        forward_failed(place, alloc, code)
    }
}

/// The message was injected.
fn forwarded(place: &mut Place, alloc: Global) -> Result<(), Memory>
    ensures ok { OnOk result (place.new ≡ forwarded place.old) }
    ensures err { OnErr result (place.new ≡ place.old) }
{
    let text = forwarded_report(alloc, place.course.lines(), place.injector)?;
    reports(place, DONE, text);
    Ok(())
}

/// After a give to the output, with which it ends with this status. Takes no memory.
pub fn gave(place: &mut Place, status: u8, got: &Got<'_>)
    ensures { place.new ≡ gave status (came_of got.now) place.old }
{
    match got {
        Got::Gave => ends(place, status),
        _ => ends(place, TEMPORARY),
    }
}
