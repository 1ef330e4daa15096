// What `work` does before its threads start, and after they have ended.
ghost use Rattle.std.specs.Prelude.{◌≡◌, ◌≢◌, ◌++◌, List, ℕ, true, false, take, IfOk, IfErr, OnOk, Err};
ghost use Rattle.std.specs.List.{list_any};
ghost use Rattle.call_fs.specs.Disk.{Disk};
ghost use Rattle.call_fs.specs.Plan.{Plan};
ghost use Rattle.mail_bytes.specs.Told.{Rose, Meets};
ghost use Rattle.mail_world.specs.Kept.{events_of};
ghost use Rattle.mail_world.specs.LivingMails.{AreLivingMails};
ghost use Rattle.script_lines.specs.declared.line.Line.TheVariants as LineOf;
ghost use Rattle.script_lines.specs.declared.keyword.Alone.TheVariants as AloneOf;
ghost use Rattle.scenario.specs.Deeds.{Deed};
ghost use Rattle.scenario.specs.Playing.{IsPlaying};
ghost use Rattle.scenario.specs.Working.{first_lines, is_mail_line, lacked_memory, HasBegun, HasPlayedSilently, HasSettled};

use crash_fs::CrashDisk;
use mail_bytes::{ByteText, Memory};
use mail_world::{ActorName, History, World, WorldError};
use outside::Sink;
use scenario::{
    PlayError, Script, first_disk, give, lacked_memory, put_events_after, settle, show,
};
use script_lines::Line;
use script_words::Letter;
use std::alloc::{AllocError, Global};

/// A world whose actors are to be stepped by threads, and the names of its mails, in the order of their starts.
#[derive(Drop)]
pub(crate) struct Begun {
    /// The world.
    pub world: World<CrashDisk>,
    /// The names of its mails.
    pub mails: Vec<ActorName>,
}

/// Starts the mails of a script over a new disk in memory that holds its entries, and then a generation, all at moment 0. A mail whose
/// name was used is passed over, and so are the other lines.
pub(crate) fn begin_work(alloc: Global, script: &Script) -> Result<Begun, Memory>
    ensures mails { IfOk result (λ begun. AreLivingMails begun.world.events begun.mails.items) }
    ensures begun { IfOk result (λ begun. HasBegun script.now.opening (first_lines script.now.lines) begun.world) }
{
    let mut world = World::new(alloc, first_disk(alloc, script.opening())?)?;
    let mut mails = Vec::new(alloc);
    for line in script.lines() {
        add_line(alloc, &mut world, &mut mails, line)?;
    }
    add_generation(alloc, &mut world, &mails)?;
    Ok(Begun { world, mails })
}

/// Starts the mail of a line, if it is one.
fn add_line(
    alloc: Global,
    world: &mut World<CrashDisk>,
    mails: &mut Vec<ActorName>,
    line: &Line,
) -> Result<(), Memory>
    requires { AreLivingMails world.old.events mails.old.items }
    ensures mails { OnOk result (AreLivingMails world.new.events mails.new.items) }
    ensures played { OnOk result (is_mail_line line.now ≡ true → (d : Disk) (plan : Plan) (h : List Deed) → IsPlaying d world.old plan h
        → HasPlayedSilently d world.new line.now plan h) }
    ensures other { OnOk result (is_mail_line line.now ≡ false → world.new ≡ world.old) }
{
    match line {
        Line::Mail {
            name,
            message,
            envelope,
        } => add_mail(alloc, world, mails, name, message, envelope),
        _ => Ok(()),
    }
}

/// Starts a mail, and puts its name at the end of those of the others. If its name was used, nothing happens.
fn add_mail(
    alloc: Global,
    world: &mut World<CrashDisk>,
    mails: &mut Vec<ActorName>,
    name: &ActorName,
    message: &ByteText,
    envelope: &ByteText,
) -> Result<(), Memory>
    requires { AreLivingMails world.old.events mails.old.items }
    ensures mails { OnOk result (AreLivingMails world.new.events mails.new.items) }
    ensures played { OnOk result ((d : Disk) (plan : Plan) (h : List Deed) → IsPlaying d world.old plan h
        → HasPlayedSilently d world.new (LineOf.Mail name.now message.now envelope.now) plan h) }
{
    mails.reserve(1)?;
    match world.start_mail(alloc, name, message.as_slice(), envelope.as_slice()) {
        Ok(()) => {
            mails.push(name.copy()).unwrap();
            Ok(())
        }
        Err(WorldError::Taken) => Ok(()),
        // out of memory, and no other
        Err(_) => Err(AllocError),
    }
}

/// Starts a generation.
fn add_generation(
    alloc: Global,
    world: &mut World<CrashDisk>,
    mails: &[ActorName],
) -> Result<(), Memory>
    requires { AreLivingMails world.old.events mails.now }
    ensures mails { OnOk result (AreLivingMails world.new.events mails.now) }
    ensures played { OnOk result ((d : Disk) (plan : Plan) (h : List Deed) → IsPlaying d world.old plan h
        → HasPlayedSilently d world.new (LineOf.Alone AloneOf.Sender) plan h) }
{
    match world.start_generation(alloc) {
        Ok(()) => Ok(()),
        // there is none before
        Err(_) => Err(AllocError),
    }
}

/// Plays `settle K` in a world whose threads have ended, and gives the sink what `work` prints: a line for each event of the whole
/// history, and what `show` prints. `Failed` only if the sink's count of failures rose; it has then taken a prefix of the text. `Memory`
/// also if the call of an event found no memory; then nothing was given.
pub(crate) fn end_work<O: Sink>(
    alloc: Global,
    world: &mut World<CrashDisk>,
    out: &mut O,
) -> Result<(), PlayError>
    ensures cause { IfErr result (λ why. why ≡ PlayError.Failed → Rose (O.faults out.old) (O.faults out.new)) }
    ensures unfailed { result ≢ Err PlayError.Failed → O.faults out.new ≡ O.faults out.old }
    ensures unwritten { result ≡ Err PlayError.Memory → out.new ≡ out.old }
    ensures ample { result ≢ Err PlayError.Memory → list_any lacked_memory world.old.events ≡ false }
    ensures printed { OnOk result (Meets (O.taken out.old) (O.taken out.new) (λ before after. (text : List ℕ) × (after ≡ before ++ text)
        × ((d : Disk) (plan : Plan) (h : List Deed) → IsPlaying d world.old plan h → HasSettled d h plan text))) }
    ensures begun { result ≡ Err PlayError.Failed → Meets (O.taken out.old) (O.taken out.new)
        (λ before after. (k : ℕ) × (text : List ℕ) × (after ≡ before ++ take k text)
        × ((d : Disk) (plan : Plan) (h : List Deed) → IsPlaying d world.old plan h → HasSettled d h plan text)) }
{
    let text = settled(alloc, world)?;
    give(out, &text)
}

/// Plays `settle K`, and gives what is printed.
fn settled(alloc: Global, world: &mut World<CrashDisk>) -> Result<Vec<u8>, Memory>
    ensures ample { OnOk result (list_any lacked_memory world.old.events ≡ false) }
    ensures settled { IfOk result (λ text. (d : Disk) (plan : Plan) (h : List Deed) → IsPlaying d world.old plan h
        → HasSettled d h plan text.items) }
{
    if any_lacked_memory(world.history()) {
        return Err(AllocError);
    }
    let mut dropped = Vec::new(alloc);
    settle(alloc, world, Letter::Success, &mut dropped)?;
    let mut text = Vec::new(alloc);
    put_events_after(alloc, &mut text, world.history().events(), 0)?;
    show(alloc, world, &mut text)?;
    Ok(text)
}

/// Whether an event of a history is a call that found no memory.
fn any_lacked_memory(history: &History) -> bool
    ensures { result ≡ list_any lacked_memory (events_of history.now) }
{
    history.events().iter().any(|event| lacked_memory(event))
}
