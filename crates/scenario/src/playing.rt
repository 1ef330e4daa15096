// Playing a script.
ghost use Rattle.std.specs.Prelude.{◌≡◌, ◌≢◌, ◌++◌, [], List, ℕ, take, IsOk, IfOk, IfErr, OnOk, OnErr, Err};
ghost use Rattle.call_fs.specs.Disk.{Disk};
ghost use Rattle.call_fs.specs.Plan.{Plan};
ghost use Rattle.mail_bytes.specs.Told.{Rose, Meets};
ghost use Rattle.scenario.specs.Deeds.{Deed};
ghost use Rattle.script_lines.specs.declared.line.Line.TheVariants as LineOf;
ghost use Rattle.script_lines.specs.declared.keyword.OfActor.TheVariants as OfActorOf;
ghost use Rattle.script_lines.specs.declared.keyword.OfCount.TheVariants as OfCountOf;
ghost use Rattle.script_lines.specs.declared.keyword.OfMoment.TheVariants as OfMomentOf;
ghost use Rattle.script_lines.specs.declared.keyword.OfSurvival.TheVariants as OfSurvivalOf;
ghost use Rattle.scenario.specs.inside.Playing.{IsPlaying, HasPlayed, HasPrinted};
ghost use Rattle.scenario.specs.Text.{HaveFewDeeds, IsPlayed, IsBegun};

use crate::generating::{begin, report};
use crate::opening_disk::first_disk;
use crate::refusing::{refuse, refuse_number};
use crate::showing::{cat, show};
use crate::stepping::{run, step};
use crate::summing::sum;
use crate::tracing::{put_events_after, traced_after};
use crate::turning::{play_turn, settle};
use crate::{PlayError, Script};
use call_fs::{Survival, Taken};
use crash_fs::CrashDisk;
use mail_bytes::{ByteText, Memory};
use mail_world::{ActorName, World, WorldError};
use outside::{Gave, Sink};
use script_lines::{Alone, Line, OfActor, OfCount, OfLetter, OfMoment, OfSurvival, OfWord};
use script_words::{Count, Moment};
use std::alloc::{AllocError, Global};

/// With so many events a play is out of memory: none holds them. So it ends with fewer, and each file that it made has a number below 2^64.
const TOO_MANY: usize = 0x8000_0000_0000_0000;

/// Plays a script over a new disk in memory that holds its entries, and gives the sink what its lines print, one line
/// after the other; a line that prints nothing gives it nothing. `Failed` only if the sink's count of failures rose; it
/// has then taken a prefix of the text. After `Memory` it hasn't failed, and has taken a prefix of the text.
pub fn play<O: Sink>(alloc: Global, script: Script, out: &mut O) -> Result<(), PlayError>
    ensures cause { IfErr result (λ why. why ≡ PlayError.Failed → Rose (O.faults out.old) (O.faults out.new)) }
    ensures unfailed { result ≢ Err PlayError.Failed → O.faults out.new ≡ O.faults out.old }
    ensures silent { OnOk result ((text : List ℕ) × IsPlayed script.opening script.lines text × (text ≡ [] → out.new ≡ out.old)) }
    ensures played { OnOk result (Meets (O.taken out.old) (O.taken out.new) (λ before after. (text : List ℕ) × IsPlayed script.opening script.lines text × (after ≡ before ++ text))) }
    ensures begun { OnErr result (Meets (O.taken out.old) (O.taken out.new) (λ before after. (text : List ℕ) × IsBegun script.opening script.lines text × (after ≡ before ++ text))) }
    ensures few { OnOk result (HaveFewDeeds script.opening script.lines) }
{
    let mut world = World::new(alloc, first_disk(alloc, script.opening())?)?;
    let mut traced = false;
    for line in script.lines() {
        let text = printed(alloc, &mut world, traced, line)?;
        give(out, &text)?;
        traced = traced_after(traced, line);
    }
    if world.history().len() >= TOO_MANY {
        return Err(PlayError::Memory);
    }
    Ok(())
}

/// Gives the sink what a line prints, if that is anything. No memory is taken, so that only the sink can fail.
pub fn give<O: Sink>(out: &mut O, text: &[u8]) -> Result<(), PlayError>
    ensures ok { OnOk result (Meets (O.taken out.old) (O.taken out.new) (λ before after. after ≡ before ++ text.now)) }
    ensures err { OnErr result (Meets (O.taken out.old) (O.taken out.new)
        (λ before after. (k : ℕ) × (after ≡ before ++ take k text.now))) }
    ensures failed { IfErr result (λ why. (why ≡ PlayError.Failed) × Rose (O.faults out.old) (O.faults out.new)) }
    ensures unfailed { OnOk result (O.faults out.new ≡ O.faults out.old) }
    ensures nothing { text.now ≡ [] → OnOk result (out.new ≡ out.old) × IsOk result }
{
    if !text.is_empty() && out.give(text) == Gave::Failed {
        return Err(PlayError::Failed);
    }
    Ok(())
}

/// Plays one line, and gives what is printed of it: if events are traced, those that it added; then its own text.
fn printed(
    alloc: Global,
    world: &mut World<CrashDisk>,
    traced: bool,
    line: &Line,
) -> Result<Vec<u8>, Memory>
    ensures { IfOk result (λ text. (d : Disk) (plan : Plan) (h : List Deed) → IsPlaying d world.old plan h
        → HasPrinted d world.new traced line.now text.items plan h) }
{
    let before = world.history().len();
    let mut own = Vec::new(alloc);
    play_line(alloc, world, line, &mut own)?;
    if !traced {
        return Ok(own);
    }
    let mut text = Vec::new(alloc);
    put_events_after(alloc, &mut text, world.history().events(), before)?;
    text.extend_from_slice(&own)?;
    Ok(text)
}

/// Plays one line, and puts what it prints at the end of a text.
fn play_line(
    alloc: Global,
    world: &mut World<CrashDisk>,
    line: &Line,
    text: &mut Vec<u8>,
) -> Result<(), Memory>
    ensures { OnOk result ((d : Disk) (plan : Plan) (h : List Deed) → IsPlaying d world.old plan h
        → HasPlayed d world.new line.now text.old.items text.new.items plan h) }
{
    match line {
        Line::Mail {
            name,
            message,
            envelope,
        } => start(alloc, world, name, message, envelope, text),
        Line::Alone(word) => play_alone(alloc, world, *word, text),
        Line::Actor(OfActor::Step, actor) => step_once(alloc, world, actor, text),
        Line::Actor(OfActor::Run, actor) => run_once(alloc, world, actor, text),
        Line::Actor(OfActor::Stop, actor) => stop(world, actor, text),
        Line::Count(OfCount::Fault, k) => {
            fail_in(world, *k);
            Ok(())
        }
        Line::Count(OfCount::Number, number) => pick(world, *number, text),
        Line::Moment(OfMoment::Moment, moment) => set_moment(world, *moment, text),
        Line::Survival(OfSurvival::Halt, how) => halt(alloc, world, *how),
        Line::Word(OfWord::Cat, path) => cat(alloc, world.disk(), path.as_slice(), text),
        Line::Letter(OfLetter::Settle, letter) => settle(alloc, world, *letter, text),
        Line::Report {
            slot,
            letter,
            text: told,
        } => report(alloc, world, *slot, *letter, told, text),
    }
}

/// Plays a line of one word, and puts what it prints at the end of a text.
fn play_alone(
    alloc: Global,
    world: &mut World<CrashDisk>,
    word: Alone,
    text: &mut Vec<u8>,
) -> Result<(), Memory>
    ensures { OnOk result ((d : Disk) (plan : Plan) (h : List Deed) → IsPlaying d world.old plan h
        → HasPlayed d world.new (LineOf.Alone word) text.old.items text.new.items plan h) }
{
    match word {
        Alone::Trace => Ok(()),
        Alone::Show => show(alloc, world, text),
        Alone::Sum => sum(alloc, world, text),
        Alone::Sender => begin(alloc, world, text),
        Alone::Turn => play_turn(alloc, world, text),
    }
}

/// Starts a mail, or puts the line of its refusal at the end of a text.
fn start(
    alloc: Global,
    world: &mut World<CrashDisk>,
    name: &ActorName,
    message: &ByteText,
    envelope: &ByteText,
    text: &mut Vec<u8>,
) -> Result<(), Memory>
    ensures { OnOk result ((d : Disk) (plan : Plan) (h : List Deed) → IsPlaying d world.old plan h
        → HasPlayed d world.new (LineOf.Mail name.now message.now envelope.now) text.old.items text.new.items plan h) }
{
    match world.start_mail(alloc, name, message.as_slice(), envelope.as_slice()) {
        Ok(()) => Ok(()),
        Err(why) => refuse(text, why, name),
    }
}

/// Makes one step of an actor, or puts the line of its refusal at the end of a text.
fn step_once(
    alloc: Global,
    world: &mut World<CrashDisk>,
    actor: &ActorName,
    text: &mut Vec<u8>,
) -> Result<(), Memory>
    ensures { OnOk result ((d : Disk) (plan : Plan) (h : List Deed) → IsPlaying d world.old plan h
        → HasPlayed d world.new (LineOf.Actor OfActorOf.Step actor.now) text.old.items text.new.items plan h) }
{
    match step(alloc, world, actor) {
        Ok(_) => Ok(()),
        Err(why) => refuse(text, why, actor),
    }
}

/// Runs an actor, and puts what that prints at the end of a text.
fn run_once(
    alloc: Global,
    world: &mut World<CrashDisk>,
    actor: &ActorName,
    text: &mut Vec<u8>,
) -> Result<(), Memory>
    ensures { OnOk result ((d : Disk) (plan : Plan) (h : List Deed) → IsPlaying d world.old plan h
        → HasPlayed d world.new (LineOf.Actor OfActorOf.Run actor.now) text.old.items text.new.items plan h) }
{
    run(alloc, world, actor, text)?;
    Ok(())
}

/// Stops an actor, or puts the line of its refusal at the end of a text.
fn stop(world: &mut World<CrashDisk>, actor: &ActorName, text: &mut Vec<u8>) -> Result<(), Memory>
    ensures { OnOk result ((d : Disk) (plan : Plan) (h : List Deed) → IsPlaying d world.old plan h
        → HasPlayed d world.new (LineOf.Actor OfActorOf.Stop actor.now) text.old.items text.new.items plan h) }
{
    match world.stop(actor) {
        Ok(()) => Ok(()),
        Err(why) => refuse(text, why, actor),
    }
}

/// The machine stops. Nothing is printed.
fn halt(alloc: Global, world: &mut World<CrashDisk>, how: Survival) -> Result<(), Memory>
    ensures { OnOk result ((d : Disk) (plan : Plan) (h : List Deed) (text : List ℕ) → IsPlaying d world.old plan h
        → HasPlayed d world.new (LineOf.Survival OfSurvivalOf.Halt how) text text plan h) }
{
    world.halt(alloc, how)?;
    Ok(())
}

/// The call of this place from now on fails. Nothing is printed.
fn fail_in(world: &mut World<CrashDisk>, k: Count)
    ensures { (d : Disk) (plan : Plan) (h : List Deed) (text : List ℕ) → IsPlaying d world.old plan h
        → HasPlayed d world.new (LineOf.Count OfCountOf.Fault k) text text plan h }
{
    world.fault_in(k.number());
}

/// Picks the number of the next new file, or puts the line of its refusal at the end of a text.
fn pick(world: &mut World<CrashDisk>, number: Count, text: &mut Vec<u8>) -> Result<(), Memory>
    ensures { OnOk result ((d : Disk) (plan : Plan) (h : List Deed) → IsPlaying d world.old plan h
        → HasPlayed d world.new (LineOf.Count OfCountOf.Number number) text.old.items text.new.items plan h) }
{
    match world.pick(number.number()) {
        Ok(()) => Ok(()),
        Err(Taken) => refuse_number(text, b"taken", number.number()),
    }
}

/// Sets the moment, or puts the line of its refusal at the end of a text.
fn set_moment(
    world: &mut World<CrashDisk>,
    moment: Moment,
    text: &mut Vec<u8>,
) -> Result<(), Memory>
    ensures { OnOk result ((d : Disk) (plan : Plan) (h : List Deed) → IsPlaying d world.old plan h
        → HasPlayed d world.new (LineOf.Moment OfMomentOf.Moment moment) text.old.items text.new.items plan h) }
{
    match world.moment(moment.seconds()) {
        Ok(()) => Ok(()),
        Err(WorldError::Past(present)) => refuse_number(text, b"past", present),
        // out of memory, and no other
        Err(_) => Err(AllocError),
    }
}
