// Steps and runs of actors.
ghost use Rattle.std.specs.Prelude.{◌≡◌, ◌≢◌, ◌++◌, ◌∷◌, [], List, IfOk, IfErr};
ghost use Rattle.call_fs.specs.Disk.{Disk};
ghost use Rattle.call_fs.specs.Plan.{Plan};
ghost use Rattle.world_events.specs.declared.event.Event.{Event as Kept};
ghost use Rattle.scenario.specs.Deeds.{Deed};
ghost use Rattle.mail_world.specs.Kept.{events_of};
ghost use Rattle.scenario.specs.inside.Playing.{IsPlaying, HasStepped, HasRun, IsRefusedAs, is_memory_of, is_waiting, lacked_memory, stepped_by};

use crate::refusing::{put_refusal, refuse};
use call_fs::{Answer, FsError, GotData};
use crash_fs::CrashDisk;
use mail_bytes::Memory;
use mail_world::{ActorName, Did, Event, History, World, WorldError};
use std::alloc::Global;

/// The most steps of one run.
const MOST_STEPS: u32 = 1_000_000;

/// What a step left of its actor.
#[derive(Clone, Copy)]
pub enum AfterStep {
    /// It goes on.
    On,
    /// An idle turn of it has just ended.
    Idle,
    /// It has ended.
    Over,
}

/// What a step that did this left.
fn left_by(did: Did) -> AfterStep
    ensures { result ≡ stepped_by did.ended did.idle }
{
    match (did.ended, did.idle) {
        (Some(_), _) => AfterStep::Over,
        (None, true) => AfterStep::Idle,
        (None, false) => AfterStep::On,
    }
}

/// One step of an actor. `Memory` also if its call found no memory: then the play is over, since a script plays on ample
/// memory.
pub fn step(
    alloc: Global,
    world: &mut World<CrashDisk>,
    actor: &ActorName,
) -> Result<AfterStep, WorldError>
    ensures ok { IfOk result (λ how. (d : Disk) (plan : Plan) (h : List Deed) → IsPlaying d world.old plan h
        → HasStepped d world.new actor.now how plan h) }
    ensures err { IfErr result (λ why. (d : Disk) (plan : Plan) (h : List Deed) → IsPlaying d world.old plan h
        → IsRefusedAs why d plan actor.now h) }
    ensures same { IfErr result (λ why. why ≢ WorldError.Memory → world.new ≡ world.old) }
{
    let did = world.step(alloc, actor)?;
    if newest_lacked_memory(world.history()) {
        return Err(WorldError::Memory);
    }
    Ok(left_by(did))
}

/// Whether the newest event is a call that found no memory.
fn newest_lacked_memory(history: &History) -> bool
    ensures { (before : List Kept) (newest : Kept) → events_of history.now ≡ before ++ newest ∷ []
        → result ≡ lacked_memory newest }
{
    match history.events().last() {
        Some(event) => lacked_memory(event),
        None => false,
    }
}

/// Whether an event is a call that found no memory.
pub fn lacked_memory(event: &Event) -> bool
    ensures { result ≡ lacked_memory event.now }
{
    match event {
        Event::Act { own, .. } => is_memory(&own.came),
        Event::Child { own, .. } | Event::Feed { own, .. } => is_memory(&own.get().came),
        _ => false,
    }
}

/// Whether what came of an event is that there was no memory for its call.
fn is_memory(came: &GotData) -> bool
    ensures { result ≡ is_memory_of came.now }
{
    match came {
        GotData::Answered(told) => matches!(told.answer.copy(), Answer::Refused(FsError::Memory)),
        _ => false,
    }
}

/// Whether the world refused since the actor waits.
fn is_waiting(why: &WorldError) -> bool
    ensures { result ≡ is_waiting why.now }
{
    matches!(why, WorldError::NotWaiting(_))
}

/// Makes steps of an actor until it ends or waits, or until an idle turn of it has just ended, and puts the line of a refusal at the end
/// of a text. Tells whether it stopped with an idle turn.
pub fn run(
    alloc: Global,
    world: &mut World<CrashDisk>,
    actor: &ActorName,
    text: &mut Vec<u8>,
) -> Result<bool, Memory>
    ensures { IfOk result (λ idle. (d : Disk) (plan : Plan) (h : List Deed) → IsPlaying d world.old plan h
        → HasRun d world.new actor.now idle text.old.items text.new.items plan h) }
{
    for _ in 0..MOST_STEPS {
        match step(alloc, world, actor) {
            Ok(AfterStep::On) => {}
            Ok(AfterStep::Idle) => return Ok(true),
            Ok(AfterStep::Over) => return Ok(false),
            Err(why) => {
                if is_waiting(&why) {
                    return Ok(false);
                }
                refuse(text, why, actor)?;
                return Ok(false);
            }
        }
    }
    put_refusal(text, b"steps", actor.as_slice())?;
    Ok(false)
}
