// Turns, and the rounds of `settle`.
ghost use Rattle.std.specs.Prelude.{◌≡◌, ◌≤◌, ◌+◌, ◌*◌, List, drop, IfOk, OnOk};
ghost use Rattle.std.specs.List.{sum_by};
ghost use Rattle.call_fs.specs.Disk.{Disk};
ghost use Rattle.call_fs.specs.Plan.{Plan};
ghost use Rattle.mail_world.specs.Generations.{next_living};
ghost use Rattle.scenario.specs.Deeds.{Deed};
ghost use Rattle.script_lines.specs.declared.line.Line.TheVariants as LineOf;
ghost use Rattle.script_lines.specs.declared.keyword.Alone.TheVariants as AloneOf;
ghost use Rattle.script_lines.specs.declared.keyword.OfLetter.TheVariants as OfLetterOf;
ghost use Rattle.scenario.specs.inside.Playing.{IsPlaying, HasPlayed, HasTurned, HasParted, HasRounded, HasReported, NonePassed, are_searches_kept};
ghost use Rattle.scenario.specs.Turns.{counted, NoneBetween};

use crate::refusing::put_refusal;
use crate::stepping::run;
use actor_names::Member;
use crash_fs::CrashDisk;
use mail_bytes::Memory;
use mail_world::{ActorName, Entry, Event, World};
use script_words::Letter;
use std::alloc::{AllocError, Global};
use world_events::{is_first, is_search};

/// How many rounds `settle` makes at least, and how many more for each mail that was accepted and for each of its recipients.
const FIRST_ROUNDS: u64 = 100;

const MORE_ROUNDS: u64 = 40;

/// Plays a turn: each living actor runs once, in order of start.
pub fn play_turn(
    alloc: Global,
    world: &mut World<CrashDisk>,
    text: &mut Vec<u8>,
) -> Result<(), Memory>
    ensures { OnOk result ((d : Disk) (plan : Plan) (h : List Deed) → IsPlaying d world.old plan h
        → HasPlayed d world.new (LineOf.Alone AloneOf.Turn) text.old.items text.new.items plan h) }
{
    turn(alloc, world, 0, &mut 0, text)?;
    Ok(())
}

/// Where the first living actor from this place on in the order of starts started; the place itself if none did.
fn first_place(world: &World<CrashDisk>, from: u64) -> u64
    ensures none { (d : Disk) (plan : Plan) (h : List Deed) → IsPlaying d world.now plan h → NoneBetween d h from result }
    ensures rises { from ≤ result }
{
    match world.next_living(from) {
        Some((_, place)) => place,
        None => from,
    }
}

/// Each living actor runs once, in order of start, until one has made the most steps. None of them started before that first place, or
/// after the generation there and before that later place, which the turn moves on. Tells whether the newest event of the turn ended an
/// idle turn of a sender.
fn turn(
    alloc: Global,
    world: &mut World<CrashDisk>,
    first: u64,
    later: &mut u64,
    text: &mut Vec<u8>,
) -> Result<bool, Memory>
    ensures { IfOk result (λ idle. (d : Disk) (plan : Plan) (h : List Deed) → IsPlaying d world.old plan h → NonePassed d h first later.old
        → HasTurned d world.new first later.new idle text.old.items text.new.items plan h) }
{
    let start = text.len();
    let mut idle = false;
    let mut from = first;
    loop {
        let Some((actor, place)) = next_actor(world, from) else {
            return Ok(idle);
        };
        idle = run_part(alloc, world, &actor, idle, text)?;
        if text.len() > start {
            return Ok(idle);
        }
        let next = place.checked_add(1).ok_or(AllocError)?;
        from = past(world, first, later, next);
    }
}

/// The place to go on from: this one; if it is where the generation's last actor has just run, that later place, which first moves on to the
/// next living actor.
fn past(world: &World<CrashDisk>, first: u64, later: &mut u64, next: u64) -> u64
    ensures none { (d : Disk) (plan : Plan) (h : List Deed) → IsPlaying d world.now plan h → NonePassed d h first later.old
        → NonePassed d h first later.new × NoneBetween d h next result }
    ensures rises { next ≤ result }
{
    if next.saturating_sub(first) != Member::COUNT as u64 {
        return next;
    }
    *later = first_place(world, next.max(*later));
    *later
}

/// The next living actor in order of start, from a place on, and its place.
fn next_actor(world: &World<CrashDisk>, from: u64) -> Option<(ActorName, u64)>
    ensures { result ≡ next_living from world.now.events }
{
    let (actor, place) = world.next_living(from)?;
    Some((actor.copy(), place))
}

/// Runs an actor in a turn. Tells whether the newest event of the turn ended an idle turn of a sender, if before it so was told.
fn run_part(
    alloc: Global,
    world: &mut World<CrashDisk>,
    actor: &ActorName,
    idle: bool,
    text: &mut Vec<u8>,
) -> Result<bool, Memory>
    ensures { IfOk result (λ now. (d : Disk) (plan : Plan) (h : List Deed) → IsPlaying d world.old plan h
        → HasParted d world.new actor.now idle now text.old.items text.new.items plan h) }
{
    let before = world.history().len();
    let ran = run(alloc, world, actor, text)?;
    if world.history().len() == before {
        return Ok(idle);
    }
    Ok(ran)
}

/// Plays `settle`: rounds of a turn and of reports with this letter, until one makes only an idle turn of the sender.
pub fn settle(
    alloc: Global,
    world: &mut World<CrashDisk>,
    letter: Letter,
    text: &mut Vec<u8>,
) -> Result<(), Memory>
    ensures { OnOk result ((d : Disk) (plan : Plan) (h : List Deed) → IsPlaying d world.old plan h
        → HasPlayed d world.new (LineOf.Letter OfLetterOf.Settle letter) text.old.items text.new.items plan h) }
{
    let mut first = 0;
    let mut later = 0;
    for _ in 0..most_rounds(world.books().entries())? {
        first = first_place(world, first);
        if round(alloc, world, first, &mut later, letter, text)? {
            return Ok(());
        }
    }
    put_refusal(text, b"rounds", b"settle")
}

/// The most rounds, by what the books have at the beginning.
fn most_rounds(entries: &[Entry]) -> Result<u64, Memory>
    ensures { IfOk result (λ most. most ≡ 100 + 40 * sum_by counted entries.now) }
{
    let mut count: u64 = 0;
    for entry in entries {
        count = with_entry(count, entry)?;
    }
    let more = count.checked_mul(MORE_ROUNDS).ok_or(AllocError)?;
    more.checked_add(FIRST_ROUNDS).ok_or(AllocError)
}

/// A count of mails and recipients with those of one more mail, if it was accepted.
fn with_entry(count: u64, entry: &Entry) -> Result<u64, Memory>
    ensures { IfOk result (λ more. more ≡ count + counted entry.now) }
{
    if !entry.accepted {
        return Ok(count);
    }
    let more = entry.recipients.checked_add(1).ok_or(AllocError)?;
    count.checked_add(more).ok_or(AllocError)
}

/// One round: a turn, which passes over the actors that started before that first place, and those after the generation there and before
/// that later place, and then a report for each program of the remote spawner that has none. Tells whether it is the last one: something
/// was printed, or nothing happened but an idle turn of the sender, which searched all of `todo/` in it.
fn round(
    alloc: Global,
    world: &mut World<CrashDisk>,
    first: u64,
    later: &mut u64,
    letter: Letter,
    text: &mut Vec<u8>,
) -> Result<bool, Memory>
    ensures { IfOk result (λ last. (d : Disk) (plan : Plan) (h : List Deed) → IsPlaying d world.old plan h → NonePassed d h first later.old
        → HasRounded d world.new first later.new letter last text.old.items text.new.items plan h) }
{
    let start = text.len();
    let before = world.history().len();
    let idle = turn(alloc, world, first, later, text)?;
    if text.len() > start {
        return Ok(true);
    }
    report_all(alloc, world, letter)?;
    Ok(idle && only_searches(world, before))
}

/// Whether all events after the first so many are searches of the sender, of one turn that searched all of `todo/` in them.
fn only_searches(world: &World<CrashDisk>, before: usize) -> bool
    ensures { result ≡ are_searches_kept (drop before world.now.events) }
{
    match world.history().events().get(before..) {
        Some(events) => are_searches(events),
        None => false,
    }
}

/// Whether these are searches of the sender for a message to preprocess, just one of which begins at the start: so all of `todo/` was searched
/// in them, and by one turn.
fn are_searches(events: &[Event]) -> bool
    ensures { result ≡ are_searches_kept events.now }
{
    events.iter().all(|event| is_search(event))
        && events.iter().filter(|event| is_first(event)).count() == 1
}

/// Reports for each program of the living remote spawner that has no report, in order of its slot.
fn report_all(alloc: Global, world: &mut World<CrashDisk>, letter: Letter) -> Result<(), Memory>
    ensures { OnOk result ((d : Disk) (plan : Plan) (h : List Deed) → IsPlaying d world.old plan h
        → HasReported d world.new letter plan h) }
{
    let mut from: u8 = 0;
    loop {
        let Some(slot) = world.unreported(from) else {
            return Ok(());
        };
        let told = world.report(alloc, slot, letter.byte(), b"settled");
        if told.is_err() {
            return Err(AllocError);
        }
        match slot.checked_add(1) {
            Some(next) => from = next,
            None => return Ok(()),
        }
    }
}
