// What `show` and `cat` print.
ghost use Rattle.std.specs.Prelude.{◌≡◌, ◌++◌, List, ℕ, IfOk, OnOk, All, flat_map, map, reverse};
ghost use Rattle.std.specs.List.{zip};
ghost use Rattle.call_fs.specs.Disk.{Disk};
ghost use Rattle.mem_fs.specs.MemDisk.{bytes_at};
ghost use Rattle.crash_fs.specs.Crash.{crash_disk};
ghost use Rattle.scenario.specs.Deeds.{Deed, history_of, after};
ghost use Rattle.call_fs.specs.Plan.{Plan};
ghost use Rattle.scenario.specs.Playing.{IsPlaying};
ghost use Rattle.queue_law.specs.Books.{Books};
ghost use Rattle.world_events.specs.Programs.{injection_of};
ghost use Rattle.script_fates.specs.Fates.{AreFates, IsUsed};
ghost use Rattle.scenario.specs.inside.Fates.{given_to, received_by, receiver, receivers_in};
ghost use Rattle.scenario.specs.Shown.{IsShown, all_mail_lines, number_line};
ghost use Rattle.scenario.specs.Viewed.{view_at};
ghost use Rattle.scenario.specs.inside.Viewed.{IsOf, given_lines};
ghost use Rattle.scenario.specs.Played.{cat_line};

use crate::fates::fates_by;
use crate::overview::Overview;
use crash_fs::CrashDisk;
use mail_bytes::Memory;
use mail_world::{ActorName, Entry, Event, Program, World};
use queue_states::{put_count_line, put_state_line};
use script_disks::{names_of, numbers_of, state_on};
use script_fates::Fates;
use script_traces::put_escaped;
use std::alloc::Global;

/// Puts at the end of a text how many names `pid/` has, the state of each number that isn't in S1, and how each mail
/// fares. A recipient of an accepted mail is pending while todo holds the mail or its own record reads `T`, in the life of that mail;
/// else it was delivered, if a report said so; or it is noted, if the bounce file names it, in the life of that mail; or it was
/// bounced, or dropped if the mail is a double bounce. Where its record is, and its name in a note, go by the control files that the
/// sender had read which last gave the todo command in that life.
pub fn show(alloc: Global, world: &World<CrashDisk>, text: &mut Vec<u8>) -> Result<(), Memory>
    ensures { OnOk result ((own : List ℕ) × (text.new.items ≡ text.old.items ++ own)
        × ((d : Disk) (plan : Plan) (h : List Deed) → IsPlaying d world.now plan h → IsShown d (history_of h) own)) }
{
    let pids = names_of(alloc, world.disk().below(), b"pid")?;
    put_count_line(text, pids.len() as u64)?;
    let numbers = numbers_of(alloc, world.disk().below())?;
    put_states(text, world.disk(), &numbers)?;
    put_mails(alloc, world, text)
}

/// Puts how each mail fares at the end of a text.
fn put_mails(alloc: Global, world: &World<CrashDisk>, text: &mut Vec<u8>) -> Result<(), Memory>
    ensures { OnOk result ((own : List ℕ) × (text.new.items ≡ text.old.items ++ own)
        × ((d : Disk) (plan : Plan) (h : List Deed) → IsPlaying d world.now plan h → own ≡ all_mail_lines d (history_of h))) }
{
    let fates = fates_by(alloc, world.history().events())?;
    put_fated(alloc, &fates, world, text)
}

/// The same, by what its events say.
fn put_fated(
    alloc: Global,
    fates: &Fates,
    world: &World<CrashDisk>,
    text: &mut Vec<u8>,
) -> Result<(), Memory>
    ensures { OnOk result ((own : List ℕ) × (text.new.items ≡ text.old.items ++ own) × ((d : Disk) (plan : Plan) (h : List Deed)
        → IsPlaying d world.now plan h → AreFates fates.now (after d h).books → own ≡ all_mail_lines d (history_of h))) }
{
    let overview = Overview {
        disk: world.disk().below(),
        fates,
    };
    put_all(alloc, overview, world, text)
}

/// The same, by what is read of that world.
fn put_all(
    alloc: Global,
    overview: Overview<'_>,
    world: &World<CrashDisk>,
    text: &mut Vec<u8>,
) -> Result<(), Memory>
    ensures { OnOk result ((own : List ℕ) × (text.new.items ≡ text.old.items ++ own)
        × ((d : Disk) (plan : Plan) (h : List Deed) → IsPlaying d world.now plan h → IsOf overview.entry d (history_of h) → own ≡ all_mail_lines d (history_of h))) }
{
    let mut own = Vec::new(alloc);
    let given = given_by(alloc, world.history().events())?;
    put_each(alloc, overview, world.books().entries(), &given, &mut own)?;
    text.extend_from_slice(&own)
}

/// Puts how each mail of these entries fares at the end of a text. Each was given the envelope at its place.
fn put_each(
    alloc: Global,
    overview: Overview<'_>,
    entries: &[Entry],
    given: &[Given<'_>],
    text: &mut Vec<u8>,
) -> Result<(), Memory>
    ensures { (books : Books) → AreFates overview.entry.fates.now books → All (λ e. IsUsed e.number) entries.now → OnOk result (text.new.items ≡ text.old.items
        ++ flat_map (given_lines (view_at overview.entry books)) (zip entries.now given.now)) }
{
    for (entry, one) in entries.iter().zip(given) {
        overview.put_mail(alloc, text, entry, one.envelope)?;
    }
    Ok(())
}

/// An injector, whether it is a child, and the envelope that it was given.
#[derive(Clone, Copy)]
pub(crate) struct Given<'a> {
    /// Its name.
    pub(crate) actor: &'a ActorName,
    /// Whether it is a child.
    pub(crate) is_child: bool,
    /// The envelope.
    pub(crate) envelope: &'a [u8],
}

/// The injectors that these events started, in order, with the envelopes that they were given: a child after its start.
pub(crate) fn given_by<'a>(alloc: Global, events: &'a [Event]) -> Result<Vec<Given<'a>>, Memory>
    ensures { IfOk result (λ given. reverse (map receiver given.items) ≡ receivers_in (reverse events.now)) }
{
    let mut given = Vec::new(alloc);
    for event in events {
        match event {
            Event::Start { actor, program } => begin(&mut given, actor, false, program.get())?,
            Event::Child { child, program, .. } => begin(&mut given, child, true, program.get())?,
            Event::Feed {
                child,
                envelope,
                ..
            } => give(&mut given, child, envelope.as_slice()),
            _ => {}
        }
    }
    Ok(given)
}

/// One injector more, if this program is one.
fn begin<'a>(
    given: &mut Vec<Given<'a>>,
    actor: &'a ActorName,
    is_child: bool,
    program: &'a Program,
) -> Result<(), Memory>
    ensures { OnOk result (reverse (map receiver given.new.items)
        ≡ received_by actor.now is_child (injection_of program.now) ++ reverse (map receiver given.old.items)) }
{
    let Some(arguments) = program.injection() else {
        return Ok(());
    };
    given.push(Given {
        actor,
        is_child,
        envelope: arguments.envelope.as_slice(),
    })?;
    Ok(())
}

/// The newest child of this name is given its envelope.
fn give<'a>(given: &mut [Given<'a>], child: &ActorName, envelope: &'a [u8])
    ensures { reverse (map receiver given.new) ≡ given_to child.now envelope.now (reverse (map receiver given.old)) }
{
    for place in (0..given.len()).rev() {
        if given[place].is_child && given[place].actor.as_slice() == child.as_slice() {
            given[place].envelope = envelope;
            return;
        }
    }
}

/// Puts the bytes of the file of a name, or that there is none, at the end of a text.
pub fn cat(alloc: Global, disk: &CrashDisk, path: &[u8], text: &mut Vec<u8>) -> Result<(), Memory>
    ensures { OnOk result (text.new.items ≡ text.old.items
        ++ cat_line path.now (bytes_at (crash_disk disk.now) path.now)) }
{
    put_escaped(alloc, text, path)?;
    let Some(bytes) = disk.bytes_of(path) else {
        return text.extend_from_slice(b" none\n");
    };
    text.extend_from_slice(b" : ")?;
    put_escaped(alloc, text, bytes)?;
    text.push(b'\n')?;
    Ok(())
}

/// Puts the line of each of these numbers at the end of a text.
fn put_states(text: &mut Vec<u8>, disk: &CrashDisk, numbers: &[u64]) -> Result<(), Memory>
    ensures { OnOk result (text.new.items ≡ text.old.items ++ flat_map (number_line (crash_disk disk.now)) numbers.now) }
{
    for number in numbers {
        put_state_line(text, *number, state_on(disk.below(), *number))?;
    }
    Ok(())
}
