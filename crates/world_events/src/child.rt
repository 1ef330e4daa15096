// The children that actors start.
ghost use Rattle.std.specs.Prelude.{◌≡◌, ◌<◌, ◌-◌, ◌^◌, Some, IfOk, OnOk, vec_len, vec_capacity};
ghost use Rattle.world_events.specs.Books.{entries_of, HasPlace};
ghost use Rattle.world_events.specs.Children.{Counts, IsActor, child_of, counted, counts_with};
ghost use Rattle.world_events.specs.Starts.{IsSameOrder, HasRoomFor};
ghost use Rattle.world_events.specs.declared.event.Event.TheVariants as kept;

use crate::mail::unfed;
use crate::{Books, Event, Program, Starts};
use actor_names::{ActorName, bounce_name, delivery_name, forward_of};
use call_fs::{ChildData, Own};
use local_parts::LocalArgs;
use mail_bytes::{Memory, OnHeap};
use received_line::Invoked;
use std::alloc::Global;
use world_pipes::Mouths;

/// A child that is to start.
#[derive(Drop)]
pub struct Born {
    /// Its name.
    pub name: ActorName,
    /// Its program.
    pub program: OnHeap<Program>,
}

/// The counts of bounces and deliveries after this start, from those before it. The condition: a u64 counts them.
pub fn counts_with(bounces: u64, deliveries: u64, asked: &ChildData) -> (u64, u64)
    requires bounces { bounces < 2 ^ 64 - 1 }
    requires deliveries { deliveries < 2 ^ 64 - 1 }
    ensures { counted result.0 result.1 ≡ counts_with (counted bounces deliveries) asked.now }
{
    match asked {
        ChildData::Bounce { .. } => (bounces + 1, deliveries),
        ChildData::Local { .. } => (bounces, deliveries + 1),
        ChildData::Forward { .. } | ChildData::Remote { .. } => (bounces, deliveries),
    }
}

/// The child that this actor starts, with this process number, at this moment, if there are so many bounces and deliveries with it. The
/// condition: it is an actor. The error: out of memory.
pub fn child_of(
    alloc: Global,
    parent: &ActorName,
    asked: &ChildData,
    counts: (u64, u64),
    pid: u32,
    start: u64,
) -> Result<Born, Memory>
    requires { IsActor asked.now }
    ensures { IfOk result (λ born. (before : Counts) → counted counts.0 counts.1 ≡ counts_with before asked.now
        → child_of before parent.now asked.now pid start ≡ Some (born.name, born.program)) }
{
    match asked {
        ChildData::Bounce { .. } => {
            let program = Program::Injector(unfed(alloc, 0, Invoked::Bounce, pid, start));
            Ok(Born {
                name: bounce_name(counts.0),
                program: OnHeap::new(alloc, program)?,
            })
        }
        ChildData::Forward { uid, .. } => {
            let program = Program::Injector(unfed(alloc, *uid, Invoked::Uid(*uid), pid, start));
            Ok(Born {
                name: forward_of(parent),
                program: OnHeap::new(alloc, program)?,
            })
        }
        ChildData::Local { words, uid, .. } => {
            let args = LocalArgs::of(alloc, words, *uid, pid)?;
            let program = Program::Delivery { start, args };
            Ok(Born {
                name: delivery_name(counts.1),
                program: OnHeap::new(alloc, program)?,
            })
        }
        ChildData::Remote { .. } => unreachable!(),
    }
}

/// The event that an actor started this child.
pub fn child_event(actor: &ActorName, own: OnHeap<Own>, born: Born) -> Event
    ensures { result ≡ kept.Child actor.now own born.name born.program }
{
    Event::Child {
        actor: actor.copy(),
        own,
        child: born.name,
        program: born.program,
    }
}

/// Makes room for one actor more, for its pipes, for its entry and for its start.
pub fn room_for_one<A>(
    actors: &mut Vec<A>,
    mouths: &mut Vec<Mouths>,
    books: &mut Books,
    starts: &mut Starts,
) -> Result<(), Memory>
    ensures pipes { mouths.new.items ≡ mouths.old.items }
    ensures one { OnOk result (vec_len mouths.new < vec_capacity mouths.new) }
    ensures actors { actors.new.items ≡ actors.old.items }
    ensures books { entries_of books.new ≡ entries_of books.old }
    ensures starts { IsSameOrder starts.old starts.new }
    ensures room { OnOk result (vec_len actors.new < vec_capacity actors.new) }
    ensures entry { OnOk result (HasPlace books.new) }
    ensures start { OnOk result (HasRoomFor starts.new 1) }
{
    actors.reserve(1)?;
    mouths.reserve(1)?;
    books.make_room()?;
    starts.make_room(1)
}
