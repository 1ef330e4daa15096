// Where actors have their pipes, what each finds ready by them, and what of a child is due to one.
ghost use Rattle.std.specs.Prelude.{◌≡◌, ◌⊎◌, ◌≤◌, ◌<◌, ℕ, [], Some, IfOk, IsSome, length, vec_len, vec_capacity};
ghost use Rattle.actor_names.specs.MailNames.{members};
ghost use Rattle.call_fs.specs.Program.{due_of};
ghost use Rattle.world_pipes.specs.Pipework.{slot_of};
ghost use Rattle.world_pipes.specs.Wired.{HaveSlots, seat};
ghost use Rattle.world_pipes.specs.Seating.{AreFresh, AreRenewed, HasPipesFor, HasPlaceAfter, due_slot, IsFoundAt, input_of, only_child, has_actor, is_due_of_child};
ghost use Rattle.world_pipes.specs.Mouths.{ended_of};

use crate::Mouths;
use actor_names::Member;
use call_fs::{Child, ChildData, INPUT_READY, Need, NeedData, Port, Ready};
use mail_bytes::Memory;
use std::alloc::Global;

/// How many numbers a slot has.
const SLOTS: u16 = 256;

/// Nothing is ready.
const NOT_READY: Ready = Ready {
    links: [false; 4],
    child: None,
};

/// The seat of a member of a generation, by its name.
pub fn seat(name: &[u8]) -> Option<usize>
    ensures { result ≡ seat name.now }
{
    let member = Member::of(name)?;
    Some(member.seat())
}

/// The pipes of the members of a new generation: nothing lies in them.
fn pipes(alloc: Global) -> Result<Vec<Mouths>, Memory>
    ensures { IfOk result (λ mouths. AreFresh mouths.items) }
{
    let mut mouths = Vec::with_capacity(alloc, Member::COUNT)?;
    for _ in 0..Member::COUNT {
        mouths.push(Mouths::new(alloc, SLOTS)?)?;
    }
    Ok(mouths)
}

/// New pipes for the members of a generation, if nobody has any; if somebody has, none, since the members' serve again.
pub fn pipes_for(alloc: Global, mouths: &[Mouths]) -> Result<Vec<Mouths>, Memory>
    ensures fresh { IfOk result (λ fresh. length mouths.now ≡ 0 → AreFresh fresh.items) }
    ensures none { IfOk result (λ fresh. (length mouths.now ≡ 0 → ⊥) → fresh.items ≡ []) }
{
    if mouths.is_empty() {
        pipes(alloc)
    } else {
        Ok(Vec::new(alloc))
    }
}

/// A generation starts: nothing lies in the pipes of its members, which are these new ones, if nobody had any; and whoever else has some
/// keeps them. Takes no memory. The conditions: the members had pipes, or nobody had any, and then there are new ones.
pub fn renew(mouths: &mut Vec<Mouths>, fresh: Vec<Mouths>)
    requires count { (length mouths.old.items ≡ 0) ⊎ (length members ≤ length mouths.old.items) }
    requires slots { HaveSlots mouths.old.items }
    requires fresh { length mouths.old.items ≡ 0 → AreFresh fresh.items }
    ensures { AreRenewed mouths.old.items mouths.new.items }
{
    if mouths.is_empty() {
        *mouths = fresh;
    } else {
        clear_members(mouths.as_mut_slice());
    }
}

/// Nothing lies in the pipes of the members any more, and no program is in a slot of one. Takes no memory. The condition: the members
/// have pipes.
fn clear_members(mouths: &mut [Mouths])
    requires four { length members ≤ length mouths.old }
    requires slots { HaveSlots mouths.old }
    ensures { AreRenewed mouths.old mouths.new }
{
    for seat in 0..Member::COUNT {
        mouths[seat].clear();
    }
}

/// The pipes of a child that is to start: a local delivery has some, in which nothing lies, and one slot.
pub fn pipes_of(alloc: Global, asked: &ChildData) -> Result<Option<Mouths>, Memory>
    ensures { IfOk result (λ pipes. HasPipesFor asked.now pipes) }
{
    match asked {
        ChildData::Local { .. } => Ok(Some(Mouths::new(alloc, 1)?)),
        ChildData::Bounce { .. } | ChildData::Forward { .. } => Ok(None),
        ChildData::Remote { .. } => Ok(None),
    }
}

/// The place after the others of the pipes of an actor that starts, if it has some. Takes no memory. The condition: there is room.
pub fn add_pipes(mouths: &mut Vec<Mouths>, own: Option<Mouths>) -> Option<usize>
    requires { IsSome own → vec_len mouths.old < vec_capacity mouths.old }
    ensures { HasPlaceAfter mouths.old.items mouths.new.items own result }
{
    let own = own?;
    let place = mouths.len();
    mouths.push(own).unwrap();
    Some(place)
}

/// What an actor finds ready that has its pipes at this place; or an injector, which has none, and whose input is ready unless it is
/// still awaited. The condition: there is such a place.
pub fn ready_at(mouths: &[Mouths], wire: Option<usize>, awaits: bool) -> Ready
    requires { (i : ℕ) → wire ≡ Some i → i < length mouths.now }
    ensures { IsFoundAt mouths.now wire awaits result }
{
    let Some(at) = wire else {
        return if awaits { NOT_READY } else { INPUT_READY };
    };
    let mouths = &mouths[at];
    match Member::at(at) {
        Some(Member::Sender) => Ready {
            links: [
                mouths.is_ready(Port::Clean),
                mouths.is_ready(Port::Lspawn),
                mouths.is_ready(Port::Rspawn),
                false,
            ],
            child: only_child(mouths),
        },
        Some(Member::Cleaner) => input_ready(mouths, None),
        _ => input_ready(mouths, mouths.lowest_ended()),
    }
}

/// The only child of an actor, if it has ended.
fn only_child(mouths: &Mouths) -> Option<u8>
    ensures { result ≡ only_child (ended_of mouths.now 0) }
{
    if mouths.has_ended(0) { Some(0) } else { None }
}

/// Its input, if something can be taken there, and this child.
fn input_ready(mouths: &Mouths, child: Option<u8>) -> Ready
    ensures { result ≡ input_of mouths.now child }
{
    Ready {
        links: [mouths.is_ready(Port::Input), false, false, false],
        child,
    }
}

/// Whether this is due to an actor that has its pipes at this place and is a child's: its start, or, if there is one in that slot, its
/// input or its status.
pub fn is_of_child(mouths: &[Mouths], wire: Option<usize>, need: &Need<'_>) -> bool
    ensures { result ≡ is_due_of_child (has_actor mouths.now wire) (due_of need.now) }
{
    match need {
        Need::Start(Child::Bounce { .. } | Child::Forward { .. }) => true,
        Need::Start(Child::Local { .. }) => true,
        Need::Give(Port::Program(slot), _) => has_actor(mouths, wire, *slot),
        Need::Take(Port::Status(slot)) => has_actor(mouths, wire, *slot),
        _ => false,
    }
}

/// Whether an actor runs in this slot of the one that has its pipes at this place.
fn has_actor(mouths: &[Mouths], wire: Option<usize>, slot: u8) -> bool
    ensures { result ≡ has_actor mouths.now wire slot }
{
    let Some(at) = wire else {
        return false;
    };
    match mouths.get(at) {
        Some(mouths) => mouths.actor_in(slot).is_some(),
        None => false,
    }
}

/// The slot of the child that this concerns; 0 if it concerns none.
pub fn due_slot(due: &NeedData) -> u8
    ensures { result ≡ due_slot due.now }
{
    match due {
        NeedData::Start(asked) => slot_of(asked.get()),
        NeedData::Give(Port::Program(slot), _) | NeedData::Take(Port::Status(slot)) => *slot,
        _ => 0,
    }
}

/// The slot of a child that is to start; 0 if it takes none.
fn slot_of(asked: &ChildData) -> u8
    ensures { result ≡ slot_of asked.now }
{
    match asked {
        ChildData::Local { slot, .. } | ChildData::Remote { slot, .. } => *slot,
        ChildData::Bounce { .. } | ChildData::Forward { .. } => 0,
    }
}
