// Who started, in the order of starts.
ghost use Rattle.std.specs.Prelude.{◌≡◌, ◌∷◌, ◌++◌, ◌+◌, ◌-◌, ◌≤◌, ◌^◌, [], OnOk, length, map};
ghost use Rattle.actor_names.specs.MailNames.{members};
ghost use Rattle.actor_names.specs.Members.{seat_of};
ghost use Rattle.world_events.specs.Programs.{generation};
ghost use Rattle.world_events.specs.Starts.{IsSameOrder, HasRoomFor, place_at};

use actor_names::Member;
use mail_bytes::Memory;
use std::alloc::Global;

/// The actors that started, in order, each as often as it started: a member by its seat, and any other one by its place among those that
/// are no members, after as many seats as there are.
#[derive(Drop)]
pub struct Starts {
    order: Vec<usize>,
    // where the newest generation stands there
    newest: usize,
}

impl Starts {
    /// Nobody started. Takes no memory.
    pub fn new(alloc: Global) -> Starts
        ensures order { result.order.items ≡ [] }
        ensures newest { result.newest ≡ 0 }
    {
        Starts {
            order: Vec::new(alloc),
            newest: 0,
        }
    }

    /// Makes room for so many starts. The error: out of memory.
    pub fn make_room(&mut self, more: usize) -> Result<(), Memory>
        ensures same { IsSameOrder self.old self.new }
        ensures room { OnOk result (HasRoomFor self.new more) }
    {
        self.order.reserve(more)
    }

    /// The actor at this place among those that are no members starts. Takes no memory. The conditions: there is room, and a usize counts
    /// it.
    pub fn add_other(&mut self, place: usize)
        requires room { HasRoomFor self.old 1 }
        requires fits { place + length members ≤ 2 ^ 64 - 1 }
        ensures order { self.new.order.items ≡ self.old.order.items ++ (place + length members) ∷ [] }
        ensures newest { self.new.newest ≡ self.old.newest }
    {
        self.order.push(place + Member::COUNT).unwrap();
    }

    /// A generation starts. Takes no memory. The condition: there is room.
    pub fn add_members(&mut self)
        requires { HasRoomFor self.old (length members) }
        ensures order { self.new.order.items ≡ self.old.order.items ++ map seat_of generation }
        ensures newest { self.new.newest ≡ length self.old.order.items }
    {
        self.newest = self.order.len();
        for seat in 0..Member::COUNT {
            self.order.push(seat).unwrap();
        }
    }

    /// How many starts there were.
    pub fn count(&self) -> usize
        ensures { result ≡ length self.now.order.items }
    {
        self.order.len()
    }

    /// The place among all actors of the one that started at this place in the order, if it hasn't started again. So many of them are
    /// members. The condition: no more than a generation has.
    pub fn place_at(&self, crew: usize, at: usize) -> Option<usize>
        requires { crew ≤ length members }
        ensures { result ≡ place_at self.now crew at }
    {
        let seat = *self.order.get(at)?;
        if seat >= Member::COUNT {
            Some(crew + (seat - Member::COUNT))
        } else if at >= self.newest {
            Some(seat)
        } else {
            None
        }
    }
}
