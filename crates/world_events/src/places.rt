// Where each actor stands.
ghost use Rattle.std.specs.Prelude.{◌≡◌, ◌<◌, ◌^◌, List, ℕ, Some, None, IfOk, OnOk, OnErr};
ghost use Rattle.call_fs.specs.Maps.{put_at};
ghost use Rattle.world_events.specs.Places.{place_of, among_all, child_place};

use actor_names::ActorName;
use mail_bytes::Memory;
use std::alloc::Global;
use std::collections::BTreeMap;
use world_pipes::{Mouths, seat};

/// The place of each actor by its name.
#[derive(Drop)]
pub struct Places {
    map: BTreeMap<Vec<u8>, usize>,
}

impl Places {
    /// Of no actor. Takes no memory.
    pub fn new(alloc: Global) -> Places
        ensures { (name : List ℕ) → place_of result name ≡ None }
    {
        Places {
            map: BTreeMap::new(alloc),
        }
    }

    /// Where the actor of this name stands.
    pub fn find(&self, name: &[u8]) -> Option<usize>
        ensures { result ≡ place_of self.now name.now }
    {
        self.map.get(name).copied()
    }

    /// Notes where the actor of this name stands. After an `Err` it is as before.
    pub fn add(&mut self, alloc: Global, name: &[u8], place: usize) -> Result<(), Memory>
        ensures ok { OnOk result ((q : List ℕ) → place_of self.new q ≡ put_at (place_of self.old) name.now (Some place) q) }
        ensures err { OnErr result ((q : List ℕ) → place_of self.new q ≡ place_of self.old q) }
    {
        let key = Vec::from_slice(alloc, name)?;
        self.map.insert(key, place)?;
        Ok(())
    }
}

/// The place of the actor of this name among all. The condition: it has one of a usize.
pub fn place_among(places: &Places, crew: usize, name: &ActorName) -> Option<usize>
    requires { (i : ℕ) → among_all crew (place_of places.now) name.now ≡ Some i → i < 2 ^ 64 }
    ensures { result ≡ among_all crew (place_of places.now) name.now }
{
    match seat(name.as_slice()) {
        Some(seat) if seat < crew => Some(seat),
        Some(_) => None,
        None => places.find(name.as_slice()).map(|place| crew + place),
    }
}

/// The place of the child in a slot of whose pipes are here, if there is one. The condition: it is one of a usize.
pub fn child_at(
    mouths: &[Mouths],
    wire: Option<usize>,
    slot: u8,
    places: &Places,
    crew: usize,
) -> Option<usize>
    requires { (i : ℕ) → child_place mouths.now wire slot crew (place_of places.now) ≡ Some i → i < 2 ^ 64 }
    ensures { result ≡ child_place mouths.now wire slot crew (place_of places.now) }
{
    let name = mouths.get(wire?)?.actor_in(slot)?;
    Some(crew + places.find(name.as_slice())?)
}
