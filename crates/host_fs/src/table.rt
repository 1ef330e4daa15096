// What is open, by the numbers that programs hold.
ghost use Rattle.std.specs.Prelude.{◌≡◌, IfOk, IfSome, OnErr, Some, None, []};
ghost use Rattle.std.specs.Option.{option_copied};
ghost use Rattle.host_fs.specs.Held.{held, IsVacant, HoldsTheSame, Puts};

use mail_bytes::Memory;
use std::alloc::Global;

/// Slots with a value each, or with none. A number is the place of its slot, from 0.
#[derive(Drop)]
pub struct Table<T> {
    slots: Vec<Option<T>>,
}

impl<T: Drop> Table<T> {
    /// A table that holds nothing.
    pub fn new(alloc: Global) -> Self
        ensures { result.slots.items ≡ [] }
    {
        Table {
            slots: Vec::new(alloc),
        }
    }

    /// A slot that holds nothing, the first one, or a new one at the end if each holds something. What the others hold
    /// stays. After `Memory` the table is as before.
    pub fn make_room(&mut self) -> Result<usize, Memory>
        ensures vacant { IfOk result (λ place. IsVacant self.new.slots.items place) }
        ensures same { HoldsTheSame self.old.slots.items self.new.slots.items }
        ensures err { OnErr result (self.new.slots.items ≡ self.old.slots.items) }
    {
        if let Some(place) = self.first_vacant() {
            return Ok(place);
        }
        let place = self.slots.len();
        self.slots.push(None)?;
        Ok(place)
    }

    /// The first slot that holds nothing.
    fn first_vacant(&self) -> Option<usize>
        ensures { IfSome result (λ place. IsVacant self.now.slots.items place) }
    {
        self.slots.iter().position(|slot| slot.is_none())
    }

    /// Puts a value into a slot. The condition: the slot holds nothing.
    pub fn put(&mut self, place: usize, value: T)
        requires { IsVacant self.old.slots.items place }
        ensures { Puts self.old.slots.items self.new.slots.items place (Some value) }
    {
        self.slots[place] = Some(value);
    }

    /// The value of this number; None exactly if it holds none.
    pub fn get(&self, number: u64) -> Option<&T>
        ensures { option_copied result ≡ held self.now.slots.items number }
    {
        match self.slots.get(number as usize) {
            Some(slot) => slot.as_ref(),
            None => None,
        }
    }

    /// Lets go of the value of this number, if it holds one.
    pub fn remove(&mut self, number: u64)
        ensures { Puts self.old.slots.items self.new.slots.items number None }
    {
        if let Some(slot) = self.slots.get_mut(number as usize) {
            *slot = None;
        }
    }
}
