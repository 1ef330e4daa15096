// The control files by which messages are routed.
ghost use Rattle.std.specs.Prelude.{◌≡◌, ◌-◌, [], IfOk, OnOk, Some, length};
ghost use Rattle.std.specs.List.{slice_get};
ghost use Rattle.std.specs.Option.{option_copied};
ghost use Rattle.queue_law.specs.Ledgers.{unrouted};
ghost use Rattle.script_fates.specs.Routers.{AreMore, routes_at};

use crate::copying::{are_same, copied, unrouted};
use address_rules::Controls;
use mail_bytes::Memory;
use std::alloc::Global;

/// Control files by which messages are routed. Messages in a row that are routed by the same share them.
#[derive(Drop)]
pub struct Routers {
    /// Those of a message that no sender has routed.
    pub unrouted: Controls,
    /// What senders had read as they gave todo commands, from the first command on. None is the same as the one before it.
    pub read: Vec<Controls>,
}

impl Routers {
    /// Before any todo command. Takes no memory.
    pub fn new(alloc: Global) -> Routers
        ensures unrouted { result.unrouted ≡ unrouted }
        ensures read { result.read.items ≡ [] }
    {
        Routers {
            unrouted: unrouted(alloc),
            read: Vec::new(alloc),
        }
    }

    /// Those at this place among what was read; those of a message that isn't routed if there is no place.
    pub fn at(&self, place: Option<usize>) -> Option<&Controls>
        ensures { option_copied result ≡ routes_at self.now place }
    {
        match place {
            Some(place) => self.read.get(place),
            None => Some(&self.unrouted),
        }
    }

    /// The place of these. A copy is kept unless the newest say the same.
    pub fn keep(&mut self, alloc: Global, controls: &Controls) -> Result<usize, Memory>
        ensures place { IfOk result (λ place. slice_get self.new.read.items place ≡ Some controls.now) }
        ensures more { OnOk result (AreMore self.old self.new) }
        ensures once { OnOk result (slice_get self.old.read.items (length self.old.read.items - 1) ≡ Some controls.now → self.new.read.items ≡ self.old.read.items) }
    {
        let many = self.read.len();
        if many > 0 && are_same(&self.read[many - 1], controls) {
            return Ok(many - 1);
        }
        self.read.push(copied(alloc, controls)?)?;
        Ok(many)
    }
}
