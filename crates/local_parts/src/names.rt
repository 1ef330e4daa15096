// The names of a home.
ghost use Rattle.std.specs.Prelude.{◌≡◌, ◌++◌, ◌∷◌, [], OnOk, OnErr, slice_index_or};
ghost use Rattle.local_parts.specs.Forwarding.{is_there};
ghost use Rattle.local_parts.specs.Names.{last_name};

use mail_bytes::{ByteText, Memory};
use std::alloc::Global;
use std::marker::Model;

/// The names of the files of a home, in the order in which they were told; contracts see the list of them.
#[derive(Drop)]
pub struct Names {
    names: Vec<ByteText>,
}

impl Model for Names {
    ghost use Rattle.std.specs.Prelude.{List, ℕ};

    ghost Value = { List (List ℕ) };

    ghost view = { λ n. n.names.items };
}

impl Names {
    /// No names yet. Takes no memory.
    pub fn new(alloc: Global) -> Self
        ensures { result ≡ [] }
    {
        Names {
            names: Vec::new(alloc),
        }
    }

    /// Puts a name at the end. Fails only if out of memory; then nothing changed.
    pub fn put(&mut self, alloc: Global, name: &[u8]) -> Result<(), Memory>
        ensures ok { OnOk result (self.new ≡ self.old ++ name.now ∷ []) }
        ensures err { OnErr result (self.new ≡ self.old) }
    {
        self.names.push(ByteText::from_slice(alloc, name)?)?;
        Ok(())
    }

    /// All of them.
    pub fn as_slice(&self) -> &[ByteText]
        ensures { result.now ≡ self.now }
    {
        self.names.as_slice()
    }

    /// The last one; empty if there is none.
    pub fn last(&self) -> &[u8]
        ensures { result.now ≡ last_name self.now }
    {
        match self.names.last() {
            Some(name) => name.as_slice(),
            None => b"",
        }
    }

    /// The one at this place; empty if there is none.
    pub fn name(&self, place: usize) -> &[u8]
        ensures { result.now ≡ slice_index_or self.now place [] }
    {
        match self.names.get(place) {
            Some(name) => name.as_slice(),
            None => b"",
        }
    }

    /// Whether this is one of them.
    pub fn has(&self, name: &[u8]) -> bool
        ensures { result ≡ is_there self.now name.now }
    {
        self.names.iter().any(|it| it.as_slice() == name)
    }
}
