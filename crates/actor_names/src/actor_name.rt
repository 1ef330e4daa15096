// The name of an actor.
ghost use Rattle.std.specs.Prelude.{◌≡◌, ◌≤◌, ◌<◌, ◌↔◌, [], List, ℕ, length, take, set, IfSome, IsNone, IsTrue};

use std::marker::Model;

/// The name of an actor, of at most 24 bytes, held in place; contracts see it as the list of its bytes.
#[derive(Debug, Drop)]
pub struct ActorName {
    bytes: [u8; 24],
    len: usize,
}

impl Model for ActorName {
    ghost Value = { List ℕ };

    ghost view = { λ n. take n.len n.bytes };

    ghost invariant = { λ n. n.len ≤ 24 };
}

impl ActorName {
    /// The actor of this name. `None` exactly if the name has over 24 bytes.
    pub fn of(bytes: &[u8]) -> Option<ActorName>
        ensures name { IfSome result (λ name. name ≡ bytes.now) }
        ensures long { IsNone result ↔ (24 < length bytes.now) }
    {
        if bytes.len() > 24 {
            return None;
        }
        let mut held = [0; 24];
        held[..bytes.len()].copy_from_slice(bytes);
        Some(ActorName {
            bytes: held,
            len: bytes.len(),
        })
    }

    /// Its bytes.
    pub fn as_slice(&self) -> &[u8]
        ensures { result.now ≡ self.now }
    {
        &self.bytes[..self.len]
    }

    /// The same name. Takes no memory.
    pub fn copy(&self) -> ActorName
        ensures { result ≡ self.now }
    {
        ActorName {
            bytes: self.bytes,
            len: self.len,
        }
    }

    /// The same name with this as its first byte; the empty name has none. Takes no memory.
    pub(crate) fn with_first(&self, byte: u8) -> ActorName
        ensures { result ≡ set self.now 0 byte }
    {
        let mut bytes = self.bytes;
        bytes[0] = byte;
        ActorName {
            bytes,
            len: self.len,
        }
    }

    /// Whether this is its name.
    pub fn is(&self, bytes: &[u8]) -> bool
        ensures { IsTrue result ↔ (self.now ≡ bytes.now) }
    {
        self.as_slice() == bytes
    }
}
