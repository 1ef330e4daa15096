// A name held in place.
ghost use Rattle.std.specs.Prelude.{◌≡◌, ◌↔◌, ◌≤◌, ◌<◌, ◌+◌, ◌++◌, ◌∷◌, [], List, ℕ, IsOk, OnOk, OnErr, length, take};

use std::marker::Model;
use thiserror::Error;

/// A name has no room for more bytes.
#[derive(Clone, Copy, Debug, PartialEq, Eq, Error)]
#[error("no room in a name")]
pub struct NoRoom;

/// A name of at most 255 bytes, held in place, so that it takes no memory; contracts see it as the list of its bytes.
#[derive(Debug, Drop)]
pub struct NameBuf {
    bytes: [u8; 255],
    len: usize,
}

impl Model for NameBuf {
    ghost Value = { List ℕ };

    ghost view = { λ n. take n.len n.bytes };

    ghost invariant = { λ n. n.len ≤ 255 };
}

impl NameBuf {
    /// The empty name.
    pub fn new() -> Self
        ensures { result ≡ [] }
    {
        NameBuf {
            bytes: [0; 255],
            len: 0,
        }
    }

    /// Its bytes.
    pub fn as_slice(&self) -> &[u8]
        ensures name { result.now ≡ self.now }
        ensures short { length result.now ≤ 255 }
    {
        &self.bytes[..self.len]
    }

    /// Makes it empty.
    pub fn clear(&mut self)
        ensures { self.new ≡ [] }
    {
        self.len = 0;
    }

    /// Puts a byte at the end; `NoRoom` exactly if it is full, and then it is as before.
    pub fn push(&mut self, byte: u8) -> Result<(), NoRoom>
        ensures room { IsOk result ↔ (length self.old < 255) }
        ensures ok { OnOk result (self.new ≡ self.old ++ byte ∷ []) }
        ensures err { OnErr result (self.new ≡ self.old) }
    {
        if self.len == self.bytes.len() {
            return Err(NoRoom);
        }
        self.put(byte);
        Ok(())
    }

    /// Puts bytes at the end; `NoRoom` exactly if there is no room for all of them, and then it is as before.
    pub fn extend(&mut self, bytes: &[u8]) -> Result<(), NoRoom>
        ensures room { IsOk result ↔ (length self.old + length bytes.now ≤ 255) }
        ensures ok { OnOk result (self.new ≡ self.old ++ bytes.now) }
        ensures err { OnErr result (self.new ≡ self.old) }
    {
        if self.bytes.len() - self.len < bytes.len() {
            return Err(NoRoom);
        }
        for byte in bytes {
            self.put(*byte);
        }
        Ok(())
    }

    /// Puts a byte at the end. The condition: there is room for it.
    fn put(&mut self, byte: u8)
        requires { length self.old < 255 }
        ensures { self.new ≡ self.old ++ byte ∷ [] }
    {
        self.bytes[self.len] = byte;
        self.len += 1;
    }

    /// The same name. Takes no memory.
    pub fn copy(&self) -> NameBuf
        ensures { result ≡ self.now }
    {
        NameBuf {
            bytes: self.bytes,
            len: self.len,
        }
    }
}
