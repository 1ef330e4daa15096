// The next piece of a text, held in place.
ghost use Rattle.std.specs.Prelude.{◌≡◌, ◌≤◌, ◌<◌, ◌+◌, ◌++◌, ◌∷◌, [], List, ℕ, length, take};

use call_fs::PIECE;
use std::marker::Model;

/// At most 8192 bytes, held in place, so that they take no memory; contracts see them as a list.
#[derive(Drop)]
pub struct Piece {
    bytes: [u8; PIECE],
    len: usize,
}

impl Model for Piece {
    ghost use Rattle.std.specs.Prelude.{◌≤◌, List, ℕ, take};
    ghost use Rattle.call_fs.specs.declared.file_system.TheConstants.{PIECE};

    ghost Value = { List ℕ };

    ghost view = { λ p. take p.len p.bytes };

    ghost invariant = { λ p. p.len ≤ PIECE };
}

impl Piece {
    /// No bytes.
    pub fn new() -> Self
        ensures { result ≡ [] }
    {
        Piece {
            bytes: [0; PIECE],
            len: 0,
        }
    }

    /// Its bytes.
    pub fn as_slice(&self) -> &[u8]
        ensures piece { result.now ≡ self.now }
        ensures short { length result.now ≤ PIECE }
    {
        &self.bytes[..self.len]
    }

    /// How many bytes it has.
    pub fn len(&self) -> usize
        ensures len { result ≡ length self.now }
        ensures short { result ≤ PIECE }
    {
        self.len
    }

    /// Makes it empty.
    pub fn clear(&mut self)
        ensures { self.new ≡ [] }
    {
        self.len = 0;
    }

    /// Puts bytes at the end. The condition: there is room for them.
    pub fn extend(&mut self, bytes: &[u8])
        requires { length self.old + length bytes.now ≤ PIECE }
        ensures { self.new ≡ self.old ++ bytes.now }
    {
        let end = self.len + bytes.len();
        self.bytes[self.len..end].copy_from_slice(bytes);
        self.len = end;
    }

    /// Puts a byte at the end. The condition: there is room for it.
    pub fn push(&mut self, byte: u8)
        requires { length self.old < PIECE }
        ensures { self.new ≡ self.old ++ byte ∷ [] }
    {
        self.bytes[self.len] = byte;
        self.len += 1;
    }
}
