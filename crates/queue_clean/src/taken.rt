// Bytes that were taken.
ghost use Rattle.std.specs.Prelude.{◌≡◌, ◌≤◌, [], List, ℕ, length, drop};

use call_fs::PIECE;
use std::marker::Model;

/// The bytes of a taking that weren't read yet, at most 8192, held in place; contracts see them as a list.
#[derive(Drop)]
pub struct Taken {
    bytes: [u8; PIECE],
    from: usize,
    to: usize,
}

impl Model for Taken {
    ghost use Rattle.std.specs.Prelude.{◌≤◌, ◌-◌, List, ℕ, take, drop};
    ghost use Rattle.call_fs.specs.declared.file_system.TheConstants.{PIECE};

    ghost Value = { List ℕ };

    ghost view = { λ t. take (t.to - t.from) (drop t.from t.bytes) };

    ghost invariant = { λ t. (t.from ≤ t.to) × (t.to ≤ PIECE) };
}

impl Taken {
    /// No bytes.
    pub fn new() -> Self
        ensures { result ≡ [] }
    {
        Taken {
            bytes: [0; PIECE],
            from: 0,
            to: 0,
        }
    }

    /// The bytes that weren't read yet.
    pub fn as_slice(&self) -> &[u8]
        ensures { result.now ≡ self.now }
    {
        &self.bytes[self.from..self.to]
    }

    /// Becomes these bytes. The condition: they are at most 8192.
    pub fn set(&mut self, bytes: &[u8])
        requires { length bytes.now ≤ PIECE }
        ensures { self.new ≡ bytes.now }
    {
        self.bytes[..bytes.len()].copy_from_slice(bytes);
        self.from = 0;
        self.to = bytes.len();
    }

    /// The first so many were read. The condition: there are so many.
    pub fn pass(&mut self, count: usize)
        requires { count ≤ length self.old }
        ensures { self.new ≡ drop count self.old }
    {
        self.from += count;
    }
}
