// A name in `pid`.
ghost use Rattle.std.specs.Prelude.{◌≡◌, ◌≤◌, [], List, ℕ, length, take, drop, codes};
ghost use Rattle.queue_clean.specs.Table.{pid_path};

use std::marker::Model;

/// A name in the directory `pid`, of at most 255 bytes, held in place after the directory's name; contracts see the list
/// of its bytes.
#[derive(Drop)]
pub struct PidName {
    path: [u8; 259],
    len: usize,
}

impl Model for PidName {
    ghost use Rattle.std.specs.Prelude.{◌≡◌, ◌≤◌, List, ℕ, take, drop, codes};

    ghost Value = { List ℕ };

    ghost view = { λ p. take p.len (drop 4 p.path) };

    ghost invariant = { λ p. (p.len ≤ 255) × (take 4 p.path ≡ codes "pid/") };
}

impl PidName {
    /// The empty name, which comes before every other.
    pub fn new() -> Self
        ensures { result ≡ [] }
    {
        let mut path = [0; 259];
        path[..4].copy_from_slice(b"pid/");
        PidName { path, len: 0 }
    }

    /// Becomes another name. The condition: it has at most 255 bytes.
    pub fn set(&mut self, name: &[u8])
        requires { length name.now ≤ 255 }
        ensures { self.new ≡ name.now }
    {
        self.len = name.len();
        self.path[4..4 + name.len()].copy_from_slice(name);
    }

    /// Its bytes.
    pub fn name(&self) -> &[u8]
        ensures { result.now ≡ self.now }
    {
        &self.path[4..4 + self.len]
    }

    /// Its bytes after the directory's name: `pid/NAME`.
    pub fn path(&self) -> &[u8]
        ensures { result.now ≡ pid_path self.now }
    {
        &self.path[..4 + self.len]
    }
}
