// The numbers that new files are to take.
ghost use Rattle.std.specs.Prelude.{◌≡◌, ◌≤◌, length, drop};

use std::marker::Model;

/// The picks that are left; contracts see them as their list.
#[derive(Drop)]
pub struct Picks {
    all: Vec<u64>,
    used: usize,
}

impl Model for Picks {
    ghost use Rattle.std.specs.Prelude.{ℕ, List, ◌≤◌, length, drop};

    ghost Value = { List ℕ };

    ghost view = { λ p. drop p.used p.all.items };

    ghost invariant = { λ p. p.used ≤ length p.all.items };
}

impl Picks {
    /// All of these.
    pub fn new(all: Vec<u64>) -> Self
        ensures { result ≡ all.items }
    {
        Picks { all, used: 0 }
    }

    /// Those that are left.
    pub fn as_slice(&self) -> &[u64]
        ensures { result.now ≡ self.now }
    {
        &self.all[self.used..]
    }

    /// Uses up the first ones. The condition: there are as many.
    pub fn use_up(&mut self, count: usize)
        requires { count ≤ length self.old }
        ensures { self.new ≡ drop count self.old }
    {
        self.used += count;
    }
}
