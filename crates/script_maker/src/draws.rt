// Numbers that are drawn one after the other.
ghost use Rattle.std.specs.Prelude.{◌≡◌, ◌≤◌};
ghost use Rattle.call_fs.specs.Choices.{drawn};
ghost use Rattle.script_maker.specs.declared.draws.TheConstants.{LAST_SEED};

use std::marker::Model;

/// The greatest seed.
pub const LAST_SEED: u64 = 65536;

/// Where drawing has come to: contracts see it as the number that was drawn last, or the seed.
#[derive(Drop)]
pub(crate) struct Draws {
    last: u64,
}

impl Model for Draws {
    ghost use Rattle.std.specs.Prelude.{ℕ, ◌≤◌};

    ghost Value = { ℕ };

    ghost view = { λ d. d.last };

    ghost invariant = { λ d. d.last ≤ 65536 };
}

impl Draws {
    /// Nothing is drawn yet.
    pub(crate) fn new(seed: u64) -> Self
        requires { seed ≤ LAST_SEED }
        ensures { result ≡ seed }
    {
        Draws { last: seed }
    }

    /// Draws the next number.
    pub(crate) fn draw(&mut self) -> u64
        ensures value { result ≡ drawn self.old }
        ensures last { self.new ≡ drawn self.old }
        ensures small { result ≤ LAST_SEED }
    {
        self.last = (75 * self.last + 74) % 65537;
        self.last
    }
}
