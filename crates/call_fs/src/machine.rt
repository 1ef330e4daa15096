// The trait of programs as machines.
ghost use Rattle.std.specs.Prelude.{◌≡◌, ◌∷◌, ⊤, List, ℕ, Bool, Option, IsTrue, IsOk, OnOk, OnErr};
ghost use Rattle.mail_bytes.specs.Moments.{IsMoment};
ghost use Rattle.call_fs.specs.declared.past.NeedData.{NeedData};
ghost use Rattle.call_fs.specs.declared.past.GotData.{GotData};
ghost use Rattle.call_fs.specs.declared.past.Own.{Own};
ghost use Rattle.call_fs.specs.declared.program.Ready.{Ready as Found};
ghost use Rattle.call_fs.specs.Past.{IsRunBy, UsesHeld, held};
ghost use Rattle.call_fs.specs.Program.{due_of, came_of, IsKind, IsWithin, IsNearer};

use crate::{Got, Need, Ready};
use mail_bytes::Memory;
use std::alloc::Global;

/// A program as a machine: it is told the moment and what is ready, says what it does next, and is told what came of it.
///
/// It keeps no history. Which pasts it stands for is a relation, and its contract is that what it needs is what its table
/// says of each of these pasts.
pub trait Machine {
    /// What it is started with.
    type Arguments;

    /// The moment that it was told last.
    ghost present: { Self → ℕ };

    /// What it was told last to be ready.
    ghost found: { Self → Found };

    /// It was told them since its last event.
    ghost looked: { Self → Bool };

    /// It may be told that this is ready.
    ghost can_find: { Self → Found → Type 0 };

    /// What it does next.
    ghost due: { Self → NeedData };

    /// How many bytes it may be handed of one taking.
    ghost takes_at_most: { Self → ℕ };

    /// It takes no memory any more.
    ghost has_room: { Self → Type 0 };

    /// How many events are ahead of it at most, if that is bounded.
    ghost ahead: { Self → Option ℕ };

    /// Its table: what a program with these arguments must do next, after this past, newest event first, at this moment,
    /// with this ready.
    ghost next: { Self.Arguments → List Own → ℕ → Found → NeedData };

    /// What a look at this moment, with this ready, makes of it, as far as it is told.
    ghost looks: { Self → ℕ → Found → Self → Type 0 } = { λ _ _ _ _. ⊤ };

    /// What it becomes once this came of its need, as far as it is told.
    ghost goes: { Self → GotData → Self → Type 0 } = { λ _ _ _. ⊤ };

    /// It stands for these arguments and this past, newest event first.
    ghost stands: { Self → Self.Arguments → List Own → Type 0 };

    /// Tells it the moment, and what is ready. It stands as before. The conditions: a clock may tell the moment, and it
    /// may be told that this is ready.
    fn look(&mut self, now: u64, ready: Ready)
        requires moment { IsMoment now }
        requires given { can_find self.old ready }
        ensures present { present self.new ≡ now }
        ensures found { found self.new ≡ ready }
        ensures looked { IsTrue (looked self.new) }
        ensures takes { takes_at_most self.new ≡ takes_at_most self.old }
        ensures room { has_room self.old → has_room self.new }
        ensures ahead { ahead self.new ≡ ahead self.old }
        ensures looks { looks self.old now ready self.new }
        ensures stands { (args : Self.Arguments) (past : List Own) → stands self.old args past → stands self.new args past };

    /// What it does next: once it has looked, the next of its table after each past that it stands for.
    fn need(&self) -> Need<'_>
        ensures due { due_of result ≡ due self.now }
        ensures next { (args : Self.Arguments) (past : List Own) → IsTrue (looked self.now) → stands self.now args past
            → due_of result ≡ next args past (present self.now) (found self.now) };

    /// How many bytes it may be handed of one taking.
    fn taking_room(&self) -> usize
        ensures { result ≡ takes_at_most self.now };

    /// Hands in what came of it. Then it stands for each past that it stood for and this event; after `Memory` it is
    /// unchanged, and the same may be handed in again. The conditions: it has looked, this is of the kind of its need,
    /// and a taking has no more bytes than it may be handed.
    fn done(&mut self, alloc: Global, got: Got<'_>) -> Result<(), Memory>
        requires looked { IsTrue (looked self.old) }
        requires kind { IsKind (due self.old) (came_of got) }
        requires within { IsWithin (takes_at_most self.old) (came_of got) }
        ensures stands { (args : Self.Arguments) (past : List Own) → stands self.old args past → OnOk result (stands self.new args
            (record { read = present self.old; ready = found self.old; due = due self.old; came = came_of got.entry } ∷ past)) }
        ensures room { has_room self.old → IsOk result × has_room self.new }
        ensures nearer { OnOk result (IsNearer (ahead self.old) (ahead self.new)) }
        ensures goes { OnOk result (goes self.old (came_of got.entry) self.new) }
        ensures err { OnErr result (self.new ≡ self.old) };

    /// A law of its table: a call that it asks for in a run uses only descriptors that the run holds open, in a mode that
    /// fits.
    fn uses_held()
        ensures uses { (args : Self.Arguments) (past : List Own) (now : ℕ) (ready : Found)
            → IsRunBy (next args) past → UsesHeld (held past) (next args past now ready) };
}
