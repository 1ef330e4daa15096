//! Laws of the turns of a yard. Each is the contract of a function that does nothing.
ghost use Rattle.std.specs.Prelude.{◌≡◌, ℕ, Option};
ghost use mathlib.Core.Option.{some};
ghost use lib.ListN.{get_elem?};
ghost use Rattle.atomic_table.specs.Table.{State};
ghost use Rattle.yard_lock.specs.declared.view.Opening.{Opening};
ghost use Rattle.yard_lock.specs.declared.view.View.{View};
ghost use Rattle.yard_lock.specs.Turns.{IsPrefix};
ghost use Rattle.yard_lock.specs.Rule.{Ruled, AreOneList, HasSeenAll, SeeOn};

use crate::turn::Stepped;

/// Between any two steps on the table what all passes have seen belongs to one list of turns.
pub fn turns_are_one_list<Y: Stepped>()
    ensures { (key : Opening Y) (s : State (Option Y) (View Y.In Y.Out)) (r : Ruled Y.moves key s) → AreOneList r.turns s.views }
{}

/// A pass that has all parts has seen all turns of the list, and each other pass is spent.
pub fn whole_passes_have_seen_all<Y: Stepped>()
    ensures { (key : Opening Y) (s : State (Option Y) (View Y.In Y.Out)) (r : Ruled Y.moves key s) (k : ℕ) (v : View Y.In Y.Out)
        → get_elem? s.views k ≡ some v → v.parts ≡ key.parts → HasSeenAll r.turns s.views k v.seen }
{}

/// The list only grows while passes see on, and at one time there is only one: the turns before are a prefix of the turns after.
pub fn turns_only_grow<Y: Stepped>()
    ensures { (key : Opening Y) (s t : State (Option Y) (View Y.In Y.Out)) (r : Ruled Y.moves key s) (q : Ruled Y.moves key t)
        → SeeOn s.views t.views → IsPrefix r.turns q.turns }
{}
