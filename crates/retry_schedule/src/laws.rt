// Laws of square roots and of the entries that are due: contracts of functions that do nothing.
ghost use Rattle.std.specs.Prelude.{◌≡◌, ◌≢◌, ◌<◌, ◌≤◌, ◌↔◌, ◌⊎◌, ◌+◌, ◌*◌, ℕ, List, Option, Contains};
ghost use Rattle.retry_schedule.specs.Retry.{IsRoot, root};
ghost use Rattle.retry_schedule.specs.Due.{HasNoEntry, IsSchedule, IsFirst, added, removed};

/// Each number has one root, and what is the greatest is that one.
pub fn roots_are_exact()
    ensures is { (x : ℕ) → IsRoot x (root x) }
    ensures one { (x r : ℕ) → IsRoot x r → r ≡ root x }
    // As it is looked for: the square of the next number is too much.
    ensures next { (x r : ℕ) → r * r ≤ x → x < (r + 1) * (r + 1) → IsRoot x r }
{}

/// What adding and removing do to the entries, and that at most one is first.
pub fn entries_are_exact()
    ensures added { (e o : ℕ × ℕ) (es : List (ℕ × ℕ)) →
        Contains (added e es) o ↔ ((o ≡ e) ⊎ Contains es o) }
    ensures removed { (n : ℕ) (o : ℕ × ℕ) (es : List (ℕ × ℕ)) →
        Contains (removed n es) o ↔ (Contains es o × (o.1 ≢ n)) }
    ensures adds { (e : ℕ × ℕ) (es : List (ℕ × ℕ)) →
        IsSchedule es → HasNoEntry e.1 es → IsSchedule (added e es) }
    ensures removes { (n : ℕ) (es : List (ℕ × ℕ)) →
        IsSchedule es → IsSchedule (removed n es) }
    ensures frees { (n : ℕ) (es : List (ℕ × ℕ)) → HasNoEntry n (removed n es) }
    ensures first { (now : ℕ) (es : List (ℕ × ℕ)) (a b : Option (ℕ × ℕ)) →
        IsFirst now es a → IsFirst now es b → a ≡ b }
{}
