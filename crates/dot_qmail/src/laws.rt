//! Laws of the files of a home: what `choose` looks for, and which it takes, as relations; and how paths of maildirs end.
ghost use Rattle.std.specs.Prelude.{◌≡◌, List, ℕ, All, Contains, Some, None};
ghost use Rattle.dot_qmail.specs.declared.line.Line.{Line};
ghost use Rattle.dot_qmail.specs.declared.line.Line.TheVariants.{Maildir};
ghost use Rattle.dot_qmail.specs.Choice.{stems, first_place, IsStem, StandsByLength, IsFirstThere, IsMissing};
ghost use Rattle.dot_qmail.specs.Lines.{plan_of};
ghost use Rattle.dot_qmail.specs.Paths.{EndsInSlash, path_in};

/// The stems of the default names are the prefixes of ext that end in `-` and the empty one, the longest first.
pub fn stems_are_exact()
    ensures sound { (ext : List ℕ) → All (IsStem ext) (stems ext) }
    ensures complete { (ext stem : List ℕ) → IsStem ext stem → StandsByLength (stems ext) stem }
{}

/// The first that is there of the names that are looked for is the one that stands where none before it does; and there is
/// none exactly if all are missing.
pub fn the_first_is_taken()
    ensures found { (names looked : List (List ℕ)) (place : ℕ) → first_place names looked ≡ Some place → IsFirstThere names looked place }
    ensures none { (names looked : List (List ℕ)) → first_place names looked ≡ None → All (IsMissing names) looked }
{}

/// The path of a maildir line ends in `/`, and a path that ends so leads to one that does.
pub fn maildirs_end_so()
    ensures lines { (bytes path : List ℕ) (plan : List Line) → plan_of bytes ≡ Some plan → Contains plan (Maildir path) → EndsInSlash path }
    ensures paths { (home path : List ℕ) → EndsInSlash path → EndsInSlash (path_in home path) }
{}
