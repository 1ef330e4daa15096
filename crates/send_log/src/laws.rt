// Laws of the lines.
ghost use Rattle.std.specs.Prelude.{◌≡◌, ◌↔◌, ◌++◌, ◌∷◌, [], ℕ, List, All};
ghost use Rattle.send_log.specs.declared.lines.Line.{Line};
ghost use Rattle.send_log.specs.Lines.{AreSame, IsPrinted, IsSame, log_of, text_of};

/// A line is one line: printed bytes and spaces, and a newline. Two lines have the same text exactly if they are of one kind,
/// with the same numbers and words, and show addresses and reports that look the same.
pub fn lines_are_exact()
    ensures printed { (l : Line) → (text : List ℕ) × ((text_of l ≡ text ++ 10 ∷ []) × All IsPrinted text) }
    ensures same { (a b : Line) → (text_of a ≡ text_of b) ↔ IsSame a b }
    // So a log is read in one way.
    ensures logs { (lines others : List Line) → (log_of lines ≡ log_of others) ↔ AreSame lines others }
{}
