//! Laws of the language of scripts. Each is the contract of a function that does nothing.
ghost use Rattle.std.specs.Prelude.{◌≡◌, List, ℕ};
ghost use Rattle.script_lines.specs.declared.line.Line.{Line};
ghost use Rattle.script_lines.specs.Contents.{Content};
ghost use Rattle.script_lines.specs.Lines.{IsLine, IsScript, IsRefused};

/// A text is one line at most, bytes are one script at most, and no bytes are both a script and refused.
pub fn scripts_are_read_one_way()
    ensures line { (text : List ℕ) (l m : Line) → IsLine text l → IsLine text m → l ≡ m }
    ensures script { (bytes : List ℕ) (a b : Content) → IsScript bytes a → IsScript bytes b → a ≡ b }
    ensures unrefused { (bytes : List ℕ) (content : Content) → IsScript bytes content → ¬ (IsRefused bytes) }
{}
