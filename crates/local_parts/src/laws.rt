//! Laws of what a local delivery works with.
ghost use Rattle.std.specs.Prelude.{◌≡◌, ◌↔◌, List, ℕ, Some};
ghost use Rattle.local_parts.specs.Inputs.{IsNetstring, message_in};

/// An input is that of a message exactly if it is the netstring of it.
pub fn netstrings_are_exact()
    ensures { (input message : List ℕ) → (message_in input ≡ Some message) ↔ IsNetstring input message }
{}
