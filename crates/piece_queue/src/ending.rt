// Whether a channel goes on after a piece.
ghost use Rattle.std.specs.Prelude.{◌≡◌};
ghost use Rattle.piece_queue.specs.Pieces.{ends};

use crate::piece::Brought;

impl Brought {
    /// Whether nothing comes after it.
    pub fn ends(self) -> bool
        ensures { result ≡ ends self }
    {
        match self {
            Brought::Bytes(_) => false,
            Brought::End | Brought::Cut | Brought::Failed => true,
        }
    }
}
