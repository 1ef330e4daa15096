// The rule of the queue, and what its calls do to what passes show.

use crate::hand::Hand;
use crate::piece::Piece;
use crossbeam_queue::protocol::{Join, Lesson, Outcome, Protocol, Split};

/// The rule: the pieces of each channel come in their order.
pub struct InOrder;

impl Protocol<Piece, Hand> for InOrder {
    ghost use Rattle.piece_queue.specs.Rule.{Keeps, first};

    ghost holds = { Keeps };

    ghost first = { first };
}

/// One pass opens channels, and one takes.
pub struct Roles;

impl Split<Hand> for Roles {
    ghost use Rattle.piece_queue.specs.Rule.{opener, taker};

    ghost left = { λ v. opener v.next };

    ghost right = { λ v. taker v.got };
}

/// One pass reads the next channel.
pub struct Opens;

impl Split<Hand> for Opens {
    ghost use Rattle.std.specs.Prelude.{◌+◌, []};
    ghost use Rattle.piece_queue.specs.Rule.{opener, reader};

    ghost left = { λ v. opener (v.next + 1) };

    ghost right = { λ v. reader v.next [] };
}

/// One pass does what the one that takes and a reader did, and then they are two again.
pub struct Both;

impl Join<Hand> for Both {
    ghost use Rattle.piece_queue.specs.Rule.{blank, united};

    ghost both = { λ v w. united v w };

    ghost spent = { blank };
}

impl Split<Hand> for Both {
    ghost use Rattle.piece_queue.specs.Rule.{reader, taker};

    ghost left = { λ v. taker v.got };

    ghost right = { λ v. reader v.chan v.sent };
}

impl Lesson<Piece, Hand> for Both {
    ghost use Rattle.piece_queue.specs.Pieces.{Agree};

    ghost fact = { λ v items. Agree v.chan v.got v.sent };
}

/// A piece is pushed.
pub struct Adds;

impl Outcome<Piece, Hand> for Adds {
    ghost use Rattle.std.specs.Prelude.{◌≡◌};
    ghost use Rattle.piece_queue.specs.Rule.{given_on};

    ghost then = { λ v x w. w ≡ given_on v x };
}

impl Lesson<Piece, Hand> for Adds {
    ghost fact = { λ v items. Unit {0} };
}

/// A piece is taken.
pub struct Takes;

impl Outcome<Piece, Hand> for Takes {
    ghost use Rattle.std.specs.Prelude.{◌≡◌};
    ghost use Rattle.piece_queue.specs.Pieces.{IsNext};
    ghost use Rattle.piece_queue.specs.Rule.{taken_on};

    ghost then = { λ v x w. (w ≡ taken_on v x) × IsNext v.got x };
}

impl Lesson<Piece, Hand> for Takes {
    ghost fact = { λ v items. Unit {0} };
}
