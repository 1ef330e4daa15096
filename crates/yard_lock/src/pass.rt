// What a thread takes its turns with.

use crate::turn::Stepped;
use crate::view::View;
use atomic_table::Seat;
use std::marker::Model;

/// A pass of a yard, by what is stepped, what is asked and what is answered. It has no bytes. Contracts see it as a `Held`: of which
/// yard it is, its number, its parts, and the turns that it has seen.
#[derive(Drop)]
pub struct PassOf<Y, I, O> {
    pub(crate) seat: Seat<Option<Y>, View<I, O>>,
}

impl<Y, I, O> Model for PassOf<Y, I, O> {
    ghost use Rattle.yard_lock.specs.Model.{Held};
    ghost use Rattle.yard_lock.specs.inside.Model.{held_of, Resting};

    ghost Value = { Held I O };

    ghost view = { λ p. held_of p.seat };

    ghost invariant = { λ p. Resting p.seat.me };
}

/// A pass of a yard with such a state.
pub type Pass<Y> = PassOf<Y, <Y as Stepped>::In, <Y as Stepped>::Out>;
