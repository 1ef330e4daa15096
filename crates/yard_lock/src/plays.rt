// What each step on the table tells.
ghost use Rattle.std.specs.Prelude.{ℕ, List, []};
ghost use Rattle.yard_lock.specs.declared.turn.Turn.{Turn};
ghost use Rattle.yard_lock.specs.inside.Steps.{drew, entered, left, learned, rest_of, part_of, both_of, spent_view};

use crate::turn::Stepped;
use crate::view::View;
use atomic_table::{Join, Play, Split};
use std::marker::{Brand, PhantomData};

// The number of the pass that steps, the state at the start, and the turn that ends: for the proof alone. A call at `Brand` picks them.
pub(crate) trait Facts<Y, I, O> {
    ghost number: { ℕ };

    ghost opening: { List Y };

    ghost turns: { List (Turn I O) };
}

impl<Y, I, O> Facts<Y, I, O> for Brand {
    ghost number = { 0 };

    ghost opening = { [] };

    ghost turns = { [] };
}

pub(crate) struct Draw;

impl<Y: Stepped> Play<Option<Y>, View<Y::In, Y::Out>> for Draw {
    ghost then = { drew Y.moves };
}

pub(crate) struct Enter<N> {
    facts: PhantomData<N>,
}

impl<Y: Stepped, N: Facts<Y, Y::In, Y::Out>> Play<Option<Y>, View<Y::In, Y::Out>> for Enter<N> {
    ghost then = { entered Y.moves N.opening N.number };
}

pub(crate) struct Leave<N> {
    facts: PhantomData<N>,
}

impl<Y: Stepped, N: Facts<Y, Y::In, Y::Out>> Play<Option<Y>, View<Y::In, Y::Out>> for Leave<N> {
    ghost then = { left Y.moves N.turns };
}

pub(crate) struct Learn<N> {
    facts: PhantomData<N>,
}

impl<Y: Stepped, N: Facts<Y, Y::In, Y::Out>> Play<Option<Y>, View<Y::In, Y::Out>> for Learn<N> {
    ghost then = { learned Y.moves N.number };
}

// How many parts are split off, and the number of the pass that gives them: for the proof alone.
pub(crate) trait Portion {
    ghost parts: { ℕ };

    ghost parent: { ℕ };
}

impl Portion for Brand {
    ghost parts = { 0 };

    ghost parent = { 0 };
}

pub(crate) struct Divide<N> {
    portion: PhantomData<N>,
}

impl<I, O, N: Portion> Split<View<I, O>> for Divide<N> {
    ghost left = { rest_of N.parts };

    ghost right = { part_of N.parent N.parts };
}

// The number of the pass that is taken in, and what it has seen: for the proof alone.
pub(crate) trait Partner<I, O> {
    ghost other: { ℕ };

    ghost seen: { List (Turn I O) };
}

impl<I, O> Partner<I, O> for Brand {
    ghost other = { 0 };

    ghost seen = { [] };
}

pub(crate) struct Unite<N> {
    partner: PhantomData<N>,
}

impl<I, O, N: Partner<I, O>> Join<View<I, O>> for Unite<N> {
    ghost both = { both_of N.other };

    ghost spent = { spent_view N.seen };
}
