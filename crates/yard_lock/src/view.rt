// What a pass knows, and the rule of the lock's table.

use crate::turn::{Stepped, Turn};
use atomic_table::TableRule;
use std::collections::LinkedList;
use std::marker::PhantomData;
use std::snapshot::Snapshot;

/// Where a pass stands. No value of it is made.
pub enum Stage<I, O> {
    /// Between two calls.
    Idle,
    /// It was split off the pass with this number, and has taken no turn.
    New(u64),
    /// It took in the pass with this number: what each of the two had seen.
    Joined(LinkedList<Turn<I, O>>, LinkedList<Turn<I, O>>, u64),
    /// It has this ticket, counted from the first without end.
    Waits(u64),
    /// It has this ticket and the state.
    Has(u64),
}

/// What a pass knows. No value of it is made.
pub struct View<I, O> {
    /// How many parts of the whole it has; one with none is spent.
    pub parts: u64,
    /// The turns that it has seen.
    pub seen: LinkedList<Turn<I, O>>,
    /// Where it stands.
    pub stage: Stage<I, O>,
}

/// What the table is told once: the state at the start, and the number of parts.
#[derive(Drop)]
pub struct Opening<Y> {
    /// The state at the start.
    pub state: Snapshot<Y>,
    /// How many parts there are.
    pub parts: u64,
}

/// The rule of the table.
pub struct OneList<Y> {
    of: PhantomData<Y>,
}

impl<Y: Stepped> TableRule<Option<Y>, View<Y::In, Y::Out>, Opening<Y>> for OneList<Y> {
    ghost use Rattle.yard_lock.specs.Rule.{Ruled, first_view};

    ghost holds = { Ruled Y.moves };

    ghost first = { λ key. first_view key.parts };
}
