// What a child is fed, and the rule of the queue that holds it.

use crossbeam_queue::protocol::{Join, Lesson, Outcome, Protocol, Split};
use std::collections::LinkedList;

/// What a child is fed.
#[derive(Drop)]
pub enum Fed {
    /// These bytes.
    Text(Vec<u8>),
    /// The end of its input.
    End,
}

/// What a pass of the queue shows. No value of it is made.
pub struct Feed {
    /// It may feed.
    pub feeds: bool,
    /// It may write.
    pub writes: bool,
    /// What it has fed, in order.
    pub fed: LinkedList<Fed>,
    /// What it has taken to be written, in order.
    pub taken: LinkedList<Fed>,
}

/// What a writer has done.
#[derive(Clone, Copy)]
pub(crate) enum Step {
    /// It has written a text.
    Wrote,
    /// A text couldn't be written, or not all of it.
    Broke,
    /// The input was ended, and all is written.
    Over,
    /// There is nothing to do yet.
    Nothing,
}

/// The rule: what is fed is taken in its order, each once.
pub struct InTurn;

impl Protocol<Fed, Feed> for InTurn {
    ghost use Rattle.child_input.specs.Feedings.{KeepsTurn, both};
    ghost use Rattle.std.specs.Prelude.{[]};

    ghost holds = { KeepsTurn };

    ghost first = { both [] [] };
}

/// One pass feeds, and one writes; or one does both.
pub struct Ends;

impl Split<Feed> for Ends {
    ghost use Rattle.child_input.specs.Feedings.{feeder, writer};

    ghost left = { λ v. feeder v.fed };

    ghost right = { λ v. writer v.taken };
}

impl Join<Feed> for Ends {
    ghost use Rattle.child_input.specs.Feedings.{both, idle};

    ghost both = { λ v w. both v.fed w.taken };

    ghost spent = { idle };
}

impl Lesson<Fed, Feed> for Ends {
    ghost use Rattle.std.specs.Prelude.{◌≡◌, ◌++◌};

    ghost fact = { λ v items. v.fed ≡ v.taken ++ items };
}

/// Something is fed.
pub struct Feeds;

impl Outcome<Fed, Feed> for Feeds {
    ghost use Rattle.std.specs.Prelude.{◌≡◌};
    ghost use Rattle.child_input.specs.Feedings.{fed_on};

    ghost then = { λ v x w. w ≡ fed_on v x };
}

/// The oldest is taken.
pub struct Takes;

impl Outcome<Fed, Feed> for Takes {
    ghost use Rattle.std.specs.Prelude.{◌≡◌};
    ghost use Rattle.child_input.specs.Feedings.{taken_on};

    ghost then = { λ v x w. w ≡ taken_on v x };
}

impl Lesson<Fed, Feed> for Takes {
    ghost fact = { λ v items. Unit {0} };
}
