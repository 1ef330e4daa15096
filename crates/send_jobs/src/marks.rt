// Marks that are to be made.
ghost use Rattle.std.specs.Prelude.{◌≡◌, ◌<◌, ◌++◌, ◌∷◌, [], length, drop, slice_get, IfOk};
ghost use Rattle.std.specs.List.{list_any};
ghost use Rattle.std.specs.Option.{option_copied};
ghost use Rattle.send_jobs.specs.Lanes.{is_mark_on};

use crate::attempts::Mark;
use mail_bytes::Memory;
use queue_limits::MAX_SLOTS;
use std::alloc::Global;
use std::collections::VecDeque;
use std::marker::Model;

/// The marks that are to be made, in the order in which their reports came; contracts see their list. There is always room
/// for as many as a channel has slots.
#[derive(Drop)]
pub struct Marks {
    marks: VecDeque<Mark>,
}

impl Model for Marks {
    ghost use Rattle.std.specs.Prelude.{List, ◌≤◌};
    ghost use Rattle.std.specs.VecDeque.{deque_capacity};
    ghost use Rattle.send_jobs.specs.declared.attempts.Mark.{Mark};
    ghost use Rattle.queue_limits.specs.declared.counts.TheConstants.{MAX_SLOTS};

    ghost Value = { List Mark };

    ghost view = { λ m. m.marks.items };

    ghost invariant = { λ m. MAX_SLOTS ≤ deque_capacity m.marks };
}

impl Marks {
    /// None, with room for `MAX_SLOTS`.
    pub(crate) fn new(alloc: Global) -> Result<Self, Memory>
        ensures { IfOk result (λ marks. marks ≡ []) }
    {
        let marks = VecDeque::with_capacity(alloc, usize::from(MAX_SLOTS))?;
        Ok(Marks { marks })
    }

    /// How many there are.
    pub fn len(&self) -> usize
        ensures { result ≡ length self.now }
    {
        self.marks.len()
    }

    /// One more, after the others. The condition: there are fewer than `MAX_SLOTS`. Takes no memory.
    pub(crate) fn push(&mut self, mark: Mark)
        requires { length self.old < MAX_SLOTS }
        ensures { self.new ≡ self.old ++ mark ∷ [] }
    {
        self.marks.push_back_reserved(mark);
    }

    /// The one that is made after so many others; `None` if there is none.
    pub fn get(&self, ahead: usize) -> Option<&Mark>
        ensures { option_copied result ≡ slice_get self.now ahead }
    {
        self.marks.get(ahead)
    }

    /// The first is over.
    pub(crate) fn drop_first(&mut self)
        ensures { self.new ≡ drop 1 self.old }
    {
        self.marks.pop_front();
    }

    /// Whether one is of this message.
    pub(crate) fn hold(&self, n: u64) -> bool
        ensures { result ≡ list_any (is_mark_on n) self.now }
    {
        self.marks.iter().any(|mark| mark.attempt.n == n)
    }
}
