// Where bytes come from.
ghost use Rattle.std.specs.Prelude.{◌≡◌, ◌<◌, ◌↔◌, ◌||◌, ℕ, Bool, false, List, [], Option, length, min, take, flat_map, slice_index_or};
ghost use Rattle.mail_bytes.specs.Told.{Meets};
ghost use Rattle.outside.specs.Streams.{CountsFailures, FitsInto, TakesBytes, took_end, took_failed};
ghost use Rattle.outside.specs.Forms.{FailsNext, IsWithin, after_call, new_plan, rest_from};

use crate::fault_plan::FaultPlan;
use mail_bytes::ByteText;
use std::marker::Model;

/// What came of taking bytes.
#[derive(Clone, Copy, Debug, PartialEq, Eq)]
pub enum Took {
    /// So many bytes came.
    Got(usize),
    /// There are no more.
    End,
    /// They could not be read; the source has counted it.
    Failed,
}

/// Where bytes come from, as a program's standard input.
pub trait Source {
    /// The bytes that it has still to give, if it tells.
    ghost left: { Self → Option (List ℕ) };

    /// Whether it has answered that it has ended, if it tells.
    ghost ended: { Self → Option Bool };

    /// How often it has failed; the count never falls, and stands still at u64's last value.
    ghost faults: { Self → ℕ };

    /// How often it has failed.
    fn faults(&self) -> u64
        ensures { result ≡ faults self.now };

    /// Puts the next bytes at the start of `into`, as read(2): at most as many as there is room for, and at least one if
    /// there is room. After `End` none are left; `Failed` takes none.
    fn take(&mut self, into: &mut [u8]) -> Took
        ensures fits { FitsInto result (length into.old) }
        ensures told { Meets (left self.old) (left self.new) (TakesBytes result into.new) }
        ensures end { Meets (ended self.old) (ended self.new) (λ before after. after ≡ (before || took_end result)) }
        ensures cause { CountsFailures (faults self.old) (faults self.new) (result ≡ Took.Failed) };
}

/// A source in memory: pieces of bytes one after another, and then the end. A taking gives bytes of one piece alone, so
/// that a test can cut its input where it likes.
#[derive(Drop)]
pub struct MemSource {
    pieces: Vec<ByteText>,
    at: usize,
    given: usize,
    is_ended: bool,
    plan: FaultPlan,
}

impl Model for MemSource {
    ghost use Rattle.outside.specs.Forms.{SourceForm, IsWithin, rest_from};

    ghost Value = { SourceForm };

    ghost view = { λ s. record { left = rest_from s.pieces.items s.at s.given; ended = s.is_ended; plan = s.plan } };

    ghost invariant = { λ s. IsWithin s.pieces.items s.at s.given };
}

impl MemSource {
    /// A source of these pieces, whose calls with these numbers fail, counted from 1.
    pub fn new(pieces: Vec<ByteText>, failing: Vec<u64>) -> Self
        ensures { result ≡ record { left = flat_map (λ p. p) pieces.items; ended = false; plan = new_plan failing.items } }
    {
        MemSource {
            pieces,
            at: 0,
            given: 0,
            is_ended: false,
            plan: FaultPlan::new(failing),
        }
    }
}

impl Source for MemSource {
    ghost use Rattle.std.specs.Prelude.{Some};

    ghost left = { λ s. Some s.left };

    ghost ended = { λ s. Some s.ended };

    ghost faults = { λ s. s.plan.faults };

    fn faults(&self) -> u64 {
        self.plan.faults()
    }

    fn take(&mut self, into: &mut [u8]) -> Took
        ensures fits { FitsInto result (length into.old) }
        ensures told { TakesBytes result into.new self.old.left self.new.left }
        ensures end { self.new.ended ≡ (self.old.ended || took_end result) }
        ensures cause { CountsFailures self.old.plan.faults self.new.plan.faults (result ≡ Took.Failed) }
        ensures fails { (result ≡ Took.Failed) ↔ FailsNext self.old.plan }
        ensures counted { self.new.plan ≡ after_call (took_failed result) self.old.plan }
    {
        if self.plan.call_fails() {
            return Took::Failed;
        }
        let (at, given) = next_place(self.pieces.as_slice(), self.at, self.given);
        self.at = at;
        self.given = given;
        if at >= self.pieces.len() {
            self.is_ended = true;
            return Took::End;
        }
        let count = copy_prefix(&self.pieces[at].as_slice()[given..], into);
        self.given = given + count;
        Took::Got(count)
    }
}

/// Copies as many bytes to the start of `into` as there is room for, and answers how many.
pub fn copy_prefix(from: &[u8], into: &mut [u8]) -> usize
    ensures count { result ≡ min (length from.now) (length into.old) }
    ensures copied { take result into.new ≡ take result from.now }
{
    let count = from.len().min(into.len());
    into[..count].copy_from_slice(&from[..count]);
    count
}

/// The first piece from `at` on that isn't used up, and how many of its bytes are given; past the end if there is none.
/// The condition: of the piece at `at` no more are given than it has.
fn next_place(pieces: &[ByteText], mut at: usize, mut given: usize) -> (usize, usize)
    requires { IsWithin pieces.now at given }
    ensures same { rest_from pieces.now result.0 result.1 ≡ rest_from pieces.now at given }
    ensures within { IsWithin pieces.now result.0 result.1 }
    ensures more { result.0 < length pieces.now → result.1 < length (slice_index_or pieces.now result.0 []) }
{
    while at < pieces.len() && given == pieces[at].len() {
        at += 1;
        given = 0;
    }
    (at, given)
}
