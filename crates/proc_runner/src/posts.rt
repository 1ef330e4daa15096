// The posts of the channels.
ghost use Rattle.std.specs.Prelude.{◌≡◌, ◌<◌, ◌≤◌, None, length};
ghost use Rattle.std.specs.Arc.{arc_value};
ghost use Rattle.crossbeam_queue.specs.Passes.{view};
ghost use Rattle.outside.specs.Children.{FillsFront, IsFailedPost};
ghost use Rattle.outside.specs.Streams.{CountsFailures};
ghost use Rattle.piece_queue.specs.Pieces.{Agree};
ghost use Rattle.proc_runner.specs.Posted.{IsGiven, IsPostOf, got_by};

use crate::shared::{Taker, Through};
use outside::{Post, Posts};
use piece_queue::{Brought, Piece, ROOM};
use std::marker::Model;
use std::sync::Wait;

/// The rest of a piece: which one, and from where on it wasn't given yet.
#[derive(Clone, Copy)]
struct Rest {
    piece: Piece,
    from: usize,
    count: usize,
}

/// The posts of the program's own input and of its children, out of the shared queue. It tells nothing of what is waiting. A
/// call never waits.
#[derive(Drop)]
pub struct ChildPosts<R: Wait + Drop> {
    rt: R,
    taker: Taker,
    rest: Option<Rest>,
    cuts: u64,
    faults: u64,
}

impl<R: Wait + Drop> Model for ChildPosts<R> {
    ghost use Rattle.std.specs.Arc.{arc_value};
    ghost use Rattle.std.specs.Option.{option_map};
    ghost use Rattle.proc_runner.specs.Posted.{HasRest, PostState, got_by, left_of};

    ghost Value = { PostState };

    ghost view = { λ p. record {
      queue = arc_value p.taker.queue;
      got = got_by p.taker.pass;
      left = option_map left_of p.rest;
      cuts = p.cuts;
      faults = p.faults;
    } };

    ghost invariant = { λ p. HasRest p.rest };
}

impl<R: Wait + Drop> ChildPosts<R> {
    /// The posts of what this takes.
    pub fn new(rt: R, taker: Taker) -> Self
        ensures queue { result.queue ≡ arc_value taker.queue }
        ensures got { result.got ≡ got_by taker.pass }
        ensures left { result.left ≡ None }
        ensures cuts { result.cuts ≡ 0 }
        ensures faults { result.faults ≡ 0 }
    {
        ChildPosts {
            rt,
            taker,
            rest: None,
            cuts: 0,
            faults: 0,
        }
    }

    /// Of how many channels the end was told though they were cut off, since more came than may come; it stands still at u64's
    /// last value. The status of such a child is that of a signal.
    pub fn cuts(&self) -> u64
        ensures { result ≡ self.now.cuts }
    {
        self.cuts
    }

    /// What was taken of a channel is a prefix of what its reader has pushed, and all of it once its last piece was taken
    /// (`Agree`); for a reader that is through. The condition: it reads of the same queue. All stays as it is, and what is left
    /// of the reader is given back.
    pub fn compare(&mut self, through: Through) -> Through
        requires { self.old.queue.line.table.shared.table_id ≡ through.pass.table_id }
        ensures agree { Agree (view through.pass).chan self.old.got (view through.pass).sent }
        ensures same { self.new ≡ self.old }
        ensures through { ((view result.pass).chan ≡ (view through.pass).chan) × ((view result.pass).sent ≡ (view through.pass).sent) }
    {
        self.taker.compare(through)
    }
}

impl<R: Wait + Drop> Posts for ChildPosts<R> {
    ghost use Rattle.std.specs.Prelude.{None};

    ghost waiting = { λ _. None };

    ghost calls = { λ _. None };

    ghost faults = { λ p. p.faults };

    fn faults(&self) -> u64 {
        self.faults
    }

    fn next(&mut self, into: &mut [u8]) -> Post
        requires { 0 < length into.old }
        ensures fits { FillsFront result (length into.old) }
        ensures post { IsPostOf result into.new self.old self.new }
        ensures queue { self.new.queue ≡ self.old.queue }
        ensures cause { CountsFailures self.old.faults self.new.faults (IsFailedPost result) }
    {
        if let Some(rest) = self.rest {
            return self.give(rest.piece, rest.from, rest.count, into);
        }
        let Some(piece) = self.taker.take(&self.rt) else {
            return Post::Turn;
        };
        match piece.brought {
            Brought::Bytes(count) => self.give(piece, 0, count, into),
            Brought::End => Post::End { chan: piece.chan },
            Brought::Cut => {
                self.cuts = self.cuts.saturating_add(1);
                Post::End { chan: piece.chan }
            }
            Brought::Failed => {
                self.faults = self.faults.saturating_add(1);
                Post::Failed { chan: piece.chan }
            }
        }
    }
}

impl<R: Wait + Drop> ChildPosts<R> {
    /// Gives of a piece's bytes, from here on, as many as there is room for, and keeps the rest of it. The conditions: there
    /// is room, and some bytes are left.
    fn give(&mut self, piece: Piece, from: usize, count: usize, into: &mut [u8]) -> Post
        requires room { 0 < length into.old }
        requires within { (from < count) × (count ≤ ROOM) }
        ensures given { IsGiven piece from count result into.new self.new.left }
        ensures fits { FillsFront result (length into.old) }
        ensures same { (self.new.got ≡ self.old.got) × (self.new.cuts ≡ self.old.cuts) × (self.new.faults ≡ self.old.faults) × (self.new.queue ≡ self.old.queue) }
    {
        let len = into.len().min(count - from);
        into[..len].copy_from_slice(&piece.bytes[from..from + len]);
        self.rest = if from + len < count {
            Some(Rest {
                piece,
                from: from + len,
                count,
            })
        } else {
            None
        };
        Post::Bytes {
            chan: piece.chan,
            len,
        }
    }
}
