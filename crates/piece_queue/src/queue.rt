// The queue, and what is done with it.
ghost use Rattle.std.specs.Prelude.{◌≡◌, ◌<◌, ◌+◌, ◌%◌, ◌^◌, [], true, IfOk, IfErr, IfSome, IfNone};
ghost use Rattle.crossbeam_queue.specs.Passes.{view, IsPassOf, ruled_capacity};
ghost use Rattle.piece_queue.specs.Pieces.{Agree, IsNext};
ghost use Rattle.piece_queue.specs.Rule.{FailsAtOnce, Follows, given_on, opener, reader, taken_on, taker};

use crate::hand::Hand;
use crate::piece::{Brought, Piece, ROOM};
use crate::rule::{Adds, Both, InOrder, Opens, Roles, Takes};
use crossbeam_queue::{Pass, RuledArrayQueue};
use mail_bytes::Memory;
use std::alloc::Global;
use std::sync::Wait;
use std::sync::atomic::{AtomicU64, Ordering};
use std::time::Duration;

/// What a reader, or the program, holds of the queue. It has no bytes.
pub type QueuePass = Pass<Piece, Hand>;

type Line = RuledArrayQueue<Piece, Hand, InOrder>;

/// The queue of the pieces of all channels, two counts on which those sleep who wait for it, and whether something else came that is
/// to be looked at: 1 if so.
#[derive(Drop)]
pub struct PieceQueue {
    line: Line,
    pushed: AtomicU64,
    taken: AtomicU64,
    nudged: AtomicU64,
}

impl PieceQueue {
    /// A queue with room for so many pieces, the pass that opens channels, and the pass that takes. The condition: there is
    /// room for one. The error: out of memory.
    pub fn new(alloc: Global, room: usize) -> Result<(PieceQueue, QueuePass, QueuePass), Memory>
        requires { 0 < room }
        ensures room { IfOk result (λ q. ruled_capacity q.0.line ≡ room) }
        ensures opener { IfOk result (λ q. IsPassOf q.0.line q.1 × (view q.1 ≡ opener 0)) }
        ensures taker { IfOk result (λ q. IsPassOf q.0.line q.2 × (view q.2 ≡ taker [])) }
    {
        let (line, mut opener) = Line::ruled(alloc, room)?;
        let taker = line.another::<Roles>(&mut opener);
        let queue = PieceQueue {
            line,
            pushed: AtomicU64::new(0),
            taken: AtomicU64::new(0),
            nudged: AtomicU64::new(0),
        };
        Ok((queue, opener, taker))
    }

    /// The pass of the reader of a new channel. The channels are 0, 1, 2 and so on.
    pub fn open_channel(&self, pass: &mut QueuePass) -> QueuePass
        requires { IsPassOf self.now.line pass.old × ((view pass.old).opens ≡ true) }
        ensures pass { IsPassOf self.now.line pass.new × (view pass.new ≡ opener ((view pass.old).next + 1)) }
        ensures reader { IsPassOf self.now.line result × (view result ≡ reader (view pass.old).next []) }
    {
        self.line.another::<Opens>(pass)
    }

    /// Pushes a piece of the channel that this pass reads, if there is room; else gives it back. The conditions: it has the
    /// number of the pieces pushed before it, none of these was the last, and it has some bytes, which fit, if it has any.
    pub fn try_push<R: Wait>(&self, rt: &R, pass: &mut QueuePass, piece: Piece) -> Result<(), Piece>
        requires pass { IsPassOf self.now.line pass.old × ((view pass.old).reads ≡ true) }
        requires piece { Follows (view pass.old) piece }
        ensures pass { IsPassOf self.now.line pass.new }
        ensures ok { IfOk result (λ _. view pass.new ≡ given_on (view pass.old) piece) }
        ensures full { IfErr result (λ back. (back ≡ piece) × (view pass.new ≡ view pass.old)) }
    {
        match self.line.push_as::<Adds, R>(rt, pass, piece) {
            Ok(()) => {
                self.pushed.fetch_add(1, Ordering::SeqCst);
                self.pushed.wake_all();
                Ok(())
            }
            Err(back) => Err(back),
        }
    }

    /// Pushes a piece, as `try_push`, and sleeps as long as there is no room.
    pub fn push<R: Wait>(&self, rt: &R, pass: &mut QueuePass, piece: Piece)
        requires pass { IsPassOf self.now.line pass.old × ((view pass.old).reads ≡ true) }
        requires piece { Follows (view pass.old) piece }
        ensures pass { IsPassOf self.now.line pass.new }
        ensures pushed { view pass.new ≡ given_on (view pass.old) piece }
    {
        let mut left = piece;
        for _ in rt.forever() {
            let seen = self.taken.load(Ordering::SeqCst);
            match self.try_push(rt, pass, left) {
                Ok(()) => return,
                Err(back) => left = back,
            }
            self.taken.park(rt, low_half(seen));
        }
        unreachable!()
    }

    /// Pushes that this channel failed, in place of a reader that couldn't be started: its only piece. Answers whether there
    /// was room; if not, nothing changed.
    pub fn try_fail<R: Wait>(&self, rt: &R, pass: &mut QueuePass, chan: u32) -> bool
        requires { IsPassOf self.now.line pass.old × (view pass.old ≡ reader chan []) }
        ensures pass { IsPassOf self.now.line pass.new }
        ensures failed { FailsAtOnce chan result (view pass.new) }
    {
        let piece = Piece {
            chan,
            number: 0,
            brought: Brought::Failed,
            bytes: [0; ROOM],
        };
        match self.try_push(rt, pass, piece) {
            Ok(()) => true,
            Err(_) => false,
        }
    }

    /// Takes the oldest piece, if there is one. Of its channel it is the next one, and none before it was the last.
    pub fn take<R: Wait>(&self, rt: &R, pass: &mut QueuePass) -> Option<Piece>
        requires { IsPassOf self.now.line pass.old × ((view pass.old).takes ≡ true) }
        ensures pass { IsPassOf self.now.line pass.new }
        ensures some { IfSome result (λ x. view pass.new ≡ taken_on (view pass.old) x) }
        ensures next { IfSome result (IsNext (view pass.old).got) }
        ensures none { IfNone result (view pass.new ≡ view pass.old) }
    {
        match self.line.pop_as::<Takes, R>(rt, pass) {
            Some(piece) => {
                self.taken.fetch_add(1, Ordering::SeqCst);
                self.taken.wake_all();
                Some(piece)
            }
            None => None,
        }
    }

    /// What was taken of a channel is a prefix of what its reader has pushed, and all of that once its last piece was
    /// taken. Both passes stay as they are; the reader's is given back.
    pub fn compare(&self, pass: &mut QueuePass, other: QueuePass) -> QueuePass
        requires taker { IsPassOf self.now.line pass.old × ((view pass.old).takes ≡ true) }
        requires reader { IsPassOf self.now.line other × ((view other).reads ≡ true) }
        ensures taker { IsPassOf self.now.line pass.new × (view pass.new ≡ taker (view pass.old).got) }
        ensures reader { IsPassOf self.now.line result × (view result ≡ reader (view other).chan (view other).sent) }
        ensures agree { Agree (view other).chan (view pass.old).got (view other).sent }
    {
        self.line.absorb::<Both>(pass, other);
        self.line.learn_as::<Both>(pass);
        self.line.another::<Both>(pass)
    }

    /// Sleeps until a piece is there, at most so long. It may also return for no reason, as after a piece that was taken before
    /// its reader had counted it.
    pub fn rest<R: Wait>(&self, rt: &R, most: Duration) {
        let seen = self.pushed.load(Ordering::SeqCst);
        if seen <= self.taken.load(Ordering::SeqCst) {
            self.pushed.park_timeout(rt, low_half(seen), most);
        }
    }

    /// Sleeps until a piece is there, or somebody nudges, at most so long; not at all after a nudge for which nobody slept so since.
    /// It may also return for no reason.
    pub fn rest_for_news<R: Wait>(&self, rt: &R, most: Duration) {
        let seen = self.pushed.load(Ordering::SeqCst);
        let is_nudged = self.nudged.swap(0, Ordering::SeqCst) > 0;
        if !is_nudged && seen <= self.taken.load(Ordering::SeqCst) {
            self.pushed.park_timeout(rt, low_half(seen), most);
            self.nudged.store(0, Ordering::SeqCst);
        }
    }

    /// Wakes who sleeps here, as a piece does that is taken at once.
    pub fn nudge(&self) {
        self.nudged.store(1, Ordering::SeqCst);
        self.taken.fetch_add(1, Ordering::SeqCst);
        self.pushed.fetch_add(1, Ordering::SeqCst);
        self.pushed.wake_all();
    }
}

/// The low 32 bits of a count.
fn low_half(count: u64) -> u32
    ensures { result ≡ count % 2 ^ 32 }
{
    (count % (1 << 32)) as u32
}
