// What the program's thread and its readers hold of the shared queue.
ghost use Rattle.std.specs.Prelude.{◌≡◌, ◌≤◌, ◌+◌, ◌^◌, ◌++◌, ◌∷◌, [], true, max, IfOk, IfErr, IfSome, IfNone, OnErr};
ghost use Rattle.std.specs.Arc.{arc_value};
ghost use Rattle.crossbeam_queue.specs.Passes.{view, IsPassOf, ruled_capacity};
ghost use Rattle.piece_queue.specs.Pieces.{Agree, HasLast, IsNext};
ghost use Rattle.piece_queue.specs.Readings.{HasPushed};
ghost use Rattle.piece_queue.specs.Rule.{FailsAtOnce, opener, reader, taker};

use mail_bytes::Memory;
use piece_queue::{Inflow, Piece, PieceQueue, QueuePass, read_channel};
use std::alloc::Global;
use std::sync::{Arc, Wait};

/// The queue of the pieces of all channels, shared with the readers.
pub type Shared = Arc<PieceQueue, Global>;

/// What opens channels, one after another.
#[derive(Drop)]
pub struct Opener {
    queue: Shared,
    pass: QueuePass,
    pub(crate) next: u32,
    ghost opens: { IsPassOf (arc_value queue).line pass × (view pass ≡ opener next) },
}

/// What takes the pieces of all channels.
#[derive(Drop)]
pub struct Taker {
    pub(crate) queue: Shared,
    pub(crate) pass: QueuePass,
    ghost takes: { IsPassOf (arc_value queue).line pass × (view pass ≡ taker (view pass).got) },
}

/// What reads a channel, of which nothing was pushed yet. It can be handed to a thread, and it is used up by a reading.
#[derive(Drop)]
pub struct Reader {
    queue: Shared,
    pass: QueuePass,
    pub(crate) chan: u32,
    ghost reads: { IsPassOf (arc_value queue).line pass × (view pass ≡ reader chan []) },
}

/// What is left of a reader that has read its channel to the end: what it has pushed.
#[derive(Drop)]
pub struct Through {
    pub(crate) pass: QueuePass,
    ghost reads: { ((view pass).reads ≡ true) × (pass.me.1 ≡ []) },
}

/// A new queue with room for so many pieces, at least one: what opens its channels, and what takes from it.
pub fn share(alloc: Global, room: usize) -> Result<(Opener, Taker), Memory>
    ensures opener { IfOk result (λ ends. ends.0.next ≡ 0) }
    ensures taker { IfOk result (λ ends. (view ends.1.pass).got ≡ []) }
    ensures queue { IfOk result (λ ends. arc_value ends.1.queue ≡ arc_value ends.0.queue) }
    ensures room { IfOk result (λ ends. ruled_capacity (arc_value ends.0.queue).line ≡ max room 1) }
{
    let (queue, opening, taking) = PieceQueue::new(alloc, room.max(1))?;
    let queue = Arc::new(alloc, queue)?;
    let other = Arc::try_clone(&queue)?;
    let taker = Taker {
        queue: other,
        pass: taking,
    };
    let opener = Opener {
        queue,
        pass: opening,
        next: 0,
    };
    Ok((opener, taker))
}

impl Opener {
    /// A reader of the next channel, from 0; None if no number is left for it. After an `Err` none was opened.
    pub fn open(&mut self) -> Result<Option<Reader>, Memory>
        ensures next { IfOk result (λ opened. IfSome opened (λ r. (r.chan ≡ self.old.next) × (self.new.next ≡ self.old.next + 1))) }
        ensures none { IfOk result (λ opened. IfNone opened (2 ^ 32 ≤ self.old.next + 1)) }
        ensures err { OnErr result (self.new.next ≡ self.old.next) }
        ensures queue { IfOk result (λ opened. IfSome opened (λ r. arc_value r.queue ≡ arc_value self.old.queue)) }
        ensures kept { arc_value self.new.queue ≡ arc_value self.old.queue }
    {
        if self.next == u32::MAX {
            return Ok(None);
        }
        let queue = Arc::try_clone(&self.queue)?;
        let chan = self.next;
        let pass = self.queue.open_channel(&mut self.pass);
        self.next = chan + 1;
        Ok(Some(Reader { queue, pass, chan }))
    }

    /// The shared queue, for what rests until a piece is pushed.
    pub fn queue(&self) -> Result<Shared, Memory>
        ensures { IfOk result (λ queue. arc_value queue ≡ arc_value self.now.queue) }
    {
        Ok(Arc::try_clone(&self.queue)?)
    }
}

impl Taker {
    /// Takes the oldest piece, if there is one.
    pub fn take<R: Wait>(&mut self, rt: &R) -> Option<Piece>
        ensures some { IfSome result (λ x. (view self.new.pass).got ≡ (view self.old.pass).got ++ x ∷ []) }
        ensures next { IfSome result (IsNext (view self.old.pass).got) }
        ensures none { IfNone result ((view self.new.pass).got ≡ (view self.old.pass).got) }
        ensures queue { arc_value self.new.queue ≡ arc_value self.old.queue }
    {
        self.queue.take(rt, &mut self.pass)
    }

    /// What was taken of a reader's channel is a prefix of what it has pushed (`Agree`); for a reader that is through.
    pub fn compare(&mut self, through: Through) -> Through
        requires { (arc_value self.old.queue).line.table.shared.table_id ≡ through.pass.table_id }
        ensures agree { Agree (view through.pass).chan (view self.old.pass).got (view through.pass).sent }
        ensures kept { ((view self.new.pass).got ≡ (view self.old.pass).got) × (arc_value self.new.queue ≡ arc_value self.old.queue) }
        ensures through { ((view result.pass).chan ≡ (view through.pass).chan) × ((view result.pass).sent ≡ (view through.pass).sent) }
    {
        let Through { pass } = through;
        let pass = self.queue.compare(&mut self.pass, pass);
        Through { pass }
    }
}

impl Reader {
    /// The channel.
    pub fn chan(&self) -> u32
        ensures { result ≡ self.now.chan }
    {
        self.chan
    }

    /// Reads this input until it ends or fails, and pushes all that was read, in numbered pieces.
    pub fn read<R: Wait, I: Inflow>(self, rt: &R, input: &mut I) -> Through
        ensures pushed { HasPushed self.chan (view result.pass) (I.readings input.old) (I.readings input.new) }
        ensures over { HasLast (view result.pass).sent }
        ensures queue { result.pass.table_id ≡ self.pass.table_id }
    {
        let Reader { queue, pass, chan } = self;
        let pass = read_channel(rt, &queue, pass, chan, input);
        Through { pass }
    }

    /// Pushes that the channel failed, as its only piece. An `Err` gives the reader back: there was no room.
    pub fn fail<R: Wait>(self, rt: &R) -> Result<Through, Reader>
        ensures failed { IfOk result (λ through. FailsAtOnce self.chan true (view through.pass)) }
        ensures queue { IfOk result (λ through. through.pass.table_id ≡ self.pass.table_id) }
        ensures full { IfErr result (λ reader. reader.chan ≡ self.chan) }
    {
        let Reader {
            queue,
            mut pass,
            chan,
        } = self;
        if queue.try_fail(rt, &mut pass, chan) {
            return Ok(Through { pass });
        }
        Err(Reader { queue, pass, chan })
    }
}
