// The yard: a lock, and the passes of those who use it.
ghost use Rattle.std.specs.Prelude.{◌≡◌, ◌≢◌, ◌+◌, ◌-◌, ◌<◌, [], IsOk, IfOk};
ghost use Rattle.yard_lock.specs.Turns.{turn, turns_of, IsPrefix, Replay, Took, longer};
ghost use Rattle.yard_lock.specs.Model.{Held, held};
ghost use Rattle.yard_lock.specs.Rule.{Ended};

use crate::pass::{Pass, PassOf};
use crate::ticket_lock::TicketLock;
use crate::turn::Stepped;
use mail_bytes::Memory;
use std::alloc::Global;
use std::marker::Model;
use std::sync::Wait;

/// A state that threads step in turn. Contracts see it as an `Open`: which yard it is, the state at the start and the number of parts.
#[derive(Drop)]
pub struct Yard<Y: Stepped> {
    lock: TicketLock<Y>,
}

impl<Y: Stepped> Model for Yard<Y> {
    ghost use Rattle.yard_lock.specs.Model.{Open};
    ghost use Rattle.yard_lock.specs.inside.Model.{open_of};

    ghost Value = { Open Y };

    ghost view = { λ y. open_of y.lock.table.shared.table_id y.lock.table.shared.key };
}

impl<Y: Stepped> Yard<Y> {
    /// A yard with this state, and its pass, which has all parts and has seen no turn. The condition: there is a part. The error: out
    /// of memory; then the state is dropped.
    pub fn new(alloc: Global, state: Y, parts: u64) -> Result<(Yard<Y>, Pass<Y>), Memory>
    where
        Y: Drop,
        requires { 0 < parts }
        ensures yard { IfOk result (λ r. (r.0.start ≡ state) × (r.0.parts ≡ parts)) }
        ensures pass { IfOk result (λ r. r.1 ≡ held r.0.id 0 parts []) }
    {
        let (lock, seat) = TicketLock::new(alloc, state, parts)?;
        Ok((Yard { lock }, PassOf { seat }))
    }

    /// Waits for its turn, and steps the state. The turn is the last that the pass has seen and the only new one of its own, and all
    /// that it has seen leads from the start to some state. After `Memory` the state is as before, and the turn is in the list. The
    /// condition: the pass is of this yard.
    pub fn step<R: Wait>(
        &self,
        rt: &R,
        alloc: Global,
        pass: &mut Pass<Y>,
        input: Y::In,
    ) -> Result<Y::Out, Memory>
        requires { pass.old.yard ≡ self.now.id }
        ensures pass { pass.new ≡ record pass.old { seen = pass.new.seen } }
        ensures took { Took Y.moves self.now.start pass.old.number (turn pass.old.number input result) pass.old.seen pass.new.seen }
    {
        self.lock.step(rt, alloc, &mut pass.seat, input)
    }

    /// The state after all turns of all passes. They are those that this pass has seen, which lead to it from the start, and each other
    /// pass is spent. The condition: the pass is of this yard and has all parts.
    pub fn close(self, pass: Pass<Y>) -> Y
        requires { (pass.yard ≡ self.id) × (pass.parts ≡ self.parts) }
        ensures replay { Replay Y.moves self.start pass.seen result }
        ensures all { Ended Y.moves self.start self.parts pass.number pass.seen result }
    {
        let Yard { lock } = self;
        let PassOf { seat } = pass;
        lock.close(seat)
    }
}

impl<Y, I, O> PassOf<Y, I, O> {
    /// Gives some of its parts to a new pass, which has seen as much, and has no turns of its own. Its number is above this one's. It
    /// always succeeds. The conditions: the pass is of this yard, and has more parts.
    pub fn split(&mut self, yard: &Yard<Y>, parts: u64) -> Result<Pass<Y>, Memory>
    where
        Y: Stepped<In = I, Out = O>,
        requires yard { self.old.yard ≡ yard.now.id }
        requires some { (0 < parts) × (parts < self.old.parts) }
        ensures kept { self.new ≡ record self.old { parts = self.old.parts - parts } }
        ensures ok { IsOk result }
        ensures given { IfOk result (λ new. new ≡ held self.old.yard new.number parts self.old.seen) }
        ensures fresh { IfOk result (λ new. turns_of new.number self.old.seen ≡ []) }
        ensures above { IfOk result (λ new. self.old.number < new.number) }
    {
        let seat = yard.lock.split(&mut self.seat, parts);
        Ok(PassOf { seat })
    }

    /// Takes in another pass, with its parts. It has then seen the longer of what the two had seen, and each of these is a prefix of
    /// that, with the same turns of its own. The conditions: both passes are of this yard.
    pub fn join(&mut self, yard: &Yard<Y>, other: Pass<Y>)
    where
        Y: Stepped<In = I, Out = O>,
        requires { (self.old.yard ≡ yard.now.id) × (other.yard ≡ yard.now.id) }
        ensures pass { self.new ≡ held self.old.yard self.old.number (self.old.parts + other.parts) (longer self.old.seen other.seen) }
        ensures this { IsPrefix self.old.seen self.new.seen }
        ensures that { IsPrefix other.seen self.new.seen }
        ensures own { turns_of self.old.number self.new.seen ≡ turns_of self.old.number self.old.seen }
        ensures others { turns_of other.number self.new.seen ≡ turns_of other.number other.seen }
        ensures apart { other.number ≢ self.old.number }
    {
        let PassOf { seat } = other;
        yard.lock.join(&mut self.seat, seat);
    }
}
