// The steps of the lock. Word 0 is the next ticket, and word 1 the ticket that is served. The one slot holds the state.
ghost use Rattle.std.specs.Prelude.{◌≡◌, ◌≢◌, ℕ, ◌+◌, ◌%◌, ◌^◌, ◌-◌, ◌<◌, [], ◌∷◌, ◌++◌, true, false, Some, IfOk};
ghost use Rattle.yard_lock.specs.declared.view.Stage.TheVariants.{Idle, Waits, Has};
ghost use Rattle.yard_lock.specs.Turns.{turn, turns_of, IsPrefix, Replay, Took, longer};
ghost use Rattle.yard_lock.specs.Rule.{view, ticket_count, Ended};
ghost use Rattle.yard_lock.specs.inside.Steps.{Inside, Rests, rest_of, part_of, both_of, Learns};

use crate::plays::{Divide, Draw, Enter, Facts, Learn, Leave, Partner, Portion, Unite};
use crate::turn::Stepped;
use crate::view::{OneList, Opening, View};
use atomic_table::{Seat, Table};
use mail_bytes::Memory;
use std::alloc::{AllocError, Global};
use std::hint::spin_loop;
use std::marker::Brand;
use std::snapshot::Snapshot;
use std::sync::Wait;

/// How often a thread looks for its turn before it sleeps.
const LOOKS: u32 = 300;

/// The lock, with the state in it.
#[derive(Drop)]
pub(crate) struct TicketLock<Y: Stepped> {
    table: Table<Option<Y>, View<Y::In, Y::Out>, Opening<Y>, OneList<Y>, Global>,
    ghost sized: { (table.shared.table_id.words ≡ 2) × (table.shared.table_id.slots ≡ 1) },
}

/// A seat at the table of such a lock.
pub(crate) type Place<Y> = Seat<Option<Y>, View<<Y as Stepped>::In, <Y as Stepped>::Out>>;

impl<Y: Stepped> TicketLock<Y> {
    /// The lock with this state in it, and a pass with all parts. Out of memory, the state is dropped.
    pub(crate) fn new(
        alloc: Global,
        state: Y,
        parts: u64,
    ) -> Result<(TicketLock<Y>, Place<Y>), Memory>
    where
        Y: Drop,
        requires { 0 < parts }
        ensures lock { IfOk result (λ r. (r.0.table.shared.key.state.value ≡ state) × (r.0.table.shared.key.parts ≡ parts)
            × (r.1.table_id ≡ r.0.table.shared.table_id) × (r.1.id ≡ 0)) }
        ensures pass { IfOk result (λ r. Rests Y.moves parts r.1.me × (r.1.me.0.seen ≡ [])) }
    {
        let about = Opening {
            state: Snapshot::of(&state),
            parts,
        };
        let mut slots = Vec::new(alloc);
        let Ok(()) = slots.push(Some(state)) else {
            return Err(AllocError);
        };
        match Table::new(alloc, &[0, 0], slots, &about) {
            Ok((table, pass)) => Ok((TicketLock { table }, pass)),
            Err(_) => Err(AllocError),
        }
    }

    /// Waits for its turn, and steps the state.
    pub(crate) fn step<R: Wait>(
        &self,
        rt: &R,
        alloc: Global,
        pass: &mut Place<Y>,
        input: Y::In,
    ) -> Result<Y::Out, Memory>
        requires own { pass.old.table_id ≡ self.now.table.shared.table_id }
        requires rests { Rests Y.moves pass.old.me.0.parts pass.old.me }
        ensures same { (pass.new.table_id ≡ pass.old.table_id) × (pass.new.id ≡ pass.old.id) }
        ensures rests { Rests Y.moves pass.old.me.0.parts pass.new.me }
        ensures took { Took Y.moves self.now.table.shared.key.state.value pass.old.id (turn pass.old.id input result)
            pass.old.me.0.seen pass.new.me.0.seen }
    {
        let ticket = self.enter::<Brand, R>(rt, pass);
        let out = self.table.shared.exchange(pass, 0, None);
        let Some(mut state) = out else { unreachable!() };
        let asked = Snapshot::of(&input);
        let answer = state.apply(alloc, input);
        let empty = self.table.shared.exchange(pass, 0, Some(state));
        let None = empty else { unreachable!() };
        self.leave::<Brand>(pass, ticket, &asked, &answer);
        answer
    }

    /// Draws a ticket and waits until it is served. Then the pass has the state.
    fn enter<N: Facts<Y, Y::In, Y::Out>, R: Wait>(&self, rt: &R, pass: &mut Place<Y>) -> u64
        requires own { pass.old.table_id ≡ self.now.table.shared.table_id }
        requires idle { (pass.old.me.1 ≡ []) × (pass.old.me.0.stage ≡ Idle) × (0 < pass.old.me.0.parts) }
        requires facts { (N.number ≡ pass.old.id) × (N.opening ≡ self.now.table.shared.key.state.value ∷ []) }
        ensures same { (pass.new.table_id ≡ pass.old.table_id) × (pass.new.id ≡ pass.old.id) }
        ensures has { (t : ℕ) × (result ≡ t % 2 ^ 64) × Inside Y.moves N.opening N.number pass.old.me t pass.new.me }
    {
        let ticket = self.draw(pass);
        for _ in rt.forever() {
            if self.look::<N>(pass, ticket) {
                return ticket;
            }
            self.sleep(rt, ticket);
        }
        unreachable!()
    }

    /// Draws the next ticket.
    fn draw(&self, pass: &mut Place<Y>) -> u64
        requires own { pass.old.table_id ≡ self.now.table.shared.table_id }
        requires idle { (pass.old.me.0.stage ≡ Idle) × (0 < pass.old.me.0.parts) }
        ensures same { (pass.new.table_id ≡ pass.old.table_id) × (pass.new.id ≡ pass.old.id) }
        ensures drew { (t : ℕ) × (result ≡ t % 2 ^ 64) × (pass.new.me.0 ≡ view pass.old.me.0.parts pass.old.me.0.seen (Waits t))
            × (pass.new.me.1 ≡ pass.old.me.1) }
    {
        self.table.shared.fetch_add::<Draw>(pass, 0, 1)
    }

    /// Looks for a while whether its ticket is served. If it is, the pass has the state.
    fn look<N: Facts<Y, Y::In, Y::Out>>(&self, pass: &mut Place<Y>, ticket: u64) -> bool
        requires own { pass.old.table_id ≡ self.now.table.shared.table_id }
        requires waits { (t : ℕ) × (ticket ≡ t % 2 ^ 64) × (pass.old.me.0.stage ≡ Waits t) }
        requires live { 0 < pass.old.me.0.parts }
        requires facts { (N.number ≡ pass.old.id) × (N.opening ≡ self.now.table.shared.key.state.value ∷ []) }
        ensures same { (pass.new.table_id ≡ pass.old.table_id) × (pass.new.id ≡ pass.old.id) }
        ensures has { result ≡ true → (t : ℕ) × (ticket ≡ t % 2 ^ 64)
            × Inside Y.moves N.opening N.number pass.old.me t pass.new.me }
        ensures waits { result ≡ false → pass.new.me ≡ pass.old.me }
    {
        for _ in 0..LOOKS {
            if self.table.shared.load::<Enter<N>>(pass, 1) == ticket {
                return true;
            }
            spin_loop();
        }
        false
    }

    /// Sleeps until a turn ends, unless this ticket is served. It may also return for no reason.
    fn sleep<R: Wait>(&self, rt: &R, ticket: u64) {
        let served = self.table.shared.peek(1);
        if served != ticket {
            self.table.shared.park(rt, 1, low_half(served));
        }
    }

    /// Ends its turn. The state is home again.
    fn leave<N: Facts<Y, Y::In, Y::Out>>(
        &self,
        pass: &mut Place<Y>,
        ticket: u64,
        asked: &Snapshot<Y::In>,
        answer: &Result<Y::Out, Memory>,
    )
        requires own { pass.old.table_id ≡ self.now.table.shared.table_id }
        requires has { (t : ℕ) × (y : Y) × (ticket ≡ t % 2 ^ 64) × (pass.old.me.1 ≡ (0, Some y) ∷ [])
            × (pass.old.me.0.stage ≡ Has t) × (0 < pass.old.me.0.parts)
            × Replay Y.moves self.now.table.shared.key.state.value (pass.old.me.0.seen ++ turn pass.old.id asked.now.value answer.now ∷ []) y }
        requires facts { N.turns ≡ turn pass.old.id asked.now.value answer.now ∷ [] }
        ensures same { (pass.new.table_id ≡ pass.old.table_id) × (pass.new.id ≡ pass.old.id) }
        ensures left { (pass.new.me.0 ≡ view pass.old.me.0.parts
            (pass.old.me.0.seen ++ turn pass.old.id asked.now.value answer.now ∷ []) Idle) × (pass.new.me.1 ≡ []) }
        ensures replays { (now : Y) × Replay Y.moves self.now.table.shared.key.state.value pass.new.me.0.seen now }
    {
        let _ = asked;
        let _ = answer;
        self.table
            .shared
            .store::<Leave<N>>(pass, 1, ticket.wrapping_add(1));
        self.wake(ticket.wrapping_add(1));
    }

    /// Wakes all that sleep, if a ticket is out. The one whose turn comes may not be the one that has slept longest, and to wake only
    /// another would leave it asleep.
    fn wake(&self, served: u64) {
        if self.table.shared.peek(0) != served {
            self.table.shared.wake_all(1);
        }
    }

    /// Gives some of the pass's parts to a new one, which begins with what was seen and no turns of its own.
    pub(crate) fn split(&self, pass: &mut Place<Y>, parts: u64) -> Place<Y>
        requires own { pass.old.table_id ≡ self.now.table.shared.table_id }
        requires rests { Rests Y.moves pass.old.me.0.parts pass.old.me }
        requires some { (0 < parts) × (parts < pass.old.me.0.parts) }
        ensures same { (pass.new.table_id ≡ pass.old.table_id) × (pass.new.id ≡ pass.old.id) }
        ensures kept { Rests Y.moves (pass.old.me.0.parts - parts) pass.new.me × (pass.new.me.0.seen ≡ pass.old.me.0.seen) }
        ensures given { (result.table_id ≡ pass.old.table_id) × Rests Y.moves parts result.me
            × (result.me.0.seen ≡ pass.old.me.0.seen) }
        ensures fresh { (turns_of result.id result.me.0.seen ≡ []) × (pass.old.id < result.id) }
    {
        let mut new = self.divide::<Brand>(pass, parts);
        self.learn::<Brand>(&mut new);
        new
    }

    /// The table's own split.
    fn divide<N: Portion>(&self, pass: &mut Place<Y>, parts: u64) -> Place<Y>
        requires own { pass.old.table_id ≡ self.now.table.shared.table_id }
        requires rests { Rests Y.moves pass.old.me.0.parts pass.old.me }
        requires some { (N.parts ≡ parts) × (0 < parts) × (parts < pass.old.me.0.parts) }
        requires parent { N.parent ≡ pass.old.id }
        ensures kept { (pass.new.table_id ≡ pass.old.table_id) × (pass.new.id ≡ pass.old.id)
            × (pass.new.me ≡ (rest_of parts pass.old.me.0, pass.old.me.1)) }
        ensures given { (result.table_id ≡ pass.old.table_id) × (result.me ≡ (part_of pass.old.id parts pass.old.me.0, [])) }
    {
        let _ = parts;
        self.table.shared.split_seat::<Divide<N>>(pass)
    }

    /// A look after a split or a join.
    fn learn<N: Facts<Y, Y::In, Y::Out>>(&self, pass: &mut Place<Y>)
        requires own { pass.old.table_id ≡ self.now.table.shared.table_id }
        requires quiet { (ticket_count pass.old.me.0.stage ≡ 0) × (0 < pass.old.me.0.parts) × (pass.old.me.1 ≡ []) }
        requires facts { N.number ≡ pass.old.id }
        ensures same { (pass.new.table_id ≡ pass.old.table_id) × (pass.new.id ≡ pass.old.id) }
        ensures learned { (pass.new.me.0 ≡ view pass.old.me.0.parts pass.old.me.0.seen Idle)
            × Learns N.number pass.old.me.0.seen pass.old.me.0.stage × (pass.new.me.1 ≡ []) }
    {
        self.table.shared.load::<Learn<N>>(pass, 0);
    }

    /// Takes in another pass. What each had seen is a prefix of what this one has seen then, the longer of the two.
    pub(crate) fn join(&self, pass: &mut Place<Y>, other: Place<Y>)
        requires own { (pass.old.table_id ≡ self.now.table.shared.table_id) × (other.table_id ≡ self.now.table.shared.table_id) }
        requires rests { Rests Y.moves pass.old.me.0.parts pass.old.me × Rests Y.moves other.me.0.parts other.me }
        ensures same { (pass.new.table_id ≡ pass.old.table_id) × (pass.new.id ≡ pass.old.id) }
        ensures rests { Rests Y.moves (pass.old.me.0.parts + other.me.0.parts) pass.new.me }
        ensures seen { pass.new.me.0.seen ≡ longer pass.old.me.0.seen other.me.0.seen }
        ensures this { IsPrefix pass.old.me.0.seen pass.new.me.0.seen }
        ensures that { IsPrefix other.me.0.seen pass.new.me.0.seen }
        ensures own { turns_of pass.old.id pass.new.me.0.seen ≡ turns_of pass.old.id pass.old.me.0.seen }
        ensures others { turns_of other.id pass.new.me.0.seen ≡ turns_of other.id other.me.0.seen }
        ensures apart { other.id ≢ pass.old.id }
    {
        self.unite::<Brand>(pass, other);
        self.learn::<Brand>(pass);
    }

    /// The table's own join.
    fn unite<N: Partner<Y::In, Y::Out>>(&self, pass: &mut Place<Y>, other: Place<Y>)
        requires own { (pass.old.table_id ≡ self.now.table.shared.table_id) × (other.table_id ≡ self.now.table.shared.table_id) }
        requires rests { Rests Y.moves pass.old.me.0.parts pass.old.me × Rests Y.moves other.me.0.parts other.me }
        requires partner { (N.other ≡ other.id) × (N.seen ≡ other.me.0.seen) }
        ensures same { (pass.new.table_id ≡ pass.old.table_id) × (pass.new.id ≡ pass.old.id) }
        ensures both { pass.new.me ≡ (both_of other.id pass.old.me.0 other.me.0, []) }
    {
        self.table.shared.join_seat::<Unite<N>>(pass, other);
    }

    /// The state. It comes by all turns from the one at the start, and the pass has seen them all.
    pub(crate) fn close(self, pass: Place<Y>) -> Y
        requires own { pass.table_id ≡ self.table.shared.table_id }
        requires rests { Rests Y.moves self.table.shared.key.parts pass.me }
        ensures replay { Replay Y.moves self.table.shared.key.state.value pass.me.0.seen result }
        ensures all { Ended Y.moves self.table.shared.key.state.value self.table.shared.key.parts pass.id pass.me.0.seen result }
    {
        let TicketLock { table } = self;
        let mut closed = table.close_with(pass);
        let out = closed.take(0);
        closed.free();
        let Some(state) = out else { unreachable!() };
        state
    }
}

/// The low 32 bits of a number, by which those sleep that wait for it to change.
fn low_half(number: u64) -> u32 {
    (number % (1 << 32)) as u32
}
