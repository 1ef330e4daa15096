// The injector as a machine.
ghost use Rattle.std.specs.Prelude.{◌≡◌, ◌≢◌, ◌≤◌, ◌<◌, ◌+◌, ◌∷◌, [], List, ℕ, None, Some, IfOk, IsOk, IsTrue, length, if◌then◌else◌};
ghost use Rattle.call_fs.specs.declared.calls.Told.{Told};
ghost use Rattle.mail_bytes.specs.Moments.{IsMoment};
ghost use Rattle.call_fs.specs.declared.past.Own.{Own};
ghost use Rattle.call_fs.specs.Program.{due_of, came_of, IsKind};
ghost use Rattle.call_fs.specs.declared.past.GotData.TheVariants.{Answered};
ghost use Rattle.call_fs.specs.declared.past.NeedData.TheVariants.{Ended, Wait};
ghost use Rattle.queue_inject.specs.declared.injection.Arguments.{Arguments};
ghost use Rattle.queue_inject.specs.Texts.{limit};
ghost use Rattle.queue_inject.specs.Table.{Next, has_input};
ghost use Rattle.queue_inject.specs.inside.Fields.{IsInStep as InStep};
ghost use Rattle.queue_inject.specs.Machine.{asks, room_of, over_by, row_now, late_now, call_now, due_now, is_call, gone_on, ahead_of};
ghost use Rattle.queue_inject.specs.declared.intake.Verdict.TheVariants.{Whole};
ghost use Rattle.queue_inject.specs.Stands.{Stands, IsStartedBy, Continues, Ends};

use crate::intake::Intake;
use crate::named_row::NamedRow;
use crate::steps::after;
use crate::{Arguments, InputEnd, Part, Row};
use call_fs::{Answer, Got, Machine, Need, PIECE, Ready, UNREADY};
use mail_bytes::Memory;
use queue_limits::{DAY, LATE};
use received_line::{Invoked, received};
use std::alloc::{AllocError, Global};
use std::marker::Model;

/// The injector: the program that puts one message into the queue, as a machine.
///
/// It is fed its input as it goes: the message's bytes and their end, and once the message is written and intd is there
/// the envelope's. `asks` says of which part it is to be fed, and `room` how many bytes. With its input ready, which is
/// told when `room` is 0, it makes the next call. More than a day after its start it ends in place of any call.
///
/// What it keeps is held in place, at most 32,768 bytes: the next piece of the text at hand, and the names of its calls.
#[derive(Drop)]
pub struct Injector {
    uid: u32,
    place: NamedRow,
    intake: Intake,
    present: u64,
    ready: Ready,
}

impl Model for Injector {
    ghost use Rattle.queue_inject.specs.Machine.{Machine};

    ghost Value = { Machine };

    ghost use Rattle.queue_inject.specs.inside.Fields.{machine_of, IsInStep};

    ghost view = { machine_of };

    ghost invariant = { λ i. IsInStep (machine_of i) };
}

impl Injector {
    /// An injector of this user, with this process number, started now. It waits until `look` has told it that its input is
    /// ready. `room` is how many bytes its caller counts on it to keep of its input. Fails only if out of memory. The
    /// conditions: a clock may tell the start, and `room` is at least 8192, the bytes of a piece.
    pub fn new(
        alloc: Global,
        uid: u32,
        pid: u32,
        invoked: Invoked,
        start: u64,
        room: usize,
    ) -> Result<Injector, Memory>
        requires moment { IsMoment start }
        requires room { PIECE ≤ room }
        ensures stands { IfOk result (λ m. (args : Arguments) → IsStartedBy args uid pid invoked start → Stands m args []) }
        ensures row { IfOk result (λ m. m.row ≡ Row.Create 1) }
        ensures fed { IfOk result (λ m. m.heard.fed ≡ 0) }
        ensures waits { IfOk result (λ m. due_now m ≡ Wait) }
    {
        let line = received(alloc, pid, invoked, start)?;
        let line = line.as_slice();
        if line.len() > PIECE.min(room) {
            return Err(AllocError);
        }
        Ok(Injector {
            uid,
            place: NamedRow::new(pid, start),
            intake: Intake::new(line),
            present: start,
            ready: UNREADY,
        })
    }

    /// The part of its input that it asks for next: the message, then the envelope. None once the end or the fault of that
    /// part is known, and when its next call needs no more of the input.
    pub fn asks(&self) -> Option<Part>
        ensures { result ≡ asks self.now }
    {
        if self.intake.is_open() {
            self.place.row().part()
        } else {
            None
        }
    }

    /// How many more bytes it may be fed now, at most 8192. Of a part that is too long one byte past the limit in all.
    pub fn room(&self) -> usize
        ensures room { result ≡ room_of self.now }
        ensures short { result ≤ PIECE }
        ensures within { self.now.heard.fed + result ≤ limit + 1 }
    {
        let _ = &self.uid;
        match self.asks() {
            None => 0,
            Some(_) => self.intake.room(),
        }
    }

    /// How many bytes it was fed of the part that it asks for.
    pub fn fed(&self) -> usize
        ensures { result ≡ self.now.heard.fed }
    {
        self.intake.fed()
    }

    /// More of its input, of the part that it asks for. The condition: there is room for these bytes.
    pub fn feed(&mut self, bytes: &[u8])
        requires { length bytes.now ≤ room_of self.old }
        ensures stands { (args : Arguments) (past : List Own) → Stands self.old args past
            → Continues self.old args bytes.now → Stands self.new args past }
        ensures fed { self.new.heard.fed ≡ self.old.heard.fed + length bytes.now }
        // A message isn't whole before its end is told.
        ensures message { asks self.old ≡ Some Part.Message → self.new.heard.verdict ≢ Whole }
        // Fed as much as there is room for, it needs no more for its next call.
        ensures full { room_of self.old ≤ length bytes.now → room_of self.new ≡ 0 }
        ensures rest { self.new ≡ record self.old { heard = self.new.heard } }
    {
        match self.asks() {
            None => {}
            Some(Part::Message) => self.intake.feed_message(bytes),
            Some(Part::Envelope) => self.intake.feed_envelope(bytes),
        }
    }

    /// The part of its input that it asks for has ended. When it asks for none, this tells it nothing.
    pub fn end_input(&mut self)
        ensures stands { (args : Arguments) (past : List Own) → Stands self.old args past
            → Ends self.old args InputEnd.Whole → Stands self.new args past }
        ensures over { self.new ≡ record self.old { heard = over_by (asks self.old) self.old.heard InputEnd.Whole } }
        ensures none { asks self.new ≡ None }
    {
        self.end(InputEnd::Whole);
    }

    /// The part of its input that it asks for could not be read on; if `bad`, since the netstring that it came in has a
    /// wrong head or comma. When it asks for none, this tells it nothing.
    pub fn fail_input(&mut self, bad: bool)
        ensures stands { (args : Arguments) (past : List Own) → Stands self.old args past
            → Ends self.old args (if bad then InputEnd.Malformed else InputEnd.Unread) → Stands self.new args past }
        ensures over { self.new ≡ record self.old {
          heard = over_by (asks self.old) self.old.heard (if bad then InputEnd.Malformed else InputEnd.Unread);
        } }
        ensures none { asks self.new ≡ None }
    {
        let end = if bad {
            InputEnd::Malformed
        } else {
            InputEnd::Unread
        };
        self.end(end);
    }

    /// The part of its input that it asks for has ended so. When it asks for none, this tells it nothing.
    fn end(&mut self, end: InputEnd)
        ensures stands { (args : Arguments) (past : List Own) → Stands self.old args past
            → Ends self.old args end → Stands self.new args past }
        ensures over { self.new ≡ record self.old { heard = over_by (asks self.old) self.old.heard end } }
        ensures none { asks self.new ≡ None }
    {
        match self.asks() {
            None => {}
            Some(Part::Message) => self.intake.end_message(end),
            Some(Part::Envelope) => self.intake.end_envelope(end),
        }
    }

    /// Tells it the moment, and what is ready: of `links` the first, its input. The conditions: a clock may tell the moment;
    /// if its input is ready, `room` is 0, as it is once the end or the fault of the part was told that it asked for.
    pub fn look(&mut self, now: u64, ready: Ready)
        requires moment { IsMoment now }
        requires given { IsTrue (has_input ready) → room_of self.old ≡ 0 }
        ensures stands { (args : Arguments) (past : List Own) → Stands self.old args past → Stands self.new args past }
        ensures rest { self.new ≡ record self.old { present = now; ready = ready } }
        // One whose table is at its end has ended, and stays so whatever it is told.
        ensures ended { (status : ℕ) → call_now self.old ≡ Ended status
            → (due_now self.old ≡ Ended status) × (due_now self.new ≡ Ended status) }
        // Any other end is the timer's: it stays if moments don't fall and the input stays ready.
        ensures timed_out { (status : ℕ) → due_now self.old ≡ Ended status → self.old.present ≤ now
            → (IsTrue (has_input self.old.ready) → IsTrue (has_input ready)) → due_now self.new ≡ Ended status }
    {
        self.present = now;
        self.ready = ready;
    }

    /// What it does next: the next of its table, after any past that it stands for. It waits while its input isn't ready.
    pub fn need(&self) -> Need<'_>
        ensures stands { (args : Arguments) (past : List Own) → Stands self.now args past
            → due_of result ≡ Next args past self.now.present self.now.ready }
        ensures due { due_of result ≡ due_now self.now }
        ensures step { InStep self.now }
    {
        let _ = &self.uid;
        self.due()
    }

    /// What is due: its call or its end; a wait while its input isn't ready, and its end more than a day after its start.
    fn due(&self) -> Need<'_>
        ensures { due_of result ≡ due_now self.now }
    {
        match self.asked() {
            Need::File(_) if !self.ready.links[0] => Need::Wait,
            Need::File(_) if self.is_late() => Need::Ended(LATE),
            need => need,
        }
    }

    /// The call of its row, or its end, at whatever time.
    fn asked(&self) -> Need<'_>
        ensures { due_of result ≡ call_now self.now }
    {
        self.place.need(self.row(), self.intake.piece())
    }

    /// The row whose call is due.
    fn row(&self) -> Row
        ensures { result ≡ row_now self.now }
    {
        self.intake.next_row(self.place.row())
    }

    /// Whether more than a day has passed since its start.
    fn is_late(&self) -> bool
        ensures { result ≡ late_now self.now }
    {
        self.present.saturating_sub(self.place.start()) > DAY
    }

    /// Hands in the answer to its call. It takes no memory and never answers `Memory`. Before its next call it is to be told
    /// again what is ready. The condition: this is of the kind of its need, so that is a file call.
    pub fn done(&mut self, got: Got<'_>) -> Result<(), Memory>
        requires kind { IsKind (due_now self.old) (came_of got) }
        ensures ok { IsOk result }
        ensures stands { (args : Arguments) (past : List Own) → Stands self.old args past → Stands self.new args
            (record { read = self.old.present; ready = self.old.ready; due = due_now self.old; came = came_of got.entry } ∷ past) }
        // The end comes nearer with each call.
        ensures nearer { ahead_of self.new < ahead_of self.old }
        ensures on { (told : Told) → came_of got.entry ≡ Answered told → self.new ≡ gone_on self.old told.answer }
    {
        let _ = &self.uid;
        match got {
            Got::File(answer, _) => self.go_on(&answer),
            _ => unreachable!(),
        }
        Ok(())
    }

    /// Goes where this answer to its call leads. The condition: a call is due.
    fn go_on(&mut self, answer: &Answer)
        requires { IsTrue (is_call (due_now self.old)) }
        ensures { self.new ≡ gone_on self.old answer.now }
    {
        let row = self.row();
        let pid = self.place.pid();
        self.intake.go_on(row, self.uid, pid);
        self.place.go(after(row, answer));
        self.ready = UNREADY;
    }
}

impl Machine for Injector {
    ghost use Rattle.std.specs.Prelude.{◌≡◌, true, Some, IsTrue};
    ghost use Rattle.call_fs.specs.declared.calls.Told.{Told};
    ghost use Rattle.call_fs.specs.declared.past.GotData.TheVariants.{Answered};
    ghost use Rattle.queue_inject.specs.Machine.{room_of, due_now, ahead_of, gone_on};
    ghost use Rattle.queue_inject.specs.Stands.{Stands};
    ghost use Rattle.queue_inject.specs.Table.{Next, has_input};

    type Arguments = Arguments;

    ghost present = { λ m. m.present };

    ghost found = { λ m. m.ready };

    ghost looked = { λ _. true };

    ghost can_find = { λ m ready. IsTrue (has_input ready) → room_of m ≡ 0 };

    ghost due = { due_now };

    ghost takes_at_most = { λ _. 0 };

    ghost has_room = { λ _. Unit {0} };

    ghost ahead = { λ m. Some (ahead_of m) };

    ghost next = { Next };

    ghost looks = { λ m now ready n. n ≡ record m { present = now; ready = ready } };

    ghost goes = { λ m came n. (told : Told) → came ≡ Answered told → n ≡ gone_on m told.answer };

    ghost stands = { Stands };

    fn look(&mut self, now: u64, ready: Ready) {
        self.look(now, ready)
    }

    fn need(&self) -> Need<'_> {
        self.need()
    }

    fn taking_room(&self) -> usize {
        0
    }

    fn done(&mut self, _alloc: Global, got: Got<'_>) -> Result<(), Memory> {
        self.done(got)
    }

    fn uses_held() {}
}
