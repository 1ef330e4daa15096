// The sender as a machine.
ghost use Rattle.std.specs.Prelude.{◌≡◌, ◌∷◌, [], ◌&&◌, not, List, ℕ, Option, false, IfOk, IsOk, OnOk, OnErr, IsTrue};
ghost use Rattle.call_fs.specs.declared.past.Own.{Own};
ghost use Rattle.call_fs.specs.Program.{due_of, came_of};
ghost use Rattle.mail_bytes.specs.Moments.{IsMoment};
ghost use Rattle.send_jobs.specs.Sending.{lane};
ghost use Rattle.send_core.specs.Booked.{routing_at};
ghost use Rattle.send_core.specs.Log.{log_since};
ghost use Rattle.send_core.specs.Stands.{Logs, Stands, due_now, gone_on, is_between, is_search, looked_at, row_of};
ghost use Rattle.send_core.specs.Table.{Next, begun, due_at, takes_memory};

use crate::act::go_on;
use crate::arrive::row_now;
use crate::steps::words_of;
use crate::{Desk, MarkRow, Point, Row};
use address_rules::{ControlFile, Controls};
use bounce_record::{BounceSender, NoteWriter};
use call_fs::{Got, Need, Ready};
use mail_bytes::{Memory, NameBuf};
use send_jobs::{Channel, Marks, Slots};
use send_links::Link;
use send_log::Log;
use send_parts::{Book, FinishRow, NamedStep, Reading, StartRow, step_of};
use std::alloc::Global;
use std::marker::Model;
use todo_pass::{Pass, Row as PassRow};

/// The sender: the program that preprocesses what is queued, has each recipient delivered to, marks who is done, tries again by
/// the schedule, and has the cleaner remove what is finished, as a machine.
#[derive(Drop)]
pub struct Sender {
    desk: Desk,
    present: u64,
    ready: Ready,
    looked: bool,
    row: Row,
    step: NamedStep,
    log: Log,
}

impl Model for Sender {
    ghost use Rattle.send_core.specs.Log.{log_since};
    ghost use Rattle.send_core.specs.Stands.{Machine};

    ghost Value = { Machine };

    ghost use Rattle.send_core.specs.Inside.{Holds, machine_of};

    ghost view = { machine_of };

    ghost invariant = { Holds };
}

impl Sender {
    /// A sender of so many turns, from 1; without a number it goes on as long as it is asked. It takes room for what it reads first,
    /// and fails only if out of memory.
    pub fn new(alloc: Global, turns: Option<u64>) -> Result<Sender, Memory>
        ensures stands { IfOk result (λ m. Stands m turns []) }
        ensures log { IfOk result (λ m. Logs m turns [] []) }
        ensures unlooked { IfOk result (λ m. m.looked ≡ false) }
    {
        Ok(Sender {
            desk: new_desk(alloc, turns)?,
            present: 0,
            ready: Ready {
                links: [false; 4],
                child: None,
            },
            looked: false,
            row: Row::Ended(0),
            step: NamedStep::new(),
            log: Log::new(alloc),
        })
    }

    /// Tells it the moment, and what is ready: of its links those to the local and to the remote spawner count. Takes no
    /// memory. The condition: a clock may tell the moment.
    #[tactic(auto, using(crate::proofs::Logged::looked))]
    pub fn look(&mut self, now: u64, ready: Ready)
        requires { IsMoment now }
        ensures stands { (turns : Option ℕ) (past : List Own) → Stands self.old turns past → Stands self.new turns past }
        ensures logs { (turns : Option ℕ) (recent before : List Own) → Logs self.old turns recent before → Logs self.new turns recent before }
        ensures rest { self.new ≡ looked_at self.old now ready }
    {
        self.row = row_now(&self.desk, now, &ready);
        self.present = now;
        self.ready = ready;
        self.step
            .set(step_of(self.row, self.desk.book.read.len() as u64));
        self.looked = true;
    }

    /// What it does next: once it has looked, the next of its table after each past that it stands for; before that nothing.
    /// Takes no memory.
    pub fn need(&self) -> Need<'_>
        ensures due { due_of result ≡ due_now self.now }
        ensures next { (turns : Option ℕ) (past : List Own) → IsTrue self.now.looked → Stands self.now turns past
            → due_of result ≡ Next turns past self.now.present self.now.ready }
    {
        if self.looked {
            self.need_at(self.row)
        } else {
            Need::Wait
        }
    }

    /// What it does at its row. The condition: it has looked.
    fn need_at(&self, row: Row) -> Need<'_>
        requires looked { IsTrue self.now.looked }
        requires row { row ≡ row_of self.now }
        ensures { due_of result ≡ due_at row self.now.desk }
    {
        match row {
            Row::InTodo => self.desk.pass.need(),
            Row::Mark(MarkRow::Noting, _) => self.desk.note.need(),
            Row::Finish(FinishRow::Return, _) => self.desk.bounce.need(),
            row => self.step.need(words_of(row, &self.desk)),
        }
    }

    /// Hands in what came of its need. Then it stands for each past that it stood for and this event; after `Memory` it is
    /// unchanged, and the same may be handed in again. At the answer of a search, and wherever `takes_memory` says so, it takes
    /// no memory. The condition: it has looked. What isn't of the kind of its need counts as a failure.
    #[tactic(auto, using(crate::proofs::Logged::logged))]
    pub fn done(&mut self, alloc: Global, got: Got<'_>) -> Result<(), Memory>
        requires { IsTrue self.old.looked }
        ensures stands { (turns : Option ℕ) (past : List Own) → Stands self.old turns past → OnOk result (Stands self.new turns
            (record { read = self.old.present; ready = self.old.ready; due = due_now self.old; came = came_of got.entry } ∷ past)) }
        // Its log goes on by the lines of this event.
        ensures logs { (turns : Option ℕ) (recent before : List Own) → Logs self.old turns recent before → OnOk result (Logs self.new turns
            (record { read = self.old.present; ready = self.old.ready; due = due_now self.old; came = came_of got.entry } ∷ recent) before) }
        ensures goes { OnOk result (self.new ≡ gone_on self.old (came_of got.entry)) }
        ensures memory { takes_memory (row_of self.old) ≡ false → IsOk result }
        ensures err { OnErr result (self.new ≡ self.old) }
    {
        self.take_in(alloc, &got)
    }

    /// Whether its next step is the search of `todo`, and it has done nothing else in this turn. The condition: it has looked.
    pub fn is_searching(&self) -> bool
        requires { IsTrue self.now.looked }
        ensures { result ≡ (is_search (row_of self.now) && not self.now.desk.busy) }
    {
        matches!(self.row, Row::FindTodo(_)) && !self.desk.busy
    }

    /// Whether it stands between two turns, or has ended.
    pub fn is_between(&self) -> bool
        ensures { result ≡ is_between self.now.desk.row }
    {
        matches!(self.desk.row, Row::Turn(Point::TakeLocal) | Row::Ended(_))
    }

    /// The control files as it has read them; before that those of an empty directory. Takes no memory.
    pub fn controls(&self) -> &Controls
        ensures { result.now ≡ self.now.desk.book.controls }
    {
        &self.desk.book.controls
    }

    /// The number of the message whose todo command it gives next, if it gives one. The condition: it has looked.
    pub fn routing(&self) -> Option<u64>
        requires { IsTrue self.now.looked }
        ensures { result ≡ routing_at (row_of self.now) self.now.desk }
    {
        match (self.row, self.desk.pass.row()) {
            (Row::InTodo, PassRow::Give) => Some(self.desk.pass.number()),
            _ => None,
        }
    }

    /// The marks that are to be made on a channel, in order: those of the reports that were taken and not acted
    /// upon yet, each with what is noted before it.
    pub fn marks(&self, channel: Channel) -> &Marks
        ensures { result.now ≡ (lane channel self.now.desk.slots).marks }
    {
        self.desk.slots.marks(channel)
    }

    /// The lines of its log (qmail-log(5)) since that was cleared last: those of the events since then. Takes no memory.
    pub fn log(&self) -> &[u8]
        ensures log { result.now ≡ self.now.log }
        ensures since { (turns : Option ℕ) (recent before : List Own) → Logs self.now turns recent before
            → result.now ≡ log_since turns recent before }
    {
        self.log.as_slice()
    }

    /// Clears the log, once its lines were written. It stands for each past that it stood for. Takes no memory.
    pub fn clear_log(&mut self)
        ensures logs { (turns : Option ℕ) (past : List Own) → Stands self.old turns past → Logs self.new turns [] past }
        ensures rest { self.new ≡ record self.old { log = [] } }
    {
        self.log.clear();
    }

    /// The same, of what is lent.
    fn take_in(&mut self, alloc: Global, got: &Got<'_>) -> Result<(), Memory>
        requires { IsTrue self.old.looked }
        ensures ok { OnOk result (self.new ≡ gone_on self.old (came_of got.now)) }
        ensures memory { takes_memory (row_of self.old) ≡ false → IsOk result }
        ensures err { OnErr result (self.new ≡ self.old) }
    {
        go_on(
            &mut self.desk,
            &mut self.log,
            alloc,
            self.row,
            self.present,
            got,
        )?;
        self.looked = false;
        Ok(())
    }
}

/// What a sender of so many turns keeps at first.
fn new_desk(alloc: Global, turns: Option<u64>) -> Result<Desk, Memory>
    ensures { IfOk result (λ desk. desk ≡ begun turns) }
{
    Ok(Desk {
        row: Row::Start(StartRow::Control(ControlFile::Me, Reading::Opening)),
        book: Book::new(alloc)?,
        slots: Slots::new(alloc, [0, 0])?,
        local: Link::new(alloc),
        remote: Link::new(alloc),
        last_left: NameBuf::new(),
        swept: None,
        busy: false,
        turns,
        pass: Pass::new(alloc, 0)?,
        note: NoteWriter::idle(alloc),
        bounce: BounceSender::idle(alloc),
    })
}
