// The records of a todo text, sorted byte by byte.
ghost use Rattle.std.specs.Prelude.{◌≡◌, ◌+◌, ◌<◌, ◌^◌, List, ℕ, [], Ok, IfOk, IfErr};
ghost use Rattle.address_rules.specs.declared.controls.Controls.{Controls as ControlsOf};
ghost use Rattle.envelope_records.specs.Envelope.{read_envelope, HasRead};
ghost use Rattle.todo_pass.specs.declared.head.Head.{Head as HeadOf};
ghost use Rattle.todo_pass.specs.Todo.{envelope_by};
ghost use Rattle.todo_pass.specs.Sorting.{sorted_by};
ghost use Rattle.todo_pass.specs.Feeding.{Sorts, FeedsOn, IsFaultOf};

use crate::head::Head;
use crate::sorted::Sorted;
use crate::sorting::TodoError;
use address_rules::Controls;
use envelope_records::{EnvStep, EnvelopeReader};
use mail_bytes::Memory;
use std::alloc::Global;

/// What was sorted of the records of a todo text.
#[derive(Drop)]
pub struct Sorter {
    /// The reader that they are fed to.
    pub reader: EnvelopeReader,
    /// What they say so far.
    pub sorted: Sorted,
}

impl Sorter {
    /// No byte was read after this head.
    pub fn new(alloc: Global, head: Head) -> Self
        ensures { (controls : ControlsOf) → Sorts controls head [] result }
    {
        Sorter {
            reader: EnvelopeReader::new(),
            sorted: Sorted::new(alloc, head.uid, head.pid),
        }
    }

    /// Takes the next byte, and tells whether records may have it there. After an `Err` it is to be let go. The conditions:
    /// one recipient more can be counted.
    pub fn feed(&mut self, alloc: Global, controls: &Controls, byte: u8) -> Result<bool, Memory>
        requires locals { self.old.sorted.locals + 1 < 2 ^ 64 }
        requires remotes { self.old.sorted.remotes + 1 < 2 ^ 64 }
        ensures { (read : List ℕ) → HasRead read self.old.reader
            → IfOk result (λ fits. FeedsOn controls.now read byte self.old self.new fits) }
    {
        match self.reader.feed(byte) {
            EnvStep::More => {}
            EnvStep::Sender => self.sorted.begin(alloc, self.reader.text())?,
            EnvStep::Recipient => self.sorted.put(alloc, controls, self.reader.text())?,
            EnvStep::End | EnvStep::Fault(_) => return Ok(false),
        }
        Ok(true)
    }

    /// What the records say, which end here, as the whole text does after so many bytes.
    /// `BadRecord` exactly if the last one isn't whole.
    pub fn finish(self, len: usize) -> Result<Sorted, TodoError>
        ensures ok { (controls : ControlsOf) (head : HeadOf) (read : List ℕ) → Sorts controls head read self
            → IfOk result (λ sorted. sorted_by controls (envelope_by head len (read_envelope read)) ≡ Ok sorted) }
        ensures err { (controls : ControlsOf) (head : HeadOf) (read : List ℕ) → Sorts controls head read self
            → IfErr result (IsFaultOf (sorted_by controls (envelope_by head len (read_envelope read)))) }
    {
        if self.reader.missing() != 1 {
            return Err(TodoError::BadRecord { at: len });
        }
        Ok(self.sorted)
    }
}
