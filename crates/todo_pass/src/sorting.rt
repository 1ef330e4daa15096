// A todo text is read and its recipients are sorted by channel.
ghost use Rattle.std.specs.Prelude.{◌≡◌, ◌≤◌, Ok, IfOk, IfErr, drop, length};
ghost use Rattle.envelope_records.specs.Envelope.{read_envelope};
ghost use Rattle.todo_pass.specs.Todo.{envelope_by};
ghost use Rattle.todo_pass.specs.Sorting.{sort_todo, sorted_by};
ghost use Rattle.todo_pass.specs.Feeding.{IsFaultOf};

use crate::head::{Head, read_head};
use crate::sorted::Sorted;
use crate::sorter::Sorter;
use address_rules::Controls;
use std::alloc::{AllocError, Global};

/// Why a todo text can't be sorted.
#[derive(Clone, Copy)]
pub enum TodoError {
    /// The bytes are no todo text.
    BadRecord {
        /// The place of the first byte that no todo text has there, or the length of bytes that end too early.
        at: usize,
    },
    /// Out of memory.
    Memory,
}

impl From<AllocError> for TodoError {
    ghost use Rattle.std.specs.Prelude.{◌≡◌};
    ghost use Rattle.todo_pass.specs.declared.sorting.TodoError.TheVariants.{Memory};

    ghost from_gives = { λ _ why. why ≡ Memory };

    fn from(_: AllocError) -> Self {
        TodoError::Memory
    }
}

/// What the bytes of a todo file say, sorted by channel. `BadRecord` exactly if they are no todo text.
#[tactic(auto, unfolding(crate::specs::Todo::read_todo, crate::specs::Sorting::sort_todo))]
pub fn sort_todo(alloc: Global, controls: &Controls, bytes: &[u8]) -> Result<Sorted, TodoError>
    ensures ok { IfOk result (λ sorted. sort_todo controls.now bytes.now ≡ Ok sorted) }
    ensures err { IfErr result (IsFaultOf (sort_todo controls.now bytes.now)) }
{
    match read_head(bytes) {
        Ok(head) => sort_records(alloc, controls, bytes, head),
        Err(at) => Err(TodoError::BadRecord { at }),
    }
}

/// Sorts the records after the head. The condition: the head ends within the bytes.
fn sort_records(
    alloc: Global,
    controls: &Controls,
    bytes: &[u8],
    head: Head,
) -> Result<Sorted, TodoError>
    requires { head.next ≤ length bytes.now }
    ensures ok { IfOk result (λ sorted.
        sorted_by controls.now (envelope_by head (length bytes.now) (read_envelope (drop head.next bytes.now))) ≡ Ok sorted) }
    ensures err { IfErr result
        (IsFaultOf (sorted_by controls.now (envelope_by head (length bytes.now) (read_envelope (drop head.next bytes.now))))) }
{
    let rest = &bytes[head.next..];
    let mut sorter = Sorter::new(alloc, head);
    for (at, byte) in rest.iter().enumerate() {
        if !sorter.feed(alloc, controls, *byte)? {
            let at = head.next + at;
            return Err(TodoError::BadRecord { at });
        }
    }
    sorter.finish(bytes.len())
}
