//! The injector, qmail-queue(8): the program that puts one message into the queue.
//!
//! It is a machine: `feed` gives it the next bytes of its input, `look` tells it the moment and whether its input is ready,
//! `need` says which file call it makes next, and `done` hands in the answer. Its one contract: what it needs is what its
//! table says of its own past, which it doesn't store. Of its input it keeps one piece of 8192 bytes. The table is in
//! `specs/Table.antt`. Which exit status a run ends with, and why, follows from it: the law of `laws`. So
//! does what else a whole run did, the laws of `whole_runs`: which calls it made, from the first to the last, and what it leaves in
//! the queue for each exit status. Laws are the contracts of functions that do nothing.
//!
//! # What is claimed
//!
//! - The injector does what its table says of each past that it stands for: every table row, fault, clean up and
//!   the timer. If it is told that its input is ready, it was fed as much as it has room for, or was told the end
//!   or the fault of the part that it asks for. An injector at the end of its table stays ended; one that the timer
//!   ended stays ended while moments don't fall and its input stays ready. It keeps at most 32,768 bytes:
//!   `Injector::{new, feed, end_input, fail_input, look, need, done}`: clauses `stands` (by `Stands` and `Next`),
//!   `ended`, `timed_out`, `due`, `rest`, and its type's invariant.
//! - Which exit status a run of the injector ends with, and why, in both directions, for each status: the law
//!   `statuses_have_causes`, by `IsRun` and `IsCausedBy`.
//! - The calls of a run of the injector that has ended, in order. At most eight pid names are found taken, or nine,
//!   and then nothing more is done. After them comes a prefix of one list, each call answered Ok: create the pid
//!   name, link it to `mess/N`, unlink it, append the message by pieces, sync. Then create `intd/N`, append the
//!   todo text by pieces, sync, link `intd/N` to `todo/N`. The pieces of a text join to it; each has 8192 bytes
//!   except the last, which has from 1 to 8192. Then comes what the end adds: nothing if all were made; else the
//!   call that was refused, if one was, and the clean up. That removes nothing before `mess/N` is linked or at the
//!   link to todo, `mess/N` from then on, and `intd/N` before it once that was made. A clean up ends at a name that
//!   can't be removed. A fault of the input stops the list when the whole pieces of its text are written, and under
//!   8192 bytes of it are left. Once the day is over no further call is made: the law `runs_are_written`, by
//!   `IsWritten` (`written`, `Stops`, `AreRemoved`, `IsStopped`, `Ends`).
//! - Which names such a run leaves, by what its calls were answered, for each status, as qmail-queue(8) has it: the
//!   law `names_are_left`, by `IsLeft` (`left_by`, `Leaves`).
#![tactic(auto)]

mod injection;
mod intake;
mod laws;
mod machine;
mod named_row;
mod piece;
mod row;
mod steps;
mod whole_runs;

pub use injection::{Arguments, InputEnd, Part};
pub use laws::statuses_have_causes;
pub use machine::Injector;
pub use row::Row;
pub use whole_runs::{names_are_left, runs_are_written};
