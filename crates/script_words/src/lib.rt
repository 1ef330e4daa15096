//! The words of a script: what each stands for.
//!
//! Words are parted by one space, and `%` with two hexadecimal digits stands for a byte. What words stand for is written
//! in `specs/Words.antt`, and which lines say what a script's disk holds at its beginning in `specs/Entries.antt`; each
//! reader here is exact, both ways.
//!
//! # What is claimed
//!
//! - The words of a script: the texts, envelopes, moments, numbers and seeds that they stand for, exact both ways:
//!   `read_last_word`, `read_envelope_as`, `read_moment`, `read_counted`, `is_count`, `read_survival`, `bytes_of`,
//!   `cut`, `first_word`, `Moment::new`, `Count::new`.
//! - Which lines say what the disk holds at first, and which of them may stand on one disk: no name is a file of
//!   one and a directory of another: `read_entry` (by `IsEntryLine`), `may_follow` (by `Agree`).
#![tactic(auto)]

mod count;
mod entry;
mod entry_lines;
mod envelope;
mod error;
mod letter;
mod moment;
mod opening;
mod paths;
mod report;
mod survival;
mod words;

pub use count::{Count, is_count, read_counted};
pub use entry::Entry;
pub use entry_lines::read_entry;
pub use envelope::{Form, read_envelope_as};
pub use error::WordError;
pub use letter::{Letter, read_letter};
pub use moment::{Moment, read_moment};
pub use opening::may_follow;
pub use report::read_report;
pub use survival::read_survival;
pub use words::{bytes_of, cut, first_word, read_last_word};
