//! The delivery of one message into a maildir, which loses nothing that it has said is there (maildir(5), qmail-local(8)).
//!
//! The contract of this crate: a drop needs what its table says after its own past (`MaildirDrop`), and ends dropped
//! exactly if its link into `new` was made. That link is of a file that is complete and on the disk (`laws`).
//!
//! # What is claimed
//!
//! - A drop does what its table says after each past that it stands for, takes no memory after `new`, and uses only
//!   descriptors that it holds open. The pieces that it writes are the blocks, joined: `MaildirDrop::{new, look,
//!   need, done, end, is_linked}`: clauses `stands` (by `Stands` and `Next`), `due`, `goes`, `names`, `ok`; `impl
//!   Machine for MaildirDrop`; `Pieces::{of, first, is_empty, pass}`.
//! - A drop ends dropped exactly if its link into `new` was made, whatever comes of the unlink after it; a failure
//!   has its cause in the drop's past: the laws `dropped_exactly_if_linked`, `failures_have_causes` (by `IsCause`).
//! - If its calls alone were made on a disk: the file that the link is due for holds the message, and all of it is
//!   on the disk. And once the link is made that file stands in `new`, also when the drop has ended: the law
//!   `what_is_dropped_is_whole` (by `IsWhole`).
//! - A drop rests on any disk when it begins, and its next call, made on any disk on which it rests, leads to one
//!   on which it rests. Other programs may change the disk between its calls: if they leave alone what it rests on,
//!   it rests on what they leave. While it writes, that is its file in `tmp`, which it holds open, and which holds
//!   all bytes but those that are left; then the whole file, in `tmp`, until its link is made. The link puts that file
//!   into `new`, and from then on nothing is asked: a reader may move or unlink the name in `new` before the drop has
//!   ended. The law: `drops_rest_on`, by `RestsOn` and `LeavesAlone` (`specs/Rests.antt`).
//! - A text passes its test of a name's form exactly if it has the form that `CallFs` wants of a name: the law
//!   `names_are_of_the_form`.
#![tactic(auto)]

mod arguments;
pub mod laws;
mod machine;
mod names;
mod pieces;
mod row;
mod steps;

pub use arguments::Arguments;
pub use machine::MaildirDrop;
pub use names::{DropNames, NamePair, is_name};
pub use pieces::Pieces;
pub use row::{Attempt, DEFER, End, Outcome, Row, Why};
