//! One local delivery (qmail-local(8), dot-qmail(5), qmail-command(8)): the program that follows the instructions of a user for
//! a message, line by line, and injects it anew for the addresses that it is forwarded to.
//!
//! It is a machine: `look` tells it the moment and what is ready, `need` says what it does next, and `done` hands in what came
//! of that. Its contract: what it needs is what its table says of its own past, which it doesn't store. The table is in
//! `specs/Table.antt`. `success_is_carried_out` says that a delivery that ends with 0 has carried out its instructions, and
//! `links_are_of_whole_files` what it has linked into maildirs. `deliveries_write_on` says that other programs may change the
//! disk meanwhile, `forwards_are_single` and `forwards_are_fed` how it forwards, and `statuses_have_causes` why one has ended.
//!
//! # What is claimed
//!
//! - A local delivery does what its table says after each past that it stands for, with the drop into a maildir
//!   inside it, and uses only descriptors that it holds open; after out of memory it is unchanged. Three worked
//!   runs: `Local::{new, look, need, done}`: clauses `stands` (by `Stands` and `Next`), `due`, `goes`, `err`; `impl
//!   Machine for Local`; the law `worked_runs`.
//! - One that ends with 0 has carried out its instructions: each maildir line up to the first command that exits
//!   with 99, or to the end, has its link, in order. Each command there exited with 0 or 99; one injection of the
//!   message for all forwards there ended with 0, or there are none and no injector was started. The host in the
//!   names of the links is the one that control/me names, as the delivery read it: the law
//!   `success_is_carried_out`, by `IsCarried` over its past alone.
//! - The file of each link that it makes holds `Return-Path`, `Delivered-To` and the message that it took, complete
//!   and on the disk, if its calls alone are made on a disk: the law `links_are_of_whole_files`, by `AreWhole`.
//! - A delivery rests on any disk when it begins, and each of its events, made on a disk on which it rests, leads
//!   to one on which it rests. Other programs may change the disk meanwhile: if they leave alone what its drop
//!   rests on, it rests on what they leave. That drop puts the message that was taken into the maildir of a line of
//!   the instructions. A link is due only for a file that holds `Return-Path`, `Delivered-To` and the message,
//!   complete and on the disk: the law `deliveries_write_on`, by `WritesOn` (`specs/Writes.antt`).
//! - It starts one program at most, the injector of its forwards, as its user. It gives that its input directly
//!   after the start, whatever is ready, and takes its status only directly after that; to no program it gives
//!   anything else. The input is two netstrings: the message with its Delivered-To line, and the envelope for the
//!   addresses to which the lines that were reached forward it: the laws `forwards_are_single` and
//!   `forwards_are_fed`, by `IsForwardInput` (`specs/Forwards.antt`).
//! - It asks for nothing but file calls, its input and its output, commands, and that injector, and never has to wait.
//!   The message that a command gets is the one that was taken: the laws `deliveries_ask_for_this` and
//!   `commands_get_the_message`, and `Local::message`.
//! - With which exit status it has ended, and why, one way: 0, 100, 111 and 51 alone, each only with a cause in its
//!   past: the law `statuses_have_causes`, by `IsCausedBy` (`specs/Causes.antt`).
#![tactic(auto)]

mod asking;
mod dropping;
mod failures;
mod laws;
mod lines;
mod machine;
mod place;
mod reading;
mod row;
mod step;
mod steps;

pub use asking::{commands_get_the_message, deliveries_ask_for_this};
pub use dropping::Dropping;
pub use laws::{
    deliveries_write_on, forwards_are_fed, forwards_are_single, links_are_of_whole_files,
    statuses_have_causes, success_is_carried_out, worked_runs,
};
pub use local_parts::LocalArgs;
pub use machine::Local;
pub use place::Place;
pub use row::{Failure, Reading, Row, Wanted};
pub use step::Step;
