//! Steps of the sender (qmail-send(8)), and the parts of its table that stand by themselves.
//!
//! What it does at a step, and what came of it, are small values that can be copied. They are a step with numbers in place
//! of names (`Step`), the same with its name held in place (`NamedStep`), and what came of it in five ways (`Reply`). And
//! how a file is read to its end (`Reading`). Then what the files that it reads say: the
//! sender of an info file, the number that a name is. Over these stand the rows of the sender's table (`Row`), what is done at
//! each, and where those of the start, of the finish of a message, and of the sweep lead.
//!
//! The contracts of this crate: what a named step needs is the call, taking or giving that its definition names; and where
//! a row leads is what its table says (`specs/Start.antt`, `specs/Finish.antt`, `specs/Sweep.antt`).
//!
//! It is a crate of its own, and no part of send_core, for the checker alone: so a check of either stays short.
//!
//! # What is claimed
//!
//! - The call, taking or giving of each step of the sender, what came of it in five ways, and how a file is read to
//!   its end. The sender of an info file, the number that a name is: `NamedStep::{new, set, step, need}`, `step_of`,
//!   `port_of`, `file_of`, `reply_of`, `read_on`, `reading_step`, `is_info`, `sender_in`, `message_number`, `hold`.
//! - Where a step of a turn comes from, as far as what is ready and the channel decide, and where the start leads:
//!   `taking`, `beginning`, `going_on`, `finishing_by`, `or_else`, `start_at`.
//! - Where each row of the start, of a finish and of the sweep leads, and the lines of the log at these rows. In the
//!   start only reads, the last stat of a message and the remote spawner's byte take memory, and after out of memory
//!   nothing changed. Contracts: `Book::new`, `act_start`, `finish_to`, `act_sweep`, `remote_limit`, `is_skipped`,
//!   `put_skipped`, `add_finished`, each an equation with the definition of that name in `specs/`.
#![tactic(auto)]

mod book;
mod channels;
mod dir;
mod finish;
mod lines;
mod named_step;
mod points;
mod reading;
mod reply;
mod row;
mod row_steps;
mod rows;
mod start;
mod step;
mod sweep;
mod texts;

pub use book::Book;
pub use channels::{file_of, port_of};
pub use dir::Dir;
pub use finish::finish_to;
pub use lines::{add_finished, is_skipped, put_skipped};
pub use named_step::NamedStep;
pub use points::{beginning, finishing_by, going_on, or_else, start_at, taking};
pub use reading::{Progress, Reading, begun_at, read_on, reading_step};
pub use reply::{Reply, Way, is_fine, reply_of};
pub use row::{MarkRow, Marked, Point, Row};
pub use row_steps::step_of;
pub use rows::{FinishRow, Search, StartRow, SweepRow};
pub use start::{act_start, keep, remote_limit};
pub use step::Step;
pub use sweep::{act_sweep, sweep_due};
pub use texts::{hold, is_info, message_number, sender_in};
