//! The local spawner (qmail-lspawn(8)): the program that starts a local delivery for each request, and tells what became of it;
//! and its rules: the users file `users/assign` (qmail-users(5)), and the letter of a delivery's report.
//!
//! It is a machine: `look` tells it the moment and what is ready, `need` says what it does next, and `done` hands in what
//! came of that. Its contract: what it needs is what its table says of its own past, which it doesn't store. The table is
//! in `specs/Table.antt`; what it has in common with the remote spawner is in spawner_parts. A delivery's words and what it
//! is given are in `specs/Deliveries.antt`.
//!
//! The contract of the rules: `Assign::read` reads exactly the files of the grammar, and names the first line that isn't of it.
//! `find` finds the line that a local part belongs to, in one walk over the lines and without memory; `letter_of_status` gives the
//! letter of each status. `files_are_exact` and `users_are_exact` say that a file has one reading, and a local part one line.
//!
//! `statuses_have_causes` says with which exit status the program ends and why, `requests_have_reports` that each request has one
//! report, and a bad one no delivery, and `deliveries_are_of_users` which words each delivery is started with.
//!
//! # What is claimed
//!
//! - The file users/assign: its assignments, or the first line before `.` that is none, or that `.` is missing; a
//!   file has one reading. Contracts: `Assign::read`: `ok` (by `IsFile`), `err` (by `IsCause`); the law
//!   `files_are_exact`, which also says that the table's `users_in` gives those assignments, and none of another
//!   file.
//! - The line that a local part belongs to: the first simple one for it, else the first of the longest wildcards
//!   for it. None exactly if no line is for it; there is one such line: `find` (by `IsFound`, `IsForNobody`, and an
//!   equation with the table's `found_in`); the law `users_are_exact`.
//! - The letter of a local delivery's report, for each status: `letter_of_status`.
//! - The local spawner: what it needs is what its table says after each past that it stands for, each step is a
//!   row, and after out of memory it is unchanged. A call that it asks for uses only a descriptor that it holds
//!   open. Three worked runs, with a delivery by a wildcard, requests without a delivery, and a file users/assign
//!   without `.`: `LocalSpawn::{new, look, need, done}` and its `Machine`, by `Stands` and `Next`; the law
//!   `worked_runs`.
//! - With which exit status the local spawner ends: as the remote one, and with 51 only if its open of users/assign
//!   answered that it is out of memory, and then always. The law: `statuses_have_causes`, by `HasEnded` and
//!   `HasFailed` (`specs/Causes.antt`), `IsOver` and `IsSettled`.
//! - Each request has one report, and a bad one no delivery, counted as for the remote spawner: the law
//!   `requests_have_reports`.
//! - Each delivery that is started is that of a request that isn't bad by what runs then; each request before that
//!   one has its report or a delivery. Its eight words and its user number are those of the line to which the
//!   recipient's local part belongs, among the assignments of the file that was read in the start, none if it
//!   wasn't there. What a delivery is given is the netstring of what was read since a file was opened last: the law
//!   `deliveries_are_of_users`, by `IsDeliveryOfOne` over its past alone (`specs/Starts.antt`).
#![tactic(auto)]

mod assign;
mod delivery;
mod finding;
mod kinds;
mod laws;
mod letters;
mod machine;
mod place;
mod reading;
mod row;
mod steps;

pub use assign::{Assign, Assignment};
pub use delivery::Delivery;
pub use finding::{Found, find};
pub use kinds::Kind;
pub use laws::{
    deliveries_are_of_users, files_are_exact, requests_have_reports, statuses_have_causes,
    users_are_exact, worked_runs,
};
pub use letters::letter_of_status;
pub use machine::LocalSpawn;
pub use place::Place;
pub use reading::AssignError;
pub use row::Row;
