//! The remote spawner (qmail-rspawn(8), qmail-remote(8)): the program that starts a remote program for each request, and tells
//! what became of it.
//!
//! It is a machine: `look` tells it the moment and what is ready, `need` says what it does next, and `done` hands in what
//! came of that. Its contract: what it needs is what its table says of its own past, which it doesn't store. The table is
//! in `specs/Table.antt`; what it has in common with the local spawner is in spawner_parts, its place, its rows and which
//! requests are bad among them.
//!
//! `letter_of` and `report_of` give exactly the report of a program's end. `reports_are_exact` says which one that is, and
//! `successes_are_told` that a success is told only if the program told it: it exited with 0, its message report begins
//! with `K`, and its output with neither `s` nor `h`.
//!
//! `statuses_have_causes` says with which exit status it ends and why, `requests_have_reports` that each request has one report,
//! and a bad one no program, and `messages_are_given` that a program is given the message as it was read.
//!
//! # What is claimed
//!
//! - The report of a remote program's end, by its status and its output, exact: its letter and its text. Each end
//!   has exactly one report, whose letter is `K`, `Z` or `D` and whose text has no NUL: `letter_of`, `report_of`;
//!   the law `reports_are_exact`, by relations on whole texts (`IsReport`).
//! - A success is told exactly if the program exited with 0, its message report begins with `K`, and its output
//!   with neither `s` nor `h`: the law `successes_are_told`.
//! - The remote spawner: what it needs is what its table says after each past that it stands for, each step is a
//!   row, and after out of memory it is unchanged. A call that it asks for uses only a descriptor that it holds
//!   open. Two worked runs, with a delivery, two bad requests in one taking, a message that is missing and a field
//!   that is too long: `RemoteSpawn::{new, look, need, done}` and its `Machine`, by `Stands` and `Next`; the law
//!   `worked_runs`.
//! - With which exit status the remote spawner ends: 53 and 54 only after a failed give to its output, or a failed
//!   taking of requests or of what a program printed, and after each of these. 0 only if its requests have ended
//!   and no program is left, and 91 only if a field of the requests that it took has a 4097th byte and no program
//!   is left. And it has ended so once each of those requests has its report and nothing failed: the law
//!   `statuses_have_causes`, by `IsEnded`, `IsFailed` and `IsOver` over its past alone (spawner_parts
//!   `specs/Causes.antt`) and `IsSettled` (spawner_parts `specs/Counts.antt`).
//! - Each request has one report, and a bad one no program. After each run there are, for each slot, no more
//!   reports and running programs together than requests for it. There are as many when the spawner waits, takes
//!   requests or has ended without a failure. Each program is that of a request that isn't bad by what runs then,
//!   and each request before that one has its report or a program. What a program is given is what was read since a
//!   file was opened last: the laws `requests_have_reports`, `messages_are_given`, over its past alone
//!   (spawner_parts `specs/Counts.antt`, `specs/Known.antt`; `specs/Starts.antt`).
#![tactic(auto)]

mod laws;
mod machine;
mod parts;
mod reports;

pub use laws::{
    messages_are_given, reports_are_exact, requests_have_reports, statuses_have_causes,
    successes_are_told, worked_runs,
};
pub use machine::RemoteSpawn;
pub use reports::{letter_of, report_of};
pub use spawner_parts::{Place, Row, SLOTS};
