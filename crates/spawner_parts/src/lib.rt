//! What the two spawners have in common (qmail-lspawn(8), qmail-rspawn(8)): how they take requests, run a program in each of
//! their slots, and give reports.
//!
//! Here stand what a spawner keeps (`Place`), the rows of its table (`Row`), what comes next (`row_now`, `need_at`), where
//! what came leads (`gave`, `took`, ..), and which requests are bad (`is_bad`). Each function is an equation with the
//! definition of its name in `specs/Table.antt` or `specs/Asked.antt`. What a spawner does in its own way is three things
//! (`Kind`): what becomes of a message that was read, the report of a program that couldn't be started, and that of one that
//! ended. The programs that it starts are its own too.
//!
//! `places_tell_the_past` says that a place that follows the table agrees with the past, whatever the kind: why it has ended,
//! which programs run, how many requests have their report, and what it holds open. `pasts_have_causes` and
//! `pasts_have_reports` are what comes of that. `programs_are_given_messages` says that a program is given the message as it was
//! read.
//!
//! # What is claimed
//!
//! - What both spawners do: which requests are bad, the order of their turns, and where what came at each row
//!   leads, each an equation with the definition of its name (`specs/Asked.antt`, `specs/Table.antt`). An address
//!   is what comes before its last `@`, the `@`, and its host: `is_bad`, `host_of`, `domain_of`, `runs_in`,
//!   `row_now`, `need_at`, `gave`, `took`, `opened`, `read_on`, `launched`, `fed`, `printed`, `exited`, ..; the law
//!   `hosts_are_exact`.
//! - A place that follows that table agrees with the past, whatever a spawner does in its own way (`Kind`), if its
//!   programs run in the slots of their requests. The past tells why it has ended, which programs run, how many
//!   requests have their report, what it holds open, and which message a program is given. The laws:
//!   `places_tell_the_past`, `pasts_have_causes`, `pasts_have_reports`, `programs_are_given_messages`, by `Tells`
//!   and `Carries` (`specs/Known.antt`).
#![tactic(auto)]

mod asked;
mod laws;
mod place;
mod row;
mod steps;
mod turns;

pub use asked::{domain_of, host_of, is_bad, name_of_mess, runs_in};
pub use laws::{
    hosts_are_exact, pasts_have_causes, pasts_have_reports, places_tell_the_past,
    programs_are_given_messages,
};
pub use place::{Place, SLOTS};
pub use row::Row;
pub use steps::{
    answers, exited, fed, gave, launched, opened, printed, read_on, status_of, took, unread,
};
pub use turns::{begun, need_at, row_now};
