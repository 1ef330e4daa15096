//! The cleaner, qmail-clean(8): the program that alone removes message files.
//!
//! It is a machine: `look` tells it the moment, `need` says what it does next (a file call, a taking, a giving, or its
//! end), and `done` hands in what came of that. Its one contract: what it needs is what its table says of its own past,
//! which it doesn't store. The table is in `specs/Table.antt`; what a command is, and how a text is cut into commands, in
//! `specs/Commands.antt`. Which answer it gives to a command, and with which exit status it ends, follows from the
//! table: `answers_have_causes`.
//!
//! It takes no memory: all that it holds is in place.
//!
//! # What is claimed
//!
//! - The lengths of a command and the rounds between scans, as figures: the law `figures_are_these`.
//! - The cleaner does what its table says of each past that it stands for: the scans of `pid/`, each command, its
//!   answer, its end. It takes no memory and never says that it is out of it. It may be handed at most 8192 bytes
//!   of one taking: `Cleaner::{new, look, need, done}`: clauses `stands` (by `Stands` and `Next`), `due`, `on`,
//!   `rest`, `ok`; `impl Machine for Cleaner`.
//! - Each command has one text, and no other text is a command; a text is cut into commands in one way. Why it
//!   gives which answer, and ends with which status. It asks for searches, stats, unlinks, its input and its output
//!   alone. A worked run of twelve events: the laws `commands_are_exact`, `answers_have_causes`, `asks_for_little`,
//!   `a_worked_run`.
#![tactic(auto)]

mod command;
mod intake;
mod laws;
mod machine;
mod named_row;
mod pid_name;
mod row;
mod taken;

pub use command::Command;
pub use laws::{
    a_worked_run, answers_have_causes, asks_for_little, commands_are_exact, figures_are_these,
};
pub use machine::Cleaner;
pub use row::{Reply, Row};
