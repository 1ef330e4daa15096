//! The pipes between actors: what was given and not yet taken, and whether anything more will come.
//!
//! A pipe is kept by who takes from it. Each call does what the function of the same name in `specs/Pipework.antt` says of the
//! pipes of the model.
//!
//! An actor finds ready, takes, gives and starts by its pipes, and something is shut when it is over. How the command of a user ends stands
//! here too.
//!
//! A member of a generation has its pipes at its seat, and any other actor that has some after the members'. What is done with them is what
//! the pipework of the model says (`specs/Exchanges.antt`).
//! No shell runs: the exit status of a command is read off its text (`specs/Commands.antt`).
//!
//! # What is claimed
//!
//! - A pipe does what the model's functions of it say: what was given and not yet taken, whether more will come,
//!   what a taking brings. Contracts: `Pipe::{give, take, close, clear, is_ready}`, by `given`, `offered`,
//!   `closed`, `fresh`, `is_ready` of `specs/Pipework.antt` and `specs/Pipes.antt`; that what it brings may come of
//!   a taking of the model: clause `yields`.
//! - So do the pipes that one actor takes from, each by its port: a call changes no other one. Whether something
//!   can be taken by a port, whether a slot has a remote program with its report or without, and which is the
//!   lowest such slot. Whether the program in a slot has ended, an actor too, which is marked when it is over, and
//!   which is the lowest such slot: `Mouths::{new, make_room, give, give_all, take, close, clear, start,
//!   start_actor, end, end_actor, free}`: clauses `pipes`, `tenants`, `ended` and `slots`; `Mouths::{is_ready,
//!   runs, lowest}`, by `is_remote` and `IsLowest`; `Mouths::{has_ended, lowest_ended}`, by `ended_of`.
//! - What an actor with pipes takes, gives and starts by its pipes and slots is what the model's pipework says,
//!   with nothing given to an actor in a slot. Its output goes to its parent only while it runs in its slot. And
//!   what is shut when an actor is over: what a member gives to, or the output of a child in its slot, which is
//!   marked as over there. Contracts: `exchange` (by `HasExchanged`), `shut_after` (by `HaveShut`), with `AreWired`
//!   for what the kept pipes are of the model's, whoever has pipes at which place.
//! - The seat of each member; fresh pipes for each, or the same ones with nothing in them, which leaves those of
//!   deliveries as they are. The pipes of a delivery that starts, and their place after the others. What an actor
//!   finds ready by its pipes, or an injector that may await its input. What is due to an actor and concerns a
//!   child: its start, or, if there is one in that slot, its input or its status. Contracts: `seat`, `pipes_for`
//!   (by `AreFresh`), `renew` (by `AreRenewed`), `pipes_of` (by `HasPipesFor`), `add_pipes` (by `HasPlaceAfter`),
//!   `ready_at` (by `IsFoundAt`), `is_of_child` (by `is_due_of_child`).
//! - Whether a remote program has no report, if the remote spawner lives, and the lowest slot with such a one:
//!   `is_unreported`, `first_unreported`.
//! - With what the command of a user exits, read off its text: `exit N` with N, for each N up to 255 that is
//!   written without leading zeros, and every other one with 127: `command_exits`; the law `commands_exit_so`.
#![tactic(auto)]

mod commands;
mod feeding;
pub mod laws;
mod mouths;
mod pipe;
mod reports;
mod seating;
mod unreported;

pub use commands::command_exits;
pub use feeding::{exchange, shut_after};
pub use mouths::{Mouths, Slot, Tenant};
pub use pipe::{Pipe, Taken};
pub use reports::put_report;
pub use seating::{add_pipes, due_slot, is_of_child, pipes_for, pipes_of, ready_at, renew, seat};
pub use unreported::{first_unreported, is_unreported};
