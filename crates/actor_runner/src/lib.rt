//! Actors of a world as threads.
//!
//! `run_threads` puts a world into a yard, whose lock lets one thread at a time step it. Some threads run mails, each to its end.
//! Beside them four threads step the members of the generation. What comes is a world to which steps of actors led from the one that
//! was handed in, in some order (`specs/Runs.antt`). Which order, and that threads run at once, no contract says.
//!
//! # What is claimed
//!
//! - The world's history is the one that was handed in, and after it events of actors' steps alone: no mail or generation was started,
//!   none was stopped, no report, no moment and no machine stop came. It is legal if the one that was handed in was. Its mails are those
//!   that were handed in, and the end of each is among the events that were added. All steps are turns of one list; the events that
//!   were added are those of its turns that made a step, one after the other, each of the actor that its turn asked for:
//!   `run_threads` (by `HasRun`).
//! - It isn't claimed that two threads ever run at once, nor that a run comes to its end.
#![tactic(auto)]

mod jobs;
mod mails;
mod members;
mod run;

pub use run::run_threads;
