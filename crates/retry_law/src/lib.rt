//! When the sender, qmail-send(8), tries a message again, by its past alone: laws of its runs, each the contract of a function that does
//! nothing. What passes and moments are is said in send_runs.
//!
//! # What is claimed
//!
//! - At each event of a run a pass of a message goes on by the past just if the sender has a job on it and doesn't unlink its file next. It
//!   began when the job did, and the job isn't over. So none goes on on a channel where nothing is to be given, in flight or to be marked.
//!   And if a pass begins with nothing to do its file is unlinked next: `passes_are_jobs` (`specs/Passes.antt`).
//! - When the last pass that is over began is told by the past: `tried_in` (`specs/Tried.antt`). Of a message that has its channel file, when
//!   no pass of it goes on: if it was tried it is due at the next retry after that pass, and else at a moment that has come. This is said of
//!   pasts in which nothing failed for the message and no pass of it began while an attempt at it was in flight (`ArePlain`), and if its file
//!   isn't unlinked next: `tried_are_retried`. So it is of each known message on a clear channel, by what the sender keeps:
//!   `known_are_due_again` (both in `specs/Retries.antt`). A search changes nothing of it: `searches_keep_tries`.
//! - Nothing fails for a message, and no pass of it begins while an attempt at it is in flight, if at each event the channel file is there that is
//!   opened, read or unlinked, and is records alone, and nothing of its message is in flight: `served_are_plain` (`specs/Served.antt`).
//! - If the clock and each look at an info file told moments that a clock may tell, births and the moments at which passes began are such moments, and each
//!   counts as itself: `moments_are_told` (`specs/Moments.antt`).
//! - A known message that doesn't have its channel file has none, as the past told last, if that wasn't found or made while the message was
//!   known: `missing_are_gone`. At which rows that is done: `met_are_shown_first` (both in `specs/Gone.antt`). Rows of both laws: `worked_tries`.
//! - A known message may be finished at once if no finish of it failed while it was known: `finishes_at_once`. So may each if no finish
//!   was put off, by the rows: `none_is_put_off` (both in `specs/Finishes.antt`).
//! - The birth of a known message is the moment at which its info file was last written, whatever a disk has of info files, if what events tell of
//!   them is so, and no other event writes that of a message which becomes known next, or is known and not let go of: `births_are_infos`
//!   (`specs/Infos.antt`).
//! - No number of `todo` was left last if no todo pass was left: `no_number_left`. A search of `todo` goes on after a name only directly after a
//!   search that gave one which is no number: `strays_were_given` (both in `specs/Left.antt`).
//!
//! That a past is as these laws ask is not proved here: it takes the disk and the other programs.
#![tactic(auto)]

mod laws;

pub use laws::{
    births_are_infos, finishes_at_once, known_are_due_again, met_are_shown_first, missing_are_gone,
    moments_are_told, no_number_left, none_is_put_off, passes_are_jobs, searches_keep_tries,
    served_are_plain, strays_were_given, tried_are_retried, worked_tries,
};
