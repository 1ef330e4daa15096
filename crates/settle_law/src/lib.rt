//! What `settle` leads to: when a queue has come to rest, and how the line ends. The laws are the contracts of functions that do nothing.
//!
//! # What is claimed
//!
//! - Each `settle` line of a script that is played prints nothing, `refused steps ACTOR`, or `refused rounds settle`, this just if it made as many
//!   rounds as it may. If it prints nothing its last round was idle, and in it an idle turn ended of each actor that searches, which is the
//!   sender. If nothing troubled the queue until then, the state is settled then; and no message is left if each report was of a success:
//!   `lines_settle`, by `SettlesThere` (`specs/Lines.antt`).
//! - So it is of any history in which all goes well until `settle` has printed nothing, from a first disk that has no name in `todo`: `settles_end`,
//!   `successes_end`, by `HasSettled` (`specs/Promised.antt`).
//! - A state is settled if each message is gone, or is preprocessed and waits for its next retry on each channel on which a record of it reads
//!   `T`, and on one at least: `Settled` (`specs/Settled.antt`).
//! - At each such rest, whole idle turns with as many searches as they have, one of each actor that searches (`AreIdleTurns`, `specs/Ends.antt`), the
//!   facts hold of which a settled state comes, by what the sender keeps then: `rests_hold`, by `HasRest` (`specs/Suffices.antt`).
//!
//! The steps of the proof are contracts too (`src/steps.rt`), for no other crate; their words stand in `specs/inside`.
#![tactic(auto)]

mod laws;
mod steps;

pub use laws::{lines_settle, rests_hold, settles_end, successes_end};
