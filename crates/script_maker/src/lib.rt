//! Makes a script of `play` that puts a load on the queue: a user with a maildir, as many mails as are wanted, and a sender
//! that delivers them.
//!
//! The contract of this crate: `make` gives its output the script of a seed and a count (`script_of`), whose mails are
//! drawn at random, and are the same for the same seed.
//!
//! # What is claimed
//!
//! - After Ok the output took exactly that script, and after an error a prefix of it: `make`: `all`, `part`. `Failed` only if
//!   the output's count rose; otherwise that count is as before: `cause`.
//! - The greatest seed, as a figure: the law `last_seed_is_this`.
#![tactic(auto)]

mod draws;
mod error;
mod laws;
mod mails;
mod making;
mod words;

pub use draws::LAST_SEED;
pub use error::MakeError;
pub use laws::last_seed_is_this;
pub use making::make;
