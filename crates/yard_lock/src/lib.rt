//! A lock that threads take by tickets, each with a pass, and one list of all turns that were taken.
//!
//! A yard holds a state. Who holds a pass may step it, one at a time, in the order of their tickets. What this crate promises is said
//! of any state with steps (`Stepped`): all turns stand in one list, by which the state came from the one at the start (`Replay` in
//! `specs/Turns.antt`), and each pass has seen a prefix of it. Who has the whole pass can close the yard, and gets the state.
//!
//! It is the ticket lock of Reed and Kanodia (1979): a word with the next ticket, a word with the ticket that is served, and one place
//! for the state. A thread that waits looks for its turn for a while, and then sleeps until a turn ends.
//!
//! # What is claimed
//!
//! - A step adds its turn at the end of what its pass has seen: the pass's number, what was asked, and the answer. What it had seen
//!   before is a prefix of what it has seen after; of the turns with its number the list has those that it took, each once and in
//!   order; and all that it has seen leads from the state at the start to some state: `Yard::step` (by `Took`).
//! - A step that finds no memory leaves the state as it was, and its turn stands in the list: `Stepped::apply`: `memory`; `Moved`.
//! - A pass that is split off has seen what the other one had, and none of those turns is its own; its number is above the other's.
//!   A pass that takes in another has seen the longer of the two, and what each had seen is a prefix of that; the turns with the
//!   number of either are those that it had: `Pass::split`, `Pass::join`.
//! - Who closes the yard gets the state after all turns. These are what its pass has seen, and lead to it from the one at the start; no
//!   other pass is left, and each ticket has had its turn: `Yard::close` (by `Ended`), and the law `laws::whole_passes_have_seen_all`.
//! - What all passes have seen, spent ones too, are prefixes of one list, whatever thread holds them; each finds there just its own
//!   turns with its number, and a number that no pass has stands nowhere. At most one pass has the state, and no two have one
//!   ticket: the rule of the lock's table (`Ruled`), and the law `laws::turns_are_one_list`. The list only grows: by
//!   `laws::turns_only_grow`.
//! - It isn't claimed who comes next, that a turn ever comes, that a thread that sleeps is woken, nor in which order passes were
//!   split that never met.
#![tactic(auto)]

pub mod laws;
mod pass;
mod plays;
mod ticket_lock;
mod turn;
mod view;
mod yard;

pub use pass::{Pass, PassOf};
pub use turn::{Stepped, Turn};
pub use yard::Yard;
