//! The lives of messages, as `show` of a script reads them off the events of a world. A life lasts from the link of a message's name to
//! the next link of a name with its number. It has whose mail the message is, by which control files its recipients are
//! routed, and which of these senders took reports of that they were delivered to. Events of injectors and senders alone tell of these, so the contracts speak of the books alone (`specs/Fates.antt`); which
//! events those are stands in scenario, which goes through a world's.
//!
//! In memory is kept: of each life its mail, and a spot of each recipient that was delivered to. Of control files a copy is kept as a
//! sender gives a todo command, unless they say the same as the copy before; each life has the place of its own. Of the senders only
//! the newest is kept, by whoever goes through the events; so how many started makes no difference.
//!
//! It is a crate of its own, and no part of scenario, for the checker alone: so a check of either stays short.
//!
//! # What is claimed
//!
//! - Lives that stand for the books do so after an event of an injector, and after one of a sender, which is due by a past that is a
//!   run. Before any event they stand for none: `Fates::link` (by `booked_after`), `Fates::hear_from` (by `heard_by`),
//!   `Fates::new`.
//! - By which control files a mail's recipients are routed: those that the sender had read which last gave the todo command in
//!   its life, whatever came of the giving. `Fates::routes` (by `routes_by`).
//! - Whether a mail's message has a number and its life lasts, and whether one of its recipients was reported delivered, are as the
//!   books say: `Fates::lasts`, `Fates::is_delivered`.
#![tactic(auto)]

mod copying;
mod fates;
mod routers;

pub use fates::{Fates, Spot};
