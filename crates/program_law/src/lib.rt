//! What programs rely on over the queue, and what their events and those of others keep of it, a module a subject. The laws are the
//! contracts of functions that do nothing.
//!
//! # What is claimed
//!
//! Most laws are steps of the proof of the headline (world_law): what one event keeps. Each module has its own under the same words:
//!
//! - `channels`: what a sender keeps of a channel is tied to the records of its files.
//! - `deliveries`: what a local delivery rests on; the names of its drops are apart from all that other programs name.
//! - `errands`: what is under way between a sender and its cleaner. A cleaner takes only old names in `pid` away: `old_names_go`.
//! - `posts`: what lies between a sender and a spawner, and of which attempt each report is.
//! - `senders`: what a living sender relies on. Each disk has controls, and no program of the queue changes a control file:
//!   `controls_exist`, `controls_stay`. A sender reads them as they are: `controls_are_read`.
#![tactic(auto)]

pub mod channels;
pub mod deliveries;
pub mod errands;
pub mod posts;
pub mod senders;
