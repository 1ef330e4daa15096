//! The names of actors, which the world and the scripts share.
//!
//! An actor's name is held in place. Which names mails and the members of a generation may have is written in
//! `specs/MailNames.antt`, which the injectors of bounces, local deliveries and the injectors of what these forward have in
//! `specs/ChildNames.antt`.
//!
//! The laws `child_names_differ` and `child_names_are_their_own` say that names of two kinds are never the same, nor those of two
//! numbers.
//!
//! # What is claimed
//!
//! - Which names mails and the members of a generation may have; the names of the K-th bounce, of the K-th local
//!   delivery and of what that forwards. A name of up to 24 bytes, held in place: `is_mail_name` (by `IsMailName`),
//!   `is_member`, `bounce_name`, `delivery_name`, `forward_of`, `ActorName::{of, as_slice, copy, is}`.
//! - Which member of a generation has which name and which seat: `Member::{of, name, actor_name, seat, at}`.
//! - Bounces, deliveries and forwards have a name of their own for each number and each kind, and none is that of a
//!   mail or of a member of a generation: the laws `child_names_differ`, `child_names_are_their_own`.
#![tactic(auto)]

mod actor_name;
mod child_name;
mod laws;
mod mail_name;
mod member;

pub use actor_name::ActorName;
pub use child_name::{bounce_name, delivery_name, forward_of};
pub use laws::{child_names_are_their_own, child_names_differ};
pub use mail_name::{is_mail_name, is_member};
pub use member::Member;
