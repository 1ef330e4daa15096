//! The rules of qmail-send(8) and qmail-control(5) on addresses: the control files, where a recipient goes, and the
//! sender that it sees.
//!
//! The contract of this crate is this. `rewrite` gives the one route that the rules give an address
//! (`laws::routes_are_exact`), `Controls::read` refuses exactly what has a fault and tells the first one
//! (`laws::faults_are_exact`), and `verp` and `strip_prefix` give the one text of theirs (`laws::names_are_exact`).
//! Look-ups ignore the case of ASCII letters, and of equal keys the first line counts.
//!
//! # What is claimed
//!
//! - What the twelve control files say, with each default. Controls are refused exactly if a file has a fault, with
//!   the first such file in the order of reading and its first line with one: `Controls::read`: `good`, `says`,
//!   `err`; the law `faults_are_exact`.
//! - Where an address goes: local or remote, and as which text: `rewrite`; the law `routes_are_exact`, by relations
//!   on whole texts (`IsRoute`).
//! - The prefix that virtualdomains gave an address taken off again; the sender with the recipient in it:
//!   `strip_prefix`, `verp`; the law `names_are_exact`.
//! - Nothing that the files say has a NUL, if none of them has a fault; and over such controls the route of an
//!   address without NUL has none: the law `texts_have_no_nul`.
#![tactic(auto)]

mod control_file;
mod controls;
mod cuts;
mod keys;
pub mod laws;
mod lines;
mod names;
mod rewriting;
mod text_list;
mod virtual_domains;

pub use control_file::ControlFile;
pub use controls::{ControlError, Controls};
pub use names::{strip_prefix, verp};
pub use rewriting::{Route, rewrite};
pub use text_list::TextList;
pub use virtual_domains::{VirtualDomain, VirtualDomains};
