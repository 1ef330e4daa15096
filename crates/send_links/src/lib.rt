//! What the sender keeps of its links to the spawners (qmail-lspawn(8), qmail-rspawn(8)): the requests of a pass, as they lie
//! ready (`Requests`), and beside them what has come of a report (`Link`). Also the records of a channel file, of which requests
//! are made, and room in the log for what reports bring.
//!
//! The contracts of this crate: the requests are those of the records that read `T`, in order, each with the recipient in the
//! sender, and the first is for the slot that was named last.
//!
//! It is a crate of its own, and no part of send_core, for the checker alone: so a check of either stays short.
//!
//! # What is claimed
//!
//! - The records of a channel file; the requests of a pass, one for each record that reads `T`, with the recipient in the
//!   sender; room for the lines of reports: `records_in`, `Requests::{new, of, first, drop_first, name_slot}`, `Link::new`,
//!   `make_room`, each an equation with the definition of that name in `specs/`.
#![tactic(auto)]

mod link;
mod records;
mod requests;
mod rooms;

pub use link::Link;
pub use records::records_in;
pub use requests::{RequestText, Requests};
pub use rooms::make_room;
