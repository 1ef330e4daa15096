//! What the sender and a spawner tell each other: requests, and the reports that answer them.
//!
//! The contract of this crate: a text of requests is whole requests and the start of one more, and a text of reports
//! likewise. A reader that is fed byte by byte holds what its bytes are, however they are cut, and takes no others.
//! `requests_are_exact` and `reports_are_exact` say that each text is so in one way alone, and `cuts_are_requests` that
//! the first request of some bytes is found exactly if it is whole. The public pages are qmail-lspawn(8) and
//! qmail-rspawn(8); the letters of reports are this project's own.
//!
//! # What is claimed
//!
//! - A text of requests is whole requests and the start of one more, or has a field with a 4097th byte; a text of
//!   reports is whole reports and the start of one more. The readers keep, byte by byte, what their bytes are,
//!   however they are cut. Each text is so in exactly one way; the text of what a reader can give is read back
//!   whatever follows it. Nothing after a field that is too long is a text; of a longer report the first 9,998
//!   bytes of text are kept. The first request of some bytes is found exactly if it is whole, with how many bytes
//!   it has; else they are told to be the start of one at most, or to have a field that is too long. Contracts:
//!   `RequestReader::{new, feed}`, `ReportReader::{new, feed, hear, copy}`, `request_text`, `report_text`,
//!   `cut_request`, `Report::counts_as`, the laws `requests_are_exact`, `cuts_are_requests`, `reports_are_exact`.
//! - What a spawner holds of its requests: what it took and hasn't dealt with, and whether it takes more. The next
//!   request is the first one of those bytes if it is whole; after a field that is too long it takes no more:
//!   `Inbox::{new, ended, with_more, pull}`, by `pull` (`specs/Inbox.antt`); `numbered`.
#![tactic(auto)]

mod cut;
mod inbox;
mod laws;
mod report;
mod request;

pub use cut::{Cut, cut_request};
pub use inbox::{Inbox, Intake, Pulled};
pub use laws::{cuts_are_requests, reports_are_exact, requests_are_exact};
pub use report::{Heard, Report, ReportReader, numbered, report_text};
pub use request::{CodecError, Request, RequestReader, request_text};
