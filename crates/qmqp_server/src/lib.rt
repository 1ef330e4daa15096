//! The command `qmqpd`: one message comes in one package, is put into a queue as it is read, and one answer is given
//! (qmail-qmqpd(8)).
//!
//! A package is a netstring of netstrings: the message, the sender, and each recipient. Of it no more than a piece is in
//! memory, however long it is; no byte after it is taken. `receive` reads the lengths of the package and of the message,
//! starts the injector of queue_inject, feeds it what it asks for, and lets it take a turn whenever it has that. An
//! injector that has ended early is fed no more, and the rest of the package is passed over.
//!
//! # What is claimed
//!
//! - One package, over any disk, clock, source and sink: what was read of the source, why it is no package, or which
//!   message, sender and recipients it has; the injection, for each input that it may be; and the answer that was given:
//!   `receive` (by `HasReceived`).
//! - A text begins with at most one package, of one message, one sender and one list of recipients: the law
//!   `packages_are_exact` (by `PackagesAreExact`). Malformed bytes begin none, and those that are cut hold none:
//!   `faults_exclude_packages`, `cuts_exclude_packages` (by `FaultsExcludePackages`, `CutsExcludePackages`).
//! - Of a package within the limit with good addresses an injector gets what may be queued: `packages_have_envelopes` (by
//!   `PackagesHaveEnvelopes`), and so the answer to it is `K`, or `Zstatus 51`, by `HasReceived`, where the queue's names and
//!   its disk let it be.
#![tactic(auto)]

mod answer;
mod heads;
mod injecting;
mod laws;
mod reader;
mod reading;
mod receiving;

pub use laws::{
    cuts_exclude_packages, faults_exclude_packages, packages_are_exact, packages_have_envelopes,
};
pub use receiving::receive;
