//! The command `audit`: prints how many names `pid/` has, then the state of each message number that has a file in the
//! queue.
//!
//! The contract of this crate: `print_audit` prints the lines of one audit of its disk (`HasAudited`), and leaves that disk
//! as it was. The states are those of qmail's INTERNALS, "Queue structure".
//!
//! # What is claimed
//!
//! - With status 0 the output took the lines of one audit, and with 53 a prefix of them; with 51 and 54 nothing. 53
//!   only if the output's count rose; 54 only if the disk's count rose or, of a disk that tells, a directory of the
//!   queue is missing; if neither count rose and every directory is there, 0 or 51. What an audit leaves of its
//!   disk: `print_audit`: `audited` (by `HasAudited`), `unwritten`.
#![tactic(auto)]

mod printing;

pub use printing::print_audit;
