//! The `.qmail` files of a home: which of them handles an address, and what one tells to do (dot-qmail(5), qmail-local(8)).
//!
//! The contract of this crate: `choose` and `plan` give exactly what the manual's rules say of whole texts. The laws say the
//! same rules as relations.
//!
//! # What is claimed
//!
//! - What the lines of a `.qmail` file tell to do, exact, and that a file is refused exactly if it has a first line
//!   and that is blank: `plan`: `ok`, `err` (by `plan_of`).
//! - Which file of a home handles an address: the first that is there of the names that are looked for, of equal
//!   names the first. The default line exactly if there is no dash and no `.qmail`; no mailbox exactly if there is
//!   a dash and none of the names: `choose`: `ok`, `err` (by `chosen`).
//! - The stems of the default names are the prefixes of ext that end in `-`, and the empty one, the longest first.
//!   The name that is taken is there and none of the names before it is, and nothing is taken only if all are
//!   missing: the laws `stems_are_exact` (by `IsStem`, `StandsByLength`), `the_first_is_taken` (by `IsFirstThere`,
//!   `IsMissing`).
//! - Where a path of such a file leads; the path of a maildir line ends in `/`, and so does the one to which it
//!   leads: `path_in`; the law `maildirs_end_so`.
//! - The name of the file that is looked for first: `.qmail`, the dash, and ext with lower case for upper case and
//!   colons for dots: `full_name`.
#![tactic(auto)]

mod choice;
pub mod laws;
mod line;
mod path;
mod rank;

pub use choice::{ChooseError, Chosen, choose, full_name};
pub use line::{Line, PlanError, plan};
pub use path::path_in;
