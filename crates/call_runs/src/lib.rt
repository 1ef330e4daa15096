//! Lists of file calls, made one after the other on any disk, and the two forms of a disk in memory.
//!
//! # What is claimed
//!
//! - A list of calls is made one after the other, each with what `perform` says of it, up to the first one that uses a
//!   descriptor that none of them has opened so, or doesn't meet another condition: `run_calls`: `ran` (`Runs`, of the
//!   record `Performs`), `stops` (`StopsAt`), `err`.
//! - The disk in memory that is plain lists, gone through from the first to the last, meets the same clauses as the one
//!   with its tree and its free numbers, of which it uses nothing: `impl CallFs for PlainFs`: `went`, `counts`.
//! - Two disks in memory that hold the same, with the same picks and faults, give each list of calls the same answers,
//!   numbers included, as long as no answer is that memory ran out: the law `forms_are_alike`.
#![tactic(auto)]

mod laws;
mod pairs;
mod plain_file;
mod plain_files;
mod plain_fs;
mod plain_lists;
mod plain_names;
mod plan;
mod running;

pub use laws::forms_are_alike;
pub use plain_fs::PlainFs;
pub use running::run_calls;
