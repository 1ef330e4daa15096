//! File calls over a real directory.
//!
//! The contract of this crate: `HostFs` is a `CallFs` that doesn't tell what it holds. Each answer is one that its call may
//! get, and a fault comes only when the count of faults rose. What a real file holds no contract can say. So the calls of
//! the system stand in one trait, `System`, one call each, and a test can stand in for them: open(2), pread(2), pwrite(2),
//! write(2), ftruncate(2), fsync(2), close(2), link(2), unlink(2), stat(2), mkdir(2), getdents(2) and clock_gettime(2).
//! What is decided above them stands in functions over values as far as it can, each of them exact. They tell which names
//! are taken, which path is handed on, what each refusal means, and which bytes lie below a length. They also tell which
//! name of a listing comes next, and when the names of a directory may be kept.
//!
//! # What is claimed
//!
//! - A real directory, over any `System`, is a disk that doesn't tell: each call gets an answer of a kind that it
//!   may get, and a call faults exactly when it increments the fault counter, which saturates at u64::MAX. The root
//!   stays. A new descriptor wasn't open before, a closed one isn't open any more, and a call serves only one that
//!   is open and fits. A name that has no path below the root is a fault; a name of a listing comes after the one
//!   asked for, is UTF-8 and one part. Exact: which names are taken and what path each is; what a refusal of the
//!   system means; which bytes lie below a length; the moment of a file. Also exact: which entries of a piece of a
//!   listing are kept (in byte order, each once), and which of them come after one. Also when a directory is at
//!   rest, and whether what is kept is of this directory with the same facts. Contracts: `impl CallFs for HostFs`:
//!   `went`, and `serves` (the record `Serves`: `root`, `count`, `no_path`, `opens`, `fits`, `later`); inside
//!   `path_of`, `refused`, `missing_or_fault`, `lying`, `moment_of`, `is_nearer`, `Entries` (`AreEntries`,
//!   `add_entries`, `in_order`, `after`), `is_at_rest`, `unchanged`.
#![tactic(auto)]

mod directories;
mod entries;
mod files;
mod host_fs;
mod kept;
mod leaving;
mod listing;
mod open_file;
mod paths;
mod queue_files;
mod refusals;
mod system;
mod table;
mod transfers;

pub use host_fs::HostFs;
pub use leaving::{Leaving, start_helpers};
pub use queue_files::QueueFiles;
pub use system::{Facts, System};
