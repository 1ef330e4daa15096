//! Children as processes of the real system: what proc_runner asks of a system, by the calls of std. It is the trusted edge, whose
//! lines no contract can judge; test_children and bench/attack/children.sh try them.
//!
//! - This same program, as a member, an injector or a local delivery, is started at once, and its input is a pipe.
//! - A program of others, the remote program or `/bin/sh` for the command of a user, gets a file as its input, and is started when
//!   that is whole. So who feeds it can end at any time, and no child takes a part of a message for the whole. The file is made in
//!   a directory that is told, and loses its name at once. Whether there is something that can be started is asked before.
//! - A program of others leads a session, and so a process group, of its own. To end one is to end its group, as long as its number
//!   is its own: a shell does that, since std ends single processes alone. Of a remote program that isn't there standard error is told.
//! - Each has descriptors 0 and 1, and no other of ours; descriptor 2 is ours for this same program, and /dev/null for those of others.
//!   Of the environment it has where programs are found, and what the pages of the programs name.
//!
//! # What is claimed
//!
//! Nothing: what it does is tested.
#![tactic(auto)]

mod environment;
mod host_process;
mod host_system;
mod missing;

pub use host_process::{HostInput, HostOutput, HostProcess};
pub use host_system::{HostSystem, PARENT};
