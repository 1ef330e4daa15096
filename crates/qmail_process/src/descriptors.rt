// Descriptors 0 to 2.

use std::fs::File;
use std::os::fd::AsRawFd;

/// The last descriptor that is a stream of the program.
const LAST: i32 = 2;

/// What stands for those of descriptors 0 to 2 that were closed when this process began: a directory, which can be neither read
/// as a stream nor written. So no file that is opened later is taken for standard input, output or error.
#[derive(Drop)]
pub(crate) struct Descriptors {
    first: Option<File>,
    second: Option<File>,
    third: Option<File>,
}

impl Descriptors {
    /// Opens a directory for each of them that is closed.
    pub(crate) fn fill(rt: &HostRuntime) -> Self {
        let mut filled = Descriptors {
            first: low(rt),
            second: None,
            third: None,
        };
        if filled.first.is_some() {
            filled.second = low(rt);
            filled.third = low(rt);
        }
        filled
    }
}

/// A directory that is open under one of these numbers; None if all three are taken.
fn low(rt: &HostRuntime) -> Option<File> {
    let directory = match File::open(rt, "/") {
        Ok(directory) => directory,
        Err(_) => File::open(rt, "/proc/self").ok()?,
    };
    if directory.as_raw_fd() > LAST {
        return None;
    }
    Some(directory)
}
