// What a child gets of the environment.

use std::env::{self, VarError};
use std::io::{self, ErrorKind};
use std::process::Command;

/// The variables that a child gets: where programs are found, where this program and its queue lie, how long a child may run, and
/// where files go that are there for a while.
const PASSED: [&str; 5] = ["PATH", "QMAIL", "QUEUEDIR", "QMAIL_DRAIN_MS", "TMPDIR"];

/// Lets a command have these variables of the program's own environment, as far as they are set to text, and no others.
pub(crate) fn pass_on(rt: &HostRuntime, command: &mut Command) -> io::Result<()> {
    command.env_clear();
    for name in PASSED {
        match env::var(rt, name) {
            Ok(value) => {
                command.env(name, value.as_str())?;
            }
            Err(VarError::NotPresent | VarError::NotUnicode) => {}
            Err(VarError::OutOfMemory) => return Err(io::Error::from(ErrorKind::OutOfMemory)),
        }
    }
    Ok(())
}
