// Scripts of sh(1).

use std::io;
use std::process::Command;

/// Reads the script of the name that it is told.
const READ: &str = ". \"./$0.sh\"";

/// Whether the script `NAME.sh` ends with 0 and prints this.
pub(crate) fn shell_prints(rt: &HostRuntime, name: &str, expected: &[u8]) -> io::Result<bool> {
    let printed = Command::new(rt.alloc(), "/bin/sh")?
        .args(["-c", READ, name])?
        .output(rt)?;
    Ok(printed.status.success() && printed.stdout.as_slice() == expected)
}
