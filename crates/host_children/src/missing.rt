// A line on standard error for a remote program that isn't there.

use std::alloc::{AllocError, Global};
use std::io::Write;
use std::os::unix::fs::MetadataExt;
use std::sync::atomic::{AtomicU64, Ordering};
use std::time::{SystemTime, UNIX_EPOCH};
use std::{env, fs};

/// The bits of a file's mode of which one says that somebody may execute it.
pub(crate) const EXECUTABLE: u32 = 0o111;

/// Where programs are looked for if the environment doesn't say it.
const USUAL: &str = "/bin:/usr/bin";

/// For how many seconds the line isn't told again.
const QUIET: u64 = 60;

/// When the line was told, in seconds since 1970; 0 if it wasn't.
#[derive(Drop)]
pub(crate) struct Missing {
    told: AtomicU64,
}

impl Missing {
    /// It wasn't told.
    pub(crate) fn new() -> Self {
        Missing {
            told: AtomicU64::new(0),
        }
    }

    /// Gives standard error a line if this program isn't there or can't be executed, at most one a minute. It is looked for as
    /// execvp(3) does. The error: out of memory.
    pub(crate) fn tell(
        &self,
        rt: &HostRuntime,
        alloc: Global,
        program: &str,
    ) -> Result<(), AllocError> {
        if can_start(rt, alloc, program)? || !self.is_due(rt) {
            return Ok(());
        }
        let line = line_of(alloc, program)?;
        let mut errors = rt.stderr();
        let _given = errors.write(line.as_bytes());
        drop(line);
        Ok(())
    }

    /// Whether the line wasn't told in the last minute; then it is told now.
    fn is_due(&self, rt: &HostRuntime) -> bool {
        let now = seconds(rt);
        let told = self.told.load(Ordering::SeqCst);
        let is_due = told == 0 || now < told || now - told >= QUIET;
        if is_due {
            self.told.store(now, Ordering::SeqCst);
        }
        is_due
    }
}

/// The time in seconds since 1970, 0 if it can't be told.
fn seconds(rt: &HostRuntime) -> u64 {
    match SystemTime::now(rt) {
        Ok(now) => match now.duration_since(UNIX_EPOCH) {
            Ok(now) => now.as_secs(),
            Err(_) => 0,
        },
        Err(_) => 0,
    }
}

/// The line for this program. What would end it, or change how it is shown, is `_`.
fn line_of(alloc: Global, program: &str) -> Result<String, AllocError> {
    let mut line = String::from_str(alloc, "fault: start ")?;
    for letter in program.chars() {
        line.push(if letter.is_control() { '_' } else { letter })?;
    }
    line.push_str(": no such program, or it can't be executed\n")?;
    Ok(line)
}

/// Whether there is a file of this name that can be executed.
fn can_start(rt: &HostRuntime, alloc: Global, program: &str) -> Result<bool, AllocError> {
    if program.contains('/') {
        return Ok(is_executable(rt, program));
    }
    match env::var(rt, "PATH") {
        Ok(path) => is_in(rt, alloc, path.as_str(), program),
        Err(_) => is_in(rt, alloc, USUAL, program),
    }
}

/// Whether one of these directories has such a file.
fn is_in(rt: &HostRuntime, alloc: Global, path: &str, program: &str) -> Result<bool, AllocError> {
    for dir in path.split(':') {
        let dir = if dir.is_empty() { "." } else { dir };
        let file = format!(in alloc; "{dir}/{program}")?;
        let is_there = is_executable(rt, file.as_str());
        drop(file);
        if is_there {
            return Ok(true);
        }
    }
    Ok(false)
}

/// Whether this is a regular file that somebody may execute.
pub(crate) fn is_executable(rt: &HostRuntime, path: &str) -> bool {
    match fs::metadata(rt, path) {
        Ok(facts) => facts.is_file() && facts.mode() & EXECUTABLE != 0,
        Err(_) => false,
    }
}
