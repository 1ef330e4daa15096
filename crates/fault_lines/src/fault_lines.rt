// The lines, and when each was told.
ghost use Rattle.std.specs.Prelude.{◌≡◌};

use mail_bytes::Memory;
use std::alloc::Global;
use std::cell::{Cell, RefCell};
use std::io::{self, Write};
use std::str;
use std::time::{SystemTime, UNIX_EPOCH};

/// For how many seconds a line isn't told again.
const QUIET: u64 = 60;

/// How many lines are told in so many seconds.
const MOST: usize = 200;

/// How many letters of a name stand in a line.
const LONGEST: usize = 300;

/// A line that was told, and when, in seconds since 1970.
#[derive(Drop)]
struct Told {
    line: String,
    at: u64,
}

/// What tells faults on standard error, each line at most once a minute.
#[derive(Drop)]
pub struct FaultLines {
    rt: HostRuntime,
    alloc: Global,
    told: RefCell<Vec<Told>>,
    reason: Cell<Option<i32>>,
}

impl FaultLines {
    /// Nothing was told, and nothing refused.
    pub fn new(rt: &HostRuntime, alloc: Global) -> Self
        ensures { result.alloc ≡ alloc }
    {
        FaultLines {
            rt: *rt,
            alloc,
            told: RefCell::new(Vec::new(alloc)),
            reason: Cell::new(None),
        }
    }

    /// Nothing was refused from now on.
    pub(crate) fn clear(&self) {
        self.reason.set(None);
    }

    /// The system refused a call, for the reason of this number if it gave one.
    pub(crate) fn note(&self, code: Option<i32>) {
        self.reason.set(code);
    }

    /// Tells that this call of this name failed, for what was noted last.
    pub(crate) fn tell(&self, call: &str, name: &[u8]) {
        let now = seconds(&self.rt);
        if let Ok(line) = line_of(self.alloc, call, name, self.reason.get()) {
            self.tell_line(line, now);
        }
    }

    /// Tells that this program couldn't be started.
    pub(crate) fn tell_start(&self, program: &[u8]) {
        let now = seconds(&self.rt);
        if let Ok(line) = line_with(self.alloc, "start", program, "it can't be started") {
            self.tell_line(line, now);
        }
    }

    /// Tells that this call of a child failed.
    pub(crate) fn tell_channel(&self, call: &str, chan: u32) {
        let now = seconds(&self.rt);
        if let Ok(line) = format!(in self.alloc; "fault: {call} child {chan}: it failed\n") {
            self.tell_line(line, now);
        }
    }

    /// Tells this line, unless it was told less than a minute before, or too many were.
    fn tell_line(&self, line: String, now: u64) {
        let Ok(mut told) = self.told.try_borrow_mut() else {
            return;
        };
        told.retain(|told| told.at <= now && now - told.at < QUIET);
        let is_old = told.iter().any(|told| told.line.as_str() == line.as_str());
        if is_old || told.len() >= MOST {
            return;
        }
        let mut errors = self.rt.stderr();
        let _given = errors.write(line.as_bytes());
        let _kept = told.push(Told { line, at: now });
    }
}

/// The time in seconds since 1970, 0 if it can't be told.
fn seconds(rt: &HostRuntime) -> u64 {
    match SystemTime::now(rt) {
        Ok(now) => match now.duration_since(UNIX_EPOCH) {
            Ok(now) => now.as_secs(),
            Err(_) => 0,
        },
        Err(_) => 0,
    }
}

/// The line of this call of this name, for the reason of this number if the system gave one.
pub(crate) fn line_of(
    alloc: Global,
    call: &str,
    name: &[u8],
    code: Option<i32>,
) -> Result<String, Memory> {
    match code {
        Some(code) => {
            let why = io::Error::from_raw_os_error(code);
            let text = format!(in alloc; "{why}")?;
            line_with(alloc, call, name, words_of(text.as_str()))
        }
        None => line_with(alloc, call, name, "no regular file, or no name of one"),
    }
}

/// What strerror(3) has of the text of an error.
fn words_of(text: &str) -> &str {
    match text.split_once(" (os error") {
        Some((words, _)) => words,
        None => text,
    }
}

/// The line of this call of this name, for this reason.
fn line_with(alloc: Global, call: &str, name: &[u8], why: &str) -> Result<String, Memory> {
    let mut line = String::from_str(alloc, "fault: ")?;
    line.push_str(call)?;
    line.push(' ')?;
    match str::from_utf8(name) {
        Ok(text) => put_text(&mut line, text)?,
        Err(_) => put_bytes(&mut line, name)?,
    }
    line.push_str(": ")?;
    line.push_str(why)?;
    line.push('\n')?;
    Ok(line)
}

/// Puts a name at the end of a line.
fn put_text(line: &mut String, name: &str) -> Result<(), Memory> {
    for letter in name.chars().take(LONGEST) {
        line.push(if letter.is_control() { '?' } else { letter })?;
    }
    Ok(())
}

/// Puts a name that isn't UTF-8 at the end of a line.
fn put_bytes(line: &mut String, name: &[u8]) -> Result<(), Memory> {
    for byte in name.iter().take(LONGEST) {
        let is_shown = byte.is_ascii_graphic();
        line.push(if is_shown { char::from(*byte) } else { '?' })?;
    }
    Ok(())
}
