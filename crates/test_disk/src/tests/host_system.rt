// A system whose answers are given beforehand, and that writes down what it was asked.
ghost use Rattle.std.specs.Prelude.{◌≤◌, IfOk, length};
ghost use Rattle.std.specs.Io.{ReadsAtMost};

use super::host_steps::bytes;
use call_fs::How;
use host_fs::{Facts, System};
use mail_bytes::Memory;
use std::alloc::{AllocError, Global};
use std::cell::{Cell, RefCell};
use std::io::{self, ErrorKind, Read};
use std::rc::Rc;
use std::time::Duration;

/// A system that answers each call by the next reply, and fails once there is none. Replies are parted by `, `:
///
/// - `done`: it was done; `count N`: so many bytes were read or written, or as many as were asked for if those are fewer;
///   `bytes TEXT`: these bytes were read;
/// - `file NUMBER LENGTH MODIFIED`: a file; `special`: a FIFO, a device or the like; `dir`: a directory that was changed one second
///   after 1970 began; `dir NUMBER LENGTH MODIFIED NANOS CHANGED NANOS`: a directory that is told so;
/// - `clock N`: so many nanoseconds since 1970;
/// - `missing`, `no_directory`, `there`, `forbidden`, `interrupted`, `is_directory`, `other`: it failed so.
#[derive(Drop)]
pub struct Scripted(Rc<Script>);

/// The replies that are left, how many files were opened, and what was asked.
#[derive(Drop)]
pub struct Script {
    alloc: Global,
    replies: Cell<&'static str>,
    opened: Cell<u64>,
    asked: RefCell<String>,
}

/// What the scripted system has opened: the first file has the number 0.
#[derive(Drop)]
pub struct Opened(u64);

/// A listing of the scripted system.
#[derive(Drop)]
pub struct Names(Rc<Script>);

impl Scripted {
    /// A system without replies.
    pub fn new(alloc: Global) -> Result<Self, Memory> {
        let script = Script {
            alloc,
            replies: Cell::new(""),
            opened: Cell::new(0),
            asked: RefCell::new(String::new(alloc)),
        };
        Ok(Scripted(Rc::new(alloc, script)?))
    }

    /// Gives it replies, in place of those that are left.
    pub fn set_replies(&self, replies: &'static str) {
        self.0.replies.set(replies);
    }

    /// What it was asked since this was last called, each call before a `;`, and then the answer that was given above, and
    /// that replies are left, if so.
    pub fn seen(&self, answer: &str) -> String {
        let mut seen = match self.0.asked.try_replace(String::new(self.0.alloc)) {
            Ok(asked) => asked,
            Err(_) => String::new(self.0.alloc),
        };
        let _ = seen.push_str(answer);
        if !self.0.replies.get().is_empty() {
            let _ = seen.push_str("; replies are left");
        }
        seen
    }
}

impl Script {
    /// Writes a call down, and tells the reply.
    fn ask(&self, call: Result<String, AllocError>) -> &'static str {
        if let (Ok(call), Ok(mut asked)) = (call, self.asked.try_borrow_mut()) {
            let _ = asked.push_str(call.as_str());
            let _ = asked.push_str("; ");
        }
        let replies = self.replies.get();
        let (first, rest) = replies.split_once(", ").unwrap_or((replies, ""));
        self.replies.set(rest);
        first
    }

    /// As `ask`, if the call doesn't fail.
    fn ask_well(&self, call: Result<String, AllocError>) -> io::Result<&'static str> {
        let reply = self.ask(call);
        match failure_of(reply) {
            Some(kind) => Err(io::Error::from(kind)),
            None => Ok(reply),
        }
    }

    /// As `ask`, of a call that tells nothing.
    fn ask_done(&self, call: Result<String, AllocError>) -> io::Result<()> {
        match self.ask_well(call) {
            Ok(_) => Ok(()),
            Err(why) => Err(why),
        }
    }

    /// As `ask`, of a call that opens a file.
    fn ask_file(&self, call: Result<String, AllocError>) -> io::Result<Opened> {
        self.ask_done(call)?;
        let number = self.opened.get();
        self.opened.set(number.wrapping_add(1));
        Ok(Opened(number))
    }

    /// As `ask`, of a call that tells what a file is.
    fn ask_facts(&self, call: Result<String, AllocError>) -> io::Result<Facts> {
        match self.ask_well(call) {
            Ok(reply) => Ok(facts_of(reply)),
            Err(why) => Err(why),
        }
    }

    /// As `ask`, of the clock.
    fn ask_clock(&self) -> io::Result<Duration> {
        match self.ask_well(format!(in self.alloc; "clock")) {
            Ok(reply) => Ok(Duration::from_nanos(number_of(reply, "clock "))),
            Err(why) => Err(why),
        }
    }

    /// As `ask`, of a call that may move at most so many bytes.
    fn ask_count(&self, call: Result<String, AllocError>, most: usize) -> io::Result<usize>
        ensures { IfOk result (λ count. count ≤ most) }
    {
        match self.ask_well(call) {
            Ok(reply) => Ok((number_of(reply, "count ") as usize).min(most)),
            Err(why) => Err(why),
        }
    }

    /// As `ask`, of a call that reads bytes.
    fn ask_bytes(&self, call: Result<String, AllocError>, into: &mut [u8]) -> io::Result<usize>
        ensures { ReadsAtMost result into.new }
    {
        match self.ask_well(call) {
            Ok(reply) => {
                let read = bytes(self.alloc, reply.strip_prefix("bytes ").unwrap_or(""));
                let count = copy(&read, into);
                drop(read);
                Ok(count)
            }
            Err(why) => Err(why),
        }
    }
}

/// How a reply fails, if it does.
fn failure_of(reply: &str) -> Option<ErrorKind> {
    match reply {
        "missing" => Some(ErrorKind::NotFound),
        "no_directory" => Some(ErrorKind::NotADirectory),
        "there" => Some(ErrorKind::AlreadyExists),
        "forbidden" => Some(ErrorKind::PermissionDenied),
        "interrupted" => Some(ErrorKind::Interrupted),
        "is_directory" => Some(ErrorKind::IsADirectory),
        "" | "other" => Some(ErrorKind::Other),
        _ => None,
    }
}

/// The number after this name, if it is the reply; else 0.
fn number_of(reply: &str, name: &str) -> u64 {
    match reply.strip_prefix(name) {
        Some(number) => number.parse::<u64>().unwrap_or(0),
        None => 0,
    }
}

/// The number of this place among those of a reply, from 0 on.
fn number_at(reply: &str, place: usize) -> Option<i64> {
    reply
        .split(' ')
        .nth(place.saturating_add(1))?
        .parse::<i64>()
        .ok()
}

/// What a reply tells of a file. Of one that isn't told with numbers these are those of a directory that was changed one
/// second after 1970 began.
fn facts_of(reply: &str) -> Facts {
    let is_file = reply.starts_with("file ");
    let modified = number_at(reply, 2).unwrap_or(1);
    let changed = if is_file { modified } else { 1 };
    Facts {
        is_dir: reply.starts_with("dir"),
        is_file,
        number: number_at(reply, 0).unwrap_or(2).unsigned_abs(),
        length: number_at(reply, 1).unwrap_or(4096).unsigned_abs(),
        modified,
        modified_nanos: number_at(reply, 3).unwrap_or(0),
        changed: number_at(reply, 4).unwrap_or(changed),
        changed_nanos: number_at(reply, 5).unwrap_or(0),
    }
}

/// Copies what there is room for, and tells how many bytes those were.
fn copy(bytes: &[u8], into: &mut [u8]) -> usize
    ensures count { result ≤ length into.new }
{
    let count = bytes.len().min(into.len());
    into[..count].copy_from_slice(&bytes[..count]);
    count
}

impl Read for Names {
    fn read(&mut self, into: &mut [u8]) -> io::Result<usize> {
        let call = format!(in self.0.alloc; "names");
        self.0.ask_bytes(call, into)
    }
}

impl<'s> System for &'s Scripted {
    type File = Opened;

    type Listing = Names;

    fn create(&self, path: &str) -> io::Result<Opened> {
        self.0.ask_file(format!(in self.0.alloc; "create {path}"))
    }

    fn open(&self, path: &str, how: How) -> io::Result<Opened> {
        self.0
            .ask_file(format!(in self.0.alloc; "open {path} {how:?}"))
    }

    fn list(&self, path: &str) -> io::Result<Names> {
        self.0.ask_done(format!(in self.0.alloc; "list {path}"))?;
        Ok(Names(self.0.clone()?))
    }

    fn stat(&self, path: &str) -> io::Result<Facts> {
        self.0.ask_facts(format!(in self.0.alloc; "stat {path}"))
    }

    fn fstat(&self, file: &Opened) -> io::Result<Facts> {
        let number = file.0;
        self.0.ask_facts(format!(in self.0.alloc; "fstat {number}"))
    }

    fn read_at(&self, file: &Opened, into: &mut [u8], at: u64) -> io::Result<usize> {
        let (number, len) = (file.0, into.len());
        self.0
            .ask_bytes(format!(in self.0.alloc; "read {number} {at} {len}"), into)
    }

    fn write_at(&self, file: &Opened, bytes: &[u8], at: u64) -> io::Result<usize> {
        let (number, text) = (file.0, bytes.escape_ascii());
        self.0.ask_count(
            format!(in self.0.alloc; "write {number} {at} {text}"),
            bytes.len(),
        )
    }

    fn append(&self, file: &Opened, bytes: &[u8]) -> io::Result<usize> {
        let (number, text) = (file.0, bytes.escape_ascii());
        self.0.ask_count(
            format!(in self.0.alloc; "append {number} {text}"),
            bytes.len(),
        )
    }

    fn set_len(&self, file: &Opened, len: u64) -> io::Result<()> {
        let number = file.0;
        self.0
            .ask_done(format!(in self.0.alloc; "set_len {number} {len}"))
    }

    fn sync(&self, file: &Opened) -> io::Result<()> {
        let number = file.0;
        self.0.ask_done(format!(in self.0.alloc; "sync {number}"))
    }

    fn link(&self, old: &str, new: &str) -> io::Result<()> {
        self.0
            .ask_done(format!(in self.0.alloc; "link {old} {new}"))
    }

    fn unlink(&self, path: &str) -> io::Result<()> {
        self.0.ask_done(format!(in self.0.alloc; "unlink {path}"))
    }

    fn make_dir(&self, path: &str) -> io::Result<()> {
        self.0.ask_done(format!(in self.0.alloc; "make_dir {path}"))
    }

    fn now(&self) -> io::Result<Duration> {
        self.0.ask_clock()
    }
}
