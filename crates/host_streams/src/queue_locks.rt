// The locks of a queue's members.

use crate::writer_sink::WriterSink;
use mail_bytes::{ByteText, Memory, undec};
use outside::Sink;
use std::alloc::{AllocError, Global};
use std::env::{self, VarError};
use std::fs::{self, File, Metadata, OpenOptions, TryLockError};
use std::io::{self, ErrorKind};
use std::os::unix::fs::MetadataExt;
use std::os::unix::process::parent_id;
use std::time::Duration;
use std::{str, thread};

/// The member that starts the others.
const SENDER: &[u8] = b"send";

/// The members that a sender starts.
const STARTED: [&[u8]; 3] = [b"clean", b"lspawn", b"rspawn"];

/// What the system answers for a file of a file system that has no locks: ENOLCK and EOPNOTSUPP.
const NO_LOCKS: [i32; 2] = [37, 95];

/// How often a lock that another process has is asked for before it is waited for, and how many milliseconds later each time: a
/// look whether it is held (`is_locked`) holds it for a moment.
const ASKS: u32 = 10;

const NAP: u64 = 10;

/// The lock of a member of a queue's generation. No other process gets it before this value is dropped, or this process has
/// ended, in whatever way. It holds none if the file system has no locks, or the command is no member.
#[derive(Drop)]
pub struct MemberLock {
    held: Option<Held>,
}

/// A file that is locked as long as it is open, and its path.
#[derive(Drop)]
struct Held {
    path: String,
    file: File,
}

impl MemberLock {
    /// No lock, of a command that is no member.
    pub fn none() -> Self {
        MemberLock { held: None }
    }

    /// Whether the path of the lock leads to another file than the one that is locked, or to none: a second sender could begin.
    pub fn is_replaced(&self, rt: &HostRuntime) -> bool {
        match &self.held {
            Some(held) => !is_at(rt, held.path.as_str(), &held.file),
            None => false,
        }
    }
}

/// Where the file of a lock stands, and why a directory above it couldn't be made, if it is missing.
#[derive(Drop)]
struct Place {
    path: String,
    unmade: Option<io::Error>,
}

/// What came of asking for a lock.
#[derive(Drop)]
enum Asked {
    /// It is held as long as this file is open.
    Held(File),
    /// Another process holds the lock of this file.
    Busy(File),
    /// The file system has no locks.
    NoLocks,
    /// Its file can't be opened or locked.
    Refused(io::Error),
}

/// Takes the lock of the sender of the queue in this directory, and then waits until each of the members that it starts can be
/// locked, which means that those of an earlier sender have ended. None, and a line on standard error, if another process has the
/// sender's lock, or one of the files can't be locked. The error: out of memory.
pub fn lock_sender(
    rt: &HostRuntime,
    alloc: Global,
    dir: &[u8],
) -> Result<Option<MemberLock>, Memory> {
    let place = place_of(rt, alloc, dir, SENDER)?;
    let file = match ask(rt, &place) {
        Asked::Held(file) => file,
        Asked::Busy(_) => {
            tell(rt, alloc, SENDER, b"another sender has", SENDER)?;
            return Ok(None);
        }
        Asked::NoLocks => {
            tell(rt, alloc, SENDER, b"no lock:", SENDER)?;
            return Ok(Some(MemberLock::none()));
        }
        Asked::Refused(why) => {
            refuse(rt, alloc, SENDER, SENDER, why)?;
            return Ok(None);
        }
    };
    for member in STARTED {
        if wait(rt, alloc, dir, SENDER, member)?.is_none() {
            return Ok(None);
        }
    }
    Ok(Some(held_at(place, file)))
}

/// Waits until the lock of this member of the queue in this directory can be taken, and takes it: `clean`, `lspawn` or `rspawn`.
/// None, and a line on standard error, if its file can't be locked, or if the environment's variable of this name doesn't have the
/// number of this process's parent, once the lock is held: then the sender that started it has ended, and what it is given is no
/// longer to be done. The error: out of memory.
pub fn lock_member(
    rt: &HostRuntime,
    alloc: Global,
    dir: &[u8],
    member: &[u8],
    variable: &str,
) -> Result<Option<MemberLock>, Memory> {
    let lock = wait(rt, alloc, dir, member, member)?;
    if lock.is_some() && is_left(rt, variable)? {
        let mut line = ByteText::from_slice(alloc, member)?;
        line.extend(b": its sender has ended\n")?;
        give(rt, line.as_slice());
        return Ok(None);
    }
    Ok(lock)
}

/// Whether another process holds the lock of this member of the queue in this directory. It also is if the file system has no
/// locks, and if nothing with this name is a member that a sender starts. The error: out of memory.
pub fn is_locked(
    rt: &HostRuntime,
    alloc: Global,
    dir: &[u8],
    member: &[u8],
) -> Result<bool, Memory> {
    if !STARTED.contains(&member) {
        return Ok(true);
    }
    let place = place_of(rt, alloc, dir, member)?;
    Ok(match open(rt, place.path.as_str()) {
        Ok(file) => is_busy(&file),
        Err(_) => false,
    })
}

/// Whether another process holds the lock of this file, or the file system has none.
fn is_busy(file: &File) -> bool {
    match file.try_lock_shared() {
        Ok(()) => false,
        Err(TryLockError::WouldBlock) => true,
        Err(TryLockError::Error(why)) => has_no_locks(why),
    }
}

/// Whether the environment tells the number of a parent, and this process has another one by now.
fn is_left(rt: &HostRuntime, variable: &str) -> Result<bool, Memory> {
    match env::var(rt, variable) {
        Ok(told) => Ok(undec(told.as_bytes()) != Some(u64::from(parent_id(rt.process())))),
        Err(VarError::NotPresent) => Ok(false),
        Err(VarError::NotUnicode) => Ok(true),
        Err(VarError::OutOfMemory) => Err(AllocError),
    }
}

/// Waits for the lock of a member. None if it can't be had. If another process has it, or there is none, standard error gets a line
/// of who asks.
fn wait(
    rt: &HostRuntime,
    alloc: Global,
    dir: &[u8],
    who: &[u8],
    member: &[u8],
) -> Result<Option<MemberLock>, Memory> {
    let place = place_of(rt, alloc, dir, member)?;
    let mut asked = ask_often(rt, &place);
    if let Asked::Busy(file) = asked {
        tell(rt, alloc, who, b"waiting for", member)?;
        asked = locked(rt, place.path.as_str(), file);
    }
    match asked {
        Asked::Held(file) => Ok(Some(held_at(place, file))),
        Asked::NoLocks => {
            tell(rt, alloc, who, b"no lock:", member)?;
            Ok(Some(MemberLock::none()))
        }
        Asked::Refused(why) => {
            refuse(rt, alloc, who, member, why)?;
            Ok(None)
        }
        Asked::Busy(_) => Ok(None),
    }
}

/// The lock that this open file holds.
fn held_at(place: Place, file: File) -> MemberLock {
    let Place { path, unmade: _ } = place;
    MemberLock {
        held: Some(Held { path, file }),
    }
}

/// Asks for a lock, and again for a while if another process has it.
fn ask_often(rt: &HostRuntime, place: &Place) -> Asked {
    for _ in 0..ASKS {
        match ask(rt, place) {
            Asked::Busy(_) => thread::sleep(rt, Duration::from_millis(NAP)),
            asked => return asked,
        }
    }
    ask(rt, place)
}

/// Asks for a lock, whose file is made if it is missing.
fn ask(rt: &HostRuntime, place: &Place) -> Asked {
    let file = match open(rt, place.path.as_str()) {
        Ok(file) => file,
        Err(why) => return Asked::Refused(place.unmade.unwrap_or(why)),
    };
    match file.try_lock() {
        Ok(()) => if_there(rt, place.path.as_str(), file),
        Err(TryLockError::WouldBlock) => Asked::Busy(file),
        Err(TryLockError::Error(why)) => unlocked(why),
    }
}

/// Waits for the lock of an open file that another process has locked.
fn locked(rt: &HostRuntime, path: &str, file: File) -> Asked {
    match file.lock() {
        Ok(()) => if_there(rt, path, file),
        Err(why) => unlocked(why),
    }
}

/// A file that is locked, if its path still leads to it.
fn if_there(rt: &HostRuntime, path: &str, file: File) -> Asked {
    if is_at(rt, path, &file) {
        return Asked::Held(file);
    }
    Asked::Refused(io::Error::other("replaced by another file"))
}

/// What comes of a file that isn't locked for this reason.
fn unlocked(why: io::Error) -> Asked {
    if has_no_locks(why) {
        return Asked::NoLocks;
    }
    Asked::Refused(why)
}

/// Whether a lock isn't given since the file system has none.
fn has_no_locks(why: io::Error) -> bool {
    match why.raw_os_error() {
        Some(code) => NO_LOCKS.contains(&code),
        None => false,
    }
}

/// Opens the file of a lock, which is made if it is missing. Anything but a regular file is refused, before it is opened: a FIFO
/// would be waited for.
fn open(rt: &HostRuntime, path: &str) -> io::Result<File> {
    if let Ok(found) = fs::metadata(rt, path) {
        if !found.is_file() {
            return Err(io::Error::other("not a regular file"));
        }
    }
    OpenOptions::new()
        .read(true)
        .write(true)
        .create(true)
        .open(rt, path)
}

/// Whether this path leads to this open file.
fn is_at(rt: &HostRuntime, path: &str, file: &File) -> bool {
    match (fs::metadata(rt, path), file.metadata()) {
        (Ok(named), Ok(opened)) => is_same(&named, &opened),
        _ => false,
    }
}

/// Whether both are one file.
fn is_same(one: &Metadata, other: &Metadata) -> bool {
    one.dev() == other.dev() && one.ino() == other.ino()
}

/// The place of a member's lock, DIR/lock/MEMBER. Both directories are made if they are missing.
fn place_of(rt: &HostRuntime, alloc: Global, dir: &[u8], member: &[u8]) -> Result<Place, Memory> {
    let mut path = ByteText::from_slice(alloc, dir)?;
    let outer = make(rt, path.as_slice());
    path.extend(b"/lock")?;
    let inner = make(rt, path.as_slice());
    path.extend(b"/")?;
    path.extend(member)?;
    let text = str::from_utf8(path.as_slice()).unwrap_or("");
    Ok(Place {
        path: String::from_str(alloc, text)?,
        unmade: outer.or(inner),
    })
}

/// Makes a directory. Why that can't be, if it isn't there.
fn make(rt: &HostRuntime, path: &[u8]) -> Option<io::Error> {
    let why = fs::create_dir(rt, str::from_utf8(path).ok()?).err()?;
    if why.kind() == ErrorKind::AlreadyExists {
        return None;
    }
    Some(why)
}

/// Gives standard error the line `WHO: WHAT lock/MEMBER`.
fn tell(
    rt: &HostRuntime,
    alloc: Global,
    who: &[u8],
    what: &[u8],
    member: &[u8],
) -> Result<(), Memory> {
    let mut line = ByteText::from_slice(alloc, who)?;
    line.extend(b": ")?;
    line.extend(what)?;
    line.extend(b" lock/")?;
    line.extend(member)?;
    line.extend(b"\n")?;
    give(rt, line.as_slice());
    Ok(())
}

/// Gives standard error the line `WHO: can't lock lock/MEMBER: WHY`.
fn refuse(
    rt: &HostRuntime,
    alloc: Global,
    who: &[u8],
    member: &[u8],
    why: io::Error,
) -> Result<(), Memory> {
    let mut line = ByteText::from_slice(alloc, who)?;
    line.extend(b": can't lock lock/")?;
    line.extend(member)?;
    line.extend(b": ")?;
    line.extend(format!(in alloc; "{why}\n")?.as_bytes())?;
    give(rt, line.as_slice());
    Ok(())
}

/// Gives standard error a line.
fn give(rt: &HostRuntime, line: &[u8]) {
    let _given = WriterSink::new(rt.stderr()).give(line);
}
