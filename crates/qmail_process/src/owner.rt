// Whose queue it is.
ghost use Rattle.std.specs.Prelude.{IfOk, IfSome};
ghost use Rattle.qmail_process.specs.Runs.{IsRefusal};

use host_streams::WriterSink;
use local_parts::TEMPORARY;
use mail_bytes::{ByteText, Memory, dec};
use outside::Sink;
use queue_limits::{IN_PID, INPUT, NO_START};
use std::alloc::{AllocError, Global};
use std::io::ErrorKind;
use std::os::unix::fs::MetadataExt;
use std::{fs, str};

/// Where the system tells a process by whom it runs, as proc(5) says.
const TOLD: &str = "/proc/self/status";

/// With what the line of the users begins there; its second number is the user whose new files are.
const USERS: &str = "Uid:";

/// A queue that isn't the own user's: whose it is, and by whom this process runs, if the system tells.
#[derive(Clone, Copy)]
struct Foreign {
    owner: u32,
    own: Option<u32>,
}

/// The exit status of a command that would write into the queue of this directory, if that isn't its user's, with a line on standard
/// error; None of any other command. Nothing is touched. The error: out of memory.
pub(crate) fn refused(
    rt: &HostRuntime,
    alloc: Global,
    words: &[String],
    dir: Option<&[u8]>,
) -> Result<Option<u8>, Memory>
    ensures { IfOk result (λ told. IfSome told IsRefusal) }
{
    let (Some(name), Some(dir)) = (words.first(), dir) else {
        return Ok(None);
    };
    match status_of(name.as_str()) {
        Some(status) => refused_in(rt, alloc, name.as_bytes(), dir, status),
        None => Ok(None),
    }
}

/// The same of the command of this name, which ends so if this directory isn't its user's.
fn refused_in(
    rt: &HostRuntime,
    alloc: Global,
    name: &[u8],
    dir: &[u8],
    status: u8,
) -> Result<Option<u8>, Memory>
    requires { IsRefusal status }
    ensures { IfOk result (λ told. IfSome told IsRefusal) }
{
    match strange(rt, dir)? {
        Some(strange) => {
            tell(rt, alloc, name, dir, strange)?;
            Ok(Some(status))
        }
        None => Ok(None),
    }
}

/// With what the command of this name ends if it may not write; None of one that doesn't write.
fn status_of(name: &str) -> Option<u8>
    ensures { IfSome result IsRefusal }
{
    match name {
        "queue" | "qmqpd" => Some(IN_PID),
        "send" => Some(NO_START),
        "clean" | "lspawn" | "rspawn" => Some(INPUT),
        "local" => Some(TEMPORARY),
        _ => None,
    }
}

/// Whose this directory is, if it isn't the own user's. One of which nothing can be told is left to the calls on its files.
/// The error: out of memory.
fn strange(rt: &HostRuntime, dir: &[u8]) -> Result<Option<Foreign>, Memory> {
    let Some(owner) = owner_of(rt, dir) else {
        return Ok(None);
    };
    let own = own_user(rt)?;
    if own == Some(owner) {
        return Ok(None);
    }
    Ok(Some(Foreign { owner, own }))
}

/// The user whose this directory is, if there is one and the system tells.
fn owner_of(rt: &HostRuntime, dir: &[u8]) -> Option<u32> {
    let path = str::from_utf8(dir).ok()?;
    Some(fs::metadata(rt, path).ok()?.uid())
}

/// The user by whom this process runs, if the system tells. The error: out of memory.
fn own_user(rt: &HostRuntime) -> Result<Option<u32>, Memory> {
    match fs::read_to_string(rt, TOLD) {
        Ok(told) => Ok(user_in(told.as_str())),
        Err(why) if why.kind() == ErrorKind::OutOfMemory => Err(AllocError),
        Err(_) => Ok(None),
    }
}

/// The user in such a text.
fn user_in(told: &str) -> Option<u32> {
    let line = told.lines().find(|line| line.starts_with(USERS))?;
    line.split_ascii_whitespace().nth(2)?.parse().ok()
}

/// Gives standard error the line that says whose the directory is, and who this is.
fn tell(
    rt: &HostRuntime,
    alloc: Global,
    name: &[u8],
    dir: &[u8],
    strange: Foreign,
) -> Result<(), Memory> {
    let mut line = ByteText::new(alloc);
    let is_put = put_line(&mut line, name, dir, strange);
    if is_put.is_ok() {
        let _given = WriterSink::new(rt.stderr()).give(line.as_slice());
    }
    drop(line);
    is_put
}

/// Puts that line at the end of this one.
fn put_line(line: &mut ByteText, name: &[u8], dir: &[u8], strange: Foreign) -> Result<(), Memory> {
    line.extend(name)?;
    line.extend(b": ")?;
    line.extend(dir)?;
    line.extend(b" is user ")?;
    put_number(line, strange.owner)?;
    match strange.own {
        Some(own) => {
            line.extend(b"'s, and this is user ")?;
            put_number(line, own)?;
        }
        None => {
            line.extend(b"'s, and nothing tells who this is: ")?;
            line.extend(TOLD.as_bytes())?;
        }
    }
    line.extend(b"\n")
}

/// Puts a decimal number at the end of a line.
fn put_number(line: &mut ByteText, number: u32) -> Result<(), Memory> {
    let mut digits = [0; 20];
    let length = dec(u64::from(number), &mut digits);
    line.extend(digits.get(..length).unwrap_or(&[]))
}
