// Reading and writing until all is done.
ghost use Rattle.std.specs.Prelude.{◌≡◌, ◌≤◌, IfOk, OnErr, IsErrOf, length};
ghost use Rattle.call_fs.specs.declared.calls.FsError.TheVariants as FsError;
ghost use Rattle.call_fs.specs.Apply.{lying};

use crate::system::System;
use call_fs::FsError;
use std::io::{self, ErrorKind, Read, Write};

/// How often an interrupted read is tried again.
const MOST_RETRIES: u32 = 1000;

/// Reads or writes an open file from a place on, piece by piece.
#[derive(Drop)]
pub struct Cursor<'a, S: System> {
    /// The system.
    pub system: &'a S,
    /// The open file.
    pub file: &'a S::File,
    /// The place of the next piece.
    pub at: u64,
}

impl<'a, S: System> Read for Cursor<'a, S> {
    /// No file has a byte at 2^63 or past it.
    fn read(&mut self, into: &mut [u8]) -> io::Result<usize> {
        if self.at >= 1 << 63 {
            return Ok(0);
        }
        let count = self.system.read_at(self.file, into, self.at)?;
        self.at = self.at.saturating_add(count as u64);
        Ok(count)
    }
}

impl<'a, S: System> Write for Cursor<'a, S> {
    fn write(&mut self, bytes: &[u8]) -> io::Result<usize> {
        let count = self.system.write_at(self.file, bytes, self.at)?;
        self.at = self.at.saturating_add(count as u64);
        Ok(count)
    }

    fn flush(&mut self) -> io::Result<()> {
        Ok(())
    }
}

/// Writes at the end of an open file, piece by piece.
#[derive(Drop)]
pub struct End<'a, S: System> {
    /// The system.
    pub system: &'a S,
    /// The open file.
    pub file: &'a S::File,
}

impl<'a, S: System> Write for End<'a, S> {
    fn write(&mut self, bytes: &[u8]) -> io::Result<usize> {
        self.system.append(self.file, bytes)
    }

    fn flush(&mut self) -> io::Result<()> {
        Ok(())
    }
}

/// Reads until the buffer is full or the reader is at its end, and answers how many bytes those were. An interrupted
/// read is tried again. A read that fails otherwise, or is interrupted more than 1000 times, is a fault.
pub fn read_full<R: Read>(reader: &mut R, into: &mut [u8]) -> Result<u64, FsError>
    ensures count { IfOk result (λ count. count ≤ length into.old) }
    ensures fault { OnErr result (IsErrOf result FsError.Fault) }
{
    let mut done = 0;
    let mut retries = MOST_RETRIES;
    while done < into.len() {
        match reader.read(&mut into[done..]) {
            Ok(0) => break,
            Ok(count) => done += count,
            Err(why) if why.kind() == ErrorKind::Interrupted && retries > 0 => retries -= 1,
            Err(_) => return Err(FsError::Fault),
        }
    }
    Ok(done as u64)
}

/// What of these bytes, put at this place, lies below the length.
pub fn lying(len: u64, at: u64, bytes: &[u8]) -> &[u8]
    ensures { result.now ≡ lying len at bytes.now }
{
    let room = len.saturating_sub(at);
    if room < bytes.len() as u64 {
        &bytes[..room as usize]
    } else {
        bytes
    }
}
