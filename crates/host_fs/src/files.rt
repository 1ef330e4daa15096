// What the calls of the system on paths mean.
ghost use Rattle.std.specs.Prelude.{◌≡◌, ◌≤◌, IfOk, OnErr, IsErrOf};
ghost use Rattle.call_fs.specs.declared.calls.FsError.TheVariants as FsError;
ghost use Rattle.mail_bytes.specs.Moments.{IsMoment};

use crate::refusals::{missing_or_fault, moment_of, or_fault, refused};
use crate::system::System;
use call_fs::{FsError, How, Stat};

/// Makes a new empty file, open for reading and for writing at its end, with its number. When the number can't be told
/// the file is taken away again.
pub fn create_new<S: System>(system: &S, path: &str) -> Result<(S::File, u64), FsError>
    ensures number { IfOk result (λ made. 1 ≤ made.1) }
    ensures memory { ¬ (IsErrOf result FsError.Memory) }
{
    let file = match system.create(path) {
        Ok(file) => file,
        Err(why) => return Err(refused(why.kind(), is_dir(system, path))),
    };
    match number_of(system, &file) {
        Ok(number) => Ok((file, number)),
        Err(why) => {
            let _ = system.unlink(path);
            Err(why)
        }
    }
}

/// The number of an open file, from 1.
fn number_of<S: System>(system: &S, file: &S::File) -> Result<u64, FsError>
    ensures number { IfOk result (λ number. 1 ≤ number) }
    ensures fault { OnErr result (IsErrOf result FsError.Fault) }
{
    match system.fstat(file) {
        Ok(facts) if facts.number > 0 => Ok(facts.number),
        _ => Err(FsError::Fault),
    }
}

/// Whether this is the path of a directory.
fn is_dir<S: System>(system: &S, path: &str) -> bool {
    match system.stat(path) {
        Ok(facts) => facts.is_dir,
        Err(_) => false,
    }
}

/// Opens a file for reading, and for what else is asked. What is there is looked at first, since the opening of a FIFO
/// waits for somebody at its other end.
/// `NotThere` if the system says that it is missing; what is no regular file, and any other refusal, is a fault.
pub fn open_file<S: System>(system: &S, path: &str, how: How) -> Result<S::File, FsError>
    ensures exists { ¬ (IsErrOf result FsError.Exists) }
    ensures memory { ¬ (IsErrOf result FsError.Memory) }
{
    match system.stat(path) {
        Ok(facts) if facts.is_file => open_regular(system, path, how),
        Ok(_) => Err(FsError::Fault),
        Err(why) => Err(missing_or_fault(why.kind())),
    }
}

/// Opens what was a regular file just now. What is none any more is a fault too.
fn open_regular<S: System>(system: &S, path: &str, how: How) -> Result<S::File, FsError>
    ensures exists { ¬ (IsErrOf result FsError.Exists) }
    ensures memory { ¬ (IsErrOf result FsError.Memory) }
{
    let file = match system.open(path, how) {
        Ok(file) => file,
        Err(why) => return Err(missing_or_fault(why.kind())),
    };
    match system.fstat(&file) {
        Ok(facts) if facts.is_file => Ok(file),
        _ => Err(FsError::Fault),
    }
}

/// Gives a file a second name, and waits until that is on the disk. A directory has none, and no name takes its place.
/// The directory of the new name is opened before the link, so that a system without room for one more open file refuses
/// before the name is there. After a failed wait the name may be there.
pub fn link_file<S: System>(system: &S, old: &str, new: &str) -> Result<(), FsError>
    ensures { ¬ (IsErrOf result FsError.Memory) }
{
    let dir = match system.open(directory_of(new), How::Read) {
        Ok(dir) => dir,
        Err(why) => return Err(missing_or_fault(why.kind())),
    };
    match system.link(old, new) {
        Ok(()) => or_fault(system.sync(&dir)),
        Err(why) => Err(refused(why.kind(), is_dir(system, old) || is_dir(system, new))),
    }
}

/// The path of the directory that a path lies in, with the `/` at its end, by which nothing but a directory is opened.
fn directory_of(path: &str) -> &str {
    match path.trim_end_matches(|letter| letter != '/') {
        "" => "./",
        dir => dir,
    }
}

/// Takes a name away. `NotThere` if the system says that it is missing; any other refusal is a fault.
pub fn unlink_file<S: System>(system: &S, path: &str) -> Result<(), FsError>
    ensures exists { ¬ (IsErrOf result FsError.Exists) }
    ensures memory { ¬ (IsErrOf result FsError.Memory) }
{
    match system.unlink(path) {
        Ok(()) => Ok(()),
        Err(why) => Err(missing_or_fault(why.kind())),
    }
}

/// Tells the file of a name.
/// `NotThere` if the system says that it is missing; a directory, and any other refusal, is a fault.
pub fn stat_file<S: System>(system: &S, path: &str) -> Result<Stat, FsError>
    ensures moment { IfOk result (λ stat. IsMoment stat.moment) }
    ensures exists { ¬ (IsErrOf result FsError.Exists) }
    ensures memory { ¬ (IsErrOf result FsError.Memory) }
{
    match system.stat(path) {
        Ok(facts) if facts.is_dir => Err(FsError::Fault),
        Ok(facts) => Ok(Stat {
            number: facts.number,
            length: facts.length,
            moment: moment_of(facts.modified),
        }),
        Err(why) => Err(missing_or_fault(why.kind())),
    }
}
