// The names of directories, one after the other.
ghost use Rattle.std.specs.Prelude.{◌≡◌, ◌∷◌, [], Ok, IfOk, IfErr, OnOk};
ghost use Rattle.mail_bytes.specs.Told.{OnTold};
ghost use Rattle.call_fs.specs.Columns.{IsFound};
ghost use Rattle.queue_states.specs.Audit.{IsNameCount};
ghost use Rattle.queue_states.specs.Found.{Gathers};
ghost use Rattle.queue_states.specs.Searches.{HasSearched, IsWhyOf};

use crate::files::{Found, note_name};
use crate::outcome::AuditError;
use call_fs::{CallFs, FsError};
use mail_bytes::{ByteText, NameBuf};
use std::alloc::Global;

/// How many names a directory has. The errors: what a search for a next name was refused with.
pub fn count_names<D: CallFs>(alloc: Global, disk: &mut D, dir: &[u8]) -> Result<u64, AuditError>
    ensures searched { HasSearched (dir.now ∷ [])
        (record { disk = D.disk disk.old; calls = D.calls disk.old; faults = D.faults disk.old })
        (record { disk = D.disk disk.new; calls = D.calls disk.new; faults = D.faults disk.new })
        result }
    ensures counted { IfOk result (λ count. OnTold (D.disk disk.old) (λ d. IsNameCount d dir.now count)) }
{
    let mut last = NameBuf::new();
    for count in 0..u64::MAX {
        let mut name = NameBuf::new();
        if !next_name(alloc, disk, dir, last.as_slice(), &mut name)? {
            return Ok(count);
        }
        last = name;
    }
    Err(AuditError::Memory)
}

/// Notes the files of message numbers in these directories.
/// The errors: what a search for a next name was refused with, or out of memory.
pub fn gather_all<D: CallFs>(
    alloc: Global,
    disk: &mut D,
    dirs: &[ByteText],
    found: &mut Found,
) -> Result<(), AuditError>
    ensures searched { HasSearched dirs.now
        (record { disk = D.disk disk.old; calls = D.calls disk.old; faults = D.faults disk.old })
        (record { disk = D.disk disk.new; calls = D.calls disk.new; faults = D.faults disk.new })
        result }
    ensures gathered { OnOk result (OnTold (D.disk disk.old) (λ d. Gathers d dirs.now found.old found.new)) }
{
    for dir in dirs {
        gather(alloc, disk, dir.as_slice(), found)?;
    }
    Ok(())
}

/// Notes the files of message numbers in a directory.
fn gather<D: CallFs>(
    alloc: Global,
    disk: &mut D,
    dir: &[u8],
    found: &mut Found,
) -> Result<(), AuditError>
    ensures searched { HasSearched (dir.now ∷ [])
        (record { disk = D.disk disk.old; calls = D.calls disk.old; faults = D.faults disk.old })
        (record { disk = D.disk disk.new; calls = D.calls disk.new; faults = D.faults disk.new })
        result }
    ensures gathered { OnOk result (OnTold (D.disk disk.old) (λ d. Gathers d (dir.now ∷ []) found.old found.new)) }
{
    let mut last = NameBuf::new();
    'names: for _ in 0..u64::MAX {
        let mut name = NameBuf::new();
        if !next_name(alloc, disk, dir, last.as_slice(), &mut name)? {
            return Ok(());
        }
        note_name(alloc, found, dir, name.as_slice())?;
        last = name;
    }
    Err(AuditError::Memory)
}

/// Puts the next name of a directory into the buffer and answers true, or answers false if there is none.
fn next_name<D: CallFs>(
    alloc: Global,
    disk: &mut D,
    dir: &[u8],
    after: &[u8],
    into: &mut NameBuf,
) -> Result<bool, AuditError>
    ensures searched { HasSearched (dir.now ∷ [])
        (record { disk = D.disk disk.old; calls = D.calls disk.old; faults = D.faults disk.old })
        (record { disk = D.disk disk.new; calls = D.calls disk.new; faults = D.faults disk.new })
        result }
    ensures found { IfOk result (λ found. OnTold (D.disk disk.old) (λ d. IsFound d dir.now after.now found into.new)) }
{
    let answer = disk.next_name(dir, after, into);
    named(alloc, dir, answer)
}

/// What an answer to a search in this directory comes to. The other refusals never come.
fn named(alloc: Global, dir: &[u8], answer: Result<bool, FsError>) -> Result<bool, AuditError>
    ensures ok { IfOk result (λ found. answer ≡ Ok found) }
    ensures why { IfErr result (IsWhyOf dir.now answer) }
{
    match answer {
        Ok(found) => Ok(found),
        Err(FsError::NotThere) => Err(AuditError::Missing(ByteText::from_slice(alloc, dir)?)),
        Err(FsError::Fault) => Err(AuditError::Fault),
        Err(FsError::Exists | FsError::Memory) => Err(AuditError::Memory),
    }
}
