// The files of a disk in memory after a machine stop.
ghost use Rattle.std.specs.Prelude.{◌≡◌, ◌<◌, ◌^◌, IfOk, OnOk, length};
ghost use Rattle.std.specs.List.{All};
ghost use Rattle.mem_files.specs.MemFile.{IsSurvivor};
ghost use Rattle.mem_files.specs.MemHalt.{seed_of, left_of, settled_entry, settled_entries};

use crate::file::Inode;
use crate::files::{Entry, Files};
use crate::junk::{self, Drawn};
use call_fs::Survival;
use mail_bytes::Memory;
use std::alloc::Global;

/// The first x: the seed.
fn seed_of(how: Survival) -> u64
    ensures value { result ≡ seed_of how }
    ensures small { result < 2 ^ 32 }
{
    match how {
        Survival::Keep | Survival::Lose => 0,
        Survival::Junk(seed) => seed as u64,
    }
}

/// The bytes that a number's file has then, and the x that follows.
fn left_of(alloc: Global, how: Survival, inode: &Inode, x: u64) -> Result<Drawn, Memory>
    requires { x < 2 ^ 32 }
    ensures value { IfOk result (λ left. (left.0.items, left.1) ≡ left_of how inode.now x) }
    ensures small { IfOk result (λ left. left.1 < 2 ^ 32) }
{
    match how {
        Survival::Keep => Ok((Vec::from_slice(alloc, inode.file.as_slice())?, x)),
        Survival::Lose => Ok((Vec::from_slice(alloc, inode.file.kept())?, x)),
        Survival::Junk(_) => {
            if inode.links == 0 {
                return Ok((Vec::from_slice(alloc, inode.file.as_slice())?, x));
            }
            junk::junked(alloc, &inode.file, x)
        }
    }
}

/// The entry of a number then, and the x that follows.
fn settled_entry(
    alloc: Global,
    how: Survival,
    inode: &Inode,
    x: u64,
) -> Result<(Inode, u64), Memory>
    requires { x < 2 ^ 32 }
    ensures value { IfOk result (λ made. (made.0 ≡ settled_entry (left_of how inode.now x).0 inode.now) × (made.1 ≡ (left_of how inode.now x).1)) }
    ensures small { IfOk result (λ made. made.1 < 2 ^ 32) }
    ensures survivor { IsSurvivor inode.now.file }
{
    inode.file.is_survivor();
    let (bytes, next) = left_of(alloc, how, inode, x)?;
    let settled = Inode {
        links: inode.links,
        opens: 0,
        file: inode.file.settled_as(alloc, bytes)?,
    };
    Ok((settled, next))
}

/// All entries then, one after another. The error: out of memory.
pub fn settled_entries(alloc: Global, how: Survival, files: &[Entry]) -> Result<Files, Memory>
    ensures value { IfOk result (λ settled. settled.items ≡ settled_entries how (seed_of how) files.now) }
    ensures survivors { OnOk result (All (λ e. IsSurvivor e.1.file) files.now) }
{
    let mut settled = Vec::new(alloc);
    let mut next = seed_of(how);
    for entry in files {
        let (inode, following) = settled_entry(alloc, how, &entry.1, next)?;
        settled.push((entry.0, inode))?;
        next = following;
    }
    Ok(settled)
}
