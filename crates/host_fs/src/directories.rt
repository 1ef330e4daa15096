// The directories of a queue.
ghost use Rattle.std.specs.Prelude.{◌≤◌, ◌<◌, IfSome};

use crate::entries::LISTING_PIECE;
use crate::paths::root_text;
use crate::system::System;
use mail_bytes::Memory;
use queue_paths::{SPLIT_DIRS, SPLITS};
use std::alloc::Global;
use std::io::Read;
use std::str;

/// The directories right below a queue's root.
const ROOT_DIRS: [&[u8]; 13] = [
    b"control", b"home", b"users", b"mess", b"info", b"local", b"remote", b"intdx", b"todox",
    b"pid", b"intd", b"todo", b"bounce",
];

/// How many directories lie right below another at most: the splits.
const PLACES: usize = SPLITS as usize;

/// Which of the directories right below another one were found, each by its place: those below the root as in `ROOT_DIRS`, a split
/// by its number.
type Found = [bool; PLACES];

/// Makes the missing ones of a queue's directories under this root, and the root itself. One that can't be made stays
/// missing.
///
/// The root and each directory with splits is listed once, as far as its directories are still to be found. What no
/// listing tells is made; all are, if nothing can be listed.
pub fn make_directories<S: System>(system: &S, alloc: Global, root: &[u8]) -> Result<(), Memory> {
    let Some(root) = root_text(root) else {
        return Ok(());
    };
    let top = found_below(system, alloc, root, b"")?;
    let mut splits = [[false; PLACES]; SPLIT_DIRS.len()];
    for at in 0..SPLIT_DIRS.len() {
        splits[at] = found_below(system, alloc, root, SPLIT_DIRS[at])?;
    }
    let is_whole = !lacks(&top[..ROOT_DIRS.len()]) && !splits.iter().any(|found| lacks(found));
    if is_whole {
        return Ok(());
    }
    let _ = system.make_dir(root);
    make_top(system, alloc, root, &top)?;
    for at in 0..SPLIT_DIRS.len() {
        make_splits(system, alloc, root, SPLIT_DIRS[at], &splits[at])?;
    }
    Ok(())
}

/// Whether one of these wasn't found.
fn lacks(found: &[bool]) -> bool {
    found.contains(&false)
}

/// The directories that the listing of this one has; the root's name is empty.
fn found_below<S: System>(
    system: &S,
    alloc: Global,
    root: &str,
    dir: &[u8],
) -> Result<Found, Memory> {
    let mut found = [false; PLACES];
    let Ok(name) = str::from_utf8(dir) else {
        return Ok(found);
    };
    let end = if name.is_empty() { "" } else { "/" };
    let path = format!(in alloc; "{root}/{name}{end}")?;
    if let Ok(mut listing) = system.list(path.as_str()) {
        find_listed(&mut listing, dir.is_empty(), &mut found);
    }
    Ok(found)
}

/// Finds what stands in a listing, until it ends, or can't be read, or nothing is missing. The flag says whether it is the root's.
fn find_listed<D: Read>(listing: &mut D, is_root: bool, found: &mut Found) {
    let mut piece = [0; LISTING_PIECE];
    for _ in 0..u64::MAX {
        match listing.read(&mut piece) {
            Ok(count) if count > 0 => find_in_piece(&piece[..count], is_root, found),
            _ => return,
        }
        let count = if is_root { ROOT_DIRS.len() } else { PLACES };
        if !lacks(&found[..count]) {
            return;
        }
    }
}

/// Finds what stands in a piece of a listing. Each entry ends in a NUL.
fn find_in_piece(piece: &[u8], is_root: bool, found: &mut Found) {
    for name in piece.split(|byte| *byte == 0) {
        let place = if is_root {
            ROOT_DIRS.iter().position(|dir| *dir == name)
        } else {
            split_of(name)
        };
        if let Some(place) = place
            && let Some(is_there) = found.get_mut(place)
        {
            *is_there = true;
        }
    }
}

/// The split whose directory has this name: its number in decimal, without a zero before it.
fn split_of(name: &[u8]) -> Option<usize> {
    let (first, others) = name.split_first()?;
    let high = digit(*first)?;
    let Some((second, none)) = others.split_first() else {
        return Some(high);
    };
    if high == 0 || !none.is_empty() {
        return None;
    }
    Some(high * 10 + digit(*second)?)
}

/// What a decimal digit counts.
fn digit(byte: u8) -> Option<usize>
    ensures { IfSome result (λ digit. digit ≤ 9) }
{
    match byte {
        b'0'..=b'9' => Some(usize::from(byte - b'0')),
        _ => None,
    }
}

/// Makes those directories below the root that weren't found.
fn make_top<S: System>(system: &S, alloc: Global, root: &str, found: &Found) -> Result<(), Memory> {
    for at in 0..ROOT_DIRS.len() {
        if !found[at]
            && let Ok(dir) = str::from_utf8(ROOT_DIRS[at])
        {
            let path = format!(in alloc; "{root}/{dir}")?;
            let _ = system.make_dir(path.as_str());
        }
    }
    Ok(())
}

/// Makes those splits of this directory that weren't found, from the last to the first.
fn make_splits<S: System>(
    system: &S,
    alloc: Global,
    root: &str,
    dir: &[u8],
    found: &Found,
) -> Result<(), Memory> {
    let Ok(dir) = str::from_utf8(dir) else {
        return Ok(());
    };
    for split in (0..PLACES).rev() {
        if !found[split] {
            let path = format!(in alloc; "{root}/{dir}/{split}")?;
            let _ = system.make_dir(path.as_str());
        }
    }
    Ok(())
}
