// A long file users/assign.

use local_spawn::{Assign, Found, find};
use std::alloc::Global;

/// The local part of its last line.
const LAST: [u8; 4000] = [b'z'; 4000];

/// How many local parts are looked for that it has no line for.
const OTHERS: usize = 100;

/// A file of so many lines, and at least one: the last is a simple one for this local part, the others are wildcards for others.
fn file_of(alloc: Global, count: u64, last: &[u8]) -> Option<Vec<u8>> {
    let mut bytes = Vec::new(alloc);
    for _ in 1..count {
        bytes
            .extend_from_slice(b"+user-:user:1000:1000:/home/user:-:pre:\n")
            .ok()?;
    }
    bytes.extend_from_slice(b"=").ok()?;
    bytes.extend_from_slice(last).ok()?;
    bytes.extend_from_slice(b":z:1:1:h:::\n.\n").ok()?;
    Some(bytes)
}

/// Whether the line with this place is for all of a local part.
fn is_for(assign: &Assign, local: &[u8], place: u64) -> bool {
    match find(assign, local) {
        Some(Found { line, rest }) => line == place && rest == local.len() as u64,
        None => false,
    }
}

/// Whether no line is for what is left of a local part without its last byte, without its last two, and so on.
fn is_for_no_other(assign: &Assign, local: &[u8]) -> bool {
    for less in 1..OTHERS + 1 {
        let count = local.len().saturating_sub(less);
        if find(assign, &local[..count]).is_some() {
            return false;
        }
    }
    true
}

/// Whether these are so many lines, of which the last one is found.
fn is_found(assign: &Assign, count: u64) -> bool {
    assign.as_slice().len() as u64 == count
        && is_for(assign, &LAST, count.saturating_sub(1))
        && is_for_no_other(assign, &LAST)
}

/// Whether a file of so many lines is read, and its last line found.
pub(crate) fn is_read(alloc: Global, count: u64) -> bool {
    match file_of(alloc, count, &LAST) {
        Some(bytes) => match Assign::read(alloc, bytes.as_slice()) {
            Ok(assign) => is_found(&assign, count),
            Err(_) => false,
        },
        None => false,
    }
}
