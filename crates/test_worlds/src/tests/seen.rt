// What is seen of a world, as text.

use mail_bytes::dec;
use mail_world::{ActorName, WorldError};
use mem_fs::MemFs;
use queue_paths::queue_dirs;
use std::alloc::Global;

/// How many names of a directory are told.
const MOST_NAMES: usize = 9;

/// Puts words after a text.
pub fn put(seen: &mut Vec<u8>, words: &[&[u8]]) {
    for word in words {
        let _ = seen.extend_from_slice(word);
    }
}

/// Puts down that an actor ended with this status.
pub fn put_end(seen: &mut Vec<u8>, actor: &ActorName, status: u8) {
    let mut into = [0; 20];
    let length = dec(status as u64, &mut into);
    put(seen, &[actor.as_slice(), b" end ", &into[..length], b"\n"]);
}

/// Puts down why a world refused what was asked of this actor.
pub fn put_refusal(seen: &mut Vec<u8>, actor: &[u8], why: &WorldError) {
    match why {
        WorldError::Alive(name) => put(seen, &[b"refused alive ", name.as_slice(), b"\n"]),
        WorldError::Gone(name, _) => put(seen, &[b"refused gone ", name.as_slice(), b"\n"]),
        WorldError::NotWaiting(name) => {
            put(seen, &[b"refused notwaiting ", name.as_slice(), b"\n"]);
        }
        WorldError::Unknown => put(seen, &[b"refused unknown ", actor, b"\n"]),
        WorldError::Taken => put(seen, &[b"refused taken ", actor, b"\n"]),
        WorldError::Past(_) => put(seen, &[b"refused past ", actor, b"\n"]),
        WorldError::Memory => put(seen, &[b"refused memory ", actor, b"\n"]),
    }
}

/// Puts down the names in the queue's directories, each as a line, and a line of `-`.
pub fn put_names(alloc: Global, seen: &mut Vec<u8>, disk: &MemFs) {
    match queue_dirs(alloc) {
        Ok(dirs) => {
            for dir in &dirs {
                put_names_of(seen, disk, dir.as_slice());
            }
            put(seen, &[b"-\n"]);
        }
        Err(_) => put(seen, &[b"memory\n"]),
    }
}

/// Puts down the names in this directory, and a line of `-`.
pub fn put_names_in(seen: &mut Vec<u8>, disk: &MemFs, dir: &[u8]) {
    put_names_of(seen, disk, dir);
    put(seen, &[b"-\n"]);
}

/// Puts down the names in this directory.
fn put_names_of(seen: &mut Vec<u8>, disk: &MemFs, dir: &[u8]) {
    let mut after: &[u8] = b"";
    for _ in 0..MOST_NAMES {
        let Some(name) = disk.name_after(dir, after) else {
            return;
        };
        put(seen, &[dir, b"/"]);
        put(seen, &[name, b"\n"]);
        after = name;
    }
}
