// Files that are let go of by threads.

use mail_bytes::Memory;
use std::alloc::Global;
use std::collections::VecDeque;
use std::fs::File;
use std::sync::atomic::{AtomicU64, Ordering};
use std::sync::{Arc, Mutex, Wait};
use std::thread::{self, Threads};

/// How many threads let go of files.
const HELPERS: u64 = 4;

/// How many files may wait for a thread.
const MOST: usize = 32;

/// Files that a thread is to let go of, oldest first; how often one was put there; and whether there are threads.
#[derive(Drop)]
pub struct Leaving {
    files: Mutex<VecDeque<File>>,
    changes: AtomicU64,
    helpers: AtomicU64,
}

impl Leaving {
    /// No file, and no thread.
    pub fn new(alloc: Global) -> Self {
        Leaving {
            files: Mutex::new(VecDeque::new(alloc)),
            changes: AtomicU64::new(0),
            helpers: AtomicU64::new(0),
        }
    }

    /// Whether a file may be put here: there are threads, and not too many files wait for one.
    pub(crate) fn has_room<R: Wait>(&self, rt: &R) -> bool {
        self.helpers.load(Ordering::SeqCst) > 0 && self.files.lock(rt).len() < MOST
    }

    /// A thread lets go of this file; this one does if there is no memory.
    pub(crate) fn put<R: Wait>(&self, rt: &R, file: File) {
        let mut files = self.files.lock(rt);
        let _ = files.push_back(file);
        drop(files);
        self.changes.fetch_add(1, Ordering::SeqCst);
        self.changes.wake_one();
    }

    fn take<R: Wait>(&self, rt: &R) -> Option<File> {
        self.files.lock(rt).pop_front()
    }
}

/// Starts threads that let go of files for ever. `Err` if there is no memory; without a thread there is no room for a file.
pub fn start_helpers<R: Threads + Wait + Copy + Send + Drop + 'static>(
    rt: R,
    leaving: &Arc<Leaving, Global>,
) -> Result<(), Memory> {
    for _ in 0..HELPERS {
        let theirs = Arc::try_clone(leaving)?;
        let begun = thread::spawn(&rt, move || let_go(&rt, &theirs));
        if begun.is_ok() {
            leaving.helpers.fetch_add(1, Ordering::SeqCst);
        }
    }
    Ok(())
}

/// Lets go of whatever comes, for ever.
fn let_go<R: Wait>(rt: &R, leaving: &Leaving) {
    for _ in rt.forever() {
        let seen = leaving.changes.load(Ordering::SeqCst);
        match leaving.take(rt) {
            Some(file) => drop(file),
            None => leaving.changes.park(rt, low_half(seen)),
        }
    }
}

/// The low 32 bits of a count.
fn low_half(count: u64) -> u32 {
    (count % (1 << 32)) as u32
}
