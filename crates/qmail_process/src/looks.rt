// Looks whether the members that a sender starts hold their locks.

use host_streams::is_locked;
use mail_bytes::ByteText;
use proc_runner::Look;
use std::alloc::Global;

/// Looks at the locks of the queue in a directory, if there is one.
#[derive(Drop)]
pub(crate) struct LockLooks {
    rt: HostRuntime,
    dir: Option<ByteText>,
}

impl LockLooks {
    /// Of the queue in this directory.
    pub(crate) fn new(rt: &HostRuntime, dir: Option<ByteText>) -> Self {
        LockLooks { rt: *rt, dir }
    }
}

impl Look for LockLooks {
    fn is_at_work(&self, alloc: Global, words: &[&[u8]]) -> bool {
        let (Some(dir), Some(member)) = (&self.dir, words.get(1)) else {
            return true;
        };
        is_locked(&self.rt, alloc, dir.as_slice(), member).unwrap_or(false)
    }
}
