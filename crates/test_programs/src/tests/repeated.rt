// A source that gives one block over and over.
use outside::{Source, Took};

/// What it gives over and over.
const BLOCK: &[u8] = &[b'x'; 8192];

/// A source that gives some bytes and then the byte `x` so many times, without storing those, and then the end. It counts
/// how many bytes were taken.
#[derive(Drop)]
pub struct Repeated {
    head: &'static [u8],
    len: usize,
    taken: usize,
}

impl Repeated {
    /// A source of these bytes and so many more.
    pub fn new(head: &'static [u8], more: usize) -> Self {
        Repeated {
            head,
            len: more.saturating_add(head.len()),
            taken: 0,
        }
    }

    /// How many bytes were taken so far.
    pub fn taken(&self) -> usize {
        self.taken
    }

    /// Bytes that it gives next: the rest of the first ones, or some of the others.
    fn next_bytes(&self) -> &'static [u8] {
        if self.taken < self.head.len() {
            return &self.head[self.taken..];
        }
        &BLOCK[..BLOCK.len().min(self.len.saturating_sub(self.taken))]
    }
}

impl Source for Repeated {
    ghost use Rattle.std.specs.Prelude.{None};

    ghost left = { λ _. None };

    ghost ended = { λ _. None };

    ghost faults = { λ _. 0 };

    fn faults(&self) -> u64 {
        0
    }

    fn take(&mut self, into: &mut [u8]) -> Took {
        let next = self.next_bytes();
        let count = next.len().min(into.len());
        if count == 0 {
            return Took::End;
        }
        into[..count].copy_from_slice(&next[..count]);
        self.taken = self.taken.saturating_add(count);
        Took::Got(count)
    }
}
