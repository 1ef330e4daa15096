// Children whose faults are told.
ghost use Rattle.std.specs.Prelude.{◌≡◌};

use crate::fault_lines::FaultLines;
use outside::{Gave, Spawner, Started, Status};
use std::alloc::Global;

/// A spawner that tells each fault that is counted, by the first words of the child.
#[derive(Drop)]
pub struct TellingSpawner<'a, S: Spawner + Drop> {
    below: S,
    lines: &'a FaultLines,
}

impl<'a, S: Spawner + Drop> TellingSpawner<'a, S> {
    /// This spawner.
    pub fn new(below: S, lines: &'a FaultLines) -> Self
        ensures { result.below ≡ below }
    {
        TellingSpawner { below, lines }
    }

    /// Tells that a start of these words failed: by the program, or, if that is this one, by the command.
    fn tell_start(&self, words: &[&[u8]]) {
        let name = match words.first() {
            Some(first) if !first.is_empty() => *first,
            _ => words.get(1).copied().unwrap_or(b"a program"),
        };
        self.lines.tell_start(name);
    }
}

impl<'a, S: Spawner + Drop> Spawner for TellingSpawner<'a, S> {
    ghost children = { λ t. S.children t.below };

    ghost calls = { λ t. S.calls t.below };

    ghost faults = { λ t. S.faults t.below };

    fn faults(&self) -> u64 {
        self.below.faults()
    }

    fn start(&mut self, alloc: Global, words: &[&[u8]]) -> Started {
        let started = self.below.start(alloc, words);
        if started == Started::Failed {
            self.tell_start(words);
        }
        started
    }

    fn feed(&mut self, chan: u32, bytes: &[u8]) -> Gave {
        let gave = self.below.feed(chan, bytes);
        if gave == Gave::Failed {
            self.lines.tell_channel("feed", chan);
        }
        gave
    }

    fn finish(&mut self, chan: u32) {
        self.below.finish(chan);
    }

    fn status(&mut self, chan: u32) -> Status {
        let status = self.below.status(chan);
        if status == Status::Failed {
            self.lines.tell_channel("wait for", chan);
        }
        status
    }
}
