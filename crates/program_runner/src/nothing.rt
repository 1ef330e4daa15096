// What a program has in place of an input or an output that it doesn't use.

use outside::{Gave, Sink, Source, Took};

/// An input that is at its end and an output that takes everything, as null(4).
#[derive(Clone, Copy)]
pub struct Nothing;

impl Source for Nothing {
    ghost use Rattle.std.specs.Prelude.{Some, None, []};

    ghost left = { λ _. Some [] };

    ghost ended = { λ _. None };

    ghost faults = { λ _. 0 };

    fn faults(&self) -> u64 {
        0
    }

    fn take(&mut self, _into: &mut [u8]) -> Took {
        Took::End
    }
}

impl Sink for Nothing {
    ghost use Rattle.std.specs.Prelude.{None};

    ghost taken = { λ _. None };

    ghost faults = { λ _. 0 };

    fn faults(&self) -> u64 {
        0
    }

    fn give(&mut self, _bytes: &[u8]) -> Gave {
        Gave::Done
    }
}
