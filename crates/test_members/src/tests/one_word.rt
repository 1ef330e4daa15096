// Children that are started by one word.

use call_fs::Child;
use outside::{Spawner, Started};
use program_runner::ChildWords;
use std::alloc::Global;

/// Each child is started by the word `child`.
pub struct OneWord;

impl ChildWords for OneWord {
    ghost use Rattle.std.specs.Prelude.{◌∷◌, [], codes};

    ghost words = { λ _ _. codes "child" ∷ [] };

    fn start<S: Spawner>(&self, alloc: Global, _child: Child<'_>, spawner: &mut S) -> Started {
        let words: [&[u8]; 1] = [b"child"];
        spawner.start(alloc, &words)
    }
}
