// How the children of a program are started.
ghost use Rattle.std.specs.Prelude.{List, ℕ};
ghost use Rattle.call_fs.specs.declared.past.ChildData.{ChildData};
ghost use Rattle.call_fs.specs.Program.{child_data};
ghost use Rattle.program_runner.specs.Serving.{IsBegun};

use call_fs::Child;
use outside::{Spawner, Started};
use std::alloc::Global;

/// By which words the children of a program are started.
pub trait ChildWords {
    /// The words of this child.
    ghost words: { Self → ChildData → List (List ℕ) };

    /// Starts a child by its words. The spawner is asked once; not at all if there is no memory for the words, which is told
    /// as `Memory`.
    fn start<S: Spawner>(&self, alloc: Global, child: Child<'_>, spawner: &mut S) -> Started
        ensures { IsBegun (words self.now (child_data child.entry)) result
            (record { children = S.children spawner.old; calls = S.calls spawner.old; faults = S.faults spawner.old })
            (record { children = S.children spawner.new; calls = S.calls spawner.new; faults = S.faults spawner.new }) };
}
