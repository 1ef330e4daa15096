// What is wrong with a run.

use std::alloc::{AllocError, AllocFailed};

/// What is wrong at a line of a run. What is found in place of what is wanted is written elsewhere, as a text.
#[derive(Clone, Copy)]
pub(crate) enum Trouble {
    /// It is no such line.
    Malformed,
    /// The sender needs something else.
    Needs,
    /// The log is another one; it is written with escapes.
    Log,
    /// It stands elsewhere, or its next step is another one.
    Stands,
    /// Other marks are to be made.
    Marks,
    /// Other files are left.
    Left,
    /// Out of memory.
    Memory,
}

impl Trouble {
    /// What is said of it, before the text that is found and after it.
    pub(crate) fn words(self) -> (&'static str, &'static str) {
        match self {
            Trouble::Malformed => ("malformed", ""),
            Trouble::Needs => ("needs ", ""),
            Trouble::Log => ("its log is '", "'"),
            Trouble::Stands => ("stands elsewhere", ""),
            Trouble::Marks => ("marks are ", ""),
            Trouble::Left => ("left is '", "'"),
            Trouble::Memory => ("out of memory", ""),
        }
    }
}

impl From<AllocError> for Trouble {
    fn from(_: AllocError) -> Self {
        Trouble::Memory
    }
}

impl<T: Drop> From<AllocFailed<T>> for Trouble {
    fn from(_: AllocFailed<T>) -> Self {
        Trouble::Memory
    }
}
