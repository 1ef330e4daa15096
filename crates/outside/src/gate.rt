// A gate at which threads can be held.

/// A gate at which threads can be held. It answers nothing, so it can change nothing but when a step is made.
pub trait Gate {
    /// Called before each step: by the thread of a mail with that mail's number and the step's, both from 1; by the
    /// k-th thread of another kind with 0 and k, k from 1, before its first try of a step.
    fn pause(&self, mail: u64, step: u64);
}

/// A gate that holds nobody.
#[derive(Clone, Copy)]
pub struct OpenGate;

impl Gate for OpenGate {
    fn pause(&self, _mail: u64, _step: u64) {}
}
