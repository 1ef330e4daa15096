// A gate that counts.

use outside::Gate;
use std::cell::Cell;

/// A gate that counts: how often it was asked to pause, and the sum of the steps, with a thousand for each that was of a mail.
#[derive(Drop)]
pub struct CountingGate {
    pauses: Cell<u64>,
    steps: Cell<u64>,
}

impl CountingGate {
    /// A gate that wasn't asked yet.
    pub fn new() -> Self {
        CountingGate {
            pauses: Cell::new(0),
            steps: Cell::new(0),
        }
    }

    /// How often it was asked to pause.
    pub fn pauses(&self) -> u64 {
        self.pauses.get()
    }

    /// The sum of the steps, with a thousand for each that was of a mail.
    pub fn steps(&self) -> u64 {
        self.steps.get()
    }
}

impl Gate for CountingGate {
    fn pause(&self, mail: u64, step: u64) {
        let steps = step.wrapping_add(mail.wrapping_mul(1000));
        self.pauses.set(self.pauses.get().wrapping_add(1));
        self.steps.set(self.steps.get().wrapping_add(steps));
    }
}
