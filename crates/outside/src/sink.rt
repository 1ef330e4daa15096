// Where bytes go to.
ghost use Rattle.std.specs.Prelude.{◌≡◌, ◌<◌, ◌⊎◌, ◌↔◌, ℕ, List, [], Option, IfOk, length};
ghost use Rattle.mail_bytes.specs.Told.{Meets};
ghost use Rattle.outside.specs.Streams.{CountsFailures, Gives, gave_failed};
ghost use Rattle.outside.specs.Forms.{FailsNext, failed_sink, filled_sink, new_plan};

use crate::bounded::BoundedBytes;
use crate::fault_plan::FaultPlan;
use mail_bytes::Memory;
use std::alloc::Global;
use std::marker::Model;

/// What came of giving bytes.
#[derive(Clone, Copy, PartialEq, Eq)]
pub enum Gave {
    /// All were taken.
    Done,
    /// At most a prefix of them was taken; the sink has counted it.
    Failed,
}

/// Where bytes go to, as a program's standard output.
pub trait Sink {
    /// The bytes that it took so far, if it tells.
    ghost taken: { Self → Option (List ℕ) };

    /// How often it has failed; the count never falls, and stands still at u64's last value.
    ghost faults: { Self → ℕ };

    /// How often it has failed.
    fn faults(&self) -> u64
        ensures { result ≡ faults self.now };

    /// Gives it bytes, as write(2) called until all are written. After `Failed` it took a prefix of them.
    fn give(&mut self, bytes: &[u8]) -> Gave
        ensures told { Meets (taken self.old) (taken self.new) (Gives result bytes.now) }
        ensures cause { CountsFailures (faults self.old) (faults self.new) (result ≡ Gave.Failed) };
}

/// A sink in memory, which keeps what it took. It has room for so many bytes, as a disk that fills up; of bytes for which
/// there is no room it takes those that fit, and fails. A call that is planned to fail takes nothing.
#[derive(Drop)]
pub struct MemSink {
    taken: BoundedBytes,
    plan: FaultPlan,
}

impl Model for MemSink {
    ghost use Rattle.outside.specs.Forms.{SinkForm};

    ghost Value = { SinkForm };

    ghost view = { λ s. record { taken = s.taken.bytes; room = s.taken.room; plan = s.plan } };
}

impl MemSink {
    /// A sink that took nothing yet, has room for so many bytes, and whose calls with these numbers fail, counted from 1.
    pub fn new(alloc: Global, room: usize, failing: Vec<u64>) -> Result<Self, Memory>
        ensures { IfOk result (λ s. s ≡ record { taken = []; room = room; plan = new_plan failing.items }) }
    {
        Ok(MemSink {
            taken: BoundedBytes::new(alloc, room)?,
            plan: FaultPlan::new(failing),
        })
    }

    /// What it took so far.
    pub fn taken(&self) -> &[u8]
        ensures { result.now ≡ self.now.taken }
    {
        self.taken.as_slice()
    }
}

impl Sink for MemSink {
    ghost use Rattle.std.specs.Prelude.{Some};

    ghost taken = { λ s. Some s.taken };

    ghost faults = { λ s. s.plan.faults };

    fn faults(&self) -> u64 {
        self.plan.faults()
    }

    fn give(&mut self, bytes: &[u8]) -> Gave
        ensures told { Gives result bytes.now self.old.taken self.new.taken }
        ensures cause { CountsFailures self.old.plan.faults self.new.plan.faults (result ≡ Gave.Failed) }

        // it fails exactly if the call was planned to, or if there isn't room for all; and what it holds then
        ensures fails { (result ≡ Gave.Failed) ↔ (FailsNext self.old.plan ⊎ (self.old.room < length bytes.now)) }
        ensures planned { FailsNext self.old.plan → self.new ≡ failed_sink self.old }
        ensures unplanned { ¬ (FailsNext self.old.plan) → self.new ≡ filled_sink bytes.now (gave_failed result) self.old }
    {
        if self.plan.call_fails() {
            return Gave::Failed;
        }
        let gave = self.taken.take(bytes);
        if gave == Gave::Failed {
            self.plan.count_failure();
        }
        gave
    }
}
