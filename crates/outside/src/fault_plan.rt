// Which calls of a form in memory fail.
ghost use Rattle.std.specs.Prelude.{◌≡◌, ◌≤◌, ◌↔◌, IsTrue};
ghost use Rattle.outside.specs.Forms.{FailsNext, after_call, after_failure, new_plan};

use std::marker::Model;

/// Which calls of a form in memory fail, how many calls there were, and how many have failed.
#[derive(Drop)]
pub struct FaultPlan {
    calls: u64,
    failing: Vec<u64>,
    faults: u64,
}

impl Model for FaultPlan {
    ghost use Rattle.outside.specs.Forms.{FailurePlan};

    ghost Value = { FailurePlan };

    ghost view = { λ p. record { calls = p.calls; failing = p.failing.items; faults = p.faults } };
}

impl FaultPlan {
    /// The calls with these numbers fail, counted from 1.
    pub fn new(failing: Vec<u64>) -> Self
        ensures { result ≡ new_plan failing.items }
    {
        FaultPlan {
            calls: 0,
            failing,
            faults: 0,
        }
    }

    /// How many calls have failed.
    pub fn faults(&self) -> u64
        ensures { result ≡ self.now.faults }
    {
        self.faults
    }

    /// Counts a call, and answers whether it fails.
    pub fn call_fails(&mut self) -> bool
        ensures fails { IsTrue result ↔ FailsNext self.old }
        ensures counted { self.new ≡ after_call result self.old }
        ensures later { self.old.faults ≤ self.new.faults }
    {
        self.calls = self.calls.saturating_add(1);
        let fails = self.failing.contains(&self.calls);
        if fails {
            self.count_failure();
        }
        fails
    }

    /// Counts a failure.
    pub fn count_failure(&mut self)
        ensures counted { self.new ≡ after_failure self.old }
        ensures later { self.old.faults ≤ self.new.faults }
    {
        self.faults = self.faults.saturating_add(1);
    }
}
