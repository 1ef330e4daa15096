// Which calls are to fail.
ghost use Rattle.std.specs.Prelude.{◌≡◌, ◌↔◌, Contains, IsErr, IsOkUnless, OnErr, ◌≤◌, is_err, if◌then◌else◌};
ghost use Rattle.mail_bytes.specs.Told.{Rose, raised};

use call_fs::FsError;

/// Counts calls, and makes those fail that are planned.
#[derive(Drop)]
pub struct Plan {
    /// The calls that are to fail, by their index from 1.
    pub at: Vec<u64>,
    /// How many calls were made.
    pub made: u64,
    /// How many have failed.
    pub faults: u64,
}

impl Plan {
    /// Counts a call; `Fault` exactly if it was planned.
    pub fn begin(&mut self) -> Result<(), FsError>
        ensures plan { self.new.at.items ≡ self.old.at.items }
        ensures made { self.new.made ≡ raised self.old.made }
        ensures planned { IsErr result ↔ Contains self.old.at.items (raised self.old.made) }
        ensures fault { IsOkUnless result FsError.Fault }
        ensures later { self.old.faults ≤ self.new.faults }
        ensures rose { OnErr result (Rose self.old.faults self.new.faults) }
        ensures faults { self.new.faults ≡ (if is_err result then raised self.old.faults else self.old.faults) }
    {
        self.made = self.made.saturating_add(1);
        if self.at.contains(&self.made) {
            self.faults = self.faults.saturating_add(1);
            return Err(FsError::Fault);
        }
        Ok(())
    }
}
