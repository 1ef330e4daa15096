// The call that is to fail.
ghost use Rattle.std.specs.Prelude.{◌≡◌, ◌↔◌, Some, IsErr, IsOkUnless, is_err, if◌then◌else◌};
ghost use Rattle.call_fs.specs.Plan.{nearer};
ghost use Rattle.mail_bytes.specs.Told.{raised};

use call_fs::FsError;

/// Counts calls down to the chosen one, and how many have failed by this choice.
#[derive(Drop)]
pub struct ChosenFault {
    /// Which call from now fails, counted from 1.
    pub at: Option<u64>,
    /// How many have failed.
    pub failed: u64,
}

impl ChosenFault {
    /// Counts a call; `Fault` exactly if it is the chosen one.
    pub fn begin(&mut self) -> Result<(), FsError>
        ensures at { self.new.at ≡ nearer self.old.at }
        ensures due { IsErr result ↔ (self.old.at ≡ Some 1) }
        ensures fault { IsOkUnless result FsError.Fault }
        ensures failed { self.new.failed ≡ (if is_err result then raised self.old.failed else self.old.failed) }
    {
        let Some(calls) = self.at else {
            return Ok(());
        };
        if calls > 1 {
            self.at = Some(calls - 1);
            return Ok(());
        }
        self.at = None;
        if calls == 0 {
            return Ok(());
        }
        self.failed = self.failed.saturating_add(1);
        Err(FsError::Fault)
    }
}
