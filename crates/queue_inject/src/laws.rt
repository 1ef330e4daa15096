// Laws of an injector's table (qmail-queue(8)): contracts of functions that do nothing.
ghost use Rattle.std.specs.Prelude.{◌≡◌, List, ℕ};
ghost use Rattle.call_fs.specs.declared.program.Ready.{Ready};
ghost use Rattle.call_fs.specs.declared.past.NeedData.{NeedData};
ghost use Rattle.call_fs.specs.declared.past.NeedData.TheVariants as needs;
ghost use Rattle.call_fs.specs.declared.past.Own.{Own};
ghost use Rattle.queue_inject.specs.declared.injection.Arguments.{Arguments};
ghost use Rattle.queue_inject.specs.Table.{Next};
ghost use Rattle.queue_inject.specs.Run.{IsRun};
ghost use Rattle.queue_inject.specs.Causes.{IsCausedBy};

/// With which exit status a run ends, and why, as qmail-queue(8) has them.
///
/// | Status | Exactly if |
/// |---|---|
/// | 0 | the message was queued: the link to `todo` was made |
/// | 11 | the first fault of the input is an address of over 1002 bytes |
/// | 31 | the first fault is a message or an envelope of over 1,073,741,824 bytes |
/// | 51 | a call answered that it was out of memory |
/// | 52 | a call was due more than a day after the start |
/// | 53 | a write or a sync failed |
/// | 54 | the first fault is an input that can't be read, or an envelope that ends too early |
/// | 63 | a creation or an unlink in `pid` failed, or all nine names there are taken |
/// | 64 | the link to `mess` failed |
/// | 65 | the creation in `intd` failed |
/// | 66 | the link to `todo` failed |
/// | 91 | the first fault is a wrong format |
///
/// A fault of the input counts if no call failed before it was reached, and a failed call if it isn't a clean up. If a call
/// is due after a day, a clean up too, the status is 52 whatever came before.
pub fn statuses_have_causes()
    ensures { (args : Arguments) (past : List Own) (now : ℕ) (ready : Ready) (status : ℕ) → IsRun args past
        → Next args past now ready ≡ needs.Ended status → IsCausedBy args past now status }
{}
