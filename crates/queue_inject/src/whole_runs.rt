// Laws of whole runs of an injector: contracts of functions that do nothing.
ghost use Rattle.std.specs.Prelude.{◌≡◌, List, ℕ};
ghost use Rattle.call_fs.specs.declared.program.Ready.{Ready};
ghost use Rattle.call_fs.specs.declared.past.NeedData.{NeedData};
ghost use Rattle.call_fs.specs.declared.past.NeedData.TheVariants as needs;
ghost use Rattle.call_fs.specs.declared.past.Own.{Own};
ghost use Rattle.queue_inject.specs.declared.injection.Arguments.{Arguments};
ghost use Rattle.queue_inject.specs.Table.{Next};
ghost use Rattle.queue_inject.specs.Run.{IsRun};
ghost use Rattle.queue_inject.specs.Left.{IsLeft};
ghost use Rattle.queue_inject.specs.Written.{IsWritten};

/// The calls of a run that has ended, in order: so many pid names that are found taken; then a prefix of one written-out
/// list, each call answered Ok; then what its end adds, a call that is refused and a clean up.
///
/// | State | The calls of the list |
/// |---|---|
/// | S1 | create the pid name, link it to `mess/N` |
/// | S2 | unlink the pid name, append the message by pieces of 8192 bytes, sync, create `intd/N` |
/// | S3 | append the todo text by pieces, sync, link `intd/N` to `todo/N` |
///
/// A fault of a text is found once its whole pieces are written, and before its sync. If a call of S2 is refused, or the
/// message has a fault, `mess/N` is removed; if one of S3 but the last is, or the envelope has a fault, `intd/N` and then
/// `mess/N`. A clean up ends at a name that can't be removed. In S1 and at the link to `todo` nothing is removed. No
/// further call is made once the day is over.
pub fn runs_are_written()
    ensures { (args : Arguments) (past : List Own) (now : ℕ) (ready : Ready) (status : ℕ) → IsRun args past
        → Next args past now ready ≡ needs.Ended status → IsWritten args past now status }
{}

/// What a run leaves in the queue, by what its calls were answered, as qmail-queue(8) has it beside each status.
///
/// | Status | Left |
/// |---|---|
/// | 0 | S4 |
/// | 66, and 51 if the link to `todo` was refused | S3 |
/// | 64, and 51 if the link to `mess` was refused | the pid name |
/// | 11, 31, 51, 53, 54, 63, 65, 91 | nothing; if an unlink failed, the pid name, S2, both of them, or S3 |
/// | 52 | nothing, the pid name, S2, both of them, or S3 |
pub fn names_are_left()
    ensures { (args : Arguments) (past : List Own) (now : ℕ) (ready : Ready) (status : ℕ) → IsRun args past
        → Next args past now ready ≡ needs.Ended status → IsLeft args past status }
{}
