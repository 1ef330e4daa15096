// Laws of whole runs of a sender: contracts of functions that do nothing.
ghost use Rattle.std.specs.Prelude.{List, ℕ, Option};
ghost use Rattle.call_fs.specs.declared.program.Ready.{Ready};
ghost use Rattle.call_fs.specs.declared.past.Own.{Own};
ghost use Rattle.call_fs.specs.Past.{IsRunBy};
ghost use Rattle.send_core.specs.Table.{Next};
ghost use Rattle.send_core.specs.Agrees.{LanesAgree};
ghost use Rattle.send_core.specs.Laws.{GivesRequests, MarksReports, NotesReports};

/// Each request that is given is of the first record of the channel file read last that reads `T` and of which none was given
/// since, for the lowest slot in which nothing is in flight, which is below the limit that the spawner's first byte says. Its
/// sender is one that the message's info file or todo file said when it was read. No attempt at that record is in flight, and no
/// record of the channel waits for its mark. What is in flight is counted from the past: in a slot, the request that was given
/// last, until a report of that slot is taken.
pub fn requests_are_of_records()
    ensures { (turns : Option ℕ) (past : List Own) (now : ℕ) (ready : Ready) → IsRunBy (Next turns) past
        → GivesRequests past (Next turns past now ready) }
{}

/// A channel file is opened for writing only to mark the record that comes next of those of which a final report was taken: K, D, or
/// in a dying pass any other. So each mark is of one report, and of the attempt that was in flight in its slot. After D, and after
/// another letter in a dying pass, the note of the recipient was written and synced directly before. The only write is that of `D`
/// at the place of that record, directly after the open; and after each open for writing that write is due. Whether a pass is a
/// dying one is told by the past: by the moment of its open, by the message's birth, and by what `queuelifetime` says.
pub fn marks_are_of_reports()
    ensures { (turns : Option ℕ) (past : List Own) (now : ℕ) (ready : Ready) → IsRunBy (Next turns) past
        → MarksReports past (Next turns past now ready) }
{}

/// A bounce file is opened to append only for the note of the record that comes next to be marked, if something is noted of it:
/// what its report says, and in a dying pass that the message is too old. While that note is written nothing else is done.
pub fn notes_are_of_reports()
    ensures { (turns : Option ℕ) (past : List Own) (now : ℕ) (ready : Ready) → IsRunBy (Next turns) past
        → NotesReports past (Next turns past now ready) }
{}

/// What a sender keeps of a channel is what its past says of that, until it has ended: which attempts are in flight in which slots,
/// which records are still to be given, and which are to be marked, after which notes. A note that couldn't be written drops its mark.
pub fn lanes_are_accounts()
    ensures { (turns : Option ℕ) (past : List Own) → IsRunBy (Next turns) past → LanesAgree turns past }
{}
