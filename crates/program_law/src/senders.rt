//! What a living sender relies on over the queue (`specs/Sender/Stands.antt`), what its events and those of others keep of
//! that (`specs/Sender/Laws.antt`), and its chores (qmail-send(8)). These are what its cleaner is given and when it waits for
//! the answer (`specs/Sender/Commands.antt`, `specs/Sender/Waits.antt`), its todo pass (`specs/Sender/Searches.antt`), and
//! the finish of a message, with the return of its bounce file, and the sweep (`specs/Sender/Points.antt`). The laws are the
//! contracts of functions that do nothing.
//!
//! # What is claimed
//!
//! - What a living sender relies on over the queue, at each row of its table (`SenderStands`): each message that it
//!   knows is preprocessed, with the sender of its injection. A channel file that it isn't known to have isn't
//!   there. Of each message that is due on a channel, and of each job, the file is there; each channel is tied to
//!   the records of its files as they read now. Each mark to be made is of a recipient that was reported delivered
//!   or, if it has a note, failed for good; a message with a job on a channel is due there at the moment that never
//!   comes. And what the row itself rests on, as the file of a descriptor, what was read of it, and what a todo
//!   pass has done so far. A sender that begins has this, and what holds between two steps holds at the row that is
//!   next, by each moment that a clock may tell: the laws `senders_begin`, `senders_arrive`.
//! - A taking from a spawner enters the recipients of whom a report is final, as delivered or as failed for good,
//!   each in flight in its slot, and each may be entered. A request that is due is of a record that reads `T` on
//!   the disk, with no other attempt at it in flight, given or not. Each call of a mark: those of its note, of
//!   which the sync enters the recipient as noted; the open, the overwriting, of which any part may have been
//!   written, and the close. The unlink of a channel file that is due is of one all of whose recipients were
//!   reported delivered or are noted. Each of these keeps what holds of the queue, leaves all but one number alone,
//!   which no injector touches any more (a taking: one for each that it enters), and leaves the sender what it
//!   relies on, whatever is answered. A reading of a file that preprocessing made keeps what it rests on, and what
//!   was read once it is whole is all of the file: the laws `takings_keep`, `requests_keep`, `marks_keep`,
//!   `files_go`, `readings_keep`.
//! - A pass that opens: each call of the reading of its channel file, its begin over the records that the file has
//!   then, and its being put off. Each call of the scan of the info files at the start. A number that it finds is
//!   known as a known message is, with the sender of its injection. It is due at moment 0 on each channel of which
//!   it has a file. The laws: `passes_open`, `scans_keep`.
//! - A step of another actor that leaves alone what is preprocessed leaves what a sender knows and keeps, and what
//!   it rests on at each row except those of preprocessing, finish and sweep (for those see `points_are_left_alone`
//!   and `senders_are_left_alone` below). Not stated: that the scan finds each preprocessed number: the law
//!   `sorted_is_left_alone` (by `SparesSorted`).
//! - What a sender waits for, by its table: each giving to its cleaner is of a command, and afterwards it waits for
//!   that one's answer, or ends if the giving failed. It takes from the cleaner only what it waits for, and does
//!   nothing more if that brought nothing; while it waits it does nothing else; after each other event it waits for
//!   nothing, or does nothing more. It starts no program but the injector of a bounce, and runs no command: the law
//!   `senders_wait` (by `awaits`).
//! - A cleaner that takes a command or gives an answer has what it relies on at its next row, if the command that
//!   waits rests. Such a command rests on as time goes on and by what others do. While the sender waits for
//!   nothing, the cleaner works at no number: the laws `cleaners_go_on`, `waiting_rests_on`.
//! - A search of `todo` that finds a number begins a pass that has what it relies on. The pass goes on with each of
//!   its file calls that is due, by what others do that leaves the number alone, and as time goes on, with all that
//!   led to the disk of now. When it gives `todo/N`, that number rests as the command needs, and the sender knows
//!   the sender of the message's injection and which channel files are there. It knows them while the cleaner
//!   carries the command out. Once `+` is there, the message is known as a known one is, and each channel file that
//!   it is known to have is there: the laws `search_begins`, `passes_go_on`, `passes_give`,
//!   `unlinks_leave_learned`, `done_is_known`, by `PassGoesOn`, `IsExpected`.
//! - Each call of a finish and of the sweep keeps what holds of the queue, concerns no other number, and leads to a
//!   row at which the sender has what it relies on. They are those by which the bounce file and the message are
//!   read and the bounce file goes, the start of the bounce's injector, and the giving to it. So does the taking of
//!   its status, which enters the bounce if it is 0. Info goes only when both channel files are gone, and `foop/N`
//!   is given only of a number of which nothing is wanted and that no injector touches. A message file that is old
//!   by the moment read at its stat is one that no injector touches any more. What a finish and the sweep rest on
//!   at each row stays by what others do that spares the number, and as time goes on, however long: the laws
//!   `finishes_lead`, `returns_go_on`, `sweeps_lead`, `chores_stand`, `points_are_left_alone`.
//! - Each event of a sender leads from a row at which it has what it relies on, and all holds that holds of the
//!   queue, to one of which both are true again. That is each file call that is due, with any answer, each giving,
//!   whether it succeeds or fails, and each taking. A call concerns at most one number, which no injector touches
//!   any more; a taking and a giving is a chain of such steps. It is said of a cleaner whose `+` to `todo/N` comes of a number that is preprocessed. So does
//!   what another actor does that leaves alone what is preprocessed and the number at work, and time: the laws
//!   `senders_keep` (by `IsTold`), `senders_are_left_alone` (by `LeavesRow`).
//! - A call of an injector, a step of a program that is none of the queue's, and a call of a cleaner whose number
//!   rests as its command needs leave alone what is preprocessed. So does a step that concerns no number: the law
//!   `others_spare` (by `SparesSorted`).
//! - Each disk has controls, without NUL: what its control files say, if none of them is bad: the law
//!   `controls_exist` (by `AreControls`).
//! - If each control file was there at the beginning and is on the disk, they stay as they are over a machine stop.
//!   So they do by each step that leaves what isn't the queue's and what was there at the beginning, also by one
//!   that takes a name in `pid` away. One that a name in `pid` leads to as well is no exception: the law
//!   `controls_stay` (by `AreOld`, `LeavesControls`). A sender reads them as they are, whatever is answered: when it
//!   has read all twelve, none of them is bad and its controls are what they say. What others do leaves what it has
//!   read so far: the law `controls_are_read` (by `ControlStands`, `TheySay`).
//! - The requests that lie ready are those of the attempts still to be given, each with the sender of its message's
//!   injection; each message that is due is known. So it is at a sender's begin, after each event of it, after a
//!   recipient is entered, and after a step of another actor that leaves alone what is preprocessed. So each giving
//!   to a spawner is of the request for a record that reads `T` on the disk, with the sender of the injection whose
//!   life lasts and the recipient of the record, for the lowest free slot. No other attempt at that record is in
//!   flight. The laws: `texts_keep` (by `TextsStand`), `requests_are_texts` (by `IsRequestFor`).
ghost use Rattle.program_law.specs.Sender.Asking.{RequestsAreTexts, TextsKeep};
ghost use Rattle.program_law.specs.Sender.Commands.{CleanersGoOn, WaitingRestsOn};
ghost use Rattle.program_law.specs.Sender.Control.{ControlsExist};
ghost use Rattle.program_law.specs.Sender.ControlFiles.{ControlsAreRead, ControlsStay};
ghost use Rattle.program_law.specs.Sender.Laws.{SendersArrive, SendersBegin, SortedIsLeftAlone};
ghost use Rattle.program_law.specs.Sender.LeftAlone.{SendersAreLeftAlone};
ghost use Rattle.program_law.specs.Sender.Marking.{MarksKeep};
ghost use Rattle.program_law.specs.Sender.Passes.{PassesOpen};
ghost use Rattle.program_law.specs.Sender.Passing.{FilesGo, RequestsKeep};
ghost use Rattle.program_law.specs.Sender.Points.{ChoresStand, FinishesLead, PointsAreLeftAlone, ReturnsGoOn, SweepsLead};
ghost use Rattle.program_law.specs.Sender.Readings.{ReadingsKeep};
ghost use Rattle.program_law.specs.Sender.Scan.{ScansKeep};
ghost use Rattle.program_law.specs.Sender.Searches.{DoneIsKnown, PassesGive, PassesGoOn, SearchBegins, UnlinksLeaveLearned};
ghost use Rattle.program_law.specs.Sender.Spares.{OthersSpare};
ghost use Rattle.program_law.specs.Sender.Takings.{TakingsKeep};
ghost use Rattle.program_law.specs.Sender.Waits.{SendersWait};
ghost use Rattle.program_law.specs.Sender.Whole.{SendersKeep};

/// A sender that begins has what it relies on, whatever the queue is.
pub fn senders_begin()
    ensures { SendersBegin }
{}

/// What a sender relies on between two steps it relies on at the row that is next.
pub fn senders_arrive()
    ensures { SendersArrive }
{}

/// A step of another actor that leaves alone what is preprocessed leaves what a sender relies on.
pub fn sorted_is_left_alone()
    ensures { SortedIsLeftAlone }
{}

/// A taking from a spawner enters the recipients of whom a report is final, as delivered or as failed for good, each in flight in its slot;
/// and it keeps what holds of the queue and what the sender relies on.
pub fn takings_keep()
    ensures { TakingsKeep }
{}

/// A request that is due is of a record that reads `T` on the disk, and no attempt at that record is in flight; and it keeps
/// what the sender relies on, whether it is given or fails.
pub fn requests_keep()
    ensures { RequestsKeep }
{}

/// The unlink of a channel file that is due is of one all of whose recipients were reported delivered or are noted; and it keeps what holds
/// of the queue and what the sender relies on, whether it is done or fails.
pub fn files_go()
    ensures { FilesGo }
{}

/// Each call of a mark that is due keeps what holds of the queue and what the sender relies on, whatever is answered: each call of its note,
/// of which the sync enters the recipient as noted; and the open of the channel file, the overwriting of the letter, of which any part may
/// have been written, and the close.
pub fn marks_keep()
    ensures { MarksKeep }
{}

/// Each call of a pass that opens keeps what holds of the queue and what the sender relies on, whatever is answered: each call of
/// the reading of its channel file, the begin of the pass over the records that the file has then, and its being put off.
pub fn passes_open()
    ensures { PassesOpen }
{}

/// Each call of the scan at a sender's start keeps what holds of the queue and what the sender relies on, whatever is answered. So
/// what the scan finds is known as a known message is, and due at moment 0 on each channel of which it has a file.
pub fn scans_keep()
    ensures { ScansKeep }
{}

/// Each call of a reading that is due, of a file that preprocessing made, keeps what the reading rests on, whatever is answered;
/// and what was read once it is whole is all of the file.
pub fn readings_keep()
    ensures { ReadingsKeep }
{}

/// A cleaner that takes a command or gives an answer has what it relies on at its next row. While the sender waits for nothing, it
/// works at no number.
pub fn cleaners_go_on()
    ensures { CleanersGoOn }
{}

/// A command that waits for the cleaner rests on, as time goes on and by what others do.
pub fn waiting_rests_on()
    ensures { WaitingRestsOn }
{}

/// A sender gives its cleaner commands alone, and takes nothing from it but the answer to the last one, for which it waits.
pub fn senders_wait()
    ensures { SendersWait }
{}

/// A search of `todo` that finds a number begins a pass, which has what it relies on.
pub fn search_begins()
    ensures { SearchBegins }
{}

/// A pass goes on with each of its file calls, and by what others do.
pub fn passes_go_on()
    ensures { PassesGoOn }
{}

/// When a pass gives `todo/n`, that number rests as the command needs, and the message's sender and channel files are known.
pub fn passes_give()
    ensures { PassesGive }
{}

/// They stay known while the cleaner carries the command out.
pub fn unlinks_leave_learned()
    ensures { UnlinksLeaveLearned }
{}

/// After `+` the message is known, and each channel file that it is known to have is there.
pub fn done_is_known()
    ensures { DoneIsKnown }
{}

/// Each call of a finish keeps what holds of the queue, and leads to a row at which the sender has what it relies on: the open of the bounce
/// file, each call by which that and the message are read and the bounce file goes, and the unlink of the info file.
pub fn finishes_lead()
    ensures { FinishesLead }
{}

/// So does each other step of a return: the start of the bounce's injector, the giving of the bounce, and the taking of its status, which
/// enters the bounce if it is 0.
pub fn returns_go_on()
    ensures { ReturnsGoOn }
{}

/// So does each call of the sweep.
pub fn sweeps_lead()
    ensures { SweepsLead }
{}

/// What the finish and the sweep have the cleaner remove rests.
pub fn chores_stand()
    ensures { ChoresStand }
{}

/// What others do that spares its number leaves what a finish or the sweep rests on, at each of their rows. So does time.
pub fn points_are_left_alone()
    ensures { PointsAreLeftAlone }
{}

/// Each event of a sender keeps what holds of the queue and what the sender relies on: a file call that is due, with any answer; what it
/// gives, whether that succeeds or fails; and what it takes. So this holds at each point of a run, if `+` to `todo/N` comes of a number that is preprocessed.
pub fn senders_keep()
    ensures { SendersKeep }
{}

/// Each disk has controls: what its control files say, if none is bad.
pub fn controls_exist()
    ensures { ControlsExist }
{}

/// What another actor does that leaves alone what is preprocessed and the number at work leaves a sender all that it relies on. So does
/// time.
pub fn senders_are_left_alone()
    ensures { SendersAreLeftAlone }
{}

/// A call of an injector, a step of a program that is none of the queue's, and a call of a cleaner whose number rests as its command
/// needs leave alone what is preprocessed. So does a step that concerns no number.
pub fn others_spare()
    ensures { OthersSpare }
{}

/// No program of the queue changes a control file, and none is lost in a machine stop.
pub fn controls_stay()
    ensures { ControlsStay }
{}

/// A sender reads the control files as they are: when it has read them all, none of them is bad, and it has the controls that they say.
pub fn controls_are_read()
    ensures { ControlsAreRead }
{}

/// The requests that lie ready are those of the attempts still to be given, with the sender of the message as it is now: at first, after
/// each event of a sender, and after each step of another actor that leaves alone what is preprocessed.
pub fn texts_keep()
    ensures { TextsKeep }
{}

/// What a sender gives to a spawner is the request for a record that reads `T` in its channel file, with the sender of its message and the
/// recipient of the record, for the lowest free slot; and no other attempt at that record is in flight.
pub fn requests_are_texts()
    ensures { RequestsAreTexts }
{}
