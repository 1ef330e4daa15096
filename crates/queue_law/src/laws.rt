// Laws of the queue. Each is the contract of a function that does nothing.
ghost use Rattle.queue_law.specs.Steps.{CallsKeep, OthersKeep, ForeignersKeep, HaltsKeep};
ghost use Rattle.queue_law.specs.Begins.{RestsBegin};
ghost use Rattle.queue_law.specs.Bouncing.{BouncesBegin, BouncesCover, BouncesDrop, BouncesGo, BouncesGrow, ClosesEnter, NotesSync};
ghost use Rattle.queue_law.specs.Cleaners.{CleanersKeep, RestIsKept};
ghost use Rattle.queue_law.specs.Passes.{PassesGive, PassesKeep, PassesMake, PassIsLeftAlone};
ghost use Rattle.queue_law.specs.Accounts.{AllAccounted, RecipientsAreNumbered, RecordsAreOfRecipients};
ghost use Rattle.queue_law.specs.Claims.{SoundIsSafe};
ghost use Rattle.queue_law.specs.Notes.{NotesAccount, NotesStay};
ghost use Rattle.queue_law.specs.Worked.{WorkedMessage};
ghost use Rattle.queue_law.specs.Senders.{DropsKeep, EndsKeep, EntriesKeep, MarksChangeOne, MarksKeep, OpensKeep, ReadsKeep, UnlinksChangeOne};

/// A call of an injector that is due keeps what holds of the queue and of it. Of all else it leaves everything: other numbers
/// and names, what others hold open, what was accepted, what isn't the queue's, and each preprocessed number.
pub fn calls_keep()
    ensures { CallsKeep }
{}

/// What a step of another actor leaves is enough for an injector.
pub fn others_keep()
    ensures { OthersKeep }
{}

/// A step of a program that is none of the queue's keeps what holds of the queue, and leaves all that concerns each number. Such
/// a step changes no name of the queue and no file that one leads to, nothing that others hold open, and not the books.
pub fn foreigners_keep()
    ensures { ForeignersKeep }
{}

/// A machine stop keeps what holds of the queue, and stops each injector that lives.
pub fn halts_keep()
    ensures { HaltsKeep }
{}

/// What holds of the queue says that it is safe: each number is in one of the five states, each message has its number, and each
/// accepted message is valid, and reads as it was entered while its file is there.
pub fn sound_is_safe()
    ensures { SoundIsSafe }
{}

/// Each recipient of each accepted injection is accounted for: it waits in todo, or its record reads `T`, or it was reported delivered; or
/// it failed for good, and is named by the bounce file, which is synced, or by the notes of a bounce that was accepted, or is dropped as those
/// of a bounce of a bounce are.
pub fn all_accounted()
    ensures { AllAccounted }
{}

/// A sender that only reads, or opens and closes what it holds, changes nothing of the queue.
pub fn reads_keep()
    ensures { ReadsKeep }
{}

/// A mark of a record whose recipient was reported delivered, or whose note is synced under the name that it has by the sender's controls, keeps
/// what holds of the queue, and changes its own number alone. So does one that fails, however much of it was written. The ledger has it either way.
pub fn marks_keep()
    ensures { MarksKeep }
{}

/// So does the unlink of a channel file all of whose recipients are done, or read `D`.
pub fn drops_keep()
    ensures { DropsKeep }
{}

/// So does the unlink of the info file once both channel files and the bounce file are gone, which finishes the number.
pub fn ends_keep()
    ensures { EndsKeep }
{}

/// So does the entry of a recipient that was reported delivered or failed for good, of what was read of a bounce file, and of a bounce that
/// was accepted.
pub fn entries_keep()
    ensures { EntriesKeep }
{}

/// A channel file is read as the records of its recipients, one for each, however many of them are marked.
pub fn records_are_of_recipients()
    ensures { RecordsAreOfRecipients }
{}

/// What an actor opened it holds, and what it held and didn't close it holds after each call that only reads.
pub fn opens_keep()
    ensures { OpensKeep }
{}

/// A file call of a cleaner that is due keeps what holds of the queue, if the number at work rests: if no injector touches it
/// any more, and, of a `foop`, nothing of it is wanted, or, of a `todo`, it is preprocessed except that todo is there. A name in
/// `pid` goes only if no injector that may still call has its file. Once `+` is due to `todo/N`, number N is preprocessed.
pub fn cleaners_keep()
    ensures { CleanersKeep }
{}

/// A number at work rests on as time goes on, and by what other programs do.
pub fn rest_is_kept()
    ensures { RestIsKept }
{}

/// A file call of a todo pass that is due keeps what holds of the queue, if its number rests.
pub fn passes_keep()
    ensures { PassesKeep }
{}

/// When a todo pass gives its command, info and the channel files are whole, on the disk, and those of the message, as its controls route it.
pub fn passes_make()
    ensures { PassesMake }
{}

/// Whatever comes of the giving, the message is routed by those controls from then on, and its number rests as the command needs.
pub fn passes_give()
    ensures { PassesGive }
{}

/// What a todo pass relies on stays as time goes on, and by what other programs do.
pub fn pass_is_left_alone()
    ensures { PassIsLeftAlone }
{}

/// A number rests that has a name in todo, and one whose message was last written over 36 hours ago.
pub fn rests_begin()
    ensures { RestsBegin }
{}

/// A mark changes one byte of its file at most, which reads `D` if its answer is Ok, and nothing else of its number.
pub fn marks_change_one()
    ensures { MarksChangeOne }
{}

/// An unlink takes away its own name, if its answer is Ok, and no other.
pub fn unlinks_change_one()
    ensures { UnlinksChangeOne }
{}

/// There is a recipient for each number of one in the envelope.
pub fn recipients_are_numbered()
    ensures { RecipientsAreNumbered }
{}

/// A message of one local and one remote recipient: its files, their places, and a mark of one.
pub fn a_worked_message()
    ensures { WorkedMessage }
{}

/// A bounce file that begins with whole lines which name each noted recipient goes on to do so: through what is put at its end, also in
/// part, and through a machine stop. So it names each of them, as it is and as it was at its last sync.
pub fn notes_stay()
    ensures { NotesStay }
{}

/// A bounce file may be made while nothing is noted, and may go once a bounce with all of its notes was accepted, or when they are dropped,
/// as those of a bounce of a bounce are. While it is there, and after that, each recipient that is noted is accounted for: by the bounce
/// file, as it is and as it was at its last sync, by the notes of the bounce, or as dropped.
pub fn notes_account()
    ensures { NotesAccount }
{}

/// A bounce file may be created while a channel file is there. It is then empty, and open.
pub fn bounces_begin()
    ensures { BouncesBegin }
{}

/// What is put at the end of a bounce file, whole or in part, keeps what holds of the queue, and changes that file alone.
pub fn bounces_grow()
    ensures { BouncesGrow }
{}

/// A sync of the bounce file keeps it too; after it the recipient is noted whose note stands at its end.
pub fn notes_sync()
    ensures { NotesSync }
{}

/// The bounce file may be unlinked once a bounce with what it holds was accepted.
pub fn bounces_go()
    ensures { BouncesGo }
{}

/// So it may if the message is a bounce of a bounce and its channel files are gone, which the ledger then tells.
pub fn bounces_drop()
    ensures { BouncesDrop }
{}

/// A bounce file names each recipient that is noted.
pub fn bounces_cover()
    ensures { BouncesCover }
{}

/// A close may enter a line in the ledger of a message, as what was read of its bounce file.
pub fn closes_enter()
    ensures { ClosesEnter }
{}
