//! The law of the queue: what holds of each name and number of the queue (`specs/Numbers.antt`), what an injector relies on at
//! each row of its table (`specs/Injectors.antt`), and what a call and a machine stop keep of both (`specs/Steps.antt`). Also what
//! a sender does to the queue (`specs/Senders.antt`), and how each recipient is accounted for (`specs/Accounts.antt`). The
//! induction over histories is world_law's; that over those without generations is mail_world's.
//!
//! # What is claimed
//!
//! - A call of an injector that is due keeps what holds of each name and each number of the queue, and what the
//!   injector relies on at its row. It leaves all else: other numbers and names, what others hold open, what was
//!   accepted, what isn't the queue's, each file that was there at the beginning or was made as the drop of a
//!   delivery, and each preprocessed number. The law: `calls_keep`, by `Sound`, `InjectorFares`, `InjectorCalls`.
//! - What a step of another actor leaves is enough for an injector; a step of a program that is none of the queue's
//!   keeps what holds of the queue, and leaves all that concerns each number. A machine stop keeps what holds of
//!   the queue and of each injector, which it stops: the laws `others_keep`, `foreigners_keep` (by `Foreign`),
//!   `halts_keep`.
//! - A file call of a cleaner that is due keeps what holds of the queue, if the number at work rests. Then no
//!   injector touches it any more. Of a `foop`, nothing of it is wanted; of a `todo`, it is preprocessed except
//!   that todo is there. No file changes by it. A name in `pid` goes only if no injector that may still call made
//!   its file. Once `+` is due to `todo/N`, number N is preprocessed. The number at work rests on as time goes on,
//!   by what other programs do, and over a machine stop. A number rests that has a name in todo, or whose message
//!   was last written over 36 hours ago. That a command comes only of a number that rests is said by program_law and
//!   program_law, and of histories by world_law's `commands_rest`: the laws `cleaners_keep` (by `CleanerStands`,
//!   `CleanerLeads`), `rest_is_kept`, `rests_begin`.
//! - A file call of a todo pass that is due keeps what holds of the queue, if its number rests, and concerns that
//!   number alone. When it gives its command, info and the channel files are whole, on the disk, and those of the
//!   message. What it relies on stays as time goes on, and by what other programs do: the laws `passes_keep` (by
//!   `PassStands`, `PassLeads`), `passes_make` (by `IsReady`), `pass_is_left_alone`.
//! - After preprocessing a sender's reads keep what holds of the queue. So does a mark of a record whose recipient
//!   was reported delivered or whose note is synced, also one that fails, however much was written. So do the
//!   unlink of a channel file all of whose recipients are such, and the unlink of info after both channel files and
//!   the bounce file. So do the entries in the ledger: of a final report, of what was read of the bounce file (also
//!   at its close), and of a bounce that was accepted. They change nothing except their own number, and no file
//!   that was there at the beginning or was made as a drop. That a sender's calls are of these kinds is part of
//!   program_law's `senders_keep`: the laws `reads_keep`, `marks_keep`, `drops_keep`, `ends_keep`, `entries_keep`,
//!   `closes_enter`, by `LeadsOn`.
//! - What holds of the queue says that each number is in one of the five states, that each message has its number,
//!   and that what was accepted is valid and reads as entered while its file is there. Each recipient of it waits
//!   in todo, or has a record that reads `T` at its place, or was reported delivered, or failed for good. One that
//!   failed is named by the bounce file, as that is and as it was at its last sync, or by the notes of an accepted
//!   bounce, or is dropped as those of a bounce of a bounce. The file and the bounce name at least as many of its
//!   name as are still to be told. That a bounce in a ledger is an accepted injection with that actor and those
//!   arguments is world_law's `bounces_are_accepted`: the laws `sound_is_safe` (by `IsSafe`), `all_accounted` (by
//!   `Accounted`).
//! - A bounce file that begins with whole lines which name each noted recipient of the message goes on to do so,
//!   through what is put at its end, also in part, and through a machine stop. So it names each, and as often as
//!   the message has noted recipients of that name, as it is and as it was at its last sync. Once the note of one
//!   more was put at its end and synced, that one too. Such a file may be made while nothing is noted, and may go
//!   once a bounce whose notes it holds was accepted, or when its notes are dropped. Then each noted recipient is
//!   accounted for, by the file, by that bounce, or as dropped. The laws: `notes_stay` (by `HasNotes`, `Covers`),
//!   `notes_account` (by `NotesState`, `HeldOrReturned`).
//! - What a sender does to a bounce file keeps what holds of the queue, whatever is answered, and changes nothing
//!   except its own number. It is the create, while a channel file is there; whatever is put at its end, also in
//!   part; and the sync, by which the recipient is noted whose note stands at its end. It is also the unlink, once
//!   a bounce with what it holds was accepted, or if the message is a bounce of a bounce and its channel files are
//!   gone, which the ledger then tells. The number of a bounce file is preprocessed, and the file names each noted
//!   recipient: the laws `bounces_begin`, `bounces_grow`, `notes_sync`, `bounces_go`, `bounces_drop` (by
//!   `LeadsOn`), `bounces_cover` (by `IsBouncing`).
//! - A channel file is read as the records of its recipients, one for each, and a record is done only if its
//!   recipient was reported delivered or is noted. A mark changes one byte at most, and an unlink one name; what an
//!   actor opened and didn't close it holds. A worked message: the laws `records_are_of_recipients`,
//!   `recipients_are_numbered`, `marks_change_one`, `unlinks_change_one`, `opens_keep`, `a_worked_message`.
#![tactic(auto)]

mod laws;

pub use laws::{
    a_worked_message, all_accounted, bounces_begin, bounces_cover, bounces_drop, bounces_go,
    bounces_grow, calls_keep, cleaners_keep, closes_enter, drops_keep, ends_keep, entries_keep,
    foreigners_keep, halts_keep, marks_change_one, marks_keep, notes_account, notes_stay,
    notes_sync, opens_keep, others_keep, pass_is_left_alone, passes_keep, passes_make, reads_keep,
    recipients_are_numbered, records_are_of_recipients, rest_is_kept, rests_begin, sound_is_safe,
    unlinks_change_one,
};
