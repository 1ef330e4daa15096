//! The bounce file of a message, and the message that returns it to its sender, in the qmail-send bounce message format
//! (QSBMF); and the steps by which the sender writes notes and returns messages (qmail-send(8)).
//!
//! The contract of this crate: `note`, `notes_of` and `bounce_message` give exactly the texts and addresses of the format.
//! The law `notes_are_counted` says that a note which is put at the end of a bounce file adds its own address to those that
//! the file names, and no other: what a report says can't look like a note.
//!
//! `NoteWriter` puts a note at the end of a bounce file, and `BounceSender` has a bounce injected and its file removed. What each
//! needs next, and what it becomes by what came of that, is its table: `specs/Writing.antt` and `specs/Returning.antt`. The law
//! `written_notes_are_whole` says that a note which counts as written is at the end of the file, and on the disk; the law
//! `bounces_are_queued_first` that the bounce file goes only after what it held was injected.
//!
//! # What is claimed
//!
//! - The note of an address and a report, exact; the addresses that a bounce file names, one for each paragraph
//!   whose first line is `<`, an address and `>:`: `note`, `notes_of`; the law `notes_are_exact`, by `IsSoftened`
//!   and `heading`.
//! - A note at the end of any bounce file, after two newlines if the file isn't empty and doesn't end with two,
//!   adds its own address to those that the file names, and no other, whatever its report says. A file names an
//!   address as often as it has paragraphs of it, and still does when more is put after its last newline: the law
//!   `notes_are_counted`.
//! - Whole lines with which every version of a bounce file begins stay so, through what is put at its end, also in
//!   part, through a sync, and through a machine stop. After a sync all of the file is on the disk. A file that
//!   begins with whole lines names no address less often than they do, and one to whose end a note was put ends
//!   with a newline: the law `notes_rest_on_whole_lines` (by `BeginsWith`, `IsWhole`).
//! - The message that returns a bounce file: its sender, recipient and text, to the sender or as a double bounce;
//!   none exactly if the sender is `#@[]`: `bounce_message`: `bounce` (by `bounce_of`), `dropped`.
//! - The writing of a note, each step exact: the bounce file is opened to append, or created if it is missing. Of
//!   one that was there the length is asked, and its last two bytes, or the one that it has, are read. Two newlines
//!   go before the note if the file isn't empty and doesn't end with two; the note goes out in pieces of 8192
//!   bytes, is synced, and the file is closed; after a failure what is open is closed. The recipient is named
//!   without the prefix of its virtual domain. Only `begin` takes memory, and after out of memory nothing changed:
//!   `NoteWriter::{idle, begin, number, row, need, done}`, each an equation with a definition of
//!   `specs/Writing.antt`.
//! - If the calls of its writing alone were made on the disk, a note that counts as written is at the end of the
//!   bounce file, after what that held before and what parts it from that. The whole file is then on the disk. The
//!   law: `written_notes_are_whole`, by `NotesAreWritten` (`specs/Runs.antt`).
//! - The return of a message, each step exact: the bounce file and then the message file are read whole and closed.
//!   For the sender `#@[]` the bounce file is unlinked. Else the injector of the bounce is started with the room
//!   that its message and envelope take, and is given both as netstrings in one give. The bounce file is unlinked
//!   only after it ended with 0. After a failure what is open is closed, and nothing more is done. Only a read, and
//!   the close of the message file, take memory, and after out of memory nothing changed: `BounceSender::{idle,
//!   begin, number, row, need, done}`, each an equation with a definition of `specs/Returning.antt`.
//! - If the calls of a return alone were made on the disk, it unlinks the bounce file only if nothing comes of it,
//!   or directly after an injector ended with 0. That injector was given the bounce of all that the bounce file and
//!   the message file held. The law: `bounces_are_queued_first`, by `UnlinksWhatIsReturned` (`specs/Runs.antt`).
//! - The lines of the log on bounces: `bounce msg` when the injector ended with 0, `triple bounce` when the bounce
//!   file of a double bounce that came back was unlinked: `add_returned`, by `return_lines` (`specs/Lines.antt`).
//! - Each call of both uses only a descriptor that was opened or created for it and is still open: the law
//!   `calls_use_what_is_held`.
#![tactic(auto)]

mod bounce_sender;
mod bounces;
mod input;
mod laws;
mod lines;
mod names;
mod note_row;
mod note_writer;
mod notes;
mod return_row;

pub use bounce_sender::BounceSender;
pub use bounces::{Bounce, bounce_message};
pub use laws::{
    bounces_are_queued_first, calls_use_what_is_held, notes_are_counted, notes_are_exact,
    notes_rest_on_whole_lines, written_notes_are_whole,
};
pub use lines::add_returned;
pub use note_row::NoteRow;
pub use note_writer::NoteWriter;
pub use notes::{late_report, note, note_name, notes_of};
pub use return_row::ReturnRow;
