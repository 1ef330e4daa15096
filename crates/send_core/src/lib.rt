//! The sender (qmail-send(8); INTERNALS, sections 4 to 6): the program that preprocesses what is queued, has each recipient
//! delivered to, marks who is done, tries again by the schedule, and has the cleaner remove what is finished.
//!
//! It is a machine: `look` tells it the moment and what is ready, `need` says what it does next, and `done` hands in what
//! came of that. Its contract: what it needs is what its table says of its own past, which it doesn't store, and its log is
//! what the table says of the events since it was cleared. The table is in `specs/Table.antt`, over `specs/Start.antt` (the
//! start), `specs/Turn.antt` (takings, reports, passes and preprocessing) and `specs/Finish.antt` (finish and sweep); the
//! rows, and what is done at each, stand in send_parts. The log is in `specs/Log.antt`. What follows for a whole run, from its
//! past alone, is in `specs/Laws.antt`: which attempts are in flight, of which record each request is, and for which report each
//! note is written and each mark is made.
//!
//! # What is claimed
//!
//! - The sender does what its table says after each past that it stands for: its start, each point of a turn, its
//!   end. At no search, mark or sweep does it take memory, and after `Memory` it is unchanged. It uses only
//!   descriptors that it holds open, the todo pass's included: `Sender::{new, look, need, done}`: clauses `stands`
//!   (by `Stands` and `Next`), `next`, `due`, `goes`, `memory`, `err`; `impl Machine for Sender`.
//! - Its log is the lines of the events since it was cleared last, as a function of its past: `Sender::{new, look,
//!   done, log, clear_log}`: clauses `logs` (by `Logs`), `log`, `since`; `lines_at`, `log_since` in
//!   `specs/Log.antt`.
//! - What a sender gives and writes after each run, by its past alone. Each request is of the first record of its
//!   channel that reads `T` in the file read whole last and of which no request was given since. It is for the
//!   lowest slot in which nothing is in flight, and that slot is below the number that the spawner's first byte
//!   says. Its sender is one that the message's info file or todo file said when it was read whole, with the
//!   recipient in it. No attempt at that record is in flight then, and no record of the channel waits for its mark.
//!   A file is read whole by one descriptor, each read from the end of the one before, up to one that brought fewer
//!   bytes than were asked for, and its close. In flight in a slot is the record of the request given last for it,
//!   until a report of that slot is taken. A channel file is opened for writing only for the record that comes next
//!   of those of which a final report was taken and whose file wasn't opened since. It is one of the local channel,
//!   or if that has none, of the remote one. A report is final if it is K or D, or in a dying pass any other. So
//!   each mark belongs to one report and one attempt, however many wait; the only write is that of `D`, at that
//!   record's place, directly after the open, and after each open for writing that is done next. A pass is a dying
//!   one if the moment of its open is later than `queuelifetime` after the message's birth. That is told by the
//!   past alone: by what `queuelifetime` said when it was read, and what the stat of info said when the message was
//!   found, or the moments of its todo pass. After any report but K the note of the record was written and synced
//!   directly before that open. A bounce file is opened to append only for such a note, and while it is written
//!   nothing else is done. A note that couldn't be written drops its mark: the laws `requests_are_of_records`,
//!   `marks_are_of_reports` and `notes_are_of_reports`, by `GivesRequests`, `MarksReports` and `NotesReports` over
//!   `account` (`specs/Past.antt`), `is_late` (`specs/Births.antt`) and `IsSaid` (`specs/Senders.antt`).
//! - What a sender keeps of a channel is what its past says of that, until it has ended. That is which attempts are
//!   in flight in which slots, which records are still to be given, and which are to be marked, after which notes.
//!   The law: `lanes_are_accounts`, by `Agrees` (`specs/Agrees.antt`).
//! - What a world asks a sender beside its need: whether its next step is the search of `todo` in a turn in which
//!   it has done nothing else; and whether it stands between two turns or has ended. Also which marks are to be
//!   made, what it has read of the control files, and whose todo command it gives next. Contracts: `Sender::{is_searching,
//!   is_between, marks, controls, routing}`.
#![tactic(auto)]

mod act;
mod arrive;
mod desk;
mod finish;
mod laws;
mod machine;
mod marks;
mod passes;
mod reports;
mod sender;
mod start;
mod steps;
mod todo;

pub use desk::Desk;
pub use laws::{
    lanes_are_accounts, marks_are_of_reports, notes_are_of_reports, requests_are_of_records,
};
pub use send_parts::{MarkRow, Marked, Point, Row};
pub use sender::Sender;
