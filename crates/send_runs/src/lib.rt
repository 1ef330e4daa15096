//! Worked runs of the sender, qmail-send(8): what its table (send_core `specs/Table.antt`) asks for at each event of a run that was
//! worked out by hand, and which lines it logs. And laws of its runs, by its past alone, each with a file of `specs/`. All are the
//! contracts of functions that do nothing.
//!
//! It is a crate of its own, and no part of send_core, for the checker alone: so a check of either stays short.
//!
//! # What is claimed
//!
//! - Five worked runs of 68 to 143 events: the table asks for just the calls, takings and givings that were worked
//!   out by hand. Of two of them, just the lines of the log: the laws `a_remote_message`, `a_deferred_message`,
//!   `a_restarted_sender`, `a_swept_message`, `a_faulted_message`, `logs_of_worked_runs`. What the pasts of such runs
//!   tell by the definitions below: `worked_pasts`.
//! - A message is known exactly if it was met and not forgotten since. It is met when the scan of the start looked
//!   for its remote channel file last, and that was there or missing, or when `+` answers its todo pass. It is
//!   forgotten at whatever answer comes to `foop/N`: `known_exactly` (`specs/Knowing.antt`), with the rows
//!   `worked_knowledge`.
//! - Known numbers are in ascending order, and what is due on a channel is in the order in which passes take it up:
//!   `known_numbers_rise` (`specs/Rising.antt`).
//! - Until the sender has ended, the sender of a known message is the one that its info file or its todo file said,
//!   and its birth is that of the past. What is due on a channel is known: `known_are_of_past`
//!   (`specs/Known.antt`). If more than one sender was read of a message, it isn't claimed which one.
//! - A known message has the channel files that were there when it became known, as they were looked for or made,
//!   and that weren't unlinked since, when nothing of them was left to do. It is due on just the channels of these:
//!   `files_are_of_past` (`specs/Files.antt`), with the rows `worked_files`.
//! - At which moment a message that is due on a channel is due, at each event of a run. Found by the scan: 0. After its
//!   todo pass: the moment of the `+`. After its channel file couldn't be opened, read or unlinked, wasn't records
//!   alone, or was read while an attempt at it was in flight: 123 seconds later. From when a pass of it begins: never.
//!   Once each record of that was given and reported, and each mark of it was made or given up: the next retry, from
//!   its birth and the moment of that pass's open, unless its file is unlinked next. Nothing else changes it:
//!   `due_exactly` (`specs/Dues.antt`), with the rows `worked_moments` and `worked_dues`. Which of these moments it
//!   may be is said of a sender that has ended too: `dues_are_of_past` (`specs/DueMoments.antt`). It isn't claimed
//!   that the file is unlinked next just if each of its records reads `D`.
//! - From when a known message may be finished: 0 once it becomes known, and 123 seconds after each event by which a
//!   finish of it fails. What a todo pass unlinks puts nothing off, nor does the finish of another message:
//!   `finishes_are_of_past` (`specs/FinishMoments.antt`), with the rows `worked_finishes`.
//! - What is entered as delivered or failed is just what the final reports say of the records in flight in their
//!   slots, as delivered just by `K`: `entries_are_reports`, `entries_were_reported`. What is in flight in a slot is
//!   the record of the last request that was given for it, if no report of that slot was taken since:
//!   `flights_were_given` (all in `specs/Reports.antt`), with the rows `worked_reports`.
//! - Requests are numbered from 1 over both channels, and an attempt in flight has the number of the last request
//!   for its slot. The line of a request tells its number, message, channel and recipient, and the status line
//!   follows it: `deliveries_are_numbered` (`specs/Deliveries.antt`), with the rows `worked_deliveries`.
//! - Of what is taken of a spawner the log has a line for each report, in their order: the delivery's number with
//!   what came of it, and then the status line. If nothing was in flight in that slot, it tells the slot alone. No
//!   other line comes then: `reports_are_logged` (`specs/ReportLines.antt`). The status line tells how many
//!   deliveries of each channel are in flight, and how many may be: as many as the spawner and the control file
//!   allow, and 120 at most (`specs/Status.antt`).
#![tactic(auto)]

mod laws;

pub use laws::{
    a_deferred_message, a_faulted_message, a_remote_message, a_restarted_sender, a_swept_message,
    deliveries_are_numbered, due_exactly, dues_are_of_past, entries_are_reports,
    entries_were_reported, files_are_of_past, finishes_are_of_past, flights_were_given,
    known_are_of_past, known_exactly, known_numbers_rise, logs_of_worked_runs, reports_are_logged,
    worked_deliveries, worked_dues, worked_files, worked_finishes, worked_knowledge,
    worked_moments, worked_pasts, worked_reports,
};
