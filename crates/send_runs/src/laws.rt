// Worked runs, as laws: contracts of functions that do nothing.
ghost use Rattle.std.specs.Prelude.{◌≡◌, ◌∷◌, ◌++◌, [], None, Some, codes, take, true, false};
ghost use Rattle.call_fs.specs.declared.calls.CallData.TheVariants as call;
ghost use Rattle.call_fs.specs.declared.past.NeedData.TheVariants as needs;
ghost use Rattle.send_core.specs.Desk.{never};
ghost use Rattle.send_core.specs.Table.{begun};
ghost use Rattle.send_jobs.specs.Bookings.Booking.{Reported};
ghost use Rattle.send_known.specs.declared.channel.Channel.TheVariants.{Local, Remote};
ghost use Rattle.send_runs.specs.Deliveries.{DeliveriesAreNumbered, number_in, requests_given};
ghost use Rattle.send_runs.specs.DueMoments.{DuesAreOfPast, begun_in, shift};
ghost use Rattle.send_runs.specs.DueMoments.Shift.{Fails, Learns, Same};
ghost use Rattle.send_runs.specs.Dues.{DueExactly, due_in};
ghost use Rattle.send_runs.specs.Files.{FilesAreOfPast, has_in, there_in};
ghost use Rattle.send_runs.specs.FinishMoments.{FinishesAreOfPast, finish_in};
ghost use Rattle.send_runs.specs.Knowing.{KnownExactly, known_in};
ghost use Rattle.send_runs.specs.Known.{KnownAreOfPast};
ghost use Rattle.send_runs.specs.Reports.{EntriesAreReports, EntriesWereReported, FlightsWereGiven, said_at};
ghost use Rattle.send_runs.specs.ReportLines.{ReportsAreLogged, report_lines};
ghost use Rattle.send_runs.specs.Rising.{KnownNumbersRise};
ghost use Rattle.send_runs.specs.WorkedPasts.{again_7, answers, cleared_7, deferred_0, deferred_for, delivered_0, dropped_7, failed_1, found_7, given_8, left_7, looked_7, past_of, removed_7, stray_2, stray_line, success_line, takes, two_given, uncleared_7, unfinished_7, unopened_7, unreturned_7};
ghost use Rattle.send_runs.specs.Worked.{asks, logs, remote_log, deferred_log, remote_run, remote_dues, deferred_run, deferred_dues, restarted_run, restarted_dues, swept_run, swept_dues, faulted_run, faulted_dues};

/// One message to a remote recipient, from the start until its number is free.
pub fn a_remote_message()
    ensures { asks (begun None) remote_run ≡ remote_dues }
{}

/// One of two recipients is deferred, and tried again 400 seconds later.
pub fn a_deferred_message()
    ensures { asks (begun None) deferred_run ≡ deferred_dues }
{}

/// A sender that is stopped, and another one that finds the message by its start scan: its events alone.
pub fn a_restarted_sender()
    ensures { asks (begun None) restarted_run ≡ restarted_dues }
{}

/// A message file without an envelope, over 36 hours old.
pub fn a_swept_message()
    ensures { asks (begun None) swept_run ≡ swept_dues }
{}

/// Calls that fail in passes and marks.
pub fn a_faulted_message()
    ensures { asks (begun None) faulted_run ≡ faulted_dues }
{}

/// What the sender logs of one message to a remote recipient, and of one with a recipient that is deferred.
pub fn logs_of_worked_runs()
    ensures remote { logs (begun None) remote_run ≡ remote_log }
    ensures deferred { logs (begun None) deferred_run ≡ deferred_log }
{}

/// The numbers that a sender knows rise, in whatever order it learnt of them, and what is due on a channel is in order. So what the
/// finish of a message takes up is the least number that may be finished, and a pass begins with what is due first, and of equals with
/// the least number.
pub fn known_numbers_rise()
    ensures { KnownNumbersRise }
{}

/// Each message that a sender knows was met in its past, and its sender and its birth are those that its files told then; and what is due
/// on a channel is known.
pub fn known_are_of_past()
    ensures { KnownAreOfPast }
{}

/// A sender knows exactly the messages that it met, in the scan of the start or in a todo pass, and whose finish hasn't ended since.
pub fn known_exactly()
    ensures { KnownExactly }
{}

/// Which channel files a known message has is told by the past: those that were there when it became known, as they were looked for or
/// made, and weren't unlinked since when nothing of them was left to do. It is due on just the channels of these.
pub fn files_are_of_past()
    ensures { FilesAreOfPast }
{}

/// When a message is due on a channel is told by the past: found by the scan of the start at 0; at the moment of the `+` that ended its
/// todo pass; 123 seconds after its channel file couldn't be opened, read or unlinked, or was read while an attempt at it was in flight;
/// and once a pass of it began, never while that goes on, and when nothing of it is in flight or to be marked any more at the next
/// retry, reckoned from its birth and from the moment at which that file was opened for the pass.
pub fn dues_are_of_past()
    ensures { DuesAreOfPast }
{}

/// Exactly when, at each event of a run: as said above, and nothing else changes it. A message of which a pass goes on is due never; the event
/// after which nothing of that is to be given, in flight or to be marked any more makes it due at the next retry, unless the sender unlinks
/// the channel file next: then that is gone, or the unlink fails and it is due 123 seconds later. So none stays at never once its pass is over.
pub fn due_exactly()
    ensures { DueExactly }
{}

/// From when a known message may be finished is told by the past: at once when it becomes known, and 123 seconds after each event by which a
/// finish of it fails. So each failure puts it off, and nothing else does: neither a todo pass that fails to unlink its info file nor another
/// message's finish.
pub fn finishes_are_of_past()
    ensures { FinishesAreOfPast }
{}

/// What a sender enters in its books of recipients that were delivered to or failed for good is just what the reports say that it takes: a
/// final report of a slot says it of the record in flight there, by the past alone.
pub fn entries_are_reports()
    ensures { EntriesAreReports }
{}

/// Each such entry is of one report that the event takes, of the record that was in flight in its slot when the reports before it had
/// been taken; and each final report of a record in flight is entered. A recipient is entered as delivered just by K.
pub fn entries_were_reported()
    ensures { EntriesWereReported }
{}

/// What is in flight in a slot is the record of which a request was given for that slot, with no report of that slot taken since and no
/// other request given for it.
pub fn flights_were_given()
    ensures { FlightsWereGiven }
{}

/// The requests that were given are numbered from 1, those of both channels together; an attempt in flight has the number of the request
/// that was given last for its slot; and the log's line of a request tells its number, its message, channel and recipient, and the
/// status line follows it, with how many deliveries are in flight then and how many may be.
pub fn deliveries_are_numbered()
    ensures { DeliveriesAreNumbered }
{}

/// What the log says of reports that are taken: of each one line, in their order, with the number that the request for its slot had, and how
/// many deliveries are in flight then and how many may be, by the past alone.
pub fn reports_are_logged()
    ensures { ReportsAreLogged }
{}

/// What the reports say after two requests were given: in one taking, one after the other, and after a report of the same slot; and the
/// lines of the first one and of one of a slot in which nothing is in flight.
pub fn worked_reports()
    ensures delivered { said_at Remote two_given (takes delivered_0) ≡ Reported true Remote 7 0 ∷ [] }
    ensures deferred { said_at Remote two_given (takes deferred_0) ≡ [] }
    ensures both { said_at Remote two_given (takes (delivered_0 ++ failed_1)) ≡ Reported true Remote 7 0 ∷ (Reported false Remote 7 5 ∷ []) }
    ensures again { said_at Remote two_given (takes (deferred_0 ++ delivered_0)) ≡ [] }
    ensures later { said_at Remote (takes deferred_0 ∷ two_given) (takes delivered_0) ≡ [] }
    ensures logged { report_lines Remote two_given (takes (delivered_0 ++ stray_2)) ≡ success_line ++ stray_line }
{}

/// The numbers of these deliveries.
pub fn worked_deliveries()
    ensures count { requests_given two_given ≡ 2 }
    ensures first { number_in Remote two_given 0 ≡ 1 }
    ensures second { number_in Remote two_given 1 ≡ 2 }
{}

/// What is known after a look of the scan, after a todo pass that was done or was left, and after a message was removed.
pub fn worked_knowledge()
    ensures found { known_in found_7 7 ≡ true }
    ensures other { known_in found_7 8 ≡ false }
    ensures passed { known_in (answers (codes "+") ∷ given_8) 8 ≡ true }
    ensures unclean { known_in (answers (codes "!") ∷ given_8) 8 ≡ false }
    ensures removed { known_in removed_7 7 ≡ false }
    ensures stays { known_in removed_7 8 ≡ true }
{}

/// Which files are there and which a message has: after the looks of the scan, after a todo pass unlinked one, and after the sender did.
pub fn worked_files()
    ensures local { has_in Local 7 looked_7 ≡ true }
    ensures remote { has_in Remote 7 looked_7 ≡ false }
    ensures cleared { has_in Local 7 cleared_7 ≡ true }
    ensures missing { there_in Local 7 cleared_7 ≡ false }
    ensures unlinked { has_in Local 7 dropped_7 ≡ false }
{}

/// What the pasts of worked runs tell: a message that was tried twice, one that was found by the scan, and two of which calls failed.
pub fn worked_pasts()
    ensures tried { begun_in Remote 1 (past_of deferred_run deferred_dues []) ≡ Some 400 }
    ensures removed { known_in (past_of deferred_run deferred_dues []) 1 ≡ false }
    ensures given { requests_given (past_of deferred_run deferred_dues []) ≡ 3 }
    ensures found { has_in Remote 1 (past_of (take 60 restarted_run) restarted_dues []) ≡ true }
    ensures local { has_in Local 1 (past_of (take 60 restarted_run) restarted_dues []) ≡ false }
    ensures unlinked { has_in Remote 1 (past_of restarted_run restarted_dues []) ≡ false }
    ensures faulted { begun_in Remote 1 (past_of faulted_run faulted_dues []) ≡ Some 600 }
    ensures other { begun_in Remote 3 (past_of faulted_run faulted_dues []) ≡ Some 0 }
{}

/// When passes began, and what single events are for a message: it is learnt and due, its channel file couldn't be opened, or couldn't be
/// unlinked, by the sender or by a todo pass.
pub fn worked_dues()
    ensures began { begun_in Remote 7 two_given ≡ Some 0 }
    ensures local { begun_in Local 7 two_given ≡ None }
    ensures learnt { shift Local 8 given_8 (answers (codes "+")) ≡ Learns 0 }
    ensures other { shift Local 7 given_8 (answers (codes "+")) ≡ Same }
    ensures unopened { shift Remote 7 two_given unopened_7 ≡ Fails }
    ensures left { shift Remote 7 two_given left_7 ≡ Fails }
    ensures cleared { shift Remote 7 (left_7 ∷ two_given) left_7 ≡ Same }
{}

/// From when a message may be finished: when its bounce file couldn't be opened, or its info file couldn't be unlinked, but for a todo pass; of
/// another message; and when it is known again.
pub fn worked_finishes()
    ensures unreturned { finish_in 7 unreturned_7 ≡ 623 }
    ensures unfinished { finish_in 7 unfinished_7 ≡ 623 }
    ensures cleared { finish_in 7 uncleared_7 ≡ 0 }
    ensures other { finish_in 8 unreturned_7 ≡ 0 }
    ensures again { finish_in 7 again_7 ≡ 0 }
{}

/// When a message is due of which one of two recipients is deferred: at once when its todo pass is done; never from when its pass begins, also
/// while its file is open for the mark of the other one; at the next retry when that is closed; and never again from when the second pass
/// begins, also when that is over and the file is unlinked next. And one of which the unlink failed.
pub fn worked_moments()
    ensures learnt { due_in Remote 1 needs.Wait (deferred_for 55) ≡ 0 }
    ensures started { due_in Remote 1 needs.Wait (deferred_for 82) ≡ never }
    ensures reported { due_in Remote 1 needs.Wait (deferred_for 87) ≡ never }
    ensures marked { due_in Remote 1 needs.Wait (deferred_for 89) ≡ never }
    ensures over { due_in Remote 1 needs.Wait (deferred_for 90) ≡ 400 }
    ensures second { due_in Remote 1 needs.Wait (deferred_for 96) ≡ never }
    ensures unlinked { due_in Remote 1 (needs.File (call.Unlink (codes "remote/1/1"))) (deferred_for 103) ≡ never }
    ensures failed { due_in Remote 7 needs.Wait (left_7 ∷ two_given) ≡ 132 }
{}
