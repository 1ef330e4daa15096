// The steps of the proof of what `settle` leads to: contracts of functions that do nothing, for no other crate.
ghost use Rattle.settle_law.specs.inside.Alone.{PassesBeginAlone};
ghost use Rattle.settle_law.specs.inside.Begins.{SearchesBegin};
ghost use Rattle.settle_law.specs.inside.Births.{KnownAreBorn};
ghost use Rattle.settle_law.specs.inside.Cleaned.{CleanersAnswerWell, TodoAnswersAreWell};
ghost use Rattle.settle_law.specs.inside.Dues.{KnownAreDue, RestsAreDue};
ghost use Rattle.settle_law.specs.inside.Steps.{SettleStops, IdleRoundsRest, RestsSuffice};
ghost use Rattle.settle_law.specs.inside.Finishes.{BouncesAreTaken, InjectorsEnd, KnownFinishAtOnce};
ghost use Rattle.settle_law.specs.inside.Free.{OthersEnd, OthersRunNone, RestsFree};
ghost use Rattle.settle_law.specs.inside.Gone.{KnownAreGone};
ghost use Rattle.settle_law.specs.inside.HalfWay.{HalfWaysAreMinded, NoneIsHalfWay};
ghost use Rattle.settle_law.specs.inside.InHand.{FlightsAreInHand};
ghost use Rattle.settle_law.specs.inside.Lefts.{LeftsKeep, RowsHoldTried};
ghost use Rattle.settle_law.specs.inside.Living.{ServantsLive};
ghost use Rattle.settle_law.specs.inside.Met.{PreprocessedAreKnown, StaysMet};
ghost use Rattle.settle_law.specs.inside.Moments.{PastsTellMoments};
ghost use Rattle.settle_law.specs.inside.Numbers.{NumbersAreSmall};
ghost use Rattle.settle_law.specs.inside.Passed.{PassesGoOn};
ghost use Rattle.settle_law.specs.inside.Queued.{NoneIsQueued, RestsUnqueued};
ghost use Rattle.settle_law.specs.inside.Rests.{FreeChannelsRest, IdleTurnsRest, RestsStay};
ghost use Rattle.settle_law.specs.inside.Served.{PastsAreServed};
ghost use Rattle.settle_law.specs.inside.Slots.{RestsHaveSlots, SlotsAreAllowed};
ghost use Rattle.settle_law.specs.inside.Strays.{RestsBegin, TodoHasNumbers};
ghost use Rattle.settle_law.specs.inside.Succeeded.{ReportsSucceed, TriedAreAtWork};
ghost use Rattle.settle_law.specs.inside.TriedStay.{TriedStay};
ghost use Rattle.settle_law.specs.inside.Undone.{KnownAreUndone};
ghost use Rattle.settle_law.specs.inside.Texts.{TodoTextsAreRead};
ghost use Rattle.settle_law.specs.inside.Waiting.{SpawnersWait};

/// Before the first search of a whole idle turn of the sender nothing was to be done.
pub(crate) fn idle_turns_rest()
    ensures { IdleTurnsRest }
{}

/// At rest no pass is open on a channel that has a slot and has nothing in flight, and all that is due there is due later.
pub(crate) fn free_channels_rest()
    ensures { FreeChannelsRest }
{}

/// A spawner that waits is between two steps, with no request that it would take, and was told of no program of its own that has ended.
pub(crate) fn spawners_wait()
    ensures { SpawnersWait }
{}

/// If a search of `todo` from the start gives no name, no message waits to be preprocessed.
pub(crate) fn none_is_queued()
    ensures { NoneIsQueued }
{}

/// A state of which these facts hold, with what the sender keeps, is settled.
pub(crate) fn rests_suffice()
    ensures { RestsSuffice }
{}

/// `settle` prints why it stopped, or nothing; then its last round was idle and ended an idle turn of each actor that searches.
pub(crate) fn settle_stops()
    ensures { SettleStops }
{}

/// After an idle round of `settle` nobody has anything to do but who searches: each other living actor waits, and each remote program has its report.
pub(crate) fn idle_rounds_rest()
    ensures { IdleRoundsRest }
{}

/// When a sender begins a turn a channel has just as many slots as its spawner and its control file allow.
pub(crate) fn slots_are_allowed()
    ensures { SlotsAreAllowed }
{}

/// After the turn nothing is to be done either, by what the sender keeps then.
pub(crate) fn rests_stay()
    ensures { RestsStay }
{}

/// Where nothing fails each message has a number that a program can name.
pub(crate) fn numbers_are_small()
    ensures { NumbersAreSmall }
{}

/// At a rest no message waits to be preprocessed.
pub(crate) fn rests_unqueued()
    ensures { RestsUnqueued }
{}

/// Where nothing fails a sender that begins a turn has a slot on each channel.
pub(crate) fn rests_have_slots()
    ensures { RestsHaveSlots }
{}

/// Where nothing fails each attempt in flight has just one request or report in hand, and a free slot none.
pub(crate) fn flights_are_in_hand()
    ensures { FlightsAreInHand }
{}

/// Where nothing fails each name that comes into `todo` is the number of a message.
pub(crate) fn todo_has_numbers()
    ensures { TodoHasNumbers }
{}

/// So a search that ended an idle turn was the whole turn.
pub(crate) fn rests_begin()
    ensures { RestsBegin }
{}

/// Where nothing fails the cleaner and the spawners of a living sender live.
pub(crate) fn servants_live()
    ensures { ServantsLive }
{}

/// Where nothing fails a cleaner answers `+`, or `x` to what is no command.
pub(crate) fn cleaners_answer_well()
    ensures { CleanersAnswerWell }
{}

/// Where nothing fails nothing but `+` lies in a sender's pipe from its cleaner while it waits for the answer to `todo/N`.
pub(crate) fn todo_answers_are_well()
    ensures { TodoAnswersAreWell }
{}

/// Where nothing fails what stands in `todo` reads as a todo text.
pub(crate) fn todo_texts_are_read()
    ensures { TodoTextsAreRead }
{}

/// Where nothing fails no todo pass is left.
pub(crate) fn passes_go_on()
    ensures { PassesGoOn }
{}

/// If nobody has anything to do but who searches no program of a living spawner runs.
pub(crate) fn others_run_none()
    ensures { OthersRunNone }
{}

/// Then no injector of a mail lives either, nor who runs in a slot of a living spawner or delivery.
pub(crate) fn others_end()
    ensures { OthersEnd }
{}

/// At a rest the sender has nothing in flight.
pub(crate) fn rests_free()
    ensures { RestsFree }
{}

/// Before the search that ends an idle turn the sender stands where a turn begins, or its first search goes on: from the start, since a number was
/// left, or after a name that is no number.
pub(crate) fn searches_begin()
    ensures { SearchesBegin }
{}

/// After a whole idle turn, with a slot on each channel and nothing in flight, a known message is due at the next retry after its last pass, or at
/// once if it had none.
pub(crate) fn rests_are_due()
    ensures { RestsAreDue }
{}

/// Where nothing fails the channel files of a sender serve it, so that nothing failed for any message by its past.
pub(crate) fn pasts_are_served()
    ensures { PastsAreServed }
{}

/// When a channel file was read for a pass none is open on that channel, and no attempt at its message is in flight there, whatever failed before.
pub(crate) fn passes_begin_alone()
    ensures { PassesBeginAlone }
{}

/// The birth of a known message is the moment at which its info file was last written, when a turn begins, whatever failed before.
pub(crate) fn known_are_born()
    ensures { KnownAreBorn }
{}

/// A known message that doesn't have its file of a channel has none there, when a turn begins, whatever failed before.
pub(crate) fn known_are_gone()
    ensures { KnownAreGone }
{}

/// Where nothing fails an injector that has ended ended with 0, or with the status of the first fault of its input.
pub(crate) fn injectors_end()
    ensures { InjectorsEnd }
{}

/// Where nothing fails each injector of a bounce whose status was taken had ended with 0.
pub(crate) fn bounces_end()
    ensures { BouncesAreTaken }
{}

/// Where nothing fails each known message may be finished at once.
pub(crate) fn known_finish_at_once()
    ensures { KnownFinishAtOnce }
{}

/// A sender is told only moments that a clock may tell, also of the info files that it looks at, and none that lies before an earlier one.
pub(crate) fn pasts_tell_moments()
    ensures { PastsTellMoments }
{}

/// So each known message is due where nothing fails.
pub(crate) fn known_are_due()
    ensures { KnownAreDue }
{}

/// A message that a sender has met it has met still after its next event, by its past, if that event shows so of it and leaves no todo pass.
pub(crate) fn stays_met()
    ensures { StaysMet }
{}

/// So each preprocessed message is known where nothing fails, when a turn begins.
pub(crate) fn preprocessed_are_known()
    ensures { PreprocessedAreKnown }
{}

/// Where nothing fails each number that has its message file, but neither todo nor info, has somebody who minds it: its injector, or the sender
/// that finishes it.
pub(crate) fn half_ways_are_minded()
    ensures { HalfWaysAreMinded }
{}

/// At a rest no number is in S2 or S3.
pub(crate) fn none_is_half_way()
    ensures { NoneIsHalfWay }
{}

/// A message that was tried on a channel, has its file and has no job was so before an event too.
pub(crate) fn tried_stay()
    ensures { TriedStay }
{}

/// Where nothing fails and each report that a spawner gave was of a success, so was each that the sender took.
pub(crate) fn reports_succeed()
    ensures { ReportsSucceed }
{}

/// Then a message that was tried on a channel and has a file there is at work there.
pub(crate) fn tried_are_at_work()
    ensures { TriedAreAtWork }
{}

/// Each event of a channel keeps a record that reads `T`, without an attempt at it in hand, for each job that left one.
pub(crate) fn lefts_keep()
    ensures { LeftsKeep }
{}

/// So do the rows of the sender, and of a message that was tried and has no job a record reads `T` still.
pub(crate) fn rows_hold_tried()
    ensures { RowsHoldTried }
{}

/// Where nothing fails, at the end of an idle turn with nothing in flight, a known message that was tried, and has its channel file, has
/// a record that reads `T`.
pub(crate) fn known_are_undone()
    ensures { KnownAreUndone }
{}
