// When the sender tries a message again, as laws: contracts of functions that do nothing.
ghost use Rattle.std.specs.Prelude.{◌≡◌, None, Some, codes, true, false};
ghost use Rattle.call_fs.specs.declared.calls.CallData.TheVariants as call;
ghost use Rattle.call_fs.specs.declared.past.NeedData.TheVariants as needs;
ghost use Rattle.send_known.specs.declared.channel.Channel.TheVariants.{Local, Remote};
ghost use Rattle.send_runs.specs.Worked.{absent, stated};
ghost use Rattle.send_runs.specs.WorkedPasts.{deferred_for};
ghost use Rattle.retry_law.specs.Finishes.{FinishesAtOnce, NoneIsPutOff};
ghost use Rattle.retry_law.specs.Gone.{KnownAreGone, MetAreShownFirst, MissingAreGone, shows};
ghost use Rattle.retry_law.specs.Infos.{BirthsAreInfos};
ghost use Rattle.retry_law.specs.Left.{NoNumberLeft, StraysWereGiven};
ghost use Rattle.retry_law.specs.Moments.{MomentsAreTold};
ghost use Rattle.retry_law.specs.Passes.{ClearChannelsRest, EmptyPassesUnlink, PassesAreJobs};
ghost use Rattle.retry_law.specs.Retries.{KnownAreDueAgain, TriedAreRetried};
ghost use Rattle.retry_law.specs.Served.{ServedArePlain};
ghost use Rattle.retry_law.specs.Tried.{SearchesKeepTries, tried_in};

/// Births, and the moments at which passes began, are moments that a clock may tell.
pub fn moments_are_told()
    ensures { MomentsAreTold }
{}

/// A pass goes on just if the sender has a job on it, and none does on a channel where it has nothing.
pub fn passes_are_jobs()
    ensures jobs { PassesAreJobs }
    ensures clear { ClearChannelsRest }
    ensures empty { EmptyPassesUnlink }
{}

/// When a message is due that was tried, and when one is that wasn't, by the past alone.
pub fn tried_are_retried()
    ensures { TriedAreRetried }
{}

/// So it is of each known message, by what the sender keeps.
pub fn known_are_due_again()
    ensures { KnownAreDueAgain }
{}

/// Nothing fails for any message, and no pass begins while an attempt at its message is in flight, if at each event the channel file is there that is
/// opened, read or unlinked, and so on, by the row of that event.
pub fn served_are_plain()
    ensures { ServedArePlain }
{}

/// A known message that doesn't have its channel file has none, if no event found or made that while the message was known; by the past alone,
/// and by what the sender keeps.
pub fn missing_are_gone()
    ensures past { MissingAreGone }
    ensures known { KnownAreGone }
{}

/// Each event that finds or makes a channel file of a message comes before the message is known, if it isn't known at the rows at which that is done.
pub fn met_are_shown_first()
    ensures { MetAreShownFirst }
{}

/// A known message may be finished at once, if no finish of it failed while it was known.
pub fn finishes_at_once()
    ensures { FinishesAtOnce }
{}

/// So may each, if no finish was put off, by the rows of the finishes.
pub fn none_is_put_off()
    ensures { NoneIsPutOff }
{}

/// The birth of a known message is the moment at which its info file was last written, if no event wrote it but one that told so.
pub fn births_are_infos()
    ensures { BirthsAreInfos }
{}

/// No number of `todo` was left last, if no todo pass was left.
pub fn no_number_left()
    ensures { NoNumberLeft }
{}

/// A search of `todo` goes on after a name only directly after a search that gave one which is no number.
pub fn strays_were_given()
    ensures { StraysWereGiven }
{}

/// A search ends no pass, and tells of none.
pub fn searches_keep_tries()
    ensures { SearchesKeepTries }
{}

/// When a message was tried of which one of two recipients is deferred: not yet while its first pass goes on; then at 0, when that began,
/// also while the second one goes on. And which files are shown by looks.
pub fn worked_tries()
    ensures started { tried_in Remote 1 (deferred_for 82) ≡ None }
    ensures over { tried_in Remote 1 (deferred_for 90) ≡ Some 0 }
    ensures second { tried_in Remote 1 (deferred_for 96) ≡ Some 0 }
    ensures shown { shows Local 7 (needs.File (call.Stat (codes "local/7/7"))) (stated 5 9 0) ≡ true }
    ensures missing { shows Remote 7 (needs.File (call.Stat (codes "remote/7/7"))) absent ≡ false }
{}
