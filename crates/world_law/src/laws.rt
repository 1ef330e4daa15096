// Laws of the whole system. Each is the contract of a function that does nothing.
ghost use Rattle.std.specs.Prelude.{false, true};
ghost use Rattle.world_law.specs.Bounces.{BouncesAreAccepted, BouncesAreReadLast, ReturnedRecipientsAreNamed};
ghost use Rattle.world_law.specs.Carried.{DeliveredAreCarried, DeliveriesAreApart, KReportsAreCarried};
ghost use Rattle.world_law.specs.Deliveries.{DropsAreWhole, ForwardsAreAddressed};
ghost use Rattle.world_law.specs.Headline.{AttemptsAreSound, Headline, WorldsAreSafe};
ghost use Rattle.world_law.specs.Leaves.{EventsLeave};
ghost use Rattle.world_law.specs.Laws.{Always, ChildrenKeep, CleanersKeep, DeliveriesKeep, EndsKeep, GenerationsKeep, HaltsKeep, HistoriesAreSafe, InjectorsKeep, InvBegins, LocalsKeep, MomentsKeep, RemotesKeep, ReportsKeep, SendersKeep, StartsKeep, StopsKeep};
ghost use Rattle.world_law.specs.PidNames.{PidsAreOld};
ghost use Rattle.world_law.specs.Reported.{LedgersAreOfReports, TakenAreEntered, WereTaken};
ghost use Rattle.world_law.specs.Routed.{LedgersAreRouted};
ghost use Rattle.world_law.specs.Spawned.{RequestsStand};
ghost use Rattle.world_law.specs.Standing.{FlightsStand, HandsAlwaysStand, InjectionsAreApart, InjectionsAreInTime, LinksAreOfWholeFiles, RecordsAreRouted, RequestsAreOfFlights, SweepsAreOld};
ghost use Rattle.world_law.specs.UnderWay.{CommandsRest};

/// What holds of the whole system holds at the start.
pub fn inv_begins()
    ensures { InvBegins }
{}

/// Each moment that comes keeps it.
pub fn moments_keep()
    ensures { MomentsKeep }
{}

/// So does each report of a remote program.
pub fn reports_keep()
    ensures { ReportsKeep }
{}

/// So do the end and the stop of any actor.
pub fn stops_keep()
    ensures stops { StopsKeep }
    ensures ends { EndsKeep }
{}

/// So do the start of an injector and that of a generation.
pub fn starts_keep()
    ensures starts { StartsKeep }
    ensures generations { GenerationsKeep }
{}

/// So does each event of the local spawner.
pub fn locals_keep()
    ensures { LocalsKeep }
{}

/// So does a machine stop, whatever survives it.
pub fn halts_keep()
    ensures { HaltsKeep }
{}

/// So does each event of an injector.
pub fn injectors_keep()
    ensures { InjectorsKeep }
{}

/// So does each event of the remote spawner.
pub fn remotes_keep()
    ensures { RemotesKeep }
{}

/// So does each event of the cleaner.
pub fn cleaners_keep()
    ensures { CleanersKeep }
{}

/// So does each event of the sender.
pub fn senders_keep()
    ensures { SendersKeep }
{}

/// So does each event of a local delivery.
pub fn deliveries_keep()
    ensures { DeliveriesKeep }
{}

/// So does each start of a child: the sender starts the injector of a bounce, the local spawner a delivery, and that the injector of
/// its forwards.
pub fn children_keep()
    ensures { ChildrenKeep }
{}

/// What holds of the whole system holds after each legal history.
pub fn always()
    ensures { Always }
{}

/// Then each state that it leads to is safe, and each recipient is accounted for by the ledgers.
pub fn histories_are_safe()
    ensures { HistoriesAreSafe }
{}

/// The promise of the queue holds after each prefix of a legal history, however the calls interleave and wherever a program or the
/// machine stops, whatever the control files say: no accepted message is lost, each attempt is sound, each recipient that was returned is named in an accepted bounce,
/// and each local delivery whose success was reported was carried out.
pub fn headline()
    ensures { Headline }
{}

/// So is each prefix of what happened in a world, by what its disk tells.
pub fn worlds_are_safe()
    ensures { WorldsAreSafe }
{}

/// Each event of a legal history leaves what was accepted, and most else that isn't its own.
pub fn events_leave()
    ensures { EventsLeave }
{}

/// Each giving of a sender to a spawner is an attempt at a record that reads `T`, with the text of that record, and no other attempt
/// at that record is in flight.
pub fn attempts_are_sound()
    ensures { AttemptsAreSound }
{}

/// A command is under way at a living cleaner only if its number rests: no injector is at it that may call still, and it is as the command
/// needs.
pub fn commands_rest()
    ensures { CommandsRest }
{}

/// Each bounce that a sender entered in the ledger of a message was accepted: its injector has an accepted injection, which is that of the
/// bounce of the message with the notes that the ledger tells, from its sender and to its recipient alone.
pub fn bounces_are_accepted()
    ensures { BouncesAreAccepted }
{}

/// The name of each recipient that is accounted for as returned stands in a bounce that was accepted, often enough.
pub fn returned_recipients_are_named()
    ensures { ReturnedRecipientsAreNamed }
{}

/// A sender opens a bounce file to return what it holds only where no channel file of that message is left.
pub fn bounces_are_read_last()
    ensures { BouncesAreReadLast }
{}

/// A local delivery makes a link only of a file that holds the lines of a maildir and the message that it took, whole and on the disk.
pub fn drops_are_whole()
    ensures { DropsAreWhole }
{}

/// Each report that the sender takes of the local spawner is of an attempt in flight in its slot; and if it tells of a success, a delivery
/// that was started in that slot, for the attempt's recipient and with the message that the accepted injection of its number entered,
/// has ended with 0 and has carried out its instructions. It was started since the attempt's request was given, in the same generation.
pub fn k_reports_are_carried()
    ensures { KReportsAreCarried }
{}

/// No two attempts share such a delivery.
pub fn deliveries_are_apart()
    ensures { DeliveriesAreApart }
{}

/// So each local recipient that is accounted for as delivered has such a delivery, for its routed address and of the message as entered.
pub fn delivered_are_carried()
    ensures { DeliveredAreCarried }
{}

/// A ledger has a recipient as delivered only if a sender took a K report of it: in the life of that message the sender had given a request
/// for the recipient's record in a slot, and the next report of that slot that it took said K.
pub fn delivered_were_taken()
    ensures { WereTaken true }
{}

/// It has one as failed only if a sender took such a report that said D, or any letter but K in a pass that began after the message's lifetime.
pub fn failed_were_taken()
    ensures { WereTaken false }
{}

/// And whenever a sender takes such a report, the ledger of the message has the recipient as delivered from then on.
pub fn taken_are_delivered()
    ensures { TakenAreEntered true }
{}

/// So it is of a report that says that the recipient failed.
pub fn taken_have_failed()
    ensures { TakenAreEntered false }
{}

/// So what the ledger of a message has of its recipients is just what the reports say that senders took in the life of the message.
pub fn ledgers_are_of_reports()
    ensures { LedgersAreOfReports }
{}

/// And each is routed, and names its recipients, by the controls of the senders that last asked for it in that life.
pub fn ledgers_are_routed()
    ensures { LedgersAreRouted }
{}

/// Of a local delivery that ended with 0 the injection of its forwards was accepted: it is from whom the delivery forwards, to just
/// the addresses of the lines that were reached, in their order, and its message is the one that was taken, with its Delivered-To
/// line.
pub fn forwards_are_addressed()
    ensures { ForwardsAreAddressed }
{}

/// Each attempt that a living sender has in flight or still to give is at a record that reads `T`, no two in flight at one record, and of a
/// message in S5. So is each message that is due on a channel.
pub fn hands_always_stand()
    ensures { HandsAlwaysStand }
{}

/// After todo is gone each channel file holds the text of its message's recipients that go to that channel, with their routed addresses,
/// except that `D` may stand at the place of one that was reported delivered or is noted. If it is read as records, each is one of theirs.
pub fn records_are_routed()
    ensures { RecordsAreRouted }
{}

/// No two injectors that may call still are at one number.
pub fn injections_are_apart()
    ensures { InjectionsAreApart }
{}

/// An injector makes a call within a day and the longest stall of its start.
pub fn injections_are_in_time()
    ensures { InjectionsAreInTime }
{}

/// Before the link to todo both files of the injection hold its texts, and all of them is on the disk.
pub fn links_are_of_whole_files()
    ensures { LinksAreOfWholeFiles }
{}

/// What a sender had in flight or still to give is of numbers in S5 also once it has ended or was stopped, until a new generation starts.
pub fn flights_stand()
    ensures { FlightsStand }
{}

/// While the sender and the local spawner live, each request that this one hasn't read or taken up, the one at work, and what runs in each
/// slot is of the attempt in flight in its slot: for its recipient, and of its message, which is in S5. Nothing is said of what is left
/// unread after a field that is too long.
pub fn requests_are_of_flights()
    ensures { RequestsAreOfFlights }
{}

/// While a spawner lives, the local or the remote one, each request that it hasn't read or taken up, the one at work, and what runs in each
/// slot is of a message in S5. So it is also once the sender has ended or was stopped. Nothing is said of what is left unread after a field
/// that is too long, of which a spawner takes nothing.
pub fn requests_stand()
    ensures { RequestsStand }
{}

/// A cleaner takes a name in `pid` away only directly after a stat of it, at which its file had been written last more than 36 hours
/// before the present moment. Then more than 36 hours have also gone since the start that the name tells, or since its file as it is now
/// was written last; and no injector has the name that may call still.
pub fn pids_are_old()
    ensures { PidsAreOld }
{}

/// A sweep gives the cleaner a message to remove only if its file was written last more than 36 hours ago.
pub fn sweeps_are_old()
    ensures { SweepsAreOld }
{}
