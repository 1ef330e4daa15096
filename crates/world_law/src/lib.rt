//! The law of the whole system: what holds after each event of a legal history of injectors and of generations
//! (`specs/Inv.antt`), and what it says of each state, which is the headline (`specs/Headline.antt`). The laws are the contracts
//! of functions that do nothing.
//!
//! # What is claimed
//!
//! - What holds of the whole system (`Inv`): what holds of the queue; each member of a generation has the name of
//!   its program; what each actor relies on by its program (`FaresBy`); and of what the sender asks of its cleaner
//!   at most one command is under way, whose number rests (`ErrandRests`). Nothing of it is said of control files.
//!   It holds of each opening disk. By it each state that a legal history leads to is safe (`SafeState`): each
//!   number is in S1 to S5, and message files are as entered. And each recipient of each accepted injection is
//!   accounted for by the ledgers (`Accounted` of queue_law). The laws: `inv_begins`, `histories_are_safe`.
//! - What the promise says of recipients is told by what happened (`IsAccounted` in `specs/Ledger.antt`): by the
//!   reports that senders took in the life of the message (`specs/Lives.antt`, `specs/Reported.antt`), by what its
//!   bounce file held, and by the unlink of that. It reads no ledger. Whose controls route the message and name its
//!   recipients is told by what senders asked for (`specs/Routed.antt`). Each sender's are what it read by its past.
//! - A ledger has a recipient as delivered, or as failed, exactly if a sender took a report that says so in the
//!   life of the message. It had given a request for the recipient's record in a slot, and the next report of that
//!   slot was final, and said `K`, or not. The laws: `delivered_were_taken`, `failed_were_taken` (by `WereTaken`),
//!   `taken_are_delivered`, `taken_have_failed` (by `TakenAreEntered`), `ledgers_are_of_reports`.
//! - Each event that may happen keeps it: the start of an injector and that of a generation, and each event of an
//!   injector, of a member of a generation, and of a local delivery. So do the report of a remote program, whatever
//!   it wrote, the end and the stop of any actor, a moment, and a machine stop, whatever survives. So does the
//!   start of a child: the sender starts the injector of a bounce, the local spawner a delivery, and that the
//!   injector of its forwards. So it holds after each legal history: the laws `starts_keep`, `injectors_keep`,
//!   `senders_keep`, `cleaners_keep`, `locals_keep`, `remotes_keep`, `deliveries_keep`, `reports_keep`,
//!   `stops_keep`, `moments_keep`, `halts_keep`, `children_keep`, `always`.
//! - Each bounce that a sender entered in the ledger of a message was accepted: there is an accepted injection of
//!   its injector, with its arguments. That injector has, as its message and its envelope, the bounce that comes at
//!   some moment of the message's sender, of the notes that the ledger tells, and of the message as entered. And
//!   that envelope reads as the bounce's sender and its recipient alone: the law `bounces_are_accepted` (by
//!   `BouncesAreAccepted`, `IsBounceOf` and `IsAddressed` in `specs/Bounces.antt`).
//! - So after a legal history each recipient that the ledgers account for as returned is named in an accepted bounce.
//!   Bytes that were read of the bounce file in the life of the injection have as many notes under that name as
//!   recipients of that name failed for good and weren't delivered to. An accepted injection is that of the bounce
//!   made of those bytes, from its sender and to its recipient alone. The message is then no double bounce: the law
//!   `returned_recipients_are_named` (by `IsNamedInBounce`).
//! - A sender opens a bounce file to return what it holds only if neither channel file of the message is left,
//!   whether that open goes well or not: the law `bounces_are_read_last` (by `BouncesAreReadLast`). Not stated:
//!   that it is so still at the reads after it.
//! - What a local delivery has carried out that ended with 0 is one statement (`Carried`), of its own events in the
//!   history. It has the links of the lines that were reached, in order, each of a file that just before holds the
//!   maildir's text of the message, whole and on the disk, under the host that it read. It has the commands, and
//!   the forwards, which are the recipients of one accepted injection, or none was started: the law `headline`, by
//!   `Promise.carried` and `Carried` in `specs/Carried.antt`.
//! - A local delivery that ended with 0 has carried out its instructions, and the injection of its forwards, if it
//!   has any, was accepted. Its message and its envelope are just the two texts that the delivery gave. The laws:
//!   `histories_are_safe` and `headline`, by `EndsWell` and `IsCarriedOut`.
//! - That injection is from whom the delivery forwards, the sender of the message or the owner of the address, to
//!   just the addresses of the lines that were reached, in their order. Its message is the one that was taken, with
//!   its Delivered-To line. The law: `forwards_are_addressed`, by `IsForwardOf`.
//! - A link is due to a local delivery only of a file that holds the lines of a maildir and the message that it
//!   took, whole and on the disk, whatever others did meanwhile: the law `drops_are_whole`, by `DropsAreWhole`.
//! - Each report that the sender takes of the local spawner is of the attempt in flight in its slot. If its letter
//!   is `K`, there is a local delivery that was started in that slot, for the recipient of that attempt, since the
//!   request of the attempt was given and in the same generation; no two attempts share one (the law
//!   `deliveries_are_apart`). It has ended with 0, and has carried out its instructions (`Carried`) for the message that the accepted injection of
//!   the attempt's number entered. This comes of what lies between the two in each state of a history: their two
//!   pipes, the desk of the sender, the place of the spawner and the deliveries in its slots are as program_law says
//!   (`PostsStand`). And while the sender goes on (`MessagesStand`), what the local spawner has read of a message
//!   is first bytes of it, and what it gives to a delivery is its netstring. Then each delivery was given nothing
//!   but first bytes of the netstring of the message that its request names. So of each recipient of a local
//!   address that the ledger of its injection has as delivered, there is such a delivery for the address that it is
//!   routed to, of the message as entered. The laws: `k_reports_are_carried` and `delivered_are_carried`, by
//!   `KReportsAreCarried`, `DeliveredAreCarried`, `WasCarriedFor` and `WasCarried` in `specs/Carried.antt`. Not
//!   stated: anything of this kind of the remote spawner, whose successes are what a program said; and that the
//!   message is the one entered of a delivery whose report no sender took.
//! - The headline: the promise holds of every prefix of such a history, with generations, stops, moments and
//!   machine stops of any survival among the events. The promise (`Promise`) is that the state is safe and each
//!   recipient accounted for by what happened (`Safe`), and what is said here of attempts, of reports and of
//!   deliveries. Nothing is asked of the control files: a message is routed, and its recipients are named, by what
//!   the sender had read of them that last asked for it in the life of the message, and ledgers have the same: the
//!   law `ledgers_are_routed`, by `LedgersAreRouted`. The promise holds too of each prefix of what happened in a
//!   world, by what its disk tells: the laws `headline`, `worlds_are_safe`.
//! - Whatever a sender gives a spawner in such a history, also if the giving fails, is the request for a record
//!   that reads `T` in its channel file as it is then. It has the sender of the injection whose life lasts, and is
//!   for the lowest slot in which nothing is in flight, by the sender's past. By that past its record comes next of
//!   those to be given, and no other attempt at it is in flight: the law `attempts_are_sound`, by `IsAttempt`.
//! - In such a history each attempt that a living sender has in flight or still to give is at a record that reads
//!   `T`, of a number in S5. No two slots have attempts at one record; and each message that is due on a channel is
//!   in S5. The numbers of what a sender had in flight or still to give stay in S5 also once it has ended or was
//!   stopped, until a new generation starts: the laws `hands_always_stand` (by `HandsStand`) and `flights_stand`.
//! - While the sender and the local spawner live, each request that the spawner hasn't read or taken up, and the
//!   one at work, is of the attempt in flight in its slot. It is for its recipient, and of its message, which is in
//!   S5. No field of what it hasn't read has a NUL, so the bytes are those requests and no others. The delivery
//!   that runs in a slot is for the address of the attempt in flight there: the law `requests_are_of_flights` (by
//!   `HoldsFlights`, `RunsForFlight`). Not stated there: that a delivery that runs was given the message of the
//!   attempt (`k_reports_are_carried` says it of one whose `K` is taken).
//! - While a spawner lives, the local or the remote one, each request that it has in hand is of a message in S5,
//!   also once the sender has ended or was stopped. These are those that it hasn't read or taken up, the one at
//!   work, and the one for which it started what runs in each slot. The law: `requests_stand` (by `HoldsStanding`).
//!   Not stated: anything of what lies unread after a field that is too long, of which a spawner takes nothing.
//! - After todo is gone a channel file holds the text that preprocessing wrote for the recipients of its message
//!   that go to that channel, with their routed addresses. Only `D` may stand at the place of one that was reported
//!   delivered, or whose note is synced. If it is read as records, each is that of a recipient, and each recipient
//!   of the channel has one: the law `records_are_routed` (by `HoldsItsRecords`). Not stated: that every such file
//!   is read as records.
//! - No two injectors that may call still are at one number. An injector makes a call within a day and the longest
//!   stall of its start. Before its link to todo both files of the injection hold its texts, and all of them is on
//!   the disk: the laws `injections_are_apart`, `injections_are_in_time`, `links_are_of_whole_files`. Of a message
//!   that is being removed, `commands_rest` says that no living injector is at it that may still call.
//! - A cleaner takes a name in `pid` away only directly after a stat of it in that history, when its file had been
//!   written last more than 36 hours before the moment of the unlink. Of the file that the name has at the unlink
//!   this needn't be so: an injector that still lives may have taken the name away in between, and another one of
//!   the same start may have made it again. But then, too, more than 36 hours have gone since the start that the
//!   name tells, or since that file was written last. And no living injector that may still call has the name: the
//!   law `pids_are_old`, by `WasOldFile` and `IsLeftOver` (`specs/PidNames.antt`).
//! - A sweep gives the cleaner a message to remove only if its file was written last more than 36 hours ago: the
//!   law `sweeps_are_old`, by `IsAged` (program_law `specs/Sender/Rows.antt`).
//! - In such a history a command is under way at a living cleaner, given whole and not taken up or at one of its
//!   unlinks, only if its number rests. Then its message file is there, and no living injector is at it that may
//!   still call. Of a `foop`, nothing of it is wanted; of a `todo`, it is preprocessed except that todo is there,
//!   with info and its channel files whole and on the disk. The law: `commands_rest`, by `IsUnderWay` and
//!   `NumberRests`.
//! - Each event of such a history leaves of each accepted injection one of which only the ledger has grown. And
//!   each one except a machine stop leaves what other actors hold open, and what isn't the queue's, except for old
//!   names in `pid` that the cleaner takes away, and the files that a local delivery puts into maildirs. An event
//!   that is neither a sender's nor a cleaner's leaves all that concerns a preprocessed number: the law
//!   `events_leave`, by `LeavesMost`.
//! - Each prefix of what happened in a world is safe, with generations too; and if no generation was started, each
//!   accepted message waits in todo. Each world whose disk tells has a history that led to it from some disk, of
//!   which all of this holds if that disk is an opening one: `each_world_is_safe`: `safe`, `waiting`, `happened`.
#![tactic(auto)]

mod laws;
mod worlds;

pub use laws::{
    always, attempts_are_sound, bounces_are_accepted, bounces_are_read_last, children_keep,
    cleaners_keep, commands_rest, delivered_are_carried, delivered_were_taken,
    deliveries_are_apart, deliveries_keep, drops_are_whole, events_leave, failed_were_taken,
    flights_stand, forwards_are_addressed, halts_keep, hands_always_stand, headline,
    histories_are_safe, injections_are_apart, injections_are_in_time, injectors_keep, inv_begins,
    k_reports_are_carried, ledgers_are_of_reports, ledgers_are_routed, links_are_of_whole_files,
    locals_keep, moments_keep, pids_are_old, records_are_routed, remotes_keep, reports_keep,
    requests_are_of_flights, requests_stand, returned_recipients_are_named, senders_keep,
    starts_keep, stops_keep, sweeps_are_old, taken_are_delivered, taken_have_failed,
    worlds_are_safe,
};
pub use worlds::each_world_is_safe;
