//! What lies between the sender and a spawner: the requests that are given and the reports that are taken
//! (`specs/Post/Posts.antt`). It is told over the bytes in both pipes, the spawner's place, the deliveries that it runs and
//! what is in flight in the sender's slots. `specs/Post/Laws.antt` has what each event keeps of that. What comes of it: a
//! report that the sender takes is of the attempt in flight in its slot, and a success of a local one is of a delivery for
//! that recipient which ended with 0. The laws are the contracts of functions that do nothing.
//!
//! # What is claimed
//!
//! - What lies between the sender and a spawner, over the bytes in both pipes, the spawner's place, the deliveries
//!   that it runs and what is in flight in the sender's slots. For each slot there is at most one request or
//!   report: given and not taken up, at work, running, or reported and not taken; and none while nothing is in
//!   flight there. Each of them is of the request that was given last for that slot, and this of the recipient and
//!   the message of the attempt in flight. What lies in the spawner's pipe are whole requests, and what lies in the
//!   sender's pipe are whole reports, except after one that was given in part, whose giver gives no more. A success
//!   that the local spawner reports is of a delivery that ended with 0, which it had started for that recipient and
//!   that sender. It holds when a generation begins, and is kept by each event of a spawner that is due, with
//!   whatever comes of it (`spawners_keep`), and by the stop or end of either. So it is by each event of the sender
//!   that is due, by its desk (`senders_keep`): of its slots only the lowest free one can have another request or
//!   something new in flight then. So each report that the sender takes is of the attempt in flight in its slot,
//!   and a success of a local one is of a delivery for its recipient that ended with 0. A whole request and its
//!   report are a worked row: the laws `starts_posted`, `greets_keep`, `slots_keep`, `asks_keep`,
//!   `requests_are_plain`, `takes_in_keep`, `works_keep`, `reports_keep`, `spawners_keep`, `hears_keep`,
//!   `losses_keep`, `desks_tell`, `senders_keep`, by `Posted` (`specs/Post/Posts.antt`, `specs/Post/Senders.antt`), and
//!   `a_worked_post`. That the pipes of a history do this, of the local spawner, is world_law's
//!   (`k_reports_are_carried`), and so is that the message which a delivery is given is the one that was entered.
ghost use Rattle.program_law.specs.Post.Laws.{AsksKeep, DesksTell, GreetsKeep, HearsKeep, LossesKeep, ReportsKeep, RequestsArePlain, SlotsKeep, SpawnersKeep, StartsPosted, TakesInKeep, WorksKeep};
ghost use Rattle.program_law.specs.Post.Senders.{SendersKeep};
ghost use Rattle.program_law.specs.Post.Worked.{WorkedPost};

/// A generation begins with nothing in hand.
pub fn starts_posted()
    ensures { StartsPosted }
{}

/// The first byte that a sender takes is the one that the spawner gives first.
pub fn greets_keep()
    ensures { GreetsKeep }
{}

/// How the sender keeps its slots makes no difference.
pub fn slots_keep()
    ensures { SlotsKeep }
{}

/// A sender may give a request for a free slot: whole, or in part, after which it gives no more.
pub fn asks_keep()
    ensures { AsksKeep }
{}

/// The request for a recipient is plain if the message's sender and the recipient are.
pub fn requests_are_plain()
    ensures { RequestsArePlain }
{}

/// A spawner may take what lies in its pipe.
pub fn takes_in_keep()
    ensures { TakesInKeep }
{}

/// It may do what is due for a request, whatever comes of that. A success is due only of a delivery that ended with 0 and was for
/// the recipient that was asked for.
pub fn works_keep()
    ensures { WorksKeep }
{}

/// It may give a report, whole or in part, after which it gives no more.
pub fn reports_keep()
    ensures { ReportsKeep }
{}

/// Each event of a spawner that is due keeps it.
pub fn spawners_keep()
    ensures { SpawnersKeep }
{}

/// The reports that a sender takes are of the attempts in flight in their slots, and each success of a local one is of a delivery
/// for its recipient that ended with 0.
pub fn hears_keep()
    ensures { HearsKeep }
{}

/// The stop or end of either side keeps it. After that of both nothing is in hand.
pub fn losses_keep()
    ensures { LossesKeep }
{}

/// What the sender's table does to its slots when it takes reports.
pub fn desks_tell()
    ensures { DesksTell }
{}

/// Each event of a sender that is due keeps it, by its desk: what it takes of a spawner, what it gives to it, and all else.
pub fn senders_keep()
    ensures { SendersKeep }
{}

/// A request as it goes, up to the report that the sender takes.
pub fn a_worked_post()
    ensures { WorkedPost }
{}
