//! What ties what the sender keeps of a channel (send_jobs `Lane`) to the files of that channel, qmail-send(8). Each attempt
//! that is to come, in flight, or to be marked is at a record that reads `T`, and no two are at one record. Each record that
//! reads `T` of a message with a job is accounted for. It is stated of the records of the files alone
//! (`specs/Channel/Tied.antt`), and each event of a channel keeps it (`specs/Channel/Laws.antt`). The laws are the contracts
//! of functions that do nothing.
//!
//! # What is claimed
//!
//! - What a sender keeps of a channel, against the records of that channel's files alone. Each attempt that is
//!   still to come, in flight, or reported and to be marked is at a record that reads `T`, and no two of them are
//!   at one record. What is still to come is of one message. Each is of a message with a job. Of each job the file
//!   is there, and each of its records reads `D`, or an attempt of the job left it `T`, or one at it is in hand. It
//!   holds at first, and is kept by each event. That is a pass that begins over the records that its file has; a
//!   request, which is of a record that reads `T` with no other attempt at it in flight; and a report. It is also
//!   each step of a mark, whether its write is done or fails, and the end of a job, of which each record reads `D`
//!   if it left none `T`. And it is all else that leaves the files of messages with a job alone. A file in which
//!   `D` is written at a record's place has the same records, with that one marked. A file that was synced with a
//!   text reads as that text except for marks: after each write of `D`, done or failed, and after each machine
//!   stop. If the marks are at places of records, it has the same recipients at the same places then: the laws
//!   `starts_tied`, `passes_keep`, `requests_keep`, `reports_keep`, `marks_keep`, `jobs_keep`, `others_keep`, by
//!   `IsTied` (`specs/Channel/Tied.antt`), `marks_are_records`, `versions_keep` and `versions_are_records`, by
//!   `IsMarkedFrom` and `HasVersions` (`specs/Channel/Versions.antt`). That the events of a sender over a disk are these is
//!   part of program_law's `senders_keep`.
ghost use Rattle.program_law.specs.Channel.Laws.{JobsKeep, MarksAreRecords, MarksKeep, OthersKeep, PassesKeep, ReportsKeep, RequestsKeep, StartsTied, VersionsAreRecords, VersionsKeep};

/// A channel of which nothing is in hand is tied to its files.
pub fn starts_tied()
    ensures { StartsTied }
{}

/// A pass that begins over the records that its file has keeps a channel tied to its files.
pub fn passes_keep()
    ensures { PassesKeep }
{}

/// A request that is given is of a record that reads `T`, with no other attempt at it in flight, and keeps it so.
pub fn requests_keep()
    ensures { RequestsKeep }
{}

/// A report that is taken of an attempt in flight keeps it so, whether its record is to be marked or stays `T`.
pub fn reports_keep()
    ensures { ReportsKeep }
{}

/// Each step of a mark keeps it so, whether its write is done or fails.
pub fn marks_keep()
    ensures { MarksKeep }
{}

/// The end of a job keeps it so; and if no place was left `T`, each record of its file reads `D`.
pub fn jobs_keep()
    ensures { JobsKeep }
{}

/// Whatever leaves the files of messages with a job as they are keeps it so.
pub fn others_keep()
    ensures { OthersKeep }
{}

/// A file in which `D` is written at the place of a record has the same records, with that one marked.
pub fn marks_are_records()
    ensures { MarksAreRecords }
{}

/// A channel file reads as it was synced except for marks: after each write of one, done or failed, and after each machine stop.
pub fn versions_keep()
    ensures { VersionsKeep }
{}

/// A channel file that reads as it was synced except for marks, which are at places of records alone, has the same recipients at the same
/// places.
pub fn versions_are_records()
    ensures { VersionsAreRecords }
{}
