//! What the sender has out: the attempts in its slots, the recipients that its passes still have to give, the marks that
//! reports lead to, and its jobs (qmail-send(8); INTERNALS, section 5).
//!
//! The contract of this crate, `slots_are_sound`: after every run of calls, two attempts in flight are never at one place
//! of one message, and each is one that the message's last pass read as `T`. And `finished` tells exactly when each place
//! of that pass was reported. `Slots::take_lowest` takes the least free slot. It also puts the lines of the log that speak
//! of deliveries.
//!
//! # What is claimed
//!
//! - What each call does to the slots, the open pass, the marks that are to be made and the jobs of a channel, and
//!   that it leaves the other channel alone. The slot that is taken is the least free one, and none exactly if all
//!   are in flight; a report is refused exactly if nothing is in flight in its slot; after out of memory nothing
//!   changed: `Slots::{new, begin_pass, next_place, upcoming, lowest_free, take_lowest, attempt, report, finished,
//!   add_mark, first_mark, settle_mark, leave_unmarked, job, job_over, end_job, marks, limit, in_flight,
//!   next_delivery}`.
//! - After every run of these calls in which passes are over the records of channel files: two attempts in flight
//!   are at distinct places of a message. Each is one that the message's last pass read as `T`; a message is
//!   finished exactly if each place of its last pass was reported: the law `slots_are_sound` (`IsSoundRun`).
//! - There is room for the mark of each report if no attempt goes out while a mark is to be made. Jobs are a map
//!   from the numbers of messages; the next retry of a channel: the laws `marks_have_room`, `jobs_are_a_map`;
//!   `retry_at`.
//! - The lines of the log at the beginning and at the end of a delivery, and of what is in flight then:
//!   `put_starting`, `put_settled`, `put_status`, each by the definition in `specs/Lines.antt`.
#![tactic(auto)]

mod attempts;
mod channels;
mod jobs;
mod lane;
mod laws;
mod left;
mod lines;
mod marks;
mod slot_table;
mod slots;
mod tries;

pub use attempts::{Attempt, Failure, Mark, failure_in, is_final};
pub use channels::retry_at;
pub use jobs::Job;
pub use laws::{jobs_are_a_map, marks_have_room, slots_are_sound};
pub use lines::{put_settled, put_starting, put_status, status_if};
pub use marks::Marks;
pub use send_known::Channel;
pub use slots::{OutOfRange, Slots};
pub use tries::{done_with, due_again, due_then, first_due, retry};
