//! What a world keeps: the events of its history, with all that an event owns, its books on injections, where each actor stands, who
//! started and lives, and which children actors start. How a machine is asked. And what a world answers: what a step did, or why it
//! refuses.
//!
//! The books are a function of the events, `books_of` in `specs/Books.antt`.
//!
//! An event leaves something with its actor: what it has open after its call, and what came, as its machine is handed it. A list of descriptors is kept by the calls and their answers. When an actor is over, each is closed, and the disk is as it was
//! without them (`specs/Opened.antt`).
//!
//! # What is claimed
//!
//! - A history holds the events that were put there, in order. The books are a function of the events, one entry
//!   for each injector's mail, also for that of a bounce or of a forward, whose recipients are known once it is
//!   given its envelope. Contracts: `History`: `events_of`; `Books::{add, enter, feed, note, cut_off}`, by
//!   `new_entry`, `fed_entry`, `noted`, `cut_off`.
//! - What an event keeps of its own: what a machine asked for, the bytes or the name that a call brought, what a mail's
//!   injector is started with. How many programs an event starts; where each actor stands, by its name, and the
//!   child in a slot of one. Who started, in order, and whether it has started again; which child comes of a start,
//!   with which name and program. Contracts: `need_data`; `room_for`, `told_in` (by `most_brought`, `HasFew`,
//!   `told_with`); `mail_program` (by `mail`); `started_by` (by `starts_in`); `Places` (by `place_of`),
//!   `place_among` (by `among_all`), `child_at` (by `child_place`); `Starts` (by `place_at`); `child_of`,
//!   `counts_with`, `child_event`; `room_for_one`.
//! - What an actor has open after an event: also what its call opened, and not what it closed. When it is over,
//!   each of these is closed, and of a disk that tells nothing else has changed. What came of an event, as a
//!   machine is handed it: `keep_open` (by `opened_by`), `close_all` (by `AreOpen` and `shut`), `got_of` (by
//!   `came_of`).
//! - Any machine is asked what it does next, and its call is made: its event is the call that was due with what the
//!   disk answered, by the plan of the disk if that tells: `ask` (by `due_by`, `IsStated`, `IsMade`,
//!   `IsPlannedCame`), `own_at`.
//! - Which events are searches for a message to preprocess, and which begin one: `is_search`, `is_first`. The members of
//!   a generation, by one list: the law `members_are_listed`.
//! - Of whoever can tell whether it lives, the next one in the order of starts, and whether the remote spawner of a
//!   crew lives: `next_living` (by `IsNextStart`), `spawner_lives` (by `lasts`).
#![tactic(auto)]

mod answers;
mod asked;
mod asking;
mod books;
mod child;
mod event;
mod handed;
mod keeping;
mod laws;
mod living;
mod mail;
mod places;
mod reads;
mod searches;
mod starts;

pub use answers::{Did, WorldError};
pub use asked::need_data;
pub use asking::{Came, Setting, ask, own_at};
pub use books::{Books, Entry, Life, note, number_by};
pub use child::{Born, child_event, child_of, counts_with, room_for_one};
pub use event::{Event, History, Program, started_by};
pub use handed::got_of;
pub use keeping::{close_all, keep_open};
pub use laws::members_are_listed;
pub use living::{Living, next_living, spawner_lives};
pub use mail::{MAIL_USER, mail_program, unfed};
pub use places::{Places, child_at, place_among};
pub use reads::{room_for, told_in};
pub use searches::{is_first, is_search};
pub use starts::Starts;
