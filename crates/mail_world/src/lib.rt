//! The world of the queue's programs: one disk, the actors that use it, and the history of all that they did.
//!
//! Each event of the world is one of one actor, or a moment that comes, the start of a generation, the report of a remote program,
//! or a machine stop. One of an actor is a file call, a taking or giving, a command of a user, the start of a child, or its own
//! start, end or stop. It is appended to the history. A child is a local delivery, or the injector of a bounce or of what a local
//! delivery forwards. If the disk tells and was an initial one, the history is legal by the definition in `specs/History.antt`.
//! While no generation was started, each accepted message waits in todo (`specs/Waiting.antt`). world_law says what holds of every
//! legal history: no accepted message is lost. The world's books, `specs/Books.antt`, say what became of each injector's mail.
//!
//! # What is claimed
//!
//! - At each prefix of a legal history in which no generation was started, with stops, moments and machine stops of
//!   any survival among the events, the life of each accepted injection lasts, and todo has its message:
//!   `laws::mails_wait`, by `AllWait`.
//! - Each event of a legal history in which no generation was started leaves what was accepted. And each one except
//!   a machine stop leaves what isn't the queue's, what other actors hold open, and each preprocessed number, of
//!   which such a history has none: `laws::events_leave`, by `LeavesRest`.
//! - The whole input of a child stands in its start in a history. It may be another one as long as the child has
//!   done nothing, and its parent nothing since that start. Then each event might happen when it did all the same,
//!   and leads to the same state except for the child's program. Contracts: `laws::histories_begin_anew`, by
//!   `HistoriesBeginAnew`.
//! - Every world whose disk tells has a history that led to it from some disk, each event of it allowed when it
//!   happened; and if that disk is an opening one, the history is legal: `World::history`: `happened`.
//! - A world appends exactly the event that it makes, refuses exactly when it must, and is unchanged when it
//!   refuses. A step's event is what was due to the actor by its table, with what it finds ready by the events so
//!   far. A stop takes no memory. Each actor of a world stands for its own past, or for all of it but the newest
//!   event, which it owes and the history has: `World::{new, history, start_mail, start_generation, step, report,
//!   stop, moment}`, and the invariant of `World` (`IsWorld`).
//! - A generation starts as one event, and is refused exactly if a member of the one before lives, with the first
//!   in their order. A step of a member or of a local delivery takes all that lies in a pipe, at most as much as
//!   its machine takes at once, gives whole, or starts a program. That is a remote one, a local delivery, or the
//!   injector of a bounce or of a forward, which then waits until its parent has given it its input or is over. A
//!   command exits as its text says. An actor waits exactly if nothing of what is due can be done yet, or memory
//!   ran out first. A report is taken exactly if the living remote spawner has a program without one in that slot:
//!   `World::start_generation`: `started` (by `generation_world`), `alive`; `World::step`: `event` (by `IsStep`,
//!   `ComesWhole` and `IsKeptBy`), `waits`, `waiting`; `World::report`: `reported`, `waits`.
//! - Who lives, by the order of starts; which slots have a program without a report. And whether the event of a
//!   step ended a turn of the sender in which it did nothing but search todo: `World::next_living` (by
//!   `next_living`), `World::unreported` (by `lowest_unreported`), `World::step`: `idle` (by `has_idled`).
//! - Over a disk whose machine can be stopped: a machine stop is one event more, with which the life of each living
//!   actor is over, and its contents are those of the named choice. A call that is to fail and a number that is
//!   picked are no events, and a number is refused exactly if it is in use: `World::{halt, fault_in, pick}`.
//! - If the disk tells which call fails and which number comes next, each call of a step is by that, and nothing
//!   else uses it up: `World::{step, stop, moment, halt}`: clause `plan`.
//! - A world is a state that threads may step in turn (`yard_lock::Stepped`): a turn asks for a step of an actor, and its
//!   answer is what the step did or why there was none; out of memory leaves the world as it was: `World::apply` (by
//!   `moves` of `specs/Moves.antt`).
//! - A world keeps books: of each mail its injector, process number, number, count of recipients, whether it was
//!   accepted, and how its injector fares. They say what each legal history of its events says; and, if no
//!   generation was started, a mail is accepted there exactly if the headline's books have an accepted injection of
//!   it. Each injection of the headline's books then, accepted or not, is of its actor's mail, with that mail's
//!   sender and recipients, and has the number that the world's books tell of it, if that is a number of the queue.
//!   Contracts: `World::books`: `events` (by `books_of`), `models` (by `books_in`); the laws
//!   `books_are_the_models`, `accepted_are_booked`.
#![tactic(auto)]

mod actor;
mod any_machine;
mod by_turns;
mod children;
mod generation;
pub mod laws;
mod world;

pub use actor_names::ActorName;
pub use world::World;
pub use world_events::{Books, Did, Entry, Event, History, Life, Program, WorldError};
