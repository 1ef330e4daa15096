//! The words of the command line: which command they are, and what it is told.
//!
//! The first word names the command; the words after it are its own, and are read by a simple `clap` command of that
//! name. So an option may stand before or after the other words, `--uid=7` is `--uid 7`, after `--` no word is an
//! option, and no option stands twice. The contract of this crate is one function, `command_of`: the command that words
//! are, if they are one. To ask for help or for a version is no command.
//!
//! | Words | Command |
//! |---|---|
//! | `play` | plays a script |
//! | `make SEED COUNT` | makes a script with COUNT mails, drawn from SEED; up to 100,000 of them, and a seed up to 65,536 |
//! | `queue ENV DIR --uid N --bounce` | puts a message into the queue of DIR, as qmail-queue(8) |
//! | `qmqpd DIR --uid N` | takes a message in one package, and puts it into the queue of DIR, as qmail-qmqpd(8) |
//! | `send DIR PROGRAM --turns N` | runs the sender of the queue of DIR for N turns, from 1 to 1,000,000, as qmail-send(8) |
//! | `audit DIR` | prints what the queue of DIR holds |
//! | `clean DIR` | runs the cleaner over the queue of DIR |
//! | `lspawn DIR` | runs the local spawner over the queue of DIR |
//! | `rspawn DIR PROGRAM` | runs the remote spawner, which delivers by PROGRAM; the empty word is no program |
//! | `work --threads N` | runs the mails of a script by N threads, from 1 to 16, beside a generation; 2 if no number is told |
//! | `local DIR =USER =HOME =LOCAL =DASH =EXT =DOMAIN =SENDER =LINE --uid N` | makes a local delivery, as qmail-local(8) |
//!
//! `--turns` has to stand. Each word of `local` after DIR begins with `=`, which isn't part of it, and is escaped as in scripts: `%` and two
//! hexadecimal digits stand for a byte. So it may hold any bytes.
//!
//! # What is claimed
//!
//! - Which command the words are, as a simple `clap` command for each takes them, and what it is told; the
//!   places that they name, which channels it has, and as which member of a generation it runs: `read_words`: `ok` (by
//!   `Reads`), `usage` (by `IsNoCommand`); `places`; `channels`; `member`; `threads_told`; the laws `words_are_one_command`,
//!   `words_by_row`, `words_of_queue`, `words_of_local`, `words_of_members`,
//!   `words_of_make`, `words_of_work`.
#![tactic(auto)]

mod command;
mod delivery;
mod given;
mod laws;
mod lines;
mod maker;
mod read;
mod receiver;
mod sender;
mod threads;

pub use command::{
    Channels, Command, LocalWords, MakeWords, Member, Places, QmqpdWords, QueueWords, RspawnWords,
    SendWords, WordsError,
};
pub use given::{channels, member, places};
pub use laws::{
    words_are_one_command, words_by_row, words_of_local, words_of_make, words_of_members,
    words_of_queue, words_of_work,
};
pub use read::read_words;
pub use threads::threads_told;
