//! The one public call, `qmail`: reads its words, and does what they say over what it is handed in. Only `work` starts threads and
//! waits for them; `qmail_alone` is the same call for all other words, without the two handles for that.
//!
//! The command `play` reads a script of mails and steps, and plays it over a disk in memory; the crate `scenario` says
//! what a script is and what it prints. `work` runs the mails of a script by threads (`actor_runner`). `make` prints a script
//! of many mails (the crate `script_maker`). `queue` puts a
//! message into a queue (`queue_command`), `qmqpd` takes one in a package (`qmqp_server`), `audit` prints what a queue holds (`audit_command`), and `clean` runs the
//! cleaner (`clean_command`). `lspawn` and `rspawn` run the spawners (`spawn_command`), and `local` makes a local delivery
//! (`local_command`). `send` starts the cleaner and the spawners, and is the sender (`send_command`). The exit statuses are
//! those of qmail-queue(8) if it has one.
//!
//! # What is claimed
//!
//! - Of every command but `work`, `qmail_alone` claims what `qmail` does, and it returns if what it is handed in does. At the words
//!   of `work` it ends with 84 or 51 and leaves everything untouched: `qmail_alone`: `unworked`.
//! - 100 only if the words are no command, or of `local`, and for no command 100 or 51. At that 100 the log took the line
//!   `usage`, or a prefix of it if it failed. What each command leaves untouched: `qmail`: `usage`, `no_command`, `usage_line`,
//!   and those of "untouched".
//! - `queue`: a whole injection, for what the words say: `qmail`: `queue` (by `HasRunQueue`).
//! - `qmqpd`: one package, its injection and its answer: `qmail`: `qmqpd` (by `HasRunQmqpd`), `qmqpd_beside`.
//! - `make`: with status 0 the output took exactly the script of the words, and else a prefix of it. 53 only if its count of
//!   failures rose, and otherwise that is as before: `qmail`: `make` (by `HasMade`).
//! - `audit`: its lines, its statuses and what it leaves: `qmail`: `audit` (by `HasAudited`), `audit_unwritten`.
//! - `clean`: a whole run of the cleaner, with the commands of standard input; or there was no memory for its
//!   words, and nothing was done: `qmail`: `clean` (by `WasCleaned`).
//! - `lspawn`, `rspawn`: a whole run of the spawner, with deliveries by the words' directory or program: `qmail`: `lspawn` (by
//!   `WasLspawned`), `rspawn` (by `WasRspawned`).
//! - `local`: a whole delivery, of what the words say: `qmail`: `local` (by `WasDelivery`).
//! - `send`: a whole run of the sender with the children that it starts, and the lines of its past in the log: `qmail`: `send` (by
//!   `HasSent`).
//! - The words by which these start this same program are the command that is meant: `children_are_commands`.
//! - `play`: with status 0 the output took exactly what the script prints, and the script was read to its end. The
//!   history that it played is its own, legal, and as promised at each prefix. If no generation was started in it,
//!   each accepted message waits in todo. With 91 the number of the first bad line, or a prefix of that if the output failed; with any other
//!   status nothing, or a prefix of what the script prints. And nothing before the source has answered that it has
//!   ended, if it tells that, or the script was too long: `qmail`: `prints`, `ended`, `told_end`, `begins`,
//!   `refuses`, `reached`, `unended`. With status 0 fewer than 2^63 deeds were done, so that each new file's number is below
//!   2^64: `few`. By that `settle_law` says what each `settle` line leads to (`lines_settle`).
//! - `play`: 91 only if the script isn't one, and then never 0 or 53; 53 and 54 only if that count rose, or stands
//!   at its last value, and 51 only if neither did. A script that was read gives 0 or 51 if no count rose: `qmail`:
//!   `malformed`, `checked`, `output`, `input`, `unfailed`, `complete`, `known`.
//! - `work`: with status 0 the output took a line for each event of a history, and then what `show` prints of it. The history begins
//!   with the script's disk, its mails in their order and a generation, goes on with steps of actors in some order, in which each
//!   mail ends, and ends with `settle K`. It is legal, and as promised at each prefix; nothing in it failed, and no moment, stop or
//!   machine stop came. The other statuses are those of `play`: `qmail`: `work` (by `WasWorked`), `unused`; the laws
//!   `turns_are_steps`, `work_is_quiet`. That a run comes to its end isn't claimed, nor that two threads ever run at once.
#![tactic(auto)]

mod alone;
mod around_threads;
mod called;
mod laws;
mod making;
mod play_command;
mod refusing;
mod sending;
mod top;
mod work_command;

pub use alone::qmail_alone;
pub use called::Qmail;
pub use command_words::{Places, places};
pub use laws::{children_are_commands, turns_are_steps, work_is_quiet};
pub use top::qmail;
