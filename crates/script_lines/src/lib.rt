//! The language of scripts: which bytes are one, and what it says.
//!
//! A script is its entries, which say what its disk holds at its beginning, and its lines. What a line says stands in
//! `specs/Lines.antt`, over the words of the crate `script_words`; `read_script` is exact, both ways, and by the laws in
//! `laws` there is one reading.
//!
//! # What is claimed
//!
//! - Which bytes are a script: it is read as the entries and lines that it has, or refused with the number of its
//!   first bad line: `read_script`: `ok` (by `IsScript`), `err` (by `IsScriptFault`).
//! - A text is one line at most, bytes are one script at most, and no script is refused: the law
//!   `scripts_are_read_one_way`.
#![tactic(auto)]

mod error;
mod keyword;
pub mod laws;
mod line;
mod reading;
mod script;

pub use error::ScriptError;
pub use keyword::{Alone, OfActor, OfCount, OfLetter, OfMoment, OfSurvival, OfWord};
pub use line::Line;
pub use reading::{MAX_SCRIPT, read_script};
pub use script::Script;
