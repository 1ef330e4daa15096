// A line of a script.

use crate::{Alone, OfActor, OfCount, OfLetter, OfMoment, OfSurvival, OfWord};
use actor_names::ActorName;
use call_fs::Survival;
use mail_bytes::ByteText;
use script_words::{Count, Letter, Moment};

/// A line of a script: its first word, and its argument.
#[derive(Drop)]
pub enum Line {
    /// `mail` or `raw`: starts an injector of this name.
    Mail {
        /// Its name.
        name: ActorName,
        /// The message that it is given.
        message: ByteText,
        /// The envelope that it is given.
        envelope: ByteText,
    },
    /// A word alone.
    Alone(Alone),
    /// A word, and the name of an actor.
    Actor(OfActor, ActorName),
    /// A word, and a number from 1.
    Count(OfCount, Count),
    /// A word, and a moment.
    Moment(OfMoment, Moment),
    /// A word, and what survives a machine stop.
    Survival(OfSurvival, Survival),
    /// A word, and the text that another word stands for.
    Word(OfWord, ByteText),
    /// A word, and the letter of a report.
    Letter(OfLetter, Letter),
    /// `report`: the remote program in a slot ends, and this is its report.
    Report {
        /// The slot.
        slot: u8,
        /// The letter of its message report.
        letter: Letter,
        /// The text after that letter.
        text: ByteText,
    },
}
