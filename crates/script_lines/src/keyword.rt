// The words that a line begins with: a row for each, by the kind of what follows it.
ghost use Rattle.std.specs.Prelude.{◌≡◌, IfSome, IfNone, Contains};
ghost use Rattle.script_lines.specs.Keywords.{keyword_text};
ghost use Rattle.script_lines.specs.inside.Keywords.{keyword_texts};

use script_words::Form;

/// The words that nothing follows.
#[derive(Clone, Copy)]
pub enum Alone {
    /// From then on each event is printed.
    Trace,
    /// Prints what the queue holds, and how each mail fares.
    Show,
    /// Prints how many mails were accepted, and what became of their recipients.
    Sum,
    /// Starts a generation: a sender, a cleaner and two spawners.
    Sender,
    /// Runs each living actor once, in order of start.
    Turn,
}

/// The words that the name of an actor follows.
#[derive(Clone, Copy)]
pub enum OfActor {
    /// One step of it.
    Step,
    /// Steps of it until it ends or waits.
    Run,
    /// Ends it from outside.
    Stop,
}

/// The words that a number from 1 follows.
#[derive(Clone, Copy)]
pub enum OfCount {
    /// The call of this place from then on fails, `close` not counted.
    Fault,
    /// The next new file takes this number.
    Number,
}

/// The words that a moment follows.
#[derive(Clone, Copy)]
pub enum OfMoment {
    /// Sets the present moment, which never falls.
    Moment,
}

/// The words that what survives a machine stop follows.
#[derive(Clone, Copy)]
pub enum OfSurvival {
    /// The machine stops, and this survives of the files.
    Halt,
}

/// The words that one word for a text follows.
#[derive(Clone, Copy)]
pub enum OfWord {
    /// Prints the bytes of the file of this path.
    Cat,
}

/// The words that the letter of a report follows.
#[derive(Clone, Copy)]
pub enum OfLetter {
    /// Rounds of a turn and of reports with this letter, until only idle turns are left.
    Settle,
}

/// The first word of a line, by the kind of its argument.
#[derive(Clone, Copy)]
pub(crate) enum Keyword {
    /// A name, what an envelope is made of, `:` and a body.
    Mail(Form),
    /// Nothing.
    Alone(Alone),
    /// The name of an actor.
    Actor(OfActor),
    /// A number from 1.
    Count(OfCount),
    /// A moment.
    Moment(OfMoment),
    /// What survives a machine stop.
    Survival(OfSurvival),
    /// A word for a text.
    Word(OfWord),
    /// The letter of a report.
    Letter(OfLetter),
    /// A slot, the letter of a report, and a word for a text.
    Report,
}

/// The row of a word; `None` exactly if no line begins with it.
pub(crate) fn keyword_of(word: &[u8]) -> Option<Keyword>
    ensures some { IfSome result (λ keyword. word.now ≡ keyword_text keyword) }
    ensures none { IfNone result (¬ (Contains keyword_texts word.now)) }
{
    match word {
        b"mail" => Some(Keyword::Mail(Form::Written)),
        b"raw" => Some(Keyword::Mail(Form::Raw)),
        b"trace" => Some(Keyword::Alone(Alone::Trace)),
        b"show" => Some(Keyword::Alone(Alone::Show)),
        b"sum" => Some(Keyword::Alone(Alone::Sum)),
        b"sender" => Some(Keyword::Alone(Alone::Sender)),
        b"turn" => Some(Keyword::Alone(Alone::Turn)),
        b"step" => Some(Keyword::Actor(OfActor::Step)),
        b"run" => Some(Keyword::Actor(OfActor::Run)),
        b"stop" => Some(Keyword::Actor(OfActor::Stop)),
        b"fault" => Some(Keyword::Count(OfCount::Fault)),
        b"number" => Some(Keyword::Count(OfCount::Number)),
        b"moment" => Some(Keyword::Moment(OfMoment::Moment)),
        b"halt" => Some(Keyword::Survival(OfSurvival::Halt)),
        b"cat" => Some(Keyword::Word(OfWord::Cat)),
        b"settle" => Some(Keyword::Letter(OfLetter::Settle)),
        b"report" => Some(Keyword::Report),
        _ => None,
    }
}
