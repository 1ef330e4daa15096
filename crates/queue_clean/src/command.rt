// The commands that a cleaner takes.
ghost use Rattle.std.specs.Prelude.{◌≡◌, bytes_eq};
ghost use Rattle.queue_clean.specs.Commands.{command_of, command_by, named};

use mail_bytes::undec;
use queue_paths::Name;

/// The fewest bytes that a command has, its NUL among them.
pub const LEAST_COMMAND: usize = 7;

/// The most bytes that a command may have, its NUL among them.
pub const MOST_COMMAND: usize = 100;

/// A command: to remove two names of the message with this number.
#[derive(Clone, Copy)]
pub enum Command {
    /// What an injector left: `intd/N`, then `mess/S/N`.
    Foop(u64),
    /// What a preprocessed message needs no more: `intd/N`, then `todo/N`.
    Todo(u64),
}

impl Command {
    ghost use Rattle.std.specs.Prelude.{◌≡◌};
    ghost use Rattle.queue_paths.specs.Names.{name_of};
    ghost use Rattle.queue_clean.specs.Commands.{first_name, second_name};

    /// The name that it removes first.
    pub(crate) fn first_name(self) -> Name
        ensures { name_of result ≡ first_name self }
    {
        match self {
            Command::Foop(number) | Command::Todo(number) => Name::Intd(number),
        }
    }

    /// The name that it removes then.
    pub(crate) fn second_name(self) -> Name
        ensures { name_of result ≡ second_name self }
    {
        match self {
            Command::Foop(number) => Name::Mess(number),
            Command::Todo(number) => Name::Todo(number),
        }
    }
}

/// The command that a text is, without its NUL; `None` exactly if it is none.
#[tactic(auto, unfolding(crate::specs::Commands::command_of))]
pub(crate) fn read_command(text: &[u8]) -> Option<Command>
    ensures { result ≡ command_of text.now }
{
    if text.len() < LEAST_COMMAND - 1 || text.len() > MOST_COMMAND - 1 {
        return None;
    }
    let (word, number) = text.split_at(5);
    command_by(word, undec(number))
}

/// The command of a word and the number after it, which is from 1.
fn command_by(word: &[u8], number: Option<u64>) -> Option<Command>
    ensures { result ≡ command_by word.now number }
{
    match number {
        None | Some(0) => None,
        Some(number) => named(word, number),
    }
}

/// The command that a word names.
fn named(word: &[u8], number: u64) -> Option<Command>
    ensures { result ≡ named word.now number }
{
    if is_same(word, b"foop/") {
        Some(Command::Foop(number))
    } else if is_same(word, b"todo/") {
        Some(Command::Todo(number))
    } else {
        None
    }
}

/// Whether two texts are the same.
fn is_same(a: &[u8], b: &[u8]) -> bool
    ensures { result ≡ bytes_eq a.now b.now }
{
    a == b
}
