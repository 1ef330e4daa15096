// What a command is given beside its words: the places that they name, which channels it has, and as which member it runs.
ghost use Rattle.std.specs.Prelude.{◌≡◌, IfOk, Some, map, string_bytes};
ghost use Rattle.command_words.specs.Places.{channels_of, member_of, places_of};
ghost use Rattle.command_words.specs.Reads.{command_of};

use crate::read::read_words;
use crate::{Channels, Command, Member, Places, WordsError};
use mail_bytes::Memory;
use std::alloc::{AllocError, Global};

/// The file and the directory that the words name, if they are a command that has them; else neither.
/// The error: out of memory.
pub fn places(alloc: Global, words: &[String]) -> Result<Places, Memory>
    ensures { IfOk result (λ places. places ≡ places_of (command_of (map string_bytes words.now))) }
{
    match read_words(alloc, words) {
        Ok(Command::Queue(queue)) => Ok(Places {
            env: queue.env,
            dir: Some(queue.dir),
        }),
        Ok(Command::Audit(dir) | Command::Clean(dir) | Command::Lspawn(dir)) => Ok(Places {
            env: None,
            dir: Some(dir),
        }),
        Ok(Command::Qmqpd(receiver)) => Ok(Places {
            env: None,
            dir: Some(receiver.dir),
        }),
        Ok(Command::Send(sender)) => Ok(Places {
            env: None,
            dir: Some(sender.dir),
        }),
        Ok(Command::Rspawn(spawner)) => Ok(Places {
            env: None,
            dir: Some(spawner.dir),
        }),
        Ok(Command::Local(delivery)) => Ok(Places {
            env: None,
            dir: Some(delivery.dir),
        }),
        Ok(Command::Play | Command::Make(_) | Command::Work(_)) | Err(WordsError::Usage) => Ok(
            Places {
                env: None,
                dir: None,
            },
        ),
        Err(WordsError::Memory) => Err(AllocError),
    }
}

/// Which channels a command with these words has. The error: out of memory.
pub fn channels(alloc: Global, words: &[String]) -> Result<Channels, Memory>
    ensures { IfOk result (λ channels. channels ≡ channels_of (command_of (map string_bytes words.now))) }
{
    match read_words(alloc, words) {
        Ok(command) => {
            let channels = channels_of(&command);
            drop(command);
            Ok(channels)
        }
        Err(WordsError::Usage) => Ok(Channels::Nothing),
        Err(WordsError::Memory) => Err(AllocError),
    }
}

/// As which member of a generation a command with these words runs, if it does. The error: out of memory.
pub fn member(alloc: Global, words: &[String]) -> Result<Option<Member>, Memory>
    ensures { IfOk result (λ member. member ≡ member_of (command_of (map string_bytes words.now))) }
{
    match read_words(alloc, words) {
        Ok(command) => {
            let member = member_of(&command);
            drop(command);
            Ok(member)
        }
        Err(WordsError::Usage) => Ok(None),
        Err(WordsError::Memory) => Err(AllocError),
    }
}

/// Which channels a command has.
fn channels_of(command: &Command) -> Channels
    ensures { result ≡ channels_of (Some command.now) }
{
    match command {
        Command::Lspawn(_) | Command::Rspawn(_) => Channels::InputAndChildren,
        Command::Local(_) => Channels::Children,
        Command::Send(_) => Channels::Links,
        _ => Channels::Nothing,
    }
}

/// As which member of a generation a command runs, if it does.
fn member_of(command: &Command) -> Option<Member>
    ensures { result ≡ member_of (Some command.now) }
{
    match command {
        Command::Send(_) => Some(Member::Send),
        Command::Clean(_) => Some(Member::Clean),
        Command::Lspawn(_) => Some(Member::Lspawn),
        Command::Rspawn(_) => Some(Member::Rspawn),
        _ => None,
    }
}
