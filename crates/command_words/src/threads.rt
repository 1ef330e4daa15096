// What `work` is told.
ghost use Rattle.std.specs.Prelude.{◌≡◌, ◌↔◌, ℕ, Some, None, Err, IfOk, map, string_bytes};
ghost use Rattle.std.specs.Option.{option_map};
ghost use Rattle.command_words.specs.Numbers.{threads_of};
ghost use Rattle.command_words.specs.Reads.{Reads, work_words};
ghost use Rattle.command_words.specs.declared.command.Command.TheVariants.{Work};

use crate::lines::work_line;
use crate::read::{read_words, refusal};
use crate::{Command, WordsError};
use mail_bytes::undec;
use std::alloc::Global;

/// How many threads run mails if no number is told.
const THREADS: u64 = 2;

/// The most threads that run mails.
const MOST_THREADS: u64 = 16;

/// How many threads run mails, by the words of `work`. `Usage` only if the words aren't those.
pub fn threads_told(alloc: Global, words: &[String]) -> Result<u64, WordsError>
    ensures ok { IfOk result (λ threads. Reads (map string_bytes words.now) (Work threads)) }
    ensures usage { result ≡ Err WordsError.Usage → (n : ℕ) → ¬ (Reads (map string_bytes words.now) (Work n)) }
{
    let command = match read_words(alloc, words) {
        Ok(command) => command,
        Err(why) => return Err(why),
    };
    let told = threads_in(&command);
    drop(command);
    match told {
        Some(threads) => Ok(threads),
        None => Err(WordsError::Usage),
    }
}

/// How many threads a command tells, if it is `work`.
fn threads_in(command: &Command) -> Option<u64>
    ensures { (n : ℕ) → (result ≡ Some n) ↔ (command.now ≡ Work n) }
{
    match command {
        Command::Work(threads) => Some(*threads),
        _ => None,
    }
}

/// Reads the words after the name `work`: how many threads run mails.
pub(crate) fn read_work(alloc: Global, words: &[String]) -> Result<u64, WordsError>
    ensures ok { IfOk result (λ threads. work_words (map string_bytes words.now) ≡ Some threads) }
    ensures usage { result ≡ Err WordsError.Usage → work_words (map string_bytes words.now) ≡ None }
{
    let matches = match work_line(alloc)?.try_get_matches_from(words) {
        Ok(matches) => matches,
        Err(why) => return Err(refusal(&why)),
    };
    match threads_of(matches.get_str("threads")) {
        Some(threads) => Ok(threads),
        None => Err(WordsError::Usage),
    }
}

/// The number of threads of a text; 2 if there is none. None exactly if it is no decimal text from 1 to 16.
fn threads_of(text: Option<&str>) -> Option<u64>
    ensures { result ≡ threads_of (option_map (λ s. s.now) text.entry) }
{
    let Some(text) = text else {
        return Some(THREADS);
    };
    let number = undec(text.as_bytes())?;
    if number == 0 || number > MOST_THREADS {
        return None;
    }
    Some(number)
}
