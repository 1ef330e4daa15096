// What `send` is told.
ghost use Rattle.std.specs.Prelude.{◌≡◌, Some, None, Err, IfOk, map, string_bytes};
ghost use Rattle.std.specs.Option.{option_map};
ghost use Rattle.clap.specs.Words.{found_of, rows_of};
ghost use Rattle.command_words.specs.Numbers.{turns_of};
ghost use Rattle.command_words.specs.Reads.{send_words, sender_told_by};

use crate::lines::send_line;
use crate::read::{refusal, spawner_told};
use crate::{RspawnWords, SendWords, WordsError};
use clap::ArgMatches;
use mail_bytes::undec;
use std::alloc::Global;

/// The most turns of a sender.
const MOST_TURNS: u64 = 1_000_000;

/// Reads the words after the name `send`.
pub(crate) fn read_send(alloc: Global, words: &[String]) -> Result<SendWords, WordsError>
    ensures ok { IfOk result (λ told. send_words (map string_bytes words.now) ≡ Some told) }
    ensures usage { result ≡ Err WordsError.Usage → send_words (map string_bytes words.now) ≡ None }
{
    match send_line(alloc)?.try_get_matches_from(words) {
        Ok(matches) => sender_told(alloc, &matches),
        Err(why) => Err(refusal(&why)),
    }
}

/// What `send` is told by what `clap` found. `Usage` only if a word is missing, or the turns are no number in range.
fn sender_told(alloc: Global, matches: &ArgMatches<'_>) -> Result<SendWords, WordsError>
    ensures ok { IfOk result (λ told. sender_told_by (rows_of (found_of matches.now)) ≡ Some told) }
    ensures usage { result ≡ Err WordsError.Usage → sender_told_by (rows_of (found_of matches.now)) ≡ None }
{
    let Some(turns) = turns_of(matches.get_str("turns")) else {
        return Err(WordsError::Usage);
    };
    match spawner_told(alloc, matches) {
        Ok(RspawnWords { dir, program }) => Ok(SendWords {
            dir,
            program,
            turns,
        }),
        Err(why) => Err(why),
    }
}

/// How many turns a sender makes. None exactly if there is no text, or it is no decimal text from 1 to 1,000,000.
fn turns_of(text: Option<&str>) -> Option<u64>
    ensures { result ≡ turns_of (option_map (λ s. s.now) text.entry) }
{
    let number = undec(text?.as_bytes())?;
    if number == 0 || number > MOST_TURNS {
        return None;
    }
    Some(number)
}
