// What `make` is told.
ghost use Rattle.std.specs.Prelude.{◌≡◌, Some, None, Err, IfOk, map, string_bytes};
ghost use Rattle.std.specs.Option.{option_map};
ghost use Rattle.clap.specs.Words.{found_of, rows_of};
ghost use Rattle.command_words.specs.Numbers.{number_below};
ghost use Rattle.command_words.specs.Reads.{make_words, maker_told_by};

use crate::lines::make_line;
use crate::read::refusal;
use crate::{MakeWords, WordsError};
use clap::ArgMatches;
use mail_bytes::undec;
use std::alloc::Global;

/// Seeds are below this.
const SEEDS: u64 = 65_537;

/// Counts of mails are below this.
const COUNTS: u64 = 100_001;

/// Reads the words after the name `make`.
pub(crate) fn read_make(alloc: Global, words: &[String]) -> Result<MakeWords, WordsError>
    ensures ok { IfOk result (λ told. make_words (map string_bytes words.now) ≡ Some told) }
    ensures usage { result ≡ Err WordsError.Usage → make_words (map string_bytes words.now) ≡ None }
{
    match make_line(alloc)?.try_get_matches_from(words) {
        Ok(matches) => maker_told(&matches),
        Err(why) => Err(refusal(&why)),
    }
}

/// What `make` is told by what `clap` found. `Usage` only if a word is missing, or is no number in range.
fn maker_told(matches: &ArgMatches<'_>) -> Result<MakeWords, WordsError>
    ensures ok { IfOk result (λ told. maker_told_by (rows_of (found_of matches.now)) ≡ Some told) }
    ensures usage { result ≡ Err WordsError.Usage → maker_told_by (rows_of (found_of matches.now)) ≡ None }
{
    let Some(seed) = number_below(SEEDS, matches.get_str("seed")) else {
        return Err(WordsError::Usage);
    };
    let Some(count) = number_below(COUNTS, matches.get_str("count")) else {
        return Err(WordsError::Usage);
    };
    Ok(MakeWords { seed, count })
}

/// The number of a text. None exactly if there is no text, or it is no decimal text of a number below this limit.
fn number_below(limit: u64, text: Option<&str>) -> Option<u64>
    ensures { result ≡ number_below limit (option_map (λ s. s.now) text.entry) }
{
    let number = undec(text?.as_bytes())?;
    if number >= limit {
        return None;
    }
    Some(number)
}
