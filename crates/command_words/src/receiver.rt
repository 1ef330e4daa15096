// What `qmqpd` is told.
ghost use Rattle.std.specs.Prelude.{◌≡◌, Some, None, Err, IfOk, map, string_bytes};
ghost use Rattle.clap.specs.Words.{found_of, rows_of};
ghost use Rattle.command_words.specs.Reads.{qmqpd_words, receiver_told_by};

use crate::lines::qmqpd_line;
use crate::read::{refusal, uid_of};
use crate::{QmqpdWords, WordsError};
use clap::ArgMatches;
use mail_bytes::ByteText;
use std::alloc::Global;

/// Reads the words after the name `qmqpd`.
pub(crate) fn read_qmqpd(alloc: Global, words: &[String]) -> Result<QmqpdWords, WordsError>
    ensures ok { IfOk result (λ told. qmqpd_words (map string_bytes words.now) ≡ Some told) }
    ensures usage { result ≡ Err WordsError.Usage → qmqpd_words (map string_bytes words.now) ≡ None }
{
    match qmqpd_line(alloc)?.try_get_matches_from(words) {
        Ok(matches) => receiver_told(alloc, &matches),
        Err(why) => Err(refusal(&why)),
    }
}

/// What `qmqpd` is told by what `clap` found. `Usage` only if the directory is missing, or the user is no number.
fn receiver_told(alloc: Global, matches: &ArgMatches<'_>) -> Result<QmqpdWords, WordsError>
    ensures ok { IfOk result (λ told. receiver_told_by (rows_of (found_of matches.now)) ≡ Some told) }
    ensures usage { result ≡ Err WordsError.Usage → receiver_told_by (rows_of (found_of matches.now)) ≡ None }
{
    let Some(dir) = matches.get_str("dir") else {
        return Err(WordsError::Usage);
    };
    let Some(uid) = uid_of(matches.get_str("uid")) else {
        return Err(WordsError::Usage);
    };
    Ok(QmqpdWords {
        dir: ByteText::from_slice(alloc, dir.as_bytes())?,
        uid,
    })
}
