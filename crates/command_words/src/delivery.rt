// What `local` is told.
ghost use Rattle.std.specs.Prelude.{◌≡◌, Some, None, Err, IfOk, map, string_bytes};
ghost use Rattle.clap.specs.Words.{found_of, rows_of};
ghost use Rattle.command_words.specs.Delivery.{delivery_told, local_told_by, local_words, marked, told_as};

use crate::lines::local_line;
use crate::read::{refusal, uid_of};
use crate::{LocalWords, WordsError};
use call_fs::DeliveryWordsData;
use clap::ArgMatches;
use mail_bytes::{ByteText, EscapeError, unescape};
use std::alloc::Global;

/// Reads the words after the name `local`.
pub(crate) fn read_local(alloc: Global, words: &[String]) -> Result<LocalWords, WordsError>
    ensures ok { IfOk result (λ told. local_words (map string_bytes words.now) ≡ Some told) }
    ensures usage { result ≡ Err WordsError.Usage → local_words (map string_bytes words.now) ≡ None }
{
    match local_line(alloc)?.try_get_matches_from(words) {
        Ok(matches) => local_told(alloc, &matches),
        Err(why) => Err(refusal(&why)),
    }
}

/// What `local` is told by what `clap` found. `Usage` only if a word stands for nothing, or the user is no number.
fn local_told(alloc: Global, matches: &ArgMatches<'_>) -> Result<LocalWords, WordsError>
    ensures ok { IfOk result (λ told. local_told_by (rows_of (found_of matches.now)) ≡ Some told) }
    ensures usage { result ≡ Err WordsError.Usage → local_told_by (rows_of (found_of matches.now)) ≡ None }
{
    let Some(dir) = matches.get_str("dir") else {
        return Err(WordsError::Usage);
    };
    let Some(uid) = uid_of(matches.get_str("uid")) else {
        return Err(WordsError::Usage);
    };
    match delivery_told(alloc, matches) {
        Ok(words) => Ok(LocalWords {
            dir: ByteText::from_slice(alloc, dir.as_bytes())?,
            words,
            uid,
        }),
        Err(why) => Err(why),
    }
}

/// What the eight words stand for. `Usage` only if one of them doesn't begin with `=`, or has a bad escape.
fn delivery_told(alloc: Global, matches: &ArgMatches<'_>) -> Result<DeliveryWordsData, WordsError>
    ensures ok { IfOk result (λ words. delivery_told (rows_of (found_of matches.now)) ≡ Some words) }
    ensures usage { result ≡ Err WordsError.Usage → delivery_told (rows_of (found_of matches.now)) ≡ None }
{
    Ok(DeliveryWordsData {
        user: told_as(alloc, "user", matches)?,
        home: told_as(alloc, "home", matches)?,
        local: told_as(alloc, "local", matches)?,
        dash: told_as(alloc, "dash", matches)?,
        ext: told_as(alloc, "ext", matches)?,
        domain: told_as(alloc, "domain", matches)?,
        sender: told_as(alloc, "sender", matches)?,
        line: told_as(alloc, "line", matches)?,
    })
}

/// What the word with this name stands for.
fn told_as(alloc: Global, id: &str, matches: &ArgMatches<'_>) -> Result<ByteText, WordsError>
    ensures ok { IfOk result (λ bytes. told_as id.now (rows_of (found_of matches.now)) ≡ Some bytes) }
    ensures usage { result ≡ Err WordsError.Usage → told_as id.now (rows_of (found_of matches.now)) ≡ None }
{
    match matches.get_str(id) {
        Some(word) => marked(alloc, word.as_bytes()),
        None => Err(WordsError::Usage),
    }
}

/// What a word stands for: what comes after its `=`, unescaped.
fn marked(alloc: Global, word: &[u8]) -> Result<ByteText, WordsError>
    ensures ok { IfOk result (λ bytes. marked word.now ≡ Some bytes) }
    ensures usage { result ≡ Err WordsError.Usage → marked word.now ≡ None }
{
    let Some((first, text)) = word.split_first() else {
        return Err(WordsError::Usage);
    };
    if *first != b'=' {
        return Err(WordsError::Usage);
    }
    match unescape(alloc, text) {
        Ok(bytes) => Ok(ByteText::from_vec(bytes)),
        Err(EscapeError::Bad { .. }) => Err(WordsError::Usage),
        Err(EscapeError::Memory) => Err(WordsError::Memory),
    }
}
