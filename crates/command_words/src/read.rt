// Words are read.
ghost use Rattle.std.specs.Prelude.{◌≡◌, ◌≢◌, Some, None, Err, true, false, IfOk, IfErr, IsTrue, map, string_bytes};
ghost use Rattle.clap.specs.Words.{app_of, found_of, is_simple, is_simple_and_free, kind_of, rows_of};
ghost use Rattle.clap.specs.declared.error.kind.ErrorKind.TheVariants.{OutOfMemory};
ghost use Rattle.std.specs.Option.{option_map};
ghost use Rattle.command_words.specs.Reads.{IsNoCommand, Reads, dir_words, env_of, is_on, play_words, queue_words, rspawn_words, spawner_told_by, told_by};
ghost use Rattle.command_words.specs.Numbers.{uid_of};

use crate::delivery::read_local;
use crate::lines::{audit_line, clean_line, lspawn_line, play_line, queue_line, rspawn_line};
use crate::maker::read_make;
use crate::receiver::read_qmqpd;
use crate::sender::read_send;
use crate::threads::read_work;
use crate::{Command, QueueWords, RspawnWords, WordsError};
use clap::error::ErrorKind;
use clap::{ArgMatches, Command as Line};
use mail_bytes::{ByteText, Memory, undec};
use std::alloc::Global;

/// The command that the words after the program's name are. `Usage` only if they are none: the first word names no
/// command, `clap` refuses the others, or a number isn't a decimal text without a leading zero, or isn't in its range.
/// `Memory` may come.
pub fn read_words(alloc: Global, words: &[String]) -> Result<Command, WordsError>
    ensures ok { IfOk result (Reads (map string_bytes words.now)) }
    ensures usage { result ≡ Err WordsError.Usage → IsNoCommand (map string_bytes words.now) }
{
    let Some(name) = words.first() else {
        return Err(WordsError::Usage);
    };
    match name.as_str() {
        "play" => read_play(alloc, words),
        "queue" => read_queue(alloc, words),
        "send" => Ok(Command::Send(read_send(alloc, words)?)),
        "audit" => Ok(Command::Audit(read_dir(alloc, audit_line(alloc)?, words)?)),
        "clean" => Ok(Command::Clean(read_dir(alloc, clean_line(alloc)?, words)?)),
        "lspawn" => Ok(Command::Lspawn(read_dir(alloc, lspawn_line(alloc)?, words)?)),
        "rspawn" => Ok(Command::Rspawn(read_rspawn(alloc, words)?)),
        "local" => Ok(Command::Local(read_local(alloc, words)?)),
        "make" => Ok(Command::Make(read_make(alloc, words)?)),
        "work" => Ok(Command::Work(read_work(alloc, words)?)),
        "qmqpd" => Ok(Command::Qmqpd(read_qmqpd(alloc, words)?)),
        _ => Err(WordsError::Usage),
    }
}

/// Reads the words after the name `play`.
fn read_play(alloc: Global, words: &[String]) -> Result<Command, WordsError>
    ensures ok { IfOk result (λ command. play_words (map string_bytes words.now) ≡ Some command) }
    ensures usage { result ≡ Err WordsError.Usage → play_words (map string_bytes words.now) ≡ None }
{
    match play_line(alloc).try_get_matches_from(words) {
        Ok(_) => Ok(Command::Play),
        Err(why) => Err(refusal(&why)),
    }
}

/// Reads the words after the name `queue`.
fn read_queue(alloc: Global, words: &[String]) -> Result<Command, WordsError>
    ensures ok { IfOk result (λ command. queue_words (map string_bytes words.now) ≡ Some command) }
    ensures usage { result ≡ Err WordsError.Usage → queue_words (map string_bytes words.now) ≡ None }
{
    let matches = match queue_line(alloc)?.try_get_matches_from(words) {
        Ok(matches) => matches,
        Err(why) => return Err(refusal(&why)),
    };
    match told_by(alloc, &matches)? {
        Some(queue) => Ok(Command::Queue(queue)),
        None => Err(WordsError::Usage),
    }
}

/// Reads the directory that the words after a name tell. The condition: the line is a simple command.
fn read_dir<'a>(alloc: Global, line: Line<'a>, words: &'a [String]) -> Result<ByteText, WordsError>
    requires free { IsTrue (is_simple_and_free (app_of line)) }
    requires simple { IsTrue (is_simple (app_of line)) }
    ensures ok { IfOk result (λ dir. dir_words (app_of line.entry) (map string_bytes words.now) ≡ Some dir) }
    ensures usage { result ≡ Err WordsError.Usage → dir_words (app_of line.entry) (map string_bytes words.now) ≡ None }
{
    let matches = match line.try_get_matches_from(words) {
        Ok(matches) => matches,
        Err(why) => return Err(refusal(&why)),
    };
    match matches.get_str("dir") {
        Some(dir) => Ok(ByteText::from_slice(alloc, dir.as_bytes())?),
        None => Err(WordsError::Usage),
    }
}

/// Reads the words after the name `rspawn`.
fn read_rspawn(alloc: Global, words: &[String]) -> Result<RspawnWords, WordsError>
    ensures ok { IfOk result (λ told. rspawn_words (map string_bytes words.now) ≡ Some told) }
    ensures usage { result ≡ Err WordsError.Usage → rspawn_words (map string_bytes words.now) ≡ None }
{
    match rspawn_line(alloc)?.try_get_matches_from(words) {
        Ok(matches) => spawner_told(alloc, &matches),
        Err(why) => Err(refusal(&why)),
    }
}

/// What `rspawn` is told by what `clap` found. `Usage` only if a word is missing.
pub(crate) fn spawner_told(
    alloc: Global,
    matches: &ArgMatches<'_>,
) -> Result<RspawnWords, WordsError>
    ensures ok { IfOk result (λ told. spawner_told_by (rows_of (found_of matches.now)) ≡ Some told) }
    ensures usage { result ≡ Err WordsError.Usage → spawner_told_by (rows_of (found_of matches.now)) ≡ None }
{
    let Some(dir) = matches.get_str("dir") else {
        return Err(WordsError::Usage);
    };
    let Some(program) = matches.get_str("program") else {
        return Err(WordsError::Usage);
    };
    Ok(RspawnWords {
        dir: ByteText::from_slice(alloc, dir.as_bytes())?,
        program: ByteText::from_slice(alloc, program.as_bytes())?,
    })
}

/// What `queue` is told by what `clap` found; None if a word is missing or the user is no number.
fn told_by(alloc: Global, matches: &ArgMatches<'_>) -> Result<Option<QueueWords>, Memory>
    ensures { IfOk result (λ queue. queue ≡ told_by (rows_of (found_of matches.now))) }
{
    let Some(env) = matches.get_str("env") else {
        return Ok(None);
    };
    let Some(dir) = matches.get_str("dir") else {
        return Ok(None);
    };
    let Some(uid) = uid_of(matches.get_str("uid")) else {
        return Ok(None);
    };
    Ok(Some(QueueWords {
        env: env_of(alloc, env)?,
        dir: ByteText::from_slice(alloc, dir.as_bytes())?,
        uid,
        bounce: is_on(matches.get_str("bounce")),
    }))
}

/// A refusal by `clap`.
pub(crate) fn refusal(why: &clap::Error) -> WordsError
    ensures { result ≡ WordsError.Usage → kind_of why.now ≢ OutOfMemory }
{
    match why.kind() {
        ErrorKind::OutOfMemory => WordsError::Memory,
        _ => WordsError::Usage,
    }
}

/// The file of the envelope; None for `-`.
fn env_of(alloc: Global, word: &str) -> Result<Option<ByteText>, Memory>
    ensures { IfOk result (λ env. env ≡ env_of word.now) }
{
    if word == "-" {
        return Ok(None);
    }
    Ok(Some(ByteText::from_slice(alloc, word.as_bytes())?))
}

/// The user's number, 0 if none is told. None exactly if the text is no decimal text of a u32.
pub(crate) fn uid_of(text: Option<&str>) -> Option<u32>
    ensures { result ≡ uid_of (option_map (λ s. s.now) text.entry) }
{
    let Some(text) = text else {
        return Some(0);
    };
    let number = undec(text.as_bytes())?;
    if number > u64::from(u32::MAX) {
        return None;
    }
    Some(number as u32)
}

/// Whether a flag stands.
fn is_on(value: Option<&str>) -> bool
    ensures { result ≡ is_on (option_map (λ s. s.now) value.entry) }
{
    match value {
        Some(value) => "true" == value,
        None => false,
    }
}
