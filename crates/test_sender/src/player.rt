// Plays a run.
ghost use Rattle.std.specs.Prelude.{◌≡◌, true};

use crate::lines::{Line, control_file, got_of, read_line, write_piece};
use crate::needs::{put_escaped, write_marks, write_need};
use crate::trouble::Trouble;
use call_fs::{Answer, FsError, Got, Ready};
use mail_bytes::{LAST_MOMENT, unescape};
use send_core::Sender;
use send_jobs::Channel;
use std::alloc::Global;

/// Plays the lines of a run by a new sender of so many turns; the file has other runs that they may name. If one goes wrong,
/// tells which, from 1, and why; what is found in place of what is wanted is written.
pub(crate) fn play(
    alloc: Global,
    file: &str,
    turns: Option<u64>,
    lines: &str,
    found: &mut Vec<u8>,
) -> Result<(), (u64, Trouble)> {
    match Sender::new(alloc, turns) {
        Ok(mut sender) => {
            let end = play_all(alloc, &mut sender, file, lines, found);
            drop(sender);
            end
        }
        Err(_) => Err((0, Trouble::Memory)),
    }
}

/// Plays them by this sender.
fn play_all(
    alloc: Global,
    sender: &mut Sender,
    file: &str,
    lines: &str,
    found: &mut Vec<u8>,
) -> Result<(), (u64, Trouble)> {
    let mut log = Vec::new(alloc);
    let end = play_each(alloc, sender, &mut log, file, lines, found);
    drop(log);
    end
}

/// Plays them, and writes the lines that it should log.
fn play_each(
    alloc: Global,
    sender: &mut Sender,
    log: &mut Vec<u8>,
    file: &str,
    lines: &str,
    found: &mut Vec<u8>,
) -> Result<(), (u64, Trouble)> {
    let mut at: u64 = 0;
    for line in lines.split('\n') {
        at = at.saturating_add(1);
        if let Err(trouble) = script_lines(alloc, sender, log, file, line, found) {
            return Err((at, trouble));
        }
    }
    match logs(alloc, sender, log, found) {
        Ok(()) => Ok(()),
        Err(trouble) => Err((at, trouble)),
    }
}

/// Plays a line, or the lines of the run that it names.
fn script_lines(
    alloc: Global,
    sender: &mut Sender,
    log: &mut Vec<u8>,
    file: &str,
    line: &str,
    found: &mut Vec<u8>,
) -> Result<(), Trouble> {
    let Some(name) = line.strip_prefix("as in ") else {
        return play_line(alloc, sender, log, line, found);
    };
    let Some(lines) = lines_of(file, name) else {
        return Err(Trouble::Malformed);
    };
    for line in lines.split('\n') {
        play_line(alloc, sender, log, line, found)?;
    }
    Ok(())
}

/// The lines of the run of this name.
fn lines_of<'a>(file: &'a str, name: &str) -> Option<&'a str> {
    for run in file.split("\nrun ") {
        if let Some((head, lines)) = run.split_once('\n') {
            if head == name {
                return Some(lines);
            }
        }
    }
    None
}

/// Plays a line, after which the log should have what this text has then.
fn play_line(
    alloc: Global,
    sender: &mut Sender,
    log: &mut Vec<u8>,
    line: &str,
    found: &mut Vec<u8>,
) -> Result<(), Trouble> {
    if line.is_empty() || line.starts_with('#') {
        return Ok(());
    }
    if let Some(text) = line.strip_prefix("log ") {
        log.extend_from_slice(text.as_bytes())?;
        log.push(b'\n')?;
        return Ok(());
    }
    logs(alloc, sender, log, found)?;
    if line == "clear" {
        sender.clear_log();
        log.clear();
        return Ok(());
    }
    if let Some(told) = told_of(sender, line) {
        return stands(told);
    }
    if let Some(text) = line.strip_prefix("marks ") {
        return waits(alloc, sender, text, found);
    }
    play_step(alloc, sender, line, found)
}

/// Whether what a line tells of where the sender stands is so; `None` if it tells nothing of that.
fn told_of(sender: &Sender, line: &str) -> Option<bool> {
    match line {
        "between" => Some(sender.is_between()),
        "within" => Some(!sender.is_between()),
        _ => None,
    }
}

/// Refuses what isn't so.
fn stands(is_so: bool) -> Result<(), Trouble> {
    if is_so { Ok(()) } else { Err(Trouble::Stands) }
}

/// Refuses other marks that are to be made than those of a line.
fn waits(alloc: Global, sender: &Sender, wanted: &str, found: &mut Vec<u8>) -> Result<(), Trouble> {
    let (channel, name) = match wanted.as_bytes().first() {
        Some(b'l') => (Channel::Local, "local"),
        _ => (Channel::Remote, "remote"),
    };
    write_marks(alloc, found, name, sender.marks(channel))?;
    wants(found, wanted.as_bytes(), Trouble::Marks)
}

/// Refuses what is found if it isn't this; else clears it.
pub(crate) fn wants(found: &mut Vec<u8>, wanted: &[u8], trouble: Trouble) -> Result<(), Trouble> {
    if found.as_slice() == wanted {
        found.clear();
        return Ok(());
    }
    Err(trouble)
}

/// Refuses a log that isn't this text.
pub(crate) fn logs(
    alloc: Global,
    sender: &Sender,
    wanted: &[u8],
    found: &mut Vec<u8>,
) -> Result<(), Trouble> {
    let log = sender.log();
    if log == wanted {
        return Ok(());
    }
    put_escaped(alloc, found, log)?;
    Err(Trouble::Log)
}

/// Plays a line that is a step, or stands for some.
fn play_step(
    alloc: Global,
    sender: &mut Sender,
    line: &str,
    found: &mut Vec<u8>,
) -> Result<(), Trouble> {
    let Some(step) = read_line(line) else {
        return Err(Trouble::Malformed);
    };
    if let Some(what) = step.need.strip_prefix("searched ") {
        return search(alloc, sender, step, what, found);
    }
    if let Some(what) = step.need.strip_prefix("missing ") {
        return miss(alloc, sender, step, what, found);
    }
    match step.need {
        "idle" => searches(sender, step, true),
        "busy" => searches(sender, step, false),
        _ => makes_step(alloc, sender, step, found),
    }
}

/// Tells the sender the moment and what is ready. Refuses a sender whose next step is the search of `todo` in a turn in which
/// nothing else was done, or isn't, if that is otherwise.
fn searches(sender: &mut Sender, step: Line<'_>, wanted: bool) -> Result<(), Trouble> {
    sender.look(step.now.min(LAST_MOMENT), step.ready);
    stands(sender.is_searching() == wanted)
}

/// A word and a number.
fn counted(words: &str) -> Option<(&str, u64)> {
    let (word, number) = words.split_once(' ')?;
    Some((word, number.parse::<u64>().ok()?))
}

/// The directories of this name are searched from that one on, and have no name.
fn search(
    alloc: Global,
    sender: &mut Sender,
    step: Line<'_>,
    what: &str,
    found: &mut Vec<u8>,
) -> Result<(), Trouble> {
    let Some((dir, first)) = counted(what) else {
        return Err(Trouble::Malformed);
    };
    for split in first..23 {
        search_one(alloc, sender, step, dir, split, found)?;
    }
    Ok(())
}

/// The directory of this name and number is searched, and has no name.
fn search_one(
    alloc: Global,
    sender: &mut Sender,
    step: Line<'_>,
    dir: &str,
    split: u64,
    found: &mut Vec<u8>,
) -> Result<(), Trouble> {
    let need = format!(in alloc; "next {dir}/{split}")?;
    let end = refused_step(alloc, sender, step, need.as_str(), Answer::NoName, found);
    drop(need);
    end
}

/// The control files from this one on to that one are opened, and are missing.
fn miss(
    alloc: Global,
    sender: &mut Sender,
    step: Line<'_>,
    what: &str,
    found: &mut Vec<u8>,
) -> Result<(), Trouble> {
    let Some((first, end)) = counted(what) else {
        return Err(Trouble::Malformed);
    };
    let Ok(first) = first.parse::<u64>() else {
        return Err(Trouble::Malformed);
    };
    for at in first..end {
        miss_one(alloc, sender, step, at, found)?;
    }
    Ok(())
}

/// This control file is opened, and is missing.
fn miss_one(
    alloc: Global,
    sender: &mut Sender,
    step: Line<'_>,
    at: u64,
    found: &mut Vec<u8>,
) -> Result<(), Trouble> {
    let file = control_file(at);
    let need = format!(in alloc; "open control/{file} r")?;
    let missing = Answer::Refused(FsError::NotThere);
    let end = refused_step(alloc, sender, step, need.as_str(), missing, found);
    drop(need);
    end
}

/// Makes the step that a line says.
fn makes_step(
    alloc: Global,
    sender: &mut Sender,
    step: Line<'_>,
    found: &mut Vec<u8>,
) -> Result<(), Trouble> {
    looks(alloc, sender, step.now, step.ready, step.need, found)?;
    match step.came {
        Some(came) => comes(alloc, sender, came),
        None => Ok(()),
    }
}

/// Hands in what comes of a step.
fn comes(alloc: Global, sender: &mut Sender, came: &str) -> Result<(), Trouble>
    requires { sender.old.looked ≡ true }
{
    let (word, text) = came.split_once(' ').unwrap_or((came, ""));
    match unescape(alloc, text.as_bytes()) {
        Ok(bytes) => {
            let end = if word == "full" {
                comes_full(alloc, sender, &bytes)
            } else {
                hand_in(alloc, sender, word, text, &bytes)
            };
            drop(bytes);
            end
        }
        Err(_) => Err(Trouble::Malformed),
    }
}

/// Hands in a whole piece, by its text.
fn comes_full(alloc: Global, sender: &mut Sender, text: &[u8]) -> Result<(), Trouble>
    requires { sender.old.looked ≡ true }
{
    let mut piece = Vec::new(alloc);
    let end = match write_piece(&mut piece, text) {
        Ok(()) => hand_in(alloc, sender, "read", "", &piece),
        Err(_) => Err(Trouble::Memory),
    };
    drop(piece);
    end
}

/// Hands that in.
fn done(alloc: Global, sender: &mut Sender, got: Got<'_>) -> Result<(), Trouble>
    requires { sender.old.looked ≡ true }
{
    match sender.done(alloc, got) {
        Ok(()) => Ok(()),
        Err(_) => Err(Trouble::Memory),
    }
}

/// Hands in what comes of a step, by the word for it, the text after that, and the bytes that this stands for.
fn hand_in(
    alloc: Global,
    sender: &mut Sender,
    word: &str,
    text: &str,
    bytes: &[u8],
) -> Result<(), Trouble>
    requires { sender.old.looked ≡ true }
{
    match got_of(word, text, bytes) {
        Some(got) => done(alloc, sender, got),
        None => Err(Trouble::Malformed),
    }
}

/// Makes a step at the moment that a line says, of which that is needed and this comes.
fn refused_step(
    alloc: Global,
    sender: &mut Sender,
    step: Line<'_>,
    need: &str,
    answer: Answer,
    found: &mut Vec<u8>,
) -> Result<(), Trouble> {
    looks(alloc, sender, step.now, step.ready, need, found)?;
    done(alloc, sender, Got::File(answer, b""))
}

/// Tells the sender the moment and what is ready, and refuses what it needs if that isn't this.
pub(crate) fn looks(
    alloc: Global,
    sender: &mut Sender,
    now: u64,
    ready: Ready,
    need: &str,
    found: &mut Vec<u8>,
) -> Result<(), Trouble>
    ensures { sender.new.looked ≡ true }
{
    sender.look(now.min(LAST_MOMENT), ready);
    write_need(alloc, found, sender.need())?;
    wants(found, need.as_bytes(), Trouble::Needs)
}
