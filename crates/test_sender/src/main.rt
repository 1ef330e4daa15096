//! Plays each run of the sender in the files `NAME.run` of the folder that it runs in, in name order. The line printed of
//! a run is its name and `ok`, or what was wrong and in which line.
//!
//! A file has runs. A run begins with a line `run NAME`, or `run NAME: TURNS` if the sender ends after so many turns; each
//! starts a new sender. Its other lines are empty, comments that begin with `#`, or
//!
//! - `MOMENT READY NEED = CAME`: at this moment, with these links ready (`l` to the local spawner, `r` to the remote one, `lr`
//!   both, `-` none), the sender needs just this, and that comes of it. Without ` = CAME` nothing is handed in. A need to read
//!   shows the descriptor and the place, and the length if that isn't 8192. Of a read comes `read TEXT`, or `full TEXT` for 8192
//!   bytes: this text, its second byte as often as that takes.
//! - `MOMENT READY idle`, or `MOMENT READY busy`: then its next step is the search of `todo`, and it has done nothing else in
//!   this turn; or that isn't so.
//! - `between`, or `within`: it stands between two turns or has ended; or it doesn't.
//! - `marks CHANNEL N PLACE ..`: the marks that are to be made on this channel, `local` or `remote`, are at these places of these
//!   messages.
//! - `MOMENT READY searched DIR FROM`: each of the directories of this name from that one to the last, 22, is searched from
//!   its start, and has no name.
//! - `MOMENT READY missing FROM TO`: the control files from that one to the one before `TO`, counted from 0 in the order in
//!   which they are read, are opened in turn, and are missing.
//! - `log TEXT`: the step before logs this line, after those of the `log` lines before it. It logs no others.
//! - `clear`: the log is cleared.
//! - `as in NAME`: the lines of the run of that name in this file, which has no such line itself.
//!
//! Then it plays each run over a disk in the files `NAME.disk`: a new sender runs over a disk in memory on which message 1 is
//! queued, a step a second, with what plays the cleaner and the spawners. Each delivery is reported in the turn after its
//! request. A run begins with a line `run NAME: LETTER TURNS FIRST LAST = END`: each report has this letter, the sender ends
//! after so many turns, and what it needs at the end is this. The run is played once for each call of the disk from that one
//! to that one, counted from 1 over every call but `close`, which fails; of 0 none does. Its other lines are empty, comments,
//! or
//!
//! - `log TEXT`: the sender logs this line, after those of the `log` lines before it. It logs no others.
//! - `left NAME=BYTES`: this file is left at the end, and no other one of the message.
//!
//! In texts `%` and two hexadecimal digits stand for a byte.
//!
//! At last a sender runs over a table of answers that knows many messages, as many as the first word says, or else 300, each
//! with one recipient, in as many turns as the second word says, or else in enough. How many of these it has removed is
//! printed.
#![tactic(auto)]

mod crowd;
mod disk_lines;
mod disk_player;
mod disk_runs;
mod lines;
mod needs;
mod player;
mod queued;
mod trouble;

use crowd::removed;
use disk_player::play_disk;
use player::play;
use std::{env, fs, io};
use trouble::Trouble;

/// How many messages a crowd has.
const CROWD: u64 = 300;

fn main(rt: HostRuntime) -> io::Result<()> {
    let crowd = number_at(&rt, 1, CROWD)?;
    let turns = number_at(&rt, 2, crowd.saturating_mul(2).saturating_add(2))?;
    play_files(&rt, ".run")?;
    play_files(&rt, ".disk")?;
    let count = removed(rt.alloc(), crowd, turns);
    println!(rt; "crowd: {count} of {crowd} messages removed")
}

/// The number that the word at this place is, or else this one.
fn number_at(rt: &HostRuntime, place: usize, or_else: u64) -> io::Result<u64> {
    let Some(word) = env::args(rt)?.nth(place) else {
        return Ok(or_else);
    };
    Ok(word.parse::<u64>().unwrap_or(or_else))
}

/// Plays the files with this ending, in byte order.
fn play_files(rt: &HostRuntime, ending: &str) -> io::Result<()> {
    let mut names = Vec::new(rt.alloc());
    let end = match add_names(rt, &mut names, ending) {
        Ok(()) => play_named(rt, &mut names, ending),
        Err(error) => Err(error),
    };
    drop(names);
    end
}

/// Adds the names of the files with this ending, without it.
fn add_names(rt: &HostRuntime, names: &mut Vec<String>, ending: &str) -> io::Result<()> {
    for entry in fs::read_dir(rt, ".")? {
        if let Some(name) = entry?.file_name().strip_suffix(ending) {
            names.push(String::from_str(rt.alloc(), name)?)?;
        }
    }
    Ok(())
}

/// Plays the files of these names, in byte order.
fn play_named(rt: &HostRuntime, names: &mut Vec<String>, ending: &str) -> io::Result<()> {
    names.sort_unstable();
    for name in names.iter() {
        play_file(rt, name, ending)?;
    }
    Ok(())
}

/// Plays the runs of a file.
fn play_file(rt: &HostRuntime, name: &str, ending: &str) -> io::Result<()> {
    let path = format!(in rt.alloc(); "{name}{ending}")?;
    let text = fs::read_to_string(rt, path.as_str());
    drop(path);
    match text {
        Ok(text) => {
            let end = play_text(rt, name, ending, &text);
            drop(text);
            end
        }
        Err(error) => Err(error),
    }
}

/// Plays the runs of a file with this ending.
fn play_text(rt: &HostRuntime, name: &str, ending: &str, text: &str) -> io::Result<()> {
    for run in text.split("\nrun ").skip(1) {
        let (head, lines) = run.split_once('\n').unwrap_or((run, ""));
        let mut found = Vec::new(rt.alloc());
        let end = if ending == ".disk" {
            play_disk_run(rt, name, head, lines, &mut found)
        } else {
            play_run(rt, name, text, head, lines, &mut found)
        };
        drop(found);
        end?;
    }
    Ok(())
}

/// Plays a run of a file, and says what came of it.
fn play_run(
    rt: &HostRuntime,
    name: &str,
    file: &str,
    head: &str,
    lines: &str,
    found: &mut Vec<u8>,
) -> io::Result<()> {
    let (run, turns) = match head.split_once(": ") {
        Some((run, turns)) => (run, turns.parse::<u64>().ok()),
        None => (head, None),
    };
    match play(rt.alloc(), file, turns, lines, found) {
        Ok(()) => println!(rt; "{name}: {run} ok"),
        Err((line, trouble)) => tell(rt, name, run, ("line", line), trouble, found),
    }
}

/// Plays a run over a disk, and says what came of it.
fn play_disk_run(
    rt: &HostRuntime,
    name: &str,
    head: &str,
    lines: &str,
    found: &mut Vec<u8>,
) -> io::Result<()> {
    let (run, setting) = head.split_once(": ").unwrap_or((head, ""));
    match play_disk(rt.alloc(), setting, lines, found) {
        Ok(()) => println!(rt; "{name}: {run} ok"),
        Err((call, trouble)) => tell(rt, name, run, ("call", call), trouble, found),
    }
}

/// Says what is wrong with a run of a file, where, and what is found.
fn tell(
    rt: &HostRuntime,
    name: &str,
    run: &str,
    place: (&str, u64),
    trouble: Trouble,
    found: &[u8],
) -> io::Result<()> {
    let (what, at) = place;
    let (before, after) = trouble.words();
    let text = str::from_utf8(found).unwrap_or("");
    println!(rt; "{name}: {run}: {what} {at}: {before}{text}{after}")
}
