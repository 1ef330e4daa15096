//! Plays what the files of the folder that it runs in say, in name order, with `qmail` over forms in memory, and prints what
//! came of it. Forms of a script, of a stop and of a row are data, so that a new one costs no proof.
//!
//! `NAME.play` is a script. The line printed of it is `NAME ok` if what the script prints is the text of `NAME.out`, nothing is
//! logged and the exit status is 0, and else `NAME differs`.
//!
//! `NAME.stops` is a script that is cut before each of its events, and at the end, by a stop of the machine or of a program. Its
//! lines are empty, comments that begin with `#`, or
//!
//! - `opening LINE`: a line of the script that stands before all others, and is no event.
//! - `play LINE`: a further line of it. Its events are those that a trace of the whole script prints.
//! - `as EVENT : LINE`: the line that makes this event by itself; none if it is `-`. Any other event is made by a step of its
//!   actor. All events, made so, must be the same.
//! - `case NAME`: the lines from here to the next `case` are of this case alone. The lines before all cases are of each.
//! - `stop LINE`: a stop. The case is played with each of its stops, before each event and at the end. `{actor}` at its end is the
//!   actor of the event before it. By ` | {next}` at its end the next event is made after it, and the case is then played before
//!   each file call that may fail and before nothing else.
//! - `then LINE`: a line that is played after the stop. `{stop}` is the stop itself, and another name in braces stands for the
//!   lines that are so of that name then.
//! - `from EVENT : NAME : LINES`: these lines, parted by ` | `, are so of this name from an event on that begins so, or
//!   `from the start`. The lines of one name are taken in turn, each from the first such event on after that of the line before.
//! - `prints LINE`: a line that must be printed then, with names in braces as after `then`. These are all that is printed.
//! - `each LINE`, `free LINE`, `never LINE`, `pairs LINE : LINE`: in place of `prints`. The last line `pid` must have the number that
//!   is so of `pids`, or 0. Each line that is printed after it must be like one of the lines `each` or `free`. If `accepted` is
//!   `yes` something must be like each of the lines `each`, and else nothing; nothing must be like a line `never`; and as much must
//!   be like the second line of `pairs` as like the first, or more. `*` is any part of a first word between points, or any rest of
//!   a line.
//!
//! If `checked` has lines `from`, nothing is asked while it is empty. The line printed of a case says how many stops it has, after
//! a line for each stop that goes otherwise.
//!
//! `NAME.rows` are calls of `qmail`, or scripts, with what must come of them. Each begins with a line `row`; the lines before all rows are of
//! each row that has no line of that name. Its lines are empty, comments, or begin with
//!
//! - `words`: the words of the call; `pid`, `moments`: the number of its process, and what its clock tells; `room`: how many bytes
//!   the output and the log have room for.
//! - `dirs`: the directories of the disk, else those of a queue, except the one after `without`. `names`: the names on it, each of
//!   an empty file. `disk_fails`: which of its calls fail, counted from 1 over all but `close`. `lacks`: for which it has no memory.
//! - `message`, `envelope`: the pieces in which the sources give them; `message_fails`: which takings of the message fail;
//!   `out_fails`: which givings to the output do.
//! - `steady`: byte by byte the same sources must lead to the same file calls and answers.
//! - `status`, `out`, `log`, `left`: the exit status that must come, what the output and the log must have taken, and which names
//!   must be left. `ends`, in place of `out`: with what the output must end.
//!
//! or of a script with
//!
//! - `opening LINE`, `play LINE`: a line of it, as in a file of stops.
//! - `told LINE`: a line that must be printed. With a trace these are all lines, except for the events that are no end and make no
//!   name in `home` nor take one away.
//! - `rests yes` or `rests no`: the lines `told` are all that is printed from the last line `pid` on, and the event before it must be
//!   the end of an idle turn. Each message that is shown must then be preprocessed, have a record that reads `T`, and wait for its next
//!   retry on each channel on which one does, as the events say, with nothing in flight; or, after `no`, this must not be so. `cat` of
//!   both channel files of such a message stands after `show`.
//!
//! Pieces and directories are parted by ` | `, and words, numbers and names by spaces. In bytes, `%` and two hexadecimal digits
//! are one byte, and `%*` is the byte of the line `times`, as often as it says. The line printed of the file says how many rows
//! came as they should, after those that didn't.
//!
//! Then threads of `work` meet at the gate, and `meeting ok` is printed if all of them were held there at once, and one then came to
//! its next mail while another one's mail was still held.
//!
//! `NAME.sh` is a script of sh(1), played at last. The line printed of it is `NAME ok` if it ends with 0 and prints the text of
//! `NAME.out`, and else `NAME differs`. Its parent is this same program, which does what `qmail` does if it is told words: so there
//! `/proc/$PPID/exe` is `qmail` itself, over real processes and real directories.
#![tactic(auto)]

mod calling;
mod crowded_disk;
mod disks;
mod fields;
mod meeting;
mod passes;
mod plays;
mod rests;
mod rows;
mod shells;
mod stages;
mod stops;
mod survivors;
mod told;

use host_streams::status_of;
use meeting::is_met;
use plays::prints;
use qmail_process::{run, words_of};
use qmail_top::Qmail;
use rows::make_rows;
use shells::shell_prints;
use std::process::ExitCode;
use std::sync::Wait;
use std::thread::Threads;
use std::{fs, io};
use stops::stop_everywhere;

fn main(rt: HostRuntime) -> ExitCode {
    let called = match words_of(&rt, rt.alloc()) {
        Ok(words) => {
            if words.is_empty() {
                Ok(play_folder(&rt, &rt))
            } else {
                run(&Qmail, &rt, rt, rt.alloc(), &words)
            }
        }
        Err(why) => Err(why),
    };
    ExitCode::from(status_of(called))
}

/// Plays what the folder has, and answers the exit status: 1 if something of it can't be read or printed.
fn play_folder<H: Threads + Wait + Sync>(rt: &HostRuntime, handle: &H) -> u8 {
    match play_each(rt, handle) {
        Ok(()) => 0,
        Err(_) => 1,
    }
}

/// Plays what the folder has, and lets threads meet.
fn play_each<H: Threads + Wait + Sync>(rt: &HostRuntime, handle: &H) -> io::Result<()> {
    play_all(rt, ".play")?;
    stop_all(rt)?;
    make_all(rt, handle)?;
    let met = if is_met(rt, handle)? { "ok" } else { "differs" };
    println!(rt; "meeting {met}")?;
    play_all(rt, ".sh")
}

/// Plays each script with this ending, whose other file has what it prints.
fn play_all(rt: &HostRuntime, ending: &str) -> io::Result<()> {
    for name in &names_of(rt, ending)? {
        let verdict = if plays_as_expected(rt, name, ending)? {
            "ok"
        } else {
            "differs"
        };
        println!(rt; "{name} {verdict}")?;
    }
    Ok(())
}

/// Plays each script that is cut.
fn stop_all(rt: &HostRuntime) -> io::Result<()> {
    for name in &names_of(rt, ".stops")? {
        stop_everywhere(rt, name, &text_of(rt, name, ".stops")?)?;
    }
    Ok(())
}

/// Makes the calls of each file of rows.
fn make_all<H: Threads + Wait + Sync>(rt: &HostRuntime, handle: &H) -> io::Result<()> {
    for name in &names_of(rt, ".rows")? {
        make_rows(rt, handle, name, &text_of(rt, name, ".rows")?)?;
    }
    Ok(())
}

/// The names of the files with this ending, without it, in byte order.
fn names_of(rt: &HostRuntime, ending: &str) -> io::Result<Vec<String>> {
    let mut names = Vec::new(rt.alloc());
    for entry in fs::read_dir(rt, ".")? {
        if let Some(name) = entry?.file_name().strip_suffix(ending) {
            names.push(String::from_str(rt.alloc(), name)?)?;
        }
    }
    names.sort_unstable();
    Ok(names)
}

/// Whether the script of this name prints what it should.
fn plays_as_expected(rt: &HostRuntime, name: &str, ending: &str) -> io::Result<bool> {
    let expected = read(rt, name, ".out")?;
    if ending == ".sh" {
        return shell_prints(rt, name, &expected);
    }
    let script = read(rt, name, ending)?;
    prints(rt, script, &expected)
}

/// The bytes of the file with this name and ending.
fn read(rt: &HostRuntime, name: &str, ending: &str) -> io::Result<Vec<u8>> {
    fs::read(rt, path_of(rt, name, ending)?.as_str())
}

/// The text of the file with this name and ending.
fn text_of(rt: &HostRuntime, name: &str, ending: &str) -> io::Result<String> {
    fs::read_to_string(rt, path_of(rt, name, ending)?.as_str())
}

/// The path of the file with this name and ending.
fn path_of(rt: &HostRuntime, name: &str, ending: &str) -> io::Result<String> {
    Ok(format!(in rt.alloc(); "{name}{ending}")?)
}
