//! Prints the message that returns a bounce file, for bench/bounce.sh.
//!
//! The words of its command line are the controls bouncefrom, bouncehost, doublebounceto and doublebouncehost, the sender of
//! the message that is returned, the moment, that message, and then an address and a report for each recipient. It exits with
//! 0; with 1 if nothing is returned, or it can't be printed; with 51 if out of memory; and with 100 if the words are others.
//!
//! Tests of what the sender stands on: its slots, passes, marks and jobs, the texts of notes, bounces and lines of its log, and how
//! notes are written and messages returned, step by step. They stand in a crate of their own, with nothing else in it, so that
//! the crates that they call are proved without them. Each test is data: rows or steps with the answers that are expected, which
//! few functions play.
#![tactic(auto)]

#[cfg(test)]
mod tests;

ghost use Rattle.std.specs.Prelude.{IfSome};
ghost use Rattle.mail_bytes.specs.Moments.{IsMoment};

use bounce_record::{Bounce, bounce_message, note};
use mail_bytes::{LAST_MOMENT, Memory, undec};
use std::alloc::Global;
use std::process::ExitCode;
use std::{env, str};

/// The program's entry.
fn main(rt: HostRuntime) -> ExitCode {
    match run(&rt, rt.alloc()) {
        Ok(status) => ExitCode::from(status),
        Err(_) => ExitCode::from(51),
    }
}

/// Prints the bounce that the words tell of, and answers the exit status.
fn run(rt: &HostRuntime, alloc: Global) -> Result<u8, Memory> {
    let words = words_of(rt, alloc)?;
    let [
        from,
        host,
        double_to,
        double_host,
        sender,
        moment,
        message,
        notes @ ..,
    ] = words.as_slice()
    else {
        return Ok(100);
    };
    let Some(moment) = moment_of(moment) else {
        return Ok(100);
    };
    let file = file_of(alloc, notes)?;
    let bounce = bounce_message(
        alloc,
        from.as_bytes(),
        host.as_bytes(),
        double_to.as_bytes(),
        double_host.as_bytes(),
        sender.as_bytes(),
        file.as_slice(),
        message.as_bytes(),
        moment,
    )?;
    Ok(told(rt, bounce.as_ref()))
}

/// The words after the program's name; none if one isn't UTF-8.
fn words_of(rt: &HostRuntime, alloc: Global) -> Result<Vec<String>, Memory> {
    match env::args(rt) {
        Ok(words) => words.skip(1).collect(alloc),
        Err(_) => Ok(Vec::new(alloc)),
    }
}

/// The moment that a word is.
fn moment_of(word: &String) -> Option<u64>
    ensures { IfSome result IsMoment }
{
    let moment = undec(word.as_bytes())?;
    if moment > LAST_MOMENT {
        return None;
    }
    Some(moment)
}

/// The bounce file of these addresses and reports, by turns.
fn file_of(alloc: Global, notes: &[String]) -> Result<Vec<u8>, Memory> {
    let mut file = Vec::new(alloc);
    for pair in notes.chunks_exact(2) {
        if let [address, report] = pair {
            let note = note(alloc, address.as_bytes(), report.as_bytes())?;
            file.extend_from_slice(&note)?;
        }
    }
    Ok(file)
}

/// Prints the text of a bounce, and answers the exit status.
fn told(rt: &HostRuntime, bounce: Option<&Bounce>) -> u8 {
    let Some(bounce) = bounce else {
        return 1;
    };
    let Ok(text) = str::from_utf8(bounce.text.as_slice()) else {
        return 1;
    };
    if print!(rt; "{text}").is_ok() { 0 } else { 1 }
}
