// Scripts that are stopped before each of their events, and at the end, and what is printed afterwards.

use crate::fields::{are_well_formed, has_field};
use crate::plays::{printed, prints};
use crate::stages::{now, push_filled};
use crate::survivors::are_accounted;
use mail_bytes::Memory;
use std::alloc::Global;
use std::io;

/// The names that lines of a file begin with.
const NAMES: [&str; 12] = [
    "opening", "play", "as", "case", "stop", "from", "then", "prints", "each", "free", "never",
    "pairs",
];

/// What ends a stop that has the next event made after it.
const NEXT: &str = " | {next}";

/// The second words of events that are file calls and may fail.
const CALLS: [&str; 11] = [
    "create", "open", "read", "write", "append", "truncate", "sync", "link", "unlink", "stat",
    "next",
];

/// Plays the script of a file line by line, and then each of its cases, with each of its stops before each event. What is
/// printed is that all is well, or what goes otherwise first.
pub(crate) fn stop_everywhere(rt: &HostRuntime, file: &str, text: &str) -> io::Result<()> {
    let (head, _) = text.split_once("\ncase ").unwrap_or((text, ""));
    let script = whole_script(rt.alloc(), head)?;
    let events = printed(rt, script)?;
    play_cases(rt, file, head, text, &events)
}

/// Plays the script of a file, which makes these events, line by line, and then each of its cases.
fn play_cases(
    rt: &HostRuntime,
    file: &str,
    head: &str,
    text: &str,
    events: &str,
) -> io::Result<()> {
    let is_right = are_well_formed(text, &NAMES) && is_made_line_by_line(rt, head, events)?;
    let verdict = if is_right {
        "line by line ok"
    } else {
        "line by line: differs"
    };
    println!(rt; "{file}: {verdict}")?;
    for case in text.split("\ncase ").skip(1) {
        play_case(rt, file, head, case, events)?;
    }
    Ok(())
}

/// The script of a file or a row, as a whole, with a trace of its events.
pub(crate) fn whole_script(alloc: Global, head: &str) -> Result<String, Memory> {
    let mut script = String::new(alloc);
    push_filled(&mut script, head, "opening", "", "")?;
    script.push_str("trace\n")?;
    push_filled(&mut script, head, "play", "", "")?;
    Ok(script)
}

/// Whether the events of a script, made line by line, are the same.
fn is_made_line_by_line(rt: &HostRuntime, head: &str, events: &str) -> io::Result<bool> {
    let mut script = String::new(rt.alloc());
    push_filled(&mut script, head, "opening", "", "")?;
    script.push_str("trace\n")?;
    for event in events.lines() {
        push_line(&mut script, head, event)?;
    }
    Ok(!events.is_empty() && prints(rt, script.into_bytes(), events.as_bytes())?)
}

/// Appends the line of a script that makes an event: the one that the file says, or a step of the event's actor.
fn push_line(script: &mut String, head: &str, event: &str) -> Result<(), Memory> {
    for line in head.lines() {
        if let Some((other, made)) = made_by(line)
            && other == event
        {
            return push_made(script, made);
        }
    }
    let (actor, _) = event.split_once(' ').unwrap_or((event, ""));
    script.push_str("step ")?;
    script.push_str(actor)?;
    script.push_str("\n")
}

/// The event that a line of a file says how to make, and the line that makes it.
fn made_by(line: &str) -> Option<(&str, &str)> {
    line.strip_prefix("as ")?.split_once(" : ")
}

/// Appends a line, or nothing if it is `-`.
fn push_made(script: &mut String, line: &str) -> Result<(), Memory> {
    if line == "-" {
        return Ok(());
    }
    script.push_str(line)?;
    script.push_str("\n")
}

/// Plays a case with each of its stops, and prints that all is well, or at which stop and before which event it isn't.
fn play_case(rt: &HostRuntime, file: &str, head: &str, case: &str, events: &str) -> io::Result<()> {
    let (name, _) = case.split_once('\n').unwrap_or((case, ""));
    let lines = format!(in rt.alloc(); "{head}\n# {case}")?;
    play_stops(rt, file, name, &lines, events)
}

/// The same for the case of this name, of which these are the lines.
fn play_stops(
    rt: &HostRuntime,
    file: &str,
    name: &str,
    lines: &str,
    events: &str,
) -> io::Result<()> {
    let mut stops = 0u64;
    for line in lines.lines() {
        if let Some(stop) = line.strip_prefix("stop ") {
            let wrong = first_wrong(rt, lines, stop, events)?;
            tell(rt, file, name, stop, &wrong)?;
            stops = stops.saturating_add(1);
        }
    }
    println!(rt; "{file}: {name}: {stops} stops")
}

/// Prints before which event a stop goes otherwise first, if there is one.
fn tell(rt: &HostRuntime, file: &str, case: &str, stop: &str, wrong: &str) -> io::Result<()> {
    if wrong.is_empty() {
        return Ok(());
    }
    println!(rt; "{file}: {case}: {stop}: otherwise before: {wrong}")
}

/// Before which event a stop goes otherwise first; nothing if before none, nor at the end.
fn first_wrong(rt: &HostRuntime, lines: &str, stop: &str, events: &str) -> io::Result<String> {
    let mut past = String::new(rt.alloc());
    let mut script = String::new(rt.alloc());
    for event in events.lines() {
        if !is_right(rt, lines, stop, &past, event, &script)? {
            return Ok(String::from_str(rt.alloc(), event)?);
        }
        past.push_str(event)?;
        past.push_str("\n")?;
        push_line(&mut script, lines, event)?;
    }
    let is_right = is_right(rt, lines, stop, &past, "", &script)?;
    Ok(String::from_str(rt.alloc(), if is_right { "" } else { "the end" })?)
}

/// Whether a stop after these events, which this script makes, and before the next one goes as the case says, if it asks anything
/// of it.
fn is_right(
    rt: &HostRuntime,
    lines: &str,
    stop: &str,
    past: &str,
    next: &str,
    script: &str,
) -> io::Result<bool> {
    if now(lines, "checked", past) == Some("") || !is_made_before(stop, next) {
        return Ok(true);
    }
    let stop = lines_of(rt.alloc(), lines, stop, past, next)?;
    goes_on(rt, lines, &stop, past, script)
}

/// Whether a stop is made before this event: a stop that has the next event made is made before file calls alone.
fn is_made_before(stop: &str, next: &str) -> bool {
    let deed = next.split(' ').nth(1).unwrap_or("");
    stop.strip_suffix(NEXT).is_none() || CALLS.iter().any(|call| *call == deed)
}

/// The lines of a stop after these events and before the next one.
fn lines_of(
    alloc: Global,
    head: &str,
    stop: &str,
    past: &str,
    next: &str,
) -> Result<String, Memory> {
    let mut lines = String::new(alloc);
    match stop.strip_suffix(NEXT) {
        Some(before) => {
            push_made(&mut lines, before)?;
            push_line(&mut lines, head, next)?;
        }
        None => push_stop(&mut lines, stop, past)?,
    }
    Ok(lines)
}

/// Appends a stop after these events, without an end of the line.
fn push_stop(lines: &mut String, stop: &str, past: &str) -> Result<(), Memory> {
    let Some(before) = stop.strip_suffix("{actor}") else {
        return lines.push_str(stop);
    };
    lines.push_str(before)?;
    lines.push_str(last_actor(past))
}

/// The actor of the last of these events; nothing if there is none.
fn last_actor(past: &str) -> &str {
    let events = past.strip_suffix("\n").unwrap_or(past);
    let (_, last) = events.rsplit_once("\n").unwrap_or(("", events));
    let (actor, _) = last.split_once(' ').unwrap_or((last, ""));
    actor
}

/// Whether what is played after these events and then this stop prints what the case says.
fn goes_on(
    rt: &HostRuntime,
    lines: &str,
    stop: &str,
    past: &str,
    script: &str,
) -> io::Result<bool> {
    let text = printed(rt, stopped(rt.alloc(), lines, stop, past, script)?)?;
    if has_field(lines, "each") {
        return Ok(are_accounted(lines, past, &text));
    }
    let mut expected = String::new(rt.alloc());
    push_filled(&mut expected, lines, "prints", stop, past)?;
    Ok(!expected.is_empty() && expected == text)
}

/// The script of the events so far, the stop, and what comes then.
fn stopped(
    alloc: Global,
    lines: &str,
    stop: &str,
    past: &str,
    script: &str,
) -> Result<String, Memory> {
    let mut whole = String::new(alloc);
    push_filled(&mut whole, lines, "opening", stop, past)?;
    whole.push_str(script)?;
    push_filled(&mut whole, lines, "then", stop, past)?;
    Ok(whole)
}
