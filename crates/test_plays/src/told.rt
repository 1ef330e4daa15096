// Scripts with the ends of actors, and with what else they print.

use crate::fields::has_field;
use crate::plays::printed;
use crate::rests::is_so;
use crate::stops::whole_script;
use std::io;
use std::str::Lines;

/// The second words of events that make a name or take it away.
const NAMING: [&str; 3] = ["create", "link", "unlink"];

/// Those of the other events, except for ends.
const UNTOLD: [&str; 17] = [
    "start", "command", "open", "read", "write", "append", "truncate", "sync", "close", "stat",
    "next", "give", "take", "report", "stop", "moment", "halt",
];

/// Whether the script of a row prints what the row says, except for the events that aren't told. If the row says whether messages
/// rest, what was shown last counts alone.
pub(crate) fn is_told(rt: &HostRuntime, lines: &str) -> io::Result<bool> {
    let script = whole_script(rt.alloc(), lines)?;
    let text = printed(rt, script)?;
    let is_right = if has_field(lines, "rests") {
        is_so(&text, lines)
    } else {
        tells(&text, lines)
    };
    drop(text);
    Ok(is_right)
}

/// Whether the lines of a text that are told are those that a row says, in order.
fn tells(text: &str, lines: &str) -> bool {
    let mut expected = lines.lines();
    for line in text.lines() {
        if is_one(line) && next_told(&mut expected) != Some(line) {
            return false;
        }
    }
    next_told(&mut expected).is_none()
}

/// What the next line says that tells something.
pub(crate) fn next_told<'a>(lines: &mut Lines<'a>) -> Option<&'a str> {
    lines.find_map(|line| line.strip_prefix("told "))
}

/// Whether a line is told: it is no event, or an end, or an event that makes a name in a home or takes it away.
fn is_one(line: &str) -> bool {
    let deed = line.split(' ').nth(1).unwrap_or("");
    if NAMING.contains(&deed) {
        return line.contains(" home/");
    }
    !UNTOLD.contains(&deed)
}
