// What changes at certain events.

use mail_bytes::Memory;

/// What is so of this name after these events: what its line `from the start` says, and then in turn what each further line of
/// it says from its event on, which is known by how it begins. `None` if the name has no line.
pub(crate) fn now<'a>(lines: &'a str, name: &str, past: &str) -> Option<&'a str> {
    let mut events = past.lines();
    let mut now = None;
    for line in lines.lines() {
        if let Some((start, value)) = stage_of(line, name) {
            if start != "the start" && !events.any(|event| event.starts_with(start)) {
                break;
            }
            now = Some(value);
        }
    }
    now
}

/// How the event begins from which on this line says what is so of this name, and what that is.
fn stage_of<'a>(line: &'a str, name: &str) -> Option<(&'a str, &'a str)> {
    let (start, rest) = line.strip_prefix("from ")?.split_once(" : ")?;
    let (other, value) = rest.split_once(" :")?;
    if other == name {
        Some((start, value.strip_prefix(' ').unwrap_or(value)))
    } else {
        None
    }
}

/// Appends what stands after this name in each line that begins with it, as a line. In place of `{stop}` stands the stop, and in
/// place of another name in braces the lines that are so of it after these events, parted by ` | `.
pub(crate) fn push_filled(
    text: &mut String,
    lines: &str,
    name: &str,
    stop: &str,
    past: &str,
) -> Result<(), Memory> {
    for line in lines.lines() {
        let (first, rest) = line.split_once(' ').unwrap_or((line, ""));
        if first == name {
            push_one(text, lines, rest, stop, past)?;
        }
    }
    Ok(())
}

/// Appends a line, or what stands in place of it.
fn push_one(
    text: &mut String,
    lines: &str,
    line: &str,
    stop: &str,
    past: &str,
) -> Result<(), Memory> {
    match name_in_braces(line) {
        Some("stop") => push_line(text, stop),
        Some(name) => push_parts(text, now(lines, name, past).unwrap_or("?")),
        None => push_line(text, line),
    }
}

/// The name that stands in braces, if a line is just that.
fn name_in_braces(line: &str) -> Option<&str> {
    line.strip_prefix('{')?.strip_suffix('}')
}

/// Appends each part of a text, as a line; nothing if it is empty.
fn push_parts(text: &mut String, parts: &str) -> Result<(), Memory> {
    for part in parts.split(" | ") {
        if !part.is_empty() {
            push_line(text, part)?;
        }
    }
    Ok(())
}

/// Appends a line.
fn push_line(text: &mut String, line: &str) -> Result<(), Memory> {
    text.push_str(line)?;
    text.push_str("\n")
}
