// Files of lines that each begin with a name.

use mail_bytes::{ByteText, unescape};
use std::alloc::Global;

/// What stands after this name in the first line that begins with it, if there is one.
fn after_name<'a>(lines: &'a str, name: &str) -> Option<&'a str> {
    for line in lines.lines() {
        let (first, rest) = line.split_once(' ').unwrap_or((line, ""));
        if first == name {
            return Some(rest);
        }
    }
    None
}

/// The same; the empty text if there is none.
pub(crate) fn field<'a>(lines: &'a str, name: &str) -> &'a str {
    after_name(lines, name).unwrap_or("")
}

/// Whether a line begins with this name.
pub(crate) fn has_field(lines: &str, name: &str) -> bool {
    after_name(lines, name).is_some()
}

/// The number after this name; 0 if there is none.
pub(crate) fn number(lines: &str, name: &str) -> u64 {
    field(lines, name).parse::<u64>().unwrap_or(0)
}

/// The numbers after this name, parted by spaces.
pub(crate) fn numbers(alloc: Global, lines: &str, name: &str) -> Vec<u64> {
    let mut all = Vec::new(alloc);
    for word in field(lines, name).split(' ') {
        if let Ok(number) = word.parse::<u64>() {
            let _ = all.push(number);
        }
    }
    all
}

/// The bytes of each part of the text after this name, parted by ` | `; none if the text is empty.
pub(crate) fn parts(alloc: Global, lines: &str, name: &str) -> Vec<ByteText> {
    let mut all = Vec::new(alloc);
    for part in field(lines, name).split(" | ") {
        if !part.is_empty() {
            let _ = all.push(ByteText::from_vec(bytes(alloc, lines, part)));
        }
    }
    all
}

/// The bytes that a text stands for: `%` and two hexadecimal digits are one byte, and `%*` is the byte that the line
/// `times` names, as often as it says.
pub(crate) fn bytes(alloc: Global, lines: &str, text: &str) -> Vec<u8> {
    let Some((before, after)) = text.split_once("%*") else {
        return unescaped(alloc, text);
    };
    let mut all = unescaped(alloc, before);
    put_times(&mut all, field(lines, "times"));
    let _ = all.extend_from_slice(&unescaped(alloc, after));
    all
}

/// The bytes of a text in which `%` and two hexadecimal digits are one byte.
fn unescaped(alloc: Global, text: &str) -> Vec<u8> {
    match unescape(alloc, text.as_bytes()) {
        Ok(bytes) => bytes,
        Err(_) => Vec::new(alloc),
    }
}

/// Puts the byte after the number at the end, as often as the number says.
fn put_times(all: &mut Vec<u8>, times: &str) {
    let (count, byte) = times.split_once(' ').unwrap_or(("", ""));
    let byte = byte.as_bytes().first().copied().unwrap_or(b'?');
    for _ in 0..count.parse::<usize>().unwrap_or(0) {
        let _ = all.push(byte);
    }
}

/// Whether each line begins with one of these names, and each `%` in it is part of an escape.
pub(crate) fn are_well_formed(lines: &str, names: &[&str]) -> bool {
    lines
        .lines()
        .all(|line| is_named(line, names) && is_escaped(line))
}

/// Whether a line is empty, a comment, or begins with one of these names.
fn is_named(line: &str, names: &[&str]) -> bool {
    let (first, _) = line.split_once(' ').unwrap_or((line, ""));
    first.is_empty() || first.starts_with('#') || names.contains(&first)
}

/// Whether each `%` is followed by two hexadecimal digits or by `*`.
fn is_escaped(line: &str) -> bool {
    line.split('%').skip(1).all(|after| after.starts_with('*') || are_digits(after.as_bytes()))
}

/// Whether a text begins with two hexadecimal digits.
fn are_digits(text: &[u8]) -> bool {
    match text {
        [first, second, ..] => first.is_ascii_hexdigit() && second.is_ascii_hexdigit(),
        _ => false,
    }
}
