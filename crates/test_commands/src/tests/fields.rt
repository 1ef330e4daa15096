// Rows as text: each has parts, parted by `; `, that begin with a name.

use mail_bytes::unescape;
use std::alloc::Global;

/// The name of a part, and what stands after it.
fn named(part: &str) -> (&str, &str) {
    part.split_once(' ').unwrap_or((part, ""))
}

/// What stands after this name; empty if the row has no such part.
pub fn field<'a>(row: &'a str, name: &str) -> &'a str {
    for part in row.split("; ") {
        let (found, rest) = named(part);
        if found == name {
            return rest;
        }
    }
    ""
}

/// The number after this name; 0 if there is none.
pub fn number(row: &str, name: &str) -> u64 {
    field(row, name).parse::<u64>().unwrap_or(0)
}

/// The numbers after this name, parted by spaces.
pub fn numbers(alloc: Global, row: &str, name: &str) -> Vec<u64> {
    let mut all = Vec::new(alloc);
    for word in field(row, name).split_whitespace() {
        if let Ok(number) = word.parse::<u64>() {
            let _ = all.push(number);
        }
    }
    all
}

/// Whether a part of the row that has this name has these numbers; or there is none.
pub fn are_numbers(alloc: Global, row: &str, name: &str, found: &[u64]) -> bool {
    let wanted = numbers(alloc, row, name);
    let is_so = wanted.is_empty() || wanted.as_slice() == found;
    drop(wanted);
    is_so
}

/// The bytes of a text of a row, in which `%` and two hexadecimal digits are one byte, and `{letters}` stands for as many
/// letters `a` as the part `letters` says.
pub fn bytes(alloc: Global, row: &str, text: &str) -> Vec<u8> {
    let Some((before, after)) = text.split_once("{letters}") else {
        return unescaped(alloc, text);
    };
    let mut all = unescaped(alloc, before);
    for _ in 0..number(row, "letters") {
        let _ = all.push(b'a');
    }
    let rest = unescaped(alloc, after);
    let _ = all.extend_from_slice(&rest);
    drop(rest);
    all
}

/// The bytes of a text without `{letters}`.
fn unescaped(alloc: Global, text: &str) -> Vec<u8> {
    match unescape(alloc, text.as_bytes()) {
        Ok(bytes) => bytes,
        Err(_) => Vec::new(alloc),
    }
}

/// Whether a text of a row stands for these bytes.
pub fn is_text(alloc: Global, row: &str, text: &str, found: &[u8]) -> bool {
    let wanted = bytes(alloc, row, text);
    let is_so = wanted.as_slice() == found;
    drop(wanted);
    is_so
}

/// Whether a part begins with one of these names.
fn is_known(part: &str, names: &[&str]) -> bool {
    let (name, _) = named(part);
    names.contains(&name)
}

/// Whether each part of a row begins with one of these names, and each `%` in it is part of an escape.
pub fn is_well_formed(alloc: Global, row: &str, names: &[&str]) -> bool {
    row.split("; ").all(|part| is_known(part, names)) && unescape(alloc, row.as_bytes()).is_ok()
}
