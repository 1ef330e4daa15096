// Rows as text: each has parts, parted by `; `, that begin with a name.

use mail_bytes::unescape;
use std::alloc::Global;
use std::fmt::Display;
use std::process::Abort;

/// Ends a test with what is wrong, if anything is.
pub fn none_is_wrong<W: Display + Drop>(rt: &impl Abort, wrong: Option<W>) {
    if let Some(wrong) = wrong {
        rt.panic(wrong);
    }
}

/// The name of a part, and what stands after it.
pub fn named(part: &str) -> (&str, &str) {
    part.split_once(' ').unwrap_or((part, ""))
}

/// What stands after this name; empty if the row has no such part.
pub fn field<'a>(row: &'a str, name: &str) -> &'a str {
    for part in row.split("; ") {
        let (found, rest) = named(part);
        if found == name {
            return rest;
        }
    }
    ""
}

/// The number after this name; if there is none, the second number.
pub fn number(row: &str, name: &str, other: u64) -> u64 {
    field(row, name).parse::<u64>().unwrap_or(other)
}

/// A number as decimal text; 0 for any other text.
pub fn number_of(text: &str) -> u64 {
    text.parse::<u64>().unwrap_or(0)
}

/// The bytes of a text in which `%` and two hexadecimal digits are one byte.
pub fn bytes(alloc: Global, text: &str) -> Vec<u8> {
    match unescape(alloc, text.as_bytes()) {
        Ok(bytes) => bytes,
        Err(_) => Vec::new(alloc),
    }
}

/// The bytes of the text after this name, as often as the number after `times` says; once if there is none.
pub fn repeated(alloc: Global, row: &str, name: &str) -> Vec<u8> {
    let once = bytes(alloc, field(row, name));
    let mut all = Vec::new(alloc);
    for _ in 0..number(row, "times", 1) {
        let _ = all.extend_from_slice(&once);
    }
    drop(once);
    all
}

/// Whether a part begins with one of these names.
fn is_known(part: &str, names: &[&str]) -> bool {
    let (name, _) = named(part);
    names.contains(&name)
}

/// Whether each part of a row begins with one of these names, and each `%` in it is part of an escape.
pub fn is_well_formed(alloc: Global, row: &str, names: &[&str]) -> bool {
    row.split("; ").all(|part| is_known(part, names)) && unescape(alloc, row.as_bytes()).is_ok()
}

/// The numbers of a text, parted by spaces.
pub fn numbers(alloc: Global, text: &str) -> Vec<u64> {
    let mut all = Vec::new(alloc);
    for word in text.split_whitespace() {
        if let Ok(number) = word.parse::<u64>() {
            let _ = all.push(number);
        }
    }
    all
}
