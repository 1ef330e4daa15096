// What is wrong with escapes, records and scripts, in words.

use super::fields::none_is_wrong;
use envelope_records::RecordError;
use mail_bytes::EscapeError;
use script_lines::ScriptError;
use script_words::WordError;
use std::alloc::Global;
use std::fmt::Display;

/// Whether the error is told so.
fn is_told<E: Display>(alloc: Global, why: &E, text: &str) -> bool {
    match format!(in alloc; "{why}") {
        Ok(told) => told.as_str() == text,
        Err(_) => false,
    }
}

/// The first text of these rows that isn't its error's; None if each is.
fn first_wrong<E: Display>(alloc: Global, rows: &[(E, &'static str)]) -> Option<&'static str> {
    for (why, text) in rows {
        if !is_told(alloc, why, text) {
            return Some(text);
        }
    }
    None
}

/// Errors with their texts.
const ESCAPES: [(EscapeError, &str); 2] = [
    (
        EscapeError::Bad { at: 3 },
        "byte 3: `%` without two hexadecimal digits",
    ),
    (EscapeError::Memory, "out of memory"),
];

const RECORDS: [(RecordError, &str); 3] = [
    (
        RecordError::Letter { at: 20 },
        "byte 20: neither `T` nor `D`",
    ),
    (
        RecordError::Unended { at: 0 },
        "byte 0: a record without NUL",
    ),
    (RecordError::Memory, "out of memory"),
];

const WORDS: [(WordError, &str); 2] = [
    (WordError::Malformed, "not in the grammar of scripts"),
    (WordError::Memory, "out of memory"),
];

const SCRIPTS: [(ScriptError, &str); 3] = [
    (
        ScriptError::Line(0),
        "line 0: not in the grammar of scripts",
    ),
    (
        ScriptError::Line(18_446_744_073_709_551_615),
        "line 18446744073709551615: not in the grammar of scripts",
    ),
    (ScriptError::Memory, "out of memory"),
];

#[test]
fn errors_of_bytes_are_told_in_words(rt: HostRuntime) {
    none_is_wrong(&rt, first_wrong(rt.alloc(), &ESCAPES));
    none_is_wrong(&rt, first_wrong(rt.alloc(), &RECORDS));
}

#[test]
fn errors_of_scripts_are_told_in_words(rt: HostRuntime) {
    none_is_wrong(&rt, first_wrong(rt.alloc(), &WORDS));
    none_is_wrong(&rt, first_wrong(rt.alloc(), &SCRIPTS));
}
