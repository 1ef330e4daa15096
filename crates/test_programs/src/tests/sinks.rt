// The sink in memory.

use super::fields::numbers;
use outside::{Gave, MemSink, Sink};
use std::alloc::Global;

/// What is given, what comes of it, what the sink took so far, and its count of failures. The second giving is planned to
/// fail, and there is room for five bytes.
const ROWS: &str = "ab | done | ab | 0
c | failed | ab | 1
d | done | abd | 1
# two of them fit
efg | failed | abdef | 2
 | done | abdef | 2
h | failed | abdef | 3
 | done | abdef | 3";

/// What comes of a giving, as a text; None for any other text.
pub fn gave_of(text: &str) -> Option<Gave> {
    match text {
        "done" => Some(Gave::Done),
        "failed" => Some(Gave::Failed),
        _ => None,
    }
}

/// Whether the sink does what the row says.
fn takes(sink: &mut MemSink, row: &str) -> bool {
    let (bytes, rest) = row.split_once(" | ").unwrap_or((row, ""));
    let (gave, rest) = rest.split_once(" | ").unwrap_or((rest, ""));
    let (taken, faults) = rest.split_once(" | ").unwrap_or((rest, ""));
    Some(sink.give(bytes.as_bytes())) == gave_of(gave)
        && sink.taken() == taken.as_bytes()
        && sink.faults() == faults.parse::<u64>().unwrap_or(u64::MAX)
}

/// Whether the sink does what the rows say. A line that begins with `#` is a comment.
fn takes_rows(sink: &mut MemSink) -> bool {
    for row in ROWS.lines() {
        if !row.starts_with('#') && !takes(sink, row) {
            return false;
        }
    }
    true
}

/// How many bytes a sink has taken of pieces of 1,000 bytes when one first fails.
fn taken_of(sink: &mut MemSink, pieces: usize) -> usize {
    for _ in 0..pieces {
        if sink.give(&[b'x'; 1000]) == Gave::Failed {
            return sink.taken().len();
        }
    }
    sink.taken().len()
}

/// Whether a new sink with this room, of which these givings are planned to fail, does what the rows say, or is filled.
fn holds(alloc: Global, room: usize, fails: &str, are_rows: bool) -> bool {
    match MemSink::new(alloc, room, numbers(alloc, fails)) {
        Ok(mut sink) => {
            let is_so = if are_rows {
                takes_rows(&mut sink)
            } else {
                taken_of(&mut sink, 100) == room
            };
            drop(sink);
            is_so
        }
        Err(_) => false,
    }
}

#[test]
fn a_sink_keeps_what_it_took(rt: HostRuntime) {
    assert!(rt; holds(rt.alloc(), 5, "2", true));
}

#[test]
fn a_sink_takes_as_much_as_it_has_room_for(rt: HostRuntime) {
    assert!(rt; holds(rt.alloc(), 90_500, "", false));
}
