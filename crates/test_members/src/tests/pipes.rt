// The pipes that an actor takes from.

use super::sent::same;
use call_fs::Port;
use mail_bytes::Memory;
use std::alloc::Global;
use std::test::Fail;
use world_pipes::{Mouths, Taken};

/// What is given by a link of an actor, whether its writer ends then, how many bytes a taking may bring, and what four takings
/// bring: the bytes of each and `|`, `.` for the end, `-` for nothing.
struct Row {
    given: &'static [&'static [u8]],
    ends: bool,
    most: usize,
    taken: &'static [u8],
}

/// All at once; piece by piece, with a last one that is short, and with one that is full; an end without bytes, and neither.
const ROWS: [Row; 5] = [
    Row {
        given: &[b"ab", b"", b"c"],
        ends: false,
        most: 8,
        taken: b"abc|---",
    },
    Row {
        given: &[b"abcd", b"e"],
        ends: true,
        most: 2,
        taken: b"ab|cd|e|.",
    },
    Row {
        given: &[b"abcd"],
        ends: true,
        most: 2,
        taken: b"ab|cd|..",
    },
    Row {
        given: &[],
        ends: true,
        most: 2,
        taken: b"....",
    },
    Row {
        given: &[],
        ends: false,
        most: 2,
        taken: b"----",
    },
];

/// Puts down what a taking brought.
fn put(seen: &mut Vec<u8>, taken: Option<Taken>) -> Result<(), Memory> {
    match taken {
        Some(Taken::Bytes(bytes)) => {
            seen.extend_from_slice(bytes.as_slice())?;
            seen.extend_from_slice(b"|")
        }
        Some(Taken::End) => seen.extend_from_slice(b"."),
        None => seen.extend_from_slice(b"-"),
    }
}

/// Gives these by the link to the cleaner.
fn give_all(mouths: &mut Mouths, given: &[&[u8]]) -> Result<(), Memory> {
    for bytes in given {
        mouths.make_room(Port::Clean, bytes.len())?;
        mouths.give(Port::Clean, bytes);
    }
    Ok(())
}

/// What four takings by that link bring.
fn take_all(alloc: Global, mouths: &mut Mouths, most: usize) -> Result<Vec<u8>, Memory> {
    let mut seen = Vec::new(alloc);
    for _ in 0..4 {
        let taken = mouths.take(alloc, Port::Clean, most)?;
        put(&mut seen, taken)?;
    }
    Ok(seen)
}

/// What the takings of a row bring.
fn play(alloc: Global, row: &Row) -> Result<Vec<u8>, Memory> {
    let mut mouths = Mouths::new(alloc, 2)?;
    give_all(&mut mouths, row.given)?;
    if row.ends {
        mouths.close(Port::Clean);
    }
    take_all(alloc, &mut mouths, row.most)
}

/// Whether they are as the row says.
fn is_right(alloc: Global, row: &Row) -> bool {
    match play(alloc, row) {
        Ok(seen) => same(seen.as_slice(), row.taken),
        Err(_) => false,
    }
}

/// Which row goes otherwise first; none if all go so.
fn first_wrong(alloc: Global, rows: &[Row]) -> Option<usize> {
    for (at, row) in rows.iter().enumerate() {
        if !is_right(alloc, row) {
            return Some(at);
        }
    }
    None
}

#[test]
fn what_was_given_is_taken(rt: HostRuntime) -> Result<(), Fail> {
    assert_eq!(rt; first_wrong(rt.alloc(), &ROWS), None);
    Ok(())
}
