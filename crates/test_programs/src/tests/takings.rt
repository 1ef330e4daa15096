// Taking more from a source than one call gives.

use super::fields::{none_is_wrong, numbers};
use super::sources::pieces;
use outside::{MemSource, Stopped, take_up_to};
use std::alloc::Global;

/// How many bytes are asked for, which come, and why no more.
type Row = (usize, &'static [u8], Stopped);

/// Of the pieces `ab`, `cde` and `f`, of which the fourth taking fails.
const ROWS: [Row; 3] = [
    (4, b"abcd", Stopped::Full),
    (4, b"e", Stopped::Failed),
    (4, b"f", Stopped::End),
];

/// Whether the source gives what the row says.
fn gives(alloc: Global, source: &mut MemSource, row: &Row) -> bool {
    match take_up_to(alloc, source, row.0) {
        Ok((bytes, why)) => bytes.as_slice() == row.1 && why == row.2,
        Err(_) => false,
    }
}

/// Which row the source gives otherwise first; none if it gives all.
fn first_wrong(alloc: Global, source: &mut MemSource, rows: &[Row]) -> Option<usize> {
    for (at, row) in rows.iter().enumerate() {
        if !gives(alloc, source, row) {
            return Some(at);
        }
    }
    None
}

#[test]
fn bytes_are_taken_across_pieces(rt: HostRuntime) {
    let pieces = pieces(rt.alloc(), &[b"ab", b"cde", b"f"]);
    let mut source = MemSource::new(pieces, numbers(rt.alloc(), "4"));
    none_is_wrong(&rt, first_wrong(rt.alloc(), &mut source, &ROWS));
}
