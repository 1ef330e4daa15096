// The source in memory.

use super::byte_texts::same;
use super::fields::{none_is_wrong, numbers};
use mail_bytes::ByteText;
use outside::{MemSource, Source, Took};
use std::alloc::Global;

/// What a taking gives, the bytes that stand in a buffer of two then, and the count of failures.
type Row = (Took, &'static [u8], u64);

/// Of the pieces `abc`, none and `d`, of which the second taking fails.
const ROWS: [Row; 5] = [
    (Took::Got(2), b"ab", 0),
    (Took::Failed, b"ab", 1),
    (Took::Got(1), b"cb", 1),
    (Took::Got(1), b"db", 1),
    (Took::End, b"db", 1),
];

/// Pieces with these bytes.
pub fn pieces(alloc: Global, texts: &[&[u8]]) -> Vec<ByteText> {
    let mut pieces = Vec::new(alloc);
    for text in texts {
        put(alloc, &mut pieces, text);
    }
    pieces
}

/// Puts a piece at the end. One that can't be made shows in what is given.
pub fn put(alloc: Global, pieces: &mut Vec<ByteText>, bytes: &[u8]) {
    if let Ok(piece) = ByteText::from_slice(alloc, bytes) {
        let _ = pieces.push(piece);
    }
}

/// Whether the source gives what the row says.
fn gives(source: &mut MemSource, into: &mut [u8; 2], row: &Row) -> bool {
    source.take(into) == row.0 && same(into.as_slice(), row.1) && source.faults() == row.2
}

/// Which row the source gives otherwise first; none if it gives all.
fn first_wrong(source: &mut MemSource, rows: &[Row]) -> Option<usize> {
    let mut into = [0; 2];
    for (at, row) in rows.iter().enumerate() {
        if !gives(source, &mut into, row) {
            return Some(at);
        }
    }
    None
}

#[test]
fn a_taking_gives_bytes_of_one_piece(rt: HostRuntime) {
    let pieces = pieces(rt.alloc(), &[b"abc", b"", b"d"]);
    let mut source = MemSource::new(pieces, numbers(rt.alloc(), "2"));
    none_is_wrong(&rt, first_wrong(&mut source, &ROWS));
}
