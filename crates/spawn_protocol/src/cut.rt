// The first request of some bytes.
ghost use Rattle.std.specs.Prelude.{◌≡◌, ◌≤◌, length, IfOk};
ghost use Rattle.spawn_protocol.specs.Cut.{ComesOf, cut, told_cut, counted};

use crate::request::{CodecError, Request, RequestReader};
use mail_bytes::Memory;
use std::alloc::{AllocError, Global};

/// What bytes are that a spawner holds.
#[derive(Drop)]
pub enum Cut {
    /// The start of a request at most.
    More,
    /// A request, and how many bytes it has; others may follow it.
    Whole(Request, usize),
    /// A request of which a field has a 4097th byte.
    TooLong,
}

/// The first request of these bytes, if it is whole. Fails only when out of memory.
pub fn cut_request(alloc: Global, bytes: &[u8]) -> Result<Cut, Memory>
    ensures cut { IfOk result (λ it. told_cut it bytes.now ≡ cut bytes.now) }
    // It has no more bytes than came.
    ensures count { IfOk result (λ it. counted it ≤ length bytes.now) }
{
    let mut reader = RequestReader::new(alloc);
    for (at, byte) in bytes.iter().enumerate() {
        if let Some(cut) = cut_byte(&mut reader, alloc, *byte, at + 1)? {
            return Ok(cut);
        }
    }
    Ok(Cut::More)
}

/// Takes a byte, after which so many were taken. What they are, if that is settled.
fn cut_byte(
    reader: &mut RequestReader,
    alloc: Global,
    byte: u8,
    count: usize,
) -> Result<Option<Cut>, Memory>
    ensures { ComesOf reader.old byte count result reader.new }
{
    match reader.feed(alloc, byte) {
        Ok(Some(request)) => Ok(Some(Cut::Whole(request, count))),
        Ok(None) => Ok(None),
        Err(CodecError::TooLong) => Ok(Some(Cut::TooLong)),
        Err(CodecError::Memory) => Err(AllocError),
    }
}
