// Bytes that are drawn for a file at a machine stop.
ghost use Rattle.std.specs.Prelude.{◌≡◌, ◌<◌, ◌^◌, IfOk, OnOk, length};
ghost use Rattle.call_fs.specs.Choices.{drawn, values_at, junk_byte, junk_bytes, junked};

use crate::file::FileData;
use mail_bytes::Memory;
use std::alloc::Global;

/// Bytes that were drawn, and the x that follows.
pub type Drawn = (Vec<u8>, u64);

/// The draw that follows x.
fn drawn(x: u64) -> u64
    requires { x < 2 ^ 32 }
    ensures value { result ≡ drawn x }
    ensures small { result < 65537 }
{
    (75 * x + 74) % 65537
}

/// Puts the value that a place had at the last sync and those that it was given since into a buffer, in place of what
/// that had; none past the synced length.
fn read_values(file: &FileData, place: usize, values: &mut Vec<u8>) -> Result<(), Memory>
    ensures { OnOk result (values.new.items ≡ values_at file.now place) }
{
    values.clear();
    let Some(kept) = file.kept().get(place) else {
        return Ok(());
    };
    values.push(*kept)?;
    for given in file.given() {
        let (at, value) = *given;
        if at == place {
            values.push(value)?;
        }
    }
    Ok(())
}

/// A byte for a place that had these values, and the x that follows.
fn junk_byte(values: &[u8], x: u64) -> (u8, u64)
    requires { x < 2 ^ 32 }
    ensures value { result ≡ junk_byte values.now x }
    ensures small { result.1 < 2 ^ 32 }
{
    match values {
        [] => {
            let next = drawn(x);
            ((next % 256) as u8, next)
        }
        [value] => (*value, x),
        _ => {
            let next = drawn(x);
            (values[next as usize % values.len()], next)
        }
    }
}

/// The first bytes of a file, as many, and the x that follows.
fn junk_bytes(alloc: Global, file: &FileData, x: u64, count: usize) -> Result<Drawn, Memory>
    requires { x < 2 ^ 32 }
    ensures value { IfOk result (λ made. (made.0.items, made.1) ≡ junk_bytes file.now x count) }
    ensures small { IfOk result (λ made. made.1 < 2 ^ 32) }
{
    let mut bytes = Vec::new(alloc);
    let mut values = Vec::new(alloc);
    let mut next = x;
    for place in 0..count {
        read_values(file, place, &mut values)?;
        let (byte, following) = junk_byte(&values, next);
        bytes.push(byte)?;
        next = following;
    }
    Ok((bytes, next))
}

/// A file's bytes, of a length that is drawn first, and the x that follows. The error: out of memory.
pub fn junked(alloc: Global, file: &FileData, x: u64) -> Result<Drawn, Memory>
    requires { x < 2 ^ 32 }
    ensures value { IfOk result (λ made. (made.0.items, made.1) ≡ junked file.now x) }
    ensures small { IfOk result (λ made. made.1 < 2 ^ 32) }
{
    let next = drawn(x);
    let spread = file.greatest() - file.least() + 1;
    junk_bytes(alloc, file, next, file.least() + next as usize % spread)
}
