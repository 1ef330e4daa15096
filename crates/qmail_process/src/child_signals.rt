// Whether the system tells this process how its children end.

use host_streams::WriterSink;
use mail_bytes::Memory;
use outside::Sink;
use std::alloc::Global;
use std::fs::File;
use std::io::Read;

/// What the system tells of this process, and the line of the signals that it ignores, as a hexadecimal number.
const TOLD: &str = "/proc/self/status";

const IGNORED: &[u8] = b"\nSigIgn:\t";

/// The bit of SIGCHLD, 17, in that number.
const CHILD_ENDED: u64 = 1 << 16;

/// How many bytes are read: the line stands in them.
const ROOM: usize = 8192;

/// Whether this process ignores SIGCHLD, as whoever started it can have it do: the system tells no end of a child then. If so standard
/// error gets a line. The error: out of memory.
pub(crate) fn tells_no_ends(rt: &HostRuntime, alloc: Global) -> Result<bool, Memory> {
    let mut told = Vec::with_capacity(alloc, ROOM)?;
    let read = match File::open(rt, TOLD) {
        Ok(mut file) => {
            let read = read_into(&mut file, &mut told);
            drop(file);
            read
        }
        Err(_) => Ok(()),
    };
    let is_so = ignored(told.as_slice()) & CHILD_ENDED != 0;
    drop(told);
    read?;
    if is_so {
        let line =
            b"SIGCHLD is ignored here, so no end of a child would be told: start it with SIGCHLD at its default\n";
        let _given = WriterSink::new(rt.stderr()).give(line);
    }
    Ok(is_so)
}

/// Reads what there is, at most so much as there is room.
fn read_into(file: &mut File, told: &mut Vec<u8>) -> Result<(), Memory> {
    let mut piece = [0; 1024];
    for _ in 0..ROOM {
        match file.read(&mut piece) {
            Ok(count) if count > 0 && told.len() < ROOM => {
                told.extend_from_slice(piece.get(..count).unwrap_or(&[]))?;
            }
            _ => return Ok(()),
        }
    }
    Ok(())
}

/// The number of the signals that are ignored; 0 if there is none.
fn ignored(told: &[u8]) -> u64 {
    let at = told.windows(IGNORED.len()).position(|part| part == IGNORED);
    let Some(at) = at else {
        return 0;
    };
    let mut number: u64 = 0;
    for byte in told.get(at.saturating_add(IGNORED.len())..).unwrap_or(&[]) {
        let digit = match byte {
            b'0'..=b'9' => byte - b'0',
            b'a'..=b'f' => byte - b'a' + 10,
            _ => return number,
        };
        number = number.wrapping_mul(16).wrapping_add(u64::from(digit));
    }
    number
}
