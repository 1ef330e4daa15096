// Which message is looping.
ghost use Rattle.std.specs.Prelude.{◌≡◌, ◌++◌};
ghost use Rattle.mail_bytes.specs.Blocks.{joined};
ghost use Rattle.local_parts.specs.Looping.{is_looping};
ghost use Rattle.local_parts.specs.inside.Scanning.{gone_on, is_found, is_open, line_ended, scan_step, scanned};

use crate::Blocks;

/// How far a header was searched for a line.
#[derive(Clone, Copy)]
enum Scan {
    /// In a line of which so many bytes came, and they are those with which the line that is looked for begins.
    Like { count: usize },
    /// In a line that differs from it.
    Unlike,
    /// The header has it.
    Found,
    /// The header has ended.
    Over,
}

/// Whether the header of a message, its lines up to the first empty one, has this line. Takes no memory.
pub fn is_looping(line: &[u8], message: &Blocks) -> bool
    ensures { result ≡ is_looping line.now message.now }
{
    let (full, last) = message.parts();
    let scan = scan_blocks(line, full);
    is_found(line, scan_bytes(line, scan, last))
}

/// Searches the bytes of blocks.
#[tactic(auto, using(crate::proofs::Searching::blocks_over))]
fn scan_blocks(line: &[u8], blocks: &[Vec<u8>]) -> Scan
    ensures { result ≡ scanned line.now (Scan.Like 0) (joined blocks.now) }
{
    let mut scan = Scan::Like { count: 0 };
    for block in blocks {
        if !is_open(scan) {
            return scan;
        }
        scan = scan_bytes(line, scan, block.as_slice());
    }
    scan
}

/// Searches these bytes.
fn scan_bytes(line: &[u8], scan: Scan, bytes: &[u8]) -> Scan
    ensures { result ≡ scanned line.now scan bytes.now }
{
    let mut so_far = scan;
    for byte in bytes {
        so_far = scan_step(line, so_far, *byte);
    }
    so_far
}

/// Searches one byte.
fn scan_step(line: &[u8], scan: Scan, byte: u8) -> Scan
    ensures { result ≡ scan_step line.now scan byte }
{
    match scan {
        Scan::Like { count } if byte == b'\n' => line_ended(line, count),
        Scan::Like { count } => gone_on(line, count, byte),
        Scan::Unlike if byte == b'\n' => Scan::Like { count: 0 },
        _ => scan,
    }
}

/// After a newline, in a line that is like the one that is looked for.
fn line_ended(line: &[u8], count: usize) -> Scan
    ensures { result ≡ line_ended line.now count }
{
    if count == 0 {
        Scan::Over
    } else if count == line.len() {
        Scan::Found
    } else {
        Scan::Like { count: 0 }
    }
}

/// After another byte, in such a line.
fn gone_on(line: &[u8], count: usize, byte: u8) -> Scan
    ensures { result ≡ gone_on line.now count byte }
{
    match line.get(count) {
        Some(next) if *next == byte => Scan::Like { count: count + 1 },
        _ => Scan::Unlike,
    }
}

/// Whether the search goes on.
fn is_open(scan: Scan) -> bool
    ensures { result ≡ is_open scan }
{
    matches!(scan, Scan::Like { .. } | Scan::Unlike)
}

/// Whether the header has the line, if no bytes come any more.
fn is_found(line: &[u8], scan: Scan) -> bool
    ensures { result ≡ is_found line.now scan }
{
    match scan {
        Scan::Like { count } => count > 0 && count == line.len(),
        Scan::Found => true,
        Scan::Unlike | Scan::Over => false,
    }
}
