// Bytes in blocks.
ghost use Rattle.std.specs.Prelude.{◌≡◌, ◌+◌, ◌-◌, ◌≤◌, ◌++◌, [], IfOk, OnOk, OnErr, All, take, drop, length};
ghost use Rattle.call_fs.specs.declared.file_system.TheConstants.{PIECE};
ghost use Rattle.mail_bytes.specs.Blocks.{joined};

use call_fs::PIECE;
use mail_bytes::{ByteText, Memory};
use std::alloc::{AllocError, Global};
use std::marker::Model;

/// Bytes that are kept in blocks of at most 8192; contracts see them all. No growth of it is larger than a block.
#[derive(Drop)]
pub struct Blocks {
    full: Vec<Vec<u8>>,
    last: Vec<u8>,
    len: usize,
}

impl Model for Blocks {
    ghost use Rattle.std.specs.Prelude.{List, ℕ};

    ghost Value = { List ℕ };

    ghost use Rattle.local_parts.specs.BlocksInside.{bytes_of, AreBlocks};

    ghost view = { bytes_of };

    ghost invariant = { AreBlocks };
}

impl Blocks {
    /// No bytes yet. Takes no memory.
    pub fn new(alloc: Global) -> Self
        ensures { result ≡ [] }
    {
        Blocks {
            full: Vec::new(alloc),
            last: Vec::new(alloc),
            len: 0,
        }
    }

    /// How many bytes there are.
    pub fn len(&self) -> usize
        ensures { result ≡ length self.now }
    {
        self.len
    }

    /// Puts bytes at the end. Fails only if out of memory; then nothing changed.
    pub fn put(&mut self, alloc: Global, bytes: &[u8]) -> Result<(), Memory>
        ensures ok { OnOk result (self.new ≡ self.old ++ bytes.now) }
        ensures err { OnErr result (self.new ≡ self.old) }
    {
        let Some(len) = self.len.checked_add(bytes.len()) else {
            return Err(AllocError);
        };
        put_on(alloc, &mut self.full, &mut self.last, bytes)?;
        self.len = len;
        Ok(())
    }

    /// Puts the bytes of other blocks at the end. After an `Err` it is to be let go.
    pub fn put_all(&mut self, alloc: Global, other: &Blocks) -> Result<(), Memory>
        ensures { OnOk result (self.new ≡ self.old ++ other.now) }
    {
        let (full, last) = other.parts();
        put_each(self, alloc, full)?;
        self.put(alloc, last)
    }

    /// Puts all bytes at the end of a text. After an `Err` it is to be let go.
    pub fn put_into(&self, text: &mut ByteText) -> Result<(), Memory>
        ensures { OnOk result (text.new ≡ text.old ++ self.now) }
    {
        let (full, last) = self.parts();
        extend_each(text, full)?;
        text.extend(last)
    }

    /// A part: so many bytes after the first `from`, or fewer if there are no more. Fails only if out of memory.
    pub fn part(&self, alloc: Global, from: usize, count: usize) -> Result<Blocks, Memory>
        ensures { IfOk result (λ part. part ≡ take count (drop from self.now)) }
    {
        let (full, last) = self.parts();
        let mut part = Blocks::new(alloc);
        let mut window = Window {
            skip: from,
            left: count,
        };
        put_cut(&mut part, alloc, &mut window, full)?;
        part.put(alloc, window.cut(last))?;
        Ok(part)
    }

    /// The blocks, and then the last one.
    pub fn parts(&self) -> (&[Vec<u8>], &[u8])
        ensures { joined result.0.now ++ result.1.now ≡ self.now }
    {
        (self.full.as_slice(), self.last.as_slice())
    }

    /// The first bytes, at most so many, as one text. Fails only if out of memory.
    pub fn front(&self, alloc: Global, count: usize) -> Result<ByteText, Memory>
        ensures { IfOk result (λ text. text ≡ take count self.now) }
    {
        let mut text = ByteText::new(alloc);
        self.part(alloc, 0, count)?.put_into(&mut text)?;
        Ok(text)
    }

    /// The blocks: no one has over 8192 bytes. The error: out of memory.
    pub fn into_blocks(self) -> Result<Vec<Vec<u8>>, Memory>
        ensures bytes { IfOk result (λ blocks. joined blocks.items ≡ self) }
        ensures short { IfOk result (λ blocks. All (λ block. length block.items ≤ PIECE) blocks.items) }
    {
        let mut blocks = self.full;
        blocks.push(self.last)?;
        Ok(blocks)
    }
}

/// Puts the bytes of blocks at the end of others. After an `Err` these are to be let go.
fn put_each(all: &mut Blocks, alloc: Global, blocks: &[Vec<u8>]) -> Result<(), Memory>
    ensures { OnOk result (all.new ≡ all.old ++ joined blocks.now) }
{
    for block in blocks {
        all.put(alloc, block.as_slice())?;
    }
    Ok(())
}

/// Puts the bytes of blocks at the end of a text. After an `Err` it is to be let go.
fn extend_each(text: &mut ByteText, blocks: &[Vec<u8>]) -> Result<(), Memory>
    ensures { OnOk result (text.new ≡ text.old ++ joined blocks.now) }
{
    for block in blocks {
        text.extend(block.as_slice())?;
    }
    Ok(())
}

/// Puts what a window takes of the bytes of blocks at the end of others. After an `Err` these are to be let go.
fn put_cut(
    part: &mut Blocks,
    alloc: Global,
    window: &mut Window,
    blocks: &[Vec<u8>],
) -> Result<(), Memory>
    ensures taken { OnOk result (part.new ≡ part.old ++ take window.old.left (drop window.old.skip (joined blocks.now))) }
    ensures skip { OnOk result (window.new.skip ≡ window.old.skip - length (joined blocks.now)) }
    ensures left { OnOk result (window.new.left ≡ window.old.left - length (take window.old.left (drop window.old.skip (joined blocks.now)))) }
{
    for block in blocks {
        part.put(alloc, window.cut(block.as_slice()))?;
    }
    Ok(())
}

/// How many bytes go into a block without a growth.
fn room(block: &Vec<u8>) -> usize
    ensures { length block.now.items ≤ PIECE → result + length block.now.items ≤ PIECE }
{
    block.capacity().min(PIECE).saturating_sub(block.len())
}

/// A block of these bytes, with room for 8192.
fn block(alloc: Global, bytes: &[u8]) -> Result<Vec<u8>, Memory>
    ensures { IfOk result (λ block. block.items ≡ bytes.now) }
{
    let mut block = Vec::with_capacity(alloc, PIECE)?;
    block.extend_from_slice(bytes)?;
    Ok(block)
}

/// Puts bytes at the end of blocks, the last of which has room or not. After an `Err` these are as before.
fn put_on(
    alloc: Global,
    full: &mut Vec<Vec<u8>>,
    last: &mut Vec<u8>,
    bytes: &[u8],
) -> Result<(), Memory>
    requires full { All (λ block. length block.items ≤ PIECE) full.old.items }
    requires last { length last.old.items ≤ PIECE }
    ensures short { OnOk result (All (λ block. length block.items ≤ PIECE) full.new.items) }
    ensures last { OnOk result (length last.new.items ≤ PIECE) }
    ensures bytes { OnOk result (joined full.new.items ++ last.new.items ≡ (joined full.old.items ++ last.old.items) ++ bytes.now) }
    ensures full_stays { OnErr result (full.new.items ≡ full.old.items) }
    ensures last_stays { OnErr result (last.new.items ≡ last.old.items) }
{
    if bytes.len() <= room(last) {
        last.extend_from_slice(bytes)?;
        return Ok(());
    }
    put_after(alloc, full, last, bytes)
}

/// Puts them into blocks of their own, after a last one that has no room for them. After an `Err` all is as before.
#[tactic(auto, using(crate::proofs::Joined::put_on))]
fn put_after(
    alloc: Global,
    full: &mut Vec<Vec<u8>>,
    last: &mut Vec<u8>,
    bytes: &[u8],
) -> Result<(), Memory>
    requires full { All (λ block. length block.items ≤ PIECE) full.old.items }
    requires last { length last.old.items ≤ PIECE }
    ensures short { OnOk result (All (λ block. length block.items ≤ PIECE) full.new.items) }
    ensures last { OnOk result (length last.new.items ≤ PIECE) }
    ensures bytes { OnOk result (joined full.new.items ++ last.new.items ≡ (joined full.old.items ++ last.old.items) ++ bytes.now) }
    ensures full_stays { OnErr result (full.new.items ≡ full.old.items) }
    ensures last_stays { OnErr result (last.new.items ≡ last.old.items) }
{
    let first = block(alloc, last.as_slice())?;
    let mut more = Vec::new(alloc);
    let newest = put_blocks(alloc, &mut more, first, bytes)?;
    full.append(&mut more)?;
    *last = newest;
    Ok(())
}

/// Puts bytes after a block, as blocks of their own: all blocks but the newest, which is handed out, go to the end of others.
/// After an `Err` these are to be let go.
fn put_blocks(
    alloc: Global,
    blocks: &mut Vec<Vec<u8>>,
    first: Vec<u8>,
    bytes: &[u8],
) -> Result<Vec<u8>, Memory>
    requires blocks { All (λ block. length block.items ≤ PIECE) blocks.old.items }
    requires first { length first.items ≤ PIECE }
    ensures short { IfOk result (λ newest. All (λ block. length block.items ≤ PIECE) blocks.new.items) }
    ensures newest { IfOk result (λ newest. length newest.items ≤ PIECE) }
    ensures bytes { IfOk result (λ newest. joined blocks.new.items ++ newest.items ≡ (joined blocks.old.items ++ first.items) ++ bytes.now) }
{
    let mut newest = first;
    let mut rest = bytes;
    while !rest.is_empty() {
        let (piece, after) = rest.split_at(rest.len().min(PIECE));
        let next = block(alloc, piece)?;
        blocks.push(newest)?;
        newest = next;
        rest = after;
    }
    Ok(newest)
}

/// What of bytes that come one after the other is to be passed over, and then how many are to be taken.
#[derive(Drop)]
struct Window {
    skip: usize,
    left: usize,
}

impl Window {
    /// What of the next bytes is taken.
    fn cut<'a>(&mut self, bytes: &'a [u8]) -> &'a [u8]
        ensures taken { result.now ≡ take self.old.left (drop self.old.skip bytes.now) }
        ensures skip { self.new.skip ≡ self.old.skip - length bytes.now }
        ensures left { self.new.left ≡ self.old.left - length result.now }
    {
        let (_, rest) = bytes.split_at(self.skip.min(bytes.len()));
        let (taken, _) = rest.split_at(self.left.min(rest.len()));
        self.skip = self.skip.saturating_sub(bytes.len());
        self.left -= taken.len();
        taken
    }
}
