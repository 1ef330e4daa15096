// One file in memory.
ghost use Rattle.std.specs.Prelude.{◌≡◌, ◌++◌, ◌∷◌, [], ◌<◌, ◌≤◌, ◌+◌, ◌^◌, ◌↔◌, min, length, take, drop, IfOk, OnOk, OnErr, IsTrue, vec_len, vec_capacity};
ghost use Rattle.std.specs.List.{enumerate_from};
ghost use Rattle.mail_bytes.specs.Moments.{IsMoment};
ghost use Rattle.call_fs.specs.Apply.{empty_file, lying, put_over, grown, overwritten, cut, synced};
ghost use Rattle.call_fs.specs.Survival.{settled};
ghost use Rattle.call_fs.specs.Placing.{replaced};
ghost use Rattle.mem_files.specs.MemFile.{IsSurvivor};

use mail_bytes::Memory;
use std::alloc::{AllocError, Global};
use std::marker::Model;

/// A file: its bytes, those at the last sync, what places of those were given since, the least and the greatest length
/// since, and its moment. There is always room to keep its bytes, so that a sync takes no memory.
#[derive(Drop)]
pub struct FileData {
    bytes: Vec<u8>,
    kept: Vec<u8>,
    given: Vec<(usize, u8)>,
    least: usize,
    greatest: usize,
    moment: u64,
}

impl Model for FileData {
    ghost use Rattle.std.specs.Prelude.{◌≤◌, vec_len, vec_capacity};
    ghost use Rattle.call_fs.specs.Disk.{File};
    ghost use Rattle.mail_bytes.specs.Moments.{IsMoment};
    ghost use Rattle.mem_files.specs.MemFile.{IsSurvivor};

    ghost Value = { File };

    ghost view = { λ f. record { bytes = f.bytes.items; kept = f.kept.items; given = f.given.items; least = f.least; greatest = f.greatest; moment = f.moment } };

    ghost invariant = { λ f. (vec_len f.bytes ≤ vec_capacity f.kept) × IsMoment f.moment
        × IsSurvivor (record { bytes = f.bytes.items; kept = f.kept.items; given = f.given.items; least = f.least; greatest = f.greatest; moment = f.moment }) };
}

impl FileData {
    /// A new empty file. Takes no memory.
    pub fn new(alloc: Global, moment: u64) -> Self
        requires { IsMoment moment }
        ensures { result ≡ empty_file moment }
    {
        FileData {
            bytes: Vec::new(alloc),
            kept: Vec::new(alloc),
            given: Vec::new(alloc),
            least: 0,
            greatest: 0,
            moment,
        }
    }

    /// A file with these bytes, all of them on the disk, and this moment. The error: out of memory.
    pub fn settled(alloc: Global, now: u64, bytes: &[u8]) -> Result<Self, Memory>
        requires { IsMoment now }
        ensures { IfOk result (λ file. file ≡ replaced now bytes.now) }
    {
        FileData::new(alloc, now).settled_as(alloc, Vec::from_slice(alloc, bytes)?)
    }

    /// Its bytes.
    pub fn as_slice(&self) -> &[u8]
        ensures { result.now ≡ self.now.bytes }
    {
        self.bytes.as_slice()
    }

    /// Its bytes at the last sync.
    pub fn kept(&self) -> &[u8]
        ensures { result.now ≡ self.now.kept }
    {
        self.kept.as_slice()
    }

    /// What places of those were given since, oldest first.
    pub fn given(&self) -> &[(usize, u8)]
        ensures { result.now ≡ self.now.given }
    {
        self.given.as_slice()
    }

    /// The least length since the last sync.
    pub fn least(&self) -> usize
        ensures { result ≡ self.now.least }
    {
        self.least
    }

    /// The greatest length since the last sync.
    pub fn greatest(&self) -> usize
        ensures value { result ≡ self.now.greatest }
        ensures order { self.now.least ≤ result }
        ensures small { result < 2 ^ 63 }
    {
        self.greatest
    }

    /// What holds of it at any time.
    pub fn is_survivor(&self)
        ensures { IsSurvivor self.now }
    {
        let _ = &self.bytes;
    }

    /// A file with just these bytes, all of them on the disk, and its moment. The error: out of memory.
    pub fn settled_as(&self, alloc: Global, bytes: Vec<u8>) -> Result<Self, Memory>
        ensures { IfOk result (λ file. file ≡ settled bytes.items self.now) }
    {
        Ok(FileData {
            kept: Vec::from_slice(alloc, &bytes)?,
            given: Vec::new(alloc),
            least: bytes.len(),
            greatest: bytes.len(),
            moment: self.moment,
            bytes,
        })
    }

    /// How many bytes it has.
    pub fn len(&self) -> usize
        ensures { result ≡ length self.now.bytes }
    {
        self.bytes.len()
    }

    /// The moment of its creation or last write.
    pub fn moment(&self) -> u64
        ensures value { result ≡ self.now.moment }
        ensures moment { IsMoment result }
    {
        self.moment
    }

    /// Reads from a place on into the buffer, as many bytes as it has room for, or as there are.
    pub fn read_at(&self, at: usize, into: &mut [u8]) -> usize
        ensures count { result ≡ min (length into.old) (length (drop at self.now.bytes)) }
        ensures bytes { take result into.new ≡ take result (drop at self.now.bytes) }
    {
        let start = at.min(self.bytes.len());
        let rest = &self.bytes[start..];
        let count = rest.len().min(into.len());
        into[..count].copy_from_slice(&rest[..count]);
        count
    }

    /// Writes bytes at the end. After an `Err` it is as before.
    pub fn append(&mut self, now: u64, bytes: &[u8]) -> Result<(), Memory>
        requires { IsMoment now }
        ensures ok { OnOk result (self.new ≡ grown now bytes.now self.old) }
        ensures err { OnErr result (self.new ≡ self.old) }
    {
        let at = self.bytes.len();
        let given = lying(self.kept.len(), at, bytes);
        self.given.reserve(given.len())?;
        reserve_for(&mut self.kept, at, bytes.len())?;
        self.bytes.extend_from_slice(bytes)?;
        give(&mut self.given, at, given);
        self.greatest = self.greatest.max(self.bytes.len());
        self.moment = now;
        Ok(())
    }

    /// Overwrites from a place on what lies below the length. After an `Err` it is as before.
    pub fn overwrite(&mut self, now: u64, at: usize, bytes: &[u8]) -> Result<(), Memory>
        requires { IsMoment now }
        ensures ok { OnOk result (self.new ≡ overwritten now at bytes.now self.old) }
        ensures err { OnErr result (self.new ≡ self.old) }
    {
        let bytes = lying(self.bytes.len(), at, bytes);
        let given = lying(self.kept.len(), at, bytes);
        self.given.reserve(given.len())?;
        give(&mut self.given, at, given);
        put_over(&mut self.bytes, at, bytes);
        self.moment = now;
        Ok(())
    }

    /// Its length is the lesser of this one and what it was.
    pub fn cut(&mut self, len: usize)
        ensures { self.new ≡ cut len self.old }
    {
        self.bytes.truncate(len);
        self.least = self.least.min(self.bytes.len());
    }

    /// All its bytes are on the disk.
    pub fn sync(&mut self)
        ensures { self.new ≡ synced self.old }
    {
        keep(&mut self.kept, &self.bytes);
        self.given.clear();
        self.least = self.bytes.len();
        self.greatest = self.bytes.len();
    }
}

/// What of bytes that are put at a place lies below a length.
fn lying(len: usize, at: usize, bytes: &[u8]) -> &[u8]
    ensures { result.now ≡ lying len at bytes.now }
{
    let count = len.saturating_sub(at).min(bytes.len());
    &bytes[..count]
}

/// Makes room to keep so many bytes and so many more. What is kept stays as it is.
fn reserve_for(kept: &mut Vec<u8>, bytes: usize, more: usize) -> Result<(), Memory>
    ensures items { kept.new.items ≡ kept.old.items }
    ensures room { vec_capacity kept.old ≤ vec_capacity kept.new }
    ensures ok { OnOk result (bytes + more ≤ vec_capacity kept.new) }
{
    let missing = bytes.saturating_sub(kept.len());
    let Some(all) = missing.checked_add(more) else {
        return Err(AllocError);
    };
    kept.reserve(all)
}

/// Gives places their values. The condition: there is room for them.
fn give(given: &mut Vec<(usize, u8)>, at: usize, bytes: &[u8])
    requires room { vec_len given.old + length bytes.now ≤ vec_capacity given.old }
    requires places { at + length bytes.now < 2 ^ 64 }
    ensures { given.new.items ≡ given.old.items ++ enumerate_from at bytes.now }
{
    for (index, byte) in bytes.iter().enumerate() {
        put(given, at + index, *byte);
    }
}

/// Puts a place with its value at the end. The condition: there is room for it.
fn put(given: &mut Vec<(usize, u8)>, place: usize, byte: u8)
    requires { vec_len given.old < vec_capacity given.old }
    ensures items { given.new.items ≡ given.old.items ++ (place, byte) ∷ [] }
    ensures len { vec_len given.new ≡ vec_len given.old + 1 }
    ensures room { vec_capacity given.old ≤ vec_capacity given.new }
{
    given.push((place, byte)).unwrap();
}

/// Puts bytes over those that stand at a place. The condition: all of them lie below the length.
fn put_over(all: &mut [u8], at: usize, bytes: &[u8])
    requires { bytes.now ≡ lying (length all.old) at bytes.now }
    ensures { all.new ≡ put_over at bytes.now all.old }
{
    if !bytes.is_empty() {
        all[at..at + bytes.len()].copy_from_slice(bytes);
    }
}

/// Keeps these bytes in place of what was kept. The condition: there is room for them.
fn keep(kept: &mut Vec<u8>, bytes: &[u8])
    requires { length bytes.now ≤ vec_capacity kept.old }
    ensures items { kept.new.items ≡ bytes.now }
    ensures room { vec_capacity kept.old ≤ vec_capacity kept.new }
{
    kept.clear();
    kept.extend_from_slice(bytes).unwrap();
}

/// What a number has: how many names, how many open descriptors, and its file.
#[derive(Drop)]
pub struct Inode {
    /// How many names lead to it.
    pub links: usize,
    /// How many open descriptors it has.
    pub opens: usize,
    /// The file itself.
    pub file: FileData,
}

impl Inode {
    /// Whether nothing uses the number.
    pub fn is_idle(&self) -> bool
        ensures { IsTrue result ↔ ((self.now.links ≡ 0) × (self.now.opens ≡ 0)) }
    {
        self.links == 0 && self.opens == 0
    }
}
