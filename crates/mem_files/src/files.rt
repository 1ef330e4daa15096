// The files of a disk in memory, by number.
ghost use Rattle.std.specs.Prelude.{◌≡◌, ◌≤◌, ◌<◌, ◌+◌, ◌-◌, ◌^◌, IsSome, IfSome, IfNone, IsTrue, ◌↔◌, OnOk, OnErr, length};
ghost use Rattle.mail_bytes.specs.Moments.{IsMoment};
ghost use Rattle.call_fs.specs.Apply.{grown, overwritten, cut, synced};
ghost use Rattle.mem_files.specs.Tables.{at_number, AreNumbersInOrder};
ghost use Rattle.mem_files.specs.MemFiles.{file_at, links_of, holds_of, IsGreatestIdle, IsIdle, NoneIdle, Changes, on_file, linked_inode, unlinked_inode, opened_inode, closed_inode};

use crate::file::{FileData, Inode};
use crate::numbers;
use mail_bytes::Memory;

/// A number with its file.
pub type Entry = (u64, Inode);

/// The files with their numbers.
pub type Files = Vec<Entry>;

/// The file of a number. The condition: the number is there.
pub fn file_of(files: &[Entry], number: u64) -> &FileData
    requires in_order { AreNumbersInOrder files.now }
    requires there { IsSome (at_number files.now number) }
    ensures { result.now ≡ file_at files.now number }
{
    let inode = numbers::value_of(files, number).unwrap();
    &inode.file
}

/// Writes bytes at the end of a file. After an `Err` all is as before. The conditions: the number is there, and `now` is
/// a moment.
pub fn append(files: &mut Files, number: u64, now: u64, bytes: &[u8]) -> Result<(), Memory>
    requires in_order { AreNumbersInOrder files.old.items }
    requires there { IsSome (at_number files.old.items number) }
    requires moment { IsMoment now }
    ensures ok { OnOk result (Changes files.old.items files.new.items number (on_file (grown now bytes.now))) }
    ensures err { OnErr result (files.new.items ≡ files.old.items) }
{
    let at = numbers::index_of(files, number);
    let entry = &mut files[at];
    entry.1.file.append(now, bytes)
}

/// Overwrites what lies below the length of a file. After an `Err` all is as before. The conditions: the number is
/// there, and `now` is a moment.
pub fn overwrite(
    files: &mut Files,
    number: u64,
    now: u64,
    place: usize,
    bytes: &[u8],
) -> Result<(), Memory>
    requires in_order { AreNumbersInOrder files.old.items }
    requires there { IsSome (at_number files.old.items number) }
    requires moment { IsMoment now }
    ensures ok { OnOk result (Changes files.old.items files.new.items number (on_file (overwritten now place bytes.now))) }
    ensures err { OnErr result (files.new.items ≡ files.old.items) }
{
    let at = numbers::index_of(files, number);
    let entry = &mut files[at];
    entry.1.file.overwrite(now, place, bytes)
}

/// Cuts a file. The condition: the number is there.
pub fn cut(files: &mut Files, number: u64, len: usize)
    requires in_order { AreNumbersInOrder files.old.items }
    requires there { IsSome (at_number files.old.items number) }
    ensures { Changes files.old.items files.new.items number (on_file (cut len)) }
{
    let at = numbers::index_of(files, number);
    let entry = &mut files[at];
    entry.1.file.cut(len);
}

/// All bytes of a file are on the disk. The condition: the number is there.
pub fn sync(files: &mut Files, number: u64)
    requires in_order { AreNumbersInOrder files.old.items }
    requires there { IsSome (at_number files.old.items number) }
    ensures { Changes files.old.items files.new.items number (on_file synced) }
{
    let at = numbers::index_of(files, number);
    let entry = &mut files[at];
    entry.1.file.sync();
}

/// Puts another file in the place of a number's. The condition: the number is there.
pub fn replace(files: &mut Files, number: u64, file: FileData)
    requires in_order { AreNumbersInOrder files.old.items }
    requires there { IsSome (at_number files.old.items number) }
    ensures { Changes files.old.items files.new.items number (on_file (λ _. file)) }
{
    let at = numbers::index_of(files, number);
    let entry = &mut files[at];
    entry.1.file = file;
}

/// A number has one name more. The conditions: it is there, and its count of names has room.
pub fn add_link(files: &mut Files, number: u64)
    requires in_order { AreNumbersInOrder files.old.items }
    requires there { IsSome (at_number files.old.items number) }
    requires room { links_of files.old.items number + 1 < 2 ^ 64 }
    ensures { Changes files.old.items files.new.items number linked_inode }
{
    let at = numbers::index_of(files, number);
    let entry = &mut files[at];
    entry.1.links += 1;
}

/// A number has one name less. The conditions: it is there, and has a name.
pub fn drop_link(files: &mut Files, number: u64)
    requires in_order { AreNumbersInOrder files.old.items }
    requires there { IsSome (at_number files.old.items number) }
    requires linked { 1 ≤ links_of files.old.items number }
    ensures { Changes files.old.items files.new.items number unlinked_inode }
{
    let at = numbers::index_of(files, number);
    let entry = &mut files[at];
    entry.1.links -= 1;
}

/// A number has one open descriptor more. The conditions: it is there, and its count of descriptors has room.
pub fn add_open(files: &mut Files, number: u64)
    requires in_order { AreNumbersInOrder files.old.items }
    requires there { IsSome (at_number files.old.items number) }
    requires room { holds_of files.old.items number + 1 < 2 ^ 64 }
    ensures { Changes files.old.items files.new.items number opened_inode }
{
    let at = numbers::index_of(files, number);
    let entry = &mut files[at];
    entry.1.opens += 1;
}

/// A number has one open descriptor less. The conditions: it is there, and has one.
pub fn drop_open(files: &mut Files, number: u64)
    requires in_order { AreNumbersInOrder files.old.items }
    requires there { IsSome (at_number files.old.items number) }
    requires open { 1 ≤ holds_of files.old.items number }
    ensures { Changes files.old.items files.new.items number closed_inode }
{
    let at = numbers::index_of(files, number);
    let entry = &mut files[at];
    entry.1.opens -= 1;
}

/// Whether nothing uses the number.
pub fn is_idle(files: &[Entry], number: u64) -> bool
    requires { AreNumbersInOrder files.now }
    ensures { IsTrue result ↔ IsIdle files.now number }
{
    match numbers::value_of(files, number) {
        Some(inode) => inode.is_idle(),
        None => true,
    }
}

/// The greatest u64 that nothing uses; None only if every u64 from 1 is used.
pub fn greatest_idle(files: &[Entry]) -> Option<u64>
    requires { AreNumbersInOrder files.now }
    ensures fits { IfSome result (λ n. n < 2 ^ 64) }
    ensures some { IfSome result (IsGreatestIdle files.now) }
    ensures none { IfNone result (NoneIdle files.now) }
{
    let mut number = u64::MAX;
    let mut at = files.len();
    while at > 0 {
        let entry = &files[at - 1];
        if entry.0 != number || entry.1.is_idle() {
            return Some(number);
        }
        number -= 1;
        at -= 1;
    }
    if number == 0 { None } else { Some(number) }
}
