// What the files of a message tell of a recipient: its own record, and the notes of its bounce file.
ghost use Rattle.std.specs.Prelude.{◌≡◌, IfOk, bytes_eq, drop, length, take};
ghost use Rattle.std.specs.List.{list_any};
ghost use Rattle.std.specs.Option.{option_copied};
ghost use Rattle.mem_fs.specs.MemDisk.{bytes_at, disk_of};
ghost use Rattle.queue_law.specs.Routes.{lane_part};
ghost use Rattle.queue_paths.specs.Names.{name_of, path};
ghost use Rattle.queue_paths.specs.Names.Name.{Of};
ghost use Rattle.script_disks.specs.Records.{AreNoted, is_unmarked, stands_in};

use crate::routes::Routed;
use bounce_record::notes_of;
use mail_bytes::{ByteText, Memory, NameBuf};
use mem_fs::MemFs;
use queue_paths::{Name, path};
use send_jobs::Channel;
use std::alloc::Global;

/// Whether the record of a recipient of the message of this number is there, and reads `T`.
pub fn is_unmarked(disk: &MemFs, number: Option<u64>, route: &Routed) -> bool
    ensures { result ≡ is_unmarked (disk_of disk.now.held) number route.now }
{
    match number {
        Some(n) => holds(disk, n, route),
        None => false,
    }
}

/// The names that the bounce file of the message of this number tells, one for each note. The error: out of memory.
pub fn noted_on(alloc: Global, disk: &MemFs, number: Option<u64>) -> Result<Vec<ByteText>, Memory>
    ensures { IfOk result (λ names. AreNoted (disk_of disk.now.held) number names.items) }
{
    let Some(n) = number else {
        return Ok(Vec::new(alloc));
    };
    match file_of(disk, &Name::Bounce(n)) {
        Some(bytes) => notes_of(alloc, bytes),
        None => Ok(Vec::new(alloc)),
    }
}

/// Whether this name is among them.
pub fn is_among(names: &[ByteText], name: &[u8]) -> bool
    ensures { result ≡ list_any (λ one. bytes_eq one name.now) names.now }
{
    names.iter().any(|one| one.as_slice() == name)
}

/// Whether the file of its channel has this record at its place.
fn holds(disk: &MemFs, n: u64, route: &Routed) -> bool
    ensures { result ≡ stands_in (bytes_at (disk_of disk.now.held) (path (Of (lane_part route.now.channel) n))) route.now.place route.now.text }
{
    match file_of(disk, &channel_name(route.channel, n)) {
        Some(bytes) => stands_in(bytes, route.place, route.text.as_slice()),
        None => false,
    }
}

/// The bytes of the file of a name of the queue.
fn file_of<'a>(disk: &'a MemFs, name: &Name) -> Option<&'a [u8]>
    ensures { option_copied result ≡ bytes_at (disk_of disk.now.held) (path (name_of name.now)) }
{
    let mut lent = NameBuf::new();
    path(name, &mut lent);
    disk.bytes_of(lent.as_slice())
}

/// The name of the file of a channel.
fn channel_name(channel: Channel, n: u64) -> Name
    ensures { name_of result ≡ Of (lane_part channel) n }
{
    match channel {
        Channel::Local => Name::Local(n),
        Channel::Remote => Name::Remote(n),
    }
}

/// Whether bytes stand at this place of a file.
fn stands_in(bytes: &[u8], place: u64, text: &[u8]) -> bool
    ensures { result ≡ bytes_eq (take (length text.now) (drop place bytes.now)) text.now }
{
    let from = bytes.len().min(place as usize);
    bytes[from..].starts_with(text)
}
