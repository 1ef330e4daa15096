// The rows of the sender's start.
ghost use Rattle.std.specs.Prelude.{◌≡◌, ◌<◌, ◌++◌, min, set, slice_index_or, true, false, None, IsOk, OnOk, OnErr};
ghost use Rattle.send_parts.specs.Files.{number_below};
ghost use Rattle.send_parts.specs.Readings.{read_on};
ghost use Rattle.send_parts.specs.Replies.{said_of};
ghost use Rattle.send_parts.specs.Start.{act_start, by_way, control_read, file_after, filed, greeted_local, greeted_remote, info_read, info_row, judged_by, kept, next_file, remote_limit, remote_stated, scan_known, scan_next, scan_row, scanned, start_failed, start_takes_memory};

use crate::{
    Book, Progress, Reading, Reply, StartRow, Way, hold, is_info, message_number, read_on,
    sender_in,
};
use address_rules::{ControlError, ControlFile, Controls};
use mail_bytes::{ByteText, Memory};
use queue_limits::{BAD_CONTROL, MEMORY, NO_LOCAL, NO_REMOTE, NO_START};
use queue_paths::split;
use send_known::Known;
use std::alloc::{AllocError, Global};
use std::mem::replace;

/// What came at a row of the start. After an `Err` all is as before.
pub fn act_start(
    book: &mut Book,
    alloc: Global,
    row: StartRow,
    reply: &Reply<'_>,
) -> Result<(), Memory>
    ensures ok { OnOk result (book.new ≡ act_start row (said_of reply.now) book.old) }
    ensures memory { start_takes_memory row ≡ false → IsOk result }
    ensures err { OnErr result (book.new ≡ book.old) }
{
    match row {
        StartRow::Control(file, reading) => control_read(book, alloc, file, reading, reply)?,
        StartRow::GreetLocal => greeted_local(book, reply),
        StartRow::GreetRemote { .. } => greeted_remote(book, reply),
        StartRow::Scan { split } => scanned(book, split, reply),
        StartRow::StatTodo { split, n } => {
            let reading = Reading::Opening;
            let missing = StartRow::ReadInfo { split, n, reading };
            book.row = by_way(reply.way, StartRow::Scan { split }, missing);
        }
        StartRow::ReadInfo { split, n, reading } => {
            info_read(book, alloc, split, n, reading, reply)?
        }
        StartRow::StatInfo { split, n } => {
            let birth = reply.stat.moment;
            let there = StartRow::StatLocal { split, n, birth };
            book.row = by_way(reply.way, there, StartRow::Scan { split });
        }
        StartRow::StatLocal { split, n, birth } => {
            book.row = local_stated(reply.way, split, n, birth)
        }
        StartRow::StatRemote {
            split,
            n,
            birth,
            local,
        } => remote_stated(book, alloc, reply.way, split, n, birth, local)?,
        StartRow::Over | StartRow::Ended(_) => {}
    }
    Ok(())
}

/// What a failure in the start leads to.
fn start_failed(way: Way) -> StartRow
    ensures { result ≡ start_failed way }
{
    match way {
        Way::NoMemory => StartRow::Ended(MEMORY),
        _ => StartRow::Ended(NO_START),
    }
}

/// After a stat of the start.
fn by_way(way: Way, there: StartRow, missing: StartRow) -> StartRow
    ensures { result ≡ by_way way there missing }
{
    match way {
        Way::Fine => there,
        Way::Absent => missing,
        way => start_failed(way),
    }
}

/// More bytes of a file that is read: its open begins anew. After an `Err` all is as before.
pub fn keep(
    read: &mut ByteText,
    alloc: Global,
    reading: Reading,
    bytes: &[u8],
) -> Result<(), Memory>
    ensures ok { OnOk result (read.new ≡ kept reading read.old ++ bytes.now) }
    ensures err { OnErr result (read.new ≡ read.old) }
{
    match reading {
        Reading::Opening => *read = ByteText::from_slice(alloc, bytes)?,
        _ => read.extend(bytes)?,
    }
    Ok(())
}

/// A step of reading a control file.
fn control_read(
    book: &mut Book,
    alloc: Global,
    file: ControlFile,
    reading: Reading,
    reply: &Reply<'_>,
) -> Result<(), Memory>
    ensures ok { let s = said_of reply.now in OnOk result (book.new ≡ control_read (read_on reading s) file reading s book.old) }
    ensures err { OnErr result (book.new ≡ book.old) }
{
    match read_on(reading, reply) {
        Progress::Goes(Reading::Shutting(_)) | Progress::Failed => book.row = start_failed(
            reply.way,
        ),
        Progress::Goes(next) => {
            keep(&mut book.read, alloc, reading, reply.bytes)?;
            book.row = StartRow::Control(file, next);
        }
        Progress::Whole => {
            let content = ByteText::from_slice(alloc, book.read.as_slice())?;
            filed(book, alloc, Some(content), file)?;
        }
        Progress::Missing => filed(book, alloc, None, file)?,
    }
    Ok(())
}

/// The control file that is read after this one.
fn file_after(file: ControlFile) -> Option<ControlFile>
    ensures { result ≡ file_after file }
{
    match file {
        ControlFile::Me => Some(ControlFile::Locals),
        ControlFile::Locals => Some(ControlFile::PercentHack),
        ControlFile::PercentHack => Some(ControlFile::VirtualDomains),
        ControlFile::VirtualDomains => Some(ControlFile::EnvNoAtHost),
        ControlFile::EnvNoAtHost => Some(ControlFile::BounceFrom),
        ControlFile::BounceFrom => Some(ControlFile::BounceHost),
        ControlFile::BounceHost => Some(ControlFile::DoubleBounceTo),
        ControlFile::DoubleBounceTo => Some(ControlFile::DoubleBounceHost),
        ControlFile::DoubleBounceHost => Some(ControlFile::ConcurrencyLocal),
        ControlFile::ConcurrencyLocal => Some(ControlFile::ConcurrencyRemote),
        ControlFile::ConcurrencyRemote => Some(ControlFile::QueueLifetime),
        ControlFile::QueueLifetime => None,
    }
}

/// A control file was read, or is missing. After an `Err` all is as before.
#[tactic(auto, using(crate::proofs::FilesRead::put_back))]
fn filed(
    book: &mut Book,
    alloc: Global,
    content: Option<ByteText>,
    file: ControlFile,
) -> Result<(), Memory>
    ensures ok { OnOk result (book.new ≡ filed content file book.old) }
    ensures err { OnErr result (book.new ≡ book.old) }
{
    let old = put_file(book, file.place(), content);
    if next_file(book, alloc, file_after(file)).is_err() {
        put_file(book, file.place(), old);
        return Err(AllocError);
    }
    Ok(())
}

/// What a control file holds, by its place in the order of reading; answers what was there before.
fn put_file(book: &mut Book, at: usize, content: Option<ByteText>) -> Option<ByteText>
    requires { at < 12 }
    ensures old { result ≡ slice_index_or book.old.files at None }
    ensures new { book.new ≡ record book.old { files = set book.old.files at content } }
{
    replace(&mut book.files[at], content)
}

/// To the next control file, or on, once all were read. After an `Err` all is as before.
fn next_file(book: &mut Book, alloc: Global, next: Option<ControlFile>) -> Result<(), Memory>
    ensures ok { OnOk result (book.new ≡ next_file next book.old) }
    ensures err { OnErr result (book.new ≡ book.old) }
{
    match next {
        Some(next) => book.row = StartRow::Control(next, Reading::Opening),
        None => judge(book, alloc)?,
    }
    Ok(())
}

/// All control files were read. After an `Err` all is as before.
fn judge(book: &mut Book, alloc: Global) -> Result<(), Memory>
    ensures ok { OnOk result (book.new ≡ next_file None book.old) }
    ensures err { OnErr result (book.new ≡ book.old) }
{
    match Controls::read(alloc, &book.files) {
        Ok(controls) => {
            book.controls = controls;
            book.row = StartRow::GreetLocal;
        }
        Err(ControlError::BadControl { .. }) => book.row = StartRow::Ended(BAD_CONTROL),
        Err(ControlError::Memory) => return Err(AllocError),
    }
    Ok(())
}

/// The local spawner's byte. Takes no memory.
fn greeted_local(book: &mut Book, reply: &Reply<'_>)
    ensures { book.new ≡ greeted_local (said_of reply.now).way (said_of reply.now).bytes book.old }
{
    match (reply.way, reply.bytes) {
        (Way::Fine, [byte, ..]) => {
            let limit = least(*byte, book.controls.concurrency_local);
            book.row = StartRow::GreetRemote { limit };
        }
        _ => book.row = StartRow::Ended(NO_LOCAL),
    }
}

/// The remote spawner's byte. Takes no memory.
fn greeted_remote(book: &mut Book, reply: &Reply<'_>)
    ensures { book.new ≡ greeted_remote (said_of reply.now).way (said_of reply.now).bytes book.old }
{
    match (reply.way, reply.bytes) {
        (Way::Fine, [_, ..]) => {
            book.after.clear();
            book.row = StartRow::Scan { split: 0 };
        }
        _ => book.row = StartRow::Ended(NO_REMOTE),
    }
}

/// How many remote deliveries may run at once: as many as the spawner's byte says, and no more than the control file.
pub fn remote_limit(bytes: &[u8], controls: &Controls) -> u8
    ensures { result ≡ remote_limit bytes.now controls.now }
{
    match bytes {
        [] => 0,
        [byte, ..] => least(*byte, controls.concurrency_remote),
    }
}

/// The lesser of a spawner's byte and what its control file says.
fn least(byte: u8, concurrency: u32) -> u8
    ensures { result ≡ min byte concurrency }
{
    if u32::from(byte) <= concurrency {
        byte
    } else {
        concurrency as u8
    }
}

/// A name of the scan. Takes no memory.
fn scanned(book: &mut Book, split: u64, reply: &Reply<'_>)
    ensures { book.new ≡ scanned (said_of reply.now).way (said_of reply.now).bytes split book.old }
{
    match reply.way {
        Way::Fine => {
            book.row = scan_row(number_below(split, reply.bytes), split);
            book.after = hold(reply.bytes);
        }
        Way::Over => scan_next(book, split),
        way => book.row = start_failed(way),
    }
}

/// To the next directory of the scan, or to the first turn.
fn scan_next(book: &mut Book, split: u64)
    ensures { book.new ≡ scan_next split book.old }
{
    book.after.clear();
    book.row = if split < 22 {
        StartRow::Scan { split: split + 1 }
    } else {
        StartRow::Over
    };
}

/// The message number that a name in this directory is: of another directory's none is taken.
fn number_below(dir: u64, name: &[u8]) -> Option<u64>
    ensures { result ≡ number_below dir name.now }
{
    match message_number(name) {
        Some(n) if split(n) == dir => Some(n),
        _ => None,
    }
}

/// After a name of the scan.
fn scan_row(n: Option<u64>, split: u64) -> StartRow
    ensures { result ≡ scan_row n split }
{
    match n {
        None => StartRow::Scan { split },
        Some(n) => StartRow::StatTodo { split, n },
    }
}

/// A step of reading an info file. After an `Err` all is as before.
fn info_read(
    book: &mut Book,
    alloc: Global,
    split: u64,
    n: u64,
    reading: Reading,
    reply: &Reply<'_>,
) -> Result<(), Memory>
    ensures ok { let s = said_of reply.now in OnOk result (book.new ≡ info_read (read_on reading s) split n reading s book.old) }
    ensures err { OnErr result (book.new ≡ book.old) }
{
    match read_on(reading, reply) {
        Progress::Goes(Reading::Shutting(_)) | Progress::Failed => book.row = start_failed(
            reply.way,
        ),
        Progress::Goes(next) => {
            keep(&mut book.read, alloc, reading, reply.bytes)?;
            let reading = next;
            book.row = StartRow::ReadInfo { split, n, reading };
        }
        Progress::Whole => {
            book.row = info_row(is_info(book.read.as_slice()), split, n);
        }
        Progress::Missing => book.row = StartRow::Scan { split },
    }
    Ok(())
}

/// After an info file was read.
fn info_row(is_info: bool, split: u64, n: u64) -> StartRow
    ensures { result ≡ info_row is_info split n }
{
    if is_info {
        StartRow::StatInfo { split, n }
    } else {
        StartRow::Scan { split }
    }
}

/// After the stat of a file of the local channel.
fn local_stated(way: Way, split: u64, n: u64, birth: u64) -> StartRow
    ensures { result ≡ by_way way (StartRow.StatRemote split n birth true) (StartRow.StatRemote split n birth false) }
{
    let local = matches!(way, Way::Fine);
    match way {
        Way::Fine | Way::Absent => StartRow::StatRemote {
            split,
            n,
            birth,
            local,
        },
        way => start_failed(way),
    }
}

/// After the stat of a file of the remote channel. After an `Err` all is as before.
fn remote_stated(
    book: &mut Book,
    alloc: Global,
    way: Way,
    split: u64,
    n: u64,
    birth: u64,
    local: bool,
) -> Result<(), Memory>
    ensures ok { OnOk result (book.new ≡ remote_stated way split n birth local book.old) }
    ensures err { OnErr result (book.new ≡ book.old) }
{
    match way {
        Way::Fine => scan_known(book, alloc, split, n, birth, local, true)?,
        Way::Absent => scan_known(book, alloc, split, n, birth, local, false)?,
        way => book.row = start_failed(way),
    }
    Ok(())
}

/// What the scan found is known, and due at moment 0. After an `Err` all is as before.
fn scan_known(
    book: &mut Book,
    alloc: Global,
    split: u64,
    n: u64,
    birth: u64,
    local: bool,
    remote: bool,
) -> Result<(), Memory>
    ensures ok { OnOk result (book.new ≡ scan_known split n birth local remote book.old) }
    ensures err { OnErr result (book.new ≡ book.old) }
{
    let known = Known {
        n,
        birth,
        finish_at: 0,
        local,
        remote,
        sender: sender_in(alloc, book.read.as_slice())?,
    };
    book.messages.learn(alloc, known, 0)?;
    book.row = StartRow::Scan { split };
    Ok(())
}
