// What is read before the first line: control/me, the names of the home, and the instructions. After an `Err` all is as before.
ghost use Rattle.std.specs.Prelude.{◌≡◌, OnOk, OnErr};
ghost use Rattle.call_fs.specs.Program.{came_of};
ghost use Rattle.maildir_drop.specs.Names.{is_name};
ghost use Rattle.local_deliver.specs.Table.{chooses, closed, ends, follows, hosted, hosted_by, instructed, looks, missing, named, named_with, opened, opened_with, read_on, read_row, read_whole, read_with};

use crate::lines::{begins_lines, by_default, fails};
use crate::{Failure, Place, Reading, Row, Wanted};
use call_fs::{Answer, Fd, FsError, Got, PIECE};
use dot_qmail::Chosen;
use local_parts::{LocalArgs, chosen_by, course_of, delivered_to, file_name, host_in, is_looping};
use mail_bytes::{ByteText, Memory};
use maildir_drop::is_name;
use queue_limits::MEMORY;
use std::alloc::Global;

/// It has ended with this status. Takes no memory.
pub fn ends(place: &mut Place, status: u8)
    ensures { place.new ≡ ends status place.old }
{
    place.row = Row::Ended { status };
}

/// After the open of a file. The error: out of memory.
pub fn opened_with(
    place: &mut Place,
    alloc: Global,
    args: &LocalArgs,
    wanted: Wanted,
    got: &Got<'_>,
) -> Result<(), Memory>
    ensures ok { OnOk result (place.new ≡ opened_with args.now wanted (came_of got.now) place.old) }
    ensures err { OnErr result (place.new ≡ place.old) }
{
    match got {
        Got::File(answer, _) => opened(place, alloc, args, wanted, answer),
        _ => {
            fails(place, Failure::Home);
            Ok(())
        }
    }
}

/// After this answer to it.
fn opened(
    place: &mut Place,
    alloc: Global,
    args: &LocalArgs,
    wanted: Wanted,
    told: &Answer,
) -> Result<(), Memory>
    ensures ok { OnOk result (place.new ≡ opened args.now wanted told.now place.old) }
    ensures err { OnErr result (place.new ≡ place.old) }
{
    match told {
        Answer::Opened(fd) => place.row = Row::Read { wanted, fd: *fd },
        Answer::Refused(FsError::NotThere) => return missing(place, alloc, args, wanted),
        Answer::Refused(FsError::Memory) => ends(place, MEMORY),
        _ => fails(place, Failure::Home),
    }
    Ok(())
}

/// After a file was found missing.
fn missing(place: &mut Place, alloc: Global, args: &LocalArgs, wanted: Wanted) -> Result<(), Memory>
    ensures ok { OnOk result (place.new ≡ missing args.now wanted place.old) }
    ensures err { OnErr result (place.new ≡ place.old) }
{
    match wanted {
        Wanted::Host => {
            let host = ByteText::from_slice(alloc, b"localhost")?;
            hosted(place, alloc, args, host)
        }
        Wanted::Instructions => {
            fails(place, Failure::Home);
            Ok(())
        }
    }
}

/// After a read of a file. The error: out of memory.
pub fn read_with(place: &mut Place, wanted: Wanted, fd: Fd, got: &Got<'_>) -> Result<(), Memory>
    ensures ok { OnOk result (place.new ≡ read_with wanted fd (came_of got.now) place.old) }
    ensures err { OnErr result (place.new ≡ place.old) }
{
    match got {
        Got::File(answer, bytes) => read_on(place, wanted, fd, answer, bytes),
        _ => {
            place.row = close_row(wanted, fd, Reading::Fault);
            Ok(())
        }
    }
}

/// After this answer to it.
fn read_on(
    place: &mut Place,
    wanted: Wanted,
    fd: Fd,
    told: &Answer,
    bytes: &[u8],
) -> Result<(), Memory>
    ensures ok { OnOk result (place.new ≡ read_on wanted fd told.now bytes.now place.old) }
    ensures err { OnErr result (place.new ≡ place.old) }
{
    match told {
        Answer::Count(_) => {
            place.read.extend(bytes)?;
            place.row = read_row(wanted, fd, bytes);
        }
        Answer::Refused(FsError::Memory) => place.row = close_row(wanted, fd, Reading::Memory),
        _ => place.row = close_row(wanted, fd, Reading::Fault),
    }
    Ok(())
}

/// A file is to be closed.
fn close_row(wanted: Wanted, fd: Fd, reading: Reading) -> Row
    ensures { result ≡ Row.Close wanted fd reading }
{
    Row::Close {
        wanted,
        fd,
        reading,
    }
}

/// After these bytes of a read.
fn read_row(wanted: Wanted, fd: Fd, bytes: &[u8]) -> Row
    ensures { result ≡ read_row wanted fd bytes.now }
{
    if bytes.len() < PIECE {
        close_row(wanted, fd, Reading::Whole)
    } else {
        Row::Read { wanted, fd }
    }
}

/// After the close of a file. The error: out of memory.
pub fn closed(
    place: &mut Place,
    alloc: Global,
    args: &LocalArgs,
    now: u64,
    wanted: Wanted,
    reading: Reading,
) -> Result<(), Memory>
    ensures ok { OnOk result (place.new ≡ closed args.now now wanted reading place.old) }
    ensures err { OnErr result (place.new ≡ place.old) }
{
    match reading {
        Reading::Whole => return read_whole(place, alloc, args, now, wanted),
        Reading::Fault => fails(place, Failure::Home),
        Reading::Memory => ends(place, MEMORY),
    }
    Ok(())
}

/// After a file was read to its end.
fn read_whole(
    place: &mut Place,
    alloc: Global,
    args: &LocalArgs,
    now: u64,
    wanted: Wanted,
) -> Result<(), Memory>
    ensures ok { OnOk result (place.new ≡ read_whole args.now now wanted place.old) }
    ensures err { OnErr result (place.new ≡ place.old) }
{
    match wanted {
        Wanted::Host => {
            let host = host_in(alloc, place.read.as_slice())?;
            hosted_by(place, alloc, args, host)
        }
        Wanted::Instructions => instructed(place, alloc, args, now),
    }
}

/// Goes on with the instructions that were read; an empty file stands for the default ones.
fn instructed(place: &mut Place, alloc: Global, args: &LocalArgs, now: u64) -> Result<(), Memory>
    ensures ok { OnOk result (place.new ≡ instructed args.now now place.old.read place.old) }
    ensures err { OnErr result (place.new ≡ place.old) }
{
    if place.read.is_empty() {
        return by_default(place, alloc, args, now);
    }
    let course = course_of(alloc, place.read.as_slice())?;
    begins_lines(place, alloc, args, now, course)
}

/// Goes on with the name of the host, if control/me is good.
fn hosted_by(
    place: &mut Place,
    alloc: Global,
    args: &LocalArgs,
    host: Option<ByteText>,
) -> Result<(), Memory>
    ensures ok { OnOk result (place.new ≡ hosted_by args.now host place.old) }
    ensures err { OnErr result (place.new ≡ place.old) }
{
    match host {
        Some(host) => hosted(place, alloc, args, host),
        None => {
            fails(place, Failure::Home);
            Ok(())
        }
    }
}

/// Goes on with the name of the host: the loop test.
fn hosted(place: &mut Place, alloc: Global, args: &LocalArgs, host: ByteText) -> Result<(), Memory>
    ensures ok { OnOk result (place.new ≡ hosted args.now host place.old) }
    ensures err { OnErr result (place.new ≡ place.old) }
{
    let line = delivered_to(alloc, args)?;
    if is_looping(line.as_slice(), &place.message) {
        fails(place, Failure::Looping);
    } else {
        place.host = host;
        looks(place, args);
    }
    Ok(())
}

/// Looks into the home, if it has the form of a name.
fn looks(place: &mut Place, args: &LocalArgs)
    ensures { place.new ≡ looks args.now place.old }
{
    if is_name(args.home.as_slice()) {
        place.row = Row::NextName;
    } else {
        fails(place, Failure::Home);
    }
}

/// After a search for the next name of the home. The error: out of memory.
pub fn named_with(
    place: &mut Place,
    alloc: Global,
    args: &LocalArgs,
    now: u64,
    got: &Got<'_>,
) -> Result<(), Memory>
    ensures ok { OnOk result (place.new ≡ named_with args.now now (came_of got.now) place.old) }
    ensures err { OnErr result (place.new ≡ place.old) }
{
    match got {
        Got::File(answer, _) => named(place, alloc, args, now, answer),
        _ => {
            fails(place, Failure::Home);
            Ok(())
        }
    }
}

/// After this answer to it.
fn named(
    place: &mut Place,
    alloc: Global,
    args: &LocalArgs,
    now: u64,
    told: &Answer,
) -> Result<(), Memory>
    ensures ok { OnOk result (place.new ≡ named args.now now told.now place.old) }
    ensures err { OnErr result (place.new ≡ place.old) }
{
    match told {
        Answer::Name(name) => {
            place.names.put(alloc, name.as_slice())?;
            place.row = Row::NextName;
        }
        Answer::NoName => return chooses(place, alloc, args, now),
        Answer::Refused(FsError::Memory) => ends(place, MEMORY),
        _ => fails(place, Failure::Home),
    }
    Ok(())
}

/// All names of the home were told: chooses among them.
fn chooses(place: &mut Place, alloc: Global, args: &LocalArgs, now: u64) -> Result<(), Memory>
    ensures ok { OnOk result (place.new ≡ chooses args.now now place.old) }
    ensures err { OnErr result (place.new ≡ place.old) }
{
    let chosen = chosen_by(alloc, args, &place.names)?;
    follows(place, alloc, args, now, chosen)
}

/// Follows what was chosen.
fn follows(
    place: &mut Place,
    alloc: Global,
    args: &LocalArgs,
    now: u64,
    chosen: Option<Chosen>,
) -> Result<(), Memory>
    ensures ok { OnOk result (place.new ≡ follows args.now now chosen place.old) }
    ensures err { OnErr result (place.new ≡ place.old) }
{
    match chosen {
        None => {
            fails(place, Failure::NoMailbox);
            Ok(())
        }
        Some(Chosen::Default) => by_default(place, alloc, args, now),
        Some(Chosen::File(at)) => {
            place.name = file_name(alloc, args, &place.names, at)?;
            place.read = ByteText::new(alloc);
            place.row = Row::Open {
                wanted: Wanted::Instructions,
            };
            Ok(())
        }
    }
}
