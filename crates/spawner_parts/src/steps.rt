// Where what came leads: a spawner's table, a function a row. After an `Err` all is as before.
ghost use Rattle.std.specs.Prelude.{◌≡◌, ◌++◌, set, OnOk, OnErr, IfOk};
ghost use Rattle.call_fs.specs.Program.{came_of};
ghost use Rattle.spawner_parts.specs.Asked.{is_bad, name_of_mess};
ghost use Rattle.spawner_parts.specs.Table.{answers, exited, fed, gave, heeded, launched, next_request, opened, opened_by, opens, printed, read_by, read_on, read_row, reports, status_of, took, unable, with_pulled};

use crate::asked::{is_bad, name_of_mess};
use crate::{Place, Row};
use call_fs::{Answer, Fd, FsError, Got, PIECE};
use mail_bytes::{ByteText, Memory};
use outside::Status;
use queue_limits::{INPUT, OUTPUT};
use spawn_protocol::{Inbox, Pulled, Request, numbered};
use std::alloc::Global;

/// What is told of a request that names no message, no free slot or no recipient.
const BAD_REQUEST: &[u8] = b"ZBad request. (#4.3.0)";

/// What is told when a message couldn't be read.
const UNABLE: &[u8] = b"ZUnable to open the message. (#4.3.0)";

/// What is told when a message couldn't be opened, or a program started, for memory.
const NO_MEMORY: &[u8] = b"ZOut of memory. (#4.3.0)";

/// The report of this slot is due.
fn reports(place: &mut Place, alloc: Global, report: &[u8], slot: u8) -> Result<(), Memory>
    ensures ok { OnOk result (place.new ≡ reports report.now slot place.old) }
    ensures err { OnErr result (place.new ≡ place.old) }
{
    place.report = numbered(alloc, slot, report)?;
    place.row = Row::Report;
    Ok(())
}

/// The report of the request at work is due. The error: out of memory.
pub fn answers(place: &mut Place, alloc: Global, report: &[u8]) -> Result<(), Memory>
    ensures ok { OnOk result (place.new ≡ answers report.now place.old) }
    ensures err { OnErr result (place.new ≡ place.old) }
{
    let slot = place.request.slot;
    reports(place, alloc, report, slot)
}

/// Goes on to the next request, if a whole one was taken.
pub fn next_request(place: &mut Place, alloc: Global) -> Result<(), Memory>
    ensures ok { OnOk result (place.new ≡ next_request place.old) }
    ensures err { OnErr result (place.new ≡ place.old) }
{
    let pulled = place.inbox.pull(alloc)?;
    with_pulled(place, alloc, pulled)
}

/// Goes on to what was pulled.
fn with_pulled(place: &mut Place, alloc: Global, pulled: Pulled) -> Result<(), Memory>
    ensures ok { OnOk result (place.new ≡ with_pulled pulled place.old) }
    ensures err { OnErr result (place.new ≡ place.old) }
{
    heed(place, alloc, pulled.request)?;
    place.inbox = pulled.inbox;
    Ok(())
}

/// Goes on to this request; to none, it stands between two steps.
fn heed(place: &mut Place, alloc: Global, request: Option<Request>) -> Result<(), Memory>
    ensures ok { OnOk result (place.new ≡ heeded request place.old) }
    ensures err { OnErr result (place.new ≡ place.old) }
{
    match request {
        None => {
            place.row = Row::Idle;
            Ok(())
        }
        Some(request) => heed_one(place, alloc, request),
    }
}

/// Goes on to this request.
fn heed_one(place: &mut Place, alloc: Global, request: Request) -> Result<(), Memory>
    ensures ok { OnOk result (place.new ≡ heeded (Some request) place.old) }
    ensures err { OnErr result (place.new ≡ place.old) }
{
    let name = name_of_mess(alloc, request.mess.as_slice())?;
    if is_bad(&place.running, &request, name.as_slice()) {
        return reports(place, alloc, BAD_REQUEST, request.slot);
    }
    place.row = Row::OpenMess;
    place.request = request;
    place.name = name;
    place.message = ByteText::new(alloc);
    Ok(())
}

/// After a give to the output. The error: out of memory.
pub fn gave(place: &mut Place, alloc: Global, got: &Got<'_>) -> Result<(), Memory>
    ensures ok { OnOk result (place.new ≡ gave (came_of got.now) place.old) }
    ensures err { OnErr result (place.new ≡ place.old) }
{
    match got {
        Got::Gave => next_request(place, alloc),
        _ => {
            place.row = Row::Ended { status: OUTPUT };
            Ok(())
        }
    }
}

/// After a taking of requests. The error: out of memory.
pub fn took(place: &mut Place, alloc: Global, got: &Got<'_>) -> Result<(), Memory>
    ensures ok { OnOk result (place.new ≡ took (came_of got.now) place.old) }
    ensures err { OnErr result (place.new ≡ place.old) }
{
    match got {
        Got::Took(bytes) => {
            let pulled = place.inbox.with_more(alloc, bytes)?.pull(alloc)?;
            return with_pulled(place, alloc, pulled);
        }
        Got::End => {
            place.row = Row::Idle;
            place.inbox = Inbox::ended(alloc);
        }
        _ => place.row = Row::Ended { status: INPUT },
    }
    Ok(())
}

/// After the open of the message's file. The error: out of memory.
pub fn opened(place: &mut Place, alloc: Global, got: &Got<'_>) -> Result<(), Memory>
    ensures ok { OnOk result (place.new ≡ opened (came_of got.now) place.old) }
    ensures err { OnErr result (place.new ≡ place.old) }
{
    match got {
        Got::File(answer, _) => opened_by(place, alloc, answer),
        _ => answers(place, alloc, UNABLE),
    }
}

/// After this answer to it.
fn opened_by(place: &mut Place, alloc: Global, told: &Answer) -> Result<(), Memory>
    ensures ok { OnOk result (place.new ≡ opened_by told.now place.old) }
    ensures err { OnErr result (place.new ≡ place.old) }
{
    match told {
        Answer::Opened(fd) => {
            place.row = Row::ReadMess { fd: *fd };
            Ok(())
        }
        Answer::Refused(FsError::Memory) => answers(place, alloc, NO_MEMORY),
        _ => answers(place, alloc, UNABLE),
    }
}

/// After a read of it. The error: out of memory.
pub fn read_on(place: &mut Place, fd: Fd, got: &Got<'_>) -> Result<(), Memory>
    ensures ok { OnOk result (place.new ≡ read_on fd (came_of got.now) place.old) }
    ensures err { OnErr result (place.new ≡ place.old) }
{
    match got {
        Got::File(Answer::Count(_), bytes) => {
            place.message.extend(bytes)?;
            place.row = read_row(fd, bytes);
        }
        _ => place.row = Row::CloseMess { fd, whole: false },
    }
    Ok(())
}

/// After these bytes of a read.
fn read_row(fd: Fd, bytes: &[u8]) -> Row
    ensures { result ≡ read_row fd bytes.now }
{
    if bytes.len() < PIECE {
        Row::CloseMess { fd, whole: true }
    } else {
        Row::ReadMess { fd }
    }
}

/// After its close, if it couldn't be read to its end.
pub fn unread(place: &mut Place, alloc: Global) -> Result<(), Memory>
    ensures ok { OnOk result (place.new ≡ answers unable place.old) }
    ensures err { OnErr result (place.new ≡ place.old) }
{
    answers(place, alloc, UNABLE)
}

/// After the start of the program. If it couldn't be started, this report is due.
pub fn launched(
    place: &mut Place,
    alloc: Global,
    got: &Got<'_>,
    report: &[u8],
) -> Result<(), Memory>
    ensures ok { OnOk result (place.new ≡ launched report.now (came_of got.now) place.old) }
    ensures err { OnErr result (place.new ≡ place.old) }
{
    match got {
        Got::Started { .. } => {
            place.row = Row::Feed;
            set_running(&mut place.running, place.request.slot, true);
            Ok(())
        }
        Got::Memory => answers(place, alloc, NO_MEMORY),
        _ => answers(place, alloc, report),
    }
}

/// A program runs in this slot, or none does; nothing changes if there is no such slot.
#[tactic(auto, using(crate::proofs::Hosts::set_out_of))]
fn set_running(running: &mut [bool], slot: u8, runs: bool)
    ensures { running.new ≡ set running.old slot runs }
{
    let place = usize::from(slot);
    if place < running.len() {
        running[place] = runs;
    }
}

/// After the give of the message to the program, which may have failed.
pub fn fed(place: &mut Place, alloc: Global) -> Result<(), Memory>
    ensures ok { OnOk result (place.new ≡ fed place.old) }
    ensures err { OnErr result (place.new ≡ place.old) }
{
    next_request(place, alloc)?;
    place.message = ByteText::new(alloc);
    Ok(())
}

/// After a taking of what a program printed. The error: out of memory.
pub fn printed(place: &mut Place, slot: u8, got: &Got<'_>) -> Result<(), Memory>
    ensures ok { OnOk result (place.new ≡ printed slot (came_of got.now) place.old) }
    ensures err { OnErr result (place.new ≡ place.old) }
{
    match got {
        Got::Took(bytes) => {
            place.output.extend(bytes)?;
            place.row = Row::TakeOutput { slot };
        }
        Got::End => place.row = Row::TakeStatus { slot },
        _ => place.row = Row::Ended { status: INPUT },
    }
    Ok(())
}

/// After the taking of a program's status, by which this report is due. The error: out of memory.
pub fn exited(place: &mut Place, alloc: Global, slot: u8, report: &[u8]) -> Result<(), Memory>
    ensures ok { OnOk result (place.new ≡ exited slot report.now place.old) }
    ensures err { OnErr result (place.new ≡ place.old) }
{
    place.report = numbered(alloc, slot, report)?;
    place.output = ByteText::new(alloc);
    set_running(&mut place.running, slot, false);
    place.row = Row::Report;
    Ok(())
}

/// How a program ended, of which this came. A status that couldn't be had counts as a crash.
pub fn status_of(got: &Got<'_>) -> Status
    ensures { result ≡ status_of (came_of got.now) }
{
    match got {
        Got::Ended(code) => Status::Ended(*code),
        Got::Crashed => Status::Crashed,
        _ => Status::Failed,
    }
}
