// What comes next: the order of a spawner's turns.
ghost use Rattle.std.specs.Prelude.{◌≡◌};
ghost use Rattle.call_fs.specs.Program.{due_of};
ghost use Rattle.call_fs.specs.declared.past.ChildData.{ChildData};
ghost use Rattle.spawner_parts.specs.Table.{IsNoStart, any_runs, begun, due_at, ended_by, is_asked, none_runs, resting, row_now, turning};

use crate::asked::runs_in;
use crate::place::{Place, SLOTS};
use crate::row::Row;
use call_fs::{Call, How, Need, PIECE, Port, Ready};
use mail_bytes::ByteText;
use queue_limits::{DONE, MALFORMED};
use spawn_protocol::{Inbox, Intake, Request};
use std::alloc::Global;

/// The byte that it gives first: how many programs it runs at once.
const GREETING: &[u8] = b"x";

/// What a spawner keeps at first.
pub fn begun(alloc: Global) -> Place
    ensures { result ≡ begun }
{
    Place {
        row: Row::Greet,
        inbox: Inbox::new(alloc),
        request: Request {
            slot: 0,
            mess: ByteText::new(alloc),
            sender: ByteText::new(alloc),
            recipient: ByteText::new(alloc),
        },
        name: ByteText::new(alloc),
        message: ByteText::new(alloc),
        output: ByteText::new(alloc),
        report: ByteText::new(alloc),
        running: [false; SLOTS],
    }
}

/// The row at which a spawner that keeps this is, with this ready.
pub fn row_now(place: &Place, ready: &Ready) -> Row
    ensures { result ≡ row_now place.now ready.now }
{
    match place.row {
        Row::Idle if is_asked(place, ready) => Row::TakeInput,
        Row::Idle => turning(place, ready.child),
        row => row,
    }
}

/// Whether requests are ready, and it takes any.
fn is_asked(place: &Place, ready: &Ready) -> bool
    ensures { result ≡ is_asked place.now ready.now }
{
    place.inbox.intake == Intake::Open && ready.links[0]
}

/// The row of the lowest program that has ended.
fn turning(place: &Place, child: Option<u8>) -> Row
    ensures { result ≡ turning place.now child }
{
    match child {
        Some(slot) if runs_in(&place.running, slot) => Row::TakeOutput { slot },
        _ => resting(place),
    }
}

/// The row when nothing is to be done: an end, if no program is left and it takes no more requests.
fn resting(place: &Place) -> Row
    ensures { result ≡ resting place.now }
{
    if none_runs(&place.running) {
        ended_by(place.inbox.intake)
    } else {
        Row::Idle
    }
}

/// Whether no program runs.
fn none_runs(running: &[bool]) -> bool
    ensures { result ≡ none_runs running.now }
{
    !any_runs(running)
}

/// Whether a program runs.
fn any_runs(running: &[bool]) -> bool
    ensures { result ≡ any_runs running.now }
{
    running.iter().any(|runs| *runs)
}

/// How it ends when no program is left, if it takes no more requests.
fn ended_by(intake: Intake) -> Row
    ensures { result ≡ ended_by intake }
{
    match intake {
        Intake::Open => Row::Idle,
        Intake::Ended => Row::Ended { status: DONE },
        Intake::TooLong => Row::Ended { status: MALFORMED },
    }
}

/// What is done at a row. The condition: it isn't the start of a program, which each spawner does in its own way.
pub fn need_at(row: Row, place: &Place) -> Need<'_>
    requires { IsNoStart row }
    ensures { (program : ChildData) → due_of result ≡ due_at program row place.now }
{
    match row {
        Row::Greet => Need::Give(Port::Output, GREETING),
        Row::Idle | Row::Start => Need::Wait,
        Row::TakeInput => Need::Take(Port::Input),
        Row::OpenMess => Need::File(Call::Open(place.name.as_slice(), How::Read)),
        Row::ReadMess { fd } => Need::File(Call::ReadAt(
            fd,
            place.message.len() as u64,
            PIECE as u64,
        )),
        Row::CloseMess { fd, .. } => Need::File(Call::Close(fd)),
        Row::Feed => Need::Give(Port::Program(place.request.slot), place.message.as_slice()),
        Row::TakeOutput { slot } => Need::Take(Port::Program(slot)),
        Row::TakeStatus { slot } => Need::Take(Port::Status(slot)),
        Row::Report => Need::Give(Port::Output, place.report.as_slice()),
        Row::Ended { status } => Need::Ended(status),
    }
}
