// Where what came leads: the table of a local spawner, a function a row. After an `Err` all is as before.
ghost use Rattle.std.specs.Prelude.{◌≡◌, OnOk, OnErr, IfOk, unwrap_or};
ghost use Rattle.call_fs.specs.Program.{came_of};
ghost use Rattle.spawner_parts.specs.Table.{exited, status_of};
ghost use Rattle.local_spawn.specs.Deliveries.{delivery_for, local_report, refusal};
ghost use Rattle.local_spawn.specs.Table.{readied, served, serves, users_closed, users_opened, users_read, users_row};
ghost use Rattle.local_spawn.specs.Users.{users_in};

use crate::assign::Assign;
use crate::delivery::{CRASHED, delivery_for, local_report, netstring};
use crate::place::Place;
use crate::reading::AssignError;
use crate::row::Row;
use call_fs::{Answer, Fd, FsError, Got, PIECE};
use mail_bytes::{ByteText, Memory};
use spawner_parts::{
    Place as Work, Row as WorkRow, answers, exited, fed, gave, launched, opened, printed, read_on,
    status_of, took, unread,
};
use std::alloc::{AllocError, Global};

/// What is told of a request if users/assign couldn't be read.
const TROUBLE: &[u8] = b"ZTrouble reading users/assign. (#4.3.0)\n";

/// What is told of a request to nobody.
const NO_MAILBOX: &[u8] = b"DSorry, no mailbox here by that name. (#5.1.1)\n";

/// The users are known, or can't be.
fn serves(place: &mut Place, alloc: Global, users: Option<Assign>)
    ensures { place.new ≡ serves users place.old }
{
    place.row = Row::Serves;
    place.text = ByteText::new(alloc);
    place.users = users;
}

/// After the open of users/assign.
pub fn users_opened(place: &mut Place, alloc: Global, got: &Got<'_>)
    ensures { place.new ≡ users_opened (came_of got.now) place.old }
{
    match got {
        Got::File(Answer::Opened(fd), _) => place.row = Row::ReadUsers { fd: *fd },
        Got::File(Answer::Refused(FsError::NotThere), _) => {
            serves(place, alloc, Some(Assign::new(alloc)))
        }
        Got::File(Answer::Refused(FsError::Memory), _) => place.row = Row::OutOfMemory,
        _ => serves(place, alloc, None),
    }
}

/// After a read of it. The error: out of memory.
pub fn users_read(place: &mut Place, fd: Fd, got: &Got<'_>) -> Result<(), Memory>
    ensures ok { OnOk result (place.new ≡ users_read fd (came_of got.now) place.old) }
    ensures err { OnErr result (place.new ≡ place.old) }
{
    match got {
        Got::File(Answer::Count(_), bytes) => {
            place.text.extend(bytes)?;
            place.row = users_row(fd, bytes);
        }
        _ => place.row = Row::CloseUsers { fd, whole: false },
    }
    Ok(())
}

/// After these bytes of a read.
fn users_row(fd: Fd, bytes: &[u8]) -> Row
    ensures { result ≡ users_row fd bytes.now }
{
    if bytes.len() < PIECE {
        Row::CloseUsers { fd, whole: true }
    } else {
        Row::ReadUsers { fd }
    }
}

/// After its close. The error: out of memory.
pub fn users_closed(place: &mut Place, alloc: Global, whole: bool) -> Result<(), Memory>
    ensures ok { OnOk result (place.new ≡ users_closed whole place.old) }
    ensures err { OnErr result (place.new ≡ place.old) }
{
    let users = if whole {
        users_in(alloc, place.text.as_slice())?
    } else {
        None
    };
    serves(place, alloc, users);
    Ok(())
}

/// The users of a file with this text; `None` if it is none. Fails only if out of memory.
#[tactic(auto, using(crate::proofs::UserLemmas::read_is, crate::proofs::UserLemmas::bad_is, crate::proofs::UserLemmas::no_dot_is))]
fn users_in(alloc: Global, text: &[u8]) -> Result<Option<Assign>, Memory>
    ensures { IfOk result (λ users. users ≡ users_in text.now) }
{
    match Assign::read(alloc, text) {
        Ok(assign) => Ok(Some(assign)),
        Err(AssignError::Line(_) | AssignError::NoDot) => Ok(None),
        Err(AssignError::Memory) => Err(AllocError),
    }
}

/// After what came at a row of its work. The error: out of memory.
pub fn served(place: &mut Place, alloc: Global, row: WorkRow, got: &Got<'_>) -> Result<(), Memory>
    ensures ok { OnOk result (place.new ≡ served row (came_of got.now) place.old) }
    ensures err { OnErr result (place.new ≡ place.old) }
{
    let work = &mut place.work;
    match row {
        WorkRow::Greet | WorkRow::Report => gave(work, alloc, got),
        WorkRow::TakeInput => took(work, alloc, got),
        WorkRow::OpenMess => opened(work, alloc, got),
        WorkRow::ReadMess { fd } => read_on(work, fd, got),
        WorkRow::CloseMess { whole: false, .. } => unread(work, alloc),
        WorkRow::CloseMess { whole: true, .. } => readied(place, alloc),
        WorkRow::Start => launched(work, alloc, got, CRASHED),
        WorkRow::Feed => fed(work, alloc),
        WorkRow::TakeOutput { slot } => printed(work, slot, got),
        WorkRow::TakeStatus { slot } => ended(work, alloc, slot, got),
        WorkRow::Idle | WorkRow::Ended { .. } => Ok(()),
    }
}

/// Once the message was read: the user is looked for.
fn readied(place: &mut Place, alloc: Global) -> Result<(), Memory>
    ensures ok { OnOk result (place.new ≡ record place.old {
      work = readied place.old.users place.old.work;
      delivery = unwrap_or (delivery_for place.old.users place.old.work.request) place.old.delivery;
    }) }
    ensures err { OnErr result (place.new ≡ place.old) }
{
    match delivery_for(alloc, &place.users, &place.work.request)? {
        None => answers(&mut place.work, alloc, refusal(&place.users)),
        Some(delivery) => {
            place.work.message = netstring(alloc, place.work.message.as_slice())?;
            place.work.row = WorkRow::Start;
            place.delivery = delivery;
            Ok(())
        }
    }
}

/// What is told of a request that has no delivery.
fn refusal(users: &Option<Assign>) -> &'static [u8]
    ensures { result.now ≡ refusal users.now }
{
    match users {
        None => TROUBLE,
        Some(_) => NO_MAILBOX,
    }
}

/// After the taking of a delivery's status.
fn ended(work: &mut Work, alloc: Global, slot: u8, got: &Got<'_>) -> Result<(), Memory>
    ensures ok { OnOk result (work.new ≡ exited slot (local_report (status_of (came_of got.now)) work.old.output) work.old) }
    ensures err { OnErr result (work.new ≡ work.old) }
{
    let report = local_report(alloc, status_of(got), work.output.as_slice())?;
    exited(work, alloc, slot, report.as_slice())
}
