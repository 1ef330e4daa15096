// Calls that are made one after the other.
ghost use Rattle.std.specs.Prelude.{◌≡◌, ◌≤◌, ◌↔◌, ℕ, Some, IfOk, OnOk, OnErr, IsSomeAnd, IsTrue, List, length};
ghost use Rattle.std.specs.Ordering.{nat_cmp};
ghost use Rattle.std.specs.BTreeMap.{get};
ghost use Rattle.call_fs.specs.declared.calls.Answer.TheVariants.{Count};
ghost use Rattle.call_fs.specs.declared.calls.Told.{Told};
ghost use Rattle.call_fs.specs.Calls.{bytes_read, data_of};
ghost use Rattle.call_fs.specs.Columns.{HasRoomFor};
ghost use Rattle.call_fs.specs.Apply.{MayCall};
ghost use Rattle.call_fs.specs.Disk.{IsForAppend, IsForCut, IsForWrite};
ghost use Rattle.call_fs.specs.Maps.{put};
ghost use Rattle.call_fs.specs.Past.{Uses, held_after};
ghost use Rattle.call_runs.specs.Running.{May, Performs, Runs, StopsAt, none_held};
ghost use Rattle.mail_bytes.specs.Moments.{IsMoment};
ghost use Rattle.mail_bytes.specs.Told.{OnTold};

use call_fs::{Answer, Call, CallData, CallFs, Fd, KeptAnswer, Mode, PIECE, Told, perform};
use mail_bytes::{ByteText, LAST_MOMENT, Memory};
use std::alloc::Global;
use std::collections::BTreeMap;

/// The open descriptors, and how each came to be.
type Held = BTreeMap<u64, Mode>;

/// Makes these calls, each at its moment, one after the other, and gives what each told. It keeps the descriptors that its
/// own calls have opened and not closed, and stops, with what was told so far, before the first call that names another
/// one, doesn't fit how its own was opened, reads more than 8192 bytes or has no moment. After `Memory` some of the first
/// calls were made.
pub fn run_calls<D: CallFs>(
    alloc: Global,
    disk: &mut D,
    calls: &[(u64, CallData)],
) -> Result<Vec<Told>, Memory>
    ensures ran { IfOk result (λ told. Runs (Performs D.disk D.calls D.plan D.faults) disk.old calls.now told.items disk.new) }
    ensures stops { IfOk result (λ told. StopsAt none_held calls.now told.items) }
    ensures err { OnErr result ((told : List Told) × Runs (Performs D.disk D.calls D.plan D.faults) disk.old calls.now told disk.new) }
{
    let mut held = BTreeMap::new(alloc);
    let mut all = Vec::new(alloc);
    for call in calls {
        if !may(&held, call.0, &call.1) {
            return Ok(all);
        }
        let told = make(alloc, disk, call.0, &call.1)?;
        keep(&mut held, &call.1, &told.answer.copy())?;
        all.push(told)?;
    }
    Ok(all)
}

/// Whether a call may be made: it has a moment, and uses only what is held, in a mode that fits.
fn may(held: &Held, now: u64, call: &CallData) -> bool
    ensures { IsTrue result ↔ May (get nat_cmp held.now) (now, call.now) }
{
    now <= LAST_MOMENT && uses(held, call)
}

/// Whether a call uses only what is held, in a mode that fits, and reads no more than a piece.
fn uses(held: &Held, call: &CallData) -> bool
    ensures { IsTrue result ↔ Uses (get nat_cmp held.now) call.now }
{
    match call {
        CallData::ReadAt(fd, _, len) => held.contains_key(&fd.0) && *len <= PIECE as u64,
        CallData::WriteAt(fd, _, _) => is_for_write(held, *fd),
        CallData::Append(fd, _) => is_for_append(held, *fd),
        CallData::Truncate(fd, _) => is_for_cut(held, *fd),
        CallData::Sync(fd) | CallData::Close(fd) => held.contains_key(&fd.0),
        _ => true,
    }
}

/// Whether a descriptor is held of which places of its file may be overwritten.
fn is_for_write(held: &Held, fd: Fd) -> bool
    ensures { IsTrue result ↔ IsSomeAnd (get nat_cmp held.now fd.0) IsForWrite }
{
    match held.get(&fd.0) {
        Some(mode) => mode.is_for_write(),
        None => false,
    }
}

/// Whether a descriptor is held of which bytes may be put at the end of its file.
fn is_for_append(held: &Held, fd: Fd) -> bool
    ensures { IsTrue result ↔ IsSomeAnd (get nat_cmp held.now fd.0) IsForAppend }
{
    match held.get(&fd.0) {
        Some(mode) => mode.is_for_append(),
        None => false,
    }
}

/// Whether a descriptor is held of which its file may be cut.
fn is_for_cut(held: &Held, fd: Fd) -> bool
    ensures { IsTrue result ↔ IsSomeAnd (get nat_cmp held.now fd.0) IsForCut }
{
    match held.get(&fd.0) {
        Some(mode) => mode.is_for_cut(),
        None => false,
    }
}

/// Makes a call, and gives what it told, with the bytes of a read. After an `Err` it was made. The conditions: it may be
/// made, and reads no more than a piece.
fn make<D: CallFs>(alloc: Global, disk: &mut D, now: u64, call: &CallData) -> Result<Told, Memory>
    requires moment { IsMoment now }
    requires fits { OnTold (D.disk disk.old) (λ before. MayCall before call.now) }
    requires piece { HasRoomFor PIECE call.now }
    ensures made { IfOk result (λ told. Performs D.disk D.calls D.plan D.faults disk.old now call.now told disk.new) }
    ensures err { OnErr result ((told : Told) × Performs D.disk D.calls D.plan D.faults disk.old now call.now told disk.new) }
{
    let mut into = [0u8; PIECE];
    let answer = perform(alloc, disk, now, lend(call), &mut into);
    let bytes = ByteText::from_slice(alloc, bytes_read(&answer, &into))?;
    let answer = KeptAnswer::of(alloc, &answer)?;
    Ok(Told { answer, bytes })
}

/// The call, with the names and bytes of this one.
fn lend(call: &CallData) -> Call<'_>
    ensures { data_of result ≡ call.now }
{
    match call {
        CallData::CreateExcl(name) => Call::CreateExcl(name.as_slice()),
        CallData::Open(name, how) => Call::Open(name.as_slice(), *how),
        CallData::ReadAt(fd, at, len) => Call::ReadAt(*fd, *at, *len),
        CallData::WriteAt(fd, at, bytes) => Call::WriteAt(*fd, *at, bytes.as_slice()),
        CallData::Append(fd, bytes) => Call::Append(*fd, bytes.as_slice()),
        CallData::Truncate(fd, len) => Call::Truncate(*fd, *len),
        CallData::Sync(fd) => Call::Sync(*fd),
        CallData::Close(fd) => Call::Close(*fd),
        CallData::Link(old, new) => Call::Link(old.as_slice(), new.as_slice()),
        CallData::Unlink(name) => Call::Unlink(name.as_slice()),
        CallData::Stat(name) => Call::Stat(name.as_slice()),
        CallData::NextName(dir, after) => Call::NextName(dir.as_slice(), after.as_slice()),
    }
}

/// The bytes that were read, which stand at the beginning of the buffer; none of another answer. The condition: the buffer
/// has them.
fn bytes_read<'a>(answer: &Answer, into: &'a [u8]) -> &'a [u8]
    requires { (n : ℕ) → answer.now ≡ Count n → n ≤ length into.now }
    ensures { result.now ≡ bytes_read answer.now into.now }
{
    match answer {
        Answer::Count(count) => &into[..*count as usize],
        _ => &[],
    }
}

/// Notes what is held after a call.
fn keep(held: &mut Held, call: &CallData, answer: &Answer) -> Result<(), Memory>
    ensures { OnOk result ((fd : ℕ) → get nat_cmp held.new fd ≡ held_after (get nat_cmp held.old) call.now answer.now fd) }
{
    match (call, answer) {
        (_, Answer::Created(fd, _)) => note(held, *fd, Mode::Created),
        (CallData::Open(_, how), Answer::Opened(fd)) => note(held, *fd, Mode::Opened(*how)),
        (CallData::Close(fd), Answer::Done) => {
            held.remove(&fd.0);
            Ok(())
        }
        _ => Ok(()),
    }
}

/// Notes that a descriptor is held.
fn note(held: &mut Held, fd: Fd, mode: Mode) -> Result<(), Memory>
    ensures { OnOk result ((q : ℕ) → get nat_cmp held.new q ≡ put (get nat_cmp held.old) fd.0 (Some mode) q) }
{
    held.insert(fd.0, mode)?;
    Ok(())
}
