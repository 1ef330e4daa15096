// The instructions, line by line. After an `Err` all is as before.
ghost use Rattle.std.specs.Prelude.{◌≡◌, OnOk, OnErr, IfOk};
ghost use Rattle.local_deliver.specs.Drops.{end_drop};
ghost use Rattle.local_deliver.specs.Table.{begins_lines, by_default, drops_by, fails, goes_on, last_step, line_done, lines_done, reports, step_of, takes};
ghost use Rattle.local_parts.specs.Course.{lines_of, work_data};
ghost use Rattle.local_parts.specs.Forwarding.{injection_of};

use crate::step::Step;
use crate::{Dropping, Failure, Place, Row};
use dot_qmail::Line;
use local_parts::{Course, LocalArgs, Work, default_course, did_report, injection_of};
use mail_bytes::{ByteText, Memory};
use queue_limits::DONE;
use std::alloc::Global;

/// The delivery has failed. Takes no memory.
pub fn fails(place: &mut Place, failure: Failure)
    ensures { place.new ≡ fails failure place.old }
{
    place.row = Row::Fail { failure };
}

/// A report is due. Takes no memory.
pub fn reports(place: &mut Place, status: u8, text: ByteText)
    ensures { place.new ≡ reports status text place.old }
{
    place.row = Row::Report { status };
    place.text = text;
}

/// What these lines lead to, of which this is to be done next; `now` is the moment of the event just before.
fn step_of(
    alloc: Global,
    args: &LocalArgs,
    now: u64,
    work: Work<'_>,
    lines: &[Line],
    place: &Place,
) -> Result<Step, Memory>
    ensures { IfOk result (λ step. step ≡ step_of args.now now (work_data work.entry) lines.now place.now) }
{
    match work {
        Work::Nothing => last_step(alloc, args, lines, place),
        Work::Command(text) => Ok(Step::Run(ByteText::from_slice(alloc, text)?)),
        Work::Maildir(path) => {
            let host = place.host.as_slice();
            let drop = Dropping::new(alloc, args, now, path, host, &place.message)?;
            Ok(Step::Drop(drop))
        }
        Work::Mailbox(_) => Ok(Step::Fail(Failure::Mailbox)),
    }
}

/// What comes after the last of these lines.
fn last_step(alloc: Global, args: &LocalArgs, lines: &[Line], place: &Place) -> Result<Step, Memory>
    ensures { IfOk result (λ step. step ≡ last_step (injection_of args.now place.now.names place.now.message lines.now) lines.now) }
{
    match injection_of(alloc, args, &place.names, &place.message, lines)? {
        Some(injection) => Ok(Step::Start(injection)),
        None => Ok(Step::Report(did_report(alloc, lines)?)),
    }
}

/// Takes it. Takes no memory.
fn takes(place: &mut Place, step: Step)
    ensures { place.new ≡ takes step place.old }
{
    match step {
        Step::Report(text) => reports(place, DONE, text),
        Step::Start(injection) => {
            place.row = Row::Start;
            place.text = injection.text;
            place.room = injection.room;
        }
        Step::Run(text) => {
            place.row = Row::Run;
            place.text = text;
        }
        Step::Drop(drop) => begins_drop(place, drop),
        Step::Fail(failure) => fails(place, failure),
    }
}

/// A drop begins, unless it has ended at once.
fn begins_drop(place: &mut Place, drop: Dropping)
    ensures { place.new ≡ drops_by (end_drop drop) drop place.old }
{
    if drop.is_over() {
        fails(place, Failure::Maildir);
    } else {
        place.row = Row::Drop;
        place.dropping = Some(drop);
    }
}

/// Begins with instructions; without any, the first line was blank. The error: out of memory.
pub fn begins_lines(
    place: &mut Place,
    alloc: Global,
    args: &LocalArgs,
    now: u64,
    course: Option<Course>,
) -> Result<(), Memory>
    ensures ok { OnOk result (place.new ≡ begins_lines args.now now course place.old) }
    ensures err { OnErr result (place.new ≡ place.old) }
{
    let Some(course) = course else {
        fails(place, Failure::BlankFirst);
        return Ok(());
    };
    let step = step_of(alloc, args, now, course.work(), course.lines(), place)?;
    place.course = course;
    takes(place, step);
    Ok(())
}

/// Begins with the default instructions.
pub fn by_default(
    place: &mut Place,
    alloc: Global,
    args: &LocalArgs,
    now: u64,
) -> Result<(), Memory>
    ensures ok { OnOk result (place.new ≡ by_default args.now now place.old) }
    ensures err { OnErr result (place.new ≡ place.old) }
{
    let course = default_course(alloc, args)?;
    begins_lines(place, alloc, args, now, course)
}

/// The line at work was done. The error: out of memory.
pub fn line_done(place: &mut Place, alloc: Global, args: &LocalArgs, now: u64) -> Result<(), Memory>
    ensures ok { OnOk result (place.new ≡ line_done args.now now place.old) }
    ensures err { OnErr result (place.new ≡ place.old) }
{
    let course = &place.course;
    let step = step_of(alloc, args, now, course.later_work(), course.lines(), place)?;
    place.course.pass();
    takes(place, step);
    Ok(())
}

/// The line at work was a command that has the later lines passed over. The error: out of memory.
pub fn lines_done(
    place: &mut Place,
    alloc: Global,
    args: &LocalArgs,
    now: u64,
) -> Result<(), Memory>
    ensures ok { OnOk result (place.new ≡ lines_done args.now now place.old) }
    ensures err { OnErr result (place.new ≡ place.old) }
{
    let step = last_step(alloc, args, place.course.lines_so_far(), place)?;
    place.course.cut();
    takes(place, step);
    Ok(())
}
