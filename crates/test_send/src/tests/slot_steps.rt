// Slots, passes, marks and jobs, step by step.

use Channel::{Local, Remote};
use envelope_records::records;
use mail_bytes::ByteText;
use queue_limits::MAX_SLOTS;
use send_jobs::{Attempt, Channel, Failure, Job, Mark, OutOfRange, Slots, retry_at};
use std::alloc::Global;

/// An attempt that went out: its message, its place, whether its pass is dying, its delivery and its address.
type Sent = (u64, u64, bool, u64, &'static [u8]);

/// What is done, and what comes of it.
#[derive(Clone, Copy, Debug)]
enum Step {
    /// A pass over a channel file of a message begins at a moment; it's a dying one or not.
    Begin(Channel, u64, &'static [u8], u64, bool),
    /// The place that is next.
    Next(Channel, Option<u64>),
    /// The message and address of the attempt that comes so many after the next one.
    Ahead(Channel, usize, Option<(u64, &'static [u8])>),
    /// The next attempt goes out in a slot.
    Take(Channel, Option<u8>),
    /// The lowest free slot.
    Free(Channel, Option<u8>),
    /// The attempt in flight in a slot.
    In(Channel, u8, Option<Sent>),
    /// A report of a slot, and of which attempt it is.
    Report(Channel, u8, Option<Sent>),
    /// A report of a slot, which is to be marked, after a note or without one.
    Owe(Channel, u8, Option<&'static [u8]>),
    /// The first mark that is to be made: its message, its place, and its note.
    Mark(Channel, Option<(u64, u64, Option<&'static [u8]>)>),
    /// The first mark is over.
    Settle(Channel),
    /// A place of a message stays `T`.
    Unmarked(Channel, u64),
    /// Whether each place of a message was reported.
    Finished(Channel, u64, bool),
    /// The job on a message: when it was begun, and whether a place of it stays `T`.
    Job(Channel, u64, Option<(u64, bool)>),
    /// The job on a message, if it is over.
    Over(Channel, u64, Option<(u64, bool)>),
    /// There is no job on a message any more.
    End(Channel, u64),
    /// How many attempts are in flight, and the number of the next delivery.
    Out(Channel, u8, u64),
}

/// Begins a pass if none is open and nothing of the message is in flight.
fn begins(
    alloc: Global,
    slots: &mut Slots,
    channel: Channel,
    n: u64,
    file: &[u8],
    begun: u64,
    dying: bool,
) -> bool {
    let Ok(found) = records(alloc, file) else {
        return false;
    };
    if slots.next_place(channel).is_some() || !slots.finished(channel, n) {
        return false;
    }
    slots
        .begin_pass(alloc, channel, n, &found, begun, dying)
        .is_ok()
}

/// The slot in which the next attempt goes out, if there is a next one.
fn taken(slots: &mut Slots, channel: Channel) -> Option<u8> {
    if slots.next_place(channel).is_some() {
        slots.take_lowest(channel)
    } else {
        None
    }
}

/// Whether it is the attempt of this row.
fn is_attempt(attempt: &Attempt, row: Sent) -> bool {
    attempt.n == row.0
        && attempt.place == row.1
        && attempt.dying == row.2
        && attempt.delivery == row.3
        && attempt.address.is(row.4)
}

/// Whether the attempt is that of the row, or neither has one.
fn is_sent(found: Option<&Attempt>, row: Option<Sent>) -> bool {
    match (found, row) {
        (None, None) => true,
        (Some(attempt), Some(row)) => is_attempt(attempt, row),
        _ => false,
    }
}

/// Whether the next attempt is that of the row, or neither has one.
fn is_ahead(found: Option<&Attempt>, row: Option<(u64, &[u8])>) -> bool {
    match (found, row) {
        (None, None) => true,
        (Some(attempt), Some((n, address))) => attempt.n == n && attempt.address.is(address),
        _ => false,
    }
}

/// Whether a report of this slot ends the attempt of the row, or is refused if it has none.
fn reports(slots: &mut Slots, channel: Channel, slot: u8, row: Option<Sent>) -> bool {
    match (slots.report(channel, slot), row) {
        (Err(out), None) => out.0 == slot,
        (Ok(attempt), Some(row)) => is_attempt(&attempt, row),
        _ => false,
    }
}

/// The text of a note, if it has one.
fn note_of(alloc: Global, note: Option<&[u8]>) -> Option<Failure> {
    let report = ByteText::from_slice(alloc, note?).ok()?;
    let is_late = false;
    Some(Failure { report, is_late })
}

/// A report of this slot leads to a mark.
fn owes(alloc: Global, slots: &mut Slots, channel: Channel, slot: u8, note: Option<&[u8]>) -> bool {
    let Ok(attempt) = slots.report(channel, slot) else {
        return false;
    };
    if slots.marks(channel).len() >= usize::from(MAX_SLOTS) {
        return false;
    }
    let note = note_of(alloc, note);
    slots.add_mark(channel, Mark { attempt, note });
    true
}

/// Whether the note is that of the row, or neither has one.
fn is_note(found: &Option<Failure>, row: Option<&[u8]>) -> bool {
    match (found, row) {
        (None, None) => true,
        (Some(failure), Some(note)) => failure.report.is(note) && !failure.is_late,
        _ => false,
    }
}

/// Whether the mark is that of the row, or neither has one.
fn is_mark(found: Option<&Mark>, row: Option<(u64, u64, Option<&[u8]>)>) -> bool {
    match (found, row) {
        (None, None) => true,
        (Some(mark), Some((n, place, note))) => {
            mark.attempt.n == n && mark.attempt.place == place && is_note(&mark.note, note)
        }
        _ => false,
    }
}

/// Whether the job on message n is that of the row, or neither has one.
fn is_job(found: Option<Job>, n: u64, row: Option<(u64, bool)>) -> bool {
    match (found, row) {
        (None, None) => true,
        (Some(job), Some((begun, unmarked))) => {
            job.n == n && job.begun == begun && job.unmarked == unmarked
        }
        _ => false,
    }
}

/// Does what a step changes; whether it could.
fn changes(alloc: Global, slots: &mut Slots, step: Step) -> bool {
    match step {
        Step::Begin(channel, n, file, begun, dying) => {
            begins(alloc, slots, channel, n, file, begun, dying)
        }
        Step::Take(channel, slot) => taken(slots, channel) == slot,
        Step::Report(channel, slot, row) => reports(slots, channel, slot, row),
        Step::Owe(channel, slot, note) => owes(alloc, slots, channel, slot, note),
        Step::Settle(channel) => {
            slots.settle_mark(channel);
            true
        }
        Step::Unmarked(channel, n) => {
            slots.leave_unmarked(channel, n);
            true
        }
        Step::End(channel, n) => {
            slots.end_job(channel, n);
            true
        }
        _ => shows(slots, step),
    }
}

/// Whether what is asked is what the step says.
fn shows(slots: &Slots, step: Step) -> bool {
    match step {
        Step::Next(channel, place) => slots.next_place(channel) == place,
        Step::Ahead(channel, ahead, row) => is_ahead(slots.upcoming(channel, ahead), row),
        Step::Free(channel, slot) => slots.lowest_free(channel) == slot,
        Step::In(channel, slot, row) => is_sent(slots.attempt(channel, slot), row),
        Step::Mark(channel, row) => is_mark(slots.first_mark(channel), row),
        Step::Finished(channel, n, is) => slots.finished(channel, n) == is,
        Step::Job(channel, n, row) => is_job(slots.job(channel, n), n, row),
        Step::Over(channel, n, row) => is_job(slots.job_over(channel, n), n, row),
        Step::Out(channel, count, delivery) => {
            slots.in_flight(channel) == count && slots.next_delivery() == delivery
        }
        _ => false,
    }
}

/// The first step that isn't as it says.
fn first_wrong(alloc: Global, limits: [u8; 2], steps: &[Step]) -> Option<Step> {
    let Ok(mut slots) = Slots::new(alloc, limits) else {
        return steps.first().copied();
    };
    for step in steps {
        if !changes(alloc, &mut slots, *step) {
            return Some(*step);
        }
    }
    None
}

/// One pass over a file with a done record, on three slots.
const ONE_PASS: [Step; 44] = [
    Step::Next(Remote, None),
    Step::Take(Remote, None),
    Step::Out(Remote, 0, 1),
    Step::Finished(Remote, 7, true),
    Step::Job(Remote, 7, None),
    Step::Over(Remote, 7, None),
    Step::Begin(Remote, 7, b"Ta@x\0Db@y\0Tc@z\0Td@w\0", 100, false),
    Step::Next(Remote, Some(0)),
    Step::Next(Local, None),
    Step::Ahead(Remote, 0, Some((7, b"a@x"))),
    Step::Ahead(Remote, 1, Some((7, b"c@z"))),
    Step::Ahead(Remote, 3, None),
    Step::Job(Remote, 7, Some((100, false))),
    Step::Job(Local, 7, None),
    Step::Finished(Remote, 7, false),
    Step::Over(Remote, 7, None),
    Step::Take(Remote, Some(0)),
    Step::Next(Remote, Some(10)),
    Step::Take(Remote, Some(1)),
    Step::Out(Remote, 2, 3),
    Step::Out(Local, 0, 3),
    Step::Free(Remote, Some(2)),
    Step::Free(Local, Some(0)),
    Step::In(Remote, 1, Some((7, 10, false, 2, b"c@z"))),
    Step::In(Remote, 2, None),
    Step::In(Local, 1, None),
    // A report frees its slot, and only that one.
    Step::Report(Remote, 0, Some((7, 0, false, 1, b"a@x"))),
    Step::Report(Remote, 0, None),
    Step::Report(Remote, 2, None),
    Step::Report(Remote, 9, None),
    Step::Report(Local, 1, None),
    Step::Free(Remote, Some(0)),
    Step::Take(Remote, Some(0)),
    Step::Next(Remote, None),
    Step::Finished(Remote, 7, false),
    Step::Report(Remote, 1, Some((7, 10, false, 2, b"c@z"))),
    Step::Over(Remote, 7, None),
    Step::Report(Remote, 0, Some((7, 15, false, 3, b"d@w"))),
    Step::Over(Remote, 7, Some((100, false))),
    Step::Unmarked(Remote, 8),
    Step::Over(Remote, 7, Some((100, false))),
    Step::Unmarked(Remote, 7),
    Step::Over(Remote, 7, Some((100, true))),
    Step::End(Remote, 7),
];

/// Passes over two messages, whose reports wait for their marks.
const TWO_PASSES: [Step; 34] = [
    Step::Begin(Remote, 7, b"Ta@x\0", 10, false),
    Step::Take(Remote, Some(0)),
    Step::Begin(Remote, 8, b"Tb@y\0Tc@z\0", 20, true),
    Step::Take(Remote, Some(1)),
    Step::Take(Remote, Some(2)),
    Step::Next(Remote, None),
    Step::Owe(Remote, 1, Some(b"no")),
    Step::Owe(Remote, 0, None),
    Step::Finished(Remote, 7, true),
    Step::Over(Remote, 7, None),
    Step::Mark(Remote, Some((8, 0, Some(b"no")))),
    Step::Mark(Local, None),
    Step::Settle(Remote),
    Step::Mark(Remote, Some((7, 0, None))),
    Step::Over(Remote, 7, None),
    Step::Settle(Remote),
    Step::Mark(Remote, None),
    Step::Over(Remote, 7, Some((10, false))),
    Step::Finished(Remote, 8, false),
    Step::Over(Remote, 8, None),
    Step::Report(Remote, 2, Some((8, 5, true, 3, b"c@z"))),
    Step::Unmarked(Remote, 8),
    Step::Over(Remote, 8, Some((20, true))),
    // A job that ends leaves the others.
    Step::End(Remote, 7),
    Step::Job(Remote, 7, None),
    Step::Job(Remote, 8, Some((20, true))),
    // The next pass over a message has its only job.
    Step::Begin(Remote, 8, b"Db@y\0Tc@z\0", 30, false),
    Step::Job(Remote, 8, Some((30, false))),
    Step::Next(Remote, Some(5)),
    // A pass with nothing to do is over at once.
    Step::Begin(Local, 9, b"Da@x\0", 40, false),
    Step::Next(Local, None),
    Step::Over(Local, 9, Some((40, false))),
    Step::Begin(Local, 10, b"", 50, false),
    Step::Over(Local, 10, Some((50, false))),
];

#[test]
fn slots_go_as_the_steps_say(rt: HostRuntime) {
    for steps in [ONE_PASS.as_slice(), TWO_PASSES.as_slice()] {
        let wrong = first_wrong(rt.alloc(), [2, 3], steps);
        assert!(rt; wrong.is_none(), "{wrong:?}");
    }
}

/// A channel file with so many records to do.
fn long_file(alloc: Global, count: usize) -> Option<Vec<u8>> {
    let mut bytes = Vec::new(alloc);
    for _ in 0..count {
        bytes.extend_from_slice(b"Tr\0").ok()?;
    }
    Some(bytes)
}

/// Whether attempts go out in each slot, the lowest first, and then in none.
fn are_filled(slots: &mut Slots) -> bool {
    for slot in 0..MAX_SLOTS {
        if taken(slots, Local) != Some(slot) {
            return false;
        }
    }
    taken(slots, Local).is_none()
}

/// Slots of 255 and 0, over long files on both channels.
fn are_limited(alloc: Global) -> bool {
    let Some(file) = long_file(alloc, 130) else {
        return false;
    };
    let Ok(mut slots) = Slots::new(alloc, [255, 0]) else {
        return false;
    };
    slots.limit(Local) == 120
        && slots.limit(Remote) == 0
        && begins(alloc, &mut slots, Remote, 1, &file, 0, false)
        && taken(&mut slots, Remote).is_none()
        && slots.next_place(Remote) == Some(0)
        && begins(alloc, &mut slots, Local, 1, &file, 0, false)
        && are_filled(&mut slots)
        && slots.report(Local, 57).is_ok()
        && slots.report(Local, 119).is_ok()
        && taken(&mut slots, Local) == Some(57)
        && taken(&mut slots, Local) == Some(119)
}

#[test]
fn a_channel_has_at_most_120_slots(rt: HostRuntime) {
    assert!(rt; are_limited(rt.alloc()));
}

#[test]
fn retries_are_by_channel(rt: HostRuntime) {
    let retries = [
        retry_at(Local, 5000, 5000),
        retry_at(Remote, 5000, 5000),
        retry_at(Remote, 5000, 5399),
        retry_at(Remote, 5000, 5400),
    ];
    assert_eq!(rt; retries, [5100, 5400, 6521, 6600]);
}

/// Whether the error is told so.
fn is_told(alloc: Global, why: &OutOfRange, text: &str) -> bool {
    match format!(in alloc; "{why}") {
        Ok(told) => told.as_str() == text,
        Err(_) => false,
    }
}

#[test]
fn errors_are_told_in_words(rt: HostRuntime) {
    assert!(rt;
        is_told(
            rt.alloc(),
            &OutOfRange(119),
            "nothing is in flight in slot 119"
        )
    );
}
