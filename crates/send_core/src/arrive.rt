// Where a step comes from.
ghost use Rattle.std.specs.Prelude.{◌≡◌};
ghost use Rattle.std.specs.Option.{option_copied};
ghost use Rattle.send_core.specs.Table.{finishing, from_begin, from_local, from_point, from_remote, from_reports, from_sweep, from_take, mark_begin, marking, marking_by, or_else, passing, row_now, sweeping, taking};

use crate::{Desk, MarkRow, Marked, Point, Row};
use call_fs::Ready;
use send_jobs::{Channel, Mark, first_due};
use send_parts::{Search, SweepRow, beginning, finishing_by, going_on, or_else, sweep_due, taking};

/// The row at which a sender that keeps this is, at this moment and with this ready.
pub fn row_now(desk: &Desk, now: u64, ready: &Ready) -> Row
    ensures { result ≡ row_now desk.now now ready.now }
{
    match desk.row {
        Row::Turn(point) => from_point(point, desk, now, ready),
        row => row,
    }
}

/// The row of a turn that goes on at this point.
fn from_point(point: Point, desk: &Desk, now: u64, ready: &Ready) -> Row
    ensures { result ≡ from_point point desk.now now ready.now }
{
    match point {
        Point::TakeLocal => from_begin(desk, now, ready),
        Point::TakeRemote => from_take(desk, now, ready),
        Point::Reports => from_reports(desk, now),
        Point::Pass(Channel::Local, may) => from_local(may, desk, now),
        Point::Pass(Channel::Remote, may) => from_remote(may, desk, now),
        Point::Finish => or_else(finishing(desk, now), from_sweep(desk, now, ready)),
        Point::Sweep => from_sweep(desk, now, ready),
    }
}

/// The row from the point of the sweep on.
fn from_sweep(desk: &Desk, now: u64, ready: &Ready) -> Row
    ensures { result ≡ from_sweep desk.now now ready.now }
{
    or_else(sweeping(desk, now), from_begin(desk, now, ready))
}

/// The row from the beginning of a turn on, the taking from the local link.
fn from_begin(desk: &Desk, now: u64, ready: &Ready) -> Row
    ensures { result ≡ from_begin desk.now now ready.now }
{
    or_else(taking(Channel::Local, ready), from_take(desk, now, ready))
}

/// The row from the taking from the remote link on.
fn from_take(desk: &Desk, now: u64, ready: &Ready) -> Row
    ensures { result ≡ from_take desk.now now ready.now }
{
    or_else(taking(Channel::Remote, ready), from_reports(desk, now))
}

/// The row from the marks of reports on.
fn from_reports(desk: &Desk, now: u64) -> Row
    ensures { result ≡ from_reports desk.now now }
{
    let row = or_else(marking(Channel::Remote, desk), from_local(true, desk, now));
    or_else(marking(Channel::Local, desk), row)
}

/// The row from the pass of the local channel on; `may` is whether a pass may begin there.
fn from_local(may: bool, desk: &Desk, now: u64) -> Row
    ensures { result ≡ from_local may desk.now now }
{
    or_else(
        passing(Channel::Local, may, desk, now),
        from_remote(true, desk, now),
    )
}

/// The row from the pass of the remote channel on; `may` is whether a pass may begin there.
fn from_remote(may: bool, desk: &Desk, now: u64) -> Row
    ensures { result ≡ from_remote may desk.now now }
{
    or_else(
        passing(Channel::Remote, may, desk, now),
        Row::FindTodo(Search::AfterLeft),
    )
}

/// The mark of the first report that waits for one.
fn marking(channel: Channel, desk: &Desk) -> Option<Row>
    ensures { result ≡ marking channel desk.now }
{
    marking_by(channel, desk.slots.first_mark(channel))
}

/// The row of this mark, if there is one.
fn marking_by(channel: Channel, first: Option<&Mark>) -> Option<Row>
    ensures { result ≡ marking_by channel (option_copied first.entry) }
{
    match first {
        None => None,
        Some(mark) => {
            let (n, place) = (mark.attempt.n, mark.attempt.place);
            let marked = Marked { channel, n, place };
            Some(Row::Mark(mark_begin(mark), marked))
        }
    }
}

/// Where a mark begins: at its note, if it has one.
fn mark_begin(mark: &Mark) -> MarkRow
    ensures { result ≡ mark_begin mark.now }
{
    match mark.note {
        None => MarkRow::Open,
        Some(_) => MarkRow::Note,
    }
}

/// The next step of the open pass while a slot is free, or the beginning of one.
fn passing(channel: Channel, may: bool, desk: &Desk, now: u64) -> Option<Row>
    ensures { result ≡ passing channel may desk.now now }
{
    if desk.slots.next_place(channel).is_some() {
        going_on(channel, desk.slots.lowest_free(channel))
    } else {
        beginning(channel, may, first_due(&desk.book.messages, channel, now))
    }
}

/// The least number that may be finished.
fn finishing(desk: &Desk, now: u64) -> Option<Row>
    ensures { result ≡ finishing desk.now now }
{
    finishing_by(desk.next_idle(now))
}

/// The sweep, if it is due.
fn sweeping(desk: &Desk, now: u64) -> Option<Row>
    ensures { result ≡ sweeping desk.now now }
{
    if sweep_due(now, desk.swept) {
        Some(Row::Sweep(SweepRow::First))
    } else {
        None
    }
}
