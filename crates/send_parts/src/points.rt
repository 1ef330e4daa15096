// The points of a turn, as far as what is ready and the channel alone decide.
ghost use Rattle.std.specs.Prelude.{◌≡◌};
ghost use Rattle.send_parts.specs.Points.{beginning, finishing_by, going_on, or_else, start_at, taking};

use crate::{FinishRow, Point, Reading, Row, StartRow};
use call_fs::Ready;
use send_known::Channel;

/// The first row if there is one, else the other.
pub fn or_else(first: Option<Row>, row: Row) -> Row
    ensures { result ≡ or_else first row }
{
    match first {
        None => row,
        Some(first) => first,
    }
}

/// The taking from a link that holds something or has ended.
pub fn taking(channel: Channel, ready: &Ready) -> Option<Row>
    ensures { result ≡ taking channel ready.now }
{
    let link = match channel {
        Channel::Local => ready.links[1],
        Channel::Remote => ready.links[2],
    };
    if link {
        Some(Row::TakeLink(channel))
    } else {
        None
    }
}

/// The request of the next attempt, if a slot is free.
pub fn going_on(channel: Channel, slot: Option<u8>) -> Option<Row>
    ensures { result ≡ going_on channel slot }
{
    match slot {
        None => None,
        Some(_) => Some(Row::Request(channel)),
    }
}

/// The begin of the pass over the message that is due, if there is one and a pass may begin.
pub fn beginning(channel: Channel, may: bool, entry: Option<(u64, u64)>) -> Option<Row>
    ensures { result ≡ beginning channel may entry }
{
    match entry {
        Some(entry) if may => Some(Row::ReadFile {
            channel,
            n: entry.1,
            begun: 0,
            reading: Reading::Opening,
        }),
        _ => None,
    }
}

/// The finish of the least number that may be finished, if there is one.
pub fn finishing_by(n: Option<u64>) -> Option<Row>
    ensures { result ≡ finishing_by n }
{
    match n {
        None => None,
        Some(n) => Some(Row::Finish(FinishRow::OpenBounce, n)),
    }
}

/// The row at which the sender stands after a step of the start.
pub fn start_at(row: StartRow) -> Row
    ensures { result ≡ start_at row }
{
    match row {
        StartRow::Over => Row::Turn(Point::TakeLocal),
        StartRow::Ended(status) => Row::Ended(status),
        row => Row::Start(row),
    }
}
