// What is told beside a step.
ghost use Rattle.std.specs.Prelude.{◌≡◌};
ghost use Rattle.send_core.specs.Table.{words_of};

use crate::{Desk, Row};
use send_parts::{Search, StartRow, SweepRow};

/// The bytes that are told beside the step of a row: after which name a search goes on, and what is given.
pub fn words_of(row: Row, desk: &Desk) -> &[u8]
    ensures { result.now ≡ words_of row desk.now }
{
    match row {
        Row::Request(channel) => desk.link(channel).requests.first(),
        Row::FindTodo(Search::AfterLeft) => desk.last_left.as_slice(),
        Row::Start(StartRow::Scan { .. })
        | Row::FindTodo(Search::AfterStray { .. })
        | Row::Sweep(SweepRow::Next { .. }) => desk.book.after.as_slice(),
        _ => &[],
    }
}
