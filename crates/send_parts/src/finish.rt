// Where the steps of the finish of a message lead.
ghost use Rattle.std.specs.Prelude.{◌≡◌};
ghost use Rattle.send_parts.specs.Finish.{finish_to, info_gone, remove_given, removed};

use crate::{FinishRow, Way};

/// Where a step of a finish leads that came out so. Takes no memory.
pub fn finish_to(row: FinishRow, way: Way) -> FinishRow
    ensures { result ≡ finish_to row way }
{
    match row {
        FinishRow::UnlinkInfo => info_gone(way),
        FinishRow::Give => remove_given(way),
        FinishRow::Take => removed(way),
        FinishRow::OpenBounce | FinishRow::Return => row,
        FinishRow::Later | FinishRow::Over | FinishRow::Lost => row,
    }
}

/// The info file was unlinked, or couldn't be.
fn info_gone(way: Way) -> FinishRow
    ensures { result ≡ info_gone way }
{
    match way {
        Way::Fine => FinishRow::Give,
        _ => FinishRow::Later,
    }
}

/// The command to remove the message was given, or couldn't be.
fn remove_given(way: Way) -> FinishRow
    ensures { result ≡ remove_given way }
{
    match way {
        Way::Fine => FinishRow::Take,
        _ => FinishRow::Lost,
    }
}

/// It was answered.
fn removed(way: Way) -> FinishRow
    ensures { result ≡ removed way }
{
    match way {
        Way::Fine => FinishRow::Over,
        _ => FinishRow::Lost,
    }
}
