// Room in the log for the lines of reports.
ghost use Rattle.std.specs.Prelude.{◌≡◌, IfSome, OnOk, OnErr};
ghost use Rattle.send_links.specs.Rooms.{reports_room};

use mail_bytes::Memory;
use send_log::{LINE_ROOM, Log};
use spawn_protocol::Report;
use std::alloc::AllocError;

/// How much room the lines of these reports take at most; `None` if that is more than there can be.
fn room_for(reports: &[Report]) -> Option<usize>
    ensures { IfSome result (λ room. room ≡ reports_room reports.now) }
{
    let mut room: usize = 0;
    for report in reports {
        room = room.checked_add(LINE_ROOM + LINE_ROOM + report.text.as_slice().len())?;
    }
    Some(room)
}

/// Makes room for the lines of reports. After an `Err` the text is as before.
pub fn make_room(log: &mut Log, reports: &[Report]) -> Result<(), Memory>
    ensures ok { OnOk result (log.new ≡ record log.old { room = reports_room reports.now }) }
    ensures err { OnErr result (log.new.text ≡ log.old.text) }
{
    match room_for(reports) {
        None => Err(AllocError),
        Some(room) => log.reserve(room),
    }
}
