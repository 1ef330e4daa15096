// The lines of the log that speak of preprocessing.
ghost use Rattle.std.specs.Prelude.{◌≡◌, ◌≤◌, ◌++◌};
ghost use Rattle.todo_pass.specs.Lines.{left_lines, queued_lines, queued_room};

use crate::{Pass, Row};
use send_log::{LINE_ROOM, Line, Log};

/// How much room the lines of a message take that was preprocessed.
pub fn queued_room(pass: &Pass) -> usize
    ensures { result ≡ queued_room pass.now }
{
    LINE_ROOM + LINE_ROOM + pass.sorted().sender.as_slice().len()
}

/// Puts the lines of a message that was preprocessed. The condition: there is room for them.
pub fn put_queued(log: &mut Log, pass: &Pass)
    requires { queued_room pass.now ≤ log.old.room }
    ensures { log.new.text ≡ log.old.text ++ queued_lines pass.now }
{
    let sorted = pass.sorted();
    log.put(&Line::NewMessage {
        message: pass.number(),
    });
    log.put(&Line::MessageInfo {
        message: pass.number(),
        bytes: pass.size(),
        sender: sorted.sender.as_slice(),
        pid: sorted.pid,
        uid: sorted.uid,
    });
}

/// Puts the line of a pass that is left. The condition: there is room for it.
pub fn put_left(log: &mut Log, pass: &Pass)
    requires { LINE_ROOM ≤ log.old.room }
    ensures { log.new.text ≡ log.old.text ++ left_lines pass.now.row pass.now }
{
    if let Row::Left { .. } = pass.row() {
        log.put(&Line::Left {
            message: pass.number(),
        });
    }
}
