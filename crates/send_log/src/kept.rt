// The log that is kept until it is written.
ghost use Rattle.std.specs.Prelude.{◌≡◌, ◌≤◌, [], OnOk, OnErr};
ghost use Rattle.send_log.specs.Lines.{line_room};
ghost use Rattle.send_log.specs.Log.{with_line};

use crate::lines::Line;
use crate::texts::put_text;
use mail_bytes::Memory;
use std::alloc::Global;
use std::marker::Model;

/// Lines of the log that haven't been written yet, with room for so many bytes of more lines. Room is made before the sender
/// acts, so that putting in the lines of what it did takes no memory; contracts see the text and the room.
#[derive(Drop)]
pub struct Log {
    text: Vec<u8>,
    room: usize,
}

impl Model for Log {
    ghost use Rattle.std.specs.Prelude.{◌≤◌, ◌+◌, vec_len, vec_capacity};
    ghost use Rattle.send_log.specs.Log.{Kept};

    ghost Value = { Kept };

    ghost view = { λ l. record { text = l.text.items; room = l.room } };

    ghost invariant = { λ l. vec_len l.text + l.room ≤ vec_capacity l.text };
}

impl Log {
    /// No line, and no room. Takes no memory.
    pub fn new(alloc: Global) -> Self
        ensures { result ≡ record { text = []; room = 0 } }
    {
        Log {
            text: Vec::new(alloc),
            room: 0,
        }
    }

    /// The lines so far.
    pub fn as_slice(&self) -> &[u8]
        ensures { result.now ≡ self.now.text }
    {
        self.text.as_slice()
    }

    /// Makes room for so many bytes of lines, in place of the room that there was. After an `Err` the log is as before.
    pub fn reserve(&mut self, room: usize) -> Result<(), Memory>
        ensures ok { OnOk result (self.new ≡ record self.old { room = room }) }
        ensures err { OnErr result (self.new ≡ self.old) }
    {
        self.text.reserve(room)?;
        self.room = room;
        Ok(())
    }

    /// There is no room any more.
    pub fn release(&mut self)
        ensures { self.new ≡ record self.old { room = 0 } }
    {
        self.room = 0;
    }

    /// Puts a line at the end. The condition: there is room for it. Takes no memory.
    pub fn put(&mut self, line: &Line<'_>)
        requires { line_room line.now ≤ self.old.room }
        ensures { self.new ≡ with_line line.now self.old }
    {
        put_text(&mut self.text, line);
        self.room -= line.room();
    }

    /// Takes all lines out. The room stays.
    pub fn clear(&mut self)
        ensures { self.new ≡ record self.old { text = [] } }
    {
        self.text.clear();
    }
}
