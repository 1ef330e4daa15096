// A script.
ghost use Rattle.std.specs.Prelude.{◌≡◌, ◌<◌, ◌^◌, length, OnOk};
ghost use Rattle.script_words.specs.Entries.{IsEntryPath, path_of};
ghost use Rattle.script_lines.specs.Contents.{HaveEntryPaths};
ghost use Rattle.script_lines.specs.inside.Contents.{nothing, with_entry, with_line};

use crate::Line;
use mail_bytes::Memory;
use script_words::Entry;
use std::alloc::Global;
use std::marker::Model;

/// A script that was read: what its disk holds at its beginning, and its lines.
#[derive(Drop)]
pub struct Script {
    opening: Vec<Entry>,
    lines: Vec<Line>,
}

impl Model for Script {
    ghost use Rattle.script_lines.specs.Contents.{Content, HaveEntryPaths};

    ghost Value = { Content };

    ghost view = { λ s. record { opening = s.opening.items; lines = s.lines.items } };

    ghost invariant = { λ s. HaveEntryPaths s.opening.items };
}

impl Script {
    /// A script that says nothing.
    pub(crate) fn new(alloc: Global) -> Self
        ensures { result ≡ nothing }
    {
        Script {
            opening: Vec::new(alloc),
            lines: Vec::new(alloc),
        }
    }

    /// Puts an entry after the others. The condition: its path lies below a directory for entries.
    pub(crate) fn put_entry(&mut self, entry: Entry) -> Result<(), Memory>
        requires { IsEntryPath (path_of entry) }
        ensures { OnOk result (self.new ≡ with_entry self.old entry) }
    {
        self.opening.push(entry)?;
        Ok(())
    }

    /// Puts a line after the others.
    pub(crate) fn put_line(&mut self, line: Line) -> Result<(), Memory>
        ensures { OnOk result (self.new ≡ with_line self.old line) }
    {
        self.lines.push(line)?;
        Ok(())
    }

    /// What its disk holds at its beginning.
    pub fn opening(&self) -> &[Entry]
        ensures value { result.now ≡ self.now.opening }
        ensures paths { HaveEntryPaths result.now }
        ensures few { length result.now < 2 ^ 64 }
    {
        self.opening.as_slice()
    }

    /// Its lines.
    pub fn lines(&self) -> &[Line]
        ensures { result.now ≡ self.now.lines }
    {
        self.lines.as_slice()
    }
}
