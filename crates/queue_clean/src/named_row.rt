// A row with the name that it unlinks.
ghost use Rattle.std.specs.Prelude.{◌≡◌, IfSome};
ghost use Rattle.queue_paths.specs.Names.{path};
ghost use Rattle.queue_clean.specs.Machine.{unlinked};

use crate::Row;
use mail_bytes::NameBuf;
use queue_paths::path;
use std::marker::Model;

/// A row of a cleaner's table with the name that it unlinks for a command, held in place; contracts see the row.
#[derive(Drop)]
pub struct NamedRow {
    row: Row,
    name: NameBuf,
}

impl Model for NamedRow {
    ghost use Rattle.queue_clean.specs.declared.row.Row.{Row};

    ghost Value = { Row };

    ghost use Rattle.queue_clean.specs.Inside.{HasName};

    ghost view = { λ i. i.row };

    ghost invariant = { HasName };
}

impl NamedRow {
    /// The first row: a search of `pid`.
    pub fn new() -> Self
        ensures { result ≡ Row.FindPid }
    {
        NamedRow {
            row: Row::FindPid,
            name: NameBuf::new(),
        }
    }

    /// The row.
    pub fn row(&self) -> Row
        ensures { result ≡ self.now }
    {
        self.row
    }

    /// Goes to another row.
    pub fn go(&mut self, row: Row)
        ensures { self.new ≡ row }
    {
        if let Some(name) = row.unlinked() {
            path(&name, &mut self.name);
        }
        self.row = row;
    }

    /// The name that the row unlinks for a command. Of any other row it may be any.
    pub fn name(&self) -> &[u8]
        ensures { IfSome (unlinked self.now) (λ name. result.now ≡ path name) }
    {
        self.name.as_slice()
    }
}
