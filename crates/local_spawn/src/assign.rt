// The lines of users/assign.
ghost use Rattle.std.specs.Prelude.{◌≡◌, []};

use crate::kinds::Kind;
use mail_bytes::ByteText;
use std::alloc::Global;
use std::marker::Model;

/// A line of users/assign: which local parts it is for, and who gets their mail.
#[derive(Drop)]
pub struct Assignment {
    /// Whether it is for one local part, or for all that begin alike.
    pub kind: Kind,
    /// The local part, or how they begin.
    pub local: ByteText,
    /// The user's name.
    pub user: ByteText,
    /// The user's number.
    pub uid: u32,
    /// The number of the user's group.
    pub gid: u32,
    /// The user's home directory.
    pub home: ByteText,
    /// What stands between `.qmail` and the extension in a file's name: `-`, or nothing.
    pub dash: ByteText,
    /// The extension; of a wildcard what goes before the rest of the local part.
    pub ext: ByteText,
}

/// The lines of users/assign in order; contracts see the list of them.
#[derive(Drop)]
pub struct Assign {
    lines: Vec<Assignment>,
}

impl Model for Assign {
    ghost use Rattle.std.specs.Prelude.{List};
    ghost use Rattle.local_spawn.specs.declared.assign.Assignment.{Assignment};

    ghost Value = { List Assignment };

    ghost view = { λ a. a.lines.items };
}

impl Assign {
    /// No lines, so that there are no users, as without the file. Takes no memory.
    pub fn new(alloc: Global) -> Self
        ensures { result ≡ [] }
    {
        Assign {
            lines: Vec::new(alloc),
        }
    }

    /// These lines. Takes no memory.
    pub fn from_vec(lines: Vec<Assignment>) -> Self
        ensures { result ≡ lines.items }
    {
        Assign { lines }
    }

    /// Its lines.
    pub fn as_slice(&self) -> &[Assignment]
        ensures { result.now ≡ self.now }
    {
        self.lines.as_slice()
    }
}
