// The files of a message that a todo pass touches.

use queue_paths::Name;

/// A file of a message that a todo pass makes (INTERNALS, "Queue structure").
#[derive(Clone, Copy)]
pub enum Target {
    /// `info/S/N`: the sender.
    Info,
    /// `local/S/N`: the local recipients.
    Local,
    /// `remote/S/N`: the remote recipients.
    Remote,
}

/// A file of a message at which a todo pass makes a call.
#[derive(Clone, Copy)]
pub enum Part {
    /// `mess/S/N`: the message.
    Mess,
    /// `todo/N`: the envelope.
    Todo,
    /// `info/S/N`: the sender.
    Info,
    /// `local/S/N`: the local recipients.
    Local,
    /// `remote/S/N`: the remote recipients.
    Remote,
}

impl Target {
    ghost use Rattle.std.specs.Prelude.{◌≡◌};
    ghost use Rattle.todo_pass.specs.Parts.{part_of};

    /// The same file among all that a pass touches.
    pub fn part(self) -> Part
        ensures { result ≡ part_of self }
    {
        match self {
            Target::Info => Part::Info,
            Target::Local => Part::Local,
            Target::Remote => Part::Remote,
        }
    }
}

impl Part {
    ghost use Rattle.std.specs.Prelude.{◌≡◌};
    ghost use Rattle.queue_paths.specs.Names.{name_of};
    ghost use Rattle.todo_pass.specs.Parts.{name_in};

    /// Its name, of the message with this number.
    pub fn name(self, n: u64) -> Name
        ensures { name_of result ≡ name_in self n }
    {
        match self {
            Part::Mess => Name::Mess(n),
            Part::Todo => Name::Todo(n),
            Part::Info => Name::Info(n),
            Part::Local => Name::Local(n),
            Part::Remote => Name::Remote(n),
        }
    }
}
