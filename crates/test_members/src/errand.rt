// A program that has one errand.
ghost use Rattle.std.specs.Prelude.{◌≡◌, []};
ghost use Rattle.call_fs.specs.Program.{came_of, due_of};
ghost use Rattle.test_members.specs.Errands.{Stands, asked, delivery, due_at, given, moved, started, started_child, taken};
ghost use Rattle.call_fs.specs.declared.past.NeedData.TheVariants.{Start as Begin};

use call_fs::{Child, DeliveryWords, Got, Machine, Need, PIECE, Port, Ready};
use mail_bytes::Memory;
use std::alloc::Global;

/// Which child an errand starts.
#[derive(Clone, Copy)]
pub enum Kind {
    /// The injector of a bounce.
    Bounce,
    /// A remote delivery, 3.
    Remote,
    /// A local delivery, 5.
    Local,
}

/// What an errand does next.
#[derive(Clone, Copy)]
pub enum Row {
    /// It starts its child.
    Start,
    /// It gives the child `hi` as its whole input.
    Give,
    /// It takes the child's output, until that ends.
    Take,
    /// It takes the child's status.
    Ask,
    /// It has ended with this status.
    Ended(u8),
}

/// A program that starts a child, gives it its input, takes its output and its status, and ends with that: a program with
/// channels for tests. It ends with 1 if the child can't be started, with 2 if the input can't be given, with 3 if the output
/// can't be taken, with 4 if the child crashed, and with 5 if its status can't be taken.
#[derive(Drop)]
pub struct Errand {
    kind: Kind,
    row: Row,
    present: u64,
    ready: Ready,
}

impl Errand {
    /// An errand of this kind that has done nothing yet.
    pub fn new(kind: Kind) -> Errand
        ensures { Stands result kind [] }
    {
        Errand {
            kind,
            row: Row::Start,
            present: 0,
            ready: Ready {
                links: [false; 4],
                child: None,
            },
        }
    }

    /// What is due at its row.
    fn due(&self) -> Need<'_>
        ensures { due_of result ≡ due_at self.now.kind self.now.row }
    {
        match self.row {
            Row::Start => started_child(self.kind),
            Row::Give => Need::Give(Port::Program(delivery(self.kind)), b"hi"),
            Row::Take => Need::Take(Port::Program(delivery(self.kind))),
            Row::Ask => Need::Take(Port::Status(delivery(self.kind))),
            Row::Ended(status) => Need::Ended(status),
        }
    }
}

/// The start of its child.
fn started_child<'a>(kind: Kind) -> Need<'a>
    ensures { due_of result ≡ Begin (started_child kind) }
{
    match kind {
        Kind::Bounce => Need::Start(Child::Bounce { room: 2 }),
        Kind::Remote => Need::Start(Child::Remote {
            slot: 3,
            domain: b"h",
            sender: b"s@x",
            recipient: b"r@h",
        }),
        Kind::Local => Need::Start(Child::Local {
            slot: 5,
            words: DeliveryWords {
                user: b"joe",
                home: b"/home/joe",
                local: b"joe-ext",
                dash: b"-",
                ext: b"ext",
                domain: b"h",
                sender: b"s@x",
                line: b"./Mailbox",
            },
            uid: 501,
        }),
    }
}

/// The delivery whose program that is.
fn delivery(kind: Kind) -> u8
    ensures { result ≡ delivery kind }
{
    match kind {
        Kind::Bounce => 0,
        Kind::Remote => 3,
        Kind::Local => 5,
    }
}

/// The row to which what came leads.
fn moved(row: Row, got: &Got<'_>) -> Row
    ensures { result ≡ moved row (came_of got.now) }
{
    match row {
        Row::Start => started(got),
        Row::Give => given(got),
        Row::Take => taken(got),
        Row::Ask => asked(got),
        Row::Ended(status) => Row::Ended(status),
    }
}

/// After the start.
fn started(got: &Got<'_>) -> Row
    ensures { result ≡ started (came_of got.now) }
{
    match got {
        Got::Started { .. } => Row::Give,
        _ => Row::Ended(1),
    }
}

/// After the giving.
fn given(got: &Got<'_>) -> Row
    ensures { result ≡ given (came_of got.now) }
{
    match got {
        Got::Gave => Row::Take,
        _ => Row::Ended(2),
    }
}

/// After a taking of the output.
fn taken(got: &Got<'_>) -> Row
    ensures { result ≡ taken (came_of got.now) }
{
    match got {
        Got::Took(_) => Row::Take,
        Got::End => Row::Ask,
        _ => Row::Ended(3),
    }
}

/// After the taking of the status.
fn asked(got: &Got<'_>) -> Row
    ensures { result ≡ asked (came_of got.now) }
{
    match got {
        Got::Ended(status) => Row::Ended(*status),
        Got::Crashed => Row::Ended(4),
        _ => Row::Ended(5),
    }
}

impl Machine for Errand {
    ghost use Rattle.std.specs.Prelude.{true, None};
    ghost use Rattle.call_fs.specs.declared.file_system.TheConstants.{PIECE};
    ghost use Rattle.test_members.specs.Errands.{Next, Stands, due_at};

    type Arguments = Kind;

    ghost present = { λ m. m.present };

    ghost found = { λ m. m.ready };

    ghost looked = { λ _. true };

    ghost can_find = { λ _ _. Unit {0} };

    ghost due = { λ m. due_at m.kind m.row };

    ghost takes_at_most = { λ _. PIECE };

    ghost has_room = { λ _. Unit {0} };

    ghost ahead = { λ _. None };

    ghost next = { Next };

    ghost stands = { Stands };

    fn look(&mut self, now: u64, ready: Ready) {
        self.present = now;
        self.ready = ready;
    }

    fn need(&self) -> Need<'_> {
        self.due()
    }

    fn taking_room(&self) -> usize {
        PIECE
    }

    fn done(&mut self, _alloc: Global, got: Got<'_>) -> Result<(), Memory> {
        self.row = moved(self.row, &got);
        Ok(())
    }

    fn uses_held() {}
}
