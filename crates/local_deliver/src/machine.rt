// A local delivery as a machine.
ghost use Rattle.std.specs.Prelude.{◌≡◌, ◌∷◌, [], List, ℕ, IfOk, OnOk, OnErr};
ghost use Rattle.call_fs.specs.Program.{due_of, came_of, IsKind};
ghost use Rattle.call_fs.specs.declared.past.Own.{Own};
ghost use Rattle.mail_bytes.specs.Moments.{IsMoment};
ghost use Rattle.local_parts.specs.declared.arguments.LocalArgs.{LocalArgs as Words};
ghost use Rattle.local_deliver.specs.Stands.{Stands, due_now, gone_on};
ghost use Rattle.local_deliver.specs.Table.{Next, act, begun, due_at, due_by_drop, due_by, file_wanted};

use crate::failures::{status_of, text_of};
use crate::reading::{closed, named_with, opened_with, read_with};
use crate::steps::{dropped, fed, gave, injected, ran, started, took};
use crate::{Dropping, Place, Row, Wanted};
use call_fs::{Call, Child, Got, How, Machine, Need, PIECE, Port, Ready, UNREADY};
use local_parts::{Blocks, Course, LocalArgs, Names};
use mail_bytes::{ByteText, Memory};
use std::alloc::Global;

/// One local delivery (qmail-local(8)), as a machine. It takes its message as a netstring, to the end of its input; reads
/// control/me, the names of the home and the instructions; follows these line by line; and at last injects the message
/// anew for the addresses that it is forwarded to. What it does next depends neither on the moment nor on what is ready.
#[derive(Drop)]
pub struct Local {
    args: LocalArgs,
    place: Place,
    present: u64,
    ready: Ready,
}

impl Local {
    /// A delivery that has done nothing yet. Takes no memory, so it never fails.
    pub fn new(alloc: Global, args: LocalArgs) -> Result<Local, Memory>
        ensures { IfOk result (λ m. Stands m args []) }
    {
        Ok(Local {
            args,
            place: begun(alloc),
            present: 0,
            ready: UNREADY,
        })
    }

    /// The message that it delivers, once it has taken its input: what a command gets (qmail-command(8)). Takes no memory.
    pub fn message(&self) -> &Blocks
        ensures { result.now ≡ self.now.place.message }
    {
        &self.place.message
    }

    /// Tells it the moment, and what is ready. Takes no memory. The condition: a clock may tell the moment.
    pub fn look(&mut self, now: u64, ready: Ready)
        requires { IsMoment now }
        ensures stands { (args : Words) (past : List Own) → Stands self.old args past → Stands self.new args past }
        ensures rest { self.new ≡ record self.old { present = now; ready = ready } }
    {
        self.present = now;
        self.ready = ready;
    }

    /// What it does next: the next of its table, after any past that it stands for. Takes no memory.
    pub fn need(&self) -> Need<'_>
        ensures due { due_of result ≡ due_now self.now }
        ensures stands { (args : Words) (past : List Own) → Stands self.now args past
            → due_of result ≡ Next args past self.now.present self.now.ready }
    {
        need_at(&self.args, &self.place)
    }

    /// Hands in what came of its need. Then it stands for each past that it stood for and this event; after `Memory` it is
    /// unchanged, and the same may be handed in again. The condition: this is of the kind of its need.
    pub fn done(&mut self, alloc: Global, got: Got<'_>) -> Result<(), Memory>
        requires kind { IsKind (due_now self.old) (came_of got) }
        ensures stands { (args : Words) (past : List Own) → Stands self.old args past → OnOk result (Stands self.new args
            (record { read = self.old.present; ready = self.old.ready; due = due_now self.old; came = came_of got.entry } ∷ past)) }
        ensures goes { OnOk result (self.new ≡ gone_on self.old (came_of got.entry)) }
        ensures err { OnErr result (self.new ≡ self.old) }
    {
        act(&mut self.place, alloc, &self.args, self.present, got)
    }
}

/// What a delivery keeps at first.
fn begun(alloc: Global) -> Place
    ensures { result ≡ begun }
{
    Place {
        row: Row::TakeInput,
        message: Blocks::new(alloc),
        read: ByteText::new(alloc),
        host: ByteText::new(alloc),
        names: Names::new(alloc),
        name: ByteText::new(alloc),
        course: Course::new(alloc),
        dropping: None,
        text: ByteText::new(alloc),
        room: 0,
        injector: 0,
    }
}

/// What is done where it stands.
fn need_at<'a>(args: &'a LocalArgs, place: &'a Place) -> Need<'a>
    ensures { due_of result ≡ due_by args.now place.now }
{
    match place.row {
        Row::TakeInput => Need::Take(Port::Input),
        Row::Open { wanted } => Need::File(Call::Open(file_wanted(place, wanted), How::Read)),
        Row::Read { fd, .. } => {
            Need::File(Call::ReadAt(fd, place.read.len() as u64, PIECE as u64))
        }
        Row::Close { fd, .. } => Need::File(Call::Close(fd)),
        Row::NextName => Need::File(Call::NextName(args.home.as_slice(), place.names.last())),
        Row::Drop => need_of(&place.dropping),
        Row::Run => Need::Command(place.text.as_slice()),
        Row::Start => Need::Start(Child::Forward {
            uid: args.uid,
            room: place.room,
        }),
        Row::Feed => Need::Give(Port::Program(0), place.text.as_slice()),
        Row::TakeStatus => Need::Take(Port::Status(0)),
        Row::Report { .. } => Need::Give(Port::Output, place.text.as_slice()),
        Row::Fail { failure } => Need::Give(Port::Output, text_of(failure)),
        Row::Ended { status } => Need::Ended(status),
    }
}

/// The name of a file that it reads.
fn file_wanted(place: &Place, wanted: Wanted) -> &[u8]
    ensures { result.now ≡ file_wanted wanted place.now }
{
    match wanted {
        Wanted::Host => b"control/me",
        Wanted::Instructions => place.name.as_slice(),
    }
}

/// What a drop does next.
fn need_of(dropping: &Option<Dropping>) -> Need<'_>
    ensures { due_of result ≡ due_by_drop dropping.now }
{
    match dropping {
        Some(drop) => drop.need(),
        None => Need::Wait,
    }
}

/// Where what came leads. After an `Err` all is as before. The condition: it is of the kind of the need.
fn act(
    place: &mut Place,
    alloc: Global,
    args: &LocalArgs,
    now: u64,
    got: Got<'_>,
) -> Result<(), Memory>
    requires { IsKind (due_by args.now place.old) (came_of got) }
    ensures ok { OnOk result (place.new ≡ act args.now now place.old.row (came_of got.entry) place.old) }
    ensures err { OnErr result (place.new ≡ place.old) }
{
    match place.row {
        Row::TakeInput => took(place, alloc, &got),
        Row::Open { wanted } => opened_with(place, alloc, args, wanted, &got),
        Row::Read { wanted, fd } => read_with(place, wanted, fd, &got),
        Row::Close {
            wanted,
            reading,
            ..
        } => closed(place, alloc, args, now, wanted, reading),
        Row::NextName => named_with(place, alloc, args, now, &got),
        Row::Drop => dropped(place, alloc, args, now, got),
        Row::Run => ran(place, alloc, args, now, &got),
        Row::Start => started(place, alloc, &got),
        Row::TakeStatus => injected(place, alloc, &got),
        Row::Feed => {
            fed(place, &got);
            Ok(())
        }
        Row::Report { status } => {
            gave(place, status, &got);
            Ok(())
        }
        Row::Fail { failure } => {
            gave(place, status_of(failure), &got);
            Ok(())
        }
        Row::Ended { .. } => Ok(()),
    }
}

impl Machine for Local {
    ghost use Rattle.std.specs.Prelude.{◌≡◌, true, None, List, ℕ};
    ghost use Rattle.call_fs.specs.declared.past.Own.{Own};
    ghost use Rattle.call_fs.specs.declared.program.Ready.{Ready as Found};
    ghost use Rattle.call_fs.specs.Past.{IsRunBy, UsesHeld, held};
    ghost use Rattle.local_parts.specs.declared.arguments.LocalArgs.{LocalArgs as Words};
    ghost use Rattle.local_deliver.specs.Stands.{Stands, due_now, gone_on};
    ghost use Rattle.local_deliver.specs.Table.{Next};

    type Arguments = LocalArgs;

    ghost present = { λ m. m.present };

    ghost found = { λ m. m.ready };

    ghost looked = { λ _. true };

    ghost can_find = { λ _ _. Unit {0} };

    ghost due = { due_now };

    ghost takes_at_most = { λ _. 18446744073709551615 };

    ghost has_room = { λ _. ⊥ };

    ghost ahead = { λ _. None };

    ghost next = { Next };

    ghost looks = { λ m now ready n. n ≡ record m { present = now; ready = ready } };

    ghost goes = { λ m came n. n ≡ gone_on m came };

    ghost stands = { Stands };

    fn look(&mut self, now: u64, ready: Ready) {
        self.look(now, ready)
    }

    fn need(&self) -> Need<'_> {
        self.need()
    }

    fn taking_room(&self) -> usize {
        usize::MAX
    }

    fn done(&mut self, alloc: Global, got: Got<'_>) -> Result<(), Memory> {
        self.done(alloc, got)
    }

    fn uses_held()
        ensures uses { (args : Words) (past : List Own) (now : ℕ) (ready : Found) → IsRunBy (Next args) past
            → UsesHeld (held past) (Next args past now ready) }
    {}
}
