// The remote spawner as a machine.
ghost use Rattle.std.specs.Prelude.{◌≡◌, ◌∷◌, [], List, ℕ, IfOk, OnOk, OnErr};
ghost use Rattle.call_fs.specs.Program.{due_of, came_of};
ghost use Rattle.call_fs.specs.declared.past.Own.{Own};
ghost use Rattle.mail_bytes.specs.Moments.{IsMoment};
ghost use Rattle.spawner_parts.specs.declared.row.Row.TheVariants as at;
ghost use Rattle.spawner_parts.specs.Table.{act, row_now};
ghost use Rattle.remote_spawn.specs.Stands.{Stands, due_now, gone_on};
ghost use Rattle.remote_spawn.specs.Table.{Next, due_from, remote, start_of};

use crate::reports::report_of;
use call_fs::{Child, Got, Machine, Need, Ready, UNREADY};
use mail_bytes::Memory;
use spawn_protocol::Request;
use spawner_parts::{
    Place, Row, begun, domain_of, exited, fed, gave, launched, need_at, opened, printed, read_on,
    row_now, status_of, took, unread,
};
use std::alloc::Global;

/// What is told of a program that couldn't be started.
const CRASHED: &[u8] = b"Zqmail-remote crashed.\n";

/// The remote spawner (qmail-rspawn(8)): the program that starts a remote program for each request of the sender, and tells
/// what became of it, as a machine.
///
/// It takes requests when any are ready; else it deals with the lowest program that has ended; else it waits. Of its links
/// the first is its input.
#[derive(Drop)]
pub struct RemoteSpawn {
    place: Place,
    present: u64,
    ready: Ready,
}

impl RemoteSpawn {
    /// A remote spawner that has done nothing yet. Takes no memory, so it never fails.
    pub fn new(alloc: Global) -> Result<RemoteSpawn, Memory>
        ensures { (args : Unit {0}) → IfOk result (λ m. Stands m args []) }
    {
        Ok(RemoteSpawn {
            place: begun(alloc),
            present: 0,
            ready: UNREADY,
        })
    }

    /// Tells it the moment, and what is ready. Takes no memory. The condition: a clock may tell the moment.
    pub fn look(&mut self, now: u64, ready: Ready)
        requires { IsMoment now }
        ensures stands { (args : Unit {0}) (past : List Own) → Stands self.old args past → Stands self.new args past }
        ensures rest { self.new ≡ record self.old { present = now; ready = ready } }
    {
        self.present = now;
        self.ready = ready;
    }

    /// What it does next: the next of its table, after any past that it stands for. Takes no memory.
    pub fn need(&self) -> Need<'_>
        ensures due { due_of result ≡ due_now self.now }
        ensures stands { (args : Unit {0}) (past : List Own) → Stands self.now args past
            → due_of result ≡ Next args past self.now.present self.now.ready }
    {
        need_from(row_now(&self.place, &self.ready), &self.place)
    }

    /// Hands in what came of its need. Then it stands for each past that it stood for and this event; after `Memory` it is
    /// unchanged, and the same may be handed in again. What isn't of the kind of its need counts as a failure.
    pub fn done(&mut self, alloc: Global, got: Got<'_>) -> Result<(), Memory>
        ensures stands { (args : Unit {0}) (past : List Own) → Stands self.old args past → OnOk result (Stands self.new args
            (record { read = self.old.present; ready = self.old.ready; due = due_now self.old; came = came_of got.entry } ∷ past)) }
        ensures goes { OnOk result (self.new ≡ gone_on self.old (came_of got.entry)) }
        ensures err { OnErr result (self.new ≡ self.old) }
    {
        let row = row_now(&self.place, &self.ready);
        act(&mut self.place, alloc, row, &got)
    }
}

/// What is done at a row.
fn need_from(row: Row, place: &Place) -> Need<'_>
    ensures { due_of result ≡ due_from row place.now }
{
    match row {
        Row::Start => start_of(&place.request),
        _ => need_at(row, place),
    }
}

/// The start of a request's program.
fn start_of(request: &Request) -> Need<'_>
    ensures { due_of result ≡ start_of request.now }
{
    let recipient = request.recipient.as_slice();
    Need::Start(Child::Remote {
        slot: request.slot,
        domain: domain_of(recipient),
        sender: request.sender.as_slice(),
        recipient,
    })
}

/// Where what came at a row leads. After an `Err` all is as before.
fn act(place: &mut Place, alloc: Global, row: Row, got: &Got<'_>) -> Result<(), Memory>
    ensures ok { OnOk result (place.new ≡ act remote row (came_of got.now) place.old) }
    ensures err { OnErr result (place.new ≡ place.old) }
{
    match row {
        Row::Greet | Row::Report => gave(place, alloc, got),
        Row::TakeInput => took(place, alloc, got),
        Row::OpenMess => opened(place, alloc, got),
        Row::ReadMess { fd } => read_on(place, fd, got),
        Row::CloseMess { whole: false, .. } => unread(place, alloc),
        Row::CloseMess { whole: true, .. } => {
            place.row = Row::Start;
            Ok(())
        }
        Row::Start => launched(place, alloc, got, CRASHED),
        Row::Feed => fed(place, alloc),
        Row::TakeOutput { slot } => printed(place, slot, got),
        Row::TakeStatus { slot } => ended(place, alloc, slot, got),
        Row::Idle | Row::Ended { .. } => Ok(()),
    }
}

/// After the taking of a program's status.
fn ended(place: &mut Place, alloc: Global, slot: u8, got: &Got<'_>) -> Result<(), Memory>
    ensures ok { OnOk result (place.new ≡ act remote (at.TakeStatus slot) (came_of got.now) place.old) }
    ensures err { OnErr result (place.new ≡ place.old) }
{
    let report = report_of(alloc, status_of(got), place.output.as_slice())?;
    exited(place, alloc, slot, report.as_slice())
}

impl Machine for RemoteSpawn {
    ghost use Rattle.std.specs.Prelude.{◌≡◌, true, None, List, ℕ};
    ghost use Rattle.call_fs.specs.declared.past.Own.{Own};
    ghost use Rattle.call_fs.specs.declared.program.Ready.{Ready as Found};
    ghost use Rattle.call_fs.specs.Past.{IsRunBy, UsesHeld, held};
    ghost use Rattle.remote_spawn.specs.Stands.{Stands, due_now, gone_on};
    ghost use Rattle.remote_spawn.specs.Table.{Next};

    type Arguments = ();

    ghost present = { λ m. m.present };

    ghost found = { λ m. m.ready };

    ghost looked = { λ _. true };

    ghost can_find = { λ _ _. Unit {0} };

    ghost due = { due_now };

    ghost takes_at_most = { λ _. 18446744073709551615 };

    ghost has_room = { λ _. ⊥ };

    ghost ahead = { λ _. None };

    ghost next = { Next };

    ghost looks = { λ m now ready n. n ≡ record m { present = now; ready = ready } };

    ghost goes = { λ m came n. n ≡ gone_on m came };

    ghost stands = { Stands };

    fn look(&mut self, now: u64, ready: Ready) {
        self.look(now, ready)
    }

    fn need(&self) -> Need<'_> {
        self.need()
    }

    fn taking_room(&self) -> usize {
        usize::MAX
    }

    fn done(&mut self, alloc: Global, got: Got<'_>) -> Result<(), Memory> {
        self.done(alloc, got)
    }

    fn uses_held()
        ensures uses { (args : Unit {0}) (past : List Own) (now : ℕ) (ready : Found) → IsRunBy (Next args) past
            → UsesHeld (held past) (Next args past now ready) }
    {}
}
