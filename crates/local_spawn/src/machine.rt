// The local spawner as a machine.
ghost use Rattle.std.specs.Prelude.{◌≡◌, ◌∷◌, [], List, ℕ, IfOk, OnOk, OnErr};
ghost use Rattle.call_fs.specs.Program.{due_of, came_of};
ghost use Rattle.call_fs.specs.declared.past.Own.{Own};
ghost use Rattle.mail_bytes.specs.Moments.{IsMoment};
ghost use Rattle.local_spawn.specs.Stands.{Stands, due_now, gone_on};
ghost use Rattle.local_spawn.specs.Table.{Next, act, begun, due_by, due_from, no_delivery, start_of};

use crate::delivery::Delivery;
use crate::place::Place;
use crate::row::Row;
use crate::steps::{served, users_closed, users_opened, users_read};
use call_fs::{
    Call, Child, DeliveryWords, DeliveryWordsData, Got, How, Machine, Need, PIECE, Ready, UNREADY,
};
use mail_bytes::{ByteText, Memory};
use queue_limits::MEMORY;
use spawner_parts::{Row as WorkRow, begun as begun_work, need_at as need_of_work, row_now};
use std::alloc::Global;

/// The file of the users.
const USERS: &[u8] = b"users/assign";

/// The local spawner (qmail-lspawn(8)): the program that starts a local delivery for each request of the sender, and tells what
/// became of it, as a machine.
///
/// In its start it reads users/assign. Then it takes requests when any are ready; else it deals with the lowest delivery that has
/// ended; else it waits. Of its links the first is its input.
#[derive(Drop)]
pub struct LocalSpawn {
    place: Place,
    present: u64,
    ready: Ready,
}

impl LocalSpawn {
    /// A local spawner that has done nothing yet. Takes no memory, so it never fails.
    pub fn new(alloc: Global) -> Result<LocalSpawn, Memory>
        ensures { (args : Unit {0}) → IfOk result (λ m. Stands m args []) }
    {
        Ok(LocalSpawn {
            place: begun(alloc),
            present: 0,
            ready: UNREADY,
        })
    }

    /// Tells it the moment, and what is ready. Takes no memory. The condition: a clock may tell the moment.
    pub fn look(&mut self, now: u64, ready: Ready)
        requires { IsMoment now }
        ensures stands { (args : Unit {0}) (past : List Own) → Stands self.old args past → Stands self.new args past }
        ensures rest { self.new ≡ record self.old { present = now; ready = ready } }
    {
        self.present = now;
        self.ready = ready;
    }

    /// What it does next: the next of its table, after any past that it stands for. Takes no memory.
    pub fn need(&self) -> Need<'_>
        ensures due { due_of result ≡ due_now self.now }
        ensures stands { (args : Unit {0}) (past : List Own) → Stands self.now args past
            → due_of result ≡ Next args past self.now.present self.now.ready }
    {
        need_at(&self.place, &self.ready)
    }

    /// Hands in what came of its need. Then it stands for each past that it stood for and this event; after `Memory` it is
    /// unchanged, and the same may be handed in again. What isn't of the kind of its need counts as a failure.
    pub fn done(&mut self, alloc: Global, got: Got<'_>) -> Result<(), Memory>
        ensures stands { (args : Unit {0}) (past : List Own) → Stands self.old args past → OnOk result (Stands self.new args
            (record { read = self.old.present; ready = self.old.ready; due = due_now self.old; came = came_of got.entry } ∷ past)) }
        ensures goes { OnOk result (self.new ≡ gone_on self.old (came_of got.entry)) }
        ensures err { OnErr result (self.new ≡ self.old) }
    {
        act(&mut self.place, alloc, &self.ready, &got)
    }
}

/// What a local spawner keeps at first.
fn begun(alloc: Global) -> Place
    ensures { result ≡ begun }
{
    Place {
        row: Row::OpenUsers,
        text: ByteText::new(alloc),
        users: None,
        delivery: no_delivery(alloc),
        work: begun_work(alloc),
    }
}

/// No delivery.
fn no_delivery(alloc: Global) -> Delivery
    ensures { result ≡ no_delivery }
{
    Delivery {
        words: DeliveryWordsData {
            user: ByteText::new(alloc),
            home: ByteText::new(alloc),
            local: ByteText::new(alloc),
            dash: ByteText::new(alloc),
            ext: ByteText::new(alloc),
            domain: ByteText::new(alloc),
            sender: ByteText::new(alloc),
            line: ByteText::new(alloc),
        },
        uid: 0,
    }
}

/// What is done by a local spawner that keeps this, with this ready.
fn need_at<'a>(place: &'a Place, ready: &Ready) -> Need<'a>
    ensures { due_of result ≡ due_by place.now ready.now }
{
    match place.row {
        Row::OpenUsers => Need::File(Call::Open(USERS, How::Read)),
        Row::ReadUsers { fd } => {
            Need::File(Call::ReadAt(fd, place.text.len() as u64, PIECE as u64))
        }
        Row::CloseUsers { fd, .. } => Need::File(Call::Close(fd)),
        Row::Serves => need_from(row_now(&place.work, ready), place),
        Row::OutOfMemory => Need::Ended(MEMORY),
    }
}

/// What is done at a row of its work.
fn need_from(row: WorkRow, place: &Place) -> Need<'_>
    ensures { due_of result ≡ due_from row place.now }
{
    match row {
        WorkRow::Start => start_of(place),
        _ => need_of_work(row, &place.work),
    }
}

/// The start of a delivery.
fn start_of(place: &Place) -> Need<'_>
    ensures { due_of result ≡ start_of place.now }
{
    let words = &place.delivery.words;
    Need::Start(Child::Local {
        slot: place.work.request.slot,
        words: DeliveryWords {
            user: words.user.as_slice(),
            home: words.home.as_slice(),
            local: words.local.as_slice(),
            dash: words.dash.as_slice(),
            ext: words.ext.as_slice(),
            domain: words.domain.as_slice(),
            sender: words.sender.as_slice(),
            line: words.line.as_slice(),
        },
        uid: place.delivery.uid,
    })
}

/// Where what came leads. After an `Err` all is as before.
fn act(place: &mut Place, alloc: Global, ready: &Ready, got: &Got<'_>) -> Result<(), Memory>
    ensures ok { OnOk result (place.new ≡ act place.old.row ready.now (came_of got.now) place.old) }
    ensures err { OnErr result (place.new ≡ place.old) }
{
    match place.row {
        Row::OpenUsers => {
            users_opened(place, alloc, got);
            Ok(())
        }
        Row::ReadUsers { fd } => users_read(place, fd, got),
        Row::CloseUsers { whole, .. } => users_closed(place, alloc, whole),
        Row::Serves => {
            let row = row_now(&place.work, ready);
            served(place, alloc, row, got)
        }
        Row::OutOfMemory => Ok(()),
    }
}

impl Machine for LocalSpawn {
    ghost use Rattle.std.specs.Prelude.{◌≡◌, true, None, List, ℕ};
    ghost use Rattle.call_fs.specs.declared.past.Own.{Own};
    ghost use Rattle.call_fs.specs.declared.program.Ready.{Ready as Found};
    ghost use Rattle.call_fs.specs.Past.{IsRunBy, UsesHeld, held};
    ghost use Rattle.local_spawn.specs.Stands.{Stands, due_now, gone_on};
    ghost use Rattle.local_spawn.specs.Table.{Next};

    type Arguments = ();

    ghost present = { λ m. m.present };

    ghost found = { λ m. m.ready };

    ghost looked = { λ _. true };

    ghost can_find = { λ _ _. Unit {0} };

    ghost due = { due_now };

    ghost takes_at_most = { λ _. 18446744073709551615 };

    ghost has_room = { λ _. ⊥ };

    ghost ahead = { λ _. None };

    ghost next = { Next };

    ghost looks = { λ m now ready n. n ≡ record m { present = now; ready = ready } };

    ghost goes = { λ m came n. n ≡ gone_on m came };

    ghost stands = { Stands };

    fn look(&mut self, now: u64, ready: Ready) {
        self.look(now, ready)
    }

    fn need(&self) -> Need<'_> {
        self.need()
    }

    fn taking_room(&self) -> usize {
        usize::MAX
    }

    fn done(&mut self, alloc: Global, got: Got<'_>) -> Result<(), Memory> {
        self.done(alloc, got)
    }

    fn uses_held()
        ensures uses { (args : Unit {0}) (past : List Own) (now : ℕ) (ready : Found) → IsRunBy (Next args) past
            → UsesHeld (held past) (Next args past now ready) }
    {}
}
