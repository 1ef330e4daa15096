// The machine of an actor.
ghost use Rattle.std.specs.Prelude.{◌≡◌, List, false, IsTrue, IsOk, OnOk, OnErr};
ghost use Rattle.call_fs.specs.declared.past.Own.{Own};
ghost use Rattle.call_fs.specs.Program.{came_of, IsKind, IsWithin};
ghost use Rattle.world_events.specs.declared.event.Program.{Program as Runs};
ghost use Rattle.mail_world.specs.ByKind.{Follows, HasRoom, HasGone, looked_of, need_of, takes_of, with_own, searches, is_through, awaits_of, IsGiven};

use crate::Program;
use call_fs::{Got, Machine, Need, Ready};
use fed_injector::FedInjector;
use local_deliver::Local as Deliverer;
use local_spawn::LocalSpawn;
use mail_bytes::{ByteText, Memory, OnHeap};
use queue_clean::Cleaner;
use remote_spawn::RemoteSpawn;
use send_core::Sender;
use std::alloc::Global;

/// A program of the world as a machine, with what the world keeps beside it: a case for each kind.
#[derive(Drop)]
pub enum AnyMachine {
    /// The injector of a mail, of a bounce or of a forward, and its input.
    Mail(OnHeap<FedInjector>),
    /// A cleaner.
    Clean(OnHeap<Cleaner>),
    /// A sender.
    Send(OnHeap<Sender>),
    /// A local spawner.
    Local(OnHeap<LocalSpawn>),
    /// A remote spawner.
    Remote(OnHeap<RemoteSpawn>),
    /// A local delivery.
    Deliver(OnHeap<Deliverer>),
    /// None any more: its actor is over.
    Over,
}

impl AnyMachine {
    /// Hands in what came, as any machine's `done`. A sender that searches todo takes no memory.
    pub fn done(&mut self, alloc: Global, got: Got<'_>) -> Result<(), Memory>
        requires looked { IsTrue (looked_of self.old) }
        requires kind { IsKind (need_of self.old) (came_of got) }
        requires within { IsWithin (takes_of self.old) (came_of got) }
        ensures stands { (program : Runs) (past : List Own) → Follows self.old program past
            → OnOk result (Follows self.new program (with_own self.old (came_of got.entry) past)) }
        ensures room { HasRoom self.old → IsOk result × HasRoom self.new }
        ensures goes { OnOk result (HasGone self.old (came_of got.entry) self.new) }
        ensures memory { IsTrue (searches self.old) → IsOk result }
        ensures awaits { OnOk result (awaits_of self.new ≡ awaits_of self.old) }
        ensures err { OnErr result (self.new ≡ self.old) }
    {
        match self {
            AnyMachine::Mail(injector) => injector.get_mut().done(alloc, got),
            AnyMachine::Clean(cleaner) => cleaner.get_mut().done(got),
            AnyMachine::Send(sender) => sender.get_mut().done(alloc, got),
            AnyMachine::Local(spawner) => spawner.get_mut().done(alloc, got),
            AnyMachine::Remote(spawner) => spawner.get_mut().done(alloc, got),
            AnyMachine::Deliver(delivery) => delivery.get_mut().done(alloc, got),
            AnyMachine::Over => unreachable!(),
        }
    }

    /// Whether it is a sender whose next step is the search of todo, and that has done nothing else in this turn. The condition: it
    /// has looked.
    pub fn is_searching(&self) -> bool
        requires { IsTrue (looked_of self.now) }
        ensures { result ≡ searches self.now }
    {
        matches!(self, AnyMachine::Send(sender) if sender.get().is_searching())
    }

    /// Whether it is an injector whose input isn't given yet, and may still be.
    pub fn awaits(&self) -> bool
        ensures { result ≡ awaits_of self.now }
    {
        matches!(self, AnyMachine::Mail(injector) if injector.get().awaits())
    }

    /// It is given its input: this message and this envelope. Takes no memory. The condition: it awaits it.
    pub fn give(&mut self, message: ByteText, envelope: ByteText)
        requires { IsTrue (awaits_of self.old) }
        ensures given { IsGiven message envelope self.old self.new }
    {
        if let AnyMachine::Mail(injector) = self {
            injector.get_mut().give(message, envelope);
        }
    }

    /// Nobody gives it any input any more. If it is an injector that still awaits it, its input has ended. Takes no memory.
    pub fn cut(&mut self)
        ensures stands { (program : Runs) (past : List Own) → Follows self.old program past → Follows self.new program past }
        ensures over { awaits_of self.new ≡ false }
    {
        if let AnyMachine::Mail(injector) = self {
            injector.get_mut().cut();
        }
    }

    /// Whether it is a sender that stands between two turns, or has ended.
    pub fn is_through(&self) -> bool
        ensures { result ≡ is_through self.now }
    {
        matches!(self, AnyMachine::Send(sender) if sender.get().is_between())
    }
}

impl Machine for AnyMachine {
    ghost use Rattle.std.specs.Prelude.{◌≡◌, None};
    ghost use Rattle.mail_world.specs.History.{next_of};
    ghost use Rattle.mail_world.specs.ByKind.{present_of, found_of, looked_of, CanFind, need_of, takes_of, HasRoom, Follows, awaits_of};

    type Arguments = Program;

    ghost present = { present_of };

    ghost found = { found_of };

    ghost looked = { looked_of };

    ghost can_find = { CanFind };

    ghost due = { need_of };

    ghost takes_at_most = { takes_of };

    ghost has_room = { HasRoom };

    ghost ahead = { λ _. None };

    ghost next = { next_of };

    ghost looks = { λ m _ _ n. awaits_of n ≡ awaits_of m };

    ghost goes = { λ m _ n. awaits_of n ≡ awaits_of m };

    ghost stands = { Follows };

    fn look(&mut self, now: u64, ready: Ready) {
        match self {
            AnyMachine::Mail(injector) => injector.get_mut().look(now, ready),
            AnyMachine::Clean(cleaner) => cleaner.get_mut().look(now, ready),
            AnyMachine::Send(sender) => sender.get_mut().look(now, ready),
            AnyMachine::Local(spawner) => spawner.get_mut().look(now, ready),
            AnyMachine::Remote(spawner) => spawner.get_mut().look(now, ready),
            AnyMachine::Deliver(delivery) => delivery.get_mut().look(now, ready),
            AnyMachine::Over => unreachable!(),
        }
    }

    fn need(&self) -> Need<'_> {
        match self {
            AnyMachine::Mail(injector) => injector.get().need(),
            AnyMachine::Clean(cleaner) => cleaner.get().need(),
            AnyMachine::Send(sender) => sender.get().need(),
            AnyMachine::Local(spawner) => spawner.get().need(),
            AnyMachine::Remote(spawner) => spawner.get().need(),
            AnyMachine::Deliver(delivery) => delivery.get().need(),
            AnyMachine::Over => Need::Wait,
        }
    }

    fn taking_room(&self) -> usize {
        match self {
            AnyMachine::Mail(injector) => injector.get().taking_room(),
            AnyMachine::Clean(cleaner) => cleaner.get().taking_room(),
            AnyMachine::Send(sender) => sender.get().taking_room(),
            AnyMachine::Local(spawner) => spawner.get().taking_room(),
            AnyMachine::Remote(spawner) => spawner.get().taking_room(),
            AnyMachine::Deliver(delivery) => delivery.get().taking_room(),
            AnyMachine::Over => 0,
        }
    }

    fn done(&mut self, alloc: Global, got: Got<'_>) -> Result<(), Memory> {
        self.done(alloc, got)
    }

    fn uses_held() {}
}
