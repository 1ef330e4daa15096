// The injector with its input.
ghost use Rattle.std.specs.Prelude.{◌≡◌, ◌∷◌, [], List, ℕ, IfOk, IsTrue, true, false};
ghost use Rattle.mail_bytes.specs.Moments.{IsMoment};
ghost use Rattle.call_fs.specs.declared.past.Own.{Own};
ghost use Rattle.queue_inject.specs.declared.injection.Arguments.{Arguments};
ghost use Rattle.queue_inject.specs.Machine.{room_of, due_now};
ghost use Rattle.queue_inject.specs.Stands.{IsStartedBy};
ghost use Rattle.queue_inject.specs.Table.{has_input};
ghost use Rattle.fed_injector.specs.Inputs.{IsNoInput, with_input, awaits, FedStands};

use crate::feeding::{cut, feed};
use call_fs::{Got, Machine, Need, PIECE, Ready};
use mail_bytes::{ByteText, Memory};
use queue_inject::{Arguments, Injector};
use received_line::Invoked;
use std::alloc::Global;

/// What an injector is fed.
#[derive(Drop)]
pub enum Input {
    /// It wasn't given yet.
    Awaited,
    /// It was given, both parts whole.
    Given {
        /// The message.
        message: ByteText,
        /// The envelope.
        envelope: ByteText,
    },
    /// It ended before its first byte.
    Cut,
}

/// An injector, and its input, of which it is fed a piece at a time.
#[derive(Drop)]
pub struct FedInjector {
    /// The injector.
    pub injector: Injector,
    /// Its input.
    pub input: Input,
}

impl FedInjector {
    /// An injector of this user whose input isn't given yet, so that it waits. The condition: a clock may tell its start.
    pub fn new(
        alloc: Global,
        uid: u32,
        pid: u32,
        invoked: Invoked,
        start: u64,
    ) -> Result<FedInjector, Memory>
        requires { IsMoment start }
        ensures stands { IfOk result (λ fed. (args : Arguments) → IsStartedBy args uid pid invoked start → IsNoInput args
            → FedStands fed args []) }
        ensures awaits { IfOk result (λ fed. awaits fed ≡ true) }
    {
        Ok(FedInjector {
            injector: Injector::new(alloc, uid, pid, invoked, start, PIECE)?,
            input: Input::Awaited,
        })
    }

    /// An injector of this user that is given copies of this message and this envelope at once. The condition: a clock may tell its start.
    pub fn given(
        alloc: Global,
        uid: u32,
        pid: u32,
        invoked: Invoked,
        start: u64,
        message: &[u8],
        envelope: &[u8],
    ) -> Result<FedInjector, Memory>
        requires { IsMoment start }
        ensures stands { IfOk result (λ fed. (args : Arguments) → IsStartedBy args uid pid invoked start → IsNoInput args
            → FedStands fed (with_input message.now envelope.now args) []) }
        ensures given { IfOk result (λ fed. awaits fed ≡ false) }
    {
        let message = ByteText::from_slice(alloc, message)?;
        let envelope = ByteText::from_slice(alloc, envelope)?;
        let mut injector = FedInjector::new(alloc, uid, pid, invoked, start)?;
        injector.give(message, envelope);
        Ok(injector)
    }

    /// Whether its input isn't given yet, and may still be.
    pub fn awaits(&self) -> bool
        ensures { result ≡ awaits self.now }
    {
        match self.input {
            Input::Awaited => true,
            Input::Given { .. } | Input::Cut => false,
        }
    }

    /// It is given its input: this message and this envelope. Takes no memory. The condition: it awaits it.
    pub fn give(&mut self, message: ByteText, envelope: ByteText)
        requires { IsTrue (awaits self.old) }
        ensures stands { (args : Arguments) (past : List Own) → FedStands self.old args past
            → FedStands self.new (with_input message envelope args) past }
        ensures given { awaits self.new ≡ false }
    {
        self.input = Input::Given { message, envelope };
    }

    /// Nobody gives it any input any more. If it still awaits it, it has ended before its first byte. Takes no memory.
    pub fn cut(&mut self)
        ensures stands { (args : Arguments) (past : List Own) → FedStands self.old args past → FedStands self.new args past }
        ensures over { awaits self.new ≡ false }
    {
        if self.awaits() {
            self.input = Input::Cut;
        }
    }
}

impl Machine for FedInjector {
    ghost use Rattle.std.specs.Prelude.{true, false, None};
    ghost use Rattle.queue_inject.specs.Machine.{due_now};
    ghost use Rattle.queue_inject.specs.Table.{Next, has_input};
    ghost use Rattle.fed_injector.specs.Inputs.{awaits, FedStands};

    type Arguments = Arguments;

    ghost present = { λ m. m.injector.present };

    ghost found = { λ m. m.injector.ready };

    ghost looked = { λ _. true };

    ghost can_find = { λ m ready. awaits m ≡ true → has_input ready ≡ false };

    ghost due = { λ m. due_now m.injector };

    ghost takes_at_most = { λ _. 0 };

    ghost has_room = { λ _. Unit {0} };

    ghost ahead = { λ _. None };

    ghost next = { Next };

    ghost looks = { λ m _ _ n. awaits n ≡ awaits m };

    ghost goes = { λ m _ n. awaits n ≡ awaits m };

    ghost stands = { FedStands };

    /// With its input ready, it is fed what it asks for first. While the input is awaited, it isn't ready.
    fn look(&mut self, now: u64, ready: Ready) {
        if ready.links[0] {
            match &self.input {
                Input::Awaited => unreachable!(),
                Input::Given { message, envelope } => {
                    feed(&mut self.injector, message.as_slice(), envelope.as_slice());
                }
                Input::Cut => cut(&mut self.injector),
            }
        }
        self.injector.look(now, ready);
    }

    fn need(&self) -> Need<'_> {
        self.injector.need()
    }

    fn taking_room(&self) -> usize {
        0
    }

    fn done(&mut self, _alloc: Global, got: Got<'_>) -> Result<(), Memory> {
        self.injector.done(got)
    }

    fn uses_held() {}
}
