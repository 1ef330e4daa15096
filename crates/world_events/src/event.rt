// What happened, and the list of it.
ghost use Rattle.std.specs.Prelude.{◌≡◌, ◌∷◌, ◌++◌, ◌+◌, ◌-◌, ◌≤◌, [], List, ℕ, length, get_or, OnOk, if◌then◌else◌};
ghost use Rattle.world_events.specs.Starting.{starts_in, starts_program};

use actor_names::{ActorName, Member};
use call_fs::{GotData, NeedData, Own, Ready, Survival};
use local_parts::LocalArgs;
use mail_bytes::{ByteText, Memory, OnHeap};
use queue_inject::Arguments;
use std::alloc::Global;

/// A program, and what it is started with.
#[derive(Drop)]
pub enum Program {
    /// An injector.
    Injector(Arguments),
    /// A cleaner, which was started at this moment.
    Cleaner {
        /// The moment of its start.
        start: u64,
    },
    /// A sender, which was started at this moment and goes on until it is stopped.
    Sender {
        /// The moment of its start.
        start: u64,
    },
    /// A local spawner, which was started at this moment.
    LocalSpawner {
        /// The moment of its start.
        start: u64,
    },
    /// A remote spawner, which was started at this moment.
    RemoteSpawner {
        /// The moment of its start.
        start: u64,
    },
    /// A local delivery, which was started at this moment.
    Delivery {
        /// The moment of its start.
        start: u64,
        /// The words of its command line, and its numbers.
        args: LocalArgs,
    },
}

impl Program {
    ghost use Rattle.std.specs.Prelude.{◌≡◌, option_map};
    ghost use Rattle.world_events.specs.Programs.{injection_of};

    /// What an injector was started with; `None` for every other program.
    pub fn injection(&self) -> Option<&Arguments>
        ensures { option_map (λ args. args.now) result ≡ injection_of self.now }
    {
        match self {
            Program::Injector(arguments) => Some(arguments),
            _ => None,
        }
    }
}

/// One event of a history. An actor's event also tells the moment that it read and what it found ready.
#[derive(Drop)]
pub enum Event {
    /// An actor was started.
    Start {
        /// Its name.
        actor: ActorName,
        /// What it runs.
        program: OnHeap<Program>,
    },
    /// An actor did what was due.
    Act {
        /// The actor.
        actor: ActorName,
        /// What it did, and what came of it.
        own: Own,
    },
    /// An actor started another one, which is an event of its own past too.
    Child {
        /// Who started it.
        actor: ActorName,
        /// What that actor did, and what came of it.
        own: OnHeap<Own>,
        /// Whom it started.
        child: ActorName,
        /// What the child runs, as one that was given nothing: its input has ended before its first byte.
        program: OnHeap<Program>,
    },
    /// An actor gave a child its whole input, which is an event of its own past too.
    Feed {
        /// Who gave it.
        actor: ActorName,
        /// What that actor did, and what came of it.
        own: OnHeap<Own>,
        /// To whom it was given.
        child: ActorName,
        /// The message that was given.
        message: ByteText,
        /// The envelope that was given.
        envelope: ByteText,
    },
    /// A generation was started: all its members, together.
    Generation {
        /// The moment of its start.
        start: u64,
    },
    /// The remote program in a slot of the remote spawner ended, and this is what it put out.
    Report {
        /// The slot.
        slot: u8,
        /// The letter of its report.
        letter: u8,
        /// The text of its report.
        text: ByteText,
    },
    /// An actor ended, and its descriptors were closed.
    End {
        /// The actor.
        actor: ActorName,
        /// The moment that it read.
        read: u64,
        /// What it found ready.
        ready: Ready,
        /// Its exit status.
        status: u8,
    },
    /// An actor was stopped from outside, and its descriptors were closed.
    Stop {
        /// The actor.
        actor: ActorName,
    },
    /// A moment came.
    Moment {
        /// The moment, the present one from then on.
        moment: u64,
    },
    /// The machine stopped and started again. Each actor that lived was stopped with it, and no descriptor is open.
    Halt {
        /// What survived of the files.
        how: Survival,
    },
}

impl Event {
    ghost use Rattle.std.specs.Prelude.{◌≡◌, option_map};
    ghost use Rattle.world_events.specs.Inputs.{own_in};

    /// What the actor did whose event it is; `None` if it is no actor's, or the actor's start, end or stop.
    pub fn own(&self) -> Option<&Own>
        ensures { option_map (λ own. own.now) result ≡ own_in self.now }
    {
        match self {
            Event::Act { own, .. } => Some(own),
            Event::Child { own, .. } | Event::Feed { own, .. } => Some(own.get()),
            _ => None,
        }
    }
}

/// A history, the oldest event first.
#[derive(Drop)]
pub struct History {
    events: Vec<Event>,
}

impl History {
    ghost use Rattle.world_events.specs.Kept.{events_of, HasRoom};

    /// The empty history. Takes no memory.
    pub fn new(alloc: Global) -> History
        ensures { events_of result ≡ [] }
    {
        History {
            events: Vec::new(alloc),
        }
    }

    /// How many events it has.
    pub fn len(&self) -> usize
        ensures { result ≡ length (events_of self.now) }
    {
        self.events.len()
    }

    /// Its events, the oldest first.
    pub fn events(&self) -> &[Event]
        ensures { result.now ≡ events_of self.now }
    {
        self.events.as_slice()
    }

    /// The newest event. The condition: there is one.
    pub fn newest(&self) -> &Event
        requires { 1 ≤ length (events_of self.now) }
        ensures { result.now ≡ get_or (events_of self.now) (length (events_of self.now) - 1) result.now }
    {
        &self.events[self.events.len() - 1]
    }

    /// Makes room for this many events. The room that it has stays. The error: out of memory.
    pub fn reserve(&mut self, events: usize) -> Result<(), Memory>
        ensures same { events_of self.new ≡ events_of self.old }
        ensures room { OnOk result (HasRoom self.new events) }
        ensures stays { (more : ℕ) → HasRoom self.old more → HasRoom self.new more }
    {
        self.events.reserve(events)
    }

    /// Appends an event. Takes no memory. The condition: there is room for it.
    pub fn put(&mut self, event: Event)
        requires { HasRoom self.old 1 }
        ensures event { events_of self.new ≡ events_of self.old ++ event ∷ [] }
        ensures room { (more : ℕ) → HasRoom self.old (more + 1) → HasRoom self.new more }
    {
        self.events.push(event).unwrap();
    }
}

/// How many programs an event starts that is no start of a generation: one, if it started a program.
pub fn started_by(event: &Event) -> u32
    ensures { result ≡ starts_in event.now }
{
    match event {
        Event::Start { .. } | Event::Child { .. } => 1,
        Event::Generation { .. } => Member::COUNT as u32,
        Event::Act { own, .. } => starts(own),
        Event::Feed { own, .. } => starts(own.get()),
        _ => 0,
    }
}

/// One, if a program was started.
fn starts(own: &Own) -> u32
    ensures { result ≡ (if starts_program own.now.due own.now.came then 1 else 0) }
{
    match (&own.due, &own.came) {
        (NeedData::Start(_), GotData::Started { .. }) => 1,
        _ => 0,
    }
}
