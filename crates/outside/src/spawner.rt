// What starts children.
ghost use Rattle.std.specs.Prelude.{◌≡◌, ◌<◌, ◌+◌, ◌⊎◌, ◌↔◌, ℕ, List, [], Option, None, IfOk, OnOk, OnErr, IfSome, IfNone, length, map};
ghost use Rattle.std.specs.Option.{option_copied, option_map};
ghost use Rattle.mail_bytes.specs.Told.{Records};
ghost use Rattle.outside.specs.Streams.{CountsFailures, gave_failed};
ghost use Rattle.outside.specs.Children.{SpawnCall, Starts};
ghost use Rattle.outside.specs.Children.SpawnCall.{Start, Feed, Finish, AskStatus};
ghost use Rattle.outside.specs.Forms.{FailsNext, IsNextChild, LacksRoom, NoneLeft, StartsNext, after_status, channels, child_of, failed_spawn, fed_child, fed_spawn, finished_child, finished_spawn, new_child, new_plan, child_status, with_started};

use crate::bounded::BoundedBytes;
use crate::fault_plan::FaultPlan;
use crate::sink::Gave;
use mail_bytes::{ByteText, Memory};
use std::alloc::Global;
use std::marker::Model;

/// What came of a start.
#[derive(Clone, Copy, PartialEq, Eq)]
pub enum Started {
    /// The child runs.
    Chan {
        /// Its channel.
        chan: u32,
        /// The number of its process, 0 if the system tells none.
        pid: u32,
    },
    /// It couldn't be started; the spawner has counted it.
    Failed,
    /// Out of memory.
    Memory,
}

/// How a child ended.
#[derive(Clone, Copy, PartialEq, Eq)]
pub enum Status {
    /// It exited with this status.
    Ended(u8),
    /// It was ended by a signal.
    Crashed,
    /// That couldn't be told; the spawner has counted it.
    Failed,
}

/// What starts children. What they send comes as posts of their channels.
pub trait Spawner {
    /// The channels of the children that were started, in order.
    ghost children: { Self → List ℕ };

    /// The calls so far with their answers, in order, if it keeps them.
    ghost calls: { Self → Option (List SpawnCall) };

    /// How often it has failed; the count never falls, and stands still at u64's last value.
    ghost faults: { Self → ℕ };

    /// How often it has failed.
    fn faults(&self) -> u64
        ensures { result ≡ faults self.now };

    /// Starts the program of the first word with the other words, as execvp(3), its input and output piped. The
    /// channel is at least 1 and no earlier child's; if none is left the start fails. `Memory` may come.
    fn start(&mut self, alloc: Global, words: &[&[u8]]) -> Started
        ensures chan { Starts result (children self.old) (children self.new) }
        ensures told { Records (calls self.old) (calls self.new) (Start (map (λ w. w.now) words.now) result) }
        ensures cause { CountsFailures (faults self.old) (faults self.new) (result ≡ Started.Failed) };

    /// Gives bytes to a child's input.
    fn feed(&mut self, chan: u32, bytes: &[u8]) -> Gave
        ensures same { children self.new ≡ children self.old }
        ensures told { Records (calls self.old) (calls self.new) (Feed chan bytes.now result) }
        ensures cause { CountsFailures (faults self.old) (faults self.new) (result ≡ Gave.Failed) };

    /// Ends a child's input.
    fn finish(&mut self, chan: u32)
        ensures same { children self.new ≡ children self.old }
        ensures told { Records (calls self.old) (calls self.new) (Finish chan) }
        ensures cause { faults self.new ≡ faults self.old };

    /// How a child ended, as wait(2).
    fn status(&mut self, chan: u32) -> Status
        ensures same { children self.new ≡ children self.old }
        ensures told { Records (calls self.old) (calls self.new) (AskStatus chan result) }
        ensures cause { CountsFailures (faults self.old) (faults self.new) (result ≡ Status.Failed) };
}

/// A child in memory: what is planned of it.
#[derive(Clone, Copy)]
pub struct MemChild {
    /// The number of its process.
    pub pid: u32,
    /// How many bytes of its input it takes at most. Of bytes past those it takes none, and a feeding with them fails.
    pub room: usize,
    /// How it ended.
    pub status: Status,
}

/// A child in memory that was started.
#[derive(Drop)]
struct StartedChild {
    words: Vec<ByteText>,
    fed: BoundedBytes,
    is_finished: bool,
    status: Status,
}

impl Model for StartedChild {
    ghost use Rattle.outside.specs.Forms.{ChildForm};

    ghost Value = { ChildForm };

    ghost view = { λ c. record { words = c.words.items; fed = c.fed; is_finished = c.is_finished; status = c.status } };
}

impl StartedChild {
    /// A child with these words, and as it is planned.
    fn new(alloc: Global, words: &[&[u8]], planned: &MemChild) -> Result<Self, Memory>
        ensures { IfOk result (λ c. c ≡ new_child (map (λ w. w.now) words.now) planned.now) }
    {
        Ok(StartedChild {
            words: texts_of(alloc, words)?,
            fed: BoundedBytes::new(alloc, planned.room)?,
            is_finished: false,
            status: planned.status,
        })
    }

    /// Takes as many of these bytes as it has room for; fails if that isn't all of them.
    fn feed(&mut self, bytes: &[u8]) -> Gave
        ensures failed { (result ≡ Gave.Failed) ↔ (self.old.fed.room < length bytes.now) }
        ensures fed { self.new ≡ fed_child bytes.now self.old }
    {
        self.fed.take(bytes)
    }

    /// Its input has ended, so it takes no more.
    fn finish(&mut self)
        ensures { self.new ≡ finished_child self.old }
    {
        self.fed.close();
        self.is_finished = true;
    }
}

/// Copies of these words.
pub(crate) fn texts_of(alloc: Global, words: &[&[u8]]) -> Result<Vec<ByteText>, Memory>
    ensures { IfOk result (λ texts. texts.items ≡ map (λ w. w.now) words.now) }
{
    let mut texts = Vec::new(alloc);
    for word in words {
        texts.push(ByteText::from_slice(alloc, word)?)?;
    }
    Ok(texts)
}

/// A spawner in memory: its children are started one after another, on the channels from 1, and then each start fails.
/// It keeps the words with which each was started, and what each was fed. A feeding or a question for a channel of none
/// of them fails too, and so does each call that was planned to.
#[derive(Drop)]
pub struct MemSpawner {
    children: Vec<MemChild>,
    started: Vec<StartedChild>,
    plan: FaultPlan,
}

impl Model for MemSpawner {
    ghost use Rattle.outside.specs.Forms.{SpawnForm};

    ghost Value = { SpawnForm };

    ghost view = { λ s. record { all = s.children.items; started = s.started.items; plan = s.plan } };
}

impl MemSpawner {
    /// A spawner of these children, whose calls with these numbers fail, counted from 1 over every call but `finish`.
    /// Takes no memory.
    pub fn new(alloc: Global, children: Vec<MemChild>, failing: Vec<u64>) -> Self
        ensures { result ≡ record { all = children.items; started = []; plan = new_plan failing.items } }
    {
        MemSpawner {
            children,
            started: Vec::new(alloc),
            plan: FaultPlan::new(failing),
        }
    }

    /// The words with which the child of a channel was started; None if the channel is no child's.
    pub fn words(&self, chan: u32) -> Option<&[ByteText]>
        ensures { option_copied result ≡ option_map (λ c. c.words) (child_of self.now chan) }
    {
        Some(self.child(chan)?.words.as_slice())
    }

    /// What the child of a channel was fed so far; None if the channel is no child's.
    pub fn fed(&self, chan: u32) -> Option<&[u8]>
        ensures { option_copied result ≡ option_map (λ c. c.fed.bytes) (child_of self.now chan) }
    {
        Some(self.child(chan)?.fed.as_slice())
    }

    /// Whether the input of the child of a channel was ended; None if the channel is no child's.
    pub fn is_finished(&self, chan: u32) -> Option<bool>
        ensures { result ≡ option_map (λ c. c.is_finished) (child_of self.now chan) }
    {
        Some(self.child(chan)?.is_finished)
    }

    /// The started child of a channel.
    fn child(&self, chan: u32) -> Option<&StartedChild>
        ensures { option_copied result ≡ child_of self.now chan }
    {
        Some(&self.started[self.place_of(chan)?])
    }

    /// Where the child of a channel stands among those that were started.
    fn place_of(&self, chan: u32) -> Option<usize>
        ensures some { IfSome result (λ place. (chan ≡ place + 1) × (place < length self.now.started)) }
        ensures none { IfNone result (child_of self.now chan ≡ None) }
    {
        let place = usize::try_from(chan).ok()?.checked_sub(1)?;
        if place < self.started.len() {
            Some(place)
        } else {
            None
        }
    }

    /// The child that is started next, and its channel; None if there is no child or no channel left.
    fn next_child(&self) -> Option<(MemChild, u32)>
        ensures some { IfSome result (λ next. IsNextChild self.now next.0 next.1) }
        ensures none { IfNone result (NoneLeft self.now) }
    {
        let child = self.children.get(self.started.len())?;
        let chan = u32::try_from(self.started.len() + 1).ok()?;
        Some((*child, chan))
    }

    /// Adds a child with these words to those that were started. After an `Err` all is as before.
    fn add(&mut self, alloc: Global, words: &[&[u8]], planned: &MemChild) -> Result<(), Memory>
        ensures ok { OnOk result (self.new ≡ with_started (new_child (map (λ w. w.now) words.now) planned.now) self.old) }
        ensures err { OnErr result (self.new ≡ self.old) }
    {
        let child = StartedChild::new(alloc, words, planned)?;
        self.started.push(child)?;
        Ok(())
    }
}

impl Spawner for MemSpawner {
    ghost use Rattle.std.specs.Prelude.{None, length};
    ghost use Rattle.outside.specs.Forms.{channels};

    ghost children = { λ s. channels (length s.started) };

    ghost calls = { λ _. None };

    ghost faults = { λ s. s.plan.faults };

    fn faults(&self) -> u64 {
        self.plan.faults()
    }

    fn start(&mut self, alloc: Global, words: &[&[u8]]) -> Started
        ensures chan { Starts result (channels (length self.old.started)) (channels (length self.new.started)) }
        ensures cause { CountsFailures self.old.plan.faults self.new.plan.faults (result ≡ Started.Failed) }
        ensures fails { (result ≡ Started.Failed) ↔ (FailsNext self.old.plan ⊎ NoneLeft self.old) }
        ensures next { StartsNext (map (λ w. w.now) words.now) self.old result self.new }
    {
        if self.plan.call_fails() {
            return Started::Failed;
        }
        let Some((planned, chan)) = self.next_child() else {
            self.plan.count_failure();
            return Started::Failed;
        };
        match self.add(alloc, words, &planned) {
            Ok(()) => Started::Chan {
                chan,
                pid: planned.pid,
            },
            Err(_) => Started::Memory,
        }
    }

    #[tactic(auto, using(crate::proofs::Fed::as_many))]
    fn feed(&mut self, chan: u32, bytes: &[u8]) -> Gave
        ensures same { channels (length self.new.started) ≡ channels (length self.old.started) }
        ensures cause { CountsFailures self.old.plan.faults self.new.plan.faults (result ≡ Gave.Failed) }

        // it fails exactly if the call was planned to, or if there is no child with room for all; and what it holds then
        ensures fails { (result ≡ Gave.Failed) ↔ (FailsNext self.old.plan ⊎ LacksRoom (child_of self.old chan) bytes.now) }
        ensures planned { FailsNext self.old.plan → self.new ≡ failed_spawn self.old }
        ensures unplanned { ¬ (FailsNext self.old.plan) → self.new ≡ fed_spawn chan bytes.now (gave_failed result) self.old }
    {
        if self.plan.call_fails() {
            return Gave::Failed;
        }
        let gave = match self.place_of(chan) {
            Some(place) => {
                let child = &mut self.started[place];
                child.feed(bytes)
            }
            None => Gave::Failed,
        };
        if gave == Gave::Failed {
            self.plan.count_failure();
        }
        gave
    }

    // It answers nothing, so it can't fail, and isn't counted as a call.
    #[tactic(auto, using(crate::proofs::Fed::as_many))]
    fn finish(&mut self, chan: u32)
        ensures same { channels (length self.new.started) ≡ channels (length self.old.started) }
        ensures finished { self.new ≡ finished_spawn chan self.old }
    {
        if let Some(place) = self.place_of(chan) {
            let child = &mut self.started[place];
            child.finish();
        }
    }

    fn status(&mut self, chan: u32) -> Status
        ensures fails { FailsNext self.old.plan → result ≡ Status.Failed }
        ensures status { ¬ (FailsNext self.old.plan) → result ≡ child_status (child_of self.old chan) }
        ensures after { self.new ≡ after_status self.old result }
        ensures cause { CountsFailures self.old.plan.faults self.new.plan.faults (result ≡ Status.Failed) }
    {
        if self.plan.call_fails() {
            return Status::Failed;
        }
        match self.child(chan) {
            Some(child) if child.status != Status::Failed => child.status,
            _ => {
                self.plan.count_failure();
                Status::Failed
            }
        }
    }
}
