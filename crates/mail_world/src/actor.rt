// One actor: its machine, and what it has open.
ghost use Rattle.std.specs.Prelude.{◌≡◌, ◌+◌, ◌<◌, [], List, ℕ, true, false, IfOk, IfSome, IsSome, IsNone, IsTrue, IsOk, OnOk, OnErr, Some, None, length};
ghost use Rattle.call_fs.specs.Program.{IsKind, IsWithin};
ghost use Rattle.call_fs.specs.declared.past.NeedData.TheVariants.{Wait};
ghost use Rattle.mail_bytes.specs.Moments.{IsMoment};
ghost use Rattle.mail_bytes.specs.Told.{OnTold, Meets};
ghost use Rattle.call_fs.specs.declared.past.Own.{Own};
ghost use Rattle.world_events.specs.declared.event.Program.{Program};
ghost use Rattle.mail_world.specs.History.{next_of};
ghost use Rattle.mail_world.specs.World.{GoesByPlan};
ghost use Rattle.mail_world.specs.ByKind.{Follows, present_of, found_of, looked_of, need_of, takes_of, with_own, own_of, awaits_of, searches, HasGone, CanFind, IsAsked};
ghost use Rattle.mail_world.specs.Acting.{HasRead, MayAct, IsSeated, StaysAt, IsNoAct, AreOpen, AreAsBefore, IsCutOff, AreCutOff, HasStepped, HasGiven, HasLooked, HasIdled, IsFinished, is_due_of_child, has_actor, GivesNoActor, SuitsPlace, status_of, shut};
ghost use Rattle.mail_world.specs.Inside.{StandsFor, Owes};
ghost use Rattle.mail_world.specs.Generations.{idled_in};
ghost use Rattle.world_events.specs.declared.event.Event.TheVariants as kept;
ghost use Rattle.mail_world.specs.Kept.{events_of, HasRoom};

use crate::any_machine::AnyMachine;
use crate::{ActorName, Did, Event, History};
use call_fs::{CallFs, Fd, GotData, Machine, NeedData, Own};
use mail_bytes::Memory;
use std::alloc::Global;
use world_events::{Came, Living, Setting, ask, close_all, got_of, keep_open, need_data, own_at};
use world_pipes::{Mouths, exchange, is_of_child, shut_after};

/// An actor of the world.
#[derive(Drop)]
pub struct Actor {
    /// Its name.
    pub name: ActorName,
    /// Its machine.
    pub machine: AnyMachine,
    /// Its open descriptors.
    pub descriptors: Vec<Fd>,
    /// The index of its end or stop in the history, if it has ended.
    pub ended: Option<u64>,
    /// The exit status with which it ended by itself, if it did.
    pub status: Option<u8>,
    /// The index of its newest event, if its machine couldn't take in yet what came of it.
    pub owed: Option<u64>,
    /// Where its pipes are, if it takes from some.
    pub wire: Option<usize>,
    /// The slot in which it was started, if its parent has pipes: where those are, and which slot.
    pub slot: Option<(usize, u8)>,
    /// The place of its entry in the books, if it is an injector.
    pub entry: Option<usize>,
}

impl Living for Actor {
    ghost use Rattle.mail_world.specs.Starts.{lives};

    ghost lives = { lives };

    fn is_alive(&self) -> bool {
        self.ended.is_none()
    }
}

impl Actor {
    /// A living actor that has nothing open, with its pipes, its slot and its entry, if it has them. Takes no memory.
    pub fn new(
        alloc: Global,
        name: ActorName,
        machine: AnyMachine,
        wire: Option<usize>,
        slot: Option<(usize, u8)>,
        entry: Option<usize>,
    ) -> Actor
        ensures name { result.name ≡ name }
        ensures machine { result.machine ≡ machine }
        ensures descriptors { result.descriptors.items ≡ [] }
        ensures ended { result.ended ≡ None }
        ensures status { result.status ≡ None }
        ensures owed { result.owed ≡ None }
        ensures wire { result.wire ≡ wire }
        ensures slot { result.slot ≡ slot }
        ensures entry { result.entry ≡ entry }
    {
        Actor {
            name,
            machine,
            descriptors: Vec::new(alloc),
            ended: None,
            status: None,
            owed: None,
            wire,
            slot,
            entry,
        }
    }

    /// What of a child is due to it at this moment, with this ready, if that is due next: to start one, to give it its input, or to take
    /// its status.
    pub fn asks(
        &mut self,
        alloc: Global,
        mouths: &[Mouths],
        at: Setting,
    ) -> Result<Option<NeedData>, Memory>
        requires moment { IsMoment at.now }
        requires found { CanFind self.old.machine at.ready }
        ensures due { IfOk result (λ asked. IfSome asked (λ due. IsAsked self.new.machine at.now at.ready due)) }
        ensures next { IfOk result (λ asked. IfSome asked (λ due. (program : Program) (past : List Own) → Follows self.old.machine program past
            → next_of program past at.now at.ready ≡ due)) }
        ensures of_child { IfOk result (λ asked. IfSome asked (λ due. is_due_of_child (has_actor mouths.now self.old.wire) due ≡ true)) }
        ensures none { IfOk result (λ asked. IsNone asked → (program : Program) (past : List Own) → Follows self.old.machine program past
            → is_due_of_child (has_actor mouths.now self.old.wire) (next_of program past at.now at.ready) ≡ false) }
        ensures looked { HasLooked self.old self.new }
        ensures read { OnOk result (HasRead self.new.machine at.now at.ready) }
    {
        self.machine.look(at.now, at.ready);
        let need = self.machine.need();
        if is_of_child(mouths, self.wire, &need) {
            Ok(Some(need_data(alloc, need)?))
        } else {
            Ok(None)
        }
    }

    /// One step: what is due, or its end, in which its descriptors are closed and what it gives to is shut; `None` if nothing of what
    /// is due can be done yet. Room for a descriptor is made first, and from the call on only its machine takes memory: if that finds none, it owes the event. The
    /// conditions: it has looked and owes none, what is due may be made, what it has open is open, there is room for the event, its pipes are among
    /// these, or it has none, and a call or its end is due to it or it waits, and nothing of a child is due.
    pub fn act<D: CallFs>(
        &mut self,
        alloc: Global,
        disk: &mut D,
        history: &mut History,
        mouths: &mut Vec<Mouths>,
        at: Setting,
    ) -> Result<Option<Did>, Memory>
        requires moment { IsMoment at.now }
        requires read { HasRead self.old.machine at.now at.ready }
        requires may { MayAct (D.disk disk.old) self.old.machine self.old.wire mouths.old.items at.now at.ready }
        requires paid { self.old.owed ≡ None }
        requires opens { OnTold (D.disk disk.old) (λ before. AreOpen before self.old.descriptors.items) }
        requires room { HasRoom history.old 1 }
        requires seat { IsSeated self.old.wire mouths.old.items }
        ensures acted { IfOk result (λ did. HasStepped did (D.disk disk.old) (D.disk disk.new) mouths.old.items mouths.new.items at.pid
            self.old self.new (events_of history.old) (events_of history.new) at.now at.ready) }
        ensures plan { IfOk result (λ did. IsSome did → GoesByPlan D.plan D.disk disk.old disk.new (events_of history.old) (events_of history.new)) }
        ensures at { IfOk result (λ did. IfSome did (λ did. did.at ≡ length (events_of history.old))) }
        ensures idle { IfOk result (λ did. IfSome did (λ did. HasIdled did.idle self.old (events_of history.old) (events_of history.new))) }
        ensures room { OnOk result ((more : ℕ) → HasRoom history.old (more + 1) → HasRoom history.new more) }
        ensures waits { IfOk result (λ did. IsNone did → (disk.new ≡ disk.old) × (history.new ≡ history.old)) }
        ensures err { OnErr result (disk.new ≡ disk.old) }
        ensures looked { OnErr result (HasLooked self.old self.new) }
        ensures same { OnErr result (history.new ≡ history.old) }
        ensures pipes { OnErr result (AreAsBefore mouths.old.items mouths.new.items) }
    {
        let index = history.len() as u64;
        self.descriptors.reserve(1)?;
        match ask(alloc, &self.machine, disk, at)? {
            Came::Did(own) => {
                keep_open(&mut self.descriptors, &own);
                let idle = self.take_in(alloc, &own, index);
                history.put(Event::Act {
                    actor: self.name.copy(),
                    own,
                });
                Ok(Some(Did::new(index, None, idle)))
            }
            Came::Ended(status) => {
                history.put(Event::End {
                    actor: self.name.copy(),
                    read: at.now,
                    ready: at.ready,
                    status,
                });
                self.end(disk, index, Some(status));
                shut_after(mouths, self.wire, self.slot, self.name.as_slice());
                Ok(Some(Did::new(index, Some(status), false)))
            }
            Came::Due(mut due) => {
                let did = self.pass(alloc, history, mouths, at, &mut due);
                drop(due);
                did
            }
        }
    }

    /// What is due and is no call: it passes something to another program, or takes it. The conditions: it has looked and owes no
    /// event, this is due, it has pipes among these, or waits, nothing of an actor in a slot is due, and there is room for the event.
    fn pass(
        &mut self,
        alloc: Global,
        history: &mut History,
        mouths: &mut Vec<Mouths>,
        at: Setting,
        due: &mut NeedData,
    ) -> Result<Option<Did>, Memory>
        requires paid { self.old.owed ≡ None }
        requires looked { IsTrue (looked_of self.old.machine) }
        requires read { present_of self.old.machine ≡ at.now }
        requires found { found_of self.old.machine ≡ at.ready }
        requires due { need_of self.old.machine ≡ due.old }
        requires pass { IsNoAct due.old }
        requires seat { IsSeated self.old.wire mouths.old.items }
        requires waits { self.old.wire ≡ None → due.old ≡ Wait }
        requires alone { (i : ℕ) → self.old.wire ≡ Some i → GivesNoActor mouths.old.items i due.old }
        requires suits { (i : ℕ) → self.old.wire ≡ Some i → SuitsPlace i due.old }
        requires room { HasRoom history.old 1 }
        ensures passed { IfOk result (λ did. HasGiven did mouths.old.items mouths.new.items at.pid
            self.old self.new (events_of history.old) (events_of history.new) at.now at.ready due.old) }
        ensures at { IfOk result (λ did. IfSome did (λ did. (did.at ≡ length (events_of history.old)) × (did.ended ≡ None))) }
        ensures idle { IfOk result (λ did. IfSome did (λ did. HasIdled did.idle self.old (events_of history.old) (events_of history.new))) }
        ensures room { OnOk result ((more : ℕ) → HasRoom history.old (more + 1) → HasRoom history.new more) }
        ensures waits { IfOk result (λ did. IsNone did → (self.new ≡ self.old) × (history.new ≡ history.old)) }
        ensures err { OnErr result (self.new ≡ self.old) }
        ensures same { OnErr result (history.new ≡ history.old) }
        ensures pipes { OnErr result (AreAsBefore mouths.old.items mouths.new.items) }
    {
        let Some(wire) = self.wire else {
            return Ok(None);
        };
        let most = self.machine.taking_room();
        let name = self.name.as_slice();
        let Some(came) = exchange(alloc, mouths, wire, self.slot, name, most, at.pid, due)? else {
            return Ok(None);
        };
        let index = history.len() as u64;
        let own = own_at(at, due, came);
        let idle = self.take_in(alloc, &own, index);
        history.put(Event::Act {
            actor: self.name.copy(),
            own,
        });
        Ok(Some(Did::new(index, None, idle)))
    }

    /// Hands in what came of this event, which the history will have at this index, or owes it. Tells whether an idle turn of a
    /// sender ended. The conditions: it owes none, and this may be handed in.
    pub fn take_in(&mut self, alloc: Global, own: &Own, index: u64) -> bool
        requires paid { self.old.owed ≡ None }
        requires looked { IsTrue (looked_of self.old.machine) }
        requires kind { IsKind (need_of self.old.machine) own.now.came }
        requires within { IsWithin (takes_of self.old.machine) own.now.came }
        ensures follows { (program : Program) (past : List Own) → Follows self.old.machine program past
            → StandsFor self.new program (with_own self.old.machine own.now.came past) }
        ensures idle { (program : Program) (past : List Own) → Follows self.old.machine program past
            → result ≡ idled_in program past (own_of self.old.machine own.now.came) }
        ensures owes { (at : ℕ) → self.new.owed ≡ Some at → (at ≡ index) × (self.new.machine ≡ self.old.machine) }
        ensures awaits { awaits_of self.new.machine ≡ awaits_of self.old.machine }
        ensures descriptors { self.new.descriptors.items ≡ self.old.descriptors.items }
        ensures name { self.new.name ≡ self.old.name }
        ensures ended { self.new.ended ≡ self.old.ended }
        ensures status { self.new.status ≡ self.old.status }
        ensures stays { StaysAt self.old self.new }
    {
        let searching = self.machine.is_searching();
        match self.hand_in(alloc, own) {
            Ok(()) => searching && self.machine.is_through(),
            Err(_) => {
                self.owed = Some(index);
                false
            }
        }
    }

    /// Hands in the event that it owes, if it owes one. After `Memory` it is as before. The condition: it owes one that the history
    /// has.
    pub fn pay(&mut self, alloc: Global, history: &History) -> Result<(), Memory>
        requires { (at : ℕ) → self.old.owed ≡ Some at → (past : List Own) × Owes self.old (events_of history.now) past at }
        ensures paid { OnOk result (self.new.owed ≡ None) }
        ensures follows { OnOk result ((program : Program) (past : List Own)
            → ((at : ℕ) → self.old.owed ≡ Some at → Owes self.old (events_of history.now) past at)
            → StandsFor self.old program past → Follows self.new.machine program past) }
        ensures awaits { OnOk result (awaits_of self.new.machine ≡ awaits_of self.old.machine) }
        ensures descriptors { self.new.descriptors.items ≡ self.old.descriptors.items }
        ensures name { self.new.name ≡ self.old.name }
        ensures ended { self.new.ended ≡ self.old.ended }
        ensures status { self.new.status ≡ self.old.status }
        ensures stays { StaysAt self.old self.new }
        ensures err { OnErr result (self.new ≡ self.old) }
    {
        let Some(at) = self.owed else {
            return Ok(());
        };
        let Some(own) = history.events()[at as usize].own() else {
            unreachable!()
        };
        self.hand_in(alloc, own)?;
        self.owed = None;
        Ok(())
    }

    /// Hands what came of this event of its own to its machine. After `Memory` it is as before, and the same may be handed
    /// in again. The conditions: it has looked, what came is of the kind of its need, and a taking has no more bytes than it may
    /// be handed.
    fn hand_in(&mut self, alloc: Global, own: &Own) -> Result<(), Memory>
        requires looked { IsTrue (looked_of self.old.machine) }
        requires kind { IsKind (need_of self.old.machine) own.now.came }
        requires within { IsWithin (takes_of self.old.machine) own.now.came }
        ensures follows { OnOk result ((program : Program) (past : List Own) → Follows self.old.machine program past
            → Follows self.new.machine program (with_own self.old.machine own.now.came past)) }
        ensures goes { OnOk result (HasGone self.old.machine own.now.came self.new.machine) }
        ensures awaits { OnOk result (awaits_of self.new.machine ≡ awaits_of self.old.machine) }
        ensures memory { IsTrue (searches self.old.machine) → IsOk result }
        ensures err { OnErr result (self.new ≡ self.old) }
        ensures descriptors { self.new.descriptors.items ≡ self.old.descriptors.items }
        ensures name { self.new.name ≡ self.old.name }
        ensures ended { self.new.ended ≡ self.old.ended }
        ensures status { self.new.status ≡ self.old.status }
        ensures owed { self.new.owed ≡ self.old.owed }
        ensures stays { StaysAt self.old self.new }
    {
        self.machine.done(alloc, got_of(&own.came))
    }

    /// It is stopped from outside: the event is appended, its descriptors are closed, what it gives to is shut, and an event that it
    /// owes is dropped. Takes no memory. The conditions: what it has open is open, there is room for the event, and its pipes are among
    /// these, if it has some.
    pub fn stop<D: CallFs>(&mut self, disk: &mut D, history: &mut History, mouths: &mut Vec<Mouths>)
        requires opens { OnTold (D.disk disk.old) (λ before. AreOpen before self.old.descriptors.items) }
        requires room { HasRoom history.old 1 }
        requires seat { IsSeated self.old.wire mouths.old.items }
        ensures stopped { IsFinished (kept.Stop self.old.name) None (D.disk disk.old) (D.disk disk.new) mouths.old.items mouths.new.items
            self.old self.new (events_of history.old) (events_of history.new) }
        ensures plan { GoesByPlan D.plan D.disk disk.old disk.new (events_of history.old) (events_of history.new) }
        ensures room { (more : ℕ) → HasRoom history.old (more + 1) → HasRoom history.new more }
    {
        let index = history.len() as u64;
        history.put(Event::Stop {
            actor: self.name.copy(),
        });
        self.end(disk, index, None);
        shut_after(mouths, self.wire, self.slot, self.name.as_slice());
    }

    /// It is over, with the event of this index and this exit status, if it has one, and its descriptors are closed. The condition:
    /// they are open.
    fn end<D: CallFs>(&mut self, disk: &mut D, at: u64, status: Option<u8>)
        requires { OnTold (D.disk disk.old) (λ before. AreOpen before self.old.descriptors.items) }
        ensures closed { Meets (D.disk disk.old) (D.disk disk.new) (λ before after. after ≡ shut self.old.descriptors.items before) }
        ensures plan { D.plan disk.new ≡ D.plan disk.old }
        ensures descriptors { self.new.descriptors.items ≡ [] }
        ensures ended { self.new.ended ≡ Some at }
        ensures status { self.new.status ≡ status }
        ensures name { self.new.name ≡ self.old.name }
        ensures stays { StaysAt self.old self.new }
    {
        self.ended = Some(at);
        self.status = status;
        self.owed = None;
        self.machine = AnyMachine::Over;
        close_all(disk, &mut self.descriptors);
    }

    /// The machine stopped, with the event of this index: it is over, if it wasn't, and has nothing open and no pipes any more.
    fn cut_off(&mut self, index: u64)
        ensures { IsCutOff index self.old self.new }
    {
        if self.ended.is_none() {
            self.ended = Some(index);
        }
        self.owed = None;
        self.wire = None;
        self.descriptors.clear();
    }
}

/// What the status of this actor tells whose child it is, if it is over.
pub fn status_of(actor: &Actor) -> Option<GotData>
    ensures { result ≡ status_of actor.now.ended actor.now.status }
{
    match (actor.ended, actor.status) {
        (None, _) => None,
        (Some(_), Some(status)) => Some(GotData::Ended(status)),
        (Some(_), None) => Some(GotData::Crashed),
    }
}

/// The machine stopped, with the event of this index: all actors are over.
pub fn cut_off_all(actors: &mut [Actor], index: u64)
    ensures { AreCutOff index actors.old actors.new }
{
    for actor in actors.iter_mut() {
        actor.cut_off(index);
    }
}
