// The world: the disk, the actors, the history.
ghost use Rattle.std.specs.Prelude.{◌≡◌, ◌≢◌, ◌∷◌, ◌++◌, ◌⊎◌, ◌↔◌, ◌-◌, ◌<◌, ◌≤◌, [], List, ℕ, Some, None, true, false, length, reverse, option_map, codes, IsTrue, IsNone, IsSomeAnd, IsOk, IfOk, IfErr, IfSome, OnOk, OnErr};
ghost use Rattle.std.specs.List.{slice_get};
ghost use Rattle.call_fs.specs.Disk.{Disk, IsUnused};
ghost use Rattle.mail_bytes.specs.Moments.{IsMoment};
ghost use Rattle.mail_bytes.specs.Told.{OnTold, Meets};
ghost use Rattle.call_fs.specs.Choices.{Halts};
ghost use Rattle.call_fs.specs.Plan.{with_fault, with_pick};
ghost use Rattle.mail_world.specs.History.{Opening, Legal, MayReport, Event as Happening};
ghost use Rattle.mail_world.specs.Generations.{generation_world, reported_world, IsFirstAlive, IsNoneAlive, Waits, has_idled, next_living, lowest_unreported};
ghost use Rattle.mail_world.specs.Inside.{among_all, known};
ghost use Rattle.world_events.specs.declared.event.Event.{Event as Kept};
ghost use Rattle.world_events.specs.Inputs.{with_inputs};
ghost use Rattle.mail_world.specs.Kept.{events_of, HasRoom};
ghost use Rattle.actor_names.specs.MailNames.{IsMailName};
ghost use Rattle.mail_world.specs.World.{Leads, Happened, GoesOn, was_started, EndsAt, started_world, moment_world, IsStep, IsStop, GoesByPlan, IsHalt, GoesOnWith, IsAsBefore};
ghost use Rattle.mail_world.specs.Acting.{IsNoLiving};
ghost use Rattle.mail_world.specs.Children.{IsDueOfChild, IsSetting, IsStart, IsGive, IsTake, Serves};
ghost use Rattle.world_events.specs.declared.event.Program.{Program as Started};
ghost use Rattle.mail_world.specs.Places.{place_of};
ghost use Rattle.mail_world.specs.Books.{entries_of, books_of, books_in};

use crate::actor::{Actor, cut_off_all, status_of};
use crate::any_machine::AnyMachine;
use crate::children::{give_input, leave, machine_of, pay_with_room, ready_to_feed, take_in};
use crate::generation::{first_alive, members};
use crate::laws::books_are_the_models;
use crate::{ActorName, Books, Did, Event, History, WorldError};
use actor_names::{Member, is_mail_name};
use call_fs::{CallFs, CrashFs, GotData, NeedData, Port, Survival, Taken};
use fed_injector::FedInjector;
use mail_bytes::{ByteText, Memory, OnHeap};
use received_line::Invoked;
use std::alloc::Global;
use std::marker::Model;
use world_events::{
    MAIL_USER, Places, Setting, Starts, child_at, child_event, child_of, counts_with, mail_program,
    next_living, note, own_at, place_among, room_for_one, spawner_lives, started_by,
};
use world_pipes::{
    Mouths, add_pipes, due_slot, first_unreported, is_unreported, pipes_for, pipes_of, put_report,
    ready_at, renew,
};

/// The process number of the first actor.
const FIRST_PID: u32 = 77;

/// A disk, the actors that use it, the books on their injections, and the history of what they did. The history has room
/// for the stop of each living actor.
#[derive(Drop)]
pub struct World<D: CallFs> {
    disk: D,
    // the members of the generation first, in their order, if one was started; then the injectors and the local deliveries
    actors: Vec<Actor>,
    // how many members there are: none or four
    crew: usize,
    // where each other actor stands among the others
    places: Places,
    // how many of them are injectors of bounces
    bounces: u64,
    // and how many local deliveries
    deliveries: u64,
    // what each member takes from, while one of them may live, and then each delivery
    mouths: Vec<Mouths>,
    books: Books,
    history: History,
    present: u64,
    next_pid: u32,
    // who started, in order
    starts: Starts,
}

impl<D: CallFs> Model for World<D> {
    ghost use Rattle.mail_world.specs.World.{Seen};

    ghost Value = { Seen D };

    ghost use Rattle.mail_world.specs.Whole.{IsWhole};
    ghost use Rattle.mail_world.specs.Places.{place_of};
    ghost use Rattle.mail_world.specs.World.{counted};

    ghost view = { λ w. record { disk = w.disk; events = w.history.events.items; present = w.present } };

    ghost invariant = { λ w. IsWhole (D.disk w.disk) w.crew (place_of w.places) w.actors.items w.history w.present w.next_pid
        (counted w.bounces w.deliveries) w.mouths.items w.books w.starts };
}

impl<D: CallFs> World<D> {
    /// A world over this disk, at moment 0, in which nothing has happened. It always succeeds. If the disk tells and
    /// is an initial one, the world's history begins with it.
    pub fn new(alloc: Global, disk: D) -> Result<World<D>, Memory>
        ensures ok { IsOk result }
        ensures world { IfOk result (λ world. world ≡ record { disk = disk; events = []; present = 0 }) }
        ensures begun { IfOk result (λ world. OnTold (D.disk disk) (λ opening. Opening opening → Happened D.disk opening world [])) }
    {
        Ok(World {
            disk,
            actors: Vec::new(alloc),
            crew: 0,
            places: Places::new(alloc),
            bounces: 0,
            deliveries: 0,
            mouths: Vec::new(alloc),
            books: Books::new(alloc),
            history: History::new(alloc),
            present: 0,
            next_pid: FIRST_PID,
            starts: Starts::new(alloc),
        })
    }

    /// The disk.
    pub fn disk(&self) -> &D
        ensures { result.now ≡ self.now.disk }
    {
        &self.disk
    }

    /// The events so far, the oldest first. In each world whose disk tells, they led to it from some disk, and each one
    /// was allowed when it happened; if that disk was an initial one, their history is legal.
    pub fn history(&self) -> &History
        ensures events { events_of result.now ≡ self.now.events }
        ensures happened { OnTold (D.disk self.now.disk) (λ now. (opening : Disk) × (h : List Happening)
            × Leads opening now self.now.events self.now.present h
            × (Opening opening → Legal opening h)) }
    {
        &self.history
    }

    /// The books: what became of each injection, by its events so far. They say what each legal history says that
    /// `Happened` since an initial disk.
    pub fn books(&self) -> &Books
        ensures events { entries_of result.now ≡ books_of (with_inputs (reverse self.now.events)) }
        ensures models { (opening : Disk) (h : List Happening) → Happened D.disk opening self.now h → entries_of result.now ≡ books_in opening h }
    {
        books_are_the_models();
        &self.books
    }

    /// Starts an injector of this message and envelope for user 1000, at the present moment. `Taken` exactly if the
    /// name was used, or is none that a mail may have. The room for its stop is taken too.
    pub fn start_mail(
        &mut self,
        alloc: Global,
        name: &ActorName,
        message: &[u8],
        envelope: &[u8],
    ) -> Result<(), WorldError>
        ensures started { OnOk result (self.new ≡ started_world self.old name.now message.now envelope.now) }
        ensures goes_on { OnOk result (GoesOn D.disk self.old self.new) }
        ensures named { OnOk result (IsMailName name.now) }

        ensures taken { (result ≡ Err WorldError.Taken) ↔ ((was_started self.old.events name.now ≡ true) ⊎ (¬ (IsMailName name.now))) }
        ensures others { IfErr result (λ why. (why ≡ WorldError.Taken) ⊎ (why ≡ WorldError.Memory)) }
        ensures err { OnErr result (self.new ≡ self.old) }
    {
        if !self.is_free(name) {
            return Err(WorldError::Taken);
        }
        Ok(self.begin(alloc, name, message, envelope)?)
    }

    /// Whether a mail may start under this name.
    fn is_free(&self, name: &ActorName) -> bool
        ensures { IsTrue result ↔ (IsMailName name.now × (was_started self.now.events name.now ≡ false)) }
    {
        is_mail_name(name.as_slice()) && self.places.find(name.as_slice()).is_none()
    }

    /// Starts an injector. The conditions: a mail may have that name, and no actor of that name was started.
    fn begin(
        &mut self,
        alloc: Global,
        name: &ActorName,
        message: &[u8],
        envelope: &[u8],
    ) -> Result<(), Memory>
        requires named { IsMailName name.now }
        requires new { was_started self.old.events name.now ≡ false }
        ensures started { OnOk result (self.new ≡ started_world self.old name.now message.now envelope.now) }
        ensures goes_on { OnOk result (GoesOn D.disk self.old self.new) }
        ensures err { OnErr result (self.new ≡ self.old) }
    {
        let (pid, start) = (self.next_pid, self.present);
        // for its start, and for the stop of each actor, of this one too
        self.history.reserve(self.actors.len() + 2)?;
        self.actors.reserve(1)?;
        self.books.make_room()?;
        self.starts.make_room(1)?;
        let program = mail_program(alloc, pid, start, message, envelope)?;
        let invoked = Invoked::Uid(MAIL_USER);
        let injector = FedInjector::given(
            alloc, MAIL_USER, pid, invoked, start, message, envelope,
        )?;
        let injector = OnHeap::new(alloc, injector)?;
        self.places
            .add(alloc, name.as_slice(), self.actors.len() - self.crew)?;
        let entry = self.books.enter(name, program.get());
        let machine = AnyMachine::Mail(injector);
        let actor = Actor::new(alloc, name.copy(), machine, None, None, entry);
        self.actors.push(actor).unwrap();
        self.starts.add_other(self.actors.len() - self.crew - 1);
        self.history.put(Event::Start {
            actor: name.copy(),
            program,
        });
        self.next_pid = self.next_pid.saturating_add(1);
        Ok(())
    }

    /// Starts a generation at the present moment, its members in their order. `Alive`
    /// exactly if a member of the one before lives, with the first in this order. The room for their stops is taken too.
    pub fn start_generation(&mut self, alloc: Global) -> Result<(), WorldError>
        ensures started { OnOk result (self.new ≡ generation_world self.old) }
        ensures goes_on { OnOk result (GoesOn D.disk self.old self.new) }
        ensures alive { (name : List ℕ) → (result ≡ Err (WorldError.Alive name)) ↔ IsFirstAlive self.old.events name }
        ensures others { IfErr result (λ why. ((name : List ℕ) × (why ≡ WorldError.Alive name)) ⊎ (why ≡ WorldError.Memory)) }
        ensures err { OnErr result (self.new ≡ self.old) }
    {
        if let Some(name) = first_alive(&self.actors[..self.crew]) {
            return Err(WorldError::Alive(name));
        }
        Ok(self.begin_generation(alloc)?)
    }

    /// Starts a generation. The condition: no member of the one before lives.
    fn begin_generation(&mut self, alloc: Global) -> Result<(), Memory>
        requires { IsNoneAlive self.old.events }
        ensures started { OnOk result (self.new ≡ generation_world self.old) }
        ensures goes_on { OnOk result (GoesOn D.disk self.old self.new) }
        ensures err { OnErr result (self.new ≡ self.old) }
    {
        let mut actors = members(alloc)?;
        let fresh = pipes_for(alloc, &self.mouths)?;
        actors.reserve(self.actors.len())?;
        // for its event, and for the stop of each actor, of these too
        self.history
            .reserve(self.actors.len() + (Member::COUNT + 1))?;
        self.starts.make_room(Member::COUNT)?;
        let mut mails = self.actors.split_off(self.crew)?;
        actors.append(&mut mails).unwrap();
        self.actors = actors;
        self.crew = Member::COUNT;
        renew(&mut self.mouths, fresh);
        let event = Event::Generation {
            start: self.present,
        };
        self.next_pid = self.next_pid.saturating_add(started_by(&event));
        self.history.put(event);
        self.starts.add_members();
        Ok(())
    }

    /// One step of an actor: what is due by its machine at the present moment, with all that it finds ready. It is a file call, a
    /// taking of all that lies in a pipe, a giving, the start of a program, the taking of its status, a command of a user, which exits
    /// as its text says, or its end, in which its descriptors are closed and what it gives to is shut. `Unknown` exactly if no actor
    /// of this name was started, `Gone` exactly if it has ended or was stopped, `NotWaiting` exactly if nothing of what is due can be
    /// done yet; but out of memory comes first. An event that the actor owes is handed to its machine before, and stays handed in.
    pub fn step(&mut self, alloc: Global, actor: &ActorName) -> Result<Did, WorldError>
        ensures event { IfOk result (λ did. IsStep actor.now did.ended self.old self.new) }
        ensures present { self.new.present ≡ self.old.present }
        ensures at { IfOk result (λ did. did.at ≡ length self.old.events) }
        ensures idle { IfOk result (λ did. (event : Kept) → self.new.events ≡ self.old.events ++ event ∷ []
            → did.idle ≡ has_idled (known self.old.events) event) }
        ensures goes_on { OnOk result (GoesOn D.disk self.old self.new) }
        ensures plan { OnOk result (GoesByPlan D.plan D.disk self.old.disk self.new.disk self.old.events self.new.events) }

        ensures unknown { (result ≡ Err WorldError.Unknown) ↔ (was_started self.old.events actor.now ≡ false) }
        ensures gone { (name : List ℕ) (at : ℕ) → (result ≡ Err (WorldError.Gone name at))
            ↔ ((name ≡ actor.now) × EndsAt self.old.events actor.now at) }
        ensures waits { (name : List ℕ) → result ≡ Err (WorldError.NotWaiting name)
            → (name ≡ actor.now) × Waits (known self.old.events) self.old.present actor.now }
        ensures waiting { Waits (known self.old.events) self.old.present actor.now
            → (result ≡ Err (WorldError.NotWaiting actor.now)) ⊎ (result ≡ Err WorldError.Memory) }
        ensures taken { result ≢ Err WorldError.Taken }
        ensures alive { (name : List ℕ) → result ≢ Err (WorldError.Alive name) }
        ensures past { (now : ℕ) → result ≢ Err (WorldError.Past now) }
        ensures err { OnErr result (self.new ≡ self.old) }
    {
        let place = living(&self.places, self.crew, &self.actors, actor)?;
        // for this event, and for the stop of each actor
        self.history.reserve(self.actors.len() + 1)?;
        let acting = &mut self.actors[place];
        let entry = acting.entry;
        let child = child_at(&self.mouths, acting.wire, 0, &self.places, self.crew);
        acting.pay(alloc, &self.history)?;
        let at = Setting {
            now: self.present,
            ready: ready_at(&self.mouths, acting.wire, acting.machine.awaits()),
            pid: self.next_pid,
            place,
        };
        if let Some(mut due) = acting.asks(alloc, &self.mouths, at)? {
            let did = self.serve(alloc, actor, at, &mut due);
            drop(due);
            return did;
        }
        let did = acting.act(
            alloc,
            &mut self.disk,
            &mut self.history,
            &mut self.mouths,
            at,
        )?;
        let Some(did) = did else {
            return Err(WorldError::NotWaiting(actor.copy()));
        };
        let newest = self.history.newest();
        self.next_pid = self.next_pid.saturating_add(started_by(newest));
        note(&mut self.books, entry, newest);
        leave(&mut self.actors, did.ended.is_some(), child);
        Ok(did)
    }

    /// What of a child of its is due to this actor, whose step goes by this. It may be taken. The conditions: this is due, and a step of
    /// the actor goes by that.
    fn serve(
        &mut self,
        alloc: Global,
        actor: &ActorName,
        at: Setting,
        due: &mut NeedData,
    ) -> Result<Did, WorldError>
        requires due { IsDueOfChild self.old actor.now due.old }
        requires at { IsSetting self.old actor.now at }
        ensures served { IfOk result (λ did. Serves D.disk actor.now self.old self.new did) }
        ensures waits { (name : List ℕ) → result ≡ Err (WorldError.NotWaiting name)
            → (name ≡ actor.now) × Waits (known self.old.events) self.old.present actor.now }
        ensures others { IfErr result (λ why. (why ≡ WorldError.Memory) ⊎ (why ≡ WorldError.NotWaiting actor.now)) }
        ensures err { OnErr result (self.new ≡ self.old) }
    {
        match &*due {
            NeedData::Start(_) => Ok(self.start_child(alloc, actor, at, due)?),
            NeedData::Give(..) if actor.is(Member::LocalSpawner.name()) => {
                Ok(self.fill(alloc, actor, at, due)?)
            }
            NeedData::Give(..) => Ok(self.feed(alloc, actor, at, due)?),
            _ => match self.take_status(alloc, actor, at, due)? {
                Some(did) => Ok(did),
                None => Err(WorldError::NotWaiting(actor.copy())),
            },
        }
    }

    /// This actor starts a child: an injector, which awaits its input then, or a local delivery. The condition: this is due.
    fn start_child(
        &mut self,
        alloc: Global,
        actor: &ActorName,
        at: Setting,
        due: &mut NeedData,
    ) -> Result<Did, Memory>
        requires due { IsDueOfChild self.old actor.now due.old }
        requires at { IsSetting self.old actor.now at }
        requires start { IsStart due.old }
        ensures served { IfOk result (λ did. Serves D.disk actor.now self.old self.new did) }
        ensures err { OnErr result (self.new ≡ self.old) }
    {
        let place = self.actors.len() - self.crew;
        let NeedData::Start(asked) = &*due else {
            unreachable!()
        };
        let asked = asked.get();
        let counts = counts_with(self.bounces, self.deliveries, asked);
        let born = child_of(alloc, actor, asked, counts, at.pid, at.now)?;
        let machine = machine_of(alloc, asked, at)?;
        let own_pipes = pipes_of(alloc, asked)?;
        let number = due_slot(due);
        let own = own_at(at, due, GotData::Started { pid: at.pid });
        let own = OnHeap::new(alloc, own)?;
        room_for_one(
            &mut self.actors,
            &mut self.mouths,
            &mut self.books,
            &mut self.starts,
        )?;
        // for this event, and for the stop of each actor, of this one too
        let events = self.actors.len() + 2;
        let parent = &mut self.actors[at.place];
        let wire = parent.wire.unwrap();
        pay_with_room(alloc, &mut self.history, parent, events)?;
        self.places.add(alloc, born.name.as_slice(), place)?;
        let did = take_in(alloc, parent, own.get(), at, self.history.len());
        self.mouths[wire].start_actor(number, born.name.copy());
        let pipes = add_pipes(&mut self.mouths, own_pipes);
        let entry = self.books.enter(&born.name, born.program.get());
        let slot = Some((wire, number));
        let child = Actor::new(alloc, born.name.copy(), machine, pipes, slot, entry);
        self.actors.push(child).unwrap();
        self.starts.add_other(place);
        self.history.put(child_event(actor, own, born));
        self.next_pid = self.next_pid.saturating_add(1);
        (self.bounces, self.deliveries) = counts;
        Ok(did)
    }

    /// The local spawner gives a delivery its whole input, which lies in its pipe then; if that is over, nobody takes it. The conditions: it
    /// is the local spawner, this is due, and there is a child.
    fn fill(
        &mut self,
        alloc: Global,
        actor: &ActorName,
        at: Setting,
        due: &mut NeedData,
    ) -> Result<Did, Memory>
        requires due { IsDueOfChild self.old actor.now due.old }
        requires at { IsSetting self.old actor.now at }
        requires give { IsGive due.old }
        requires spawner { actor.now ≡ codes "lspawn" }
        ensures served { IfOk result (λ did. Serves D.disk actor.now self.old self.new did) }
        ensures err { OnErr result (self.new ≡ self.old) }
    {
        // for this event, and for the stop of each actor
        let room = self.actors.len() + 1;
        let wire = self.actors[at.place].wire;
        let child = child_at(&self.mouths, wire, due_slot(due), &self.places, self.crew).unwrap();
        let to = self.actors[child].wire.unwrap();
        let NeedData::Give(_, bytes) = &*due else {
            unreachable!()
        };
        self.mouths[to].make_room(Port::Input, bytes.as_slice().len())?;
        let parent = &mut self.actors[at.place];
        pay_with_room(alloc, &mut self.history, parent, room)?;
        self.mouths[to].give_all(bytes.as_slice());
        let own = own_at(at, due, GotData::Gave);
        let did = take_in(alloc, parent, &own, at, self.history.len());
        self.history.put(Event::Act {
            actor: actor.copy(),
            own,
        });
        Ok(did)
    }

    /// This actor gives its injector its whole input; if that was stopped, it goes nowhere. The conditions: it isn't the local spawner,
    /// this is due, and there is a child.
    fn feed(
        &mut self,
        alloc: Global,
        actor: &ActorName,
        at: Setting,
        due: &mut NeedData,
    ) -> Result<Did, Memory>
        requires due { IsDueOfChild self.old actor.now due.old }
        requires at { IsSetting self.old actor.now at }
        requires give { IsGive due.old }
        requires other { actor.now ≢ codes "lspawn" }
        ensures served { IfOk result (λ did. Serves D.disk actor.now self.old self.new did) }
        ensures err { OnErr result (self.new ≡ self.old) }
    {
        // for this event, and for the stop of each actor
        let room = self.actors.len() + 1;
        let slot = due_slot(due);
        let own = own_at(at, due, GotData::Gave);
        let own = OnHeap::new(alloc, own)?;
        let parent = &mut self.actors[at.place];
        let wire = parent.wire;
        let child = child_at(&self.mouths, wire, slot, &self.places, self.crew).unwrap();
        let (message, envelope, kept_message, kept_envelope) = ready_to_feed(
            alloc,
            &mut self.history,
            parent,
            room,
            &own.get().due,
        )?;
        let did = take_in(alloc, parent, own.get(), at, self.history.len());
        let fed = &mut self.actors[child];
        let entry = fed.entry.unwrap();
        self.books.feed(entry, envelope.as_slice());
        let name = fed.name.copy();
        give_input(fed, message, envelope);
        self.history.put(Event::Feed {
            actor: actor.copy(),
            own,
            child: name,
            message: kept_message,
            envelope: kept_envelope,
        });
        Ok(did)
    }

    /// This actor takes the status of its child, if that is over. The conditions: this is due, and there is a child.
    fn take_status(
        &mut self,
        alloc: Global,
        actor: &ActorName,
        at: Setting,
        due: &mut NeedData,
    ) -> Result<Option<Did>, Memory>
        requires due { IsDueOfChild self.old actor.now due.old }
        requires at { IsSetting self.old actor.now at }
        requires take { IsTake due.old }
        ensures served { IfOk result (λ did. IfSome did (λ did. Serves D.disk actor.now self.old self.new did)) }
        ensures waits { IfOk result (λ did. IsNone did → Waits (known self.old.events) self.old.present actor.now × (self.new ≡ self.old)) }
        ensures err { OnErr result (self.new ≡ self.old) }
    {
        // for this event, and for the stop of each actor
        let room = self.actors.len() + 1;
        let slot = due_slot(due);
        let wire = self.actors[at.place].wire.unwrap();
        let child = child_at(&self.mouths, Some(wire), slot, &self.places, self.crew).unwrap();
        let Some(came) = status_of(&self.actors[child]) else {
            return Ok(None);
        };
        let parent = &mut self.actors[at.place];
        pay_with_room(alloc, &mut self.history, parent, room)?;
        let own = own_at(at, due, came);
        let did = take_in(alloc, parent, &own, at, self.history.len());
        self.mouths[wire].free(slot);
        self.history.put(Event::Act {
            actor: actor.copy(),
            own,
        });
        Ok(Some(did))
    }

    /// The remote program in a slot ends with 0, and with this output: `r`, NUL, the letter, the text, NUL. `NotWaiting`, with rspawn,
    /// exactly if no remote spawner lives that has a program in this slot of which no report came.
    pub fn report(
        &mut self,
        alloc: Global,
        slot: u8,
        letter: u8,
        text: &[u8],
    ) -> Result<(), WorldError>
        ensures reported { OnOk result (self.new ≡ reported_world self.old slot letter text.now) }
        ensures goes_on { OnOk result (GoesOn D.disk self.old self.new) }
        ensures waits { (name : List ℕ) → (result ≡ Err (WorldError.NotWaiting name))
            ↔ ((name ≡ codes "rspawn") × (¬ (MayReport (known self.old.events) slot))) }
        ensures others { IfErr result (λ why. ((name : List ℕ) × (why ≡ WorldError.NotWaiting name)) ⊎ (why ≡ WorldError.Memory)) }
        ensures err { OnErr result (self.new ≡ self.old) }
    {
        let lives = spawner_lives(&self.actors[..self.crew]);
        if !is_unreported(lives, &self.mouths, slot) {
            return Err(WorldError::NotWaiting(Member::RemoteSpawner.actor_name()));
        }
        Ok(self.end_program(alloc, slot, letter, text)?)
    }

    /// The remote program in a slot ends. The condition: it has no report yet, and the remote spawner lives.
    fn end_program(
        &mut self,
        alloc: Global,
        slot: u8,
        letter: u8,
        text: &[u8],
    ) -> Result<(), Memory>
        requires { MayReport (known self.old.events) slot }
        ensures reported { OnOk result (self.new ≡ reported_world self.old slot letter text.now) }
        ensures goes_on { OnOk result (GoesOn D.disk self.old self.new) }
        ensures err { OnErr result (self.new ≡ self.old) }
    {
        let kept = ByteText::from_slice(alloc, text)?;
        // for this event, and for the stop of each actor
        self.history.reserve(self.actors.len() + 1)?;
        let spawner = Member::RemoteSpawner.seat();
        put_report(alloc, &mut self.mouths[spawner], slot, letter, text)?;
        self.history.put(Event::Report {
            slot,
            letter,
            text: kept,
        });
        Ok(())
    }

    /// Of the living actors whose newest start is at this place in the order of starts, or later, the first, and its place there.
    pub fn next_living(&self, from: u64) -> Option<(&ActorName, u64)>
        ensures { option_map (λ next. (next.0.now, next.1)) result ≡ next_living from self.now.events }
    {
        let (actor, at) = next_living(&self.starts, &self.actors, self.crew, from)?;
        Some((&actor.name, at))
    }

    /// The lowest slot from this one on of the living remote spawner whose program has no report.
    pub fn unreported(&self, from: u8) -> Option<u8>
        ensures { result ≡ lowest_unreported from (known self.now.events) }
    {
        let lives = spawner_lives(&self.actors[..self.crew]);
        first_unreported(lives, &self.mouths, from)
    }

    /// Stops an actor from outside: its descriptors are closed, what it gives to is shut, and it makes no step any more. An event that
    /// it owes is dropped. It takes no memory: the room for its event was taken when the actor was started. `Unknown` exactly if no
    /// actor of this name was started, `Gone` exactly if it has ended or was stopped.
    pub fn stop(&mut self, actor: &ActorName) -> Result<(), WorldError>
        ensures event { OnOk result (IsStop actor.now self.old self.new) }
        ensures goes_on { OnOk result (GoesOn D.disk self.old self.new) }
        ensures plan { OnOk result (GoesByPlan D.plan D.disk self.old.disk self.new.disk self.old.events self.new.events) }

        ensures unknown { (result ≡ Err WorldError.Unknown) ↔ (was_started self.old.events actor.now ≡ false) }
        ensures gone { (name : List ℕ) (at : ℕ) → (result ≡ Err (WorldError.Gone name at))
            ↔ ((name ≡ actor.now) × EndsAt self.old.events actor.now at) }
        ensures others { IfErr result (λ why. (why ≡ WorldError.Unknown) ⊎ ((name : List ℕ) × (at : ℕ) × (why ≡ WorldError.Gone name at))) }
        ensures err { OnErr result (self.new ≡ self.old) }
    {
        let place = living(&self.places, self.crew, &self.actors, actor)?;
        let stopped = &mut self.actors[place];
        let entry = stopped.entry;
        let child = child_at(&self.mouths, stopped.wire, 0, &self.places, self.crew);
        stopped.stop(&mut self.disk, &mut self.history, &mut self.mouths);
        note(&mut self.books, entry, self.history.newest());
        leave(&mut self.actors, true, child);
        Ok(())
    }

    /// A moment comes, and is the present one from then on. `Past` exactly if it lies before the present one, which
    /// it tells.
    pub fn moment(&mut self, moment: u64) -> Result<(), WorldError>
        requires { IsMoment moment }
        ensures came { OnOk result (self.new ≡ moment_world self.old moment) }
        ensures goes_on { OnOk result (GoesOn D.disk self.old self.new) }
        ensures plan { OnOk result (GoesByPlan D.plan D.disk self.old.disk self.new.disk self.old.events self.new.events) }

        ensures past { (now : ℕ) → (result ≡ Err (WorldError.Past now)) ↔ ((now ≡ self.old.present) × (moment < self.old.present)) }
        ensures others { IfErr result (λ why. (why ≡ WorldError.Past self.old.present) ⊎ (why ≡ WorldError.Memory)) }
        ensures err { OnErr result (self.new ≡ self.old) }
    {
        if moment < self.present {
            return Err(WorldError::Past(self.present));
        }
        // for this event, and for the stop of each actor
        self.history.reserve(self.actors.len() + 1)?;
        self.history.put(Event::Moment { moment });
        self.present = moment;
        Ok(())
    }
}

impl<D: CrashFs> World<D> {
    /// The machine stops and starts again: every living actor is stopped with it, no descriptor is open any more, and of
    /// the files survives what this choice names. The present moment stays, and so do the call and the number that were
    /// chosen and haven't come. After `Memory` the world is as before.
    pub fn halt(&mut self, alloc: Global, how: Survival) -> Result<(), Memory>
        ensures event { OnOk result (IsHalt how self.old self.new) }
        ensures left { OnOk result (Meets (D.disk self.old.disk) (D.disk self.new.disk) (λ before after. Halts how before after)) }
        ensures goes_on { OnOk result (GoesOnWith D.disk how self.old self.new) }
        ensures over { OnOk result ((actor : List ℕ) → was_started self.old.events actor ≡ true → (at : ℕ) × EndsAt self.new.events actor at) }
        ensures plan { OnOk result (GoesByPlan D.plan D.disk self.old.disk self.new.disk self.old.events self.new.events) }
        ensures err { OnErr result (IsAsBefore D.disk D.plan self.old self.new) }
        ensures same { OnErr result (self.new ≡ self.old) }
    {
        // for this event; none that lives is left to be stopped
        self.history.reserve(self.actors.len() + 1)?;
        self.disk.halt(alloc, how)?;
        let at = self.history.len() as u64;
        self.history.put(Event::Halt { how });
        cut_off_all(&mut self.actors, at);
        self.mouths.clear();
        self.books.cut_off();
        Ok(())
    }

    /// The k-th call from now fails, `close` not counted, in place of one that was chosen and hasn't come. It is no
    /// event. The condition: k is from 1.
    pub fn fault_in(&mut self, k: u64)
        requires { 1 ≤ k }
        ensures plan { Meets (D.plan self.old.disk) (D.plan self.new.disk) (λ before after. after ≡ with_fault k before) }
        ensures disk { D.disk self.new.disk ≡ D.disk self.old.disk }
        ensures events { self.new.events ≡ self.old.events }
        ensures present { self.new.present ≡ self.old.present }
    {
        self.disk.fault_in(k);
    }

    /// The next new file takes this number, in place of one that was chosen and hasn't come. It is no event. `Taken`
    /// exactly if a name or an open descriptor uses the number; then nothing is chosen anew. The condition: the number
    /// is from 1.
    pub fn pick(&mut self, number: u64) -> Result<(), Taken>
        requires { 1 ≤ number }
        ensures ok { OnOk result (Meets (D.plan self.old.disk) (D.plan self.new.disk) (λ before after. after ≡ with_pick number before)) }
        ensures unused { OnTold (D.disk self.old.disk) (λ before. IsOk result ↔ IsUnused before number) }
        ensures err { OnErr result (IsAsBefore D.disk D.plan self.old self.new) }
        ensures same { OnErr result (self.new ≡ self.old) }
        ensures disk { D.disk self.new.disk ≡ D.disk self.old.disk }
        ensures events { self.new.events ≡ self.old.events }
        ensures present { self.new.present ≡ self.old.present }
    {
        self.disk.pick(number)
    }
}

/// The place of the living actor of this name. The condition: each place is one of the actors'.
fn living(
    places: &Places,
    crew: usize,
    actors: &[Actor],
    name: &ActorName,
) -> Result<usize, WorldError>
    requires { (i : ℕ) → among_all crew (place_of places.now) name.now ≡ Some i → i < length actors.now }
    ensures ok { IfOk result (λ i. (among_all crew (place_of places.now) name.now ≡ Some i)
        × IsSomeAnd (slice_get actors.now i) (λ x. x.ended ≡ None)) }
    ensures err { IfErr result (λ why. IsNoLiving (among_all crew (place_of places.now)) actors.now name.now why) }
{
    let Some(place) = place_among(places, crew, name) else {
        return Err(WorldError::Unknown);
    };
    match actors[place].ended {
        Some(at) => Err(WorldError::Gone(name.copy(), at)),
        None => Ok(place),
    }
}
