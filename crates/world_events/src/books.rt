// What became of each injection.
ghost use Rattle.std.specs.Prelude.{◌≡◌, ◌++◌, ◌∷◌, ◌<◌, [], List, ℕ, Some, None, OnOk, length, map, set, bytes_eq, option_map};
ghost use Rattle.std.specs.List.{slice_get};
ghost use Rattle.call_fs.specs.declared.past.NeedData.TheVariants.{File};
ghost use Rattle.queue_inject.specs.Texts.{recipients_of};
ghost use Rattle.queue_inject.specs.declared.injection.Arguments.{Arguments as Given};
ghost use Rattle.world_events.specs.Children.{entry_after};
ghost use Rattle.world_events.specs.Programs.{injection_of};
ghost use Rattle.world_events.specs.Books.{entries_of, HasPlace, new_entry, entry_by, fed_entry, queues, queues_by, mess_number, linked_number, number_by, acted_on, left_as, cut_off, noted};
ghost use Rattle.queue_paths.specs.Names.{name_of};

use crate::{Event, Program};
use actor_names::ActorName;
use call_fs::{Answer, CallData, GotData, NeedData, Own};
use envelope_records::{EnvStep, EnvelopeReader};
use mail_bytes::Memory;
use queue_inject::Arguments;
use queue_limits::MOST_BYTES;
use queue_paths::{Name, parse};
use std::alloc::Global;

/// Whether an injector lives.
#[derive(Clone, Copy)]
pub enum Life {
    /// It does.
    Alive,
    /// It has ended with this exit status.
    Ended(u8),
    /// It was stopped, from outside or with the machine.
    Stopped,
}

impl Life {
    /// The life that a machine stop leaves.
    fn cut_off(self) -> Life
        ensures { result ≡ cut_off self }
    {
        match self {
            Life::Alive | Life::Stopped => Life::Stopped,
            Life::Ended(status) => Life::Ended(status),
        }
    }
}

/// What became of one injection.
#[derive(Drop)]
pub struct Entry {
    /// The injector.
    pub actor: ActorName,
    /// Its process number.
    pub pid: u32,
    /// The number of its message, once the name of that is linked.
    pub number: Option<u64>,
    /// How many recipients its envelope has: none if no envelope ends within the limit.
    pub recipients: u64,
    /// Whether its mail was accepted.
    pub accepted: bool,
    /// Whether it lives.
    pub life: Life,
}

impl Entry {
    /// Of an injector that starts with these arguments. Takes no memory.
    fn new(actor: ActorName, arguments: &Arguments) -> Entry
        ensures { result ≡ new_entry actor arguments.now }
    {
        Entry {
            actor,
            pid: arguments.pid,
            number: None,
            recipients: recipients(arguments.envelope.as_slice()),
            accepted: false,
            life: Life::Alive,
        }
    }

    /// Whether it is this actor's.
    fn is_of(&self, actor: &ActorName) -> bool
        ensures { result ≡ bytes_eq actor.now self.now.actor }
    {
        actor.as_slice() == self.actor.as_slice()
    }

    /// Takes one event more into account.
    fn note(&mut self, event: &Event)
        ensures { self.new ≡ noted event.now self.old }
    {
        match event {
            Event::Act { actor, own } => {
                if self.is_of(actor) {
                    self.act(own);
                }
            }
            Event::End { actor, status, .. } => {
                if self.is_of(actor) {
                    self.life = Life::Ended(*status);
                }
            }
            Event::Stop { actor } => {
                if self.is_of(actor) {
                    self.life = Life::Stopped;
                }
            }
            Event::Halt { .. } => self.cut_off(),
            Event::Start { .. } | Event::Generation { .. } => {}
            Event::Child { .. } | Event::Feed { .. } => {}
            Event::Report { .. } | Event::Moment { .. } => {}
        }
    }

    /// Takes an event of its own actor into account.
    fn act(&mut self, own: &Own)
        ensures { self.new ≡ acted_on own.now.due own.now.came self.old }
    {
        if let Some(number) = number_by(own) {
            self.number = Some(number);
        }
        if queues_by(own) {
            self.accepted = true;
        }
    }

    /// The machine stopped.
    fn cut_off(&mut self)
        ensures { self.new ≡ left_as (cut_off self.old.life) self.old }
    {
        self.life = self.life.cut_off();
    }
}

/// The books of a world: an entry for each injection, the oldest first. Each injector keeps the place of its own.
#[derive(Drop)]
pub struct Books {
    entries: Vec<Entry>,
}

impl Books {
    /// Without an entry. Takes no memory.
    pub fn new(alloc: Global) -> Books
        ensures { entries_of result ≡ [] }
    {
        Books {
            entries: Vec::new(alloc),
        }
    }

    /// The entries, the oldest injection first.
    pub fn entries(&self) -> &[Entry]
        ensures { result.now ≡ entries_of self.now }
    {
        self.entries.as_slice()
    }

    /// Makes room for one entry more. The error: out of memory.
    pub fn make_room(&mut self) -> Result<(), Memory>
        ensures same { entries_of self.new ≡ entries_of self.old }
        ensures room { OnOk result (HasPlace self.new) }
    {
        self.entries.reserve(1)
    }

    /// Adds the entry of an injector that starts with these arguments. Takes no memory. The condition: there is room.
    pub fn add(&mut self, actor: &ActorName, arguments: &Arguments)
        requires { HasPlace self.old }
        ensures { entries_of self.new ≡ entries_of self.old ++ new_entry actor.now arguments.now ∷ [] }
    {
        let entry = Entry::new(actor.copy(), arguments);
        self.entries.push(entry).unwrap();
    }

    /// Adds the entry of an actor that starts with this program, if that is an injector, and tells its place. Takes no memory. The
    /// condition: there is room.
    pub fn enter(&mut self, actor: &ActorName, program: &Program) -> Option<usize>
        requires { HasPlace self.old }
        ensures place { result ≡ entry_after (length (entries_of self.old)) program.now }
        ensures entered { entries_of self.new ≡ entries_of self.old ++ entry_by actor.now (injection_of program.now) }
    {
        let arguments = program.injection()?;
        let entry = self.entries.len();
        self.add(actor, arguments);
        Some(entry)
    }

    /// The injector that has this place is given its input, with this envelope. Takes no memory. The condition: one has.
    pub fn feed(&mut self, place: usize, envelope: &[u8])
        requires { place < length (entries_of self.old) }
        ensures { (e : Entry) (args : Given) → slice_get (entries_of self.old) place ≡ Some e → args.envelope ≡ envelope.now
            → entries_of self.new ≡ set (entries_of self.old) place (fed_entry args e) }
    {
        self.entries[place].recipients = recipients(envelope);
    }

    /// Takes one event more into account, of the actor that has this place. Takes no memory. The condition: an actor has.
    pub fn note(&mut self, place: usize, event: &Event)
        requires { place < length (entries_of self.old) }
        ensures { (e : Entry) → slice_get (entries_of self.old) place ≡ Some e
            → entries_of self.new ≡ set (entries_of self.old) place (noted event.now e) }
    {
        self.entries[place].note(event);
    }

    /// The machine stopped. Takes no memory.
    pub fn cut_off(&mut self)
        ensures { entries_of self.new ≡ map (λ e. left_as (cut_off e.life) e) (entries_of self.old) }
    {
        cut_off_all(&mut self.entries);
    }
}

/// The machine stopped: all injectors are over.
fn cut_off_all(entries: &mut [Entry])
    ensures { entries.new ≡ map (λ e. left_as (cut_off e.life) e) entries.old }
{
    for entry in entries.iter_mut() {
        entry.cut_off();
    }
}

/// How many recipients a mail with this envelope has: none if no envelope ends within the limit.
fn recipients(envelope: &[u8]) -> u64
    ensures { (args : Given) → args.envelope ≡ envelope.now → result ≡ length (recipients_of args) }
{
    let read = &envelope[..MOST_BYTES.min(envelope.len())];
    let mut reader = EnvelopeReader::new();
    let mut count: u64 = 0;
    for byte in read {
        match reader.feed(*byte) {
            EnvStep::Recipient => count += 1,
            EnvStep::End => return count,
            EnvStep::More | EnvStep::Sender | EnvStep::Fault(_) => {}
        }
    }
    0
}

/// The number of the message whose name an event linked, if it was the link of a message's name and the link was made.
pub fn number_by(own: &Own) -> Option<u64>
    ensures { result ≡ number_by own.now.due own.now.came }
{
    match &own.due {
        NeedData::File(call) => number_so(call, &own.came),
        NeedData::Take(_) | NeedData::Give(..) | NeedData::Start(_) => None,
        NeedData::Command(_) | NeedData::Wait | NeedData::Ended(_) => None,
    }
}

/// The number of the message whose name a call linked of which this came.
fn number_so(call: &CallData, came: &GotData) -> Option<u64>
    ensures { result ≡ number_by (File call.now) came.now }
{
    match came {
        GotData::Answered(told) => linked_number(call, &told.answer.copy()),
        GotData::Took(_) | GotData::End | GotData::Gave => None,
        GotData::Ended(_) | GotData::Crashed | GotData::Started { .. } => None,
        GotData::Failed | GotData::Memory => None,
    }
}

/// The number of the message whose name a call linked, answered Ok.
fn linked_number(call: &CallData, answer: &Answer) -> Option<u64>
    ensures { result ≡ linked_number call.now answer.now }
{
    match (call, answer) {
        (CallData::Link(_, new), Answer::Done) => mess_number(parse(new.as_slice())),
        _ => None,
    }
}

/// The number of a name, if it is a message's.
fn mess_number(name: Option<Name>) -> Option<u64>
    ensures { result ≡ mess_number (option_map name_of name) }
{
    match name {
        Some(Name::Mess(n)) => Some(n),
        Some(Name::Pid { .. } | Name::Intd(_) | Name::Todo(_) | Name::Info(_)) => None,
        Some(Name::SplitIntd(_) | Name::SplitTodo(_)) => None,
        Some(Name::Local(_) | Name::Remote(_) | Name::Bounce(_)) | None => None,
    }
}

/// Whether an event put its actor's mail into the queue.
fn queues_by(own: &Own) -> bool
    ensures { result ≡ queues_by own.now.due own.now.came }
{
    match &own.due {
        NeedData::File(call) => queues_so(call, &own.came),
        NeedData::Take(_) | NeedData::Give(..) | NeedData::Start(_) => false,
        NeedData::Command(_) | NeedData::Wait | NeedData::Ended(_) => false,
    }
}

/// Whether a call of which this came did.
fn queues_so(call: &CallData, came: &GotData) -> bool
    ensures { result ≡ queues_by (File call.now) came.now }
{
    match came {
        GotData::Answered(told) => queues(call, &told.answer.copy()),
        GotData::Took(_) | GotData::End | GotData::Gave => false,
        GotData::Ended(_) | GotData::Crashed | GotData::Started { .. } => false,
        GotData::Failed | GotData::Memory => false,
    }
}

/// Whether a call put its mail into the queue: a link to a name in todo, of either layout, answered Ok. An injector links only its
/// intd there.
fn queues(call: &CallData, answer: &Answer) -> bool
    ensures { result ≡ queues call.now answer.now }
{
    match (call, answer) {
        (CallData::Link(_, new), Answer::Done) => {
            new.as_slice().starts_with(b"todo/") || new.as_slice().starts_with(b"todox/")
        }
        _ => false,
    }
}

/// The books take the newest event into account, which is that of the actor with this entry, if it has one.
pub fn note(books: &mut Books, entry: Option<usize>, newest: &Event)
    requires { (k : ℕ) → entry ≡ Some k → k < length (entries_of books.old) }
    ensures none { entry ≡ None → books.new ≡ books.old }
    ensures own { (k : ℕ) (e : Entry) → entry ≡ Some k → slice_get (entries_of books.old) k ≡ Some e
        → entries_of books.new ≡ set (entries_of books.old) k (noted newest.now e) }
{
    if let Some(entry) = entry {
        books.note(entry, newest);
    }
}
