// What the events of injectors and senders say of the recipients of mails.
ghost use Rattle.std.specs.Prelude.{◌≡◌, ◌∷◌, [], ℕ, List, OnOk, Option, Some, None, true, bytes_eq, drop, map};
ghost use Rattle.std.specs.Option.{option_copied};
ghost use Rattle.std.specs.List.{list_any};
ghost use Rattle.call_fs.specs.declared.past.NeedData.TheVariants.{Give, Take};
ghost use Rattle.call_fs.specs.declared.past.Own.{Own};
ghost use Rattle.send_core.specs.Stands.{Stands};
ghost use Rattle.send_core.specs.Table.{port_of};
ghost use Rattle.call_fs.specs.declared.program.Port.{Port};
ghost use Rattle.queue_law.specs.Books.{Books, entered_in};
ghost use Rattle.queue_law.specs.Ledgers.Line.{Routes};
ghost use Rattle.queue_law.specs.Entered.{Child as Bouncer};
ghost use Rattle.queue_paths.specs.Names.{is_number};
ghost use Rattle.queue_inject.specs.declared.injection.Arguments.{Arguments};
ghost use Rattle.script_fates.specs.Entering.{HasDue, booked_after, entered_of, heard_by};
ghost use Rattle.script_fates.specs.Fates.{AreFates, no_books, spot_of};
ghost use Rattle.script_fates.specs.Lasting.{lasts, is_channel, is_delivered, is_entered_so, is_spot, routes_by, routes_over};

use crate::routers::Routers;
use actor_names::ActorName;
use address_rules::Controls;
use call_fs::{NeedData, Own, Port};
use mail_bytes::{LAST_MOMENT, Memory};
use send_core::Sender;
use send_jobs::{Channel, Mark, Marks};
use std::alloc::Global;
use std::collections::BTreeMap;
use world_events::{got_of, number_by};

/// Where the record of a recipient is.
#[derive(Clone, Copy)]
pub struct Spot {
    /// Its channel.
    pub channel: Channel,
    /// Where its record begins in the file of that channel, from 0.
    pub place: u64,
}

/// The life of a message: from the link of its name to the next link of a name with its number.
#[derive(Drop)]
pub struct Tenure {
    /// The number of the message.
    pub number: u64,
    /// The mail.
    pub mail: ActorName,
    /// Its recipients of whom senders took reports that they were delivered to.
    pub delivered: Vec<Spot>,
    /// The place of the control files by which its recipients are routed: of what the sender had read that last gave its todo command;
    /// none before that.
    pub routes: Option<usize>,
}

/// The lives of messages by the events so far.
#[derive(Drop)]
pub struct Fates {
    /// Of each number the one that lasts.
    living: BTreeMap<u64, Tenure>,
    /// Those that are over.
    over: Vec<Tenure>,
    /// The control files by which their recipients are routed.
    routers: Routers,
}

impl Fates {
    /// Before any event. Takes no memory.
    pub fn new(alloc: Global) -> Fates
        ensures { AreFates result no_books }
    {
        Fates {
            living: BTreeMap::new(alloc),
            over: Vec::new(alloc),
            routers: Routers::new(alloc),
        }
    }

    /// Whether this mail's message has this number, and its life lasts.
    pub fn lasts(&self, n: u64, mail: &[u8]) -> bool
        ensures { (books : Books) → AreFates self.now books → is_number n ≡ true → result ≡ lasts books mail.now n }
    {
        match self.living.get(&n) {
            Some(tenure) => tenure.is_of(mail),
            None => false,
        }
    }

    /// Whether a report was taken that this recipient of a mail was delivered to, whose message has or had this number.
    pub fn is_delivered(&self, n: u64, mail: &[u8], spot: Spot) -> bool
        ensures { (books : Books) → AreFates self.now books → is_number n ≡ true → result ≡ is_delivered books mail.now (Some n) (spot_of spot) }
    {
        match self.living.get(&n) {
            Some(tenure) if tenure.is_of(mail) => tenure.has(spot),
            _ => self.was_delivered(n, mail, spot),
        }
    }

    /// The same, by the lives that are over.
    fn was_delivered(&self, n: u64, mail: &[u8], spot: Spot) -> bool
        ensures { (books : Books) → AreFates self.now books → is_number n ≡ true
            → result ≡ list_any (is_entered_so (spot_of spot) mail.now n) books.over }
    {
        self.over
            .iter()
            .any(|one| one.number == n && one.is_of(mail) && one.has(spot))
    }

    /// By which control files the recipients of this mail are routed, whose message has or had this number: in its life that lasts, else
    /// in the newest that is over.
    pub fn routes(&self, n: u64, mail: &[u8]) -> Option<&Controls>
        ensures { (books : Books) → AreFates self.now books → is_number n ≡ true → option_copied result ≡ routes_by books mail.now (Some n) }
    {
        match self.living.get(&n) {
            Some(tenure) if tenure.is_of(mail) => self.routers.at(tenure.routes),
            _ => self.past_routes(n, mail),
        }
    }

    /// The same, by the lives that are over.
    fn past_routes(&self, n: u64, mail: &[u8]) -> Option<&Controls>
        ensures { (books : Books) → AreFates self.now books → is_number n ≡ true → option_copied result ≡ routes_over mail.now n books.over }
    {
        let latest = self
            .over
            .iter()
            .rev()
            .find(|one| one.number == n && one.is_of(mail));
        match latest {
            Some(tenure) => self.routers.at(tenure.routes),
            None => None,
        }
    }

    /// Takes an event of the injector of this mail into account: if it linked the name of its message, that one's life begins.
    pub fn link(&mut self, alloc: Global, actor: &ActorName, own: &Own) -> Result<(), Memory>
        ensures { OnOk result ((books : Books) (args : Arguments) → AreFates self.old books
            → AreFates self.new (booked_after books actor.now args own.now.due own.now.came)) }
    {
        let Some(number) = number_by(own) else {
            return Ok(());
        };
        let tenure = Tenure {
            number,
            mail: actor.copy(),
            delivered: Vec::new(alloc),
            routes: None,
        };
        if let Some(before) = self.living.insert(number, tenure)? {
            self.over.push(before)?;
        }
        Ok(())
    }

    /// Takes an event of this sender into account.
    pub fn hear_from(&mut self, alloc: Global, sender: &mut Sender, own: &Own) -> Result<(), Memory>
        ensures stands { OnOk result ((past : List Own) → HasDue past own.now → Stands sender.old None past
            → Stands sender.new None (own.now ∷ past)) }
        ensures books { OnOk result ((child : Option Bouncer) (past : List Own) (books : Books) → HasDue past own.now → Stands sender.old None past
            → AreFates self.old books → AreFates self.new (heard_by child past own.now books)) }
    {
        match &own.due {
            NeedData::Take(Port::Lspawn) => self.take_from(alloc, sender, own, Channel::Local),
            NeedData::Take(Port::Rspawn) => self.take_from(alloc, sender, own, Channel::Remote),
            NeedData::Give(_, _) => self.give_by(alloc, sender, own),
            _ => go_on(alloc, sender, own),
        }
    }

    /// The same, of a giving: that of a todo command routes the message, whatever came of it.
    fn give_by(&mut self, alloc: Global, sender: &mut Sender, own: &Own) -> Result<(), Memory>
        ensures stands { OnOk result ((past : List Own) → HasDue past own.now → Stands sender.old None past
            → Stands sender.new None (own.now ∷ past)) }
        ensures books { OnOk result ((child : Option Bouncer) (past : List Own) (books : Books) (port : Port) (bytes : List ℕ) → own.now.due ≡ Give port bytes
            → HasDue past own.now → Stands sender.old None past → AreFates self.old books → AreFates self.new (heard_by child past own.now books)) }
    {
        sender.look(own.read.min(LAST_MOMENT), own.ready);
        match sender.routing() {
            Some(n) => {
                self.route(alloc, n, sender.controls())?;
                go_on(alloc, sender, own)
            }
            None => go_on(alloc, sender, own),
        }
    }

    /// Routes the message of this number by these controls, if it lives.
    fn route(&mut self, alloc: Global, n: u64, controls: &Controls) -> Result<(), Memory>
        ensures { OnOk result ((books : Books) → AreFates self.old books → AreFates self.new (entered_in books n (Routes controls.now))) }
    {
        let place = self.routers.keep(alloc, controls)?;
        if let Some(tenure) = self.living.get_mut(&n) {
            tenure.routes = Some(place);
        }
        Ok(())
    }

    /// The same, of a taking from the spawner of this channel.
    fn take_from(
        &mut self,
        alloc: Global,
        sender: &mut Sender,
        own: &Own,
        channel: Channel,
    ) -> Result<(), Memory>
        ensures stands { OnOk result ((past : List Own) → HasDue past own.now → Stands sender.old None past
            → Stands sender.new None (own.now ∷ past)) }
        ensures books { OnOk result ((child : Option Bouncer) (past : List Own) (books : Books) → own.now.due ≡ Take (port_of channel) → HasDue past own.now
            → Stands sender.old None past → AreFates self.old books → AreFates self.new (heard_by child past own.now books)) }
    {
        let before = sender.marks(channel).len();
        go_on(alloc, sender, own)?;
        self.enter(channel, sender.marks(channel), before)
    }

    /// Enters the recipients of the marks of a channel after so many: of those that were delivered to.
    fn enter(&mut self, channel: Channel, marks: &Marks, before: usize) -> Result<(), Memory>
        ensures { OnOk result ((books : Books) → AreFates self.old books
            → AreFates self.new (entered_of channel (drop before marks.now) books)) }
    {
        for at in before..marks.len() {
            if let Some(mark) = marks.get(at) {
                self.enter_mark(channel, mark)?;
            }
        }
        Ok(())
    }

    /// Enters the recipient of a mark, if nothing is to be noted of it: so it was delivered to.
    fn enter_mark(&mut self, channel: Channel, mark: &Mark) -> Result<(), Memory>
        ensures { OnOk result ((books : Books) → AreFates self.old books
            → AreFates self.new (entered_of channel (mark.now ∷ []) books)) }
    {
        if mark.note.is_some() {
            return Ok(());
        }
        if let Some(tenure) = self.living.get_mut(&mark.attempt.n) {
            tenure.delivered.push(Spot {
                channel,
                place: mark.attempt.place,
            })?;
        }
        Ok(())
    }
}

impl Tenure {
    /// Whether it is this mail's.
    fn is_of(&self, mail: &[u8]) -> bool
        ensures { result ≡ bytes_eq self.now.mail mail.now }
    {
        self.mail.as_slice() == mail
    }

    /// Whether this recipient was delivered to.
    fn has(&self, spot: Spot) -> bool
        ensures { result ≡ list_any (is_spot (spot_of spot)) (map spot_of self.now.delivered.items) }
    {
        self.delivered.iter().any(|one| is_same(one.channel, spot.channel)
            && one.place == spot.place)
    }
}

/// Whether these are the same channel.
fn is_same(one: Channel, other: Channel) -> bool
    ensures { result ≡ is_channel one other }
{
    match (one, other) {
        (Channel::Local, Channel::Local) | (Channel::Remote, Channel::Remote) => true,
        _ => false,
    }
}

/// A sender goes on by this event of its own. Its log is dropped.
fn go_on(alloc: Global, sender: &mut Sender, own: &Own) -> Result<(), Memory>
    ensures { OnOk result ((past : List Own) → HasDue past own.now → Stands sender.old None past
        → Stands sender.new None (own.now ∷ past)) }
{
    sender.look(own.read.min(LAST_MOMENT), own.ready);
    sender.done(alloc, got_of(&own.came))?;
    sender.clear_log();
    Ok(())
}
