// What the events of a world say of the recipients of its mails.
ghost use Rattle.std.specs.Prelude.{◌≡◌, ℕ, List, IfOk, OnOk, codes};
ghost use Rattle.call_fs.specs.Disk.{Disk};
ghost use Rattle.call_fs.specs.declared.past.Own.{Own};
ghost use Rattle.mail_bytes.specs.Moments.{IsMoment};
ghost use Rattle.mail_world.specs.History.{Event as Happening, State, Allowed, acted, after, happens};
ghost use Rattle.mail_world.specs.World.{IsHistory};
ghost use Rattle.script_fates.specs.Fates.{AreFates};
ghost use Rattle.scenario.specs.Fates.{AreNamedStarts, IsNamedStart, is_delivery_name};
ghost use Rattle.scenario.specs.inside.Fates.{AreNamed, Follows, HasDone, TellsRead};

use actor_names::{ActorName, Member, is_member};
use call_fs::Own;
use mail_bytes::Memory;
use mail_world::Event;
use script_fates::Fates;
use send_core::Sender;
use std::alloc::Global;
use std::mem::replace;

/// The lives of messages while events come, one after the other.
#[derive(Drop)]
struct Following {
    fates: Fates,
    /// The newest sender, as its own events left it.
    sender: Option<Sender>,
}

/// The lives of messages by these events, the oldest first.
pub fn fates_by(alloc: Global, events: &[Event]) -> Result<Fates, Memory>
    ensures { IfOk result (λ fates. (d now : Disk) (present : ℕ) (h : List Happening) → IsHistory d now events.now present h → AreNamedStarts h
        → AreFates fates (after d h).books) }
{
    let Following { fates, sender } = Following::of(alloc, events)?;
    drop(sender);
    Ok(fates)
}

impl Following {
    /// By these events, the oldest first.
    fn of(alloc: Global, events: &[Event]) -> Result<Following, Memory>
        ensures { IfOk result (λ following. (d now : Disk) (present : ℕ) (h : List Happening) → IsHistory d now events.now present h → AreNamedStarts h
            → Follows following (after d h)) }
    {
        let mut following = Following {
            fates: Fates::new(alloc),
            sender: None,
        };
        for event in events {
            match following.note(alloc, event) {
                Ok(()) => {}
                Err(why) => {
                    drop(following);
                    return Err(why);
                }
            }
        }
        Ok(following)
    }

    /// Takes one event more into account.
    fn note(&mut self, alloc: Global, event: &Event) -> Result<(), Memory>
        ensures { OnOk result ((s : State) (happening : Happening) → AreNamed s → IsMoment s.now → IsNamedStart happening → Allowed s happening
            → TellsRead event.now happening → Follows self.old s → Follows self.new (happens s happening)) }
    {
        match event {
            Event::Act { actor, own } => self.act(alloc, actor, own),
            Event::Child { actor, own, .. } | Event::Feed { actor, own, .. } => {
                self.act(alloc, actor, own.get())
            }
            Event::Generation { .. } => {
                let sender = Sender::new(alloc, None)?;
                drop(replace(&mut self.sender, Some(sender)));
                Ok(())
            }
            _ => Ok(()),
        }
    }

    /// The same, of an event of this actor.
    fn act(&mut self, alloc: Global, actor: &ActorName, own: &Own) -> Result<(), Memory>
        ensures { OnOk result ((s : State) (wrote : ℕ) → AreNamed s → IsMoment s.now → HasDone s actor.now own.now
            → Follows self.old s → Follows self.new (acted s actor.now own.now wrote (s.actors actor.now))) }
    {
        let name = actor.as_slice();
        if name == Member::Sender.name() {
            self.hear(alloc, own)
        } else if is_member(name) || is_delivery(name) {
            Ok(())
        } else {
            self.fates.link(alloc, actor, own)
        }
    }

    /// The same, of an event of the newest sender.
    fn hear(&mut self, alloc: Global, own: &Own) -> Result<(), Memory>
        ensures { OnOk result ((s : State) (wrote : ℕ) → IsMoment s.now → HasDone s (codes "sender") own.now
            → Follows self.old s → Follows self.new (acted s (codes "sender") own.now wrote (s.actors (codes "sender")))) }
    {
        match &mut self.sender {
            Some(sender) => self.fates.hear_from(alloc, sender, own),
            None => Ok(()),
        }
    }
}

/// Whether this begins as the name of a delivery does, which links no name of a message.
fn is_delivery(name: &[u8]) -> bool
    ensures { result ≡ is_delivery_name name.now }
{
    name.starts_with(b"l.")
}
