// The children of actors: their machines, their input, and what an actor is handed of one.
ghost use Rattle.std.specs.Prelude.{◌≡◌, ◌<◌, List, ℕ, Some, None, length, IfOk, OnOk, OnErr};
ghost use Rattle.call_fs.specs.declared.past.Own.{Own as Done};
ghost use Rattle.mail_bytes.specs.Moments.{IsMoment};
ghost use Rattle.world_events.specs.Children.{IsActor};
ghost use Rattle.mail_world.specs.Children.{IsMachineOf, GivesTexts, GivesTwo, IsPaid, IsCut, IsFed, HasLeftIf, MayTakeIn, HasTakenIn};
ghost use Rattle.mail_world.specs.Inside.{Owes};
ghost use Rattle.mail_world.specs.Kept.{events_of, HasRoom};

use crate::actor::Actor;
use crate::any_machine::AnyMachine;
use crate::{Did, History};
use call_fs::{ChildData, Machine, NeedData, Own};
use fed_injector::{FedInjector, texts_to_give};
use local_deliver::Local as Deliverer;
use local_parts::LocalArgs;
use mail_bytes::{ByteText, Memory, OnHeap};
use received_line::Invoked;
use std::alloc::Global;
use world_events::Setting;

/// If an actor is over, its child, which has this place, is given no input any more. Takes no memory. The condition: the child's place
/// is one of the actors'.
pub fn leave(actors: &mut [Actor], over: bool, child: Option<usize>)
    requires { (i : ℕ) → child ≡ Some i → i < length actors.old }
    ensures { HasLeftIf over child actors.old actors.new }
{
    if let (true, Some(child)) = (over, child) {
        cut_off_input(&mut actors[child]);
    }
}

/// Nobody gives this actor any input any more. Takes no memory.
fn cut_off_input(actor: &mut Actor)
    ensures { IsCut actor.old actor.new }
{
    if actor.machine.awaits() {
        actor.machine.cut();
    }
}

/// This actor is given this input, if it awaits it. Takes no memory.
pub fn give_input(actor: &mut Actor, message: ByteText, envelope: ByteText)
    ensures { IsFed message envelope actor.old actor.new }
{
    if actor.machine.awaits() {
        actor.machine.give(message, envelope);
    }
}

/// The machine of a child that is to start with the next process number, at the present moment; an injector awaits its input. The
/// conditions: it is an actor, and a clock may tell the moment.
pub fn machine_of(alloc: Global, asked: &ChildData, at: Setting) -> Result<AnyMachine, Memory>
    requires actor { IsActor asked.now }
    requires moment { IsMoment at.now }
    ensures { IfOk result (λ machine. IsMachineOf asked.now at.pid at.now machine) }
{
    let (uid, invoked) = match asked {
        ChildData::Bounce { .. } => (0, Invoked::Bounce),
        ChildData::Forward { uid, .. } => (*uid, Invoked::Uid(*uid)),
        ChildData::Local { words, uid, .. } => {
            let args = LocalArgs::of(alloc, words, *uid, at.pid)?;
            let delivery = OnHeap::new(alloc, Deliverer::new(alloc, args)?)?;
            return Ok(AnyMachine::Deliver(delivery));
        }
        ChildData::Remote { .. } => unreachable!(),
    };
    let injector = FedInjector::new(alloc, uid, at.pid, invoked, at.now)?;
    Ok(AnyMachine::Mail(OnHeap::new(alloc, injector)?))
}

/// Makes room for so many events, and hands an actor the event that it owes. After `Memory` it is as before, and so is what happened.
/// The condition: the history has that event.
pub fn pay_with_room(
    alloc: Global,
    history: &mut History,
    actor: &mut Actor,
    room: usize,
) -> Result<(), Memory>
    requires { (at : ℕ) → actor.old.owed ≡ Some at → (past : List Done) × Owes actor.old (events_of history.old) past at }
    ensures same { events_of history.new ≡ events_of history.old }
    ensures stays { (more : ℕ) → HasRoom history.old more → HasRoom history.new more }
    ensures holds { OnOk result (HasRoom history.new room) }
    ensures paid { OnOk result (IsPaid actor.old actor.new (events_of history.old)) }
    ensures err { OnErr result (actor.new ≡ actor.old) }
{
    history.reserve(room)?;
    actor.pay(alloc, history)?;
    Ok(())
}

/// The texts with which a child is given its input, each twice; with room for so many events, and the event that its parent owes handed
/// to that. After `Memory` it is as before, and so is what happened. The conditions: this gives two texts, and as above.
pub fn ready_to_feed(
    alloc: Global,
    history: &mut History,
    parent: &mut Actor,
    room: usize,
    due: &NeedData,
) -> Result<(ByteText, ByteText, ByteText, ByteText), Memory>
    requires gives { GivesTwo due.now }
    requires owes { (at : ℕ) → parent.old.owed ≡ Some at → (past : List Done) × Owes parent.old (events_of history.old) past at }
    ensures texts { IfOk result (λ texts. GivesTexts due.now texts.0 texts.1) }
    ensures message { IfOk result (λ texts. texts.2 ≡ texts.0) }
    ensures envelope { IfOk result (λ texts. texts.3 ≡ texts.1) }
    ensures same { events_of history.new ≡ events_of history.old }
    ensures stays { (more : ℕ) → HasRoom history.old more → HasRoom history.new more }
    ensures holds { OnOk result (HasRoom history.new room) }
    ensures paid { OnOk result (IsPaid parent.old parent.new (events_of history.old)) }
    ensures err { OnErr result (parent.new ≡ parent.old) }
{
    let texts = texts_to_give(alloc, due)?;
    pay_with_room(alloc, history, parent, room)?;
    Ok(texts)
}

/// An actor looks, and is handed what came of this event, which will have this index, or owes it. The conditions: it owes none, and
/// this was due, and came.
pub fn take_in(alloc: Global, actor: &mut Actor, own: &Own, at: Setting, index: usize) -> Did
    requires moment { IsMoment at.now }
    requires paid { actor.old.owed ≡ None }
    requires may { MayTakeIn actor.old.machine at.now at.ready own.now }
    ensures did { (result.at ≡ index) × (result.ended ≡ None) }
    ensures taken { HasTakenIn actor.old actor.new own.now index result.idle }
{
    actor.machine.look(at.now, at.ready);
    // this is what it asks for now
    actor.machine.need();
    let idle = actor.take_in(alloc, own, index as u64);
    Did::new(index as u64, None, idle)
}
