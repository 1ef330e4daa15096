// What an actor does with pipes and slots.
ghost use Rattle.std.specs.Prelude.{◌≡◌, ◌<◌, ◌≤◌, ◌&&◌, Some, IfOk, OnOk, OnErr, length};
ghost use Rattle.world_pipes.specs.Mouths.{HasPipe, IsSame};
ghost use Rattle.world_pipes.specs.Pipework.{is_port};
ghost use Rattle.world_pipes.specs.Wired.{HaveSlots};
ghost use Rattle.world_pipes.specs.Exchanges.{IsNoAct, AreAsBefore, HasExchanged, HasFreedBy, HasTaken, HasTakenBy, HasSlotFor, HasStarted, HasGivenTo, IsSameAt, HaveShut, OwnIsShut, AreShut, HasShut, GivesNoActor, SuitsPlace, is_in, slot_leads, member_leads, leads, member_with, gives_at};
ghost use Rattle.actor_names.specs.MailNames.{members};
ghost use Rattle.call_fs.specs.declared.program.Port.TheVariants as port;

use crate::{Mouths, Taken, command_exits};
use actor_names::Member;
use call_fs::{ChildData, GotData, NeedData, Port};
use mail_bytes::Memory;
use std::alloc::Global;

/// Carries out what is due to an actor, if it can be done: a taking takes all that is there, at most so many bytes; a giving is given
/// whole; a remote program starts with this process number; and a command exits. The actor has this name, its pipes at this place, and
/// perhaps a slot. The conditions: the members and this actor have pipes; what is due is no call and no end; nothing is given to an actor
/// in a slot, and no actor is started; and a member alone takes by a link or starts a remote program.
pub fn exchange(
    alloc: Global,
    mouths: &mut Vec<Mouths>,
    at: usize,
    slot: Option<(usize, u8)>,
    actor: &[u8],
    most: usize,
    pid: u32,
    due: &NeedData,
) -> Result<Option<GotData>, Memory>
    requires many { length members ≤ length mouths.old.items }
    requires at { at < length mouths.old.items }
    requires slots { HaveSlots mouths.old.items }
    requires pass { IsNoAct due.now }
    requires alone { GivesNoActor mouths.old.items at due.now }
    requires suits { SuitsPlace at due.now }
    ensures done { IfOk result (λ came. HasExchanged (Some at) slot mouths.old.items mouths.new.items pid most actor.now due.now came) }
    ensures err { OnErr result (AreAsBefore mouths.old.items mouths.new.items) }
{
    match due {
        NeedData::Take(port) => take(alloc, &mut mouths[at], *port, most),
        NeedData::Give(port, bytes) => {
            give(mouths, at, slot, actor, *port, bytes.as_slice())?;
            Ok(Some(GotData::Gave))
        }
        NeedData::Start(asked) => Ok(Some(start(&mut mouths[at], asked.get(), pid))),
        NeedData::Command(command) => Ok(Some(GotData::Ended(command_exits(command.as_slice())))),
        NeedData::File(_) | NeedData::Wait | NeedData::Ended(_) => Ok(None),
    }
}

/// Starts a remote program with this process number. The condition: such a one is to start, and there are 256 slots for it.
fn start(mouths: &mut Mouths, asked: &ChildData, pid: u32) -> GotData
    requires { HasSlotFor mouths.old asked.now }
    ensures { HasStarted mouths.old mouths.new pid asked.now result }
{
    match asked {
        ChildData::Remote { slot, .. } => {
            mouths.start(*slot);
            GotData::Started { pid }
        }
        ChildData::Bounce { .. } | ChildData::Forward { .. } => unreachable!(),
        ChildData::Local { .. } => unreachable!(),
    }
}

/// Takes the status of the remote program in this slot, if its report came; it is 0, and the slot is free then.
fn take_status(mouths: &mut Mouths, slot: u8) -> Option<GotData>
    ensures { HasFreedBy mouths.old mouths.new slot result }
{
    if !mouths.runs(slot, true) {
        return None;
    }
    mouths.free(slot);
    Some(GotData::Ended(0))
}

/// Takes what lies in the pipe by this port, at most so many bytes, or its end; or a status.
fn take(
    alloc: Global,
    mouths: &mut Mouths,
    port: Port,
    most: usize,
) -> Result<Option<GotData>, Memory>
    ensures done { IfOk result (λ came. HasTakenBy mouths.old mouths.new port most came) }
    ensures err { OnErr result (IsSame mouths.old mouths.new) }
{
    match port {
        Port::Status(slot) => Ok(take_status(mouths, slot)),
        _ => take_bytes(alloc, mouths, port, most),
    }
}

/// Takes what lies in the pipe by this port, at most so many bytes, or its end.
fn take_bytes(
    alloc: Global,
    mouths: &mut Mouths,
    port: Port,
    most: usize,
) -> Result<Option<GotData>, Memory>
    ensures done { IfOk result (λ came. HasTaken mouths.old mouths.new port most came) }
    ensures err { OnErr result (IsSame mouths.old mouths.new) }
{
    match mouths.take(alloc, port, most)? {
        Some(Taken::Bytes(bytes)) => Ok(Some(GotData::Took(bytes))),
        Some(Taken::End) => Ok(Some(GotData::End)),
        None => Ok(None),
    }
}

/// Gives bytes by a port of the actor of this name, with its pipes at this place and perhaps a slot: they go to whoever takes there, if
/// anybody does. The condition: the members have pipes.
fn give(
    mouths: &mut Vec<Mouths>,
    at: usize,
    slot: Option<(usize, u8)>,
    actor: &[u8],
    port: Port,
    bytes: &[u8],
) -> Result<(), Memory>
    requires many { length members ≤ length mouths.old.items }
    ensures done { OnOk result (HasGivenTo (leads mouths.old.items at slot actor.now port) bytes.now mouths.old.items mouths.new.items) }
    ensures err { OnErr result (IsSameAt (leads mouths.old.items at slot actor.now port) mouths.old.items mouths.new.items) }
{
    let Some((to, port)) = leads(mouths, at, slot, actor, port) else {
        return Ok(());
    };
    let mouths = &mut mouths[to];
    mouths.make_room(port, bytes.len())?;
    mouths.give(port, bytes);
    Ok(())
}

/// Where what the actor of this name gives to a port is taken: the place, by the seat if it is a member, and the port there.
fn leads(
    mouths: &[Mouths],
    at: usize,
    slot: Option<(usize, u8)>,
    actor: &[u8],
    port: Port,
) -> Option<(usize, Port)>
    ensures { result ≡ leads mouths.now at slot actor.now port }
{
    match port {
        Port::Clean => Some((Member::Cleaner.seat(), Port::Input)),
        Port::Lspawn => Some((Member::LocalSpawner.seat(), Port::Input)),
        Port::Rspawn => Some((Member::RemoteSpawner.seat(), Port::Input)),
        Port::Output => match Member::at(at) {
            Some(member) => member_leads(member),
            None => slot_leads(mouths, slot, actor),
        },
        _ => None,
    }
}

/// Where the output of a member is taken: by the sender, whose own nobody takes.
fn member_leads(member: Member) -> Option<(usize, Port)>
    ensures { result ≡ member_leads member }
{
    let taker = Member::Sender.seat();
    match member {
        Member::Sender => None,
        Member::Cleaner => Some((taker, Port::Clean)),
        Member::LocalSpawner => Some((taker, Port::Lspawn)),
        Member::RemoteSpawner => Some((taker, Port::Rspawn)),
    }
}

/// Where the output of an actor is taken that is no member: by its parent, while it runs in its slot.
fn slot_leads(mouths: &[Mouths], slot: Option<(usize, u8)>, actor: &[u8]) -> Option<(usize, Port)>
    ensures { result ≡ slot_leads mouths.now slot actor.now }
{
    let (at, number) = slot?;
    if is_in(mouths, at, number, actor) {
        Some((at, Port::Program(number)))
    } else {
        None
    }
}

/// Whether the actor of this name runs in this slot.
fn is_in(mouths: &[Mouths], at: usize, slot: u8, actor: &[u8]) -> bool
    ensures { result ≡ is_in mouths.now (at, slot) actor.now }
{
    match mouths.get(at) {
        Some(mouths) => match mouths.actor_in(slot) {
            Some(name) => name.as_slice() == actor,
            None => false,
        },
        None => false,
    }
}

/// The actor of this name is over: if its pipes are those of a member, what it gives to is shut; if not, its output is, in its slot, and it
/// is marked as over there. Takes no memory.
pub fn shut_after(
    mouths: &mut Vec<Mouths>,
    wire: Option<usize>,
    slot: Option<(usize, u8)>,
    actor: &[u8],
)
    ensures { HaveShut wire slot actor.now mouths.old.items mouths.new.items }
{
    match member_with(wire) {
        Some(member) => shut_all(mouths.as_mut_slice(), member),
        None => shut_own(mouths, slot, actor),
    }
}

/// The member whose pipes are at this place, if they are those of one.
fn member_with(wire: Option<usize>) -> Option<Member>
    ensures { result ≡ member_with wire }
{
    Member::at(wire?)
}

/// The output of the actor of this name is shut, if it runs in its slot, and it is marked as over. Takes no memory.
fn shut_own(mouths: &mut Vec<Mouths>, slot: Option<(usize, u8)>, actor: &[u8])
    ensures { OwnIsShut slot actor.now mouths.old.items mouths.new.items }
{
    let Some((at, number)) = slot else {
        return;
    };
    if is_in(mouths, at, number, actor) {
        mouths[at].end_actor(number);
    }
}

/// What this member gives to is shut. Takes no memory.
fn shut_all(mouths: &mut [Mouths], member: Member)
    ensures { AreShut member mouths.old mouths.new }
{
    for place in 0..mouths.len() {
        shut_at(&mut mouths[place], member, place);
    }
}

/// What this member gives to those that have their pipes at this place is shut. Takes no memory.
fn shut_at(mouths: &mut Mouths, member: Member, place: usize)
    ensures { HasShut (gives_at member place) mouths.old mouths.new }
{
    shut_if(mouths, Port::Input, gives_at(member, place, Port::Input));
    shut_if(mouths, Port::Clean, gives_at(member, place, Port::Clean));
    shut_if(mouths, Port::Lspawn, gives_at(member, place, Port::Lspawn));
    shut_if(mouths, Port::Rspawn, gives_at(member, place, Port::Rspawn));
}

/// If so wanted, nothing more will come by this port. Takes no memory. The condition: there is such a pipe.
fn shut_if(mouths: &mut Mouths, port: Port, wanted: bool)
    requires { HasPipe mouths.old port }
    ensures { HasShut (λ at. is_port at port && wanted) mouths.old mouths.new }
{
    if !wanted {
        return;
    }
    mouths.close(port);
}

/// Whether what this member gives is taken by this port of the pipes at this place.
fn gives_at(member: Member, place: usize, port: Port) -> bool
    ensures { result ≡ gives_at member place port }
{
    match port {
        Port::Input => gives_input_at(member, place),
        Port::Clean => matches!(member, Member::Cleaner),
        Port::Lspawn => matches!(member, Member::LocalSpawner),
        Port::Rspawn => matches!(member, Member::RemoteSpawner),
        _ => false,
    }
}

/// Whether this member gives the input of who has its pipes at this place: the sender that of the members, and the local spawner that of
/// the others.
fn gives_input_at(member: Member, place: usize) -> bool
    ensures { result ≡ gives_at member place port.Input }
{
    match member {
        Member::Sender => place < Member::COUNT,
        Member::LocalSpawner => place >= Member::COUNT,
        Member::Cleaner | Member::RemoteSpawner => false,
    }
}
