// The pipes that one actor takes from.
ghost use Rattle.std.specs.Prelude.{◌≡◌, ◌==◌, ◌≤◌, ◌<◌, ℕ, true, false, if◌then◌else◌, Some, None, option_map, IfOk, IsOk, IsSome, OnOk, OnErr, All, length};
ghost use Rattle.call_fs.specs.declared.program.Port.{Port as Gate};
ghost use Rattle.call_fs.specs.declared.program.Port.TheVariants.{Input, Program};
ghost use Rattle.world_pipes.specs.Pipework.{fresh, given, closed, is_ready};
ghost use Rattle.world_pipes.specs.Pipework.Tenant.{Runs, Remote};
ghost use Rattle.world_pipes.specs.Pipes.{lies, told, offered, left_by};
ghost use Rattle.world_pipes.specs.Mouths.{IsVacant, pipe_of, runs_in, tenant_of, ended_in, ended_of, actor_of, is_remote, IsLowest, HasPipe, HasRoomAt, change_at};

use crate::{Pipe, Taken};
use actor_names::ActorName;
use call_fs::Port;
use mail_bytes::Memory;
use std::alloc::Global;

/// The program in a slot.
#[derive(Drop)]
pub enum Tenant {
    /// An actor.
    Actor {
        /// Its name.
        name: ActorName,
        /// Whether it ended or was stopped.
        over: bool,
    },
    /// A remote program, which is none.
    Remote {
        /// Whether its report came.
        reported: bool,
    },
}

/// A slot of an actor.
#[derive(Drop)]
pub struct Slot {
    /// The program in it, if there is one.
    tenant: Option<Tenant>,
    /// The output of its program, which stays when the slot is freed.
    output: Pipe,
}

impl Slot {
    /// A slot without a program. Takes no memory.
    fn new(alloc: Global) -> Slot
        ensures { IsVacant result }
    {
        Slot {
            tenant: None,
            output: Pipe::new(alloc),
        }
    }

    /// A program starts in it.
    fn start(&mut self, tenant: Tenant)
        ensures runs { self.new.tenant ≡ Some tenant }
        ensures empty { lies self.new.output ≡ fresh }
    {
        self.tenant = Some(tenant);
        self.output.clear();
    }

    /// Whether a remote program runs in it with its report, or, with `reported` false, one without.
    fn runs(&self, reported: bool) -> bool
        ensures { result ≡ is_remote reported (runs_in (Some self.now)) }
    {
        match &self.tenant {
            Some(Tenant::Remote { reported: came }) => *came == reported,
            Some(Tenant::Actor { .. }) | None => false,
        }
    }

    /// Whether its program has ended: a remote one whose report came, or an actor that is over.
    fn has_ended(&self) -> bool
        ensures { result ≡ ended_in (Some self.now) }
    {
        match &self.tenant {
            Some(Tenant::Remote { reported }) => *reported,
            Some(Tenant::Actor { over, .. }) => *over,
            None => false,
        }
    }

    /// The actor in it is over, and gives nothing more. The condition: there is one.
    fn end_actor(&mut self)
        requires { IsSome (actor_of (runs_in (Some self.old))) }
        ensures shut { lies self.new.output ≡ closed (lies self.old.output) }
        ensures same { runs_in (Some self.new) ≡ runs_in (Some self.old) }
        ensures ended { ended_in (Some self.new) ≡ true }
    {
        self.output.close();
        if let Some(Tenant::Actor { over, .. }) = &mut self.tenant {
            *over = true;
        }
    }

    /// No program is in it any more, and nothing lies in its output.
    fn clear(&mut self)
        ensures { IsVacant self.new }
    {
        self.tenant = None;
        self.output.clear();
    }
}

/// The pipes that one actor takes from: its input, the links of a sender, and the outputs of the programs in its slots.
#[derive(Drop)]
pub struct Mouths {
    input: Pipe,
    clean: Pipe,
    lspawn: Pipe,
    rspawn: Pipe,
    slots: Vec<Slot>,
}

impl Mouths {
    /// Of an actor with so many slots: nothing lies in any pipe, and no program is in a slot.
    /// The error: out of memory.
    pub fn new(alloc: Global, slots: u16) -> Result<Mouths, Memory>
        ensures pipes { IfOk result (λ m. (port : Gate) → pipe_of m port ≡ fresh) }
        ensures tenants { IfOk result (λ m. (d : ℕ) → tenant_of m d ≡ None) }
        ensures ended { IfOk result (λ m. (d : ℕ) → ended_of m d ≡ false) }
        ensures slots { IfOk result (λ m. length m.slots.items ≡ slots) }
    {
        Ok(Mouths {
            input: Pipe::new(alloc),
            clean: Pipe::new(alloc),
            lspawn: Pipe::new(alloc),
            rspawn: Pipe::new(alloc),
            slots: vacant(alloc, slots)?,
        })
    }

    /// Whether something can be taken by this port, if only the end.
    pub fn is_ready(&self, port: Port) -> bool
        ensures { result ≡ is_ready (pipe_of self.now port) }
    {
        match port {
            Port::Input => self.input.is_ready(),
            Port::Clean => self.clean.is_ready(),
            Port::Lspawn => self.lspawn.is_ready(),
            Port::Rspawn => self.rspawn.is_ready(),
            Port::Program(slot) => match self.slots.get(slot as usize) {
                Some(slot) => slot.output.is_ready(),
                None => false,
            },
            Port::Output | Port::Todo | Port::Status(_) => false,
        }
    }

    /// Whether a remote program runs in this slot with its report, or, with `reported` false, one without.
    pub fn runs(&self, slot: u8, reported: bool) -> bool
        ensures { result ≡ is_remote reported (tenant_of self.now slot) }
    {
        match self.slots.get(slot as usize) {
            Some(slot) => slot.runs(reported),
            None => false,
        }
    }

    /// The lowest slot from this one on that has a remote program with its report, or, with `reported` false, one without.
    pub fn lowest(&self, from: u8, reported: bool) -> Option<u8>
        ensures { IsLowest (λ d. is_remote reported (tenant_of self.now d)) from result }
    {
        let mut slot = from;
        loop {
            if self.runs(slot, reported) {
                return Some(slot);
            }
            if slot == u8::MAX {
                return None;
            }
            slot += 1;
        }
    }

    /// Whether the program in this slot has ended: a remote one whose report came, or an actor that is over.
    pub fn has_ended(&self, slot: u8) -> bool
        ensures { result ≡ ended_of self.now slot }
    {
        match self.slots.get(slot as usize) {
            Some(slot) => slot.has_ended(),
            None => false,
        }
    }

    /// The lowest slot whose program has ended.
    pub fn lowest_ended(&self) -> Option<u8>
        ensures { IsLowest (ended_of self.now) 0 result }
    {
        let mut slot: u8 = 0;
        'slots: loop {
            if self.has_ended(slot) {
                return Some(slot);
            }
            if slot == u8::MAX {
                return None;
            }
            slot += 1;
        }
    }

    /// Makes room for so many bytes more in the pipe by this port. The condition: there is one.
    /// The error: out of memory.
    pub fn make_room(&mut self, port: Port, more: usize) -> Result<(), Memory>
        requires { HasPipe self.old port }
        ensures pipes { (at : Gate) → pipe_of self.new at ≡ pipe_of self.old at }
        ensures tenants { (d : ℕ) → tenant_of self.new d ≡ tenant_of self.old d }
        ensures ended { (d : ℕ) → ended_of self.new d ≡ ended_of self.old d }
        ensures slots { length self.new.slots.items ≡ length self.old.slots.items }
        ensures room { OnOk result (HasRoomAt self.new port more) }
    {
        match port {
            Port::Input => self.input.make_room(more),
            Port::Clean => self.clean.make_room(more),
            Port::Lspawn => self.lspawn.make_room(more),
            Port::Rspawn => self.rspawn.make_room(more),
            Port::Program(slot) => self.slots[slot as usize].output.make_room(more),
            Port::Output | Port::Todo | Port::Status(_) => unreachable!(),
        }
    }

    /// Bytes are given to the pipe by this port. Takes no memory. The condition: there is one, with room for them.
    pub fn give(&mut self, port: Port, bytes: &[u8])
        requires { HasRoomAt self.old port (length bytes.now) }
        ensures pipes { (at : Gate) → pipe_of self.new at ≡ change_at port (given bytes.now) (pipe_of self.old) at }
        ensures tenants { (d : ℕ) → tenant_of self.new d ≡ tenant_of self.old d }
        ensures ended { (d : ℕ) → ended_of self.new d ≡ ended_of self.old d }
        ensures slots { length self.new.slots.items ≡ length self.old.slots.items }
    {
        match port {
            Port::Input => self.input.give(bytes),
            Port::Clean => self.clean.give(bytes),
            Port::Lspawn => self.lspawn.give(bytes),
            Port::Rspawn => self.rspawn.give(bytes),
            Port::Program(slot) => self.slots[slot as usize].output.give(bytes),
            Port::Output | Port::Todo | Port::Status(_) => unreachable!(),
        }
    }

    /// Bytes are given as its whole input: nothing more will come there. Takes no memory. The condition: there is room for them.
    pub fn give_all(&mut self, bytes: &[u8])
        requires { HasRoomAt self.old Input (length bytes.now) }
        ensures pipes { (at : Gate) → pipe_of self.new at ≡ change_at Input (λ pipe. closed (given bytes.now pipe)) (pipe_of self.old) at }
        ensures tenants { (d : ℕ) → tenant_of self.new d ≡ tenant_of self.old d }
        ensures ended { (d : ℕ) → ended_of self.new d ≡ ended_of self.old d }
        ensures slots { length self.new.slots.items ≡ length self.old.slots.items }
    {
        self.input.give(bytes);
        self.input.close();
    }

    /// Takes what lies in the pipe by this port, at most so many bytes, or else its end; `None` if neither is there, or
    /// there is no such pipe. If that is all, it takes no memory.
    pub fn take(&mut self, alloc: Global, port: Port, most: usize) -> Result<Option<Taken>, Memory>
        ensures came { IfOk result (λ what. told what ≡ offered most (pipe_of self.old port)) }
        ensures pipes { IfOk result (λ what. (at : Gate)
            → pipe_of self.new at ≡ change_at port (left_by (told what)) (pipe_of self.old) at) }
        ensures tenants { (d : ℕ) → tenant_of self.new d ≡ tenant_of self.old d }
        ensures ended { (d : ℕ) → ended_of self.new d ≡ ended_of self.old d }
        ensures slots { length self.new.slots.items ≡ length self.old.slots.items }
        ensures ok { length (pipe_of self.old port).bytes ≤ most → IsOk result }
        ensures err { OnErr result ((at : Gate) → pipe_of self.new at ≡ pipe_of self.old at) }
    {
        match port {
            Port::Input => self.input.take(alloc, most),
            Port::Clean => self.clean.take(alloc, most),
            Port::Lspawn => self.lspawn.take(alloc, most),
            Port::Rspawn => self.rspawn.take(alloc, most),
            Port::Program(slot) => match self.slots.get_mut(slot as usize) {
                Some(slot) => slot.output.take(alloc, most),
                None => Ok(None),
            },
            Port::Output | Port::Todo | Port::Status(_) => Ok(None),
        }
    }

    /// Nothing more will come by this port. Takes no memory. The condition: there is such a pipe.
    pub fn close(&mut self, port: Port)
        requires { HasPipe self.old port }
        ensures pipes { (at : Gate) → pipe_of self.new at ≡ change_at port closed (pipe_of self.old) at }
        ensures tenants { (d : ℕ) → tenant_of self.new d ≡ tenant_of self.old d }
        ensures ended { (d : ℕ) → ended_of self.new d ≡ ended_of self.old d }
        ensures slots { length self.new.slots.items ≡ length self.old.slots.items }
    {
        match port {
            Port::Input => self.input.close(),
            Port::Clean => self.clean.close(),
            Port::Lspawn => self.lspawn.close(),
            Port::Rspawn => self.rspawn.close(),
            Port::Program(slot) => self.slots[slot as usize].output.close(),
            Port::Output | Port::Todo | Port::Status(_) => unreachable!(),
        }
    }

    /// Nothing lies in any pipe, and no program is in a slot. Takes no memory.
    pub fn clear(&mut self)
        ensures pipes { (at : Gate) → pipe_of self.new at ≡ fresh }
        ensures tenants { (d : ℕ) → tenant_of self.new d ≡ None }
        ensures ended { (d : ℕ) → ended_of self.new d ≡ false }
        ensures slots { length self.new.slots.items ≡ length self.old.slots.items }
    {
        self.input.clear();
        self.clean.clear();
        self.lspawn.clear();
        self.rspawn.clear();
        clear_all(&mut self.slots);
    }

    /// A remote program starts in this slot, and has given nothing. Takes no memory. The condition: there is such a slot.
    pub fn start(&mut self, slot: u8)
        requires { slot < length self.old.slots.items }
        ensures pipes { (at : Gate) → pipe_of self.new at ≡ change_at (Program slot) (λ _. fresh) (pipe_of self.old) at }
        ensures tenants { (d : ℕ) → tenant_of self.new d ≡ (if d == slot then Some (Remote false) else tenant_of self.old d) }
        ensures ended { (d : ℕ) → ended_of self.new d ≡ (if d == slot then false else ended_of self.old d) }
        ensures slots { length self.new.slots.items ≡ length self.old.slots.items }
    {
        self.slots[slot as usize].start(Tenant::Remote { reported: false });
    }

    /// An actor starts in this slot, and has given nothing. Takes no memory. The condition: there is such a slot.
    pub fn start_actor(&mut self, slot: u8, actor: ActorName)
        requires { slot < length self.old.slots.items }
        ensures pipes { (at : Gate) → pipe_of self.new at ≡ change_at (Program slot) (λ _. fresh) (pipe_of self.old) at }
        ensures tenants { (d : ℕ) → tenant_of self.new d ≡ (if d == slot then Some (Runs actor) else tenant_of self.old d) }
        ensures ended { (d : ℕ) → ended_of self.new d ≡ (if d == slot then false else ended_of self.old d) }
        ensures slots { length self.new.slots.items ≡ length self.old.slots.items }
    {
        self.slots[slot as usize].start(Tenant::Actor {
            name: actor,
            over: false,
        });
    }

    /// The actor in this slot.
    pub fn actor_in(&self, slot: u8) -> Option<&ActorName>
        ensures { option_map (λ name. name.now) result ≡ actor_of (tenant_of self.now slot) }
    {
        match &self.slots.get(slot as usize)?.tenant {
            Some(Tenant::Actor { name, .. }) => Some(name),
            Some(Tenant::Remote { .. }) | None => None,
        }
    }

    /// The actor in this slot is over, and gives nothing more. Takes no memory. The condition: there is one.
    pub fn end_actor(&mut self, slot: u8)
        requires { IsSome (actor_of (tenant_of self.old slot)) }
        ensures pipes { (at : Gate) → pipe_of self.new at ≡ change_at (Program slot) closed (pipe_of self.old) at }
        ensures tenants { (d : ℕ) → tenant_of self.new d ≡ tenant_of self.old d }
        ensures ended { (d : ℕ) → ended_of self.new d ≡ (if d == slot then true else ended_of self.old d) }
        ensures slots { length self.new.slots.items ≡ length self.old.slots.items }
    {
        self.slots[slot as usize].end_actor();
    }

    /// The remote program in this slot has ended: its report came. Takes no memory. The condition: there is such a slot.
    pub fn end(&mut self, slot: u8)
        requires { slot < length self.old.slots.items }
        ensures pipes { (at : Gate) → pipe_of self.new at ≡ pipe_of self.old at }
        ensures tenants { (d : ℕ) → tenant_of self.new d ≡ (if d == slot then Some (Remote true) else tenant_of self.old d) }
        ensures ended { (d : ℕ) → ended_of self.new d ≡ (if d == slot then true else ended_of self.old d) }
        ensures slots { length self.new.slots.items ≡ length self.old.slots.items }
    {
        self.slots[slot as usize].tenant = Some(Tenant::Remote { reported: true });
    }

    /// No program is in this slot any more; what it gave stays. Takes no memory. The condition: there is such a slot.
    pub fn free(&mut self, slot: u8)
        requires { slot < length self.old.slots.items }
        ensures pipes { (at : Gate) → pipe_of self.new at ≡ pipe_of self.old at }
        ensures tenants { (d : ℕ) → tenant_of self.new d ≡ (if d == slot then None else tenant_of self.old d) }
        ensures ended { (d : ℕ) → ended_of self.new d ≡ (if d == slot then false else ended_of self.old d) }
        ensures slots { length self.new.slots.items ≡ length self.old.slots.items }
    {
        self.slots[slot as usize].tenant = None;
    }
}

/// No program is in any slot, and nothing lies in any output.
fn clear_all(slots: &mut [Slot])
    ensures each { All IsVacant slots.new }
    ensures many { length slots.new ≡ length slots.old }
{
    for slot in slots.iter_mut() {
        slot.clear();
    }
}

/// So many slots without programs.
fn vacant(alloc: Global, count: u16) -> Result<Vec<Slot>, Memory>
    ensures each { IfOk result (λ slots. All IsVacant slots.items) }
    ensures many { IfOk result (λ slots. length slots.items ≡ count) }
{
    let mut slots = Vec::new(alloc);
    for _ in 0..count {
        slots.push(Slot::new(alloc))?;
    }
    Ok(slots)
}
