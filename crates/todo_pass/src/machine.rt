// A todo pass as a machine of its own.

use crate::End;
use crate::pass::Pass;
use address_rules::Controls;
use call_fs::{Got, Machine, Need, Ready, UNREADY};
use mail_bytes::Memory;
use std::alloc::Global;

/// The preprocessing of one message as a machine (qmail-send(8); INTERNALS, "How messages are preprocessed"): it unlinks
/// what an earlier pass left, reads the todo file, makes the info file and the channel files, and has the cleaner remove
/// the todo file. What it does depends neither on the moment nor on what is ready.
#[derive(Drop)]
pub struct TodoPass<'a> {
    pass: Pass,
    controls: &'a Controls,
    present: u64,
    ready: Ready,
}

impl<'a> TodoPass<'a> {
    ghost use Rattle.std.specs.Prelude.{◌≡◌, ◌∷◌, [], List, ℕ, IfOk, OnOk, OnErr};
    ghost use Rattle.mail_bytes.specs.Moments.{IsMoment};
    ghost use Rattle.call_fs.specs.declared.past.Own.{Own};
    ghost use Rattle.call_fs.specs.Program.{due_of, came_of, IsKind};
    ghost use Rattle.todo_pass.specs.declared.arguments.Arguments.{Arguments};
    ghost use Rattle.todo_pass.specs.Stands.{Stands, due_now};
    ghost use Rattle.todo_pass.specs.Table.{Next, begun, end_of, moved};

    /// The pass of the message with this number. Fails only if out of memory.
    pub fn new(alloc: Global, n: u64, controls: &'a Controls) -> Result<TodoPass<'a>, Memory>
        ensures stands { IfOk result (λ m. Stands m (record { n = n; controls = controls.now }) []) }
    {
        let pass = Pass::new(alloc, n)?;
        Ok(TodoPass {
            pass,
            controls,
            present: 0,
            ready: UNREADY,
        })
    }

    /// How it ended; `None` while it goes on.
    pub fn end(&self) -> Option<End>
        ensures { result ≡ end_of self.now.pass }
    {
        self.pass.end()
    }

    /// The pass without its controls, which tells what was read and when the message was born.
    pub fn pass(&self) -> &Pass
        ensures { result.now ≡ self.now.pass }
    {
        &self.pass
    }

    /// Tells it the moment, and what is ready. Takes no memory. The condition: a clock may tell the moment.
    pub fn look(&mut self, now: u64, ready: Ready)
        requires moment { IsMoment now }
        ensures stands { (args : Arguments) (past : List Own) → Stands self.old args past → Stands self.new args past }
        ensures rest { self.new ≡ record self.old { present = now; ready = ready } }
    {
        self.present = now;
        self.ready = ready;
    }

    /// What it does next: the next of its table, after any past that it stands for. Takes no memory.
    pub fn need(&self) -> Need<'_>
        ensures stands { (args : Arguments) (past : List Own) → Stands self.now args past
            → due_of result ≡ Next args past self.now.present self.now.ready }
        ensures due { due_of result ≡ due_now self.now }
    {
        self.pass.need()
    }

    /// Hands in what came of its need. After `Memory` it is unchanged, and the same may be handed in again. The condition:
    /// this is of the kind of its need.
    pub fn done(&mut self, alloc: Global, got: Got<'_>) -> Result<(), Memory>
        requires kind { IsKind (due_now self.old) (came_of got) }
        ensures stands { (args : Arguments) (past : List Own) → Stands self.old args past → OnOk result (Stands self.new args
            (record { read = self.old.present; ready = self.old.ready; due = due_now self.old; came = came_of got.entry } ∷ past)) }
        ensures goes { OnOk result (self.new.pass ≡ moved self.old.controls.now self.old.pass self.old.present (came_of got.entry)) }
        ensures err { OnErr result (self.new ≡ self.old) }
    {
        self.pass.done(alloc, self.controls, self.present, &got)
    }
}

impl Machine for TodoPass<'_> {
    ghost use Rattle.std.specs.Prelude.{◌≡◌, true, None, List, ℕ};
    ghost use Rattle.call_fs.specs.declared.past.Own.{Own};
    ghost use Rattle.call_fs.specs.declared.program.Ready.{Ready as Found};
    ghost use Rattle.call_fs.specs.Past.{IsRunBy, UsesHeld, held};
    ghost use Rattle.todo_pass.specs.declared.arguments.Arguments.{Arguments};
    ghost use Rattle.todo_pass.specs.Stands.{Stands, due_now};
    ghost use Rattle.todo_pass.specs.Table.{Next, moved};

    type Arguments = crate::Arguments;

    ghost present = { λ m. m.present };

    ghost found = { λ m. m.ready };

    ghost looked = { λ _. true };

    ghost can_find = { λ _ _. Unit {0} };

    ghost due = { due_now };

    ghost takes_at_most = { λ _. 18446744073709551615 };

    ghost has_room = { λ _. ⊥ };

    ghost ahead = { λ _. None };

    ghost next = { Next };

    ghost looks = { λ m now ready n. n ≡ record m { present = now; ready = ready } };

    ghost goes = { λ m got n. n.pass ≡ moved m.controls.now m.pass m.present got };

    ghost stands = { Stands };

    fn look(&mut self, now: u64, ready: Ready) {
        self.look(now, ready)
    }

    fn need(&self) -> Need<'_> {
        self.need()
    }

    fn taking_room(&self) -> usize {
        usize::MAX
    }

    fn done(&mut self, alloc: Global, got: Got<'_>) -> Result<(), Memory> {
        self.done(alloc, got)
    }

    fn uses_held()
        ensures uses { (args : Arguments) (past : List Own) (now : ℕ) (ready : Found) → IsRunBy (Next args) past
            → UsesHeld (held past) (Next args past now ready) }
    {}
}
