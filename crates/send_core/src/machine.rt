// The sender as a machine like any other.

use crate::Sender;
use call_fs::{Got, Machine, Need, Ready};
use mail_bytes::Memory;
use std::alloc::Global;

impl Machine for Sender {
    ghost use Rattle.std.specs.Prelude.{◌≡◌, None, List, ℕ, Option};
    ghost use Rattle.call_fs.specs.declared.past.Own.{Own};
    ghost use Rattle.call_fs.specs.declared.program.Ready.{Ready as Found};
    ghost use Rattle.call_fs.specs.Past.{IsRunBy, UsesHeld, held};
    ghost use Rattle.send_core.specs.Stands.{Stands, due_now, gone_on, looked_at};
    ghost use Rattle.send_core.specs.Table.{Next};

    type Arguments = Option<u64>;

    ghost present = { λ m. m.present };

    ghost found = { λ m. m.ready };

    ghost looked = { λ m. m.looked };

    ghost can_find = { λ _ _. Unit {0} };

    ghost due = { due_now };

    ghost takes_at_most = { λ _. 18446744073709551615 };

    ghost has_room = { λ _. ⊥ };

    ghost ahead = { λ _. None };

    ghost next = { Next };

    ghost looks = { λ m now ready n. n ≡ looked_at m now ready };

    ghost goes = { λ m got n. n ≡ gone_on m got };

    ghost stands = { Stands };

    fn look(&mut self, now: u64, ready: Ready) {
        self.look(now, ready)
    }

    fn need(&self) -> Need<'_> {
        self.need()
    }

    fn taking_room(&self) -> usize {
        usize::MAX
    }

    fn done(&mut self, alloc: Global, got: Got<'_>) -> Result<(), Memory> {
        self.done(alloc, got)
    }

    fn uses_held()
        ensures uses { (turns : Option ℕ) (past : List Own) (now : ℕ) (ready : Found) → IsRunBy (Next turns) past
            → UsesHeld (held past) (Next turns past now ready) }
    {}
}
