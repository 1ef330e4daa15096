//! The shape of the one public call of this program, for what lends it the real things without standing on it (qmail_process).
//!
//! # What is claimed
//!
//! - A call does what it says that it does with such words, to what it is lent, and its status is that of it: `TopCall::call` (by
//!   `does`, which each implementation gives; `Lent`).
#![tactic(auto)]

ghost use Rattle.std.specs.Prelude.{List, ℕ, String};
ghost use Rattle.std.specs.declared.alloc.Global.{Global};
ghost use Rattle.top_call.specs.Lent.{Lent};

use call_fs::CallFs;
use outside::{Clock, Gate, Posts, Sink, Source, Spawner};
use std::alloc::Global;

/// A call that does what words say, over what it is lent.
pub trait TopCall {
    /// What it does with these words to what it is lent, as that was and as it is then, and with which exit status.
    ghost does: { Self → List (String Global) → Lent → Lent → ℕ → Type 0 };

    /// Does what the words after the program's name say, and answers the exit status: over this disk, with the message, the
    /// envelope, the output, the log, the clock and the process's children. If it has nothing to do it rests at the gate.
    fn call<
        D: CallFs,
        M: Source,
        E: Source,
        O: Sink,
        L: Sink,
        K: Clock,
        P: Posts,
        S: Spawner,
        G: Gate,
    >(
        &self,
        rt: &HostRuntime,
        alloc: Global,
        words: &[String],
        disk: &mut D,
        message: &mut M,
        envelope: &mut E,
        out: &mut O,
        log: &mut L,
        clock: &mut K,
        posts: &mut P,
        spawn: &mut S,
        gate: &G,
    ) -> u8
        ensures { does self.now words.now
            (record { disk = D.disk disk.old; calls = D.calls disk.old; disk_faults = D.faults disk.old; message = record { left = M.left message.old; ended = M.ended message.old; faults = M.faults message.old }; envelope = record { left = E.left envelope.old; ended = E.ended envelope.old; faults = E.faults envelope.old }; out = record { taken = O.taken out.old; faults = O.faults out.old }; log = record { taken = L.taken log.old; faults = L.faults log.old }; moments = K.calls clock.old; last = K.last clock.old; pid = K.pid clock.old; posts = record { waiting = P.waiting posts.old; asked = P.calls posts.old; faults = P.faults posts.old }; spawner = record { children = S.children spawn.old; calls = S.calls spawn.old; faults = S.faults spawn.old } })
            (record { disk = D.disk disk.new; calls = D.calls disk.new; disk_faults = D.faults disk.new; message = record { left = M.left message.new; ended = M.ended message.new; faults = M.faults message.new }; envelope = record { left = E.left envelope.new; ended = E.ended envelope.new; faults = E.faults envelope.new }; out = record { taken = O.taken out.new; faults = O.faults out.new }; log = record { taken = L.taken log.new; faults = L.faults log.new }; moments = K.calls clock.new; last = K.last clock.new; pid = K.pid clock.new; posts = record { waiting = P.waiting posts.new; asked = P.calls posts.new; faults = P.faults posts.new }; spawner = record { children = S.children spawn.new; calls = S.calls spawn.new; faults = S.faults spawn.new } })
            result };
}
