// The one public call, for what lends it the real things.

use crate::alone::qmail_alone;
use call_fs::CallFs;
use outside::{Clock, Gate, Posts, Sink, Source, Spawner};
use std::alloc::Global;
use top_call::TopCall;

/// The call `qmail_alone`.
#[derive(Clone, Copy)]
pub struct Qmail;

impl TopCall for Qmail {
    ghost use Rattle.qmail_top.specs.Called.{Called};

    ghost does = { λ _. Called };

    fn call<
        D: CallFs,
        M: Source,
        E: Source,
        O: Sink,
        L: Sink,
        K: Clock,
        P: Posts,
        S: Spawner,
        G: Gate,
    >(
        &self,
        _rt: &HostRuntime,
        alloc: Global,
        words: &[String],
        disk: &mut D,
        message: &mut M,
        envelope: &mut E,
        out: &mut O,
        log: &mut L,
        clock: &mut K,
        posts: &mut P,
        spawn: &mut S,
        gate: &G,
    ) -> u8 {
        qmail_alone(
            alloc, words, disk, message, envelope, out, log, clock, posts, spawn, gate,
        )
    }
}
