// A clock, posts or a spawner, with its calls kept.
ghost use Rattle.std.specs.Prelude.{◌≡◌, ◌≤◌, ◌<◌, [], Some, None, IfOk, OnErr, length, map};
ghost use Rattle.std.specs.Option.{option_copied};
ghost use Rattle.mail_bytes.specs.Moments.{IsMoment};
ghost use Rattle.mail_bytes.specs.Told.{Meets, Records};
ghost use Rattle.outside.specs.Streams.{CountsFailures};
ghost use Rattle.outside.specs.Children.{FillsFront, IsFailedPost, Receives, Starts, posted};
ghost use Rattle.outside.specs.Children.SpawnCall.{Start, Feed, Finish, AskStatus};

use crate::clock::Clock;
use crate::kept_calls::{KeptPost, KeptSpawnCall, SpawnCallData};
use crate::posts::{Post, Posts};
use crate::sink::Gave;
use crate::spawner::{Spawner, Started, Status};
use mail_bytes::Memory;
use std::alloc::Global;
use std::marker::Model;

/// Any clock, posts or spawner, whose calls are passed on as they are and kept with their answers, in order. From the first
/// call on for which it finds no memory it keeps none, and has none: the calls themselves never fail for that.
#[derive(Drop)]
pub struct Recorder<X: Drop, C: Drop> {
    alloc: Global,
    inner: X,
    kept: Option<Vec<C>>,
}

impl<X: Drop, C: Drop> Model for Recorder<X, C> {
    ghost use Rattle.std.specs.Option.{option_map};
    ghost use Rattle.outside.specs.Recording.{Recording};

    ghost Value = { Recording X C };

    ghost view = { λ r. record { inner = r.inner; calls = option_map (λ kept. kept.items) r.kept } };
}

impl<X: Drop, C: Drop> Recorder<X, C> {
    /// These, of which no call has been kept yet. Takes no memory.
    pub fn new(alloc: Global, inner: X) -> Self
        ensures { result ≡ record { inner = inner; calls = Some [] } }
    {
        Recorder {
            alloc,
            inner,
            kept: Some(Vec::new(alloc)),
        }
    }

    /// The calls so far with their answers, in order; None if there was no memory for one of them.
    pub fn calls(&self) -> Option<&[C]>
        ensures { option_copied result ≡ self.now.calls }
    {
        match &self.kept {
            Some(kept) => Some(kept.as_slice()),
            None => None,
        }
    }

    /// What is below.
    pub fn inner(&self) -> &X
        ensures { result.now ≡ self.now.inner }
    {
        &self.inner
    }

    /// Keeps a call with its answer; or none any more, if there was no memory for it.
    fn keep(&mut self, call: Result<C, Memory>)
        ensures inner { self.new.inner ≡ self.old.inner }
        ensures kept { IfOk call (λ c. Records self.old.calls self.new.calls c) }
        ensures none { OnErr call (self.new.calls ≡ None) }
    {
        let (Some(mut kept), Ok(call)) = (self.kept.take(), call) else {
            return;
        };
        if kept.push(call).is_ok() {
            self.kept = Some(kept);
        }
    }
}

// The clauses `passed` say that what is below was asked the same, and answered the same, if it tells.

impl<K: Clock + Drop> Clock for Recorder<K, u64> {
    ghost calls = { λ r. r.calls };

    ghost last = { λ r. K.last r.inner };

    ghost pid = { λ r. K.pid r.inner };

    fn now(&mut self) -> u64
        ensures moment { IsMoment result }
        ensures later { K.last self.old.inner ≤ result }
        ensures last { K.last self.new.inner ≡ result }
        ensures same { K.pid self.new.inner ≡ K.pid self.old.inner }
        ensures told { Records self.old.calls self.new.calls result }
        ensures passed { Records (K.calls self.old.inner) (K.calls self.new.inner) result }
    {
        let moment = self.inner.now();
        self.keep(Ok(moment));
        moment
    }

    fn pid(&self) -> u32 {
        self.inner.pid()
    }
}

impl<P: Posts + Drop> Posts for Recorder<P, KeptPost> {
    ghost waiting = { λ r. P.waiting r.inner };

    ghost calls = { λ r. r.calls };

    ghost faults = { λ r. P.faults r.inner };

    fn faults(&self) -> u64 {
        self.inner.faults()
    }

    fn next(&mut self, into: &mut [u8]) -> Post
        requires { 0 < length into.old }
        ensures fits { FillsFront result (length into.old) }
        ensures came { Meets (P.waiting self.old.inner) (P.waiting self.new.inner) (Receives result into.new) }
        ensures told { Records self.old.calls self.new.calls (posted result into.new) }
        ensures passed { Records (P.calls self.old.inner) (P.calls self.new.inner) (posted result into.new) }
        ensures cause { CountsFailures (P.faults self.old.inner) (P.faults self.new.inner) (IsFailedPost result) }
    {
        let post = self.inner.next(into);
        let kept = KeptPost::of(self.alloc, post, into);
        self.keep(kept);
        post
    }
}

impl<S: Spawner + Drop> Spawner for Recorder<S, KeptSpawnCall> {
    ghost children = { λ r. S.children r.inner };

    ghost calls = { λ r. r.calls };

    ghost faults = { λ r. S.faults r.inner };

    fn faults(&self) -> u64 {
        self.inner.faults()
    }

    fn start(&mut self, alloc: Global, words: &[&[u8]]) -> Started
        ensures chan { Starts result (S.children self.old.inner) (S.children self.new.inner) }
        ensures told { Records self.old.calls self.new.calls (Start (map (λ w. w.now) words.now) result) }
        ensures passed { Records (S.calls self.old.inner) (S.calls self.new.inner) (Start (map (λ w. w.now) words.now) result) }
        ensures cause { CountsFailures (S.faults self.old.inner) (S.faults self.new.inner) (result ≡ Started.Failed) }
    {
        let started = self.inner.start(alloc, words);
        let kept = KeptSpawnCall::start(self.alloc, words, started);
        self.keep(kept);
        started
    }

    fn feed(&mut self, chan: u32, bytes: &[u8]) -> Gave
        ensures same { S.children self.new.inner ≡ S.children self.old.inner }
        ensures told { Records self.old.calls self.new.calls (Feed chan bytes.now result) }
        ensures passed { Records (S.calls self.old.inner) (S.calls self.new.inner) (Feed chan bytes.now result) }
        ensures cause { CountsFailures (S.faults self.old.inner) (S.faults self.new.inner) (result ≡ Gave.Failed) }
    {
        let gave = self.inner.feed(chan, bytes);
        let kept = KeptSpawnCall::feed(self.alloc, chan, bytes, gave);
        self.keep(kept);
        gave
    }

    fn finish(&mut self, chan: u32)
        ensures same { S.children self.new.inner ≡ S.children self.old.inner }
        ensures told { Records self.old.calls self.new.calls (Finish chan) }
        ensures passed { Records (S.calls self.old.inner) (S.calls self.new.inner) (Finish chan) }
        ensures cause { S.faults self.new.inner ≡ S.faults self.old.inner }
    {
        self.inner.finish(chan);
        self.keep(Ok(KeptSpawnCall::new(SpawnCallData::Finish { chan })));
    }

    fn status(&mut self, chan: u32) -> Status
        ensures same { S.children self.new.inner ≡ S.children self.old.inner }
        ensures told { Records self.old.calls self.new.calls (AskStatus chan result) }
        ensures passed { Records (S.calls self.old.inner) (S.calls self.new.inner) (AskStatus chan result) }
        ensures cause { CountsFailures (S.faults self.old.inner) (S.faults self.new.inner) (result ≡ Status.Failed) }
    {
        let status = self.inner.status(chan);
        self.keep(Ok(KeptSpawnCall::new(SpawnCallData::AskStatus { chan, status })));
        status
    }
}
