// Calls as they are kept, with their answers.
ghost use Rattle.std.specs.Prelude.{◌≡◌, ◌≤◌, [], IfOk, length, map, take};
ghost use Rattle.outside.specs.Children.{FillsFront, posted};
ghost use Rattle.outside.specs.Children.SpawnCall.{Start, Feed};
ghost use Rattle.outside.specs.Recording.{spawn_call_of};

use crate::posts::Post;
use crate::sink::Gave;
use crate::spawner::{Started, Status, texts_of};
use mail_bytes::{ByteText, Memory};
use std::alloc::Global;
use std::marker::Model;

/// A call for a post: what was answered, and the bytes that came.
#[derive(Drop)]
pub struct KeptPost {
    answer: Post,
    bytes: ByteText,
}

impl Model for KeptPost {
    ghost use Rattle.outside.specs.Children.{Posted};

    ghost Value = { Posted };

    ghost view = { λ p. record { answer = p.answer; bytes = p.bytes } };
}

impl KeptPost {
    /// This answer, whose bytes stand at the start of `into`. The error: out of memory. The condition: they do.
    pub fn of(alloc: Global, answer: Post, into: &[u8]) -> Result<Self, Memory>
        requires { FillsFront answer (length into.now) }
        ensures { IfOk result (λ kept. kept ≡ posted answer into.now) }
    {
        let bytes = match answer {
            Post::Bytes { len, .. } => ByteText::from_slice(alloc, &into[..len])?,
            _ => ByteText::new(alloc),
        };
        Ok(KeptPost { answer, bytes })
    }

    /// What was answered.
    pub fn answer(&self) -> Post
        ensures { result ≡ self.now.answer }
    {
        self.answer
    }

    /// The bytes that came.
    pub fn bytes(&self) -> &[u8]
        ensures { result.now ≡ self.now.bytes }
    {
        self.bytes.as_slice()
    }
}

/// A call of a spawner with its answer, with bytes of its own.
#[derive(Drop)]
pub enum SpawnCallData {
    /// `start` with these words.
    Start {
        /// The words.
        words: Vec<ByteText>,
        /// What was answered.
        started: Started,
    },
    /// `feed`.
    Feed {
        /// The child's channel.
        chan: u32,
        /// The bytes that it was to take.
        bytes: ByteText,
        /// What was answered.
        gave: Gave,
    },
    /// `finish`.
    Finish {
        /// The child's channel.
        chan: u32,
    },
    /// `status`.
    AskStatus {
        /// The child's channel.
        chan: u32,
        /// What was answered.
        status: Status,
    },
}

/// The same as it is kept; contracts see it as the call and its answer.
#[derive(Drop)]
pub struct KeptSpawnCall {
    call: SpawnCallData,
}

impl Model for KeptSpawnCall {
    ghost use Rattle.outside.specs.Children.{SpawnCall};
    ghost use Rattle.outside.specs.Recording.{spawn_call_of};

    ghost Value = { SpawnCall };

    ghost view = { λ c. spawn_call_of c.call };
}

impl KeptSpawnCall {
    /// This call.
    pub fn new(call: SpawnCallData) -> Self
        ensures { result ≡ spawn_call_of call }
    {
        KeptSpawnCall { call }
    }

    /// A start with these words. The error: out of memory.
    pub fn start(alloc: Global, words: &[&[u8]], started: Started) -> Result<Self, Memory>
        ensures { IfOk result (λ kept. kept ≡ Start (map (λ w. w.now) words.now) started) }
    {
        let words = texts_of(alloc, words)?;
        Ok(KeptSpawnCall::new(SpawnCallData::Start { words, started }))
    }

    /// A feeding of these bytes. The error: out of memory.
    pub fn feed(alloc: Global, chan: u32, bytes: &[u8], gave: Gave) -> Result<Self, Memory>
        ensures { IfOk result (λ kept. kept ≡ Feed chan bytes.now gave) }
    {
        let bytes = ByteText::from_slice(alloc, bytes)?;
        Ok(KeptSpawnCall::new(SpawnCallData::Feed { chan, bytes, gave }))
    }

    /// The call with its answer.
    pub fn call(&self) -> &SpawnCallData
        ensures { spawn_call_of result.now ≡ self.now }
    {
        &self.call
    }
}
