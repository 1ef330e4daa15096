// A program with channels, and what comes of them.
ghost use Rattle.outside.specs.Children.{FillsFront};

use outside::{Gate, Post, Posts, Spawner, Started};
use proc_runner::{ChildPosts, Children, Opener, Shared, System, Taker, share};
use resting_gates::RestingGate;
use std::alloc::{AllocError, Global};
use std::sync::Wait;
use std::thread::Threads;

/// How many looks in a row find nothing at most: each rests up to a second.
const MOST_LOOKS: u64 = 60;

/// How many bytes a post has at most.
pub const POST: usize = 5000;

/// The posts of a program, where it rests, its children, and what one of them has printed.
#[derive(Drop)]
pub struct Yard<R: Wait + Drop, S: System> {
    pub posts: ChildPosts<R>,
    gate: RestingGate<R>,
    pub children: Children<R, S>,
    pub bytes: Vec<u8>,
}

impl<R: Threads + Wait + Copy + Send + Drop + 'static, S: System> Yard<R, S>
where
    S::Process: Send + Sync + 'static,
    S::Input: Send + 'static,
    S::Output: Send + 'static,
{
    /// No children yet, and room for so many pieces.
    pub fn new(
        rt: R,
        alloc: Global,
        room: usize,
        system: S,
        drain: u64,
    ) -> Result<Self, AllocError> {
        match opened(alloc, room) {
            Ok((opener, queue, taker)) => {
                match Children::new(rt, alloc, system, opener, drain) {
                    Ok(children) => Ok(Yard {
                        posts: ChildPosts::new(rt, taker),
                        gate: RestingGate::new(rt, queue),
                        children,
                        bytes: Vec::new(alloc),
                    }),
                    Err(why) => {
                        drop(queue);
                        drop(taker);
                        Err(why)
                    }
                }
            }
            Err(why) => {
                drop(system);
                Err(why)
            }
        }
    }
}

/// What opens the channels after the program's own, the queue into which all are read, and what takes from it.
fn opened(alloc: Global, room: usize) -> Result<(Opener, Shared, Taker), AllocError> {
    let (mut opener, taker) = share(alloc, room)?;
    match queue_of(&mut opener) {
        Ok(queue) => Ok((opener, queue, taker)),
        Err(why) => {
            drop(opener);
            drop(taker);
            Err(why)
        }
    }
}

/// The queue of an opener, whose first channel is opened, and read by nobody.
fn queue_of(opener: &mut Opener) -> Result<Shared, AllocError> {
    drop(opener.open()?);
    opener.queue()
}

impl<R: Wait + Drop, S: System> Yard<R, S> {
    /// Starts a child, as the channel that is told; 0 if that fails.
    pub fn start(&mut self, alloc: Global, words: &[&[u8]]) -> u32 {
        match self.children.start(alloc, words) {
            Started::Chan { chan, pid: _ } => chan,
            Started::Failed | Started::Memory => 0,
        }
    }

    /// The next post, its bytes at the start of `into`; Turn if none comes for a long time.
    pub fn next(&mut self, into: &mut [u8; POST]) -> Post
        ensures { FillsFront result POST }
    {
        for look in 1..MOST_LOOKS {
            match self.posts.next(into) {
                Post::Turn => self.gate.pause(0, look),
                post => return post,
            }
        }
        Post::Turn
    }

    /// Keeps all that comes until a channel has ended. Answers whether it has, and didn't fail.
    pub fn collect(&mut self) -> bool {
        let mut buffer = [0; POST];
        for _ in 0..1_000_000 {
            match self.next(&mut buffer) {
                Post::Bytes { chan: _, len } => {
                    if self.bytes.extend_from_slice(&buffer[..len]).is_err() {
                        return false;
                    }
                }
                Post::End { chan: _ } => return true,
                Post::Failed { chan: _ } | Post::Turn => return false,
            }
        }
        false
    }
}

/// What came of a channel: how many bytes, whether all were its letter and came before its end, and how often it ended or failed.
#[derive(Clone, Copy)]
pub struct Came {
    pub letter: u8,
    pub bytes: usize,
    pub is_right: bool,
    pub ends: u64,
    pub failures: u64,
}

/// Nothing so far.
pub const NOTHING: Came = Came {
    letter: 0,
    bytes: 0,
    is_right: true,
    ends: 0,
    failures: 0,
};

impl Came {
    fn add(&mut self, bytes: &[u8]) {
        let letter = self.letter;
        let is_right = bytes.iter().all(|byte| *byte == letter);
        self.is_right = self.is_right && is_right && self.ends == 0 && self.failures == 0;
        self.bytes = self.bytes.saturating_add(bytes.len());
    }

    /// A post came. Answers whether it was the last one.
    fn note(&mut self, post: Post, bytes: &[u8]) -> bool {
        match post {
            Post::Bytes { chan: _, len } => {
                self.add(bytes.get(..len).unwrap_or(&[]));
                false
            }
            Post::End { .. } => {
                self.ends = self.ends.saturating_add(1);
                true
            }
            Post::Failed { .. } => {
                self.failures = self.failures.saturating_add(1);
                true
            }
            Post::Turn => false,
        }
    }
}

/// The channel of a post; 0 if it has none.
fn channel(post: Post) -> u32 {
    match post {
        Post::Bytes { chan, .. } | Post::End { chan } | Post::Failed { chan } => chan,
        Post::Turn => 0,
    }
}

/// A post came of one of these channels, from 1 on. Answers whether it was the last one of its channel.
fn note(came: &mut [Came], post: Post, bytes: &[u8]) -> bool {
    let at = channel(post).saturating_sub(1) as usize;
    match came.get_mut(at) {
        Some(one) => one.note(post, bytes),
        None => false,
    }
}

/// Takes posts until these channels, from 1 on, have ended or failed.
pub fn gather<R: Wait + Drop, S: System>(yard: &mut Yard<R, S>, came: &mut [Came]) {
    let mut left = came.len();
    let mut buffer = [0; POST];
    for _ in 0..1_000_000 {
        if left == 0 {
            return;
        }
        let post = yard.next(&mut buffer);
        if note(came, post, &buffer) {
            left = left.saturating_sub(1);
        }
        if post == Post::Turn {
            return;
        }
    }
}
