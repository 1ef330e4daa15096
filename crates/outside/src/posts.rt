// What children and the program's own input send.
ghost use Rattle.std.specs.Prelude.{◌≡◌, ◌<◌, ℕ, List, [], Option, flat_map, if◌then◌else◌, length, map, slice_index_or};
ghost use Rattle.mail_bytes.specs.Told.{Meets, Records, raised};
ghost use Rattle.outside.specs.Streams.{CountsFailures};
ghost use Rattle.outside.specs.Children.{Arrival, FillsFront, IsFailedPost, Posted, Receives, arrivals, is_failure, posted};
ghost use Rattle.outside.specs.Forms.{IsWithin, rest_from};

use crate::source::copy_prefix;
use mail_bytes::ByteText;
use std::marker::Model;

/// What came of asking for a post. Channel 0 is the program's own input, the others are its children.
#[derive(Clone, Copy, PartialEq, Eq)]
pub enum Post {
    /// Bytes of a channel.
    Bytes {
        /// The channel.
        chan: u32,
        /// How many bytes.
        len: usize,
    },
    /// The channel has ended.
    End {
        /// The channel.
        chan: u32,
    },
    /// Nothing is waiting.
    Turn,
    /// The channel couldn't be read; the posts have counted it.
    Failed {
        /// The channel.
        chan: u32,
    },
}

/// What children and the program's own input send, in the order in which it comes.
pub trait Posts {
    /// What is waiting, the first one first, if it tells.
    ghost waiting: { Self → Option (List Arrival) };

    /// The calls for posts so far with their answers, in order, if it keeps them.
    ghost calls: { Self → Option (List Posted) };

    /// How often it has failed; the count never falls, and stands still at u64's last value.
    ghost faults: { Self → ℕ };

    /// How often it has failed.
    fn faults(&self) -> u64
        ensures { result ≡ faults self.now };

    /// The next post, its bytes at the start of `into`: at least one, and at most as many as there is room for.
    /// `Turn` if nothing is waiting. The condition: there is room.
    fn next(&mut self, into: &mut [u8]) -> Post
        requires { 0 < length into.old }
        ensures fits { FillsFront result (length into.old) }
        ensures came { Meets (waiting self.old) (waiting self.new) (Receives result into.new) }
        ensures told { Records (calls self.old) (calls self.new) (posted result into.new) }
        ensures cause { CountsFailures (faults self.old) (faults self.new) (IsFailedPost result) };
}

/// A post of a form in memory.
#[derive(Drop)]
pub enum Waiting {
    /// Bytes of a channel.
    Bytes {
        /// The channel.
        chan: u32,
        /// The bytes; a post without bytes is passed over.
        bytes: ByteText,
    },
    /// The end of a channel.
    End {
        /// The channel.
        chan: u32,
    },
    /// A failure of a channel.
    Failed {
        /// The channel.
        chan: u32,
    },
}

/// Posts in memory: one after another, and then nothing more.
#[derive(Drop)]
pub struct MemPosts {
    posts: Vec<Waiting>,
    at: usize,
    given: usize,
    faults: u64,
}

impl Model for MemPosts {
    ghost use Rattle.std.specs.Prelude.{map};
    ghost use Rattle.outside.specs.Children.{arrivals};
    ghost use Rattle.outside.specs.Forms.{PostsForm, IsWithin, rest_from};

    ghost Value = { PostsForm };

    ghost view = { λ p. record { waiting = rest_from (map arrivals p.posts.items) p.at p.given; faults = p.faults } };

    ghost invariant = { λ p. IsWithin (map arrivals p.posts.items) p.at p.given };
}

impl MemPosts {
    /// These posts, one after another.
    pub fn new(posts: Vec<Waiting>) -> Self
        ensures { result ≡ record { waiting = flat_map (λ p. p) (map arrivals posts.items); faults = 0 } }
    {
        MemPosts {
            posts,
            at: 0,
            given: 0,
            faults: 0,
        }
    }
}

impl Posts for MemPosts {
    ghost use Rattle.std.specs.Prelude.{Some, None};

    ghost waiting = { λ p. Some p.waiting };

    ghost calls = { λ _. None };

    ghost faults = { λ p. p.faults };

    fn faults(&self) -> u64 {
        self.faults
    }

    fn next(&mut self, into: &mut [u8]) -> Post
        requires { 0 < length into.old }
        ensures fits { FillsFront result (length into.old) }
        ensures came { Receives result into.new self.old.waiting self.new.waiting }
        ensures cause { CountsFailures self.old.faults self.new.faults (IsFailedPost result) }
        ensures counted { self.new.faults ≡ (if is_failure result then raised self.old.faults else self.old.faults) }
    {
        let (at, given) = next_waiting(self.posts.as_slice(), self.at, self.given);
        self.at = at;
        self.given = given;
        if at >= self.posts.len() {
            return Post::Turn;
        }
        match &self.posts[at] {
            Waiting::Bytes { chan, bytes } => {
                let chan = *chan;
                let len = copy_prefix(&bytes.as_slice()[given..], into);
                self.given = given + len;
                Post::Bytes { chan, len }
            }
            Waiting::End { chan } => {
                self.given = 1;
                Post::End { chan: *chan }
            }
            Waiting::Failed { chan } => {
                self.given = 1;
                self.faults = self.faults.saturating_add(1);
                Post::Failed { chan: *chan }
            }
        }
    }
}

/// The first post from `at` on that isn't used up, and how much of it is given; past the end if there is none. The
/// condition: of the post at `at` no more is given than it has.
fn next_waiting(posts: &[Waiting], mut at: usize, mut given: usize) -> (usize, usize)
    requires { IsWithin (map arrivals posts.now) at given }
    ensures same { rest_from (map arrivals posts.now) result.0 result.1 ≡ rest_from (map arrivals posts.now) at given }
    ensures within { IsWithin (map arrivals posts.now) result.0 result.1 }
    ensures more { result.0 < length posts.now
        → result.1 < length (slice_index_or (map arrivals posts.now) result.0 []) }
{
    while at < posts.len() && given == size(&posts[at]) {
        at += 1;
        given = 0;
    }
    (at, given)
}

/// How many bytes a post has; the end and a failure count as one.
fn size(post: &Waiting) -> usize
    ensures { result ≡ length (arrivals post.now) }
{
    match post {
        Waiting::Bytes { bytes, .. } => bytes.len(),
        Waiting::End { .. } | Waiting::Failed { .. } => 1,
    }
}
