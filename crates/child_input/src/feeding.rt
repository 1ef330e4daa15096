// What the program feeds a child, and what its writer takes of that.
ghost use Rattle.std.specs.Prelude.{◌≡◌, [], true, None, IfOk, IfSome, IfNone};
ghost use Rattle.std.specs.Arc.{arc_value};
ghost use Rattle.crossbeam_queue.specs.SegTies.{IsSeatOf, IsSegPassOf};
ghost use Rattle.child_input.specs.Feedings.{EndsOnce, IsPrefixOf, Steps, WritesFed, after_end, after_feeding, fed_if, feeder, feeding_of, nothing_fed, taken_on, writer};

use crate::feed_rule::{Ends, Fed, Feed, Feeds, InTurn, Step, Takes};
use crate::writing::{low_half, write_text};
use crossbeam_queue::{RuledSegQueue, SegPass};
use mail_bytes::Memory;
use std::alloc::Global;
use std::io::Write;
use std::sync::atomic::{AtomicU64, Ordering};
use std::sync::{Arc, Wait};

/// What the program, or a writer, holds of what a child is fed. It has no bytes.
type FeedPass = SegPass<Fed, Feed>;

/// What the program feeds a child and its writer writes, oldest first. Neither waits for the other.
pub(crate) struct Inlet {
    line: RuledSegQueue<Fed, Feed, InTurn>,
    changes: AtomicU64,
    is_given_up: AtomicU64,
}

impl Drop for Inlet {
    fn drop(self) {
        let Self {
            line,
            changes: _,
            is_given_up: _,
        } = self;
        line.destroy();
    }
}

/// The program's end of what a child is fed.
#[derive(Drop)]
pub struct Feeder {
    inlet: Arc<Inlet, Global>,
    pass: FeedPass,
    is_open: bool,
    ghost feeds: { IsSegPassOf (arc_value inlet).line pass × (pass.me.view.client ≡ feeder pass.me.view.client.fed) },
}

/// The writer's end of what a child is fed, of which nothing was taken yet. It can be handed to a thread.
#[derive(Drop)]
pub struct Writer {
    inlet: Arc<Inlet, Global>,
    pass: FeedPass,
    ghost writes: { IsSegPassOf (arc_value inlet).line pass × (pass.me.view.client ≡ writer []) },
}

/// What is left of a writer that is through: what it has taken, and whether all of that was written.
#[derive(Drop)]
pub struct Written {
    pass: FeedPass,
    is_whole: bool,
    ghost writes: { (pass.me.hand ≡ None) × (pass.me.spare ≡ None) × (pass.me.view.client ≡ writer pass.me.view.client.taken) },
}

/// The two ends of what a new child is fed.
pub fn feed_ends(alloc: Global) -> Result<(Feeder, Writer), Memory>
    ensures nothing { IfOk result (λ ends. feeding_of ends.0.pass.me.view.client ends.0.is_open ≡ nothing_fed) }
    ensures queue { IfOk result (λ ends. IsSeatOf (arc_value ends.0.inlet).line ends.1.pass) }
{
    let (line, mut feeding) = RuledSegQueue::with_rule(alloc)?;
    let writing = line.another::<Ends>(&mut feeding);
    let inlet = Inlet {
        line,
        changes: AtomicU64::new(0),
        is_given_up: AtomicU64::new(0),
    };
    let inlet = Arc::new(alloc, inlet)?;
    let other = Arc::try_clone(&inlet)?;
    let feeder = Feeder {
        inlet,
        pass: feeding,
        is_open: true,
    };
    let writer = Writer {
        inlet: other,
        pass: writing,
    };
    Ok((feeder, writer))
}

impl Inlet {
    fn tell(&self) {
        self.changes.fetch_add(1, Ordering::SeqCst);
        self.changes.wake_all();
    }

    /// Nothing more is taken, and what is left needn't be written.
    fn give_up(&self) {
        self.is_given_up.store(1, Ordering::SeqCst);
        self.tell();
    }

    fn is_given_up(&self) -> bool {
        self.is_given_up.load(Ordering::SeqCst) != 0
    }

    /// The oldest of what was fed and wasn't taken yet, if there is any.
    fn take<R: Wait>(&self, rt: &R, pass: &mut FeedPass) -> Option<Fed>
        requires { IsSegPassOf self.now.line pass.old × (pass.old.me.view.client.writes ≡ true) }
        ensures pass { IsSegPassOf self.now.line pass.new }
        ensures some { IfSome result (λ x. pass.new.me.view.client ≡ taken_on pass.old.me.view.client x) }
        ensures none { IfNone result (pass.new.me.view.client ≡ pass.old.me.view.client) }
    {
        self.line.pop_as::<Takes, R>(rt, pass)
    }

    /// Writes the next of what was fed.
    fn write_next<R: Wait, I: Write>(&self, rt: &R, pass: &mut FeedPass, input: &mut I) -> Step
        requires { IsSegPassOf self.now.line pass.old × (pass.old.me.view.client ≡ writer pass.old.me.view.client.taken) }
        ensures pass { IsSegPassOf self.now.line pass.new × (pass.new.me.view.client ≡ writer pass.new.me.view.client.taken) }
        ensures wrote { Steps result (I.contents input.old) (I.contents input.new) pass.old.me.view.client.taken pass.new.me.view.client.taken }
    {
        match self.take(rt, pass) {
            Some(Fed::Text(text)) => {
                if write_text(input, text.as_slice()) {
                    Step::Wrote
                } else {
                    Step::Broke
                }
            }
            Some(Fed::End) => Step::Over,
            None => Step::Nothing,
        }
    }

    /// Writes what is fed, in order, until the input is ended or a write fails. Answers whether all was written.
    fn write_all<R: Wait, I: Write>(&self, rt: &R, pass: &mut FeedPass, input: &mut I) -> bool
        requires { IsSegPassOf self.now.line pass.old × (pass.old.me.view.client ≡ writer []) }
        ensures pass { IsSegPassOf self.now.line pass.new × (pass.new.me.view.client ≡ writer pass.new.me.view.client.taken) }
        ensures wrote { WritesFed result (I.contents input.old) (I.contents input.new) pass.new.me.view.client.taken }
    {
        for _ in rt.forever() {
            let seen = self.changes.load(Ordering::SeqCst);
            match self.write_next(rt, pass, input) {
                Step::Wrote => {}
                Step::Over => return true,
                Step::Broke => return false,
                Step::Nothing if self.is_given_up() => return false,
                Step::Nothing => self.changes.park(rt, low_half(seen)),
            }
        }
        unreachable!()
    }

    /// Puts this behind what was fed. Answers whether there was memory for it.
    fn put<R: Wait>(&self, rt: &R, pass: &mut FeedPass, fed: Fed) -> bool
        requires { IsSegPassOf self.now.line pass.old × (pass.old.me.view.client.feeds ≡ true) }
        ensures pass { IsSegPassOf self.now.line pass.new }
        ensures put { pass.new.me.view.client ≡ fed_if result pass.old.me.view.client fed }
    {
        let is_put = self.line.push_as::<Feeds, R>(rt, pass, fed).is_ok();
        self.tell();
        is_put
    }
}

impl Feeder {
    /// Puts a text behind those that are to be written. Answers whether it was taken: not after a failure, nor after the input
    /// was ended, nor after a write has failed, nor if there is no memory for it.
    pub fn feed<R: Wait>(&mut self, rt: &R, text: Vec<u8>) -> bool
        ensures fed { feeding_of self.new.pass.me.view.client self.new.is_open ≡ after_feeding result text.items (feeding_of self.old.pass.me.view.client self.old.is_open) }
        ensures open { result ≡ true → self.old.is_open ≡ true }
        ensures queue { arc_value self.new.inlet ≡ arc_value self.old.inlet }
    {
        if !self.is_open || self.inlet.is_given_up() {
            self.is_open = false;
            return false;
        }
        let is_fed = self.inlet.put(rt, &mut self.pass, Fed::Text(text));
        self.is_open = is_fed;
        is_fed
    }

    /// Feeds a copy of these bytes, as `feed`.
    pub fn feed_copy<R: Wait>(&mut self, rt: &R, alloc: Global, bytes: &[u8]) -> bool
        ensures fed { feeding_of self.new.pass.me.view.client self.new.is_open ≡ after_feeding result bytes.now (feeding_of self.old.pass.me.view.client self.old.is_open) }
        ensures open { result ≡ true → self.old.is_open ≡ true }
    {
        match copy_of(alloc, bytes) {
            Ok(text) => self.feed(rt, text),
            Err(_) => {
                self.is_open = false;
                false
            }
        }
    }

    /// Nothing more is fed, and what wasn't written yet needn't be.
    pub fn give_up(&mut self)
        ensures fed { feeding_of self.new.pass.me.view.client self.new.is_open ≡ after_end (feeding_of self.old.pass.me.view.client self.old.is_open) }
        ensures queue { arc_value self.new.inlet ≡ arc_value self.old.inlet }
    {
        self.is_open = false;
        self.inlet.give_up();
    }

    /// Ends the input: it is closed once all is written. Answers whether that was taken: not if there is no memory for it. Then
    /// what wasn't written yet needn't be.
    pub fn end<R: Wait>(&mut self, rt: &R) -> bool
        ensures once { EndsOnce result self.old.is_open self.old.pass.me.view.client self.new.pass.me.view.client }
        ensures fed { feeding_of self.new.pass.me.view.client self.new.is_open ≡ after_end (feeding_of self.old.pass.me.view.client self.old.is_open) }
        ensures queue { arc_value self.new.inlet ≡ arc_value self.old.inlet }
    {
        if !self.is_open {
            return true;
        }
        self.is_open = false;
        let is_ended = self.inlet.put(rt, &mut self.pass, Fed::End);
        if !is_ended {
            self.inlet.give_up();
        }
        is_ended
    }

    /// What a writer has taken is a prefix of what was fed. The condition: it is the writer of the same queue.
    pub fn compare<R: Wait>(&mut self, rt: &R, written: Written) -> Written
        requires { IsSeatOf (arc_value self.old.inlet).line written.pass }
        ensures prefix { IsPrefixOf written.pass.me.view.client.taken self.old.pass.me.view.client.fed }
        ensures same { (result.is_whole ≡ written.is_whole) × (result.pass.me.view.client ≡ written.pass.me.view.client) }
        ensures fed { (self.new.pass.me.view.client ≡ self.old.pass.me.view.client) × (self.new.is_open ≡ self.old.is_open) }
    {
        let Written { pass, is_whole } = written;
        let line = &self.inlet.line;
        line.absorb::<Ends>(&mut self.pass, pass);
        let _ = line.len_as::<Ends, R>(rt, &mut self.pass);
        let pass = line.another::<Ends>(&mut self.pass);
        Written { pass, is_whole }
    }
}

impl Writer {
    /// Writes what is fed, in order, until the input is ended or a write fails; then nothing more is taken.
    pub fn write<R: Wait, I: Write>(self, rt: &R, input: &mut I) -> Written
        ensures wrote { WritesFed result.is_whole (I.contents input.old) (I.contents input.new) result.pass.me.view.client.taken }
        ensures queue { IsSeatOf (arc_value self.inlet).line result.pass }
    {
        let Writer { inlet, mut pass } = self;
        let is_whole = inlet.write_all(rt, &mut pass, input);
        if !is_whole {
            inlet.give_up();
        }
        Written { pass, is_whole }
    }
}

impl Written {
    /// Whether all that was fed was written, to the end of the input.
    pub fn is_whole(&self) -> bool
        ensures { result ≡ self.now.is_whole }
    {
        self.is_whole
    }
}

fn copy_of(alloc: Global, bytes: &[u8]) -> Result<Vec<u8>, Memory>
    ensures { IfOk result (λ text. text.items ≡ bytes.now) }
{
    let mut text = Vec::with_capacity(alloc, bytes.len())?;
    text.extend_from_slice(bytes)?;
    Ok(text)
}
