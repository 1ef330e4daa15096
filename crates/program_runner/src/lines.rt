// The channels of a program, and what came of them.
ghost use Rattle.std.specs.Prelude.{◌≡◌, ◌<◌, ◌++◌, ◌∷◌, [], IfOk, IfSome, OnOk, OnErr, false, is_ok, is_some, length, position, replicate, set, slice_index_or, None};
ghost use Rattle.program_runner.specs.Lines.{HasSome, as_list, channel_of, has_come, has_ended, is_last_of, is_of, is_over, left_at, line_of, link_line, piece_of, program_line, ready_of, status_line};
ghost use Rattle.outside.specs.Children.{FillsFront, posted};
ghost use Rattle.program_runner.specs.Serving.{BringsSome, IsFront, IsGathered, IsHeard, IsTaken, IsTakenBy, after_served, came_with};

use crate::line::Line;
use crate::served::Served;
use call_fs::{PIECE, Port, Ready};
use mail_bytes::{ByteText, Memory};
use outside::{Post, Posts, Waiting};
use std::alloc::{AllocError, Global};
use std::marker::Model;

/// How many deliveries there are.
const DELIVERIES: usize = 256;

/// The channels of a program, what came of them and wasn't taken yet, and which programs' ends were taken.
#[derive(Drop)]
pub struct Lines {
    links: [Option<u32>; 4],
    programs: [Option<u32>; DELIVERIES],
    over: [bool; DELIVERIES],
    kept: Vec<Waiting>,
}

impl Model for Lines {
    ghost use Rattle.std.specs.Prelude.{All};
    ghost use Rattle.program_runner.specs.Lines.{HasSome, LineState};

    ghost Value = { LineState };

    ghost view = { λ l. record { links = l.links; programs = l.programs; over = l.over; kept = l.kept.items } };

    ghost invariant = { λ l. All HasSome l.kept.items };
}

impl Lines {
    /// Lines with these links, in the order of `Ready`, and no program, of which nothing came yet. Takes no memory.
    pub fn new(alloc: Global, links: [Option<u32>; 4]) -> Self
        ensures links { result.links ≡ links }
        ensures programs { result.programs ≡ replicate 256 None }
        ensures over { result.over ≡ replicate 256 false }
        ensures kept { result.kept ≡ [] }
    {
        Lines {
            links,
            programs: [None; DELIVERIES],
            over: [false; DELIVERIES],
            kept: Vec::new(alloc),
        }
    }

    /// What is ready.
    pub fn ready(&self) -> Ready
        ensures { result ≡ ready_of self.now }
    {
        Ready {
            links: [
                self.has_come(self.links[0]),
                self.has_come(self.links[1]),
                self.has_come(self.links[2]),
                self.has_come(self.links[3]),
            ],
            child: self.first_ended(),
        }
    }

    /// Whether something came of this channel.
    fn has_come(&self, chan: Option<u32>) -> bool
        ensures { result ≡ has_come self.now.kept chan }
    {
        match chan {
            None => false,
            Some(chan) => self.first_of(chan).is_some(),
        }
    }

    /// The lowest delivery whose program has ended.
    fn first_ended(&self) -> Option<u8>
        ensures { result ≡ position (has_ended self.now.kept) self.now.programs }
    {
        match self.place_of_ended() {
            None => None,
            Some(place) => Some(place as u8),
        }
    }

    /// The place of the first program that has ended.
    fn place_of_ended(&self) -> Option<usize>
        ensures place { result ≡ position (has_ended self.now.kept) self.now.programs }
        ensures inside { IfSome result (λ place. place < 256) }
    {
        let kept = self.kept.as_slice();
        self.programs
            .iter()
            .position(|program| has_ended(kept, program))
    }

    /// Where the first piece of this channel stands among those that are kept.
    fn first_of(&self, chan: u32) -> Option<usize>
        ensures place { result ≡ position (is_of chan) self.now.kept }
        ensures inside { IfSome result (λ place. place < length self.now.kept) }
    {
        self.kept.iter().position(|piece| channel(piece) == chan)
    }

    /// What this port is.
    pub(crate) fn line(&self, port: Port) -> Line
        ensures { result ≡ line_of self.now port }
    {
        match port {
            Port::Input | Port::Clean => link_line(self.links[0]),
            Port::Output => Line::Output,
            Port::Lspawn => link_line(self.links[1]),
            Port::Rspawn => link_line(self.links[2]),
            Port::Todo => link_line(self.links[3]),
            Port::Program(slot) => program_line(slot, self.programs[slot as usize]),
            Port::Status(slot) => status_line(slot, self.programs[slot as usize]),
        }
    }

    /// The program of this delivery has this channel from now on, or there is none.
    pub(crate) fn set_program(&mut self, slot: u8, chan: Option<u32>)
        ensures { self.new ≡ record self.old { programs = set self.old.programs slot chan } }
    {
        self.programs[slot as usize] = chan;
    }

    /// Whether the program of this delivery, which has this channel, has ended: its end came, or a failure of its output.
    pub(crate) fn is_over(&self, slot: u8, chan: u32) -> bool
        ensures { result ≡ is_over self.now slot chan }
    {
        self.over[slot as usize] || has_ended(self.kept.as_slice(), &Some(chan))
    }

    /// The end of this delivery's program was taken, or the delivery has a new one.
    pub(crate) fn set_over(&mut self, slot: u8, over: bool)
        ensures { self.new ≡ record self.old { over = set self.old.over slot over } }
    {
        self.over[slot as usize] = over;
    }

    /// Asks the posts until nothing is waiting, and keeps what came. Fails only if memory runs out; what came last is then
    /// lost.
    pub(crate) fn gather<P: Posts>(&mut self, alloc: Global, posts: &mut P) -> Result<(), Memory>
        ensures { IsGathered self.old self.new (is_ok result)
            (record { waiting = P.waiting posts.old; asked = P.calls posts.old; faults = P.faults posts.old })
            (record { waiting = P.waiting posts.new; asked = P.calls posts.new; faults = P.faults posts.new }) }
    {
        for _ in 0..u64::MAX {
            match self.hear(alloc, posts) {
                Ok(true) => return Ok(()),
                Ok(false) => {}
                Err(memory) => return Err(memory),
            }
        }
        Err(AllocError)
    }

    /// Asks for a post, keeps what it brings, and answers whether nothing was waiting. Fails only if memory runs out; what
    /// came is then lost.
    fn hear<P: Posts>(&mut self, alloc: Global, posts: &mut P) -> Result<bool, Memory>
        ensures { IsHeard self.old self.new result
            (record { waiting = P.waiting posts.old; asked = P.calls posts.old; faults = P.faults posts.old })
            (record { waiting = P.waiting posts.new; asked = P.calls posts.new; faults = P.faults posts.new }) }
    {
        let mut buffer = [0; PIECE];
        let post = posts.next(&mut buffer);
        match brought_by(alloc, post, &buffer) {
            Ok(None) => Ok(true),
            Ok(Some(piece)) => self.keep(piece),
            Err(memory) => Err(memory),
        }
    }

    /// Keeps this piece, and answers that something was waiting. After an `Err` all is as before. The condition: a piece of
    /// bytes has some.
    fn keep(&mut self, piece: Waiting) -> Result<bool, Memory>
        requires { HasSome piece }
        ensures ok { OnOk result (self.new ≡ record self.old { kept = self.old.kept ++ piece ∷ [] }) }
        ensures more { IfOk result (λ turned. turned ≡ false) }
        ensures err { OnErr result (self.new ≡ self.old) }
    {
        self.kept.push(piece)?;
        Ok(false)
    }

    /// Takes of this channel, into the buffer, at most so many bytes. Fails only if memory runs out, and then nothing was
    /// taken.
    pub(crate) fn take_of(
        &mut self,
        alloc: Global,
        chan: u32,
        most: usize,
        into: &mut [u8; PIECE],
    ) -> Result<Served, Memory>
        ensures ok { IfOk result (λ served. IsTaken chan most served into.new self.old self.new) }
        ensures err { OnErr result (self.new ≡ self.old) }
    {
        let Some(place) = self.first_of(chan) else {
            return Ok(Served::Nothing);
        };
        let (served, rest) = front_of(alloc, &self.kept[place], most, into)?;
        self.leave(place, chan, rest);
        Ok(served)
    }

    /// Takes of the program of this delivery, which has this channel, as `take_of`, and keeps that it has ended if that is
    /// what came.
    pub(crate) fn take_of_program(
        &mut self,
        alloc: Global,
        slot: u8,
        chan: u32,
        most: usize,
        into: &mut [u8; PIECE],
    ) -> Result<Served, Memory>
        ensures ok { IfOk result (λ served. IsTakenBy slot chan most served into.new self.old self.new) }
        ensures err { OnErr result (self.new ≡ self.old) }
    {
        let served = self.take_of(alloc, chan, most, into)?;
        self.note_served(slot, served);
        Ok(served)
    }

    /// Keeps that the program of this delivery has ended, if that was served.
    fn note_served(&mut self, slot: u8, served: Served)
        ensures { self.new ≡ after_served slot served self.old }
    {
        match served {
            Served::End | Served::Failed => self.set_over(slot, true),
            _ => {}
        }
    }

    /// Leaves the rest of a piece of this channel in its place. The condition: a piece stands there.
    fn leave(&mut self, place: usize, chan: u32, rest: ByteText)
        requires { place < length self.old.kept }
        ensures { self.new ≡ record self.old { kept = left_at self.old.kept place chan rest } }
    {
        if rest.is_empty() {
            self.kept.remove(place);
            return;
        }
        self.kept[place] = Waiting::Bytes { chan, bytes: rest };
    }
}

/// The line of a link with this channel.
fn link_line(chan: Option<u32>) -> Line
    ensures { result ≡ link_line chan }
{
    match chan {
        None => Line::Missing,
        Some(chan) => Line::Link(chan),
    }
}

/// The line of this delivery's program with this channel.
fn program_line(slot: u8, chan: Option<u32>) -> Line
    ensures { result ≡ program_line slot chan }
{
    match chan {
        None => Line::Missing,
        Some(chan) => Line::Program(slot, chan),
    }
}

/// The line of the status of this delivery's program with this channel.
fn status_line(slot: u8, chan: Option<u32>) -> Line
    ensures { result ≡ status_line slot chan }
{
    match chan {
        None => Line::Missing,
        Some(chan) => Line::Status(slot, chan),
    }
}

/// The channel that a piece came of.
fn channel(piece: &Waiting) -> u32
    ensures { result ≡ channel_of piece.now }
{
    match piece {
        Waiting::Bytes { chan, .. } | Waiting::End { chan } | Waiting::Failed { chan } => *chan,
    }
}

/// What a taking of at most so many bytes brings of this piece, with the bytes in the buffer, and what it leaves of it.
fn front_of(
    alloc: Global,
    piece: &Waiting,
    most: usize,
    into: &mut [u8; PIECE],
) -> Result<(Served, ByteText), Memory>
    ensures front { IfOk result (λ front. IsFront piece.now most front.0 front.1 into.new) }
    ensures some { HasSome piece.now → IfOk result (λ front. BringsSome most (came_with front.0 into.new)) }
{
    match piece {
        Waiting::Bytes { bytes, .. } => {
            let count = bytes.len().min(most).min(PIECE);
            let rest = ByteText::from_slice(alloc, &bytes.as_slice()[count..])?;
            into[..count].copy_from_slice(&bytes.as_slice()[..count]);
            Ok((Served::Took(count), rest))
        }
        Waiting::End { .. } => Ok((Served::End, ByteText::new(alloc))),
        Waiting::Failed { .. } => Ok((Served::Failed, ByteText::new(alloc))),
    }
}

/// What a post brought, with its bytes in this buffer. The condition: they fit into it.
fn brought_by(alloc: Global, post: Post, buffer: &[u8; PIECE]) -> Result<Option<Waiting>, Memory>
    requires { FillsFront post PIECE }
    ensures brought { IfOk result (λ piece. as_list piece ≡ piece_of post (posted post buffer.now).bytes) }
    ensures some { IfOk result (λ piece. IfSome piece HasSome) }
{
    match post {
        Post::Turn => Ok(None),
        Post::Bytes { chan, len } => {
            let bytes = ByteText::from_slice(alloc, &buffer[..len])?;
            Ok(Some(Waiting::Bytes { chan, bytes }))
        }
        Post::End { chan } => Ok(Some(Waiting::End { chan })),
        Post::Failed { chan } => Ok(Some(Waiting::Failed { chan })),
    }
}

/// Whether the end of this channel came, or a failure.
fn has_ended(kept: &[Waiting], chan: &Option<u32>) -> bool
    ensures { result ≡ has_ended kept.now chan.now }
{
    match *chan {
        None => false,
        Some(chan) => last_of(kept, chan).is_some(),
    }
}

/// Where the end of this channel, or a failure, stands.
fn last_of(kept: &[Waiting], chan: u32) -> Option<usize>
    ensures { result ≡ position (is_last_of chan) kept.now }
{
    kept.iter().position(|piece| is_last_of(chan, piece))
}

/// Whether a piece tells that this channel has ended, or can't be read any more.
fn is_last_of(chan: u32, piece: &Waiting) -> bool
    ensures { result ≡ is_last_of chan piece.now }
{
    match piece {
        Waiting::Bytes { .. } => false,
        Waiting::End { chan: from } | Waiting::Failed { chan: from } => *from == chan,
    }
}
