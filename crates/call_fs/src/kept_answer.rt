// An answer as it is kept.
ghost use Rattle.std.specs.Prelude.{◌≡◌, ◌≤◌, [], IfOk, length, vec_len, vec_capacity};
ghost use Rattle.call_fs.specs.Kept.{answer_of, IsShort, HasRoomForName};

use crate::{Answer, Fd, FsError, Stat};
use mail_bytes::{ByteText, Memory, NameBuf};
use std::alloc::Global;
use std::marker::Model;

/// An answer with a name of its own on the heap, so that it takes less room than an `Answer`; contracts see it as that answer.
#[derive(Debug, Drop)]
pub struct KeptAnswer {
    short: Short,
}

/// The cases of an answer.
#[derive(Debug, Drop)]
enum Short {
    /// As `Answer::Created`.
    Created(Fd, u64),
    /// As `Answer::Opened`.
    Opened(Fd),
    /// As `Answer::Count`.
    Count(u64),
    /// As `Answer::Done`.
    Done,
    /// As `Answer::Stat`.
    Stat(Stat),
    /// As `Answer::Name`.
    Name(ByteText),
    /// As `Answer::NoName`.
    NoName,
    /// As `Answer::Refused`.
    Refused(FsError),
}

impl Model for KeptAnswer {
    ghost use Rattle.call_fs.specs.declared.calls.Answer.{Answer};
    ghost use Rattle.call_fs.specs.Kept.{answer_of, IsShort};

    ghost Value = { Answer };

    ghost view = { λ k. answer_of k.short };

    ghost invariant = { λ k. IsShort k.short };
}

impl KeptAnswer {
    /// The same answer. The error: out of memory.
    pub fn of(alloc: Global, answer: &Answer) -> Result<KeptAnswer, Memory>
        ensures { IfOk result (λ kept. kept ≡ answer.now) }
    {
        let room = room_for(alloc, answer)?;
        Ok(KeptAnswer::in_room(room, answer))
    }

    /// The same answer, whose name takes this room, if it has one. Takes no memory. The conditions: the room is empty, and
    /// has place for any name if the answer has one.
    pub fn in_room(room: Vec<u8>, answer: &Answer) -> KeptAnswer
        requires empty { room.items ≡ [] }
        requires len { vec_len room ≡ 0 }
        requires place { HasRoomForName (vec_capacity room) answer.now }
        ensures { result ≡ answer.now }
    {
        KeptAnswer {
            short: shortened(room, answer),
        }
    }

    /// The answer, with its name in place. Takes no memory.
    pub fn copy(&self) -> Answer
        ensures { result ≡ self.now }
    {
        match &self.short {
            Short::Created(fd, number) => Answer::Created(*fd, *number),
            Short::Opened(fd) => Answer::Opened(*fd),
            Short::Count(count) => Answer::Count(*count),
            Short::Done => Answer::Done,
            Short::Stat(stat) => Answer::Stat(*stat),
            Short::Name(name) => Answer::Name(in_place(name)),
            Short::NoName => Answer::NoName,
            Short::Refused(why) => Answer::Refused(*why),
        }
    }
}

/// Room for the name of an answer, if it has one. The error: out of memory.
fn room_for(alloc: Global, answer: &Answer) -> Result<Vec<u8>, Memory>
    ensures empty { IfOk result (λ room. room.items ≡ []) }
    ensures len { IfOk result (λ room. vec_len room ≡ 0) }
    ensures place { IfOk result (λ room. HasRoomForName (vec_capacity room) answer.now) }
{
    match answer {
        Answer::Name(_) => Vec::with_capacity(alloc, 255),
        _ => Ok(Vec::new(alloc)),
    }
}

/// The same answer, whose name takes this room, if it has one. Takes no memory. The conditions: as above.
fn shortened(room: Vec<u8>, answer: &Answer) -> Short
    requires empty { room.items ≡ [] }
    requires len { vec_len room ≡ 0 }
    requires place { HasRoomForName (vec_capacity room) answer.now }
    ensures same { answer_of result ≡ answer.now }
    ensures short { IsShort result }
{
    match answer {
        Answer::Created(fd, number) => Short::Created(*fd, *number),
        Answer::Opened(fd) => Short::Opened(*fd),
        Answer::Count(count) => Short::Count(*count),
        Answer::Done => Short::Done,
        Answer::Stat(stat) => Short::Stat(*stat),
        Answer::Name(name) => Short::Name(filled(room, name)),
        Answer::NoName => Short::NoName,
        Answer::Refused(why) => Short::Refused(*why),
    }
}

/// A name in this room, of which it leaves nothing over. Takes no memory. The conditions: the room is empty, and has place for any name.
fn filled(mut room: Vec<u8>, name: &NameBuf) -> ByteText
    requires empty { room.items ≡ [] }
    requires len { vec_len room ≡ 0 }
    requires place { 255 ≤ vec_capacity room }
    ensures name { result ≡ name.now }
    ensures short { length result ≤ 255 }
{
    room.extend_from_slice(name.as_slice()).unwrap();
    room.shrink_to_fit();
    ByteText::from_vec(room)
}

/// A name in place. The condition: it has room there.
fn in_place(text: &ByteText) -> NameBuf
    requires { length text.now ≤ 255 }
    ensures { result ≡ text.now }
{
    let mut name = NameBuf::new();
    name.extend(text.as_slice()).unwrap();
    name
}
