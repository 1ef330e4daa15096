// The lines of what an actor did.
ghost use Rattle.std.specs.Prelude.{◌≡◌, ◌++◌, OnOk, codes};
ghost use Rattle.call_fs.specs.declared.past.NeedData.TheVariants.{File};
ghost use Rattle.queue_states.specs.Lines.{line_of};
ghost use Rattle.script_traces.specs.Acts.{with_path, with_descriptor, with_count, call_text, answer_text, refusal_text, count_told, act_line};

use crate::passing::{put_command, put_given, put_started, put_taken};
use crate::printing::{put_escaped, put_number};
use actor_names::ActorName;
use call_fs::{Answer, CallData, Fd, FsError, GotData, NeedData, Own};
use mail_bytes::Memory;
use std::alloc::Global;

/// Puts the line of what an actor did at the end of a text, by what was due to it and what came of it; no line where nothing was done, or
/// where something failed that is no file call.
pub fn put_act(
    alloc: Global,
    text: &mut Vec<u8>,
    actor: &ActorName,
    own: &Own,
) -> Result<(), Memory>
    ensures { OnOk result (text.new.items ≡ text.old.items ++ act_line actor.now own.now.due own.now.came) }
{
    match &own.due {
        NeedData::File(call) => put_came(alloc, text, actor, call, &own.came),
        NeedData::Take(port) => put_taken(text, actor, *port, &own.came),
        NeedData::Give(port, bytes) => put_given(text, actor, *port, bytes, &own.came),
        NeedData::Start(child) => put_started(text, actor, child.get(), &own.came),
        NeedData::Command(_) => put_command(text, actor, &own.came),
        NeedData::Wait | NeedData::Ended(_) => Ok(()),
    }
}

/// Puts the line of a call and what came of it at the end of a text.
fn put_came(
    alloc: Global,
    text: &mut Vec<u8>,
    actor: &ActorName,
    call: &CallData,
    came: &GotData,
) -> Result<(), Memory>
    ensures { OnOk result (text.new.items ≡ text.old.items ++ act_line actor.now (File call.now) came.now) }
{
    match came {
        GotData::Answered(told) => put_call(alloc, text, actor, call, &told.answer.copy()),
        GotData::Took(_) | GotData::End | GotData::Gave => Ok(()),
        GotData::Ended(_) | GotData::Crashed | GotData::Started { .. } => Ok(()),
        GotData::Failed | GotData::Memory => Ok(()),
    }
}

/// Puts the line of a call and its answer at the end of a text.
fn put_call(
    alloc: Global,
    text: &mut Vec<u8>,
    actor: &ActorName,
    call: &CallData,
    answer: &Answer,
) -> Result<(), Memory>
    ensures { OnOk result (text.new.items ≡ text.old.items
        ++ line_of actor.now (call_text call.now answer.now ++ (codes " = " ++ answer_text answer.now))) }
{
    text.extend_from_slice(actor.as_slice())?;
    text.push(b' ')?;
    put_call_text(alloc, text, call, answer)?;
    text.extend_from_slice(b" = ")?;
    put_answer(alloc, text, answer)?;
    text.push(b'\n')?;
    Ok(())
}

/// Puts a call at the end of a text: a read with the count that it got, a write with that of its bytes, a truncate with
/// the length that it asks for.
fn put_call_text(
    alloc: Global,
    text: &mut Vec<u8>,
    call: &CallData,
    answer: &Answer,
) -> Result<(), Memory>
    ensures { OnOk result (text.new.items ≡ text.old.items ++ call_text call.now answer.now) }
{
    match call {
        CallData::CreateExcl(name) => put_with_path(alloc, text, b"create", name.as_slice()),
        CallData::Open(name, _) => put_with_path(alloc, text, b"open", name.as_slice()),
        CallData::ReadAt(fd, _, _) => put_with_count(text, b"read", *fd, count_of(answer)),
        CallData::WriteAt(fd, _, bytes) => {
            put_with_count(text, b"write", *fd, bytes.as_slice().len() as u64)
        }
        CallData::Append(fd, bytes) => {
            put_with_count(text, b"append", *fd, bytes.as_slice().len() as u64)
        }
        CallData::Truncate(fd, len) => put_with_count(text, b"truncate", *fd, *len),
        CallData::Sync(fd) => put_with_descriptor(text, b"sync", *fd),
        CallData::Close(fd) => put_with_descriptor(text, b"close", *fd),
        CallData::Link(old, new) => {
            put_with_path(alloc, text, b"link", old.as_slice())?;
            text.push(b' ')?;
            put_escaped(alloc, text, new.as_slice())
        }
        CallData::Unlink(name) => put_with_path(alloc, text, b"unlink", name.as_slice()),
        CallData::Stat(name) => put_with_path(alloc, text, b"stat", name.as_slice()),
        CallData::NextName(dir, _) => put_with_path(alloc, text, b"next", dir.as_slice()),
    }
}

/// How many bytes a read got; none if it was refused.
fn count_of(answer: &Answer) -> u64
    ensures { result ≡ count_told answer.now }
{
    match answer {
        Answer::Count(count) => *count,
        _ => 0,
    }
}

/// Puts a word and a path at the end of a text.
fn put_with_path(alloc: Global, text: &mut Vec<u8>, word: &[u8], path: &[u8]) -> Result<(), Memory>
    ensures { OnOk result (text.new.items ≡ text.old.items ++ with_path word.now path.now) }
{
    text.extend_from_slice(word)?;
    text.push(b' ')?;
    put_escaped(alloc, text, path)
}

/// Puts a word and a descriptor at the end of a text.
fn put_with_descriptor(text: &mut Vec<u8>, word: &[u8], fd: Fd) -> Result<(), Memory>
    ensures { OnOk result (text.new.items ≡ text.old.items ++ with_descriptor word.now fd) }
{
    text.extend_from_slice(word)?;
    text.extend_from_slice(b" #")?;
    put_number(text, fd.0)
}

/// Puts a word, a descriptor and a count of bytes at the end of a text.
fn put_with_count(text: &mut Vec<u8>, word: &[u8], fd: Fd, count: u64) -> Result<(), Memory>
    ensures { OnOk result (text.new.items ≡ text.old.items ++ with_count word.now fd count) }
{
    put_with_descriptor(text, word, fd)?;
    text.push(b' ')?;
    put_number(text, count)
}

/// Puts an answer at the end of a text.
fn put_answer(alloc: Global, text: &mut Vec<u8>, answer: &Answer) -> Result<(), Memory>
    ensures { OnOk result (text.new.items ≡ text.old.items ++ answer_text answer.now) }
{
    match answer {
        Answer::Created(_, number) => put_number(text, *number),
        Answer::Opened(_) => text.extend_from_slice(b"ok"),
        Answer::Count(_) => text.extend_from_slice(b"ok"),
        Answer::Done => text.extend_from_slice(b"ok"),
        Answer::Stat(_) => text.extend_from_slice(b"ok"),
        Answer::Name(name) => put_escaped(alloc, text, name.as_slice()),
        Answer::NoName => text.extend_from_slice(b"none"),
        Answer::Refused(why) => text.extend_from_slice(refusal_text(*why)),
    }
}

/// The word of a refusal. A play is over at a call without memory, so that the last one is never printed.
fn refusal_text(why: FsError) -> &'static [u8]
    ensures { result.now ≡ refusal_text why }
{
    match why {
        FsError::NotThere => b"notthere",
        FsError::Exists => b"exists",
        FsError::Fault => b"fault",
        FsError::Memory => b"memory",
    }
}
