// The lines of what passes between programs: takings, givings, starts and commands.
ghost use Rattle.std.specs.Prelude.{◌≡◌, ◌++◌, length, OnOk, codes};
ghost use Rattle.mail_bytes.specs.Decimal.{digits};
ghost use Rattle.call_fs.specs.declared.past.NeedData.TheVariants.{Take, Give, Start, Command};
ghost use Rattle.queue_states.specs.Lines.{line_of};
ghost use Rattle.script_traces.specs.Acts.{port_text, with_port, command_line, remote_line, act_line};

use crate::printing::put_number;
use actor_names::ActorName;
use call_fs::{ChildData, GotData, Port};
use mail_bytes::{ByteText, Memory};

/// Puts the line of a taking at the end of a text: how many bytes were taken, 0 of an end or a status. One that failed has
/// no line.
pub fn put_taken(
    text: &mut Vec<u8>,
    actor: &ActorName,
    port: Port,
    came: &GotData,
) -> Result<(), Memory>
    ensures { OnOk result (text.new.items ≡ text.old.items ++ act_line actor.now (Take port) came.now) }
{
    match came {
        GotData::Took(bytes) => put_passed(
            text,
            actor,
            b"take",
            port,
            bytes.as_slice().len() as u64,
        ),
        GotData::End | GotData::Ended(_) | GotData::Crashed => put_passed(
            text, actor, b"take", port, 0,
        ),
        GotData::Answered(_) | GotData::Gave | GotData::Started { .. } => Ok(()),
        GotData::Failed | GotData::Memory => Ok(()),
    }
}

/// Puts the line of a giving at the end of a text. One that failed has no line.
pub fn put_given(
    text: &mut Vec<u8>,
    actor: &ActorName,
    port: Port,
    bytes: &ByteText,
    came: &GotData,
) -> Result<(), Memory>
    ensures { OnOk result (text.new.items ≡ text.old.items ++ act_line actor.now (Give port bytes.now) came.now) }
{
    match came {
        GotData::Gave => put_passed(text, actor, b"give", port, bytes.as_slice().len() as u64),
        GotData::Answered(_) | GotData::Took(_) | GotData::End => Ok(()),
        GotData::Ended(_) | GotData::Crashed | GotData::Started { .. } => Ok(()),
        GotData::Failed | GotData::Memory => Ok(()),
    }
}

/// Puts the line of the start of a remote program at the end of a text. A child's start has a line of its own.
/// The error: out of memory.
pub fn put_started(
    text: &mut Vec<u8>,
    actor: &ActorName,
    child: &ChildData,
    came: &GotData,
) -> Result<(), Memory>
    ensures { OnOk result (text.new.items ≡ text.old.items ++ act_line actor.now (Start child.now) came.now) }
{
    match child {
        ChildData::Remote { slot, .. } => put_remote(text, actor, *slot, came),
        ChildData::Bounce { .. } | ChildData::Forward { .. } | ChildData::Local { .. } => Ok(()),
    }
}

/// Puts the line of a command at the end of a text. One that failed or crashed has no line.
pub fn put_command(text: &mut Vec<u8>, actor: &ActorName, came: &GotData) -> Result<(), Memory>
    ensures { OnOk result (text.new.items ≡ text.old.items ++ command_line actor.now came.now) }
{
    match came {
        GotData::Ended(status) => put_worded(text, actor, b"command = ", *status),
        GotData::Answered(_) | GotData::Took(_) | GotData::End => Ok(()),
        GotData::Crashed | GotData::Gave | GotData::Started { .. } => Ok(()),
        GotData::Failed | GotData::Memory => Ok(()),
    }
}

/// Puts the line of the start of a remote program in this slot at the end of a text.
fn put_remote(text: &mut Vec<u8>, actor: &ActorName, slot: u8, came: &GotData) -> Result<(), Memory>
    ensures { OnOk result (text.new.items ≡ text.old.items ++ remote_line actor.now slot came.now) }
{
    match came {
        GotData::Started { .. } => put_worded(text, actor, b"start ", slot),
        GotData::Answered(_) | GotData::Took(_) | GotData::End => Ok(()),
        GotData::Ended(_) | GotData::Crashed | GotData::Gave => Ok(()),
        GotData::Failed | GotData::Memory => Ok(()),
    }
}

/// Puts a line of an actor, a word and a number at the end of a text.
fn put_worded(text: &mut Vec<u8>, actor: &ActorName, word: &[u8], number: u8) -> Result<(), Memory>
    ensures { OnOk result (text.new.items ≡ text.old.items ++ line_of actor.now (word.now ++ digits number)) }
{
    text.extend_from_slice(actor.as_slice())?;
    text.push(b' ')?;
    text.extend_from_slice(word)?;
    put_number(text, u64::from(number))?;
    text.push(b'\n')?;
    Ok(())
}

/// Puts a line of an actor, a word, a port and a count of bytes at the end of a text.
fn put_passed(
    text: &mut Vec<u8>,
    actor: &ActorName,
    word: &[u8],
    port: Port,
    count: u64,
) -> Result<(), Memory>
    ensures { OnOk result (text.new.items ≡ text.old.items ++ line_of actor.now (with_port word.now port count)) }
{
    text.extend_from_slice(actor.as_slice())?;
    text.push(b' ')?;
    put_with_port(text, word, port, count)?;
    text.push(b'\n')?;
    Ok(())
}

/// Puts a word, a port and a count of bytes at the end of a text.
fn put_with_port(text: &mut Vec<u8>, word: &[u8], port: Port, count: u64) -> Result<(), Memory>
    ensures { OnOk result (text.new.items ≡ text.old.items ++ with_port word.now port count) }
{
    text.extend_from_slice(word)?;
    text.push(b' ')?;
    put_port(text, port)?;
    text.push(b' ')?;
    put_number(text, count)
}

/// Puts the word of a port at the end of a text.
fn put_port(text: &mut Vec<u8>, port: Port) -> Result<(), Memory>
    ensures { OnOk result (text.new.items ≡ text.old.items ++ port_text port) }
{
    match port {
        Port::Input => text.extend_from_slice(b"input"),
        Port::Output => text.extend_from_slice(b"output"),
        Port::Clean => text.extend_from_slice(b"clean"),
        Port::Lspawn => text.extend_from_slice(b"lspawn"),
        Port::Rspawn => text.extend_from_slice(b"rspawn"),
        Port::Todo => text.extend_from_slice(b"todo"),
        Port::Program(slot) => put_numbered(text, b"program.", slot),
        Port::Status(slot) => put_numbered(text, b"status.", slot),
    }
}

/// Puts a word with a number after it at the end of a text.
fn put_numbered(text: &mut Vec<u8>, word: &[u8], number: u8) -> Result<(), Memory>
    ensures { OnOk result (text.new.items ≡ text.old.items ++ (word.now ++ digits number)) }
{
    text.extend_from_slice(word)?;
    put_number(text, u64::from(number))
}
