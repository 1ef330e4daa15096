// What injectors are started with.
ghost use Rattle.std.specs.Prelude.{◌≡◌, IfOk};
ghost use Rattle.world_events.specs.Inputs.{unfed};
ghost use Rattle.world_events.specs.Mails.{mail};
ghost use Rattle.world_events.specs.declared.event.Program.TheVariants.{Injector};

use crate::Program;
use mail_bytes::{ByteText, Memory, OnHeap};
use queue_inject::{Arguments, InputEnd};
use received_line::Invoked;
use std::alloc::Global;

/// The user whose mails a script starts.
pub const MAIL_USER: u32 = 1000;

/// What a mail runs: an injector. The error: out of memory.
pub fn mail_program(
    alloc: Global,
    pid: u32,
    start: u64,
    message: &[u8],
    envelope: &[u8],
) -> Result<OnHeap<Program>, Memory>
    ensures { IfOk result (λ program. program ≡ Injector (mail pid start message.now envelope.now)) }
{
    let arguments = mail_of(alloc, pid, start, message, envelope)?;
    OnHeap::new(alloc, Program::Injector(arguments))
}

/// What the injector of a mail is started with. The error: out of memory.
fn mail_of(
    alloc: Global,
    pid: u32,
    start: u64,
    message: &[u8],
    envelope: &[u8],
) -> Result<Arguments, Memory>
    ensures { IfOk result (λ args. args ≡ mail pid start message.now envelope.now) }
{
    let message = ByteText::from_slice(alloc, message)?;
    let envelope = ByteText::from_slice(alloc, envelope)?;
    Ok(Arguments {
        uid: MAIL_USER,
        pid,
        invoked: Invoked::Uid(MAIL_USER),
        start,
        message,
        message_end: InputEnd::Whole,
        envelope,
        envelope_end: InputEnd::Whole,
    })
}

/// What an injector is started with that is a child, and is given its input later. Takes no memory.
pub fn unfed(alloc: Global, uid: u32, invoked: Invoked, pid: u32, start: u64) -> Arguments
    ensures { result ≡ unfed uid invoked pid start }
{
    Arguments {
        uid,
        pid,
        invoked,
        start,
        message: ByteText::new(alloc),
        message_end: InputEnd::Unread,
        envelope: ByteText::new(alloc),
        envelope_end: InputEnd::Unread,
    }
}
