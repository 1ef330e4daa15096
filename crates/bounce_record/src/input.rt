// What the injector of a bounce is given.
ghost use Rattle.std.specs.Prelude.{◌≡◌, ◌++◌, ◌∷◌, [], IfOk, OnOk};
ghost use Rattle.bounce_record.specs.Returning.{envelope_of, input_of, room_of};
ghost use Rattle.mail_bytes.specs.Netstring.{netstring};

use crate::Bounce;
use mail_bytes::{Memory, dec};
use std::alloc::Global;

/// What the injector of a bounce is given, and how many bytes message and envelope have together.
#[derive(Drop)]
pub struct Input {
    /// Two netstrings: the message, and then the envelope.
    pub text: Vec<u8>,
    /// How many bytes they hold.
    pub room: u64,
}

/// What the injector of this bounce is given (qmail-queue(8), envelopes(5)). The error: out of memory.
pub fn input_of(alloc: Global, bounce: &Bounce) -> Result<Input, Memory>
    ensures text { IfOk result (λ input. input.text.items ≡ input_of bounce.now) }
    ensures room { IfOk result (λ input. input.room ≡ room_of bounce.now) }
{
    let envelope = envelope_of(alloc, bounce)?;
    let message = bounce.text.as_slice();
    let mut text = Vec::new(alloc);
    put_netstring(&mut text, message)?;
    put_netstring(&mut text, &envelope)?;
    let room = message.len() as u64 + envelope.len() as u64;
    Ok(Input { text, room })
}

/// Its envelope: from its sender, to its recipient.
fn envelope_of(alloc: Global, bounce: &Bounce) -> Result<Vec<u8>, Memory>
    ensures { IfOk result (λ envelope. envelope.items ≡ envelope_of bounce.now) }
{
    let mut envelope = Vec::from_slice(alloc, b"F")?;
    envelope.extend_from_slice(bounce.sender.as_slice())?;
    envelope.extend_from_slice(b"\0T")?;
    envelope.extend_from_slice(bounce.recipient.as_slice())?;
    envelope.extend_from_slice(b"\0\0")?;
    Ok(envelope)
}

/// Puts bytes as a netstring at the end of a text.
fn put_netstring(text: &mut Vec<u8>, bytes: &[u8]) -> Result<(), Memory>
    ensures { OnOk result (text.new.items ≡ text.old.items ++ netstring bytes.now) }
{
    let mut number = [0; 20];
    let len = dec(bytes.len() as u64, &mut number);
    text.extend_from_slice(&number[..len])?;
    text.push(b':')?;
    text.extend_from_slice(bytes)?;
    text.push(b',')?;
    Ok(())
}
