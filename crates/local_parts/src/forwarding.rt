// What is injected for the addresses that a message is forwarded to.
ghost use Rattle.std.specs.Prelude.{◌≡◌, ◌+◌, ◌++◌, ◌∷◌, [], IfOk, OnOk, length, flat_map};
ghost use Rattle.envelope_records.specs.Envelope.{record_of};
ghost use Rattle.mail_bytes.specs.Netstring.{head};
ghost use Rattle.local_parts.specs.Forwarding.{envelope, forward_sender, forwards, has_default_owner, has_owner, injected, injection_of, injection_to, is_bounce, net_text, owner_name, owner_sender};
ghost use Rattle.local_parts.specs.Texts.{forward_text};

use crate::endings::put_number;
use crate::texts::delivered_line;
use crate::{Blocks, LocalArgs, Names};
use dot_qmail::{Line, full_name};
use mail_bytes::{ByteText, Memory};
use std::alloc::{AllocError, Global};

/// What is given to the injector of forwards.
#[derive(Drop)]
pub struct Injection {
    /// The message and the envelope, as two netstrings.
    pub text: ByteText,
    /// How many bytes both have without that.
    pub room: u64,
}

/// The injection of a message for the addresses that lines forward to; `None` if they forward to none. The message goes with
/// a line `Delivered-To`. Fails only if out of memory.
#[tactic(auto, using(crate::proofs::Forwards::no_injection, crate::proofs::Forwards::injection))]
pub fn injection_of(
    alloc: Global,
    args: &LocalArgs,
    names: &Names,
    message: &Blocks,
    lines: &[Line],
) -> Result<Option<Injection>, Memory>
    ensures { IfOk result (λ it. it ≡ injection_of args.now names.now message.now lines.now) }
{
    let records = records_of(alloc, lines)?;
    if records.is_empty() {
        return Ok(None);
    }
    let envelope = envelope(alloc, args, names, records.as_slice())?;
    let line = delivered_line(alloc, args)?;
    Ok(Some(injected(alloc, line.as_slice(), message, envelope.as_slice())?))
}

/// The records of the addresses that lines forward to.
fn records_of(alloc: Global, lines: &[Line]) -> Result<ByteText, Memory>
    ensures { IfOk result (λ text. text ≡ flat_map record_of (forwards lines.now)) }
{
    let mut text = ByteText::new(alloc);
    for line in lines {
        put_record(&mut text, line)?;
    }
    Ok(text)
}

/// Puts the record of a forward at the end of a text; of another line nothing. After an `Err` it is to be let go.
fn put_record(text: &mut ByteText, line: &Line) -> Result<(), Memory>
    ensures { OnOk result (text.new ≡ text.old ++ flat_map record_of (forwards (line.now ∷ []))) }
{
    if let Line::Forward(address) = line {
        text.extend(b"T")?;
        text.extend(address.as_slice())?;
        text.extend(b"\0")?;
    }
    Ok(())
}

/// The envelope with these records.
fn envelope(
    alloc: Global,
    args: &LocalArgs,
    names: &Names,
    records: &[u8],
) -> Result<ByteText, Memory>
    ensures { IfOk result (λ text. text ≡ ((70 ∷ (forward_sender args.now names.now ++ 0 ∷ [])) ++ records.now) ++ 0 ∷ []) }
{
    let mut text = ByteText::from_slice(alloc, b"F")?;
    text.extend(forward_sender(alloc, args, names)?.as_slice())?;
    text.extend(b"\0")?;
    text.extend(records)?;
    text.extend(b"\0")?;
    Ok(text)
}

/// The sender of forwards: that of the message, or the owner of the address if it has one and the message is no bounce
/// (dot-qmail(5)). Fails only if out of memory.
pub fn forward_sender(alloc: Global, args: &LocalArgs, names: &Names) -> Result<ByteText, Memory>
    ensures { IfOk result (λ text. text ≡ forward_sender args.now names.now) }
{
    if has_owner(alloc, args, names)? {
        owner_sender(alloc, args, has_default_owner(alloc, args, names)?)
    } else {
        ByteText::from_slice(alloc, args.sender.as_slice())
    }
}

/// Whether the address has an owner, and the message is no bounce.
fn has_owner(alloc: Global, args: &LocalArgs, names: &Names) -> Result<bool, Memory>
    ensures { IfOk result (λ has. has ≡ has_owner args.now names.now) }
{
    if is_bounce(args.sender.as_slice()) {
        return Ok(false);
    }
    Ok(names.has(owner_name(alloc, args, b"-owner")?.as_slice()))
}

/// Whether the owner is to be told of each recipient by itself.
fn has_default_owner(alloc: Global, args: &LocalArgs, names: &Names) -> Result<bool, Memory>
    ensures { IfOk result (λ has. has ≡ has_default_owner args.now names.now) }
{
    Ok(names.has(owner_name(alloc, args, b"-owner-default")?.as_slice()))
}

/// Whether this is the sender of a bounce.
fn is_bounce(sender: &[u8]) -> bool
    ensures { result ≡ is_bounce sender.now }
{
    sender.is_empty() || sender == b"#@[]".as_slice()
}

/// `.qmail`, the dash and ext, and this at its end.
fn owner_name(alloc: Global, args: &LocalArgs, part: &[u8]) -> Result<Vec<u8>, Memory>
    ensures { IfOk result (λ name. name.items ≡ owner_name args.now part.now) }
{
    let mut name = full_name(alloc, args.dash.as_slice(), args.ext.as_slice())?;
    name.extend_from_slice(part)?;
    Ok(name)
}

/// The owner of the address as a sender.
fn owner_sender(alloc: Global, args: &LocalArgs, is_each: bool) -> Result<ByteText, Memory>
    ensures { IfOk result (λ text. text ≡ owner_sender args.now is_each) }
{
    let mut text = ByteText::from_slice(alloc, args.local.as_slice())?;
    if is_each {
        text.extend(b"-owner-@")?;
        text.extend(args.domain.as_slice())?;
        text.extend(b"-@[]")?;
    } else {
        text.extend(b"-owner@")?;
        text.extend(args.domain.as_slice())?;
    }
    Ok(text)
}

/// The injection of a message, which goes with this line before it, with this envelope. Its text is made at once in its
/// whole room, so that no part of the message is there a third time while it grows.
fn injected(
    alloc: Global,
    line: &[u8],
    message: &Blocks,
    envelope: &[u8],
) -> Result<Injection, Memory>
    ensures { IfOk result (λ it. it ≡ injected (line.now ++ message.now) envelope.now) }
{
    let len = sum(line.len(), message.len())?;
    let both = sum(len, envelope.len())?;
    let mut text = roomy(alloc, sum(both, HEADS_ROOM)?)?;
    put_head(&mut text, len)?;
    text.extend(line)?;
    message.put_into(&mut text)?;
    text.extend(b",")?;
    put_head(&mut text, envelope.len())?;
    text.extend(envelope)?;
    text.extend(b",")?;
    let room = both as u64;
    Ok(Injection { text, room })
}

/// The heads of two netstrings and their commas have no more bytes.
const HEADS_ROOM: usize = 2 * (20 + 1 + 1);

/// An empty text with room for so many bytes.
fn roomy(alloc: Global, room: usize) -> Result<ByteText, Memory>
    ensures { IfOk result (λ text. text ≡ []) }
{
    Ok(ByteText::from_vec(Vec::with_capacity(alloc, room)?))
}

/// Puts the head of a netstring of so many bytes at the end of a text. After an `Err` it is to be let go.
fn put_head(text: &mut ByteText, len: usize) -> Result<(), Memory>
    ensures { OnOk result (text.new ≡ text.old ++ head len) }
{
    put_number(text, len as u64)?;
    text.extend(b":")
}

/// Their sum; a text of more bytes than can be counted counts as out of memory.
fn sum(a: usize, b: usize) -> Result<usize, Memory>
    ensures { IfOk result (λ sum. sum ≡ a + b) }
{
    match a.checked_add(b) {
        Some(sum) => Ok(sum),
        None => Err(AllocError),
    }
}
