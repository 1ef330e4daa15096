// The message that returns a bounce file.
ghost use Rattle.std.specs.Prelude.{◌≡◌, ◌++◌, ◌↔◌, [], codes, IfOk, OnOk, IsNone};
ghost use Rattle.mail_bytes.specs.Moments.{IsMoment};
ghost use Rattle.bounce_record.specs.Bounces.{user_at, return_address, header, returned, single_text, double_text, bounce_of};
ghost use Rattle.mail_bytes.specs.Texts.{line};

use mail_bytes::{ByteText, Memory};
use received_line::date;
use std::alloc::Global;

/// What is injected for a message that can't be delivered: it returns the bounce file.
#[derive(Drop)]
pub struct Bounce {
    /// The sender of its envelope.
    pub sender: ByteText,
    /// The recipient of its envelope.
    pub recipient: ByteText,
    /// The message.
    pub text: ByteText,
}

/// The message that returns a bounce file: `notes` is what the file holds, `message` the message file, `sender` the sender
/// of its envelope, and `moment` that of the date. `from` and `host` are the controls bouncefrom and bouncehost, `double_to`
/// and `double_host` doublebounceto and doublebouncehost. A message from a sender is returned to it, from the empty
/// sender, without the `-@[]` that the sender may end with; one from the empty sender, a bounce, goes from `#@[]` to
/// doublebounceto at doublebouncehost. `None` exactly if the sender is `#@[]`, so that a double bounce is dropped. The
/// condition: a clock may tell the moment. The error: out of memory.
#[expect(clippy::too_many_arguments)]
pub fn bounce_message(
    alloc: Global,
    from: &[u8],
    host: &[u8],
    double_to: &[u8],
    double_host: &[u8],
    sender: &[u8],
    notes: &[u8],
    message: &[u8],
    moment: u64,
) -> Result<Option<Bounce>, Memory>
    requires { IsMoment moment }
    ensures bounce { IfOk result (λ bounce. bounce ≡ bounce_of from.now host.now double_to.now double_host.now sender.now notes.now message.now moment) }
    ensures dropped { IfOk result (λ bounce. IsNone bounce ↔ (sender.now ≡ codes "#@[]")) }
{
    if sender.is_empty() {
        let to = user_at(alloc, double_to, double_host)?;
        let text = double_text(alloc, from, host, &to, notes, message, moment)?;
        return Ok(Some(double(alloc, to, text)?));
    }
    if sender == b"#@[]".as_slice() {
        return Ok(None);
    }
    let text = single_text(alloc, from, host, sender, notes, message, moment)?;
    Ok(Some(single(alloc, sender, text)?))
}

/// A bounce to its sender.
fn single(alloc: Global, sender: &[u8], text: Vec<u8>) -> Result<Bounce, Memory>
    ensures { IfOk result (λ bounce. bounce ≡ record { sender = []; recipient = return_address sender.now; text = text.items }) }
{
    Ok(Bounce {
        sender: ByteText::new(alloc),
        recipient: ByteText::from_slice(alloc, return_address(sender))?,
        text: ByteText::from_vec(text),
    })
}

/// A double bounce.
fn double(alloc: Global, to: Vec<u8>, text: Vec<u8>) -> Result<Bounce, Memory>
    ensures { IfOk result (λ bounce. bounce ≡ record { sender = codes "#@[]"; recipient = to.items; text = text.items }) }
{
    Ok(Bounce {
        sender: ByteText::from_slice(alloc, b"#@[]")?,
        recipient: ByteText::from_vec(to),
        text: ByteText::from_vec(text),
    })
}

/// Where a bounce of this sender goes.
fn return_address(sender: &[u8]) -> &[u8]
    ensures { result.now ≡ return_address sender.now }
{
    match sender.strip_suffix(b"-@[]") {
        Some(address) => address,
        None => sender,
    }
}

/// `user@host`.
fn user_at(alloc: Global, user: &[u8], host: &[u8]) -> Result<Vec<u8>, Memory>
    ensures { IfOk result (λ address. address.items ≡ user_at user.now host.now) }
{
    let mut address = Vec::from_slice(alloc, user)?;
    address.push(b'@')?;
    address.extend_from_slice(host)?;
    Ok(address)
}

/// The text of a bounce to its sender.
fn single_text(
    alloc: Global,
    from: &[u8],
    host: &[u8],
    sender: &[u8],
    notes: &[u8],
    message: &[u8],
    moment: u64,
) -> Result<Vec<u8>, Memory>
    requires { IsMoment moment }
    ensures { IfOk result (λ text. text.items ≡ single_text from.now host.now sender.now notes.now message.now moment) }
{
    let mut text = header(alloc, from, host, return_address(sender), moment)?;
    put_line(
        &mut text,
        b"I'm afraid I wasn't able to deliver your message to the following addresses.",
    )?;
    put_line(
        &mut text,
        b"This is a permanent error; I've given up. Sorry it didn't work out.",
    )?;
    put_returned(
        &mut text,
        notes,
        b"--- Below this line is a copy of the message.",
        sender,
        message,
    )?;
    Ok(text)
}

/// The text of a double bounce.
fn double_text(
    alloc: Global,
    from: &[u8],
    host: &[u8],
    to: &[u8],
    notes: &[u8],
    message: &[u8],
    moment: u64,
) -> Result<Vec<u8>, Memory>
    requires { IsMoment moment }
    ensures { IfOk result (λ text. text.items ≡ double_text from.now host.now to.now notes.now message.now moment) }
{
    let mut text = header(alloc, from, host, to, moment)?;
    put_line(
        &mut text,
        b"I tried to deliver a bounce message to this address, but the bounce bounced!",
    )?;
    put_returned(
        &mut text,
        notes,
        b"--- Below this line is the original bounce.",
        b"",
        message,
    )?;
    Ok(text)
}

/// Puts what the bounce file holds at the end of a text, and then the message that is returned, below a line that says so.
fn put_returned(
    text: &mut Vec<u8>,
    notes: &[u8],
    title: &[u8],
    sender: &[u8],
    message: &[u8],
) -> Result<(), Memory>
    ensures { OnOk result (text.new.items ≡ text.old.items ++ returned notes.now title.now sender.now message.now) }
{
    put_line(text, b"")?;
    text.extend_from_slice(notes)?;
    put_line(text, title)?;
    put_line(text, b"")?;
    put_around(text, b"Return-Path: <", sender, b">")?;
    text.extend_from_slice(message)?;
    Ok(())
}

/// Who sends it, to whom, and when; and how its text begins.
fn header(
    alloc: Global,
    from: &[u8],
    host: &[u8],
    recipient: &[u8],
    moment: u64,
) -> Result<Vec<u8>, Memory>
    requires { IsMoment moment }
    ensures { IfOk result (λ text. text.items ≡ header from.now host.now recipient.now moment) }
{
    let mut text = Vec::new(alloc);
    put_around(&mut text, b"Date: ", &date(alloc, moment)?, b"")?;
    put_around(&mut text, b"From: ", &user_at(alloc, from, host)?, b"")?;
    put_around(&mut text, b"To: ", recipient, b"")?;
    put_line(&mut text, b"Subject: failure notice")?;
    put_line(&mut text, b"")?;
    put_around(
        &mut text,
        b"Hi. This is the qmail-send program at ",
        host,
        b".",
    )?;
    Ok(text)
}

/// Puts a line at the end of a text.
fn put_line(text: &mut Vec<u8>, words: &[u8]) -> Result<(), Memory>
    ensures { OnOk result (text.new.items ≡ text.old.items ++ line words.now) }
{
    text.extend_from_slice(words)?;
    text.push(b'\n')?;
    Ok(())
}

/// Puts a line at the end of a text: a value with what stands before and after it.
fn put_around(text: &mut Vec<u8>, before: &[u8], value: &[u8], after: &[u8]) -> Result<(), Memory>
    ensures { OnOk result (text.new.items ≡ text.old.items ++ line (before.now ++ (value.now ++ after.now))) }
{
    text.extend_from_slice(before)?;
    text.extend_from_slice(value)?;
    put_line(text, after)
}
