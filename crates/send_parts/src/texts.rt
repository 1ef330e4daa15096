// What the files and names that the sender reads say.
ghost use Rattle.std.specs.Prelude.{◌≡◌, ◌≤◌, ◌<◌, ◌+◌, ◌++◌, take, length, position, IfOk, IfSome};
ghost use Rattle.send_parts.specs.Files.{begins_by, cut_at, before_nul, from_one, is_info, is_nul, message_number, sender_in};

use mail_bytes::{ByteText, Memory, NameBuf, undec};
use std::alloc::Global;

/// Whether it is the text of an info file: `F`, an address, NUL.
pub fn is_info(text: &[u8]) -> bool
    ensures { result ≡ is_info text.now }
{
    begins_by(b'F', text) && before_nul(text).len() + 1 == text.len()
}

/// The sender in the text of an info file. Fails only if out of memory.
pub fn sender_in(alloc: Global, info: &[u8]) -> Result<ByteText, Memory>
    ensures { IfOk result (λ sender. sender ≡ sender_in info.now) }
{
    match info {
        [] => Ok(ByteText::new(alloc)),
        [_, text @ ..] => ByteText::from_slice(alloc, before_nul(text)),
    }
}

/// Whether a text begins with this letter.
fn begins_by(letter: u8, text: &[u8]) -> bool
    ensures { result ≡ begins_by letter text.now }
{
    match text {
        [] => false,
        [first, ..] => *first == letter,
    }
}

/// What stands before the first NUL.
fn before_nul(text: &[u8]) -> &[u8]
    ensures { result.now ≡ before_nul text.now }
{
    cut_at(first_nul(text), text)
}

/// The place of the first NUL.
fn first_nul(text: &[u8]) -> Option<usize>
    ensures place { result ≡ position is_nul text.now }
    ensures inside { IfSome result (λ at. at < length text.now) }
{
    text.iter().position(|byte| *byte == 0)
}

/// What stands before this place; without one, all.
fn cut_at(at: Option<usize>, text: &[u8]) -> &[u8]
    requires { IfSome at (λ at. at < length text.now) }
    ensures { result.now ≡ cut_at at text.now }
{
    match at {
        None => text,
        Some(at) => &text[..at],
    }
}

/// The message number that a name is: a decimal text of a u64 from 1; `None` exactly if it is none. Takes no memory.
pub fn message_number(name: &[u8]) -> Option<u64>
    ensures { result ≡ message_number name.now }
{
    from_one(undec(name))
}

/// The number, if it is from 1.
fn from_one(n: Option<u64>) -> Option<u64>
    ensures { result ≡ from_one n }
{
    match n {
        Some(n) if n >= 1 => Some(n),
        _ => None,
    }
}

/// A name, of which the first 255 bytes are kept. No name is longer. Takes no memory.
pub fn hold(text: &[u8]) -> NameBuf
    ensures { result ≡ take 255 text.now }
{
    let mut name = NameBuf::new();
    put(&mut name, prefix(text));
    name
}

/// The first 255 bytes.
#[tactic(auto, using(crate::proofs::Prefixes::take_least))]
fn prefix(text: &[u8]) -> &[u8]
    ensures text { result.now ≡ take 255 text.now }
    ensures short { length result.now ≤ 255 }
{
    let len = text.len().min(255);
    &text[..len]
}

/// Puts bytes at the end. The condition: there is room for them.
fn put(into: &mut NameBuf, bytes: &[u8])
    requires { length into.old + length bytes.now ≤ 255 }
    ensures { into.new ≡ into.old ++ bytes.now }
{
    into.extend(bytes).unwrap();
}
