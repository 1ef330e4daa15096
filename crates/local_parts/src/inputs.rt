// Which input is a message.
ghost use Rattle.std.specs.Prelude.{◌≡◌, ◌==◌, ◌<◌, ◌≤◌, ◌-◌, ◌∷◌, [], Some, IfOk, length, drop, bytes_eq, position};
ghost use Rattle.local_parts.specs.inside.Heads.{head_at, head_of};
ghost use Rattle.local_parts.specs.Inputs.{message_in, sized};

use crate::Blocks;
use mail_bytes::{Memory, undec};
use std::alloc::Global;

/// The head of a netstring.
#[derive(Clone, Copy)]
struct Head {
    /// How many bytes its text has.
    length: u64,
    /// How many bytes the head takes.
    used: usize,
}

/// No head of a netstring has more bytes: 20 digits and a colon.
const LONGEST_HEAD: usize = 21;

/// The message of an input, which is one netstring and nothing more; `None` if it isn't. Fails only if out of memory.
pub fn message_in(alloc: Global, input: &Blocks) -> Result<Option<Blocks>, Memory>
    ensures { IfOk result (λ message. message ≡ message_in input.now) }
{
    let front = input.front(alloc, LONGEST_HEAD)?;
    match head_of(front.as_slice()) {
        Some(head) => {
            let message = message_after(alloc, input, head)?;
            Ok(message)
        }
        None => Ok(None),
    }
}

/// The message after the head of an input, if it is of the head's length, with a comma and nothing more after it.
#[tactic(auto, using(crate::proofs::Heads::sized_wrong, crate::proofs::Heads::sized_right))]
fn message_after(alloc: Global, input: &Blocks, head: Head) -> Result<Option<Blocks>, Memory>
    requires { head.used ≤ length input.now }
    ensures { IfOk result (λ message. message ≡ sized (Some head.length) (drop head.used input.now)) }
{
    let rest = input.len() - head.used;
    if rest == 0 || (rest - 1) as u64 != head.length {
        return Ok(None);
    }
    if !ends_in_comma(alloc, input)? {
        return Ok(None);
    }
    Ok(Some(input.part(alloc, head.used, rest - 1)?))
}

/// The head with which bytes begin.
fn head_of(front: &[u8]) -> Option<Head>
    ensures { result ≡ head_of front.now }
{
    match colon_in(front) {
        Some(at) => head_at(front, at),
        None => None,
    }
}

/// Where the first colon of bytes stands.
fn colon_in(front: &[u8]) -> Option<usize>
    ensures { result ≡ position (λ b. b == 58) front.now }
{
    front.iter().position(|byte| *byte == b':')
}

/// The head whose colon stands there.
fn head_at(front: &[u8], at: usize) -> Option<Head>
    requires { at < length front.now }
    ensures { result ≡ head_at front.now at }
{
    match undec(&front[..at]) {
        Some(length) => Some(Head {
            length,
            used: at + 1,
        }),
        None => None,
    }
}

/// Whether the last byte is a comma.
fn ends_in_comma(alloc: Global, input: &Blocks) -> Result<bool, Memory>
    ensures { IfOk result (λ ends. ends ≡ bytes_eq (drop (length input.now - 1) input.now) (44 ∷ [])) }
{
    let last = input.part(alloc, input.len().saturating_sub(1), 1)?;
    Ok(last.front(alloc, 1)?.as_slice() == b",".as_slice())
}
