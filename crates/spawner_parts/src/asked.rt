// What a request has to be for its program to be started.
ghost use Rattle.std.specs.Prelude.{◌≡◌, IfOk, unwrap_or};
ghost use Rattle.std.specs.Option.{option_copied, option_or};
ghost use Rattle.spawner_parts.specs.Asked.{domain_of, host_here, host_of, is_bad, is_mess, name_of_mess, names_message, runs_in};
ghost use Rattle.queue_paths.specs.Names.{used_name};

use crate::place::SLOTS;
use mail_bytes::{ByteText, Memory};
use queue_paths::{Name, parse};
use spawn_protocol::Request;
use std::alloc::Global;

/// The name of the message's file that a request names. Fails only if out of memory.
pub fn name_of_mess(alloc: Global, field: &[u8]) -> Result<ByteText, Memory>
    ensures { IfOk result (λ name. name ≡ name_of_mess field.now) }
{
    let mut name = ByteText::from_slice(alloc, b"mess/")?;
    name.extend(field)?;
    Ok(name)
}

/// Whether a name is that of a message.
fn is_mess(name: &[u8]) -> bool
    ensures { result ≡ is_mess (used_name name.now) }
{
    matches!(parse(name), Some(Name::Mess(_)))
}

/// What comes after the last `@` of an address; `None` exactly if it has none.
#[tactic(auto, using(crate::proofs::Hosts::or_none, crate::proofs::Hosts::or_assoc))]
pub fn host_of(address: &[u8]) -> Option<&[u8]>
    ensures { option_copied result ≡ host_of address.now }
{
    let mut host = None;
    let mut rest = address;
    while let Some((byte, after)) = rest.split_first() {
        host = host_after(host, *byte, after);
        rest = after;
    }
    host
}

/// What comes after the last `@`, of what came after it before a byte, and what comes after that.
fn host_after<'a>(host: Option<&'a [u8]>, byte: u8, after: &'a [u8]) -> Option<&'a [u8]>
    ensures { option_copied result ≡ option_or (host_here byte after.now) (option_copied host.entry) }
{
    if byte == b'@' { Some(after) } else { host }
}

/// The domain of an address: empty if it has no `@`.
pub fn domain_of(address: &[u8]) -> &[u8]
    ensures { result.now ≡ domain_of address.now }
{
    match host_of(address) {
        Some(host) => host,
        None => &[],
    }
}

/// Whether a program runs in this slot.
pub fn runs_in(running: &[bool], slot: u8) -> bool
    ensures { result ≡ runs_in running.now slot }
{
    match running.get(usize::from(slot)) {
        Some(runs) => *runs,
        None => false,
    }
}

/// Whether no program is to be started for a request, by what runs. The condition: this is the name of its message's file.
pub fn is_bad(running: &[bool], request: &Request, name: &[u8]) -> bool
    requires { name.now ≡ name_of_mess request.now.mess }
    ensures { result ≡ is_bad running.now request.now }
{
    usize::from(request.slot) >= SLOTS
        || runs_in(running, request.slot)
        || !is_mess(name)
        || host_of(request.recipient.as_slice()).is_none()
}
