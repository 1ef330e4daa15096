// Addresses as they are told: without a prefix, and a sender with its recipient.
ghost use Rattle.std.specs.Prelude.{◌≡◌, ◌++◌, ◌∷◌, Some, None, IfOk, MatchOption, unwrap_or};
ghost use Rattle.std.specs.Option.{option_copied};
ghost use Rattle.address_rules.specs.Names.{front_before, owner_of, rest_after, rest_after_prefix, stripped, verp_of};

use crate::controls::Controls;
use crate::cuts::cut_last;
use crate::keys::prefix_for_domain;
use mail_bytes::Memory;
use std::alloc::Global;

/// The address without the prefix of its virtual domain. Virtualdomains is looked up by the domain, the text after the
/// last `@`, each suffix of it from a dot, the longest first, and the empty text, and the first that is found decides:
/// if its prefix isn't empty and the address begins with `prefix-`, the answer is what comes after. Else, and
/// without `@`, it is the address. Takes no memory.
pub fn strip_prefix<'a>(controls: &Controls, address: &'a [u8]) -> &'a [u8]
    ensures { result.now ≡ stripped controls.now.virtual_domains address.now }
{
    let Some((_, domain)) = cut_last(address, b'@') else {
        return address;
    };
    match prefix_for_domain(controls.virtual_domains.as_slice(), domain) {
        Some(prefix) => without_prefix(address, prefix),
        None => address,
    }
}

/// What comes after these bytes at the beginning of the text.
fn rest_after<'a>(text: &'a [u8], begin: &[u8]) -> Option<&'a [u8]>
    ensures { option_copied result ≡ rest_after begin.now text.now }
{
    text.strip_prefix(begin)
}

/// What comes before these bytes at the end of the text.
fn front_before<'a>(text: &'a [u8], end: &[u8]) -> Option<&'a [u8]>
    ensures { option_copied result ≡ front_before end.now text.now }
{
    text.strip_suffix(end)
}

/// The address after `prefix-`, if it begins so and the prefix isn't empty.
fn without_prefix<'a>(address: &'a [u8], prefix: &[u8]) -> &'a [u8]
    ensures { result.now ≡ unwrap_or (rest_after_prefix address.now prefix.now) address.now }
{
    if prefix.is_empty() {
        return address;
    }
    match rest_after(address, prefix) {
        Some(rest) => rest_after(rest, b"-").unwrap_or(address),
        None => address,
    }
}

/// The sender that the recipient sees (VERP): of the sender `owner@host-@[]`, whose host has no `@`, and the recipient
/// `box@domain`, cut at its last `@`, it is `ownerbox=domain@host`. Else the sender as it is.
/// The error: out of memory.
pub fn verp(alloc: Global, sender: &[u8], recipient: &[u8]) -> Result<Vec<u8>, Memory>
    ensures { IfOk result (λ text. text.items ≡ verp_of sender.now recipient.now) }
{
    let Some((owner, host)) = owner_of(sender) else {
        return Vec::from_slice(alloc, sender);
    };
    match cut_last(recipient, b'@') {
        Some((user, domain)) => told(alloc, owner, user, domain, host),
        None => Vec::from_slice(alloc, sender),
    }
}

/// `owneruser=domain@host`.
fn told(
    alloc: Global,
    owner: &[u8],
    user: &[u8],
    domain: &[u8],
    host: &[u8],
) -> Result<Vec<u8>, Memory>
    ensures { IfOk result (λ text. text.items ≡ owner.now ++ (user.now ++ (61 ∷ (domain.now ++ 64 ∷ host.now)))) }
{
    let mut text = Vec::from_slice(alloc, owner)?;
    text.extend_from_slice(user)?;
    text.push(b'=')?;
    text.extend_from_slice(domain)?;
    text.push(b'@')?;
    text.extend_from_slice(host)?;
    Ok(text)
}

/// What stands before and after the last `@` of the part before `-@[]`.
fn owner_of(sender: &[u8]) -> Option<(&[u8], &[u8])>
    ensures { MatchOption result (owner_of sender.now ≡ None)
        (λ parts. owner_of sender.now ≡ Some (parts.0.now, parts.1.now)) }
{
    match front_before(sender, b"-@[]") {
        Some(before) => cut_last(before, b'@'),
        None => None,
    }
}
