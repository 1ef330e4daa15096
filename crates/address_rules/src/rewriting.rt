// Where a recipient goes.
ghost use Rattle.std.specs.Prelude.{◌≡◌, ◌<◌, ◌++◌, ◌∷◌, IfOk, MatchOption, None, Some, length, take, slice_set};
ghost use Rattle.std.specs.Bool.{OnTrue, OnFalse};
ghost use Rattle.address_rules.specs.Cuts.{last_cut};
ghost use Rattle.address_rules.specs.Routes.{by_prefix, decided, domain_of, full_address, hacked, qualified, route_of};

use crate::controls::Controls;
use crate::cuts::cut_last;
use crate::keys::{is_listed, prefix_for, prefix_for_domain};
use mail_bytes::{ByteText, Memory};
use std::alloc::Global;

/// Where a recipient goes, with the address that stands in the channel's file.
#[derive(Drop)]
pub enum Route {
    /// To a mailbox here.
    Local(ByteText),
    /// To another host.
    Remote(ByteText),
}

/// Where the recipient goes (qmail-send(8)). An address without `@` gets `@` and envnoathost. As long as its domain,
/// the text after the last `@`, is in percenthack and what stands before it has a `%`, `user%host@domain` becomes
/// `user@host`, at the last `%`. A domain in locals is here. Else virtualdomains is looked up by the whole address, the
/// domain, each suffix of the domain from a dot, the longest first, and the empty text: the first that is found decides.
/// A prefix makes the recipient local, as `prefix-address`, an empty one remote. What isn't found is remote.
pub fn rewrite(alloc: Global, controls: &Controls, address: &[u8]) -> Result<Route, Memory>
    ensures { IfOk result (λ route. route ≡ route_of controls.now address.now) }
{
    let full = full_address(alloc, controls, address)?;
    decide(alloc, controls, full.as_slice(), domain_of(full.as_slice()))
}

/// What comes after the last `@`; nothing if there is none.
fn domain_of(address: &[u8]) -> &[u8]
    ensures { result.now ≡ domain_of (last_cut 64 address.now) }
{
    match cut_last(address, b'@') {
        Some((_, domain)) => domain,
        None => b"",
    }
}

/// The address with a domain, after all rounds of percenthack.
fn full_address(alloc: Global, controls: &Controls, address: &[u8]) -> Result<Vec<u8>, Memory>
    ensures { IfOk result (λ full. full.items ≡ full_address controls.now address.now) }
{
    let mut full = qualified(alloc, controls.env_no_at_host.as_slice(), address)?;
    while hack(controls.percent_hack.as_slice(), &mut full) {}
    Ok(full)
}

/// The address, with `@` and the host if it has no `@`.
fn qualified(alloc: Global, host: &[u8], address: &[u8]) -> Result<Vec<u8>, Memory>
    ensures { IfOk result (λ full. full.items ≡ qualified host.now address.now) }
{
    let mut full = Vec::from_slice(alloc, address)?;
    if cut_last(address, b'@').is_none() {
        full.push(b'@')?;
        full.extend_from_slice(host)?;
    }
    Ok(full)
}

/// Makes one round of percenthack, and tells whether there was one to make.
fn hack(hacks: &[ByteText], address: &mut Vec<u8>) -> bool
    ensures made { OnTrue result (hacked hacks.now address.old.items ≡ Some address.new.items) }
    ensures none { OnFalse result (hacked hacks.now address.old.items ≡ None) }
    ensures kept { OnFalse result (address.new.items ≡ address.old.items) }
{
    let Some((percent, at)) = hack_places(hacks, address.as_slice()) else {
        return false;
    };
    address.truncate(at);
    address[percent] = b'@';
    true
}

/// Where a round of percenthack finds the last `%` and the last `@`.
fn hack_places(hacks: &[ByteText], address: &[u8]) -> Option<(usize, usize)>
    ensures { MatchOption result (hacked hacks.now address.now ≡ None)
        (λ places. (places.0 < places.1) × (places.1 < length address.now)
        × (hacked hacks.now address.now ≡ Some (slice_set (take places.1 address.now) places.0 64))) }
{
    match cut_last(address, b'@') {
        Some((before, domain)) if is_listed(hacks, domain) => match cut_last(before, b'%') {
            Some((user, _)) => Some((user.len(), before.len())),
            None => None,
        },
        _ => None,
    }
}

/// Where an address with this domain goes.
fn decide(
    alloc: Global,
    controls: &Controls,
    address: &[u8],
    domain: &[u8],
) -> Result<Route, Memory>
    ensures { IfOk result (λ route. route ≡ decided controls.now address.now domain.now) }
{
    if is_listed(controls.locals.as_slice(), domain) {
        return Ok(Route::Local(ByteText::from_slice(alloc, address)?));
    }
    let lines = controls.virtual_domains.as_slice();
    let prefix = prefix_for(lines, address).or(prefix_for_domain(lines, domain));
    by_prefix(alloc, address, prefix.unwrap_or(b""))
}

/// Local with a prefix, remote without one.
fn by_prefix(alloc: Global, address: &[u8], prefix: &[u8]) -> Result<Route, Memory>
    ensures { IfOk result (λ route. route ≡ by_prefix address.now (Some prefix.now)) }
{
    if prefix.is_empty() {
        return Ok(Route::Remote(ByteText::from_slice(alloc, address)?));
    }
    let mut text = ByteText::from_slice(alloc, prefix)?;
    text.extend(b"-")?;
    text.extend(address)?;
    Ok(Route::Local(text))
}
