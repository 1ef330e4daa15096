// The lines of a control file.
ghost use Rattle.std.specs.Prelude.{◌≡◌, ◌<◌, ◌≤◌, ◌∷◌, ◌++◌, IfOk, length, IsTrue};
ghost use Rattle.std.specs.List.{position_from};
ghost use Rattle.std.specs.Option.{option_copied};
ghost use Rattle.address_rules.specs.Lines.{lines, value_of, kept_line, listed, virtual_domains, virtual_of, is_bad, short_number};

use crate::cuts::cut_first;
use crate::text_list::TextList;
use crate::virtual_domains::{VirtualDomain, VirtualDomains};
use mail_bytes::{ByteText, Memory, trimmed};
use std::alloc::Global;

/// The first line, and what comes after its newline. The condition: there is a line.
fn cut_line(text: &[u8]) -> (&[u8], &[u8])
    requires { 0 < length text.now }
    ensures lines { lines text.now ≡ result.0.now ∷ lines result.1.now }
    ensures shorter { length result.1.now < length text.now }
{
    match cut_first(text, b'\n') {
        Some(parts) => parts,
        None => (text, &[]),
    }
}

/// The value of a file that has one, in its first line.
pub fn value_of(bytes: &[u8]) -> &[u8]
    ensures { result.now ≡ value_of bytes.now }
{
    if bytes.is_empty() {
        return bytes;
    }
    trimmed(cut_line(bytes).0)
}

/// What a line of a list says, if anything: empty lines and comments don't.
fn kept_line(line: &[u8]) -> Option<&[u8]>
    ensures { option_copied result ≡ kept_line line.now }
{
    let text = trimmed(line);
    match text.first() {
        None | Some(b'#') => None,
        Some(_) => Some(text),
    }
}

/// What a file with a list lists. The error: out of memory.
pub fn listed(alloc: Global, bytes: &[u8]) -> Result<TextList, Memory>
    ensures { IfOk result (λ list. list ≡ listed bytes.now) }
{
    let mut texts = Vec::new(alloc);
    let mut rest = bytes;
    while !rest.is_empty() {
        let (line, after) = cut_line(rest);
        if let Some(text) = kept_line(line) {
            texts.push(ByteText::from_slice(alloc, text)?)?;
        }
        rest = after;
    }
    Ok(TextList::from_vec(texts))
}

/// The lines of virtualdomains among those that a file lists: those with a colon. The error: out of memory.
pub fn virtual_domains(alloc: Global, bytes: &[u8]) -> Result<VirtualDomains, Memory>
    ensures { IfOk result (λ list. list ≡ virtual_domains bytes.now) }
{
    let list = listed(alloc, bytes)?;
    let lines = list.as_slice();
    let mut found = Vec::new(alloc);
    for line in lines {
        if let Some((domain, prefix)) = cut_first(line.as_slice(), b':') {
            found.push(virtual_domain(alloc, domain, prefix)?)?;
        }
    }
    Ok(VirtualDomains::from_vec(found))
}

/// A line of virtualdomains with copies of its two parts.
fn virtual_domain(alloc: Global, domain: &[u8], prefix: &[u8]) -> Result<VirtualDomain, Memory>
    ensures domain { IfOk result (λ line. line.domain ≡ domain.now) }
    ensures prefix { IfOk result (λ line. line.prefix ≡ prefix.now) }
{
    Ok(VirtualDomain {
        domain: ByteText::from_slice(alloc, domain)?,
        prefix: ByteText::from_slice(alloc, prefix)?,
    })
}

/// The number of 1 to 9 digits; `None` exactly if the text is something else.
pub fn short_number(text: &[u8]) -> Option<u32>
    ensures { result ≡ short_number text.now }
{
    if text.is_empty() || text.len() > 9 {
        return None;
    }
    let mut number: u32 = 0;
    for byte in text {
        if !byte.is_ascii_digit() {
            return None;
        }
        number = number * 10 + u32::from(*byte - b'0');
    }
    Some(number)
}

/// Whether a line is longer than this, or has a NUL.
fn is_bad(line: &[u8], limit: usize) -> bool
    ensures { result ≡ is_bad limit line.now }
{
    line.len() > limit || line.contains(&0)
}

/// The number of the first line that is longer than this or has a NUL, from 1.
pub fn first_bad_line(bytes: &[u8], limit: usize) -> Option<usize>
    requires { length bytes.now ≤ 1048576 }
    ensures { result ≡ position_from (is_bad limit) 1 (lines bytes.now) }
{
    let mut number: usize = 1;
    let mut rest = bytes;
    while !rest.is_empty() {
        let (line, after) = cut_line(rest);
        if is_bad(line, limit) {
            return Some(number);
        }
        number += 1;
        rest = after;
    }
    None
}
