// Keys of the control files, looked up without regard to case.
ghost use Rattle.std.specs.Prelude.{◌≡◌, ◌∷◌, ◌++◌, []};
ghost use Rattle.std.specs.Option.{option_copied};
ghost use Rattle.address_rules.specs.Keys.{begins_with_dot, is_listed, prefix_for, prefix_for_dotted, first_prefix, dot_suffixes, domain_keys};

use crate::virtual_domains::VirtualDomain;
use mail_bytes::{ByteText, same_fold};

/// Whether the key is one of the texts.
pub fn is_listed(texts: &[ByteText], key: &[u8]) -> bool
    ensures { result ≡ is_listed texts.now key.now }
{
    for text in texts {
        if same_fold(text.as_slice(), key) {
            return true;
        }
    }
    false
}

/// The prefix of the first line with this key.
pub fn prefix_for<'a>(lines: &'a [VirtualDomain], key: &[u8]) -> Option<&'a [u8]>
    ensures { option_copied result ≡ prefix_for lines.now key.now }
{
    for line in lines {
        if same_fold(line.domain.as_slice(), key) {
            return Some(line.prefix.as_slice());
        }
    }
    None
}

/// The prefix of the first line with this key, if it begins with a dot.
fn prefix_for_dotted<'a>(lines: &'a [VirtualDomain], key: &[u8]) -> Option<&'a [u8]>
    ensures { option_copied result ≡ prefix_for_dotted lines.now key.now }
{
    if begins_with_dot(key) {
        prefix_for(lines, key)
    } else {
        None
    }
}

/// Whether a key is a suffix of domains.
fn begins_with_dot(key: &[u8]) -> bool
    ensures { result ≡ begins_with_dot key.now }
{
    match key.split_first() {
        Some((first, _)) => *first == b'.',
        None => false,
    }
}

/// The prefix for the longest suffix of the domain that begins with a dot and has a line.
fn prefix_for_suffix<'a>(lines: &'a [VirtualDomain], domain: &[u8]) -> Option<&'a [u8]>
    ensures { option_copied result ≡ first_prefix lines.now (dot_suffixes domain.now) }
{
    for at in 0..domain.len() {
        if let Some(prefix) = prefix_for_dotted(lines, &domain[at..]) {
            return Some(prefix);
        }
    }
    None
}

/// The prefix for a domain: for itself, else for its longest suffix from a dot, else for the empty text.
pub fn prefix_for_domain<'a>(lines: &'a [VirtualDomain], domain: &[u8]) -> Option<&'a [u8]>
    ensures { option_copied result ≡ first_prefix lines.now (domain_keys domain.now) }
{
    prefix_for(lines, domain)
        .or(prefix_for_suffix(lines, domain))
        .or(prefix_for(lines, b""))
}
