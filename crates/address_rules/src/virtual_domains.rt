// The lines of `control/virtualdomains`.
ghost use Rattle.std.specs.Prelude.{◌≡◌};

use mail_bytes::ByteText;
use std::marker::Model;

/// A line of virtualdomains.
#[derive(Drop)]
pub struct VirtualDomain {
    /// An address, a domain, the end of one from a dot, or nothing.
    pub domain: ByteText,
    /// What is put before the address, with a `-`; empty if the address is remote.
    pub prefix: ByteText,
}

/// Lines of virtualdomains in order; contracts see the list of them.
#[derive(Drop)]
pub struct VirtualDomains {
    lines: Vec<VirtualDomain>,
}

impl Model for VirtualDomains {
    ghost use Rattle.std.specs.Prelude.{List};
    ghost use Rattle.address_rules.specs.declared.virtual_domains.VirtualDomain.{VirtualDomain};

    ghost Value = { List VirtualDomain };

    ghost view = { λ l. l.lines.items };
}

impl VirtualDomains {
    /// The list of these lines. Takes no memory.
    pub fn from_vec(lines: Vec<VirtualDomain>) -> Self
        ensures { result ≡ lines.items }
    {
        VirtualDomains { lines }
    }

    /// Its lines.
    pub fn as_slice(&self) -> &[VirtualDomain]
        ensures { result.now ≡ self.now }
    {
        self.lines.as_slice()
    }

    /// Gives the lines back. Takes no memory.
    pub fn into_vec(self) -> Vec<VirtualDomain>
        ensures { result.items ≡ self }
    {
        self.lines
    }
}
