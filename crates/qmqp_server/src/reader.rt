// A package that is read, and how it begins.
ghost use Rattle.std.specs.Prelude.{◌≡◌, ◌≤◌};
ghost use Rattle.qmqp_server.specs.Package.{longest};
ghost use Rattle.qmqp_server.specs.inside.Places.{Begins, BeginsContent, IsInnerTaken, is_over};

use crate::heads::{Head, take_head};
use outside::Source;

/// The most bytes that the content of a package may have.
const LONGEST: u64 = 1_073_741_824;

/// Why bytes are no package.
#[derive(Clone, Copy)]
pub enum PackageFault {
    /// They end within one, or the source failed.
    Cut,
    /// A head or a comma is wrong, there are fewer than two netstrings, or one runs past the content.
    Malformed,
}

/// Where in a package its reading stands.
#[derive(Clone, Copy)]
pub enum Place {
    /// In the message, of which so many bytes are left, or before its comma.
    Message {
        /// How many.
        left: u64,
    },
    /// After a netstring of the content.
    Between,
    /// In an address, of which so many bytes are left, or before its comma.
    Address {
        /// How many.
        left: u64,
    },
    /// After its last comma.
    Over,
    /// Where it was found to be none.
    Broken(PackageFault),
}

/// A package that is read.
#[derive(Clone, Copy)]
pub struct Reader {
    /// Where its reading stands.
    pub place: Place,
    /// How many bytes of the content come after the netstring at hand.
    pub rest: u64,
    /// The letter of the next address: `F` of the sender, then `T`.
    pub letter: u8,
    /// Whether an address has a NUL, as far as it was read.
    pub has_nul: bool,
}

/// How a package begins.
#[derive(Clone, Copy)]
pub enum Beginning {
    /// With these two heads.
    Heads(Reader),
    /// With a length that is over the limit.
    TooLong,
    /// With bytes that are none.
    Broken(PackageFault),
}

/// What comes next for an injector.
#[derive(Clone, Copy)]
pub enum Next {
    /// So many bytes at the start of the buffer.
    Bytes(usize),
    /// The end of the message.
    MessageOver,
    /// No more: an address has a NUL, or it is no package.
    Nothing,
}

/// The head of a netstring within a content.
#[derive(Clone, Copy)]
pub enum Inner {
    /// So many bytes are in its value, and so many come after its comma.
    Netstring {
        /// Its length.
        value: u64,
        /// How many bytes of the content come after it.
        rest: u64,
    },
    /// There is none.
    Broken(PackageFault),
}

/// Takes the first two heads of a package: its length, and that of the message.
pub fn begin<S: Source>(source: &mut S) -> Beginning
    ensures { Begins result
        (record { old = S.left source.old; new = S.left source.new; faults_old = S.faults source.old; faults_new = S.faults source.new }) }
{
    match take_head(source, u64::MAX) {
        Head::Length { value, .. } => {
            if value > LONGEST {
                Beginning::TooLong
            } else {
                begin_message(source, value)
            }
        }
        Head::Bad => Beginning::Broken(PackageFault::Malformed),
        Head::Past => unreachable!(),
        Head::Cut => Beginning::Broken(PackageFault::Cut),
    }
}

/// Takes the head of the message of a package with this length, which is within the limit, and was read.
fn begin_message<S: Source>(source: &mut S, length: u64) -> Beginning
    requires { length ≤ longest }
    ensures { BeginsContent length result
        (record { old = S.left source.old; new = S.left source.new; faults_old = S.faults source.old; faults_new = S.faults source.new }) }
{
    match take_inner(source, length) {
        Inner::Netstring { value, rest } => Beginning::Heads(Reader {
            place: Place::Message { left: value },
            rest,
            letter: b'F',
            has_nul: false,
        }),
        Inner::Broken(fault) => Beginning::Broken(fault),
    }
}

/// Takes the head of a netstring within a content of which so many bytes are left.
pub fn take_inner<S: Source>(source: &mut S, left: u64) -> Inner
    ensures { IsInnerTaken result left
        (record { old = S.left source.old; new = S.left source.new; faults_old = S.faults source.old; faults_new = S.faults source.new }) }
{
    match take_head(source, left) {
        Head::Length { value, used } => {
            let left = left - used;
            if value < left {
                Inner::Netstring {
                    value,
                    rest: left - value - 1,
                }
            } else {
                Inner::Broken(PackageFault::Malformed)
            }
        }
        Head::Bad | Head::Past => Inner::Broken(PackageFault::Malformed),
        Head::Cut => Inner::Broken(PackageFault::Cut),
    }
}

impl Reader {
    /// Whether nothing more of it is read.
    pub fn is_over(&self) -> bool
        ensures { result ≡ is_over self.now }
    {
        match self.place {
            Place::Message { .. } | Place::Between | Place::Address { .. } => false,
            Place::Over | Place::Broken(_) => true,
        }
    }
}
