// Heads and commas of netstrings, taken of a source byte by byte, since it may have nothing after them yet.
ghost use Rattle.std.specs.Prelude.{◌≡◌, ◌<◌, ◌++◌, ◌∷◌, [], length};
ghost use Rattle.qmqp_server.specs.inside.Taken.{IsByteTaken, IsCommaTaken, IsHeadTaken};

use mail_bytes::{NameBuf, NetHead, net_head};
use outside::{Source, Took};

/// What a source gave as the head of a netstring.
#[derive(Clone, Copy)]
pub enum Head {
    /// A head, with this length, of so many bytes.
    Length {
        /// The number.
        value: u64,
        /// How many bytes the head has.
        used: u64,
    },
    /// A byte that no head has there.
    Bad,
    /// A part of a head, after which no more may be taken.
    Past,
    /// A part of a head, after which the source ended or failed.
    Cut,
}

/// What a source gave after the value of a netstring.
#[derive(Clone, Copy)]
pub enum Comma {
    /// The comma.
    Right,
    /// Another byte.
    Wrong,
    /// None: the source ended or failed.
    Cut,
}

/// Takes the head of a netstring, of at most so many bytes.
pub fn take_head<S: Source>(source: &mut S, most: u64) -> Head
    ensures { IsHeadTaken result most
        (record { old = S.left source.old; new = S.left source.new; faults_old = S.faults source.old; faults_new = S.faults source.new }) }
{
    let mut text = NameBuf::new();
    for len in 0u64..21 {
        if len == most {
            return Head::Past;
        }
        let Some(byte) = take_byte(source) else {
            return Head::Cut;
        };
        put_byte(&mut text, byte);
        match net_head(text.as_slice()) {
            NetHead::More => {}
            NetHead::Len { value, .. } => {
                return Head::Length {
                    value,
                    used: len + 1,
                };
            }
            NetHead::Bad => return Head::Bad,
        }
    }
    unreachable!()
}

/// Takes the byte after a value.
pub fn take_comma<S: Source>(source: &mut S) -> Comma
    ensures { IsCommaTaken result
        (record { old = S.left source.old; new = S.left source.new; faults_old = S.faults source.old; faults_new = S.faults source.new }) }
{
    match take_byte(source) {
        Some(b',') => Comma::Right,
        Some(_) => Comma::Wrong,
        None => Comma::Cut,
    }
}

/// Takes one byte; none if the source ends or fails.
fn take_byte<S: Source>(source: &mut S) -> Option<u8>
    ensures { IsByteTaken result
        (record { old = S.left source.old; new = S.left source.new; faults_old = S.faults source.old; faults_new = S.faults source.new }) }
{
    let mut byte = [0];
    match source.take(&mut byte) {
        Took::Got(_) => Some(byte[0]),
        Took::End | Took::Failed => None,
    }
}

/// Puts a byte at the end. The condition: there is room for it.
fn put_byte(text: &mut NameBuf, byte: u8)
    requires { length text.old < 255 }
    ensures { text.new ≡ text.old ++ byte ∷ [] }
{
    text.push(byte).unwrap();
}
