// The answer to a package.
ghost use Rattle.std.specs.Prelude.{◌≡◌, ◌≤◌, ◌+◌, ◌++◌, length};
ghost use Rattle.mail_bytes.specs.Decimal.{digits};
ghost use Rattle.mail_bytes.specs.Moments.{IsMoment};
ghost use Rattle.qmqp_server.specs.Answers.{answer_of, answer_text};

use mail_bytes::{NameBuf, dec};
use queue_limits::{DONE, LONG_ADDRESS};

/// The answer as one netstring, held in place, so that it takes no memory.
pub fn answer_of(has_nul: bool, status: u8, start: u64, pid: u32) -> NameBuf
    ensures { result ≡ answer_of has_nul status start pid }
{
    let text = text_of(has_nul, status, start, pid);
    let mut whole = NameBuf::new();
    put_number(&mut whole, text.as_slice().len() as u64);
    put(&mut whole, b":");
    put(&mut whole, text.as_slice());
    put(&mut whole, b",");
    whole
}

/// The text of the answer, which has at most 51 bytes.
fn text_of(has_nul: bool, status: u8, start: u64, pid: u32) -> NameBuf
    ensures text { result ≡ answer_text has_nul status start pid }
    ensures short { length result ≤ 51 }
{
    let mut text = NameBuf::new();
    if has_nul {
        put(&mut text, b"Dbad address");
    } else if status == DONE {
        put(&mut text, b"Kok ");
        put_number(&mut text, start);
        put(&mut text, b" qp ");
        put_number(&mut text, u64::from(pid));
    } else {
        put(&mut text, if status == LONG_ADDRESS { b"D" } else { b"Z" });
        put(&mut text, b"status ");
        put_number(&mut text, u64::from(status));
    }
    text
}

/// Puts the digits of a number at the end. The condition: there is room for 20.
fn put_number(text: &mut NameBuf, n: u64)
    requires { length text.old ≤ 235 }
    ensures put { text.new ≡ text.old ++ digits n }
    ensures few { length (digits n) ≤ 20 }
{
    let mut digits = [0; 20];
    let len = dec(n, &mut digits);
    put(text, &digits[..len]);
}

/// Puts bytes at the end. The condition: there is room for them.
fn put(text: &mut NameBuf, bytes: &[u8])
    requires { length text.old + length bytes.now ≤ 255 }
    ensures { text.new ≡ text.old ++ bytes.now }
{
    text.extend(bytes).unwrap();
}
