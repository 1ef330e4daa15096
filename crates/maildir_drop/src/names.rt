// The names of a drop.
ghost use Rattle.std.specs.Prelude.{◌≡◌, ◌++◌, ◌∷◌, ◌≤◌, IfOk, OnOk, take, length};
ghost use Rattle.mail_bytes.specs.Decimal.{digits};
ghost use Rattle.maildir_drop.specs.Names.{dir_name, file_name, is_name, mark, pair, pair_at};

use crate::Attempt;
use mail_bytes::{ByteText, Memory, dec};
use std::alloc::Global;

/// A name of a drop in both directories.
#[derive(Drop)]
pub struct NamePair {
    /// In `tmp`.
    pub tmp: ByteText,
    /// In `new`.
    pub new: ByteText,
}

/// The names that a drop tries, one after the other.
#[derive(Drop)]
pub struct DropNames {
    /// The first.
    pub first: NamePair,
    /// The second, if the first is taken.
    pub second: NamePair,
    /// The third, if the second is taken too.
    pub third: NamePair,
}

impl DropNames {
    /// The names of a try.
    pub fn pair(&self, attempt: Attempt) -> &NamePair
        ensures { result.now ≡ pair_at self.now attempt }
    {
        match attempt {
            Attempt::First => &self.first,
            Attempt::Second => &self.second,
            Attempt::Third => &self.third,
        }
    }
}

/// The names of a try. The error: out of memory.
pub fn pair(
    alloc: Global,
    dir: &[u8],
    moment: u64,
    pid: u32,
    host: &[u8],
    attempt: Attempt,
) -> Result<NamePair, Memory>
    ensures { IfOk result (λ names. names ≡ pair dir.now moment pid host.now attempt) }
{
    let name = file_name(alloc, moment, pid, host, attempt)?;
    Ok(NamePair {
        tmp: dir_name(alloc, dir, b"tmp/", name.as_slice())?,
        new: dir_name(alloc, dir, b"new/", name.as_slice())?,
    })
}

/// A name in a directory of the maildir.
fn dir_name(alloc: Global, dir: &[u8], part: &[u8], name: &[u8]) -> Result<ByteText, Memory>
    ensures { IfOk result (λ text. text ≡ dir_name dir.now part.now name.now) }
{
    let mut text = ByteText::from_slice(alloc, dir)?;
    text.extend(part)?;
    text.extend(name)?;
    Ok(text)
}

/// `TIME.PID.HOST`, or with a mark after PID.
fn file_name(
    alloc: Global,
    moment: u64,
    pid: u32,
    host: &[u8],
    attempt: Attempt,
) -> Result<ByteText, Memory>
    ensures { IfOk result (λ text. text ≡ file_name moment pid host.now attempt) }
{
    let mut text = ByteText::new(alloc);
    put_number(&mut text, moment)?;
    text.extend(b".")?;
    put_number(&mut text, u64::from(pid))?;
    text.extend(mark(attempt))?;
    text.extend(b".")?;
    text.extend(host)?;
    Ok(text)
}

/// Puts a number at the end of a text.
fn put_number(text: &mut ByteText, number: u64) -> Result<(), Memory>
    ensures { OnOk result (text.new ≡ text.old ++ digits number) }
{
    let mut into = [0; 20];
    let len = dec(number, &mut into);
    text.extend(&into[..len])
}

/// What comes after PID.
fn mark(attempt: Attempt) -> &'static [u8]
    ensures { result.now ≡ mark attempt }
{
    match attempt {
        Attempt::First => b"",
        Attempt::Second => b"_1",
        Attempt::Third => b"_2",
    }
}

/// Whether it has the form of a file's name.
pub fn is_name(name: &[u8]) -> bool
    ensures { result ≡ is_name name.now }
{
    call_fs::is_name(name)
}
