// Lists of pairs of a key and a value, in any order: the first pair of a key gives its value.
ghost use Rattle.std.specs.Prelude.{◌≡◌, ◌<◌, ◌↔◌, ◌==◌, List, ℕ, Some, None, IsSome, IsTrue, position, bytes_eq, nat_eq, vec_len, vec_capacity};
ghost use Rattle.std.specs.Option.{option_copied, option_map};
ghost use Rattle.call_fs.specs.Maps.{put, put_at};
ghost use Rattle.mem_files.specs.Tables.{at_number};
ghost use Rattle.mem_fs.specs.Tables.{at_name};
ghost use Rattle.call_runs.specs.Lists.{IsNamed, IsOpened};

use call_fs::{How, Mode};
use mail_bytes::ByteText;
use std::marker::Model;

/// An open descriptor: the number of its file, and how it came to be.
#[derive(Drop)]
pub struct PlainOpen {
    number: u64,
    mode: Mode,
}

impl Model for PlainOpen {
    ghost use Rattle.call_fs.specs.Disk.{Open};

    ghost Value = { Open };

    ghost view = { λ o. record { number = o.number; mode = o.mode } };
}

impl PlainOpen {
    /// Of this file, in this mode.
    pub fn new(number: u64, mode: Mode) -> Self
        ensures { result ≡ record { number = number; mode = mode } }
    {
        PlainOpen { number, mode }
    }

    /// The number of its file.
    pub fn number(&self) -> u64
        ensures { result ≡ self.now.number }
    {
        self.number
    }
}

/// Where the first pair of a number stands.
pub fn place_of<V>(pairs: &[(u64, V)], number: u64) -> Option<usize>
    ensures { result ≡ position (λ e. number == e.0) pairs.now }
{
    pairs.iter().position(|pair| number == pair.0)
}

/// The value of a number.
pub fn value_of<V>(pairs: &[(u64, V)], number: u64) -> Option<&V>
    ensures { option_copied result ≡ at_number pairs.now number }
{
    let at = place_of(pairs, number)?;
    Some(&pairs[at].1)
}

/// Gives a number a value. The condition: there is room for one more pair.
pub fn set<V: Drop>(pairs: &mut Vec<(u64, V)>, number: u64, value: V)
    requires { vec_len pairs.old < vec_capacity pairs.old }
    ensures { at_number pairs.new.items ≡ put (at_number pairs.old.items) number (Some value) }
{
    match place_of(pairs, number) {
        Some(at) => {
            pairs[at] = (number, value);
        }
        None => {
            pairs.push((number, value)).unwrap();
        }
    }
}

/// Takes a number's value away.
pub fn remove<V: Drop>(pairs: &mut Vec<(u64, V)>, number: u64)
    ensures { at_number pairs.new.items ≡ put (at_number pairs.old.items) number None }
{
    pairs.retain(|pair| number != pair.0);
}

/// Where the first pair of a name stands.
fn place_of_name(names: &[(ByteText, u64)], name: &[u8]) -> Option<usize>
    ensures { result ≡ position (λ e. bytes_eq name.now e.0) names.now }
{
    names.iter().position(|one| name == one.0.as_slice())
}

/// The number of a name.
pub fn number_of(names: &[(ByteText, u64)], name: &[u8]) -> Option<u64>
    ensures { result ≡ at_name names.now name.now }
{
    let at = place_of_name(names, name)?;
    Some(names[at].1)
}

/// A name more. The conditions: it isn't there, and there is room for it.
pub fn add_name(names: &mut Vec<(ByteText, u64)>, name: ByteText, number: u64)
    requires free { at_name names.old.items name ≡ None }
    requires room { vec_len names.old < vec_capacity names.old }
    ensures { at_name names.new.items ≡ put_at (at_name names.old.items) name (Some number) }
{
    names.push((name, number)).unwrap();
}

/// Takes a name away.
pub fn remove_name(names: &mut Vec<(ByteText, u64)>, name: &[u8])
    ensures { at_name names.new.items ≡ put_at (at_name names.old.items) name.now None }
{
    names.retain(|one| name != one.0.as_slice());
}

/// The number on which a descriptor is open.
pub fn opened_on(opens: &[(u64, PlainOpen)], fd: u64) -> Option<u64>
    ensures { result ≡ option_map (λ o. o.number) (at_number opens.now fd) }
{
    Some(value_of(opens, fd)?.number())
}

/// Whether a descriptor is open.
pub fn is_open(opens: &[(u64, PlainOpen)], fd: u64) -> bool
    ensures { IsTrue result ↔ IsSome (at_number opens.now fd) }
{
    match value_of(opens, fd) {
        Some(_) => true,
        None => false,
    }
}

/// Whether this is the number that was found.
fn is_number(found: Option<u64>, number: u64) -> bool
    ensures { IsTrue result ↔ (found ≡ Some number) }
{
    match found {
        Some(n) => n == number,
        None => false,
    }
}

/// Whether a name has the number.
pub fn is_named(names: &[(ByteText, u64)], number: u64) -> bool
    ensures { IsTrue result ↔ IsNamed names.now number }
{
    for one in names {
        if is_number(number_of(names, one.0.as_slice()), number) {
            return true;
        }
    }
    false
}

/// Whether a descriptor is open on the number.
pub fn is_opened(opens: &[(u64, PlainOpen)], number: u64) -> bool
    ensures { IsTrue result ↔ IsOpened opens.now number }
{
    for one in opens {
        if is_number(opened_on(opens, one.0), number) {
            return true;
        }
    }
    false
}
