// The names of the queue's files.
ghost use Rattle.std.specs.Prelude.{◌≡◌, ◌≢◌, ◌<◌, slice_index, EachIndex, MatchOption, ℕ, ◌+◌, ◌≤◌, ◌++◌, ◌∷◌, List, ◌↔◌, IsTrue, length, option_map};
ghost use Rattle.mail_bytes.specs.Decimal.{digits};
ghost use Rattle.queue_paths.specs.Names.{name_of, path, split, split_text, before, after, is_used, is_number, used_name};
ghost use Rattle.queue_paths.specs.Names.Name.{Pid as PidName};

use crate::dirs::SPLITS;
use mail_bytes::{NameBuf, dec, undec};

/// A name of the queue: a pid name, or a file of a message by its number. The numbers that the queue uses are u64 from 1.
#[derive(Clone, Copy)]
pub enum Name {
    /// The file that an injector makes first: `pid/PID.START.SEQ`.
    Pid {
        /// The injector's process number.
        pid: u32,
        /// When the injector was started.
        start: u64,
        /// Which try this is, from 1 to 9.
        seq: u8,
    },
    /// The message: `mess/S/N`, with S the split of N.
    Mess(u64),
    /// The envelope while it is written: `intd/N`.
    Intd(u64),
    /// The envelope of a queued message: `todo/N`.
    Todo(u64),
    /// The sender of a preprocessed message: `info/S/N`.
    Info(u64),
    /// The local recipients: `local/S/N`.
    Local(u64),
    /// The remote recipients: `remote/S/N`.
    Remote(u64),
    /// The failures: `bounce/N`.
    Bounce(u64),
    /// The envelope while it is written, of the split layout: `intdx/S/N`.
    SplitIntd(u64),
    /// The envelope of a queued message, of the split layout: `todox/S/N`.
    SplitTodo(u64),
}

/// The directory below mess, info, local, remote, intdx or todox that the files of this number lie in, from 0 to 22.
pub fn split(n: u64) -> u64
    ensures { result ≡ split n }
{
    n % SPLITS
}

/// Replaces `into` by the text of a name. Takes no memory.
#[tactic(auto, unfolding(crate::specs::Names::path))]
pub fn path(name: &Name, into: &mut NameBuf)
    ensures { into.new ≡ path (name_of name.now) }
{
    into.clear();
    match name {
        Name::Pid { pid, start, seq } => extend_pid(into, *pid, *start, *seq),
        Name::Mess(n) => extend_split(into, b"mess/", *n),
        Name::Intd(n) => extend_flat(into, b"intd/", *n),
        Name::Todo(n) => extend_flat(into, b"todo/", *n),
        Name::Info(n) => extend_split(into, b"info/", *n),
        Name::Local(n) => extend_split(into, b"local/", *n),
        Name::Remote(n) => extend_split(into, b"remote/", *n),
        Name::Bounce(n) => extend_flat(into, b"bounce/", *n),
        Name::SplitIntd(n) => extend_split(into, b"intdx/", *n),
        Name::SplitTodo(n) => extend_split(into, b"todox/", *n),
    }
}

/// Puts the name that an injector makes first at the end.
#[tactic(auto, unfolding(crate::specs::Names::path))]
fn extend_pid(into: &mut NameBuf, pid: u32, start: u64, seq: u8)
    requires { length into.old ≤ 100 }
    ensures { into.new ≡ into.old ++ path (PidName pid start seq) }
{
    put(into, b"pid/");
    extend_number(into, u64::from(pid));
    put(into, b".");
    extend_number(into, start);
    put(into, b".");
    extend_number(into, u64::from(seq));
}

/// Puts a number's digits at the end.
fn extend_number(into: &mut NameBuf, n: u64)
    requires { length into.old ≤ 200 }
    ensures text { into.new ≡ into.old ++ digits n }
    ensures short { length into.new ≤ length into.old + 20 }
{
    let mut text = [0; 20];
    let len = dec(n, &mut text);
    put(into, &text[..len]);
}

/// Puts a directory and a number at the end.
fn extend_flat(into: &mut NameBuf, dir: &[u8], n: u64)
    requires { length into.old + length dir.now ≤ 100 }
    ensures { into.new ≡ into.old ++ (dir.now ++ digits n) }
{
    put(into, dir);
    extend_number(into, n);
}

/// Puts a directory, a number's split and the number at the end.
fn extend_split(into: &mut NameBuf, dir: &[u8], n: u64)
    requires { length into.old + length dir.now ≤ 100 }
    ensures { into.new ≡ into.old ++ (dir.now ++ split_text n) }
{
    put(into, dir);
    extend_number(into, split(n));
    put(into, b"/");
    extend_number(into, n);
}

/// Puts bytes at the end. The condition: there is room for them.
fn put(into: &mut NameBuf, bytes: &[u8])
    requires { length into.old + length bytes.now ≤ 255 }
    ensures { into.new ≡ into.old ++ bytes.now }
{
    into.extend(bytes).unwrap();
}

/// The name that the queue uses with this text; `None` exactly if it uses none with it. Takes no memory.
pub fn parse(text: &[u8]) -> Option<Name>
    ensures { option_map name_of result ≡ used_name text.now }
{
    pid_name(text)
        .or(split_number(text, b"mess/").map(Name::Mess))
        .or(flat_number(text, b"intd/").map(Name::Intd))
        .or(flat_number(text, b"todo/").map(Name::Todo))
        .or(split_number(text, b"info/").map(Name::Info))
        .or(split_number(text, b"local/").map(Name::Local))
        .or(split_number(text, b"remote/").map(Name::Remote))
        .or(flat_number(text, b"bounce/").map(Name::Bounce))
        .or(split_number(text, b"intdx/").map(Name::SplitIntd))
        .or(split_number(text, b"todox/").map(Name::SplitTodo))
}

/// The number of a text that is a directory and a message number.
fn flat_number(text: &[u8], dir: &[u8]) -> Option<u64>
    ensures { (n : ℕ) → (result ≡ Some n) ↔ (IsTrue (is_number n) × (text.now ≡ dir.now ++ digits n)) }
{
    number(rest_after(text, dir)?)
}

/// The number of a text that is a directory, a message number's split and that number.
fn split_number(text: &[u8], dir: &[u8]) -> Option<u64>
    ensures { (n : ℕ) → (result ≡ Some n) ↔ (IsTrue (is_number n) × (text.now ≡ dir.now ++ split_text n)) }
{
    let (dir, text) = cut(rest_after(text, dir)?, b'/')?;
    let n = number(text)?;
    if undec(dir) == Some(split(n)) {
        Some(n)
    } else {
        None
    }
}

/// The name that an injector makes first.
fn pid_name(text: &[u8]) -> Option<Name>
    ensures read { (name : _) → result ≡ Some name → IsTrue (is_used (name_of name)) × (text.now ≡ path (name_of name)) }
    ensures all { (pid start seq : ℕ) → IsTrue (is_used (PidName pid start seq)) → text.now ≡ path (PidName pid start seq)
        → result ≡ Some (Name.Pid pid start seq) }
{
    let (pid, text) = cut(rest_after(text, b"pid/")?, b'.')?;
    let (start, seq) = cut(text, b'.')?;
    let (pid, start, seq) = (undec(pid)?, undec(start)?, undec(seq)?);
    if pid > u64::from(u32::MAX) || seq == 0 || seq > 9 {
        return None;
    }
    Some(Name::Pid {
        pid: pid as u32,
        start,
        seq: seq as u8,
    })
}

/// A message number.
fn number(text: &[u8]) -> Option<u64>
    ensures { (n : ℕ) → (result ≡ Some n) ↔ (IsTrue (is_number n) × (text.now ≡ digits n)) }
{
    let n = undec(text)?;
    if n > 0 { Some(n) } else { None }
}

/// What stands after a directory's name.
fn rest_after<'a>(text: &'a [u8], dir: &[u8]) -> Option<&'a [u8]>
    ensures { MatchOption result ((rest : List ℕ) → text.now ≢ dir.now ++ rest) (λ rest. text.now ≡ dir.now ++ rest.now) }
{
    text.strip_prefix(dir)
}

/// What stands before and after the first such byte.
fn cut(text: &[u8], sep: u8) -> Option<(&[u8], &[u8])>
    ensures { MatchOption result ((before rest : List ℕ) → text.now ≢ before ++ (sep ∷ rest))
        (λ parts. (parts.0.now ≡ before sep text.now) × (parts.1.now ≡ after sep text.now)
        × (text.now ≡ parts.0.now ++ (sep ∷ parts.1.now))) }
{
    let at = first(text, sep)?;
    Some((&text[..at], &text[at + 1..]))
}

/// The place of the first such byte.
fn first(text: &[u8], sep: u8) -> Option<usize>
    ensures { MatchOption result (EachIndex text.now (λ k. slice_index text.now k ≢ sep))
        (λ at. (at < length text.now) × (slice_index text.now at ≡ sep) × ((k : ℕ) → k < at → slice_index text.now k ≢ sep)) }
{
    text.iter().position(|byte| *byte == sep)
}
