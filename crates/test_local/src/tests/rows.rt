// Deliveries as rows of text.

use super::cases::{PLAIN, base_of};

/// How a command or the injector ends.
#[derive(Clone, Copy)]
pub enum Exit {
    /// With this status.
    With(u8),
    /// It crashes.
    Crash,
    /// A command can't be run; how the injector ended can't be told.
    Failed,
    /// A command finds no memory; of the injector as `Failed`.
    Memory,
}

/// A delivery as a row of text: what it is started with and meets, and what comes of it. The row has the name of a delivery that
/// it is like, and then its own fields, each `~KEY VALUE`; the others are as there.
///
/// - `home`, `local`, `dash`, `ext`, `domain`, `sender` and `line` are words of its command line.
/// - `moment` is the moment of its first step, and `pace` by how much the clock goes on at each.
/// - `input` is its whole input, in parts, each taken in pieces of `piece` bytes; by `breaks yes` a taking fails in place of its
///   end.
/// - `files` has the files on the disk, each `NAME=BYTES`; `fault` is the call that fails, from 1, closes not counted, or 0.
/// - `exits` tells how its commands end, in order, and `others` how all others do: a status, `crash`, `failed` or `memory`.
/// - `start` tells what comes of the start of its injector: by `well` it is process 83, and it can't be started, or finds no
///   memory, by `failed` and `memory`; and `injector` tells how it ends.
/// - `deaf` is which of its gives fails, from 1, or 0.
/// - `status` is its exit status, and `said` what it prints.
/// - `commands` are those that it runs, each ended by a newline; `started` is the user's number and the room of the injector
///   that is to be started, if there is one, and `given` what that is given, in parts.
/// - `at` is the file that is looked at, and `dropped` what stands in it, in parts, or `-` if it isn't there.
/// - By `left yes` a file is left in `home/j/Maildir/tmp`.
///
/// Parts and files stand between `^`. A part or a file of one byte many times is `*COUNT BYTE`. `#` stands before a comment.
#[derive(Clone, Copy)]
pub struct Case<'a> {
    own: &'a str,
    base: &'a str,
    every: Option<u8>,
}

impl<'a> Case<'a> {
    /// That of a row.
    pub fn of(row: &'a str) -> Case<'a> {
        let (name, own) = row.split_once('~').unwrap_or((row, ""));
        Case {
            own,
            base: base_of(name),
            every: None,
        }
    }

    /// That of a row, but all its commands, and its injector, end with this status.
    pub fn with_status(row: &'a str, status: u8) -> Case<'a> {
        Case {
            every: Some(status),
            ..Case::of(row)
        }
    }

    /// The value of this key.
    pub fn text(&self, key: &str) -> &'a str {
        match field(self.own, key) {
            Some(value) => value,
            None => base_text(self.base, key),
        }
    }

    /// The bytes of the value of this key.
    pub fn bytes(&self, key: &str) -> &'a [u8] {
        self.text(key).as_bytes()
    }

    /// The value of this key as a number.
    pub fn number(&self, key: &str) -> u64 {
        number_of(self.text(key))
    }

    /// Whether the value of this key is `yes`.
    pub fn is(&self, key: &str) -> bool {
        self.text(key) == "yes"
    }

    /// How the command of this index ends, from 0.
    pub fn exit(&self, at: usize) -> Exit {
        match (self.every, self.text("exits").split(' ').nth(at)) {
            (Some(status), _) => Exit::With(status),
            (None, None | Some("")) => exit_of(self.text("others")),
            (None, Some(word)) => exit_of(word),
        }
    }

    /// How the injector ends.
    pub fn injector(&self) -> Exit {
        match self.every {
            Some(status) => Exit::With(status),
            None => exit_of(self.text("injector")),
        }
    }
}

/// The value of this key, of a delivery with these fields.
fn base_text<'a>(base: &'a str, key: &str) -> &'a str {
    match field(base, key) {
        Some(value) => value,
        None => field(PLAIN, key).unwrap_or(""),
    }
}

/// The value of this key among fields.
fn field<'a>(fields: &'a str, key: &str) -> Option<&'a str> {
    for field in fields.split('~') {
        let (name, value) = field.split_once(' ').unwrap_or((field, ""));
        if name == key {
            return Some(value);
        }
    }
    None
}

/// The number that a text stands for; of another text the greatest.
pub fn number_of(text: &str) -> u64 {
    text.parse::<u64>().unwrap_or(u64::MAX)
}

/// The end that a word stands for.
fn exit_of(word: &str) -> Exit {
    match word {
        "crash" => Exit::Crash,
        "failed" => Exit::Failed,
        "memory" => Exit::Memory,
        _ => Exit::With(word.parse::<u8>().unwrap_or(u8::MAX)),
    }
}

/// The bytes that a part or a file stands for.
pub fn bytes_of(text: &str) -> &[u8] {
    match text.strip_prefix('*') {
        Some(many) => many_of(many),
        None => text.as_bytes(),
    }
}

/// Many bytes of the letter x.
const XS: [u8; 20000] = [b'x'; 20000];

/// Many bytes of the letter h.
const HS: [u8; 401] = [b'h'; 401];

/// Many bytes `#`.
const MARKS: [u8; 9000] = [b'#'; 9000];

/// The bytes of `COUNT BYTE`.
fn many_of(many: &str) -> &'static [u8] {
    let (count, byte) = many.split_once(' ').unwrap_or((many, ""));
    let count = count.parse::<usize>().unwrap_or(0);
    match byte {
        "x" => XS.get(..count).unwrap_or(b""),
        "h" => HS.get(..count).unwrap_or(b""),
        _ => MARKS.get(..count).unwrap_or(b""),
    }
}

/// Whether bytes are these parts, joined.
pub fn is_joined(bytes: &[u8], parts: &str) -> bool {
    let mut rest = bytes;
    for part in parts.split('^') {
        match rest.strip_prefix(bytes_of(part)) {
            Some(after) => rest = after,
            None => return false,
        }
    }
    rest.is_empty()
}
