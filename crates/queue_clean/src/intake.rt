// What a cleaner holds of its input.
ghost use Rattle.std.specs.Prelude.{◌≡◌, ◌≤◌, ◌+◌, ◌%◌, ◌++◌, [], length, take, drop};
ghost use Rattle.queue_clean.specs.Commands.{command_of};
ghost use Rattle.queue_clean.specs.Table.{first_row};
ghost use Rattle.queue_clean.specs.Machine.{kept, next_nul, next_row, after_next};

use crate::Row;
use crate::command::{MOST_COMMAND, read_command};
use crate::taken::Taken;
use call_fs::PIECE;
use mail_bytes::NameBuf;
use std::marker::Model;

/// Before the first command, and before each one that comes so many after it, `pid` is gone through.
pub const ROUND: u8 = 31;

/// What a cleaner holds of its input, in place: the first 100 bytes of the command that it is reading (with as many and a
/// NUL it is too long, whatever comes after them), what it took and hasn't read yet, and how many commands it has taken up, counted modulo 31.
#[derive(Drop)]
pub struct Intake {
    word: NameBuf,
    taken: Taken,
    turn: u8,
}

impl Model for Intake {
    ghost use Rattle.queue_clean.specs.Machine.{Intake};

    ghost Value = { Intake };

    ghost use Rattle.queue_clean.specs.Inside.{intake_of, IsCounted};

    ghost view = { intake_of };

    ghost invariant = { IsCounted };
}

impl Intake {
    /// Nothing was taken yet.
    pub fn new() -> Self
        ensures { result ≡ record { word = []; pending = []; turn = 0 } }
    {
        Intake {
            word: NameBuf::new(),
            taken: Taken::new(),
            turn: 0,
        }
    }

    /// How many commands were taken up, counted modulo 31.
    pub fn turn(&self) -> u8
        ensures { result ≡ self.now.turn }
    {
        self.turn
    }

    /// More of the input was taken; what was taken before was all read. The condition: these are at most 8192 bytes.
    pub fn take(&mut self, bytes: &[u8])
        requires { length bytes.now ≤ PIECE }
        ensures { self.new ≡ record self.old { pending = bytes.now } }
    {
        self.taken.set(bytes);
    }

    /// Reads up to the next NUL, and takes that command up: the row to which it leads. If there is none, all that was
    /// taken is read then, and more is to be taken.
    pub fn next(&mut self) -> Row
        ensures row { result ≡ next_row self.old }
        ensures rest { self.new ≡ after_next self.old }
    {
        match self.next_nul() {
            None => {
                let count = self.taken.as_slice().len();
                self.read(count);
                Row::TakeInput
            }
            Some(count) => {
                self.read(count);
                self.take_up()
            }
        }
    }

    /// How many bytes stand before the next NUL, if one was taken.
    fn next_nul(&self) -> Option<usize>
        ensures { result ≡ next_nul self.now }
    {
        self.taken.as_slice().iter().position(|byte| *byte == 0)
    }

    /// Reads so many bytes of a command. The condition: they were taken.
    fn read(&mut self, count: usize)
        requires { count ≤ length self.old.pending }
        ensures { self.new ≡ record self.old {
          word = kept self.old.word (take count self.old.pending);
          pending = drop count self.old.pending;
        } }
    {
        let room = count.min(MOST_COMMAND - self.word.as_slice().len());
        put(&mut self.word, &self.taken.as_slice()[..room]);
        self.taken.pass(count);
    }

    /// Takes up the command that was read, and passes its NUL: the row to which it leads. The condition: a byte is there.
    fn take_up(&mut self) -> Row
        requires { 1 ≤ length self.old.pending }
        ensures row { result ≡ first_row (command_of self.old.word) }
        ensures rest { self.new ≡ record { word = []; pending = drop 1 self.old.pending; turn = (self.old.turn + 1) % ROUND } }
    {
        let row = Row::first(read_command(self.word.as_slice()));
        self.word.clear();
        self.taken.pass(1);
        self.turn = (self.turn + 1) % ROUND;
        row
    }
}

/// Puts bytes at the end. The condition: there is room for them.
fn put(into: &mut NameBuf, bytes: &[u8])
    requires { length into.old + length bytes.now ≤ 255 }
    ensures { into.new ≡ into.old ++ bytes.now }
{
    into.extend(bytes).unwrap();
}
