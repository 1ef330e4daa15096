// What an injector was fed of the text at hand.
ghost use Rattle.std.specs.Prelude.{◌≡◌, ◌≤◌, ◌<◌, ◌+◌, ◌++◌, ◌∷◌, [], List, ℕ, true, length, min, ◌-◌};
ghost use Rattle.mail_bytes.specs.Decimal.{digits};
ghost use Rattle.queue_inject.specs.Texts.{limit, end_status};
ghost use Rattle.queue_inject.specs.Machine.{with_message, new_todo, heard_after};
ghost use Rattle.queue_inject.specs.Rows.{is_open, verdict_after, row_by, message_over};
ghost use Rattle.queue_inject.specs.Stands.{Reads};

use crate::piece::Piece;
use crate::steps::next_row;
use crate::{InputEnd, Row};
use call_fs::PIECE;
use envelope_records::{EnvFault, EnvStep, EnvelopeReader};
use mail_bytes::dec;
use queue_limits::{INPUT, LONG_ADDRESS, MALFORMED, MOST_BYTES, TOO_LONG};
use std::marker::Model;

/// What the text at hand is, as far as it was fed.
#[derive(Clone, Copy)]
pub enum Verdict {
    /// It may go on.
    Open,
    /// It is all there.
    Whole,
    /// It is all there, and after it comes a fault with this exit status.
    Faulty { status: u8 },
}

impl Verdict {
    ghost use Rattle.std.specs.Prelude.{◌≡◌};
    ghost use Rattle.queue_inject.specs.Rows.{is_open};

    /// Whether it may go on.
    pub fn is_open(self) -> bool
        ensures { result ≡ is_open self }
    {
        matches!(self, Verdict::Open)
    }
}

/// The next piece of a text that an injector writes, and what is known of the rest.
#[derive(Drop)]
pub struct Intake {
    piece: Piece,
    fed: usize,
    verdict: Verdict,
    reader: EnvelopeReader,
}

impl Model for Intake {
    ghost use Rattle.queue_inject.specs.Machine.{Heard};

    ghost Value = { Heard };

    ghost use Rattle.queue_inject.specs.inside.Fields.{heard_of};

    ghost view = { heard_of };
}

impl Intake {
    /// Nothing of the message was fed yet: its file begins with this line. The condition: the line fits in a piece.
    pub fn new(line: &[u8]) -> Self
        requires { length line.now ≤ PIECE }
        ensures piece { result.piece ≡ line.now }
        ensures fed { result.fed ≡ 0 }
        ensures verdict { result.verdict ≡ Verdict.Open }
    {
        let mut piece = Piece::new();
        piece.extend(line);
        Intake {
            piece,
            fed: 0,
            verdict: Verdict::Open,
            reader: EnvelopeReader::new(),
        }
    }

    /// Whether the text may go on.
    pub fn is_open(&self) -> bool
        ensures { result ≡ is_open self.now.verdict }
    {
        self.verdict.is_open()
    }

    /// How many bytes of the text's part were fed.
    pub fn fed(&self) -> usize
        ensures { result ≡ self.now.fed }
    {
        self.fed
    }

    /// How many more bytes may be fed: as many as the piece has room for, and one past the limit in all.
    pub fn room(&self) -> usize
        ensures { result ≡ min (PIECE - length self.now.piece) ((limit + 1) - self.now.fed) }
    {
        (PIECE - self.piece.len()).min((MOST_BYTES + 1).saturating_sub(self.fed))
    }

    /// The next piece of the text.
    pub fn piece(&self) -> &[u8]
        ensures piece { result.now ≡ self.now.piece }
        ensures short { length result.now ≤ PIECE }
    {
        self.piece.as_slice()
    }

    /// The row whose call is due, if the last answer led to this one.
    pub fn next_row(&self, row: Row) -> Row
        ensures { result ≡ row_by self.now.verdict (length self.now.piece) row }
    {
        next_row(row, self.verdict, self.piece.len())
    }

    /// More of the message, of which nothing past the limit is kept. The condition: there is room.
    pub fn feed_message(&mut self, bytes: &[u8])
        requires piece { length self.old.piece + length bytes.now ≤ PIECE }
        requires fed { self.old.fed + length bytes.now ≤ limit + 1 }
        ensures { self.new ≡ with_message self.old bytes.now }
    {
        let kept = MOST_BYTES.saturating_sub(self.fed).min(bytes.len());
        self.piece.extend(&bytes[..kept]);
        self.fed += bytes.len();
        if self.fed > MOST_BYTES {
            self.verdict = Verdict::Faulty { status: TOO_LONG };
        }
    }

    /// More of the envelope. The condition: there is room.
    pub fn feed_envelope(&mut self, bytes: &[u8])
        requires piece { length self.old.piece + length bytes.now ≤ PIECE }
        requires fed { self.old.fed + length bytes.now ≤ limit + 1 }
        requires within { is_open self.old.verdict ≡ true → self.old.fed ≤ limit }
        ensures fed { self.new.fed ≡ self.old.fed + length bytes.now }
        ensures within { is_open self.new.verdict ≡ true → self.new.fed ≤ limit }
        ensures piece { length self.new.piece ≤ length self.old.piece + length bytes.now }
        ensures grows { length self.old.piece ≤ length self.new.piece }
        ensures kept { is_open self.new.verdict ≡ true → length self.new.piece ≡ length self.old.piece + length bytes.now }
        ensures reads { (done : ℕ) (head read : List ℕ) → Reads self.old done head read
            → Reads self.new done head (read ++ bytes.now) }
    {
        for byte in bytes {
            self.feed_byte(*byte);
        }
    }

    /// One byte of the envelope. Its last NUL isn't kept, nor what comes after it or after a fault.
    fn feed_byte(&mut self, byte: u8)
        requires piece { length self.old.piece < PIECE }
        requires fed { self.old.fed ≤ limit }
        ensures fed { self.new.fed ≡ self.old.fed + 1 }
        ensures within { is_open self.new.verdict ≡ true → self.new.fed ≤ limit }
        ensures piece { length self.new.piece ≤ length self.old.piece + 1 }
        ensures grows { length self.old.piece ≤ length self.new.piece }
        ensures kept { is_open self.new.verdict ≡ true → length self.new.piece ≡ length self.old.piece + 1 }
        ensures still { is_open self.new.verdict ≡ true → is_open self.old.verdict ≡ true }
        ensures reads { (done : ℕ) (head read : List ℕ) → Reads self.old done head read
            → Reads self.new done head (read ++ byte ∷ []) }
    {
        if self.verdict.is_open() {
            let step = self.reader.feed(byte);
            self.verdict = verdict_after(step, self.fed < MOST_BYTES);
            if self.verdict.is_open() {
                self.piece.push(byte);
            }
        }
        self.fed += 1;
    }

    /// The message has ended.
    pub fn end_message(&mut self, end: InputEnd)
        ensures { self.new ≡ record self.old { verdict = message_over end } }
    {
        self.verdict = match end {
            InputEnd::Whole => Verdict::Whole,
            InputEnd::Unread => Verdict::Faulty { status: INPUT },
            InputEnd::Malformed => Verdict::Faulty { status: MALFORMED },
        };
    }

    /// The envelope's bytes have ended before it did.
    pub fn end_envelope(&mut self, end: InputEnd)
        ensures { self.new ≡ record self.old { verdict = Verdict.Faulty (end_status end) } }
    {
        let status = match end {
            InputEnd::Whole | InputEnd::Unread => INPUT,
            InputEnd::Malformed => MALFORMED,
        };
        self.verdict = Verdict::Faulty { status };
    }

    /// What is held after the call of this row: a written piece is gone, and once intd is there the todo text of this user
    /// and process begins.
    pub fn go_on(&mut self, row: Row, uid: u32, pid: u32)
        ensures after { self.new ≡ heard_after row uid pid self.old }
        ensures short { length self.old.piece ≤ PIECE → length self.new.piece ≤ PIECE }
    {
        match row {
            Row::AppendMess { .. } | Row::AppendTodo { .. } => self.piece.clear(),
            Row::CreateIntd { .. } => self.begin_todo(uid, pid),
            _ => {}
        }
    }

    /// Nothing of the envelope was fed yet.
    fn begin_todo(&mut self, uid: u32, pid: u32)
        ensures begun { self.new ≡ new_todo uid pid }
        ensures short { length self.new.piece ≤ PIECE }
    {
        self.piece.clear();
        put_number(&mut self.piece, b'u', uid);
        put_number(&mut self.piece, b'p', pid);
        self.fed = 0;
        self.verdict = Verdict::Open;
        self.reader = EnvelopeReader::new();
    }
}

/// A letter, the digits of a number, NUL, at the end of a piece. The condition: there is room.
fn put_number(piece: &mut Piece, letter: u8, number: u32)
    requires { length piece.old ≤ 8000 }
    ensures text { piece.new ≡ piece.old ++ letter ∷ (digits number ++ 0 ∷ []) }
    ensures short { length piece.new ≤ length piece.old + 22 }
{
    let mut text = [0; 20];
    let len = dec(u64::from(number), &mut text);
    piece.push(letter);
    piece.extend(&text[..len]);
    piece.push(0);
}

/// What a byte of an open envelope makes of it; the first one past the limit is a fault in any case.
fn verdict_after(step: EnvStep, within: bool) -> Verdict
    ensures { result ≡ verdict_after step within }
{
    match step {
        EnvStep::Fault(EnvFault::TooLong) => Verdict::Faulty {
            status: LONG_ADDRESS,
        },
        _ if !within => Verdict::Faulty { status: TOO_LONG },
        EnvStep::Fault(EnvFault::EndEarly) => Verdict::Faulty { status: INPUT },
        EnvStep::Fault(EnvFault::Format) => Verdict::Faulty { status: MALFORMED },
        EnvStep::End => Verdict::Whole,
        EnvStep::More | EnvStep::Sender | EnvStep::Recipient => Verdict::Open,
    }
}
