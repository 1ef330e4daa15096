// The writing of a note.
ghost use Rattle.std.specs.Prelude.{◌≡◌, ◌≤◌, ◌∷◌, [], IfOk, OnOk, OnErr};
ghost use Rattle.call_fs.specs.Program.{due_of, came_of};
ghost use Rattle.bounce_record.specs.Notes.{note_text};
ghost use Rattle.bounce_record.specs.Rows.{CountsOn};
ghost use Rattle.bounce_record.specs.Writing.{appended_row, created_row, due_by, left_out, next_piece, opened_row, parted_note, piece, stated_row, synced_row, tail_read_row, tail_row, writing_begun, moved, written_row};

use crate::names::put_note_name;
use crate::{NoteRow, note};
use address_rules::{Controls, strip_prefix};
use call_fs::{Answer, Call, Fd, FsError, Got, How, Need, PIECE};
use mail_bytes::{Memory, NameBuf};
use std::alloc::Global;
use std::marker::Model;

/// The writing of one recipient's note at the end of a message's bounce file, as a machine: `need` says what is done next, and
/// `done` hands in what came of it. The file is created if it is missing. Two newlines go before the note if the file isn't
/// empty and doesn't end with two. The file is synced before the note counts as written. Only `begin` takes memory.
#[derive(Drop)]
pub struct NoteWriter {
    n: u64,
    row: NoteRow,
    text: Vec<u8>,
    lent: NameBuf,
}

impl Model for NoteWriter {
    ghost use Rattle.bounce_record.specs.Writing.{Writing};

    ghost Value = { Writing };

    ghost use Rattle.bounce_record.specs.Inside.{HoldsWriter, writing_of};

    ghost view = { writing_of };

    ghost invariant = { HoldsWriter };
}

impl NoteWriter {
    /// Nothing is written, and nothing is to be. Takes no memory.
    pub fn idle(alloc: Global) -> Self
        ensures { result ≡ record { n = 0; row = NoteRow.Written; text = [] } }
    {
        NoteWriter {
            n: 0,
            row: NoteRow::Written,
            text: Vec::new(alloc),
            lent: NameBuf::new(),
        }
    }

    /// Begins with the note of a recipient of message n, whatever it did before: its address as the channel file has it, and
    /// the report. The note names it without the prefix of its virtual domain. After an `Err` all is as before.
    pub fn begin(
        &mut self,
        alloc: Global,
        controls: &Controls,
        n: u64,
        address: &[u8],
        report: &[u8],
    ) -> Result<(), Memory>
        ensures begun { OnOk result (self.new ≡ writing_begun controls.now n address.now report.now) }
        ensures err { OnErr result (self.new ≡ self.old) }
    {
        self.text = parted_note(alloc, controls, address, report)?;
        self.n = n;
        self.row = NoteRow::Open;
        put_note_name(self.row, n, &mut self.lent);
        Ok(())
    }

    /// The number of the message.
    pub fn number(&self) -> u64
        ensures { result ≡ self.now.n }
    {
        self.n
    }

    /// Where it stands.
    pub fn row(&self) -> NoteRow
        ensures { result ≡ self.now.row }
    {
        self.row
    }

    /// What it does next; once it has ended, nothing. Takes no memory.
    pub fn need(&self) -> Need<'_>
        ensures { due_of result ≡ due_by self.now }
    {
        let name = self.lent.as_slice();
        match self.row {
            NoteRow::Open => Need::File(Call::Open(name, How::Append)),
            NoteRow::Create => Need::File(Call::CreateExcl(name)),
            NoteRow::Stat { .. } => Need::File(Call::Stat(name)),
            NoteRow::Read { fd, at, len } => Need::File(Call::ReadAt(fd, at, len)),
            NoteRow::Append { fd, done } => {
                Need::File(Call::Append(fd, piece(self.text.as_slice(), done)))
            }
            NoteRow::Sync { fd } => Need::File(Call::Sync(fd)),
            NoteRow::Close { fd } | NoteRow::Shut { fd } => Need::File(Call::Close(fd)),
            NoteRow::Written | NoteRow::Failed => Need::Wait,
        }
    }

    /// Hands in what came of its need. Takes no memory.
    pub fn done(&mut self, got: &Got<'_>)
        ensures { self.new ≡ moved self.old (came_of got.now) }
    {
        if let Got::File(answer, bytes) = got {
            let row = self.next_row(answer, bytes);
            self.go(row);
        }
    }

    /// Where the answer to its call leads.
    fn next_row(&self, answer: &Answer, bytes: &[u8]) -> NoteRow
        ensures row { result ≡ written_row self.now.row self.now.text answer.now bytes.now }
        ensures counts { CountsOn result }
    {
        match self.row {
            NoteRow::Open => opened_row(answer),
            NoteRow::Create => created_row(answer),
            NoteRow::Stat { fd } => stated_row(fd, answer),
            NoteRow::Read { fd, .. } => tail_read_row(fd, answer, bytes),
            NoteRow::Append { fd, done } => { appended_row(fd, done, self.text.as_slice(), answer) }
            NoteRow::Sync { fd } => synced_row(fd, answer),
            NoteRow::Close { .. } | NoteRow::Written => NoteRow::Written,
            NoteRow::Shut { .. } | NoteRow::Failed => NoteRow::Failed,
        }
    }

    /// Goes to a row. The condition: a piece more than was appended can be counted.
    fn go(&mut self, row: NoteRow)
        requires { CountsOn row }
        ensures { self.new ≡ record self.old { row = row } }
    {
        self.row = row;
        put_note_name(row, self.n, &mut self.lent);
    }
}

/// Two newlines, and the note of an address without the prefix of its virtual domain.
fn parted_note(
    alloc: Global,
    controls: &Controls,
    address: &[u8],
    report: &[u8],
) -> Result<Vec<u8>, Memory>
    ensures { IfOk result (λ text. text.items ≡ parted_note controls.now address.now report.now) }
{
    let note = note(alloc, strip_prefix(controls, address), report)?;
    let mut text = Vec::from_slice(alloc, b"\n\n")?;
    text.extend_from_slice(&note)?;
    Ok(text)
}

/// After the open of the bounce file.
fn opened_row(answer: &Answer) -> NoteRow
    ensures row { result ≡ opened_row answer.now }
    ensures counts { CountsOn result }
{
    match answer {
        Answer::Opened(fd) => NoteRow::Stat { fd: *fd },
        Answer::Refused(FsError::NotThere) => NoteRow::Create,
        _ => NoteRow::Failed,
    }
}

/// After its creation.
fn created_row(answer: &Answer) -> NoteRow
    ensures row { result ≡ created_row answer.now }
    ensures counts { CountsOn result }
{
    match answer {
        Answer::Created(fd, _) => NoteRow::Append { fd: *fd, done: 2 },
        _ => NoteRow::Failed,
    }
}

/// After the stat of the file that was there.
fn stated_row(fd: Fd, answer: &Answer) -> NoteRow
    ensures row { result ≡ stated_row fd answer.now }
    ensures counts { CountsOn result }
{
    match answer {
        Answer::Stat(stat) => tail_row(fd, stat.length),
        _ => NoteRow::Shut { fd },
    }
}

/// The read of the last bytes of a file of this length.
fn tail_row(fd: Fd, length: u64) -> NoteRow
    ensures row { result ≡ tail_row fd length }
    ensures counts { CountsOn result }
{
    if length > 0 {
        NoteRow::Read {
            fd,
            at: length.saturating_sub(2),
            len: length.min(2),
        }
    } else {
        NoteRow::Append { fd, done: 2 }
    }
}

/// After the read of the last bytes.
fn tail_read_row(fd: Fd, answer: &Answer, tail: &[u8]) -> NoteRow
    ensures row { result ≡ tail_read_row fd answer.now tail.now }
    ensures counts { CountsOn result }
{
    match answer {
        Answer::Count(_) => NoteRow::Append {
            fd,
            done: left_out(tail),
        },
        _ => NoteRow::Shut { fd },
    }
}

/// How many bytes of the text are left out after a file that ends so.
fn left_out(tail: &[u8]) -> usize
    ensures is { result ≡ left_out tail.now }
    ensures small { result ≤ 2 }
{
    if tail.ends_with(b"\n\n") { 2 } else { 0 }
}

/// After an append. The condition: the piece that was appended can be counted.
fn appended_row(fd: Fd, done: usize, text: &[u8], answer: &Answer) -> NoteRow
    requires { CountsOn (NoteRow.Append fd done) }
    ensures row { result ≡ appended_row fd done text.now answer.now }
    ensures counts { CountsOn result }
{
    match answer {
        Answer::Done => next_piece(fd, done + PIECE, text),
        _ => NoteRow::Shut { fd },
    }
}

/// After so many bytes of the text.
fn next_piece(fd: Fd, done: usize, text: &[u8]) -> NoteRow
    ensures row { result ≡ next_piece fd done text.now }
    ensures counts { CountsOn result }
{
    if done < text.len() {
        NoteRow::Append { fd, done }
    } else {
        NoteRow::Sync { fd }
    }
}

/// After the sync.
fn synced_row(fd: Fd, answer: &Answer) -> NoteRow
    ensures row { result ≡ synced_row fd answer.now }
    ensures counts { CountsOn result }
{
    match answer {
        Answer::Done => NoteRow::Close { fd },
        _ => NoteRow::Shut { fd },
    }
}

/// The next piece of a text, after so many bytes.
fn piece(text: &[u8], done: usize) -> &[u8]
    ensures { result.now ≡ piece text.now done }
{
    let rest = &text[done.min(text.len())..];
    &rest[..rest.len().min(PIECE)]
}
