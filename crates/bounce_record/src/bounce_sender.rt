// The return of a message.
ghost use Rattle.std.specs.Prelude.{◌≡◌, false, IfOk, IsOk, OnOk, OnErr};
ghost use Rattle.call_fs.specs.Program.{due_of, came_of};
ghost use Rattle.mail_bytes.specs.Moments.{IsMoment};
ghost use Rattle.bounce_record.specs.Returning.{answered, awaited_row, bare, bounce_at, due_by, given_row, goes, made, message_opened, message_read, message_row, notes_opened, notes_read, notes_row, return_begun, moved, started_row, unlinked_row};
ghost use Rattle.bounce_record.specs.Rows.{takes_memory};

use crate::input::input_of;
use crate::names::put_return_name;
use crate::{Bounce, ReturnRow, bounce_message};
use address_rules::Controls;
use call_fs::{Answer, Call, Child, Fd, FsError, Got, How, Need, PIECE, Port};
use mail_bytes::{Memory, NameBuf};
use std::alloc::Global;
use std::marker::Model;

/// The return of a message that couldn't be delivered to each of its recipients, as a machine: `need` says what is done next,
/// and `done` hands in what came of it. It reads the bounce file and the message file, has the bounce injected, and unlinks
/// the bounce file once the injector has ended with 0. The bounce file of a double bounce that came back is unlinked without
/// an injection. It keeps nothing once it has ended.
#[derive(Drop)]
pub struct BounceSender {
    n: u64,
    row: ReturnRow,
    notes: Vec<u8>,
    message: Vec<u8>,
    input: Vec<u8>,
    room: u64,
    lent: NameBuf,
}

impl Model for BounceSender {
    ghost use Rattle.bounce_record.specs.Returning.{Returning};

    ghost Value = { Returning };

    ghost use Rattle.bounce_record.specs.Inside.{HoldsSender, returning_of};

    ghost view = { returning_of };

    ghost invariant = { HoldsSender };
}

impl BounceSender {
    /// Nothing is returned, and nothing is to be. Takes no memory.
    pub fn idle(alloc: Global) -> Self
        ensures { result ≡ bare 0 ReturnRow.Over }
    {
        BounceSender {
            n: 0,
            row: ReturnRow::Over,
            notes: Vec::new(alloc),
            message: Vec::new(alloc),
            input: Vec::new(alloc),
            room: 0,
            lent: NameBuf::new(),
        }
    }

    /// Begins with message n, whatever it did before. Takes no memory.
    pub fn begin(&mut self, alloc: Global, n: u64)
        ensures { self.new ≡ return_begun n }
    {
        self.end(alloc, n, ReturnRow::Open);
    }

    /// The number of the message.
    pub fn number(&self) -> u64
        ensures { result ≡ self.now.n }
    {
        self.n
    }

    /// Where it stands.
    pub fn row(&self) -> ReturnRow
        ensures { result ≡ self.now.row }
    {
        self.row
    }

    /// What it does next; once it has ended, nothing. Takes no memory.
    pub fn need(&self) -> Need<'_>
        ensures { due_of result ≡ due_by self.now }
    {
        let name = self.lent.as_slice();
        match self.row {
            ReturnRow::Open | ReturnRow::OpenMessage => Need::File(Call::Open(name, How::Read)),
            ReturnRow::ReadNotes { fd } => {
                Need::File(Call::ReadAt(fd, self.notes.len() as u64, PIECE as u64))
            }
            ReturnRow::ReadMessage { fd } => {
                Need::File(Call::ReadAt(fd, self.message.len() as u64, PIECE as u64))
            }
            ReturnRow::CloseNotes { fd }
            | ReturnRow::CloseMessage { fd }
            | ReturnRow::Shut { fd } => Need::File(Call::Close(fd)),
            ReturnRow::Start => Need::Start(Child::Bounce { room: self.room }),
            ReturnRow::Give { .. } => Need::Give(Port::Program(0), self.input.as_slice()),
            ReturnRow::Await { .. } => Need::Take(Port::Status(0)),
            ReturnRow::Unlink | ReturnRow::Discard => Need::File(Call::Unlink(name)),
            ReturnRow::Over | ReturnRow::Failed => Need::Wait,
        }
    }

    /// Hands in what came of its need, which was done at this moment, by these controls and the sender of the message. After
    /// `Memory` it is unchanged, and the same may be handed in again. Only what comes of a read, and of the close of the message
    /// file, takes memory. The condition: a clock may tell the moment.
    pub fn done(
        &mut self,
        alloc: Global,
        controls: &Controls,
        sender: &[u8],
        now: u64,
        got: &Got<'_>,
    ) -> Result<(), Memory>
        requires { IsMoment now }
        ensures ok { OnOk result (self.new ≡ moved controls.now sender.now self.old now (came_of got.now)) }
        ensures memory { takes_memory self.old.row ≡ false → IsOk result }
        ensures err { OnErr result (self.new ≡ self.old) }
    {
        match self.row {
            ReturnRow::Start => self.go(alloc, started_row(got)),
            ReturnRow::Give { pid } => self.go(alloc, given_row(pid, got)),
            ReturnRow::Await { .. } => self.go(alloc, awaited_row(got)),
            _ => {
                if let Got::File(answer, bytes) = got {
                    self.answered(alloc, controls, sender, now, answer, bytes)?;
                }
            }
        }
        Ok(())
    }

    /// After the answer to a file call.
    fn answered(
        &mut self,
        alloc: Global,
        controls: &Controls,
        sender: &[u8],
        now: u64,
        answer: &Answer,
        bytes: &[u8],
    ) -> Result<(), Memory>
        requires { IsMoment now }
        ensures ok { OnOk result (self.new ≡ answered controls.now sender.now self.old.row self.old now answer.now bytes.now) }
        ensures memory { takes_memory self.old.row ≡ false → IsOk result }
        ensures err { OnErr result (self.new ≡ self.old) }
    {
        match self.row {
            ReturnRow::Open => self.go(alloc, notes_opened(answer)),
            ReturnRow::ReadNotes { fd } => self.notes_read(fd, answer, bytes)?,
            ReturnRow::CloseNotes { .. } => self.go(alloc, ReturnRow::OpenMessage),
            ReturnRow::OpenMessage => self.go(alloc, message_opened(answer)),
            ReturnRow::ReadMessage { fd } => self.message_read(fd, answer, bytes)?,
            ReturnRow::CloseMessage { .. } => self.make(alloc, controls, sender, now)?,
            ReturnRow::Shut { .. } => self.go(alloc, ReturnRow::Failed),
            ReturnRow::Unlink | ReturnRow::Discard => self.go(alloc, unlinked_row(answer)),
            ReturnRow::Start | ReturnRow::Give { .. } | ReturnRow::Await { .. } => {}
            ReturnRow::Over | ReturnRow::Failed => {}
        }
        Ok(())
    }

    /// After a read of the bounce file.
    fn notes_read(&mut self, fd: Fd, answer: &Answer, bytes: &[u8]) -> Result<(), Memory>
        ensures ok { OnOk result (self.new ≡ notes_read self.old fd answer.now bytes.now) }
        ensures err { OnErr result (self.new ≡ self.old) }
    {
        match answer {
            Answer::Count(_) => {
                self.notes.extend_from_slice(bytes)?;
                self.stand(notes_row(fd, bytes));
            }
            _ => self.stand(ReturnRow::Shut { fd }),
        }
        Ok(())
    }

    /// After a read of the message file.
    fn message_read(&mut self, fd: Fd, answer: &Answer, bytes: &[u8]) -> Result<(), Memory>
        ensures ok { OnOk result (self.new ≡ message_read self.old fd answer.now bytes.now) }
        ensures err { OnErr result (self.new ≡ self.old) }
    {
        match answer {
            Answer::Count(_) => {
                self.message.extend_from_slice(bytes)?;
                self.stand(message_row(fd, bytes));
            }
            _ => self.stand(ReturnRow::Shut { fd }),
        }
        Ok(())
    }

    /// Both files were read: the bounce is made of them.
    fn make(
        &mut self,
        alloc: Global,
        controls: &Controls,
        sender: &[u8],
        now: u64,
    ) -> Result<(), Memory>
        requires { IsMoment now }
        ensures ok { OnOk result (self.new ≡ made self.old (bounce_at controls.now sender.now self.old now)) }
        ensures err { OnErr result (self.new ≡ self.old) }
    {
        match self.bounce(alloc, controls, sender, now)? {
            None => self.end(alloc, self.n, ReturnRow::Discard),
            Some(bounce) => {
                let input = input_of(alloc, &bounce)?;
                self.end(alloc, self.n, ReturnRow::Start);
                self.input = input.text;
                self.room = input.room;
            }
        }
        Ok(())
    }

    /// What is injected, if something is.
    fn bounce(
        &self,
        alloc: Global,
        controls: &Controls,
        sender: &[u8],
        now: u64,
    ) -> Result<Option<Bounce>, Memory>
        requires { IsMoment now }
        ensures { IfOk result (λ bounce. bounce ≡ bounce_at controls.now sender.now self.now now) }
    {
        bounce_message(
            alloc,
            controls.bounce_from.as_slice(),
            controls.bounce_host.as_slice(),
            controls.double_bounce_to.as_slice(),
            controls.double_bounce_host.as_slice(),
            sender,
            self.notes.as_slice(),
            self.message.as_slice(),
            now,
        )
    }

    /// Goes to a row; at its end it keeps nothing.
    fn go(&mut self, alloc: Global, row: ReturnRow)
        ensures { self.new ≡ goes self.old row }
    {
        match row {
            ReturnRow::Over | ReturnRow::Failed => self.end(alloc, self.n, row),
            _ => self.stand(row),
        }
    }

    /// Stands at a row.
    fn stand(&mut self, row: ReturnRow)
        ensures { self.new ≡ record self.old { row = row } }
    {
        self.row = row;
        put_return_name(row, self.n, &mut self.lent);
    }

    /// Stands at a row of message n, and keeps nothing.
    fn end(&mut self, alloc: Global, n: u64, row: ReturnRow)
        ensures { self.new ≡ bare n row }
    {
        self.notes = Vec::new(alloc);
        self.message = Vec::new(alloc);
        self.input = Vec::new(alloc);
        self.room = 0;
        self.n = n;
        self.row = row;
        put_return_name(row, n, &mut self.lent);
    }
}

/// After the open of the bounce file.
fn notes_opened(answer: &Answer) -> ReturnRow
    ensures { result ≡ notes_opened answer.now }
{
    match answer {
        Answer::Opened(fd) => ReturnRow::ReadNotes { fd: *fd },
        Answer::Refused(FsError::NotThere) => ReturnRow::Over,
        _ => ReturnRow::Failed,
    }
}

/// After the open of the message file.
fn message_opened(answer: &Answer) -> ReturnRow
    ensures { result ≡ message_opened answer.now }
{
    match answer {
        Answer::Opened(fd) => ReturnRow::ReadMessage { fd: *fd },
        _ => ReturnRow::Failed,
    }
}

/// After these bytes of the bounce file: a piece that isn't full is the last one.
fn notes_row(fd: Fd, bytes: &[u8]) -> ReturnRow
    ensures { result ≡ notes_row fd bytes.now }
{
    if bytes.len() < PIECE {
        ReturnRow::CloseNotes { fd }
    } else {
        ReturnRow::ReadNotes { fd }
    }
}

/// After these bytes of the message file.
fn message_row(fd: Fd, bytes: &[u8]) -> ReturnRow
    ensures { result ≡ message_row fd bytes.now }
{
    if bytes.len() < PIECE {
        ReturnRow::CloseMessage { fd }
    } else {
        ReturnRow::ReadMessage { fd }
    }
}

/// After the start of the injector.
fn started_row(got: &Got<'_>) -> ReturnRow
    ensures { result ≡ started_row (came_of got.now) }
{
    match got {
        Got::Started { pid } => ReturnRow::Give { pid: *pid },
        _ => ReturnRow::Failed,
    }
}

/// After the giving to it.
fn given_row(pid: u32, got: &Got<'_>) -> ReturnRow
    ensures { result ≡ given_row pid (came_of got.now) }
{
    match got {
        Got::Gave => ReturnRow::Await { pid },
        _ => ReturnRow::Failed,
    }
}

/// After its end: the bounce is queued if it ended with 0.
fn awaited_row(got: &Got<'_>) -> ReturnRow
    ensures { result ≡ awaited_row (came_of got.now) }
{
    match got {
        Got::Ended(0) => ReturnRow::Unlink,
        _ => ReturnRow::Failed,
    }
}

/// After the unlink of the bounce file.
fn unlinked_row(answer: &Answer) -> ReturnRow
    ensures { result ≡ unlinked_row answer.now }
{
    match answer {
        Answer::Done => ReturnRow::Over,
        _ => ReturnRow::Failed,
    }
}
