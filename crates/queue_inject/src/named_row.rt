// A row with the names that its call has.
ghost use Rattle.std.specs.Prelude.{◌≡◌};
ghost use Rattle.call_fs.specs.Program.{due_of};
ghost use Rattle.queue_inject.specs.Table.{call_at};
ghost use Rattle.queue_inject.specs.Rows.{seq_in, number_in};

use crate::Row;
use call_fs::{Call, Need};
use mail_bytes::NameBuf;
use queue_limits::DONE;
use queue_paths::{Name, path};
use std::marker::Model;

/// A row of an injector's table, with the names that its call and those that follow its text have, held in place.
#[derive(Drop)]
pub struct NamedRow {
    pid: u32,
    start: u64,
    row: Row,
    pid_name: NameBuf,
    mess_name: NameBuf,
    intd_name: NameBuf,
    todo_name: NameBuf,
}

impl Model for NamedRow {
    ghost use Rattle.queue_inject.specs.Rows.{Place};

    ghost Value = { Place };

    ghost use Rattle.queue_inject.specs.inside.Fields.{HasNames};

    ghost view = { λ i. record { pid = i.pid; start = i.start; row = i.row } };

    ghost invariant = { HasNames };
}

impl NamedRow {
    /// The first row.
    pub fn new(pid: u32, start: u64) -> Self
        ensures { result ≡ record { pid = pid; start = start; row = Row.Create 1 } }
    {
        let mut pid_name = NameBuf::new();
        path(&Name::Pid { pid, start, seq: 1 }, &mut pid_name);
        NamedRow {
            pid,
            start,
            row: Row::Create { seq: 1 },
            pid_name,
            mess_name: NameBuf::new(),
            intd_name: NameBuf::new(),
            todo_name: NameBuf::new(),
        }
    }

    /// The injector's process number.
    pub fn pid(&self) -> u32
        ensures { result ≡ self.now.pid }
    {
        self.pid
    }

    /// When the injector was started.
    pub fn start(&self) -> u64
        ensures { result ≡ self.now.start }
    {
        self.start
    }

    /// The row.
    pub fn row(&self) -> Row
        ensures { result ≡ self.now.row }
    {
        self.row
    }

    /// Goes on to another row.
    pub fn go(&mut self, row: Row)
        ensures { self.new ≡ record self.old { row = row } }
    {
        if let Some(seq) = row.seq() {
            let (pid, start) = (self.pid, self.start);
            path(&Name::Pid { pid, start, seq }, &mut self.pid_name);
        }
        if let Some(number) = row.number() {
            path(&Name::Mess(number), &mut self.mess_name);
            path(&Name::Intd(number), &mut self.intd_name);
            path(&Name::Todo(number), &mut self.todo_name);
        }
        self.row = row;
    }

    /// The call of a row, whose append writes this piece, or its end. The conditions: its call has the names that are held.
    pub fn need<'a>(&'a self, row: Row, piece: &'a [u8]) -> Need<'a>
        requires seq { seq_in row ≡ seq_in self.now.row }
        requires number { number_in row ≡ number_in self.now.row }
        ensures { due_of result ≡ call_at self.now.pid self.now.start piece.now row }
    {
        let pid_name = self.pid_name.as_slice();
        let mess_name = self.mess_name.as_slice();
        let intd_name = self.intd_name.as_slice();
        match row {
            Row::Create { .. } => Need::File(Call::CreateExcl(pid_name)),
            Row::LinkMess { .. } => Need::File(Call::Link(pid_name, mess_name)),
            Row::UnlinkPid { .. } => Need::File(Call::Unlink(pid_name)),
            Row::AppendMess { fd, .. } => Need::File(Call::Append(fd, piece)),
            Row::SyncMess { fd, .. } => Need::File(Call::Sync(fd)),
            Row::CreateIntd { .. } => Need::File(Call::CreateExcl(intd_name)),
            Row::AppendTodo { fd, .. } => Need::File(Call::Append(fd, piece)),
            Row::SyncTodo { fd, .. } => Need::File(Call::Sync(fd)),
            Row::LinkTodo { .. } => Need::File(Call::Link(intd_name, self.todo_name.as_slice())),
            Row::CleanIntd { .. } => Need::File(Call::Unlink(intd_name)),
            Row::CleanMess { .. } => Need::File(Call::Unlink(mess_name)),
            Row::Queued => Need::Ended(DONE),
            Row::Failed { status } => Need::Ended(status),
        }
    }
}
