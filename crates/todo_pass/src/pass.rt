// A todo pass without its controls.
ghost use Rattle.std.specs.Prelude.{◌≡◌, ◌∷◌, List, ℕ, false, IfOk, IsOk, OnOk, OnErr};
ghost use Rattle.call_fs.specs.Program.{due_of, came_of};
ghost use Rattle.call_fs.specs.declared.past.NeedData.{NeedData};
ghost use Rattle.call_fs.specs.declared.past.Own.{Own};
ghost use Rattle.call_fs.specs.declared.program.Ready.{Ready as Found};
ghost use Rattle.todo_pass.specs.Rows.{CountsOn, takes_memory};
ghost use Rattle.todo_pass.specs.Sorting.{sort_todo, text_of};
ghost use Rattle.todo_pass.specs.Table.{answered, appended, begun, due_by, end_of, goes, moved, place_after, piece, read, sorted_with, stated};

use crate::names::put_lent;
use crate::sorted::Sorted;
use crate::sorting::{TodoError, sort_todo};
use crate::steps::{
    answer_row, clear_row, create_row, give_row, has, made_row, open_row, sync_row, why_of,
};
use crate::{End, Part, Row, Target, Why};
use address_rules::Controls;
use call_fs::{Answer, Call, Fd, FsError, Got, How, Need, PIECE, Port};
use mail_bytes::{Memory, NameBuf};
use std::alloc::{AllocError, Global};
use std::marker::Model;

/// The preprocessing of one message, as a machine that is handed its controls at each step.
///
/// One pass serves number after number: `begin` takes no memory and keeps the room of the pass before.
#[derive(Drop)]
pub struct Pass {
    n: u64,
    row: Row,
    size: u64,
    todo: Vec<u8>,
    sorted: Sorted,
    birth: u64,
    lent: NameBuf,
}

impl Model for Pass {
    ghost use Rattle.todo_pass.specs.Table.{Pass};

    ghost Value = { Pass };

    ghost use Rattle.todo_pass.specs.Inside.{pass_of, Holds};

    ghost view = { pass_of };

    ghost invariant = { Holds };
}

impl Pass {
    /// The pass of this number, at its begin. It takes room for a piece of the todo file. Fails only if out of memory.
    pub fn new(alloc: Global, n: u64) -> Result<Pass, Memory>
        ensures { IfOk result (λ pass. pass ≡ begun n) }
    {
        let row = Row::Clear {
            target: Target::Info,
        };
        let mut lent = NameBuf::new();
        put_lent(row, n, &mut lent);
        Ok(Pass {
            n,
            row,
            size: 0,
            todo: Vec::with_capacity(alloc, PIECE)?,
            sorted: Sorted::new(alloc, 0, 0),
            birth: 0,
            lent,
        })
    }

    /// Begins with this number, whatever it did before. Takes no memory.
    pub fn begin(&mut self, alloc: Global, n: u64)
        ensures { self.new ≡ begun n }
    {
        self.n = n;
        self.size = 0;
        self.todo.clear();
        self.sorted = Sorted::new(alloc, 0, 0);
        self.birth = 0;
        self.row = Row::Clear {
            target: Target::Info,
        };
        put_lent(self.row, n, &mut self.lent);
    }

    /// The number of the message.
    pub fn number(&self) -> u64
        ensures { result ≡ self.now.n }
    {
        self.n
    }

    /// Where it stands.
    pub fn row(&self) -> Row
        ensures { result ≡ self.now.row }
    {
        self.row
    }

    /// How many bytes the message file has, as its stat told.
    pub fn size(&self) -> u64
        ensures { result ≡ self.now.size }
    {
        self.size
    }

    /// When the message was born: the moment that was read at the last append to its info file, in seconds since
    /// 1 January 1970 UTC.
    pub fn birth(&self) -> u64
        ensures { result ≡ self.now.birth }
    {
        self.birth
    }

    /// What the todo file says, once it was read; nothing before.
    pub fn sorted(&self) -> &Sorted
        ensures { result.now ≡ self.now.sorted }
    {
        &self.sorted
    }

    /// How it ended; `None` while it goes on. When the link to the cleaner has ended or failed it is left `Unclean`, and
    /// `row` tells the two apart.
    pub fn end(&self) -> Option<End>
        ensures { result ≡ end_of self.now }
    {
        let n = self.n;
        match self.row {
            Row::Done => Some(End::Done {
                n,
                has_local: has(self.sorted.local.as_slice()),
                has_remote: has(self.sorted.remote.as_slice()),
            }),
            Row::Left { why } => Some(End::Left { n, why }),
            Row::Lost => Some(End::Left {
                n,
                why: Why::Unclean,
            }),
            _ => None,
        }
    }

    /// What it does next. Takes no memory.
    pub fn need(&self) -> Need<'_>
        ensures { due_of result ≡ due_by self.now }
    {
        let name = self.lent.as_slice();
        match self.row {
            Row::Clear { .. } => Need::File(Call::Unlink(name)),
            Row::StatMess => Need::File(Call::Stat(name)),
            Row::OpenTodo => Need::File(Call::Open(name, How::Read)),
            Row::ReadTodo { fd } => {
                Need::File(Call::ReadAt(fd, self.todo.len() as u64, PIECE as u64))
            }
            Row::CloseTodo { fd } => Need::File(Call::Close(fd)),
            Row::Create { .. } => Need::File(Call::CreateExcl(name)),
            Row::Append { target, fd, done } => {
                Need::File(Call::Append(fd, piece(self.sorted.text(target), done)))
            }
            Row::Sync { fd, .. } => Need::File(Call::Sync(fd)),
            Row::Close { fd, .. } | Row::Shut { fd, .. } => Need::File(Call::Close(fd)),
            Row::Give => Need::Give(Port::Clean, name),
            Row::Answer => Need::Take(Port::Clean),
            Row::Done | Row::Left { .. } | Row::Lost => Need::Ended(0),
        }
    }

    /// Hands in what came of its need, which was done at this moment. After `Memory` it is unchanged, and the same may be
    /// handed in again. Only what comes of a read of the todo file, and of its close, takes memory.
    pub fn done(
        &mut self,
        alloc: Global,
        controls: &Controls,
        now: u64,
        got: &Got<'_>,
    ) -> Result<(), Memory>
        ensures moved { OnOk result (self.new ≡ moved controls.now self.old now (came_of got.now)) }
        // The pass after this past is the one after it and this event.
        ensures stands { (n : ℕ) (past : List Own) (ready : Found) (due : NeedData) → self.old ≡ place_after controls.now n past
            → OnOk result (self.new ≡ place_after controls.now n (record { read = now; ready = ready; due = due; came = came_of got.now } ∷ past)) }
        ensures memory { takes_memory self.old.row ≡ false → IsOk result }
        ensures err { OnErr result (self.new ≡ self.old) }
    {
        match self.row {
            Row::Give => self.go(give_row(got)),
            Row::Answer => self.go(answer_row(got)),
            _ => {
                if let Got::File(answer, bytes) = got {
                    self.answered(alloc, controls, now, answer, bytes)?;
                }
            }
        }
        Ok(())
    }

    /// After the answer to a file call.
    fn answered(
        &mut self,
        alloc: Global,
        controls: &Controls,
        now: u64,
        answer: &Answer,
        bytes: &[u8],
    ) -> Result<(), Memory>
        ensures moved { OnOk result (self.new ≡ answered controls.now self.old.row self.old now answer.now bytes.now) }
        ensures memory { takes_memory self.old.row ≡ false → IsOk result }
        ensures err { OnErr result (self.new ≡ self.old) }
    {
        match self.row {
            Row::Clear { target } => self.go(clear_row(target, answer)),
            Row::StatMess => self.stated(answer),
            Row::OpenTodo => self.go(open_row(answer)),
            Row::ReadTodo { fd } => self.read(fd, answer, bytes)?,
            Row::CloseTodo { .. } => self.sort(alloc, controls)?,
            Row::Create { target } => self.go(create_row(target, answer)),
            Row::Append { target, fd, done } => self.appended(target, fd, done, now, answer),
            Row::Sync { target, fd } => self.go(sync_row(target, fd, answer)),
            Row::Close { target, .. } => {
                let row = made_row(target, &self.sorted);
                self.go(row);
            }
            Row::Shut { why, .. } => self.go(Row::Left { why }),
            Row::Give | Row::Answer | Row::Done | Row::Left { .. } | Row::Lost => {}
        }
        Ok(())
    }

    /// Goes on to another row. The condition: a piece more than was written can be counted.
    fn go(&mut self, row: Row)
        requires { CountsOn row }
        ensures { self.new ≡ goes self.old row }
    {
        self.row = row;
        put_lent(row, self.n, &mut self.lent);
    }

    /// After the stat of the message file.
    fn stated(&mut self, answer: &Answer)
        ensures { self.new ≡ stated self.old answer.now }
    {
        match answer {
            Answer::Stat(stat) => {
                self.size = stat.length;
                self.go(Row::OpenTodo);
            }
            Answer::Refused(FsError::NotThere) => self.go(Row::Left { why: Why::NoMess }),
            _ => {
                let why = why_of(answer, Part::Mess);
                self.go(Row::Left { why });
            }
        }
    }

    /// After a read of the todo file.
    fn read(&mut self, fd: Fd, answer: &Answer, bytes: &[u8]) -> Result<(), Memory>
        ensures read { OnOk result (self.new ≡ read self.old fd answer.now bytes.now) }
        ensures err { OnErr result (self.new ≡ self.old) }
    {
        match answer {
            Answer::Count(_) => {
                self.todo.extend_from_slice(bytes)?;
                if bytes.len() < PIECE {
                    self.go(Row::CloseTodo { fd });
                } else {
                    self.go(Row::ReadTodo { fd });
                }
            }
            _ => {
                let why = why_of(answer, Part::Todo);
                self.go(Row::Shut { fd, why });
            }
        }
        Ok(())
    }

    /// After the todo file was read to its end and closed.
    fn sort(&mut self, alloc: Global, controls: &Controls) -> Result<(), Memory>
        ensures sorted { OnOk result (self.new ≡ sorted_with self.old (sort_todo controls.now self.old.todo)) }
        ensures err { OnErr result (self.new ≡ self.old) }
    {
        match sort_todo(alloc, controls, self.todo.as_slice()) {
            Ok(sorted) => {
                self.sorted = sorted;
                self.go(Row::Create {
                    target: Target::Info,
                });
            }
            Err(TodoError::BadRecord { at }) => {
                let why = Why::BadRecord { at: at as u64 };
                self.go(Row::Left { why });
            }
            Err(TodoError::Memory) => return Err(AllocError),
        }
        Ok(())
    }

    /// After an append. The condition: the piece that was appended can be counted.
    fn appended(&mut self, target: Target, fd: Fd, done: usize, now: u64, answer: &Answer)
        requires { CountsOn (Row.Append target fd done) }
        ensures { self.new ≡ appended self.old target fd done now answer.now }
    {
        if !matches!(answer, Answer::Done) {
            let why = why_of(answer, target.part());
            self.go(Row::Shut { fd, why });
            return;
        }
        if matches!(target, Target::Info) {
            self.birth = now;
        }
        let done = done + PIECE;
        if done < self.sorted.text(target).len() {
            self.go(Row::Append { target, fd, done });
        } else {
            self.go(Row::Sync { target, fd });
        }
    }
}

/// The next piece of a text, after so many bytes.
fn piece(text: &[u8], done: usize) -> &[u8]
    ensures { result.now ≡ piece text.now done }
{
    let rest = &text[done.min(text.len())..];
    &rest[..rest.len().min(PIECE)]
}
