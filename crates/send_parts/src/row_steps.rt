// What is done at a row.
ghost use Rattle.std.specs.Prelude.{◌≡◌};
ghost use Rattle.send_parts.specs.Rows.{finish_step, mark_step, start_step, step_of, sweep_step};

use crate::channels::{file_of, port_of};
use crate::{Dir, FinishRow, MarkRow, Marked, Row, StartRow, Step, SweepRow, reading_step};
use call_fs::{How, Port};
use queue_paths::Name;

/// What is done at a row of the start; so much of the file at work was read.
fn start_step(row: StartRow, read: u64) -> Step
    ensures { result ≡ start_step row read }
{
    match row {
        StartRow::Control(file, reading) => reading_step(reading, Step::OpenControl(file), read),
        StartRow::GreetLocal => Step::Take(Port::Lspawn),
        StartRow::GreetRemote { .. } => Step::Take(Port::Rspawn),
        StartRow::Scan { split } => Step::Search(Dir::Info(split)),
        StartRow::StatTodo { n, .. } => Step::Stat(Name::Todo(n)),
        StartRow::ReadInfo { n, reading, .. } => reading_step(
            reading,
            Step::Open(Name::Info(n), How::Read),
            read,
        ),
        StartRow::StatInfo { n, .. } => Step::Stat(Name::Info(n)),
        StartRow::StatLocal { n, .. } => Step::Stat(Name::Local(n)),
        StartRow::StatRemote { n, .. } => Step::Stat(Name::Remote(n)),
        StartRow::Over => Step::Wait,
        StartRow::Ended(status) => Step::Ended(status),
    }
}

/// What is done at a row of the finish of message n. At the return of it the return itself says it.
fn finish_step(row: FinishRow, n: u64) -> Step
    ensures { result ≡ finish_step row n }
{
    match row {
        FinishRow::OpenBounce => Step::Open(Name::Bounce(n), How::Read),
        FinishRow::UnlinkInfo => Step::Unlink(Name::Info(n)),
        FinishRow::Give => Step::Remove(n),
        FinishRow::Take => Step::Take(Port::Clean),
        FinishRow::Return | FinishRow::Later | FinishRow::Over | FinishRow::Lost => Step::Wait,
    }
}

/// What is done at a row of the sweep.
fn sweep_step(row: SweepRow) -> Step
    ensures { result ≡ sweep_step row }
{
    match row {
        SweepRow::First => Step::Search(Dir::Mess(0)),
        SweepRow::Next { split } => Step::Search(Dir::Mess(split)),
        SweepRow::StatMess { n, .. } => Step::Stat(Name::Mess(n)),
        SweepRow::StatTodo { n, .. } => Step::Stat(looks(n).0),
        SweepRow::StatInfo { n, .. } => Step::Stat(looks(n).1),
        SweepRow::Give { n, .. } => Step::Remove(n),
        SweepRow::Take { .. } => Step::Take(Port::Clean),
        SweepRow::Over | SweepRow::Lost => Step::Wait,
    }
}

/// What the sweep looks at of a message, in this order. A todo pass makes info before it takes todo away: if one ended between two
/// looks in the other order, neither would see the message.
fn looks(n: u64) -> (Name, Name)
    ensures { result ≡ (Name.Todo n, Name.Info n) }
{
    (Name::Todo(n), Name::Info(n))
}

/// What is done at a row, and how much the reading at work has read. At a row of the todo pass, of a
/// note or of a return that itself says it.
pub fn step_of(row: Row, read: u64) -> Step
    ensures { result ≡ step_of row read }
{
    match row {
        Row::Start(row) => start_step(row, read),
        Row::Turn(_) | Row::InTodo => Step::Wait,
        Row::TakeLink(channel) => Step::Take(port_of(channel)),
        Row::Mark(row, marked) => mark_step(row, marked),
        Row::UnlinkFile { channel, n, .. } => Step::Unlink(file_of(channel, n)),
        Row::ReadFile {
            channel,
            n,
            reading,
            ..
        } => { reading_step(reading, Step::Open(file_of(channel, n), How::Read), read) }
        Row::Request(channel) => Step::Give(port_of(channel)),
        Row::FindTodo(_) => Step::Search(Dir::Todo),
        Row::Finish(row, n) => finish_step(row, n),
        Row::Sweep(row) => sweep_step(row),
        Row::Ended(status) => Step::Ended(status),
    }
}

/// What is done at a row of a mark.
fn mark_step(row: MarkRow, marked: Marked) -> Step
    ensures { result ≡ mark_step row marked }
{
    match row {
        MarkRow::Note => Step::Open(Name::Bounce(marked.n), How::Append),
        MarkRow::Noting => Step::Wait,
        MarkRow::Open => Step::Open(file_of(marked.channel, marked.n), How::Write),
        MarkRow::Write(fd) => Step::Mark(fd, marked.place),
        MarkRow::Close(fd, _) => Step::Close(fd),
    }
}
