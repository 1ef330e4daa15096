// Instructions, line by line.
ghost use Rattle.std.specs.Prelude.{◌≡◌, ◌≤◌, [], IfOk, length, take, drop};
ghost use Rattle.std.specs.List.{prefix_len};
ghost use Rattle.local_parts.specs.Course.{after_work, begun, course_of, cut, default_text, lines_of, passed, up_to_work, work_at, work_data, work_of};
ghost use Rattle.local_parts.specs.Tally.{is_forward};

use crate::LocalArgs;
use crate::tally::is_forward;
use dot_qmail::{Line, PlanError, plan};
use mail_bytes::{ByteText, Memory};
use std::alloc::{AllocError, Global};
use std::marker::Model;

/// What is to be done next.
#[derive(Clone, Copy)]
pub enum Work<'a> {
    /// Nothing: no lines are left but forwards.
    Nothing,
    /// Runs this command.
    Command(&'a [u8]),
    /// Delivers to the maildir of this path.
    Maildir(&'a [u8]),
    /// Delivers to the mailbox file of this path.
    Mailbox(&'a [u8]),
}

/// Instructions: the lines that are done, and those ahead.
#[derive(Drop)]
pub struct Course {
    lines: Vec<Line>,
    next: usize,
}

impl Model for Course {
    ghost use Rattle.local_parts.specs.Course.{Course};

    ghost Value = { Course };

    ghost use Rattle.local_parts.specs.CourseInside.{course_inside, IsWithin};

    ghost view = { course_inside };

    ghost invariant = { IsWithin };
}

impl Course {
    /// No lines. Takes no memory.
    pub fn new(alloc: Global) -> Self
        ensures { result ≡ begun [] }
    {
        Course {
            lines: Vec::new(alloc),
            next: 0,
        }
    }

    /// The lines, none of them done.
    fn of(lines: Vec<Line>) -> Self
        ensures { result ≡ begun lines.items }
    {
        Course { lines, next: 0 }
    }

    /// The lines ahead.
    fn ahead(&self) -> &[Line]
        ensures { result.now ≡ self.now.ahead }
    {
        &self.lines[self.next..]
    }

    /// What is to be done next: the first line ahead that is no forward.
    pub fn work(&self) -> Work<'_>
        ensures { work_data result ≡ work_of self.now.ahead }
    {
        work_in(self.ahead())
    }

    /// What is to be done once that was.
    pub fn later_work(&self) -> Work<'_>
        ensures { work_data result ≡ work_of (after_work self.now.ahead) }
    {
        let ahead = self.ahead();
        work_in(&ahead[through_work(ahead)..])
    }

    /// That was done. Takes no memory.
    pub fn pass(&mut self)
        ensures { self.new ≡ passed self.old }
    {
        self.next += through_work(&self.lines[self.next..]);
    }

    /// That was done, and the later lines are passed over. Takes no memory.
    pub fn cut(&mut self)
        ensures { self.new ≡ cut self.old }
    {
        self.next += through_work(&self.lines[self.next..]);
        self.lines.truncate(self.next);
    }

    /// The lines that are done, and those up to the one that is to be done next, with it.
    pub fn lines_so_far(&self) -> &[Line]
        ensures { result.now ≡ lines_of (cut self.now) }
    {
        &self.lines[..self.next + through_work(self.ahead())]
    }

    /// All lines.
    pub fn lines(&self) -> &[Line]
        ensures { result.now ≡ lines_of self.now }
    {
        self.lines.as_slice()
    }
}

/// The first of the lines that is no forward.
fn work_in(lines: &[Line]) -> Work<'_>
    ensures { work_data result ≡ work_of lines.now }
{
    let forwards = forwards_in(lines);
    if forwards < lines.len() {
        work_at(&lines[forwards])
    } else {
        Work::Nothing
    }
}

/// What a line has to be done.
fn work_at(line: &Line) -> Work<'_>
    ensures { work_data result ≡ work_at line.now }
{
    match line {
        Line::Command(text) => Work::Command(text.as_slice()),
        Line::Maildir(path) => Work::Maildir(path.as_slice()),
        Line::Mailbox(path) => Work::Mailbox(path.as_slice()),
        Line::Forward(_) => Work::Nothing,
    }
}

/// How many lines there are up to that one, with it.
fn through_work(lines: &[Line]) -> usize
    ensures upto { take result lines.now ≡ up_to_work lines.now }
    ensures after { drop result lines.now ≡ after_work lines.now }
    ensures within { result ≤ length lines.now }
{
    let forwards = forwards_in(lines);
    if forwards < lines.len() {
        forwards + 1
    } else {
        forwards
    }
}

/// With how many forwards the lines begin.
fn forwards_in(lines: &[Line]) -> usize
    ensures { result ≡ prefix_len is_forward lines.now }
{
    lines.iter().take_while(|line| is_forward(line)).count()
}

/// The instructions of a `.qmail` file, none of them done; `None` if its first line is blank. Fails only if out of memory.
pub fn course_of(alloc: Global, bytes: &[u8]) -> Result<Option<Course>, Memory>
    ensures { IfOk result (λ course. course ≡ course_of bytes.now) }
{
    match plan(alloc, bytes) {
        Ok(lines) => Ok(Some(Course::of(lines))),
        Err(PlanError::BlankFirst) => Ok(None),
        Err(PlanError::Memory) => Err(AllocError),
    }
}

/// The default instructions, none of them done; `None` if their first line is blank. Fails only if out of memory.
pub fn default_course(alloc: Global, args: &LocalArgs) -> Result<Option<Course>, Memory>
    ensures { IfOk result (λ course. course ≡ course_of (default_text args.now)) }
{
    let mut text = ByteText::from_slice(alloc, args.line.as_slice())?;
    text.extend(b"\n")?;
    course_of(alloc, text.as_slice())
}
