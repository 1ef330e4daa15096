// What a delivery that went well prints.
ghost use Rattle.std.specs.Prelude.{◌≡◌, IfOk};
ghost use Rattle.std.specs.List.{count_by};
ghost use Rattle.local_parts.specs.Tally.{did_report, forwarded_report, is_file, is_forward, is_program};

use crate::endings::put_number;
use dot_qmail::Line;
use mail_bytes::{ByteText, Memory};
use std::alloc::Global;

/// `did F+W+P`: how many files, forwards and programs the lines are. Fails only if out of memory.
pub fn did_report(alloc: Global, lines: &[Line]) -> Result<ByteText, Memory>
    ensures { IfOk result (λ text. text ≡ did_report lines.now) }
{
    let mut text = ByteText::from_slice(alloc, b"did ")?;
    put_number(&mut text, files_in(lines) as u64)?;
    text.extend(b"+")?;
    put_number(&mut text, forwards_in(lines) as u64)?;
    text.extend(b"+")?;
    put_number(&mut text, programs_in(lines) as u64)?;
    text.extend(b"\n")?;
    Ok(text)
}

/// The same, and `qp PID`, the process number of the injector of forwards. Fails only if out of memory.
pub fn forwarded_report(alloc: Global, lines: &[Line], pid: u32) -> Result<ByteText, Memory>
    ensures { IfOk result (λ text. text ≡ forwarded_report lines.now pid) }
{
    let mut text = did_report(alloc, lines)?;
    text.extend(b"qp ")?;
    put_number(&mut text, u64::from(pid))?;
    text.extend(b"\n")?;
    Ok(text)
}

/// How many of the lines are of files.
fn files_in(lines: &[Line]) -> usize
    ensures { result ≡ count_by is_file lines.now }
{
    lines.iter().filter(|line| is_file(line)).count()
}

/// How many of the lines are forwards.
fn forwards_in(lines: &[Line]) -> usize
    ensures { result ≡ count_by is_forward lines.now }
{
    lines.iter().filter(|line| is_forward(line)).count()
}

/// How many of the lines are commands.
fn programs_in(lines: &[Line]) -> usize
    ensures { result ≡ count_by is_program lines.now }
{
    lines.iter().filter(|line| is_program(line)).count()
}

/// Whether a line is of a file.
fn is_file(line: &Line) -> bool
    ensures { result ≡ is_file line.now }
{
    matches!(line, Line::Maildir(_) | Line::Mailbox(_))
}

/// Whether a line is a forward.
pub fn is_forward(line: &Line) -> bool
    ensures { result ≡ is_forward line.now }
{
    matches!(line, Line::Forward(_))
}

/// Whether a line is a command.
fn is_program(line: &Line) -> bool
    ensures { result ≡ is_program line.now }
{
    matches!(line, Line::Command(_))
}
