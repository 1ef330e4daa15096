// A step with its text.
ghost use Rattle.std.specs.Prelude.{◌≡◌, ◌≤◌, ◌+◌, ◌++◌, length};
ghost use Rattle.call_fs.specs.Program.{due_of};
ghost use Rattle.mail_bytes.specs.Decimal.{digits};
ghost use Rattle.send_parts.specs.Steps.{control_text, dir_text, due_by, remove_text, text_of};

use crate::{Dir, Step};
use address_rules::ControlFile;
use call_fs::{Call, How, Need, PIECE, Port};
use mail_bytes::{NameBuf, dec};
use queue_paths::path;
use std::marker::Model;

/// A step with the text that it has of its own, a name or a command, held in place; contracts see the step.
#[derive(Drop)]
pub struct NamedStep {
    step: Step,
    text: NameBuf,
}

impl Model for NamedStep {
    ghost use Rattle.send_parts.specs.declared.step.Step.{Step};

    ghost Value = { Step };

    ghost use Rattle.std.specs.Prelude.{◌≡◌};
    ghost use Rattle.send_parts.specs.Steps.{text_of};

    ghost view = { λ i. i.step };

    ghost invariant = { λ i. i.text ≡ text_of i.step };
}

impl NamedStep {
    /// No step: a wait. Takes no memory.
    pub fn new() -> Self
        ensures { result ≡ Step.Wait }
    {
        NamedStep {
            step: Step::Wait,
            text: NameBuf::new(),
        }
    }

    /// Becomes another one. Takes no memory.
    pub fn set(&mut self, step: Step)
        ensures { self.new ≡ step }
    {
        put_text(step, &mut self.text);
        self.step = step;
    }

    /// The step.
    pub fn step(&self) -> Step
        ensures { result ≡ self.now }
    {
        self.step
    }

    /// What the sender does next at this step: of a search it goes on after the name `bytes`, and a giving gives `bytes`.
    pub fn need<'a>(&'a self, bytes: &'a [u8]) -> Need<'a>
        ensures { due_of result ≡ due_by self.now bytes.now }
    {
        let text = self.text.as_slice();
        match self.step {
            Step::OpenControl(_) => Need::File(Call::Open(text, How::Read)),
            Step::Open(_, how) => Need::File(Call::Open(text, how)),
            Step::Read(fd, at) => Need::File(Call::ReadAt(fd, at, PIECE as u64)),
            Step::Mark(fd, place) => Need::File(Call::WriteAt(fd, place, b"D")),
            Step::Close(fd) => Need::File(Call::Close(fd)),
            Step::Unlink(_) => Need::File(Call::Unlink(text)),
            Step::Stat(_) => Need::File(Call::Stat(text)),
            Step::Search(_) => Need::File(Call::NextName(text, bytes)),
            Step::Take(port) => Need::Take(port),
            Step::Give(port) => Need::Give(port, bytes),
            Step::Remove(_) => Need::Give(Port::Clean, text),
            Step::Wait => Need::Wait,
            Step::Ended(status) => Need::Ended(status),
        }
    }
}

/// Replaces `into` by the text of a step.
fn put_text(step: Step, into: &mut NameBuf)
    ensures { into.new ≡ text_of step }
{
    match step {
        Step::OpenControl(file) => put_control(file, into),
        Step::Open(name, _) => path(&name, into),
        Step::Unlink(name) => path(&name, into),
        Step::Stat(name) => path(&name, into),
        Step::Search(dir) => put_dir(dir, into),
        Step::Remove(n) => put_remove(n, into),
        _ => into.clear(),
    }
}

/// Replaces `into` by the name of a control file.
fn put_control(file: ControlFile, into: &mut NameBuf)
    ensures { into.new ≡ control_text file }
{
    into.clear();
    put(into, control_name(file));
}

/// The name of a control file.
fn control_name(file: ControlFile) -> &'static [u8]
    ensures name { result.now ≡ control_text file }
    ensures short { length result.now ≤ 200 }
{
    match file {
        ControlFile::Me => b"control/me",
        ControlFile::Locals => b"control/locals",
        ControlFile::PercentHack => b"control/percenthack",
        ControlFile::VirtualDomains => b"control/virtualdomains",
        ControlFile::EnvNoAtHost => b"control/envnoathost",
        ControlFile::BounceFrom => b"control/bouncefrom",
        ControlFile::BounceHost => b"control/bouncehost",
        ControlFile::DoubleBounceTo => b"control/doublebounceto",
        ControlFile::DoubleBounceHost => b"control/doublebouncehost",
        ControlFile::ConcurrencyLocal => b"control/concurrencylocal",
        ControlFile::ConcurrencyRemote => b"control/concurrencyremote",
        ControlFile::QueueLifetime => b"control/queuelifetime",
    }
}

/// Replaces `into` by the name of a directory.
fn put_dir(dir: Dir, into: &mut NameBuf)
    ensures { into.new ≡ dir_text dir }
{
    into.clear();
    match dir {
        Dir::Info(split) => {
            put(into, b"info/");
            put_number(into, split);
        }
        Dir::Mess(split) => {
            put(into, b"mess/");
            put_number(into, split);
        }
        Dir::Todo => put(into, b"todo"),
    }
}

/// Replaces `into` by the command to remove a message.
fn put_remove(n: u64, into: &mut NameBuf)
    ensures { into.new ≡ remove_text n }
{
    into.clear();
    put(into, b"foop/");
    put_number(into, n);
    put(into, &[0]);
}

/// Puts a number's digits at the end. The condition: there is room.
fn put_number(into: &mut NameBuf, n: u64)
    requires { length into.old ≤ 200 }
    ensures text { into.new ≡ into.old ++ digits n }
    ensures short { length into.new ≤ length into.old + 20 }
{
    let mut text = [0; 20];
    let len = dec(n, &mut text);
    put(into, &text[..len]);
}

/// Puts bytes at the end. The condition: there is room for them.
fn put(into: &mut NameBuf, bytes: &[u8])
    requires { length into.old + length bytes.now ≤ 255 }
    ensures { into.new ≡ into.old ++ bytes.now }
{
    into.extend(bytes).unwrap();
}
