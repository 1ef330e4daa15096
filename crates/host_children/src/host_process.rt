// A process of the real system, with its input and its output: a part of the trusted edge.

use crate::host_system::SHELL;
use piece_queue::ROOM;
use proc_runner::{Closing, Exit, Process, Readable};
use std::alloc::Global;
use std::fs::{File, OpenOptions};
use std::io::{self, ErrorKind, PipeReader, Read, Write};
use std::os::fd::AsRawFd;
use std::process::{Child, Command, OpenProcess, Processes, Stdio};
use std::sync::atomic::{AtomicU64, Ordering};
use std::sync::{Arc, Mutex, Wait};
use std::thread;
use std::time::{Clock, Duration};

/// With what `NEW_GROUP` exits if it can't become the program. A program that exits so itself counts as crashed too, so that
/// no message is returned for a program that couldn't be run.
const NOT_RUN: [i32; 2] = [126, 127];

/// What the shell does to end a group of this number, and whatever it is told by its environment.
const END_GROUP: &str = "kill -s KILL -- \"-$1\"";

/// How many bytes of what the system tells of a process are read: the state stands in them.
const STAT: usize = 512;

/// How a process is started, as far as its end tells of that.
#[derive(Clone, Copy)]
pub(crate) struct Form {
    /// It leads a group.
    pub(crate) leads: bool,
    /// What was to become it tells by its status that it couldn't.
    pub(crate) may_miss: bool,
}

/// A process of the system, once it was started; whether it never is, whether its end was told, and whether that is told as the end
/// by a signal, whatever it was.
#[derive(Drop)]
pub(crate) struct Held<C: Drop> {
    child: Option<C>,
    is_never: bool,
    was_told: bool,
    is_condemned: bool,
}

/// A process of the system, and our end of its output.
#[derive(Drop)]
pub struct HostProcess<R: Processes + Wait + Clock + Drop> {
    rt: R,
    files: HostRuntime,
    alloc: Global,
    form: Form,
    output: PipeReader,
    is_cut: AtomicU64,
    held: Mutex<Held<Child<R::Started>>>,
}

impl<R: Processes + Wait + Clock + Copy + Drop> HostProcess<R> {
    /// One that wasn't started yet, whose output is read there.
    pub(crate) fn new(
        rt: R,
        files: HostRuntime,
        alloc: Global,
        form: Form,
        output: PipeReader,
    ) -> Self {
        HostProcess {
            rt,
            files,
            alloc,
            form,
            output,
            is_cut: AtomicU64::new(0),
            held: Mutex::new(Held {
                child: None,
                is_never: false,
                was_told: false,
                is_condemned: false,
            }),
        }
    }

    /// Starts it, if it wasn't ended before. It takes its end of the output with it. Answers its number, and our end of its input if
    /// that is piped.
    pub(crate) fn begin(
        &self,
        command: Command,
    ) -> io::Result<(u32, Option<<R::Started as OpenProcess>::Stdin>)> {
        let mut command = command;
        let begun = self.begin_by(&mut command);
        drop(command);
        begun
    }

    /// The same, with a command that is let go of afterwards.
    fn begin_by(
        &self,
        command: &mut Command,
    ) -> io::Result<(u32, Option<<R::Started as OpenProcess>::Stdin>)> {
        let mut held = self.held.lock(&self.rt);
        if held.is_never {
            return Err(io::Error::from(ErrorKind::NotFound));
        }
        let begun = command.spawn(&self.rt);
        let Ok(mut child) = begun else {
            held.is_never = true;
            return Err(io::Error::from(ErrorKind::NotFound));
        };
        let number = child.id();
        let input = child.stdin.take();
        held.child = Some(child);
        Ok((number, input))
    }

    /// Starts it with this file as its input; if that can't be read it is never started.
    fn begin_on(&self, file: &File, command: &mut Command) {
        match self.reopen(OpenOptions::new().read(true), file.as_raw_fd()) {
            Ok(input) => {
                command.stdin(Stdio::from(input));
                let _ = self.begin_by(command);
            }
            Err(_) => self.give_up(),
        }
    }

    /// It is never started.
    fn give_up(&self) {
        self.held.lock(&self.rt).is_never = true;
    }

    /// Ends it; from then on its end is told as that of a signal, or as it was before.
    fn end(&self, condemns: bool) {
        let mut held = self.held.lock(&self.rt);
        held.is_condemned = held.is_condemned || condemns;
        let was_told = held.was_told;
        match &mut held.child {
            Some(child) => {
                let _ = child.kill();
                // its number is its own as long as its end wasn't told
                if self.form.leads && !was_told {
                    let _ = self.end_group(child.id());
                }
            }
            None => held.is_never = true,
        }
    }

    /// Ends all of the group that this process leads.
    fn end_group(&self, number: u32) -> io::Result<()> {
        let mut command = Command::new(self.alloc, SHELL)?;
        let ended = self.end_group_by(&mut command, number);
        drop(command);
        ended
    }

    /// The same, with the command of a shell.
    fn end_group_by(&self, command: &mut Command, number: u32) -> io::Result<()> {
        let group = format!(in self.alloc; "{number}")?;
        let ended = self.end_group_of(command, group.as_str());
        drop(group);
        ended
    }

    /// The same, with the text of the number.
    fn end_group_of(&self, command: &mut Command, group: &str) -> io::Result<()> {
        add(command, &["-c", END_GROUP, "sh", group])?;
        command.env_clear();
        command.stdin(Stdio::null());
        command.stdout(Stdio::null());
        command.stderr(Stdio::null());
        command.status(&self.rt)?;
        Ok(())
    }

    /// Opens what this process shows as one of its descriptors once more.
    fn reopen(&self, how: &OpenOptions, number: i32) -> io::Result<File> {
        let path = format!(in self.alloc; "/proc/self/fd/{number}")?;
        how.open(&self.files, path.as_str())
    }

    /// Whether the system tells that the process of this number has exited and nobody asked for its end.
    fn is_zombie(&self, number: u32) -> io::Result<bool> {
        let path = format!(in self.alloc; "/proc/{number}/stat")?;
        let mut file = File::open(&self.files, path.as_str())?;
        let mut told = [0; STAT];
        let count = file.read(&mut told)?.min(STAT);
        Ok(tells_zombie(&told[..count]))
    }
}

/// Gives a command these words, after those that it has.
pub(crate) fn add(command: &mut Command, words: &[&str]) -> io::Result<()> {
    for word in words {
        command.arg(word)?;
    }
    Ok(())
}

/// Whether what the system tells of a process, `NUMBER (NAME) STATE ..`, says that it has exited.
fn tells_zombie(told: &[u8]) -> bool {
    match told.iter().rposition(|byte| *byte == b')') {
        Some(at) => told.get(at..).unwrap_or(&[]).starts_with(b") Z"),
        None => false,
    }
}

impl<R: Processes + Wait + Clock + Copy + Drop> Process for HostProcess<R> {
    ghost use Rattle.std.specs.Prelude.{None};

    ghost ends = { λ _ _. Unit {0} };

    ghost fate = { λ _. None };

    ghost errs = { λ _ _. Unit {0} };

    fn ask(&self) -> io::Result<Option<Exit>> {
        let mut held = self.held.lock(&self.rt);
        let is_condemned = held.is_condemned;
        let is_never = held.is_never;
        let told = match &mut held.child {
            Some(child) => child.try_wait()?,
            None if is_never => return Ok(Some(Exit::Signal)),
            None => return Ok(None),
        };
        held.was_told = told.is_some();
        Ok(match told {
            Some(_) if is_condemned => Some(Exit::Signal),
            Some(status) => Some(exit_of(status.code(), self.form.may_miss)),
            None => None,
        })
    }

    fn has_exited(&self) -> bool {
        let held = self.held.lock(&self.rt);
        match &held.child {
            Some(child) if !held.was_told => self.is_zombie(child.id()).unwrap_or(false),
            _ => false,
        }
    }

    fn kill(&self) {
        self.end(false);
    }

    fn condemn(&self) {
        self.end(true);
    }

    fn cut(&self) {
        self.is_cut.store(1, Ordering::SeqCst);
        // a byte into its own output ends the reading that waits for one
        let into = self.reopen(OpenOptions::new().write(true), self.output.as_raw_fd());
        if let Ok(mut into) = into {
            let _ = into.write(b"\n");
        }
    }

    fn nap(&self, time: Duration) {
        thread::sleep(&self.rt, time);
    }
}

/// How a process ended, by its exit status if it has one, and by whether `NEW_GROUP` was to become it.
fn exit_of(code: Option<i32>, may_miss: bool) -> Exit {
    match code {
        Some(code) if may_miss && NOT_RUN.contains(&code) => Exit::Signal,
        Some(code) => Exit::Code(u8::try_from(code).unwrap_or(u8::MAX)),
        None => Exit::Signal,
    }
}

/// The output of a process of the system.
#[derive(Drop)]
pub struct HostOutput<R: Processes + Wait + Clock + Drop> {
    pub(crate) process: Arc<HostProcess<R>, Global>,
}

impl<R: Processes + Wait + Clock + Copy + Drop> Readable for HostOutput<R> {
    ghost use Rattle.std.specs.Prelude.{None};

    ghost remaining = { λ _. None };

    ghost breaks = { λ _ _. Unit {0} };

    fn read(&mut self, into: &mut [u8; ROOM]) -> io::Result<usize> {
        let mut output = &self.process.output;
        let count = output.read(into)?;
        if self.process.is_cut.load(Ordering::SeqCst) != 0 {
            return Ok(0);
        }
        Ok(count.min(ROOM))
    }
}

/// The input of a process of the system.
#[derive(Drop)]
pub enum HostInput<R: Processes + Wait + Clock + Drop> {
    /// A pipe to one that runs.
    Pipe(<R::Started as OpenProcess>::Stdin),
    /// A file without a name, for one that is started when it is whole.
    File {
        /// The file.
        file: File,
        /// What is started then.
        command: Command,
        /// As which process.
        process: Arc<HostProcess<R>, Global>,
    },
}

impl<R: Processes + Wait + Clock + Drop> Write for HostInput<R> {
    fn write(&mut self, buf: &[u8]) -> io::Result<usize> {
        match self {
            HostInput::Pipe(input) => input.write(buf),
            HostInput::File { file, .. } => file.write(buf),
        }
    }

    fn flush(&mut self) -> io::Result<()> {
        Ok(())
    }
}

impl<R: Processes + Wait + Clock + Copy + Drop> Closing for HostInput<R> {
    fn close(self, is_whole: bool) {
        match self {
            HostInput::Pipe(input) => drop(input),
            HostInput::File {
                file,
                mut command,
                process,
            } => {
                if is_whole {
                    process.begin_on(&file, &mut command);
                } else {
                    process.give_up();
                }
                drop(command);
                drop(file);
                drop(process);
            }
        }
    }
}
