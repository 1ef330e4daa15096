// The processes of the real system: the trusted edge, whose lines over std no contract can judge.
ghost use Rattle.std.specs.Prelude.{◌≡◌};

use crate::environment::pass_on;
use crate::host_process::{Form, HostInput, HostOutput, HostProcess, add};
use crate::missing::{Missing, is_executable};
use proc_runner::{Born, Kind, Process, Start, System};
use std::alloc::{AllocError, Global};
use std::fs::{self, File, OpenOptions};
use std::io::{self, ErrorKind, PipeWriter};
use std::os::unix::fs::OpenOptionsExt;
use std::os::unix::process::CommandExt;
use std::process::{Command, Processes, Stdio};
use std::str;
use std::sync::atomic::{AtomicU64, Ordering};
use std::sync::{Arc, Wait};
use std::time::Clock;

/// This program, as the system shows it to each process.
const SELF: &str = "/proc/self/exe";

/// The name under which this program is started again.
const NAME: &str = "qmail";

/// The shell for the commands of users, whatever `PATH` says.
pub(crate) const SHELL: &str = "/bin/sh";

/// What starts a program in a session and a process group of its own, after `--`; it becomes that program, so the process stays
/// the same.
const NEW_GROUP: &str = "/usr/bin/setsid";

/// The variable by which a member knows the number of the process that started it: a parent of another number says that this one
/// has ended.
pub const PARENT: &str = "QMAIL_PARENT";

/// The mode of a file that nobody else reads.
const OWN_FILE: u32 = 0o600;

/// The real system, by the handles of this program; `number` is the number of this process, and the inputs that are files are made in
/// the directory `dir`, and lose their names at once.
#[derive(Drop)]
pub struct HostSystem<R: Copy + Drop> {
    rt: R,
    files: HostRuntime,
    number: u32,
    dir: String,
    made: AtomicU64,
    missing: Missing,
}

impl<R: Processes + Wait + Clock + Copy + Drop> HostSystem<R> {
    /// The real system, for the process of this number, with files in this directory.
    pub fn new(rt: R, files: &HostRuntime, number: u32, dir: String) -> Self
        ensures { result.number ≡ number }
    {
        HostSystem {
            rt,
            files: *files,
            number,
            dir,
            made: AtomicU64::new(0),
            missing: Missing::new(),
        }
    }

    /// Gives a command what stands before the words of a start.
    fn lead(&self, alloc: Global, kind: Kind, command: &mut Command) -> io::Result<()> {
        match kind {
            Kind::Member | Kind::Delivery => {
                command.arg0(NAME)?;
                Ok(())
            }
            Kind::Command => add(command, &["--", SHELL]),
            Kind::Remote => add(command, &["--"]),
        }
    }

    /// The command of a start. Its output goes there.
    fn command(&self, alloc: Global, start: &Start<'_>, output: PipeWriter) -> io::Result<Command> {
        match Command::new(alloc, program_of(start.kind)) {
            Ok(mut command) => match self.fill(alloc, start, &mut command) {
                Ok(()) => {
                    command.stdout(Stdio::from(output));
                    Ok(command)
                }
                Err(why) => {
                    drop(command);
                    drop(output);
                    Err(why)
                }
            },
            Err(why) => {
                drop(output);
                Err(why.into())
            }
        }
    }

    /// Gives the command of a start its words, its environment, and its streams but for its output.
    fn fill(&self, alloc: Global, start: &Start<'_>, command: &mut Command) -> io::Result<()> {
        self.lead(alloc, start.kind, command)?;
        let words = match start.kind {
            Kind::Remote => start.words,
            Kind::Member | Kind::Delivery | Kind::Command => start.words.get(1..).unwrap_or(&[]),
        };
        for word in words {
            match str::from_utf8(word) {
                Ok(word) => command.arg(word)?,
                Err(_) => return Err(io::Error::from(ErrorKind::InvalidInput)),
            };
        }
        pass_on(&self.files, command)?;
        command.stdin(Stdio::piped());
        if let Kind::Member = start.kind {
            let parent = format!(in alloc; "{}", self.number)?;
            command.env(PARENT, parent.as_str())?;
        }
        if is_of_others(start.kind) {
            command.stderr(Stdio::null());
        }
        Ok(())
    }

    /// Fails if there is no such program that can be executed.
    fn needs(&self, program: &str) -> io::Result<()> {
        if is_executable(&self.files, program) {
            return Ok(());
        }
        Err(io::Error::from(ErrorKind::PermissionDenied))
    }

    /// A new file, open for writing, that has lost its name.
    fn unnamed(&self, alloc: Global) -> io::Result<File> {
        let made = self.made.fetch_add(1, Ordering::SeqCst);
        let path = format!(in alloc; "{}/input.{}.{}", self.dir.as_str(), self.number, made)?;
        let file = self.unnamed_at(path.as_str());
        drop(path);
        file
    }

    /// The same, whose name was this.
    fn unnamed_at(&self, path: &str) -> io::Result<File> {
        match self.new_file(path) {
            Ok(file) => match fs::remove_file(&self.files, path) {
                Ok(()) => Ok(file),
                Err(why) => {
                    drop(file);
                    Err(why)
                }
            },
            Err(why) => Err(why),
        }
    }

    /// A new file of this name, open for writing.
    fn new_file(&self, path: &str) -> io::Result<File> {
        let mut how = OpenOptions::new();
        how.write(true).create_new(true).mode(OWN_FILE);
        match how.open(&self.files, path) {
            Err(why) if why.kind() == ErrorKind::AlreadyExists => {
                // one of this number was killed before it took the name away
                fs::remove_file(&self.files, path)?;
                how.open(&self.files, path)
            }
            opened => opened,
        }
    }

    /// This same program, which is started now, with its input piped.
    fn spawn_own(
        &self,
        command: Command,
        process: &HostProcess<R>,
    ) -> io::Result<(u32, HostInput<R>)> {
        match process.begin(command)? {
            (number, Some(input)) => Ok((number, HostInput::Pipe(input))),
            (_, None) => {
                process.kill();
                Err(io::Error::from(ErrorKind::BrokenPipe))
            }
        }
    }

    /// A program of others, which is started when its input is whole.
    fn spawn_later(
        &self,
        alloc: Global,
        start: &Start<'_>,
        command: Command,
        process: Arc<HostProcess<R>, Global>,
    ) -> io::Result<HostInput<R>> {
        match self.file_for(alloc, start) {
            Ok(file) => Ok(HostInput::File {
                file,
                command,
                process,
            }),
            Err(why) => {
                drop(command);
                drop(process);
                Err(why)
            }
        }
    }

    /// Our end of the input of a child, which is this process, and its number, 0 if it isn't started yet.
    fn input(
        &self,
        alloc: Global,
        start: &Start<'_>,
        command: Command,
        process: Arc<HostProcess<R>, Global>,
    ) -> io::Result<(u32, HostInput<R>)> {
        if is_of_others(start.kind) {
            let input = self.spawn_later(alloc, start, command, process)?;
            return Ok((0, input));
        }
        let started = self.spawn_own(command, process.as_ref());
        drop(process);
        started
    }

    /// Starts a child as this process, whose output goes there: its number, and our ends of its input and its output.
    fn begun(
        &self,
        alloc: Global,
        start: &Start<'_>,
        process: &Arc<HostProcess<R>, Global>,
        theirs: PipeWriter,
    ) -> io::Result<(u32, HostInput<R>, HostOutput<R>)> {
        let command = self.command(alloc, start, theirs)?;
        match twice(process) {
            Ok((process, also)) => match self.input(alloc, start, command, also) {
                Ok((number, input)) => Ok((number, input, HostOutput { process })),
                Err(why) => {
                    drop(process);
                    Err(why)
                }
            },
            Err(why) => {
                drop(command);
                Err(why.into())
            }
        }
    }

    /// The file that such a program gets, if there is what starts it. Standard error is told if a remote program isn't there.
    fn file_for(&self, alloc: Global, start: &Start<'_>) -> io::Result<File> {
        self.needs(NEW_GROUP)?;
        match (start.kind, start.words.first()) {
            (Kind::Command, _) => self.needs(SHELL)?,
            (Kind::Remote, Some(word)) => {
                if let Ok(program) = str::from_utf8(word) {
                    self.missing.tell(&self.files, alloc, program)?;
                }
            }
            _ => {}
        }
        self.unnamed(alloc)
    }
}

/// A process twice more. The error: out of memory.
fn twice<P: Drop>(
    process: &Arc<P, Global>,
) -> Result<(Arc<P, Global>, Arc<P, Global>), AllocError> {
    let one = Arc::try_clone(process)?;
    let two = Arc::try_clone(process)?;
    Ok((one, two))
}

/// The program that is started for a child of this kind.
fn program_of(kind: Kind) -> &'static str {
    match kind {
        Kind::Member | Kind::Delivery => SELF,
        Kind::Remote | Kind::Command => NEW_GROUP,
    }
}

/// Whether it is a program of others, not this same one.
fn is_of_others(kind: Kind) -> bool {
    matches!(kind, Kind::Remote | Kind::Command)
}

/// How a child is started.
fn form_of(kind: Kind) -> Form {
    Form {
        leads: is_of_others(kind),
        may_miss: !matches!(kind, Kind::Member | Kind::Command),
    }
}

impl<R: Processes + Wait + Clock + Copy + Drop> System for HostSystem<R>
where
    R::Started: Drop,
{
    type Process = HostProcess<R>;

    type Input = HostInput<R>;

    type Output = HostOutput<R>;

    ghost gives = { λ _ _ _ _. Unit {0} };

    fn spawn(
        &self,
        alloc: Global,
        start: &Start<'_>,
    ) -> io::Result<Born<HostProcess<R>, HostInput<R>, HostOutput<R>>> {
        let (output, theirs) = io::pipe(&self.files)?;
        let form = form_of(start.kind);
        let process = HostProcess::new(self.rt, self.files, alloc, form, output);
        match Arc::new(alloc, process) {
            Ok(process) => match self.begun(alloc, start, &process, theirs) {
                Ok((number, input, output)) => Ok(Born {
                    process,
                    number,
                    input,
                    output,
                }),
                Err(why) => {
                    drop(process);
                    Err(why)
                }
            },
            Err(why) => {
                drop(theirs);
                Err(why.into())
            }
        }
    }
}
