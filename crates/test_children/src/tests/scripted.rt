// A system that follows a script.
ghost use Rattle.std.specs.Prelude.{◌<◌, IfSome};

use piece_queue::ROOM;
use proc_runner::{Born, Closing, Exit, Process, Readable, Start, System};
use std::alloc::{AllocError, Global};
use std::io::{self, ErrorKind, Read, Write};
use std::sync::Arc;
use std::sync::atomic::{AtomicU64, Ordering};
use std::thread;
use std::time::Duration;

/// What a process does: it prints so many bytes, all alike, at most so many at once, then closes its output or breaks it; and its end
/// is told once it was asked for so often, or once it was killed. One whose end is told at once has exited before anybody can
/// kill it. One that is in order reads only when it is its turn. Its input takes so many bytes, and then no more.
#[derive(Clone, Copy)]
pub struct Script {
    pub letter: u8,
    pub prints: usize,
    pub at_once: usize,
    pub breaks: bool,
    pub asks: u64,
    pub code: u8,
    pub in_order: bool,
    pub takes: usize,
}

/// Whose turn it is to be read: the scripts, one after the other, and at which of them it stands.
#[derive(Drop)]
pub struct Turns {
    pub order: Vec<u8>,
    at: AtomicU64,
}

impl Turns {
    /// The next one's turn.
    pub fn go_on(&self) {
        self.at.fetch_add(1, Ordering::SeqCst);
    }

    fn at(&self) -> u64 {
        self.at.load(Ordering::SeqCst)
    }

    /// Waits for a turn of this script, from this one on. Answers the one after it.
    fn wait_for(&self, script: u8, from: u64) -> u64 {
        for _ in 0..u64::MAX {
            let at = self.at();
            if at >= from && self.order.get(at as usize) == Some(&script) {
                return at.saturating_add(1);
            }
            thread::yield_now();
        }
        from
    }
}

/// A system whose program or member named `0` follows the first script, `1` the second, and so on; no other can be started.
#[derive(Drop)]
pub struct Scripted {
    pub scripts: [Script; 4],
    pub turns: Arc<Turns, Global>,
    pub closed: Arc<Closed, Global>,
}

/// A system of these scripts, with these turns of those that are in order.
pub fn with_turns(
    alloc: Global,
    scripts: [Script; 4],
    order: Vec<u8>,
) -> Result<Scripted, AllocError> {
    let turns = Turns {
        order,
        at: AtomicU64::new(0),
    };
    let turns = Arc::new(alloc, turns)?;
    let closed = Closed {
        whole: AtomicU64::new(0),
        cut: AtomicU64::new(0),
    };
    match Arc::new(alloc, closed) {
        Ok(closed) => Ok(Scripted {
            scripts,
            turns,
            closed,
        }),
        Err(why) => {
            drop(turns);
            Err(why.into())
        }
    }
}

/// A system of these scripts, of which none is in order.
pub fn unordered(alloc: Global, scripts: [Script; 4]) -> Result<Scripted, AllocError> {
    with_turns(alloc, scripts, Vec::new(alloc))
}

/// A process of a script.
#[derive(Drop)]
pub struct ScriptedProcess {
    script: Script,
    asked: AtomicU64,
    killed: AtomicU64,
    condemned: AtomicU64,
}

/// The output of a process of a script.
#[derive(Drop)]
pub struct ScriptedOutput {
    script: Script,
    place: u8,
    left: usize,
    turns: Arc<Turns, Global>,
    from: u64,
}

/// The input of a process of a script: it takes up to 100 bytes at once, and so many in all. It counts the inputs that were closed as
/// whole ones, and as others.
#[derive(Drop)]
pub struct ScriptedInput {
    left: usize,
    closed: Arc<Closed, Global>,
}

/// How many inputs were closed as whole ones, and as others.
#[derive(Drop)]
pub struct Closed {
    whole: AtomicU64,
    cut: AtomicU64,
}

impl Closed {
    /// How many were closed as whole ones, and as others.
    pub fn counts(&self) -> (u64, u64) {
        (
            self.whole.load(Ordering::SeqCst),
            self.cut.load(Ordering::SeqCst),
        )
    }
}

impl Scripted {
    /// What a program of the script at this place prints.
    pub fn output(&self, place: u8) -> Result<ScriptedOutput, AllocError>
        requires { place < 4 }
    {
        let script = self.scripts[place as usize];
        let turns = Arc::try_clone(&self.turns)?;
        let from = turns.at();
        Ok(ScriptedOutput {
            script,
            place,
            left: script.prints,
            turns,
            from,
        })
    }
}

impl Scripted {
    /// What a program of the script at this place takes.
    fn input(&self, place: u8) -> Result<ScriptedInput, AllocError>
        requires { place < 4 }
    {
        Ok(ScriptedInput {
            left: self.scripts[place as usize].takes,
            closed: Arc::try_clone(&self.closed)?,
        })
    }

    /// A process of the script at this place, and what it prints.
    fn started(
        &self,
        alloc: Global,
        place: u8,
    ) -> Result<(Arc<ScriptedProcess, Global>, ScriptedOutput), AllocError>
        requires { place < 4 }
    {
        let process = ScriptedProcess {
            script: self.scripts[place as usize],
            asked: AtomicU64::new(0),
            killed: AtomicU64::new(0),
            condemned: AtomicU64::new(0),
        };
        let process = Arc::new(alloc, process)?;
        match self.output(place) {
            Ok(output) => Ok((process, output)),
            Err(why) => {
                drop(process);
                Err(why)
            }
        }
    }
}

impl Process for ScriptedProcess {
    ghost use Rattle.std.specs.Prelude.{◌≡◌, ◌⊎◌, None};
    ghost use Rattle.proc_runner.specs.declared.system.Exit.TheVariants as exit;

    ghost ends = { λ p told. (told ≡ exit.Code p.script.code) ⊎ (told ≡ exit.Signal) };

    ghost fate = { λ _. None };

    ghost errs = { λ _ _. ⊥ };

    fn ask(&self) -> io::Result<Option<Exit>> {
        let is_signal = self.killed.load(Ordering::SeqCst) != 0
            || self.condemned.load(Ordering::SeqCst) != 0;
        if is_signal {
            return Ok(Some(Exit::Signal));
        }
        if self.asked.fetch_add(1, Ordering::SeqCst) >= self.script.asks {
            return Ok(Some(Exit::Code(self.script.code)));
        }
        Ok(None)
    }

    fn has_exited(&self) -> bool {
        false
    }

    fn kill(&self) {
        if self.script.asks > 0 {
            self.killed.store(1, Ordering::SeqCst);
        }
    }

    fn condemn(&self) {
        self.kill();
        self.condemned.store(1, Ordering::SeqCst);
    }

    fn cut(&self) {}

    fn nap(&self, _time: Duration) {
        thread::yield_now();
    }
}

impl Read for ScriptedOutput {
    fn read(&mut self, buf: &mut [u8]) -> io::Result<usize> {
        if self.script.in_order {
            self.from = self.turns.wait_for(self.place, self.from);
        }
        if self.left == 0 {
            if self.script.breaks {
                return Err(io::Error::from(ErrorKind::Other));
            }
            return Ok(0);
        }
        let count = self.left.min(buf.len()).min(self.script.at_once);
        buf[..count].fill(self.script.letter);
        self.left -= count;
        Ok(count)
    }
}

impl Readable for ScriptedOutput {
    ghost use Rattle.std.specs.Prelude.{None};

    ghost remaining = { λ _. None };

    ghost breaks = { λ _ _. Unit {0} };

    fn read(&mut self, into: &mut [u8; ROOM]) -> io::Result<usize> {
        Read::read(self, into)
    }
}

impl Write for ScriptedInput {
    fn write(&mut self, buf: &[u8]) -> io::Result<usize> {
        let count = buf.len().min(100).min(self.left);
        self.left -= count;
        Ok(count)
    }

    fn flush(&mut self) -> io::Result<()> {
        Ok(())
    }
}

impl Closing for ScriptedInput {
    fn close(self, is_whole: bool) {
        let ScriptedInput { left: _, closed } = self;
        if is_whole {
            closed.whole.fetch_add(1, Ordering::SeqCst);
        } else {
            closed.cut.fetch_add(1, Ordering::SeqCst);
        }
        drop(closed);
    }
}

impl System for Scripted {
    type Process = ScriptedProcess;

    type Input = ScriptedInput;

    type Output = ScriptedOutput;

    ghost gives = { λ _ _ _ _. Unit {0} };

    fn spawn(
        &self,
        alloc: Global,
        start: &Start<'_>,
    ) -> io::Result<Born<ScriptedProcess, ScriptedInput, ScriptedOutput>> {
        let Some(place) = place(start.words) else {
            return Err(io::Error::from(ErrorKind::NotFound));
        };
        let input = self.input(place)?;
        match self.started(alloc, place) {
            Ok((process, output)) => Ok(Born {
                process,
                number: 1,
                input,
                output,
            }),
            Err(why) => {
                drop(input);
                Err(why.into())
            }
        }
    }
}

/// Which script these words name.
fn place(words: &[&[u8]]) -> Option<u8>
    ensures { IfSome result (λ at. at < 4) }
{
    let name = words.iter().find(|word| !word.is_empty())?;
    match name.first()? {
        b'0' => Some(0),
        b'1' => Some(1),
        b'2' => Some(2),
        b'3' => Some(3),
        _ => None,
    }
}
