// What wakes a sender that rests when a message was queued: DIR/lock/trigger, a FIFO that no byte is written to.
//
// A thread of the sender opens it for reading, which waits until somebody opens it for writing. An injector opens it for both, which
// waits for nobody, whether there is a reader or not (fifo(7)), and lets go of it. So no pipe fills, and no injector waits.

use proc_runner::Shared;
use std::alloc::Global;
use std::fs::{self, File, OpenOptions};
use std::io::{self, ErrorKind, Read};
use std::os::unix::fs::FileTypeExt;
use std::process::{Command, Processes, Stdio};
use std::str;
use std::sync::{Arc, Wait};
use std::thread::{self, Threads};

/// The program that makes a FIFO.
const MAKER: &str = "mkfifo";

/// Wakes the sender of the queue in this directory, if a command of this name, which has ended well, injects, and if a sender hears of
/// it. What fails is passed over.
pub(crate) fn wake_sender(rt: &HostRuntime, alloc: Global, name: &str, dir: Option<&[u8]>) {
    if let (true, Some(dir)) = (injects(name), dir) {
        let _woken = touch(rt, alloc, dir);
    }
}

/// Whether the command of this name injects.
fn injects(name: &str) -> bool {
    name == "queue" || name == "qmqpd"
}

/// Opens the FIFO of the queue in this directory and lets go of it, if it is one.
fn touch(rt: &HostRuntime, alloc: Global, dir: &[u8]) -> io::Result<()> {
    let path = path_in(alloc, dir)?;
    let touched = touch_at(rt, path.as_str());
    drop(path);
    touched
}

/// The same, of this path. It is opened for reading and for writing, so that nobody is waited for.
fn touch_at(rt: &HostRuntime, path: &str) -> io::Result<()> {
    if fs::metadata(rt, path)?.file_type().is_fifo() {
        let opened = OpenOptions::new().read(true).write(true).open(rt, path)?;
        drop(opened);
    }
    Ok(())
}

/// Nudges this queue, from a thread, whenever an injector opens the FIFO of the queue in this directory, which is made if it is missing.
/// What fails is passed over: a sender that isn't woken looks by itself.
pub(crate) fn hear_injectors<R: Threads + Wait + Processes + Copy + Send + Drop + 'static>(
    rt: &HostRuntime,
    handle: R,
    alloc: Global,
    dir: Option<&[u8]>,
    queue: &Shared,
) {
    if let Some(dir) = dir {
        let _begun = start(rt, handle, alloc, dir, queue);
    }
}

/// Makes that FIFO if it is missing, and starts the thread.
fn start<R: Threads + Wait + Processes + Copy + Send + Drop + 'static>(
    rt: &HostRuntime,
    handle: R,
    alloc: Global,
    dir: &[u8],
    queue: &Shared,
) -> io::Result<()> {
    let theirs = Arc::try_clone(queue)?;
    match path_in(alloc, dir) {
        Ok(path) => {
            if fs::metadata(rt, path.as_str()).is_err() {
                let _made = make(&handle, alloc, path.as_str());
            }
            start_at(rt, handle, path, theirs)
        }
        Err(why) => {
            drop(theirs);
            Err(why)
        }
    }
}

/// Starts the thread, over the FIFO of this path. It ends with this process.
fn start_at<R: Threads + Wait + Copy + Send + Drop + 'static>(
    rt: &HostRuntime,
    handle: R,
    path: String,
    queue: Shared,
) -> io::Result<()> {
    let files = *rt;
    let begun = thread::spawn(&handle, move || {
        listen(&handle, &files, path.as_str(), &queue)
    });
    drop(begun?);
    Ok(())
}

/// Nudges the queue each time that the FIFO was opened, until there is none.
fn listen<R: Wait>(handle: &R, rt: &HostRuntime, path: &str, queue: &Shared) {
    for _ in handle.forever() {
        if !hears(rt, path) {
            return;
        }
        queue.nudge();
    }
}

/// Waits until somebody has opened this FIFO for writing, and all who did have let go of it. Whether so: not if it is no FIFO.
fn hears(rt: &HostRuntime, path: &str) -> bool {
    let Ok(mut file) = File::open(rt, path) else {
        return false;
    };
    let is_fifo = match file.metadata() {
        Ok(found) => found.file_type().is_fifo(),
        Err(_) => false,
    };
    let is_heard = is_fifo && is_left(&mut file);
    drop(file);
    is_heard
}

/// Reads until nobody has it open for writing. Whether so.
fn is_left(file: &mut File) -> bool {
    let mut piece = [0; 64];
    for _ in 0..u64::MAX {
        match file.read(&mut piece) {
            Ok(0) => return true,
            Ok(_) => {}
            Err(why) if why.kind() == ErrorKind::Interrupted => {}
            Err(_) => return false,
        }
    }
    false
}

/// Makes a FIFO that nobody else may open.
fn make<R: Processes>(handle: &R, alloc: Global, path: &str) -> io::Result<()> {
    let mut command = Command::new(alloc, MAKER)?;
    let made = run_maker(handle, &mut command, path);
    drop(command);
    made
}

/// Runs that program over this path, without streams.
fn run_maker<R: Processes>(handle: &R, command: &mut Command, path: &str) -> io::Result<()> {
    command.arg("-m")?.arg("600")?.arg("--")?.arg(path)?;
    command.stdin(Stdio::null());
    command.stdout(Stdio::null());
    command.stderr(Stdio::null());
    command.status(handle)?;
    Ok(())
}

/// The path of the FIFO of the queue in this directory. The error: out of memory, or it is no text.
fn path_in(alloc: Global, dir: &[u8]) -> io::Result<String> {
    match str::from_utf8(dir) {
        Ok(dir) => Ok(format!(in alloc; "{dir}/lock/trigger")?),
        Err(_) => Err(io::Error::from(ErrorKind::InvalidInput)),
    }
}
