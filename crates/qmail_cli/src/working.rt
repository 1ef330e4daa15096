// The command `work`, the one that starts threads: they take the handle of the program itself.

use command_words::threads_told;
use host_streams::{HostClock, LateFile, ReaderSource, WriterSink};
use mail_bytes::Memory;
use mem_fs::MemFs;
use outside::{MemPosts, MemSpawner, OpenGate};
use qmail_top::qmail;
use std::alloc::Global;
use std::sync::Wait;
use std::thread::Threads;

/// Whether the words are `work`. If there is no memory to read them they count as another command's, which finds that too.
pub(crate) fn is_work(alloc: Global, words: &[String]) -> bool {
    match words.first() {
        Some(name) if name.as_str() == "work" => matches!(threads_told(alloc, words), Ok(_)),
        _ => false,
    }
}

/// Makes the call with the words of `work`, over standard input and output; `handle` is that of the program. The error: out of memory
/// before the call.
pub(crate) fn work<R: Threads + Wait + Sync>(
    rt: &HostRuntime,
    handle: &R,
    alloc: Global,
    words: &[String],
) -> Result<u8, Memory> {
    let mut disk = MemFs::new(alloc, Vec::new(alloc), Vec::new(alloc))?;
    Ok(qmail(
        handle,
        alloc,
        words,
        &mut disk,
        &mut ReaderSource::new(rt.stdin()),
        &mut ReaderSource::new(LateFile::new(rt, None)),
        &mut WriterSink::new(rt.stdout()),
        &mut WriterSink::new(rt.stderr()),
        &mut HostClock::new(rt),
        &mut MemPosts::new(Vec::new(alloc)),
        &mut MemSpawner::new(alloc, Vec::new(alloc), Vec::new(alloc)),
        &OpenGate,
    ))
}
