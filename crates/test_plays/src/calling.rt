// One call over forms in memory.

use crate::crowded_disk::CrowdedDisk;
use call_fs::Recorder;
use outside::{Gate, MemClock, MemPosts, MemSink, MemSource, MemSpawner, OpenGate};
use qmail_top::{qmail, qmail_alone};
use std::sync::Wait;
use std::thread::Threads;

/// Calls `qmail_alone` with these words over these forms, and no posts and no children.
pub(crate) fn call(
    rt: &HostRuntime,
    words: &[String],
    disk: &mut Recorder<CrowdedDisk>,
    message: &mut MemSource,
    envelope: &mut MemSource,
    out: &mut MemSink,
    log: &mut MemSink,
    clock: &mut MemClock,
) -> u8 {
    let alloc = rt.alloc();
    let mut posts = MemPosts::new(Vec::new(alloc));
    let mut spawner = MemSpawner::new(alloc, Vec::new(alloc), Vec::new(alloc));
    let status = qmail_alone(
        alloc,
        words,
        disk,
        message,
        envelope,
        out,
        log,
        clock,
        &mut posts,
        &mut spawner,
        &OpenGate,
    );
    drop(posts);
    drop(spawner);
    status
}

/// The same of `qmail`, with this gate.
pub(crate) fn call_with_threads<H: Threads + Wait + Sync, G: Gate + Sync>(
    rt: &HostRuntime,
    handle: &H,
    words: &[String],
    disk: &mut Recorder<CrowdedDisk>,
    message: &mut MemSource,
    envelope: &mut MemSource,
    out: &mut MemSink,
    log: &mut MemSink,
    clock: &mut MemClock,
    gate: &G,
) -> u8 {
    let alloc = rt.alloc();
    let mut posts = MemPosts::new(Vec::new(alloc));
    let mut spawner = MemSpawner::new(alloc, Vec::new(alloc), Vec::new(alloc));
    let status = qmail(
        handle,
        alloc,
        words,
        disk,
        message,
        envelope,
        out,
        log,
        clock,
        &mut posts,
        &mut spawner,
        gate,
    );
    drop(posts);
    drop(spawner);
    status
}
