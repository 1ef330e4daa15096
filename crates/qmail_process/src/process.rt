// A command over the real things.
ghost use Rattle.std.specs.Prelude.{[], IfOk};
ghost use Rattle.qmail_process.specs.Runs.{IsRefusal, WasRun};
ghost use Rattle.top_call.specs.Lent.{IsStatusOf};

use crate::child_limits::child_limit;
use crate::child_signals::tells_no_ends;
use crate::descriptors::Descriptors;
use crate::looks::LockLooks;
use crate::owner::refused;
use crate::reading::{open_disk, tell_unlisted};
use crate::told::Told;
use crate::trigger::{hear_injectors, wake_sender};
use crate::watching::WatchingGate;
use call_fs::CallFs;
use command_words::{Channels, Member};
use fault_lines::{FaultLines, Noting, TellingFiles, TellingSpawner};
use host_children::{HostSystem, PARENT};
use host_fs::{Leaving, QueueFiles, start_helpers};
use host_streams::{
    HostClock, LateFile, MemberLock, ReaderSource, WriterSink, lock_member, lock_sender,
    unread_words,
};
use local_parts::TEMPORARY;
use mail_bytes::Memory;
use mem_fs::MemFs;
use outside::{Gate, MemPosts, MemSpawner, OpenGate, Posts, Sink, Source, Spawner};
use proc_runner::{
    ChildPosts, Children, Opener, PatientSystem, Shared, System, read_own_input, share,
};
use queue_limits::{NO_START, USAGE};
use resting_gates::{
    LONGEST_DRAIN, LONGEST_IDLE, RestingGate, SHORTEST_DRAIN, SendingGate, drain_limit, idle_limit,
};
use std::alloc::{AllocError, Global};
use std::env::{self, VarError};
use std::process::{self, OpenProcess, Processes};
use std::str;
use std::sync::{Arc, Wait};
use std::thread::Threads;
use std::time::Clock;
use top_call::TopCall;

/// The environment variable that tells how long a child may run after its input ended, in milliseconds.
const DRAIN: &str = "QMAIL_DRAIN_MS";

/// The one that tells how long a sender rests after an idle turn, in milliseconds.
const IDLE: &str = "QMAIL_IDLE_MS";

/// For how many pieces of what channels bring there is room.
const ROOM: usize = 64;

/// The same for a sender: for the reports of all deliveries in flight, 240 of up to three pieces each, and for all ends, so that no
/// reader waits for room once the sender takes no more.
const SENDERS_ROOM: usize = 1024;

/// What the environment tells, in milliseconds.
#[derive(Clone, Copy)]
struct Limits {
    /// How long a child may run after its input ended.
    drain: u64,
    /// How long a sender rests after an idle turn.
    idle: u64,
}

/// Makes the call with these words, with children if their command has them, and answers the exit status; `handle` is that of the
/// program. The error: out of memory before the call.
pub fn run<C: TopCall, R: Threads + Wait + Processes + Clock + Copy + Send + Sync + Drop + 'static>(
    call: &C,
    rt: &HostRuntime,
    handle: R,
    alloc: Global,
    words: &[String],
) -> Result<u8, Memory>
where
    R::Started: Drop + Send + 'static,
    <R::Started as OpenProcess>::Stdin: Send + 'static,
    <R::Started as OpenProcess>::Stdout: Send + 'static,
    <R::Started as OpenProcess>::Stderr: Send + 'static,
    ensures { IfOk result (λ status. WasRun (C.does call.now) words.now status) }
{
    let descriptors = Descriptors::fill(rt);
    let called = run_filled(call, rt, handle, alloc, words);
    drop(descriptors);
    called
}

/// The same, with descriptors 0 to 2 taken.
fn run_filled<
    C: TopCall,
    R: Threads + Wait + Processes + Clock + Copy + Send + Sync + Drop + 'static,
>(call: &C, rt: &HostRuntime, handle: R, alloc: Global, words: &[String]) -> Result<u8, Memory>
where
    R::Started: Drop + Send + 'static,
    <R::Started as OpenProcess>::Stdin: Send + 'static,
    <R::Started as OpenProcess>::Stdout: Send + 'static,
    <R::Started as OpenProcess>::Stderr: Send + 'static,
    ensures { IfOk result (λ status. WasRun (C.does call.now) words.now status) }
{
    let told = Told::of(alloc, words)?;
    let called = if told.is_nameless() {
        run_nameless(call, rt, handle, alloc)
    } else {
        run_told(call, rt, handle, alloc, words, &told)
    };
    drop(told);
    called
}

/// Makes the call with no words: those of a queue whose directory has no name are no command.
fn run_nameless<C: TopCall, R: Threads + Wait + Copy + Send + Drop + 'static>(
    call: &C,
    rt: &HostRuntime,
    handle: R,
    alloc: Global,
) -> Result<u8, Memory>
    ensures { IfOk result (λ status. IsStatusOf (C.does call.now) [] status) }
{
    let told = Told::nothing();
    let called = run_alone(call, rt, handle, alloc, &[], &told);
    drop(told);
    called
}

/// Makes the call with these words, which tell this.
fn run_told<
    C: TopCall,
    R: Threads + Wait + Processes + Clock + Copy + Send + Sync + Drop + 'static,
>(
    call: &C,
    rt: &HostRuntime,
    handle: R,
    alloc: Global,
    words: &[String],
    told: &Told,
) -> Result<u8, Memory>
where
    R::Started: Drop + Send + 'static,
    <R::Started as OpenProcess>::Stdin: Send + 'static,
    <R::Started as OpenProcess>::Stdout: Send + 'static,
    <R::Started as OpenProcess>::Stderr: Send + 'static,
    ensures { IfOk result (λ status. WasRun (C.does call.now) words.now status) }
{
    let channels = told.channels;
    let Some(limits) = told_limits(rt, alloc, channels)? else {
        return Ok(USAGE);
    };
    if let Some(status) = refused(rt, alloc, words, told.dir())? {
        return Ok(status);
    }
    if channels != Channels::Nothing && tells_no_ends(rt, alloc)? {
        return Ok(unstarted(channels));
    }
    match lock(rt, alloc, told)? {
        Some(lock) => {
            let called = match channels {
                Channels::Nothing => run_alone(call, rt, handle, alloc, words, told),
                _ => run_parent(call, rt, handle, alloc, words, told, limits, &lock),
            };
            drop(lock);
            called
        }
        None => Ok(NO_START),
    }
}

/// The exit status of a command with these channels that begins nothing: a delivery is tried again.
fn unstarted(channels: Channels) -> u8
    ensures { IsRefusal result }
{
    match channels {
        Channels::Children => TEMPORARY,
        _ => NO_START,
    }
}

/// The words after the program's name. If one isn't UTF-8 there are none, which is no command; `Err` if memory runs out.
pub fn words_of(rt: &HostRuntime, alloc: Global) -> Result<Vec<String>, Memory> {
    match env::args(rt) {
        Ok(words) => words.skip(1).collect(alloc),
        Err(why) => unread_words(alloc, why.kind()),
    }
}

/// What the environment tells a command with these channels, as far as it concerns it: that with children how long they may
/// run, and a sender also how long it rests. None, and a line on standard error, if it tells no number that this can be.
fn told_limits(
    rt: &HostRuntime,
    alloc: Global,
    channels: Channels,
) -> Result<Option<Limits>, Memory> {
    let mut limits = Limits { drain: 0, idle: 0 };
    if channels != Channels::Nothing {
        match drain(rt)? {
            Some(drain) => limits.drain = drain,
            None => {
                refuse(rt, alloc, DRAIN, SHORTEST_DRAIN, LONGEST_DRAIN)?;
                return Ok(None);
            }
        }
    }
    if channels == Channels::Links {
        match idle(rt)? {
            Some(idle) => limits.idle = idle,
            None => {
                refuse(rt, alloc, IDLE, 0, LONGEST_IDLE)?;
                return Ok(None);
            }
        }
    }
    Ok(Some(limits))
}

/// Gives standard error a line on a variable that isn't a number between these two.
fn refuse(
    rt: &HostRuntime,
    alloc: Global,
    name: &str,
    least: u64,
    most: u64,
) -> Result<(), Memory> {
    let line = format!(in alloc; "{name} is not a number from {least} to {most}\n")?;
    let _given = WriterSink::new(rt.stderr()).give(line.as_bytes());
    Ok(())
}

/// How long a child may run after its input ended, in milliseconds; None if the environment tells no number that this can be.
fn drain(rt: &HostRuntime) -> Result<Option<u64>, Memory> {
    match env::var(rt, DRAIN) {
        Ok(told) => Ok(drain_limit(Some(told.as_bytes()))),
        Err(VarError::NotPresent) => Ok(drain_limit(None)),
        Err(VarError::NotUnicode) => Ok(None),
        Err(VarError::OutOfMemory) => Err(AllocError),
    }
}

/// How long a sender rests after an idle turn, in milliseconds; None if the environment tells no number that this can be.
fn idle(rt: &HostRuntime) -> Result<Option<u64>, Memory> {
    match env::var(rt, IDLE) {
        Ok(told) => Ok(idle_limit(Some(told.as_bytes()))),
        Err(VarError::NotPresent) => Ok(idle_limit(None)),
        Err(VarError::NotUnicode) => Ok(None),
        Err(VarError::OutOfMemory) => Err(AllocError),
    }
}

/// The lock of the member that a command is whose words tell this, if it is one. It waits for the members of an earlier generation. None,
/// and a line on standard error, if there is another sender, if the lock can't be had, or if the sender that started this member has
/// ended.
fn lock(rt: &HostRuntime, alloc: Global, told: &Told) -> Result<Option<MemberLock>, Memory> {
    let (Some(kind), Some(dir)) = (told.member, told.dir()) else {
        return Ok(Some(MemberLock::none()));
    };
    match kind {
        Member::Send => lock_sender(rt, alloc, dir),
        Member::Clean => lock_member(rt, alloc, dir, b"clean", PARENT),
        Member::Lspawn => lock_member(rt, alloc, dir, b"lspawn", PARENT),
        Member::Rspawn => lock_member(rt, alloc, dir, b"rspawn", PARENT),
    }
}

/// Makes the call with these words of a command that has no children, and tells what one that only reads couldn't list.
fn run_alone<C: TopCall, R: Threads + Wait + Copy + Send + Drop + 'static>(
    call: &C,
    rt: &HostRuntime,
    handle: R,
    alloc: Global,
    words: &[String],
    told: &Told,
) -> Result<u8, Memory>
    ensures { IfOk result (λ status. IsStatusOf (C.does call.now) words.now status) }
{
    let mut posts = MemPosts::new(Vec::new(alloc));
    let mut spawn = MemSpawner::new(alloc, Vec::new(alloc), Vec::new(alloc));
    let called = run_over(
        call, rt, handle, alloc, words, told, &mut posts, &mut spawn, &OpenGate,
    );
    drop(spawn);
    drop(posts);
    let status = called?;
    tell_unlisted(rt, alloc, words, told.dir(), status);
    if status == 0 {
        if let Some(name) = words.first() {
            wake_sender(rt, alloc, name.as_str(), told.dir());
        }
    }
    Ok(status)
}

/// Makes the call with these words of a command that has channels.
fn run_parent<
    C: TopCall,
    R: Threads + Wait + Processes + Clock + Copy + Send + Sync + Drop + 'static,
>(
    call: &C,
    rt: &HostRuntime,
    handle: R,
    alloc: Global,
    words: &[String],
    told: &Told,
    limits: Limits,
    lock: &MemberLock,
) -> Result<u8, Memory>
where
    R::Started: Drop + Send + 'static,
    <R::Started as OpenProcess>::Stdin: Send + 'static,
    <R::Started as OpenProcess>::Stdout: Send + 'static,
    <R::Started as OpenProcess>::Stderr: Send + 'static,
    ensures { IfOk result (λ status. IsStatusOf (C.does call.now) words.now status) }
{
    let limit = child_limit(told.member, limits.drain);
    let (mut opener, taker) = share(alloc, room_of(told.channels))?;
    match read_requests(rt, handle, alloc, told.channels, &mut opener) {
        Ok(queue) => {
            if limits.idle > 0 {
                hear_injectors(rt, handle, alloc, told.dir(), &queue);
            }
            let mut posts = ChildPosts::new(handle, taker);
            let called = run_with_posts(
                call, rt, handle, alloc, words, told, limits, lock, limit, opener, queue,
                &mut posts,
            );
            drop(posts);
            called
        }
        Err(why) => {
            drop(opener);
            drop(taker);
            Err(why)
        }
    }
}

/// The same, with these posts, children that may run for so long, and what opens their channels.
fn run_with_posts<
    C: TopCall,
    R: Threads + Wait + Processes + Clock + Copy + Send + Sync + Drop + 'static,
    P: Posts,
>(
    call: &C,
    rt: &HostRuntime,
    handle: R,
    alloc: Global,
    words: &[String],
    told: &Told,
    limits: Limits,
    lock: &MemberLock,
    limit: u64,
    opener: Opener,
    queue: Shared,
    posts: &mut P,
) -> Result<u8, Memory>
where
    R::Started: Drop + Send + 'static,
    <R::Started as OpenProcess>::Stdin: Send + 'static,
    <R::Started as OpenProcess>::Stdout: Send + 'static,
    <R::Started as OpenProcess>::Stderr: Send + 'static,
    ensures { IfOk result (λ status. IsStatusOf (C.does call.now) words.now status) }
{
    match system(rt, handle, alloc, told) {
        Ok(system) => run_with_system(
            call, rt, handle, alloc, words, told, limits, lock, limit, system, opener, queue, posts,
        ),
        Err(why) => {
            drop(opener);
            drop(queue);
            Err(why)
        }
    }
}

/// The same, with children as processes of this system.
fn run_with_system<
    C: TopCall,
    R: Threads + Wait + Copy + Send + Drop + 'static,
    P: Posts,
    S: System,
>(
    call: &C,
    rt: &HostRuntime,
    handle: R,
    alloc: Global,
    words: &[String],
    told: &Told,
    limits: Limits,
    lock: &MemberLock,
    limit: u64,
    system: S,
    opener: Opener,
    queue: Shared,
    posts: &mut P,
) -> Result<u8, Memory>
where
    S::Process: Send + Sync + 'static,
    S::Input: Send + 'static,
    S::Output: Send + 'static,
    ensures { IfOk result (λ status. IsStatusOf (C.does call.now) words.now status) }
{
    match Children::new(handle, alloc, system, opener, limit) {
        Ok(children) => {
            let lines = FaultLines::new(rt, alloc);
            let mut children = TellingSpawner::new(children, &lines);
            let called = run_resting(
                call,
                rt,
                handle,
                alloc,
                words,
                told,
                limits,
                lock,
                queue,
                posts,
                &mut children,
            );
            drop(children);
            drop(lines);
            called
        }
        Err(why) => {
            drop(queue);
            Err(why)
        }
    }
}

/// The system whose processes the children of a command are, which waits until a member is at work.
fn system<R: Processes + Wait + Clock + Copy + Drop>(
    rt: &HostRuntime,
    handle: R,
    alloc: Global,
    told: &Told,
) -> Result<PatientSystem<HostSystem<R>, LockLooks>, Memory>
where
    R::Started: Drop,
{
    let dir = files_dir(alloc, told)?;
    match told.copy_dir(alloc) {
        Ok(looked) => {
            let looks = LockLooks::new(rt, looked);
            let system = HostSystem::new(handle, rt, process::id(rt.process()), dir);
            Ok(PatientSystem::new(system, looks))
        }
        Err(why) => {
            drop(dir);
            Err(why)
        }
    }
}

/// The directory in which children's inputs are made: that of the queue.
fn files_dir(alloc: Global, told: &Told) -> Result<String, Memory> {
    match told.dir() {
        Some(dir) => String::from_str(alloc, str::from_utf8(dir).unwrap_or(".")),
        None => String::from_str(alloc, "."),
    }
}

/// Opens the program's own channel; standard input is read from now on, if the program's input is that channel. The queue of all
/// channels.
fn read_requests<R: Threads + Wait + Copy + Send + Drop + 'static>(
    rt: &HostRuntime,
    handle: R,
    alloc: Global,
    channels: Channels,
    opener: &mut Opener,
) -> Result<Shared, Memory> {
    match (channels, opener.open()?) {
        (Channels::InputAndChildren, Some(own)) => {
            drop(read_own_input(handle, alloc, own, rt.stdin())?);
        }
        (_, own) => drop(own),
    }
    opener.queue()
}

/// Makes the call with these words, posts and children, and a gate that rests until a piece comes into this queue.
fn run_resting<C: TopCall, R: Threads + Wait + Copy + Send + Drop + 'static, P: Posts, S: Spawner>(
    call: &C,
    rt: &HostRuntime,
    handle: R,
    alloc: Global,
    words: &[String],
    told: &Told,
    limits: Limits,
    lock: &MemberLock,
    queue: Shared,
    posts: &mut P,
    spawn: &mut S,
) -> Result<u8, Memory>
    ensures { IfOk result (λ status. IsStatusOf (C.does call.now) words.now status) }
{
    match told.channels {
        Channels::Links => {
            let gate = SendingGate::new(handle, queue, limits.idle, limits.drain);
            let gate = WatchingGate::new(rt, gate, lock);
            let called = run_over(call, rt, handle, alloc, words, told, posts, spawn, &gate);
            drop(gate);
            called
        }
        _ => {
            let gate = RestingGate::new(handle, queue);
            let called = run_over(call, rt, handle, alloc, words, told, posts, spawn, &gate);
            drop(gate);
            called
        }
    }
}

/// For how many pieces there is room in a command with these channels.
fn room_of(channels: Channels) -> usize {
    match channels {
        Channels::Links => SENDERS_ROOM,
        _ => ROOM,
    }
}

/// Makes the call with these words over standard input and over the places that they name.
fn run_over<
    C: TopCall,
    R: Threads + Wait + Copy + Send + Drop + 'static,
    P: Posts,
    S: Spawner,
    G: Gate,
>(
    call: &C,
    rt: &HostRuntime,
    handle: R,
    alloc: Global,
    words: &[String],
    told: &Told,
    posts: &mut P,
    spawn: &mut S,
    gate: &G,
) -> Result<u8, Memory>
    ensures { IfOk result (λ status. IsStatusOf (C.does call.now) words.now status) }
{
    let env = told.copy_env(alloc)?;
    let mut message = ReaderSource::new(rt.stdin());
    let mut envelope = ReaderSource::new(LateFile::new(rt, env));
    let called = match told.dir() {
        Some(dir) => run_in(
            call,
            rt,
            handle,
            alloc,
            words,
            told.member,
            dir,
            &mut message,
            &mut envelope,
            posts,
            spawn,
            gate,
        ),
        None => run_nowhere(
            call,
            rt,
            alloc,
            words,
            &mut message,
            &mut envelope,
            posts,
            spawn,
            gate,
        ),
    };
    drop(envelope);
    drop(message);
    called
}

/// Makes the call over the files below this directory.
fn run_in<
    C: TopCall,
    R: Threads + Wait + Copy + Send + Drop + 'static,
    M: Source,
    E: Source,
    P: Posts,
    S: Spawner,
    G: Gate,
>(
    call: &C,
    rt: &HostRuntime,
    handle: R,
    alloc: Global,
    words: &[String],
    member: Option<Member>,
    dir: &[u8],
    message: &mut M,
    envelope: &mut E,
    posts: &mut P,
    spawn: &mut S,
    gate: &G,
) -> Result<u8, Memory>
    ensures { IfOk result (λ status. IsStatusOf (C.does call.now) words.now status) }
{
    let leaving = leaving(handle, alloc, member)?;
    let files = QueueFiles::new(rt, handle, leaving);
    let lines = FaultLines::new(rt, alloc);
    let system = Noting::new(&files, &lines);
    let called = match open_disk(&system, alloc, words, dir) {
        Ok(disk) => {
            let mut disk = TellingFiles::new(disk, alloc, &lines);
            let status = run_on(
                call, rt, alloc, words, &mut disk, message, envelope, posts, spawn, gate,
            );
            drop(disk);
            Ok(status)
        }
        Err(why) => Err(why),
    };
    drop(lines);
    drop(files);
    called
}

/// Makes the call of a command that has no directory, over an empty disk in memory.
fn run_nowhere<C: TopCall, M: Source, E: Source, P: Posts, S: Spawner, G: Gate>(
    call: &C,
    rt: &HostRuntime,
    alloc: Global,
    words: &[String],
    message: &mut M,
    envelope: &mut E,
    posts: &mut P,
    spawn: &mut S,
    gate: &G,
) -> Result<u8, Memory>
    ensures { IfOk result (λ status. IsStatusOf (C.does call.now) words.now status) }
{
    let mut disk = MemFs::new(alloc, Vec::new(alloc), Vec::new(alloc))?;
    let status = run_on(
        call, rt, alloc, words, &mut disk, message, envelope, posts, spawn, gate,
    );
    drop(disk);
    Ok(status)
}

/// Files to be let go of, with threads for that in the sender and the cleaner.
fn leaving<R: Threads + Wait + Copy + Send + Drop + 'static>(
    handle: R,
    alloc: Global,
    member: Option<Member>,
) -> Result<Arc<Leaving, Global>, Memory> {
    let leaving = Arc::new(alloc, Leaving::new(alloc))?;
    let begun = match member {
        Some(Member::Send | Member::Clean) => start_helpers(handle, &leaving),
        _ => Ok(()),
    };
    match begun {
        Ok(()) => Ok(leaving),
        Err(why) => {
            drop(leaving);
            Err(why)
        }
    }
}

/// Makes the call over this disk.
fn run_on<C: TopCall, D: CallFs, M: Source, E: Source, P: Posts, S: Spawner, G: Gate>(
    call: &C,
    rt: &HostRuntime,
    alloc: Global,
    words: &[String],
    disk: &mut D,
    message: &mut M,
    envelope: &mut E,
    posts: &mut P,
    spawn: &mut S,
    gate: &G,
) -> u8
    ensures { IsStatusOf (C.does call.now) words.now result }
{
    call.call(
        rt,
        alloc,
        words,
        disk,
        message,
        envelope,
        &mut WriterSink::new(rt.stdout()),
        &mut WriterSink::new(rt.stderr()),
        &mut HostClock::new(rt),
        posts,
        spawn,
        gate,
    )
}
