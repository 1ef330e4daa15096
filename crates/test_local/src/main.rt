//! Makes one drop into a maildir of a real directory, for tests and for bench/maildir.sh.
//!
//! The words of its command line are ROOT, the path of the maildir below it with its last `/`, the moment, the process
//! number, the host, and the message, which has at most 8192 bytes. It prints `dropped` and the name, `deferred` or `out of
//! memory`, and exits with 0, 111 or 51; with 100 if the words are others.
//!
//! Tests of local delivery: which file of a home handles an address and what it tells, maildir drops and whole deliveries over a
//! disk in memory that can be halted. They stand in a crate of their own, with nothing else in it but what a run over a disk
//! rests on. Each test is data: rows with what comes of a delivery, which few functions play.
#![tactic(auto)]

#[cfg(test)]
mod tests;

ghost use Rattle.std.specs.Prelude.{◌≤◌, All, IfOk, length};

use call_fs::{Got, Need, PIECE, UNREADY, perform};
use host_fs::HostFs;
use mail_bytes::{Memory, undec};
use maildir_drop::{End, MaildirDrop};
use std::alloc::Global;
use std::process::ExitCode;
use std::{env, io, str};

/// The most steps of a drop of one block: three creations, an append and five more.
const STEPS: usize = 9;

/// The program's entry.
fn main(rt: HostRuntime) -> ExitCode {
    match run(&rt, rt.alloc()) {
        Ok(status) => ExitCode::from(status),
        Err(_) => ExitCode::from(51),
    }
}

/// Makes the drop that the words tell, and answers the exit status.
fn run(rt: &HostRuntime, alloc: Global) -> Result<u8, Memory> {
    let words = words_of(rt, alloc)?;
    let [root, dir, moment, pid, host, text] = words.as_slice() else {
        return Ok(100);
    };
    let (Some(moment), Some(pid)) = (number(moment), number(pid)) else {
        return Ok(100);
    };
    let Ok(pid) = u32::try_from(pid) else {
        return Ok(100);
    };
    if text.len() > PIECE {
        return Ok(100);
    }
    let blocks = blocks(alloc, text.as_bytes())?;
    let machine = MaildirDrop::new(alloc, dir.as_bytes(), moment, pid, host.as_bytes(), blocks)?;
    let mut disk = HostFs::open(rt, alloc, root.as_bytes())?;
    drop_over(rt, alloc, machine, &mut disk)
}

/// The words after the program's name; none if one isn't UTF-8.
fn words_of(rt: &HostRuntime, alloc: Global) -> Result<Vec<String>, Memory> {
    match env::args(rt) {
        Ok(words) => words.skip(1).collect(alloc),
        Err(_) => Ok(Vec::new(alloc)),
    }
}

/// The number that a word is.
fn number(word: &String) -> Option<u64> {
    undec(word.as_bytes())
}

/// The message as one block, or none if it has over 8192 bytes.
fn blocks(alloc: Global, text: &[u8]) -> Result<Vec<Vec<u8>>, Memory>
    ensures { IfOk result (λ blocks. All (λ block. length block.items ≤ PIECE) blocks.items) }
{
    let mut blocks = Vec::new(alloc);
    if text.len() <= PIECE {
        blocks.push(Vec::from_slice(alloc, text)?)?;
    }
    Ok(blocks)
}

/// Makes the steps of a drop, prints how it ended, and answers the exit status.
fn drop_over(
    rt: &HostRuntime,
    alloc: Global,
    mut machine: MaildirDrop,
    disk: &mut HostFs<HostRuntime>,
) -> Result<u8, Memory> {
    for _ in 0..STEPS {
        step(alloc, &mut machine, disk);
    }
    Ok(told(rt, &machine))
}

/// Makes the next step of a drop, if there is one.
fn step(alloc: Global, machine: &mut MaildirDrop, disk: &mut HostFs<HostRuntime>) {
    let mut into = [0; PIECE];
    machine.look(0, UNREADY);
    if let Need::File(call) = machine.need() {
        let answer = perform(alloc, disk, 0, call, &mut into);
        let _ = machine.done(Got::File(answer, b""));
    }
}

/// Prints how a drop ended, and answers the exit status; 1 if that can't be printed.
fn told(rt: &HostRuntime, machine: &MaildirDrop) -> u8 {
    let (status, said) = match machine.end() {
        Some(End::Dropped { name }) => (0, print_name(rt, name)),
        Some(End::Defer) => (111, println!(rt; "deferred")),
        Some(End::Memory) => (51, println!(rt; "out of memory")),
        None => (1, println!(rt; "goes on")),
    };
    if said.is_ok() { status } else { 1 }
}

/// Prints the name under which a message was dropped.
fn print_name(rt: &HostRuntime, name: &[u8]) -> io::Result<()> {
    match str::from_utf8(name) {
        Ok(name) => println!(rt; "dropped {name}"),
        Err(_) => println!(rt; "dropped"),
    }
}
