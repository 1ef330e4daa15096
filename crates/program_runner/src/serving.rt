// How a need of a program is served that is no file call.
ghost use Rattle.std.specs.Prelude.{◌≡◌, ◌∷◌, [], ℕ, List, Option, false, true, set, None, IfOk, OnErr};
ghost use Rattle.call_fs.specs.declared.past.NeedData.TheVariants.{Give, Take, Start as Begin};
ghost use Rattle.call_fs.specs.declared.past.ChildData.{ChildData};
ghost use Rattle.call_fs.specs.Program.{child_data, due_of};
ghost use Rattle.outside.specs.Children.SpawnCall.{AskStatus};
ghost use Rattle.program_runner.specs.Lines.{Serves, StartsBy, TakesAs, after_start, came_of_giving, line_of, slot_of};
ghost use Rattle.program_runner.specs.Serving.{FitsPiece, IsGiven, IsPossible, IsServed, IsStatusTaken, MayServe, PutsOut, Serving, Spawns, came_with, is_done, served_status};

use crate::child_words::ChildWords;
use crate::line::Line;
use crate::lines::Lines;
use crate::served::Served;
use call_fs::{Child, Need, PIECE, Port};
use mail_bytes::Memory;
use outside::{Gave, Sink, Spawner, Started, Status};
use std::alloc::Global;

/// Serves a need that is no file call: a taking from what came, at most so many bytes, into the buffer; a giving, a start.
/// Fails only if memory runs out, and then nothing was done. The conditions: it is one of these, or to wait.
pub(crate) fn serve<C: ChildWords, S: Spawner, O: Sink>(
    alloc: Global,
    words: &C,
    lines: &mut Lines,
    need: Need<'_>,
    most: usize,
    into: &mut [u8; PIECE],
    spawner: &mut S,
    output: &mut O,
) -> Result<Served, Memory>
    requires { MayServe (due_of need) }
    ensures served { IfOk result (λ served. IsServed (Serves (C.words words.now)) (due_of need.entry) served (came_with served into.new) lines.old lines.new
        (record { children = S.children spawner.old; calls = S.calls spawner.old; faults = S.faults spawner.old })
        (record { children = S.children spawner.new; calls = S.calls spawner.new; faults = S.faults spawner.new })) }
    ensures possible { IfOk result (λ served. IsPossible (due_of need.entry) most served (came_with served into.new)) }
    ensures put { IfOk result (λ served. PutsOut (due_of need.entry) (came_with served into.new) (O.taken output.old) (O.taken output.new) (O.faults output.old) (O.faults output.new)) }
    ensures fits { IfOk result FitsPiece }
    ensures quiet { IfOk result (λ served. is_done served ≡ false → output.new ≡ output.old) }
    ensures lines { OnErr result (lines.new ≡ lines.old) }
    ensures spawner { OnErr result (spawner.new ≡ spawner.old) }
    ensures output { OnErr result (output.new ≡ output.old) }
{
    match need {
        Need::Take(port) => take_port(alloc, lines, port, most, into, spawner),
        Need::Give(port, bytes) => Ok(give_need(lines, port, bytes, spawner, output)),
        Need::Start(child) => Ok(start_need(alloc, words, lines, child, spawner)),
        Need::Wait => Ok(Served::Nothing),
        _ => unreachable!(),
    }
}

/// Takes of this port, into the buffer, at most so many bytes. Fails only if memory runs out, and then nothing was taken.
fn take_port<S: Spawner>(
    alloc: Global,
    lines: &mut Lines,
    port: Port,
    most: usize,
    into: &mut [u8; PIECE],
    spawner: &mut S,
) -> Result<Served, Memory>
    ensures served { IfOk result (λ served. IsServed TakesAs (Take port) served (came_with served into.new) lines.old lines.new
        (record { children = S.children spawner.old; calls = S.calls spawner.old; faults = S.faults spawner.old })
        (record { children = S.children spawner.new; calls = S.calls spawner.new; faults = S.faults spawner.new })) }
    ensures possible { IfOk result (λ served. IsPossible (Take port) most served (came_with served into.new)) }
    ensures fits { IfOk result FitsPiece }
    ensures lines { OnErr result (lines.new ≡ lines.old) }
    ensures spawner { OnErr result (spawner.new ≡ spawner.old) }
{
    match lines.line(port) {
        Line::Missing | Line::Output => Ok(Served::Failed),
        Line::Link(chan) => lines.take_of(alloc, chan, most, into),
        Line::Program(slot, chan) => lines.take_of_program(alloc, slot, chan, most, into),
        Line::Status(slot, chan) => Ok(take_status(lines, slot, chan, spawner)),
    }
}

/// Takes the status of the program of this delivery, which has this channel; nothing comes until the program has ended.
fn take_status<S: Spawner>(lines: &mut Lines, slot: u8, chan: u32, spawner: &mut S) -> Served
    ensures { IsStatusTaken slot chan result lines.old lines.new
        (record { children = S.children spawner.old; calls = S.calls spawner.old; faults = S.faults spawner.old })
        (record { children = S.children spawner.new; calls = S.calls spawner.new; faults = S.faults spawner.new }) }
{
    if lines.is_over(slot, chan) {
        served_status(ask_status(lines, slot, chan, spawner))
    } else {
        Served::Nothing
    }
}

/// How a program ended, as it is served.
fn served_status(status: Status) -> Served
    ensures { result ≡ served_status status }
{
    match status {
        Status::Ended(code) => Served::Ended(code),
        Status::Crashed => Served::Crashed,
        Status::Failed => Served::Failed,
    }
}

/// Asks how the program of this delivery ended, which has this channel, and is none from then on.
fn ask_status<S: Spawner>(lines: &mut Lines, slot: u8, chan: u32, spawner: &mut S) -> Status
    ensures lines { lines.new ≡ record lines.old { programs = set lines.old.programs slot None } }
    ensures asked { Spawns (AskStatus chan result ∷ [])
        (record { children = S.children spawner.old; calls = S.calls spawner.old; faults = S.faults spawner.old })
        (record { children = S.children spawner.new; calls = S.calls spawner.new; faults = S.faults spawner.new }) }
{
    lines.set_program(slot, None);
    spawner.status(chan)
}

/// Serves a giving.
fn give_need<S: Spawner, O: Sink>(
    lines: &Lines,
    port: Port,
    bytes: &[u8],
    spawner: &mut S,
    output: &mut O,
) -> Served
    ensures served { (words : ChildData → List (List ℕ)) (into : List ℕ) → IsServed (Serves words) (Give port bytes.now) result (came_with result into) lines.now lines.now
        (record { children = S.children spawner.old; calls = S.calls spawner.old; faults = S.faults spawner.old })
        (record { children = S.children spawner.new; calls = S.calls spawner.new; faults = S.faults spawner.new }) }
    ensures done { is_done result ≡ true }
    ensures possible { (most : ℕ) (into : List ℕ) → IsPossible (Give port bytes.now) most result (came_with result into) }
    ensures put { (into : List ℕ) → PutsOut (Give port bytes.now) (came_with result into) (O.taken output.old) (O.taken output.new) (O.faults output.old) (O.faults output.new) }
    ensures fits { FitsPiece result }
{
    match give_port(lines, port, bytes, spawner, output) {
        Gave::Done => Served::Gave,
        Gave::Failed => Served::Failed,
    }
}

/// Gives bytes to this port; a program's input is ended then.
fn give_port<S: Spawner, O: Sink>(
    lines: &Lines,
    port: Port,
    bytes: &[u8],
    spawner: &mut S,
    output: &mut O,
) -> Gave
    ensures given { IsGiven (line_of lines.now port) bytes.now result
        (record { children = S.children spawner.old; calls = S.calls spawner.old; faults = S.faults spawner.old })
        (record { children = S.children spawner.new; calls = S.calls spawner.new; faults = S.faults spawner.new }) }
    ensures put { PutsOut (Give port bytes.now) (came_of_giving result) (O.taken output.old) (O.taken output.new) (O.faults output.old) (O.faults output.new) }
{
    match lines.line(port) {
        Line::Missing | Line::Status(_, _) => Gave::Failed,
        Line::Output => output.give(bytes),
        Line::Link(chan) => spawner.feed(chan, bytes),
        Line::Program(_, chan) => {
            let gave = spawner.feed(chan, bytes);
            spawner.finish(chan);
            gave
        }
    }
}

/// Serves a start.
fn start_need<C: ChildWords, S: Spawner>(
    alloc: Global,
    words: &C,
    lines: &mut Lines,
    child: Child<'_>,
    spawner: &mut S,
) -> Served
    ensures served { (into : List ℕ) → IsServed (Serves (C.words words.now)) (Begin (child_data child.entry)) result (came_with result into) lines.old lines.new
        (record { children = S.children spawner.old; calls = S.calls spawner.old; faults = S.faults spawner.old })
        (record { children = S.children spawner.new; calls = S.calls spawner.new; faults = S.faults spawner.new }) }
    ensures possible { (most : ℕ) (into : List ℕ) → IsPossible (Begin (child_data child.entry)) most result (came_with result into) }
    ensures put { (into : List ℕ) (taken : Option (List ℕ)) (faults : ℕ) → PutsOut (Begin (child_data child.entry)) (came_with result into) taken taken faults faults }
    ensures fits { FitsPiece result }
{
    match start_child(alloc, words, lines, child, spawner) {
        Started::Chan { pid, .. } => Served::Started { pid },
        Started::Failed => Served::Failed,
        Started::Memory => Served::Memory,
    }
}

/// Starts a child, which is then the program of its delivery.
fn start_child<C: ChildWords, S: Spawner>(
    alloc: Global,
    words: &C,
    lines: &mut Lines,
    child: Child<'_>,
    spawner: &mut S,
) -> Started
    ensures lines { lines.new ≡ after_start (slot_of (child_data child.entry)) result lines.old }
    ensures started { Serving (StartsBy (C.words words.now (child_data child.entry)) result)
        (record { children = S.children spawner.old; calls = S.calls spawner.old; faults = S.faults spawner.old })
        (record { children = S.children spawner.new; calls = S.calls spawner.new; faults = S.faults spawner.new }) }
{
    let slot = slot_of(&child);
    let started = words.start(alloc, child, spawner);
    note(lines, slot, started);
    started
}

/// A child that was started is the program of this delivery from now on.
fn note(lines: &mut Lines, slot: u8, started: Started)
    ensures { lines.new ≡ after_start slot started lines.old }
{
    match started {
        Started::Chan { chan, .. } => {
            lines.set_program(slot, Some(chan));
            lines.set_over(slot, false);
        }
        Started::Failed | Started::Memory => {}
    }
}

/// The delivery whose program it is, 0 for an only child.
fn slot_of(child: &Child<'_>) -> u8
    ensures { result ≡ slot_of (child_data child.now) }
{
    match child {
        Child::Bounce { .. } | Child::Forward { .. } => 0,
        Child::Local { slot, .. } | Child::Remote { slot, .. } => *slot,
    }
}
