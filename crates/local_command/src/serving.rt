// How a need of a delivery is served that is no file call.
ghost use Rattle.std.specs.Prelude.{◌≡◌, List, ℕ, Option};
ghost use Rattle.call_fs.specs.declared.past.ChildData.{ChildData};
ghost use Rattle.call_fs.specs.declared.past.NeedData.TheVariants.{Give, Take};
ghost use Rattle.call_fs.specs.Program.{child_data, due_of};
ghost use Rattle.program_runner.specs.Serving.{FitsPiece, PostsTold, came_with};
ghost use Rattle.local_command.specs.Serving.{HasAskedInjector, HasFedInjector, HasServed, HasStarted, IsThere, MayServe, Moves, served_gave, served_took};

use crate::commands::{end_of, run_command, served_status};
use call_fs::{Child, Need, PIECE, Port};
use local_parts::Blocks;
use outside::{Gate, Gave, Posts, Sink, Source, Spawner, Started, Took};
use program_runner::{ChildWords, Served, take};
use std::alloc::Global;

/// Serves a need that is no file call: a taking of the input, into the buffer; a giving to the output; a command, which gets
/// this message; and of the injector of forwards, which has this channel once it was started, the start, its input and its
/// status. The condition: it is one of these, and the injector is fed and asked only once it was started.
pub(crate) fn serve<C: ChildWords, M: Source, O: Sink, P: Posts, S: Spawner, G: Gate>(
    alloc: Global,
    words: &C,
    need: Need<'_>,
    message: &Blocks,
    injector: &mut Option<u32>,
    into: &mut [u8; PIECE],
    input: &mut M,
    output: &mut O,
    posts: &mut P,
    spawner: &mut S,
    gate: &G,
) -> Served
    requires { MayServe injector.old (due_of need) }
    ensures served { HasServed (C.words words.now) message.now injector.old injector.new (due_of need.entry) (came_with result into.new)
        (record { posts = record { waiting = P.waiting posts.old; asked = P.calls posts.old; faults = P.faults posts.old }; spawner = record { children = S.children spawner.old; calls = S.calls spawner.old; faults = S.faults spawner.old } })
        (record { posts = record { waiting = P.waiting posts.new; asked = P.calls posts.new; faults = P.faults posts.new }; spawner = record { children = S.children spawner.new; calls = S.calls spawner.new; faults = S.faults spawner.new } }) }
    ensures streams { Moves (due_of need.entry) (came_with result into.new)
        (record { left = M.left input.old; input_faults = M.faults input.old; taken = O.taken output.old; output_faults = O.faults output.old })
        (record { left = M.left input.new; input_faults = M.faults input.new; taken = O.taken output.new; output_faults = O.faults output.new }) }
    ensures fits { FitsPiece result }
{
    match need {
        Need::Take(port) => serve_take(port, *injector, into, input, posts, spawner, gate),
        Need::Give(port, bytes) => serve_give(port, bytes, *injector, output, spawner),
        Need::Start(child) => start_injector(alloc, words, child, injector, spawner),
        Need::Command(text) => run_command(alloc, text, message, posts, spawner, gate),
        _ => unreachable!(),
    }
}

/// Serves a taking: of the input, into the buffer, or of the status of the injector, which has this channel. The condition:
/// it is one of these, and the injector was started.
fn serve_take<M: Source, P: Posts, S: Spawner, G: Gate>(
    port: Port,
    injector: Option<u32>,
    into: &mut [u8; PIECE],
    input: &mut M,
    posts: &mut P,
    spawner: &mut S,
    gate: &G,
) -> Served
    requires { MayServe injector (Take port) }
    ensures served { (words : ChildData → List (List ℕ)) (message : List ℕ) → HasServed words message injector injector (Take port) (came_with result into.new)
        (record { posts = record { waiting = P.waiting posts.old; asked = P.calls posts.old; faults = P.faults posts.old }; spawner = record { children = S.children spawner.old; calls = S.calls spawner.old; faults = S.faults spawner.old } })
        (record { posts = record { waiting = P.waiting posts.new; asked = P.calls posts.new; faults = P.faults posts.new }; spawner = record { children = S.children spawner.new; calls = S.calls spawner.new; faults = S.faults spawner.new } }) }
    ensures streams { (taken : Option (List ℕ)) (faults : ℕ) → Moves (Take port) (came_with result into.new)
        (record { left = M.left input.old; input_faults = M.faults input.old; taken = taken; output_faults = faults })
        (record { left = M.left input.new; input_faults = M.faults input.new; taken = taken; output_faults = faults }) }
    ensures fits { FitsPiece result }
{
    match port {
        Port::Input => served_took(take(input, PIECE, into)),
        Port::Status(_) => ask_injector(injector, posts, spawner, gate),
        _ => unreachable!(),
    }
}

/// Serves a giving: to the output, or to the injector, which has this channel. The condition: it is one of these, and the
/// injector was started.
fn serve_give<O: Sink, S: Spawner>(
    port: Port,
    bytes: &[u8],
    injector: Option<u32>,
    output: &mut O,
    spawner: &mut S,
) -> Served
    requires { MayServe injector (Give port bytes.now) }
    ensures served { (words : ChildData → List (List ℕ)) (message into : List ℕ) (posts : PostsTold) → HasServed words message injector injector (Give port bytes.now) (came_with result into)
        (record { posts = posts; spawner = record { children = S.children spawner.old; calls = S.calls spawner.old; faults = S.faults spawner.old } })
        (record { posts = posts; spawner = record { children = S.children spawner.new; calls = S.calls spawner.new; faults = S.faults spawner.new } }) }
    ensures streams { (into : List ℕ) (left : Option (List ℕ)) (faults : ℕ) → Moves (Give port bytes.now) (came_with result into)
        (record { left = left; input_faults = faults; taken = O.taken output.old; output_faults = O.faults output.old })
        (record { left = left; input_faults = faults; taken = O.taken output.new; output_faults = O.faults output.new }) }
    ensures fits { FitsPiece result }
{
    match port {
        Port::Output => served_gave(output.give(bytes)),
        Port::Program(_) => served_gave(feed_injector(injector, bytes, spawner)),
        _ => unreachable!(),
    }
}

/// What was taken, as it is served.
fn served_took(took: Took) -> Served
    ensures { result ≡ served_took took }
{
    match took {
        Took::Got(count) => Served::Took(count),
        Took::End => Served::End,
        Took::Failed => Served::Failed,
    }
}

/// What was given, as it is served.
fn served_gave(gave: Gave) -> Served
    ensures { result ≡ served_gave gave }
{
    match gave {
        Gave::Done => Served::Gave,
        Gave::Failed => Served::Failed,
    }
}

/// Starts the injector of forwards, and keeps its channel.
fn start_injector<C: ChildWords, S: Spawner>(
    alloc: Global,
    words: &C,
    child: Child<'_>,
    injector: &mut Option<u32>,
    spawner: &mut S,
) -> Served
    ensures { HasStarted (C.words words.now (child_data child.entry)) injector.old injector.new result
        (record { children = S.children spawner.old; calls = S.calls spawner.old; faults = S.faults spawner.old })
        (record { children = S.children spawner.new; calls = S.calls spawner.new; faults = S.faults spawner.new }) }
{
    match words.start(alloc, child, spawner) {
        Started::Chan { chan, pid } => {
            *injector = Some(chan);
            Served::Started { pid }
        }
        Started::Failed => Served::Failed,
        Started::Memory => Served::Memory,
    }
}

/// Gives the injector its whole input, and ends that. The condition: it was started.
fn feed_injector<S: Spawner>(injector: Option<u32>, bytes: &[u8], spawner: &mut S) -> Gave
    requires { IsThere injector }
    ensures { HasFedInjector injector bytes.now result
        (record { children = S.children spawner.old; calls = S.calls spawner.old; faults = S.faults spawner.old })
        (record { children = S.children spawner.new; calls = S.calls spawner.new; faults = S.faults spawner.new }) }
{
    match injector {
        Some(chan) => {
            let gave = spawner.feed(chan, bytes);
            spawner.finish(chan);
            gave
        }
        None => unreachable!(),
    }
}

/// Waits for the end of the injector, and takes its status. The condition: it was started.
fn ask_injector<P: Posts, S: Spawner, G: Gate>(
    injector: Option<u32>,
    posts: &mut P,
    spawner: &mut S,
    gate: &G,
) -> Served
    requires { IsThere injector }
    ensures { HasAskedInjector injector result
        (record { posts = record { waiting = P.waiting posts.old; asked = P.calls posts.old; faults = P.faults posts.old }; spawner = record { children = S.children spawner.old; calls = S.calls spawner.old; faults = S.faults spawner.old } })
        (record { posts = record { waiting = P.waiting posts.new; asked = P.calls posts.new; faults = P.faults posts.new }; spawner = record { children = S.children spawner.new; calls = S.calls spawner.new; faults = S.faults spawner.new } }) }
{
    match injector {
        Some(chan) => served_status(end_of(chan, posts, spawner, gate)),
        None => unreachable!(),
    }
}
