// Point 4 of a turn: preprocessing.
ghost use Rattle.std.specs.Prelude.{◌≡◌, ◌++◌, OnOk, OnErr};
ghost use Rattle.call_fs.specs.Program.{came_of};
ghost use Rattle.send_parts.specs.Replies.{said_of};
ghost use Rattle.todo_pass.specs.Table.{moved};
ghost use Rattle.send_core.specs.Log.{pass_lines};
ghost use Rattle.send_core.specs.Turn.{in_todo, todo_found, todo_named, todo_none, todo_on};

use crate::{Desk, Row};
use call_fs::Got;
use mail_bytes::Memory;
use send_log::Log;
use send_parts::{Reply, Search, Way, hold, message_number};
use std::alloc::Global;
use todo_pass::{Row as PassRow, is_plus, learn, number_text, work};

/// A search of `todo`. Takes no memory.
pub fn todo_named(desk: &mut Desk, alloc: Global, search: Search, now: u64, reply: &Reply<'_>)
    ensures { desk.new ≡ todo_named (said_of reply.now).way (said_of reply.now).bytes search now desk.old }
{
    match reply.way {
        Way::Fine => todo_found(
            desk,
            alloc,
            message_number(reply.bytes),
            reply.bytes,
            search,
        ),
        _ => todo_none(desk, search.is_again(), now),
    }
}

/// A name was found.
fn todo_found(desk: &mut Desk, alloc: Global, n: Option<u64>, text: &[u8], search: Search)
    ensures { desk.new ≡ todo_found n text.now search desk.old }
{
    match n {
        None => {
            let again = search.is_again();
            desk.row = Row::FindTodo(Search::AfterStray { again });
            desk.book.after = hold(text);
        }
        Some(n) => {
            desk.pass.begin(alloc, n);
            desk.row = Row::InTodo;
            desk.busy = true;
        }
    }
}

/// No name was found.
fn todo_none(desk: &mut Desk, again: bool, now: u64)
    ensures { desk.new ≡ todo_none again desk.old.last_left now desk.old }
{
    match desk.last_left.as_slice() {
        [_, ..] if !again => desk.row = Row::FindTodo(Search::FromStart),
        _ => desk.past_todo(now),
    }
}

/// A step of the todo pass. After an `Err` all is as before.
pub fn in_todo(
    desk: &mut Desk,
    log: &mut Log,
    alloc: Global,
    now: u64,
    got: &Got<'_>,
) -> Result<(), Memory>
    ensures ok { OnOk result (desk.new ≡ in_todo now (came_of got.now) desk.old) }
    ensures log { let p = moved desk.old.book.controls desk.old.pass now (came_of got.now) in
        OnOk result (log.new.text ≡ log.old.text ++ pass_lines desk.old.pass.row (came_of got.now) p) }
    ensures err { OnErr result (desk.new ≡ desk.old) }
    ensures quiet { OnErr result (log.new.text ≡ log.old.text) }
{
    let pass = &mut desk.pass;
    let book = &mut desk.book;
    match pass.row() {
        PassRow::Answer if is_plus(got) => {
            let known = &mut book.messages;
            learn(pass, known, log, alloc, &book.controls, now, got)?;
            desk.past_todo(now);
        }
        _ => {
            work(pass, log, alloc, &book.controls, now, got)?;
            goes_on(desk, now);
        }
    }
    Ok(())
}

/// The todo pass made a step: it may be left, or the link to the cleaner may be lost.
fn goes_on(desk: &mut Desk, now: u64)
    ensures { desk.new ≡ todo_on desk.old.pass.row desk.old.pass now desk.old }
{
    match desk.pass.row() {
        PassRow::Left { .. } => {
            desk.last_left = number_text(desk.pass.number());
            desk.past_todo(now);
        }
        PassRow::Lost => desk.row = Row::Ended(queue_limits::NO_CLEANER),
        _ => desk.row = Row::InTodo,
    }
}
