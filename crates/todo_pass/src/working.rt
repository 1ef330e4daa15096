// A step of a pass, with its lines of the log and what is then known.
ghost use Rattle.std.specs.Prelude.{◌≡◌, ◌++◌, IfOk, OnOk, OnErr};
ghost use Rattle.call_fs.specs.Program.{came_of};
ghost use Rattle.send_known.specs.Messages.{learned};
ghost use Rattle.todo_pass.specs.declared.row.Row.TheVariants as at;
ghost use Rattle.todo_pass.specs.Known.{known_of};
ghost use Rattle.todo_pass.specs.Lines.{left_lines, queued_lines};
ghost use Rattle.todo_pass.specs.Table.{moved};

use crate::{Pass, put_left, put_queued, queued_room};
use address_rules::Controls;
use call_fs::Got;
use mail_bytes::{ByteText, Memory};
use send_known::{Known, Messages};
use send_log::{LINE_ROOM, Log};
use std::alloc::Global;

/// A step of a pass that isn't done by it, with the line of the log if the pass is left. After an `Err` all is as before.
pub fn work(
    pass: &mut Pass,
    log: &mut Log,
    alloc: Global,
    controls: &Controls,
    now: u64,
    got: &Got<'_>,
) -> Result<(), Memory>
    ensures ok { OnOk result (pass.new ≡ moved controls.now pass.old now (came_of got.now)) }
    ensures log { let p = moved controls.now pass.old now (came_of got.now) in
        OnOk result (log.new.text ≡ log.old.text ++ left_lines p.row p) }
    ensures err { OnErr result (pass.new ≡ pass.old) }
    ensures quiet { OnErr result (log.new.text ≡ log.old.text) }
{
    log.reserve(LINE_ROOM)?;
    pass.done(alloc, controls, now, got)?;
    put_left(log, pass);
    Ok(())
}

/// The last step of a pass, the cleaner's `+`: its message is known, and due at this moment, and the log has the lines of that.
/// After an `Err` all is as before: what takes memory comes first. The condition: the pass stands at the answer.
#[tactic(auto, using(crate::proofs::LastStep::answer_known, crate::proofs::LastStep::answer_queued))]
pub fn learn(
    pass: &mut Pass,
    messages: &mut Messages,
    log: &mut Log,
    alloc: Global,
    controls: &Controls,
    now: u64,
    got: &Got<'_>,
) -> Result<(), Memory>
    requires { pass.old.row ≡ at.Answer }
    ensures ok { OnOk result (pass.new ≡ moved controls.now pass.old now (came_of got.now)) }
    ensures known { let p = moved controls.now pass.old now (came_of got.now) in
        OnOk result (messages.new ≡ learned (known_of p) now messages.old) }
    ensures log { let p = moved controls.now pass.old now (came_of got.now) in
        OnOk result (log.new.text ≡ log.old.text ++ queued_lines p) }
    ensures err { OnErr result (pass.new ≡ pass.old) }
    ensures forgets { OnErr result (messages.new ≡ messages.old) }
    ensures quiet { OnErr result (log.new.text ≡ log.old.text) }
{
    log.reserve(queued_room(pass))?;
    let known = known_of(alloc, pass)?;
    messages.learn(alloc, known, now)?;
    put_queued(log, pass);
    pass.done(alloc, controls, now, got).unwrap();
    Ok(())
}

/// A message that was preprocessed, as it is known.
fn known_of(alloc: Global, pass: &Pass) -> Result<Known, Memory>
    ensures { IfOk result (λ known. known ≡ known_of pass.now) }
{
    let sorted = pass.sorted();
    Ok(Known {
        n: pass.number(),
        birth: pass.birth(),
        finish_at: 0,
        local: !sorted.local.is_empty(),
        remote: !sorted.remote.is_empty(),
        sender: ByteText::from_slice(alloc, sorted.sender.as_slice())?,
    })
}
