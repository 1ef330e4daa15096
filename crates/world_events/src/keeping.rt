// What an actor has open.
ghost use Rattle.std.specs.Prelude.{◌≡◌, ◌<◌, [], vec_len, vec_capacity};
ghost use Rattle.mail_bytes.specs.Told.{OnTold, Meets};
ghost use Rattle.call_fs.specs.declared.past.NeedData.TheVariants.{File};
ghost use Rattle.world_events.specs.Opened.{AreOpen, opened_by, open_after, without, shut};

use call_fs::{Answer, CallData, CallFs, Fd, GotData, NeedData, Own};

/// Keeps what an event opened, and drops what it closed. The condition: there is room for one more.
pub fn keep_open(descriptors: &mut Vec<Fd>, own: &Own)
    requires { vec_len descriptors.old < vec_capacity descriptors.old }
    ensures { descriptors.new.items ≡ opened_by descriptors.old.items own.now.due own.now.came }
{
    match &own.due {
        NeedData::File(call) => keep_came(descriptors, call, &own.came),
        NeedData::Take(_) | NeedData::Give(..) | NeedData::Start(_) => {}
        NeedData::Command(_) | NeedData::Wait | NeedData::Ended(_) => {}
    }
}

/// Keeps what a call of which this came opened, and drops what it closed. The condition: there is room for one more.
fn keep_came(descriptors: &mut Vec<Fd>, call: &CallData, came: &GotData)
    requires { vec_len descriptors.old < vec_capacity descriptors.old }
    ensures { descriptors.new.items ≡ opened_by descriptors.old.items (File call.now) came.now }
{
    match came {
        GotData::Answered(told) => keep_answer(descriptors, call, &told.answer.copy()),
        GotData::Took(_) | GotData::End | GotData::Gave => {}
        GotData::Ended(_) | GotData::Crashed | GotData::Started { .. } => {}
        GotData::Failed | GotData::Memory => {}
    }
}

/// Keeps what a call with this answer opened, and drops what it closed. The condition: there is room for one more.
fn keep_answer(descriptors: &mut Vec<Fd>, call: &CallData, answer: &Answer)
    requires { vec_len descriptors.old < vec_capacity descriptors.old }
    ensures { descriptors.new.items ≡ open_after descriptors.old.items call.now answer.now }
{
    match (call, answer) {
        (_, Answer::Created(fd, _) | Answer::Opened(fd)) => descriptors.push(*fd).unwrap(),
        (CallData::Close(fd), Answer::Done) => drop_out(descriptors, *fd),
        _ => {}
    }
}

/// Drops this descriptor from the list.
fn drop_out(descriptors: &mut Vec<Fd>, fd: Fd)
    ensures { descriptors.new.items ≡ without fd.0 descriptors.old.items }
{
    descriptors.retain(|one| one.0 != fd.0);
}

/// Closes each descriptor. The condition: each is open, and there once.
pub fn close_all<D: CallFs>(disk: &mut D, descriptors: &mut Vec<Fd>)
    requires { OnTold (D.disk disk.old) (λ before. AreOpen before descriptors.old.items) }
    ensures closed { Meets (D.disk disk.old) (D.disk disk.new)
        (λ before after. after ≡ shut descriptors.old.items before) }
    ensures plan { D.plan disk.new ≡ D.plan disk.old }
    ensures none { descriptors.new.items ≡ [] }
{
    while let Some(fd) = descriptors.pop() {
        let _ = disk.close(fd);
    }
}
