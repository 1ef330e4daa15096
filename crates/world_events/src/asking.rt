// What a machine does next, made if it is a file call.
ghost use Rattle.std.specs.Prelude.{◌≡◌, List, IfOk, IsTrue, OnErr};
ghost use Rattle.mail_bytes.specs.Moments.{IsMoment};
ghost use Rattle.call_fs.specs.declared.past.Own.{Own};
ghost use Rattle.world_events.specs.Asking.{MayBeAsked, due_by, IsStated, IsReadAt, IsMade, IsUntouched, IsPlannedCame};

use crate::asked::need_data;
use crate::reads::{room_for, told_in};
use call_fs::{CallData, CallFs, GotData, Machine, Need, NeedData, Own, PIECE, Ready, perform};
use mail_bytes::Memory;
use std::alloc::Global;

/// What a step goes by.
#[derive(Clone, Copy)]
pub struct Setting {
    /// The present moment.
    pub now: u64,
    /// What the actor finds ready.
    pub ready: Ready,
    /// The next process number.
    pub pid: u32,
    /// The place of the actor among all.
    pub place: usize,
}

/// What came of asking a machine.
#[derive(Drop)]
pub enum Came {
    /// It made the call that was due, and this is its event.
    Did(Own),
    /// It has ended with this status.
    Ended(u8),
    /// This is due, which is no call.
    Due(NeedData),
}

/// Asks a machine what it does next at this moment, with this ready, and makes the call, if that is one. Room for the bytes of a
/// read is made first. The conditions: it has looked at this moment, with this ready, and what is next may be made.
pub fn ask<M: Machine, D: CallFs>(
    alloc: Global,
    machine: &M,
    disk: &mut D,
    at: Setting,
) -> Result<Came, Memory>
    requires moment { IsMoment at.now }
    requires looked { IsTrue (M.looked machine.now) }
    requires present { M.present machine.now ≡ at.now }
    requires found { M.found machine.now ≡ at.ready }
    requires may { MayBeAsked M.next (M.stands machine.now) (D.disk disk.old) at.now at.ready }
    ensures due { IfOk result (λ came. (args : M.Arguments) (past : List Own)
        → M.stands machine.now args past → M.next args past at.now at.ready ≡ due_by came) }
    ensures need { IfOk result (λ came. M.due machine.now ≡ due_by came) }
    ensures read { IfOk result (λ came. IsReadAt came at.now at.ready) }
    ensures stated { IfOk result (λ came. IsStated came) }
    ensures made { IfOk result (λ came. IsMade came at.now (D.disk disk.old) (D.disk disk.new)) }
    ensures still { IfOk result (λ came. IsUntouched came disk.old disk.new) }
    ensures plan { IfOk result (λ came. IsPlannedCame came (D.plan disk.old) (D.plan disk.new) (D.disk disk.old) (D.disk disk.new)) }
    ensures err { OnErr result (disk.new ≡ disk.old) }
{
    M::uses_held();
    match machine.need() {
        Need::File(call) => {
            let room = room_for(alloc, call)?;
            let owned = CallData::of(alloc, call)?;
            let mut buffer = [0; PIECE];
            let answer = perform(alloc, disk, at.now, call, &mut buffer);
            let told = told_in(alloc, room, &answer, &buffer);
            Ok(Came::Did(Own {
                read: at.now,
                ready: at.ready,
                due: NeedData::File(owned),
                came: GotData::Answered(told),
            }))
        }
        Need::Ended(status) => Ok(Came::Ended(status)),
        due => Ok(Came::Due(need_data(alloc, due)?)),
    }
}

/// What was due in this setting, and came. What was due is taken, and `Wait` is left in its place.
pub fn own_at(at: Setting, due: &mut NeedData, came: GotData) -> Own
    ensures { result ≡ record { read = at.now; ready = at.ready; due = due.old; came = came } }
{
    Own {
        read: at.now,
        ready: at.ready,
        due: std::mem::replace(due, NeedData::Wait),
        came,
    }
}
