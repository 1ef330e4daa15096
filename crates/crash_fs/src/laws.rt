// Laws of disks that fail only at the chosen call, and have memory.
ghost use Rattle.std.specs.Prelude.{◌≡◌, ◌≢◌, List, ℕ, Some};
ghost use Rattle.call_fs.specs.declared.calls.Answer.{Answer};
ghost use Rattle.call_fs.specs.declared.calls.Answer.TheVariants.{Refused};
ghost use Rattle.call_fs.specs.declared.calls.CallData.{CallData};
ghost use Rattle.call_fs.specs.declared.calls.FsError.TheVariants.{Memory};
ghost use Rattle.call_fs.specs.declared.calls.Told.{Told};
ghost use Rattle.call_fs.specs.Apply.{Apply, MayCall};
ghost use Rattle.call_fs.specs.Disk.{Disk};
ghost use Rattle.call_fs.specs.Free.{IsLeastFree, IsNextDescriptor};
ghost use Rattle.call_fs.specs.Plan.{Plan};
ghost use Rattle.call_fs.specs.Survival.{halted};
ghost use Rattle.crash_fs.specs.Answers.{Answers, IsFinite, plan_left_by};
ghost use Rattle.crash_fs.specs.Crash.{Crash, CrashWent, crash_disk, crash_plan};

/// A disk in memory whose machine can be stopped answers each call by the plan that it tells, unless memory runs out.
/// Then it tells what is left of the plan.
pub fn answers_are_planned()
    ensures { (old new : Crash) (now : ℕ) (call : CallData) (told : Told) (plan : Plan)
        → CrashWent old new now call told → crash_plan old ≡ Some plan → told.answer ≢ Refused Memory
        → Answers plan (crash_disk old) call told × (crash_plan new ≡ Some (plan_left_by call plan told.answer)) }
{}

/// By one plan a disk gives a call one answer, with one text of bytes, whichever of the twelve calls it is.
pub fn one_answer()
    ensures { (plan : Plan) (d : Disk) (call : CallData) (first second : Told)
        → Answers plan d call first → Answers plan d call second → first ≡ second }
{}

/// A disk in memory has finitely many names and open descriptors. A disk that does has a least free number and a least
/// free descriptor, and by each plan it answers each of the twelve calls that may be made; it still does so after any
/// answer, and after a machine stop.
pub fn has_answer()
    ensures finite { (c : Crash) → IsFinite (crash_disk c) }
    ensures number { (d : Disk) → IsFinite d → (n : ℕ) × IsLeastFree d n }
    ensures descriptor { (d : Disk) → IsFinite d → (fd : ℕ) × IsNextDescriptor d fd }
    ensures answer { (plan : Plan) (d : Disk) (call : CallData) → IsFinite d → MayCall d call
        → (told : Told) × Answers plan d call told }
    ensures stays { (before after : Disk) (now : ℕ) (call : CallData) (told : Answer)
        → Apply before now call told after → IsFinite before → IsFinite after }
    ensures stopped { (contents : ℕ → List ℕ) (d : Disk) → IsFinite d → IsFinite (halted contents d) }
{}
