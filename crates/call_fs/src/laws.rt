// Laws of file calls.
ghost use Rattle.std.specs.Prelude.{◌≡◌, ◌≢◌, ◌↔◌, List, ℕ, Option};
ghost use Rattle.call_fs.specs.declared.calls.CallData.{CallData};
ghost use Rattle.call_fs.specs.declared.calls.Answer.{Answer};
ghost use Rattle.call_fs.specs.declared.calls.Answer.TheVariants.{Refused};
ghost use Rattle.call_fs.specs.declared.calls.FsError.{FsError};
ghost use Rattle.call_fs.specs.declared.calls.FsError.TheVariants.{NotThere, Exists, Fault};
ghost use Rattle.call_fs.specs.declared.crash_file_system.Survival.{Survival};
ghost use Rattle.call_fs.specs.declared.past.Own.{Own};
ghost use Rattle.call_fs.specs.declared.file_system.TheConstants.{PIECE};
ghost use Rattle.call_fs.specs.Apply.{Apply, MayCall};
ghost use Rattle.call_fs.specs.Choices.{Halts};
ghost use Rattle.call_fs.specs.Columns.{IsTold, IsMissing, IsTaken, IsAnswerTo, FaultLeaves, OnlyLooks};
ghost use Rattle.call_fs.specs.Disk.{Disk};
ghost use Rattle.call_fs.specs.declared.modes.Mode.{Mode};
ghost use Rattle.call_fs.specs.Past.{LeadsTo, Backs, Uses, held};

/// What the answers of a call mean, each apart. Each is one that its call may have. Unless a failure or running out of memory came first, `NotThere` comes
/// exactly if something is missing, and `Exists` exactly if the new name is there. A call that only looks changes nothing,
/// nor does one that is refused; only a write that failed may have written a prefix.
pub fn answers_mean()
    ensures kind { (before after : Disk) (now : ℕ) (call : CallData) (told : Answer)
        → Apply before now call told after → IsAnswerTo call told }
    ensures not_there { (before after : Disk) (now : ℕ) (call : CallData) (told : Answer)
        → Apply before now call told after → IsTold told → told ≡ Refused NotThere ↔ IsMissing before call }
    ensures exists { (before after : Disk) (now : ℕ) (call : CallData) (told : Answer)
        → Apply before now call told after → IsTold told → told ≡ Refused Exists ↔ IsTaken before call }
    ensures unchanged { (before after : Disk) (now : ℕ) (call : CallData) (why : FsError)
        → Apply before now call (Refused why) after → why ≢ Fault → after ≡ before }
    ensures fault { (before after : Disk) (now : ℕ) (call : CallData)
        → Apply before now call (Refused Fault) after → FaultLeaves before now call after }
    ensures looks { (before after : Disk) (now : ℕ) (call : CallData) (told : Answer)
        → Apply before now call told after → OnlyLooks call → after ≡ before }
{}

/// A choice leaves one disk: the numbers that have a name are one list, and so the draws are the same.
pub fn stops_are_exact()
    ensures { (how : Survival) (before first second : Disk)
        → Halts how before first → Halts how before second → first ≡ second }
{}

/// What a past holds open is open on the disk to which its calls led, in the mode in which it is held. So a call that
/// uses only what is held may be made there.
pub fn held_is_open()
    ensures open { (first last : Disk) (past : List Own) → LeadsTo first past last → Backs last (held past) }
    ensures may { (d : Disk) (has : ℕ → Option Mode) (call : CallData) → Backs d has → Uses has call → MayCall d call }
{}

/// Files are read and written in pieces of so many bytes.
pub fn pieces_have_8192_bytes()
    ensures { PIECE ≡ 8192 }
{}
