// A law of disks in memory that hold the same.
ghost use Rattle.std.specs.Prelude.{◌≡◌, ◌≢◌, List, ℕ, length};
ghost use Rattle.call_fs.specs.declared.calls.Answer.TheVariants.{Refused};
ghost use Rattle.call_fs.specs.declared.calls.CallData.{CallData};
ghost use Rattle.call_fs.specs.declared.calls.FsError.TheVariants.{Memory};
ghost use Rattle.call_fs.specs.declared.calls.Told.{Told};
ghost use Rattle.call_runs.specs.Forms.{AreAlike, HasMemory, Makes};
ghost use Rattle.call_runs.specs.Running.{Runs};
ghost use Rattle.mem_fs.specs.MemDisk.{Planned};

/// Two disks in memory that hold the same, with the same picks and the same calls that are to fail, give each list of calls
/// the same answers, numbers, descriptors and bytes included, as long as each has memory; then they hold the same. So what
/// a disk in memory keeps beside what it holds, as its free numbers, tells nobody anything.
pub fn forms_are_alike()
    ensures call { (a b c d : Planned) (now : ℕ) (call : CallData) (x y : Told)
        → AreAlike a b → Makes a now call x c → Makes b now call y d
        → x.answer ≢ Refused Memory → y.answer ≢ Refused Memory → (x ≡ y) × AreAlike c d }
    ensures calls { (a b c d : Planned) (calls : List (ℕ × CallData)) (xs ys : List Told)
        → AreAlike a b → Runs Makes a calls xs c → Runs Makes b calls ys d
        → length xs ≡ length ys → HasMemory xs → HasMemory ys → (xs ≡ ys) × AreAlike c d }
{}
