//! The laws of drops: when one ends dropped, what stands on the disk then and before, and why one fails.
ghost use Rattle.std.specs.Prelude.{◌≡◌, ◌↔◌, List, ℕ, true};
ghost use Rattle.call_fs.specs.declared.past.GotData.{GotData};
ghost use Rattle.call_fs.specs.Disk.{Disk, IsWhole};
ghost use Rattle.call_fs.specs.Names.{IsName};
ghost use Rattle.call_fs.specs.Past.{Makes};
ghost use Rattle.call_fs.specs.Program.{MayCome};
ghost use Rattle.maildir_drop.specs.declared.arguments.Arguments.{Arguments};
ghost use Rattle.maildir_drop.specs.declared.row.Attempt.{Attempt};
ghost use Rattle.maildir_drop.specs.declared.row.Row.TheVariants as at;
ghost use Rattle.maildir_drop.specs.Laws.{DroppedIfLinked, DropsAreWhole, FailuresHaveCauses, HasDropped};
ghost use Rattle.maildir_drop.specs.Names.{is_name, names_of, pair_at};
ghost use Rattle.maildir_drop.specs.Rests.{LeavesAlone, RestsOn, due_of};
ghost use Rattle.maildir_drop.specs.Table.{Place, begun, moved};

/// A drop ends dropped exactly if its link into `new` was made. What comes of the unlink after it changes nothing.
pub fn dropped_exactly_if_linked()
    ensures { DroppedIfLinked }
{}

/// The file that a drop links into `new` holds the message, complete and on the disk, if its calls alone were made on the
/// disk; and it still stands there when the drop has ended.
pub fn what_is_dropped_is_whole()
    ensures { DropsAreWhole }
{}

/// A drop rests on any disk when it begins; and its next call, made on any disk on which it rests, leads to one on which it
/// rests. Its link, once it is made, puts the message into `new`, complete and on the disk. Other programs may change the disk
/// between its calls: if they leave alone the file that it has at its row, with its name in `tmp` and its descriptor, it rests on
/// what they leave. Once its link is made it rests on nothing: a reader may move or unlink the name in `new` at once.
pub fn drops_rest_on()
    ensures begins { (args : Arguments) (d : Disk) → RestsOn args (begun args) d }
    ensures goes_on { (args : Arguments) (p : Place) (now : ℕ) (got : GotData) (before after : Disk) → RestsOn args p before
        → MayCome (due_of args p) got → Makes before now (due_of args p) got after → RestsOn args (moved (names_of args) p got) after }
    ensures lands { (args : Arguments) (p : Place) (attempt : Attempt) (now : ℕ) (got : GotData) (before after : Disk) → RestsOn args p before
        → p.row ≡ at.Link attempt → MayCome (due_of args p) got → Makes before now (due_of args p) got after
        → HasDropped (moved (names_of args) p got).row attempt → IsWhole after (pair_at (names_of args) attempt).new args.bytes }
    ensures stays { (args : Arguments) (p : Place) (d e : Disk) → LeavesAlone (names_of args) p.row d e → RestsOn args p d → RestsOn args p e }
{}

/// Why a drop failed.
///
/// | End | Only if |
/// |---|---|
/// | `Defer` | a call failed, or something was missing at one; its three names were taken in `tmp`; its name was taken in `new`; or a name that it came to isn't of the form of one |
/// | `Memory` | a call found no memory |
pub fn failures_have_causes()
    ensures { FailuresHaveCauses }
{}

/// The form of a name is that of the file system's names.
pub fn names_are_of_the_form()
    ensures { (name : List ℕ) → (is_name name ≡ true) ↔ IsName name }
{}
