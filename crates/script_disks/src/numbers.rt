// The names and the message numbers that a disk holds.
ghost use Rattle.std.specs.Prelude.{◌≡◌, ◌⊎◌, ◌||◌, ◌↔◌, ◌++◌, ◌∷◌, [], ℕ, All, Contains, IfOk, IsTrue, OnOk, Some, codes, is_some, map, option_map};
ghost use Rattle.mail_bytes.specs.Decimal.{digits};
ghost use Rattle.mem_fs.specs.MemDisk.{disk_of};
ghost use Rattle.queue_paths.specs.Names.{Part, is_number, name_of, path, split_text, used_name};
ghost use Rattle.queue_paths.specs.Names.Name.{Of};
ghost use Rattle.queue_states.specs.States.{is_there, state_of};
ghost use Rattle.queue_states.specs.Listing.{AreNamesIn};
ghost use Rattle.script_disks.specs.Numbers.{AreNumbersIn};

use mail_bytes::{Memory, NameBuf};
use mem_fs::MemFs;
use queue_paths::{FLAT_DIRS, Name, SPLIT_DIRS, SPLITS, parse, path, split_dir};
use queue_states::{State, state_of};
use std::alloc::Global;

/// The names of a directory, in order. The error: out of memory.
pub fn names_of<'a>(alloc: Global, disk: &'a MemFs, dir: &[u8]) -> Result<Vec<&'a [u8]>, Memory>
    ensures { IfOk result (λ names. AreNamesIn (disk_of disk.now.held) dir.now (map (λ name. name.now) names.items)) }
{
    let mut names = Vec::new(alloc);
    let mut last: &[u8] = b"";
    while let Some(name) = disk.name_after(dir, last) {
        names.push(name)?;
        last = name;
    }
    Ok(names)
}

/// The numbers that have a file in the queue, each once, in order. The error: out of memory.
pub fn numbers_of(alloc: Global, disk: &MemFs) -> Result<Vec<u64>, Memory>
    ensures { IfOk result (λ numbers. AreNumbersIn (disk_of disk.now.held) numbers.items) }
{
    let mut numbers = flat_numbers(alloc, disk)?;
    for dir in &SPLIT_DIRS {
        gather_splits(alloc, disk, dir, &mut numbers)?;
    }
    numbers.sort()?;
    numbers.dedup();
    Ok(numbers)
}

/// The numbers of the files in the directories without splits, in any order.
fn flat_numbers(alloc: Global, disk: &MemFs) -> Result<Vec<u64>, Memory>
    ensures only { IfOk result (λ numbers. (n : ℕ) → Contains numbers.items n
        → IsTrue (is_number n) × (part : Part) × IsTrue (is_there (disk_of disk.now.held) part n)) }
    ensures all { IfOk result (λ numbers. All (λ dir. (part : Part) (n : ℕ) → IsTrue (is_number n) → path (Of part n) ≡ dir ++ 47 ∷ digits n
        → IsTrue (is_there (disk_of disk.now.held) part n) → Contains numbers.items n)
        (codes "intd" ∷ codes "todo" ∷ codes "bounce" ∷ [])) }
{
    let mut numbers = Vec::new(alloc);
    for dir in &FLAT_DIRS {
        gather(alloc, disk, dir, &mut numbers)?;
    }
    Ok(numbers)
}

/// Adds the numbers of the files in a directory that has splits, and none without a file.
fn gather_splits(
    alloc: Global,
    disk: &MemFs,
    dir: &[u8],
    numbers: &mut Vec<u64>,
) -> Result<(), Memory>
    ensures kept { OnOk result ((n : ℕ) → Contains numbers.old.items n → Contains numbers.new.items n) }
    ensures only { OnOk result ((n : ℕ) → Contains numbers.new.items n → Contains numbers.old.items n
        ⊎ (IsTrue (is_number n) × (part : Part) × IsTrue (is_there (disk_of disk.now.held) part n))) }
    ensures all { OnOk result ((part : Part) (n : ℕ) → IsTrue (is_number n) → path (Of part n) ≡ dir.now ++ 47 ∷ split_text n
        → IsTrue (is_there (disk_of disk.now.held) part n) → Contains numbers.new.items n) }
{
    for split in 0..SPLITS {
        let split_dir = split_dir(alloc, dir, split)?;
        gather(alloc, disk, &split_dir, numbers)?;
    }
    Ok(())
}

/// Adds the numbers of the files in a directory, and none without a file.
fn gather(alloc: Global, disk: &MemFs, dir: &[u8], numbers: &mut Vec<u64>) -> Result<(), Memory>
    ensures kept { OnOk result ((n : ℕ) → Contains numbers.old.items n → Contains numbers.new.items n) }
    ensures only { OnOk result ((n : ℕ) → Contains numbers.new.items n → Contains numbers.old.items n
        ⊎ (IsTrue (is_number n) × (part : Part) × IsTrue (is_there (disk_of disk.now.held) part n))) }
    ensures all { OnOk result ((part : Part) (n : ℕ) → IsTrue (is_number n) → path (Of part n) ≡ dir.now ++ 47 ∷ digits n
        → IsTrue (is_there (disk_of disk.now.held) part n) → Contains numbers.new.items n) }
{
    for name in &names_of(alloc, disk, dir)? {
        if let Some(number) = number_of(alloc, dir, name)? {
            numbers.push(number)?;
        }
    }
    Ok(())
}

/// The message number of a name in a directory, if it has one.
fn number_of(alloc: Global, dir: &[u8], name: &[u8]) -> Result<Option<u64>, Memory>
    ensures { IfOk result (λ number. (n : ℕ)
        → (number ≡ Some n) ↔ ((part : Part) × (used_name (dir.now ++ 47 ∷ name.now) ≡ Some (Of part n)))) }
{
    let mut whole = Vec::from_slice(alloc, dir)?;
    whole.push(b'/')?;
    whole.extend_from_slice(name)?;
    Ok(number_in(parse(&whole)))
}

/// The message number of a name, if there is one and it has one.
fn number_in(name: Option<Name>) -> Option<u64>
    ensures { (n : ℕ) → (result ≡ Some n) ↔ ((part : Part) × (option_map name_of name ≡ Some (Of part n))) }
{
    match name? {
        Name::Pid { .. } => None,
        Name::Mess(n)
        | Name::Intd(n)
        | Name::Todo(n)
        | Name::Info(n)
        | Name::Local(n)
        | Name::Remote(n)
        | Name::Bounce(n)
        | Name::SplitIntd(n)
        | Name::SplitTodo(n) => Some(n),
    }
}

/// The state of a number, by which of its files are there.
pub fn state_on(disk: &MemFs, number: u64) -> State
    ensures { result ≡ state_of (disk_of disk.now.held) number }
{
    state_of([
        is_there(disk, Name::Mess(number)),
        is_either(disk, Name::Intd(number), Name::SplitIntd(number)),
        is_either(disk, Name::Todo(number), Name::SplitTodo(number)),
        is_there(disk, Name::Info(number)),
        is_there(disk, Name::Local(number)),
        is_there(disk, Name::Remote(number)),
        is_there(disk, Name::Bounce(number)),
    ])
}

/// Whether a file has one of two names.
pub fn is_either(disk: &MemFs, flat: Name, split: Name) -> bool
    ensures { result ≡ is_some ((disk_of disk.now.held).names (path (name_of flat)))
        || is_some ((disk_of disk.now.held).names (path (name_of split))) }
{
    is_there(disk, flat) || is_there(disk, split)
}

/// Whether the file of a name is there.
pub fn is_there(disk: &MemFs, name: Name) -> bool
    ensures { result ≡ is_some ((disk_of disk.now.held).names (path (name_of name))) }
{
    let mut text = NameBuf::new();
    path(&name, &mut text);
    disk.bytes_of(text.as_slice()).is_some()
}
