// Which of a number's files were found.
ghost use Rattle.std.specs.Prelude.{◌≡◌, ◌++◌, ◌∷◌, Some, IfOk, OnOk, map, unwrap_or};
ghost use Rattle.std.specs.Ordering.{nat_cmp};
ghost use Rattle.std.specs.BTreeMap.{IsOrdered, get};
ghost use Rattle.queue_paths.specs.Names.{name_of, used_name};
ghost use Rattle.queue_states.specs.Found.{Notes, Puts, entry_of, no_files, number_of, state_with, with_name};

use crate::state::{State, state_of};
use crate::state_list::StateList;
use mail_bytes::Memory;
use queue_paths::{Name, parse};
use std::alloc::Global;
use std::collections::BTreeMap;

/// What was found so far: which files each number has.
pub type Found = BTreeMap<u64, Files>;

/// Which of a number's files were found.
#[derive(Clone, Copy)]
pub struct Files {
    /// The message.
    pub mess: bool,
    /// The envelope while it is written.
    pub intd: bool,
    /// The envelope of a queued message.
    pub todo: bool,
    /// The sender of a preprocessed message.
    pub info: bool,
    /// The local recipients.
    pub local: bool,
    /// The remote recipients.
    pub remote: bool,
    /// The failures.
    pub bounce: bool,
    /// The envelope while it is written, of the split layout.
    pub split_intd: bool,
    /// The envelope of a queued message, of the split layout.
    pub split_todo: bool,
}

impl Files {
    /// None of them.
    fn none() -> Self
        ensures { result ≡ no_files }
    {
        Files {
            mess: false,
            intd: false,
            todo: false,
            info: false,
            local: false,
            remote: false,
            bounce: false,
            split_intd: false,
            split_todo: false,
        }
    }

    /// These, and the file of this name; a pid name is no file of a number.
    fn with(self, name: Name) -> Self
        ensures { result ≡ with_name (name_of name) self }
    {
        match name {
            Name::Pid { .. } => self,
            Name::Mess(_) => Files { mess: true, ..self },
            Name::Intd(_) => Files { intd: true, ..self },
            Name::Todo(_) => Files { todo: true, ..self },
            Name::Info(_) => Files { info: true, ..self },
            Name::Local(_) => Files {
                local: true,
                ..self
            },
            Name::Remote(_) => Files {
                remote: true,
                ..self
            },
            Name::Bounce(_) => Files {
                bounce: true,
                ..self
            },
            Name::SplitIntd(_) => Files {
                split_intd: true,
                ..self
            },
            Name::SplitTodo(_) => Files {
                split_todo: true,
                ..self
            },
        }
    }

    /// The state of a number that has these.
    fn state(self) -> State
        ensures { result ≡ state_with self }
    {
        state_of([
            self.mess,
            self.intd || self.split_intd,
            self.todo || self.split_todo,
            self.info,
            self.local,
            self.remote,
            self.bounce,
        ])
    }
}

/// Notes the file of this name of a directory, if it is one of a message number; other names are passed over.
/// The error: out of memory.
pub fn note_name(alloc: Global, found: &mut Found, dir: &[u8], name: &[u8]) -> Result<(), Memory>
    ensures { OnOk result (Notes (used_name (dir.now ++ 47 ∷ name.now)) found.old found.new) }
{
    let mut whole = Vec::from_slice(alloc, dir)?;
    whole.push(b'/')?;
    whole.extend_from_slice(name)?;
    match parse(&whole) {
        Some(name) => note(found, name),
        None => Ok(()),
    }
}

/// Notes the file of this name, if it is one of a message number.
fn note(found: &mut Found, name: Name) -> Result<(), Memory>
    ensures { OnOk result (Notes (Some (name_of name)) found.old found.new) }
{
    let Some(number) = number_of(name) else {
        return Ok(());
    };
    let files = files_of(found, number);
    put(found, number, files.with(name))
}

/// The message number of a name; a pid name has none.
fn number_of(name: Name) -> Option<u64>
    ensures { result ≡ number_of (name_of name) }
{
    match name {
        Name::Pid { .. } => None,
        Name::Mess(n)
        | Name::Intd(n)
        | Name::Todo(n)
        | Name::Info(n)
        | Name::Local(n)
        | Name::Remote(n)
        | Name::Bounce(n)
        | Name::SplitIntd(n)
        | Name::SplitTodo(n) => Some(n),
    }
}

/// Which files of this number were found so far.
fn files_of(found: &Found, number: u64) -> Files
    ensures { result ≡ unwrap_or (get nat_cmp found.now number) no_files }
{
    match found.get(&number) {
        Some(files) => *files,
        None => Files::none(),
    }
}

/// Says which files of a number were found.
fn put(found: &mut Found, number: u64, files: Files) -> Result<(), Memory>
    ensures { OnOk result (Puts number files found.old found.new) }
{
    found.insert(number, files)?;
    Ok(())
}

/// The numbers that have files, in ascending order, each with its state. The error: out of memory.
pub fn states_of(alloc: Global, found: &Found) -> Result<StateList, Memory>
    ensures states { IfOk result (λ states. states ≡ map entry_of found.now.entries) }
    ensures ordered { IsOrdered nat_cmp found.now }
{
    let mut entries = Vec::new(alloc);
    for (number, files) in found {
        entries.push((*number, files.state()))?;
    }
    Ok(StateList::from_vec(entries))
}
