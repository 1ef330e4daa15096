// Searches for a message to preprocess, among the events that are kept.
ghost use Rattle.std.specs.Prelude.{◌≡◌};
ghost use Rattle.world_events.specs.Searches.{searches, is_searched, is_first_dir, is_search_call, is_first_call, is_search_kept, is_first_kept};

use crate::Event;
use actor_names::Member;
use call_fs::{CallData, NeedData};

/// The directories in which such messages wait, in the order in which a turn searches them.
const SEARCHED: [&[u8]; 1] = [b"todo"];

/// Whether an event is a search for a message to preprocess.
pub fn is_search(event: &Event) -> bool
    ensures { result ≡ is_search_kept event.now }
{
    matches!(event, Event::Act { actor, own } if searches(actor.as_slice()) && is_search_call(&own.due))
}

/// Whether who has this name searches for such messages.
fn searches(actor: &[u8]) -> bool
    ensures { result ≡ searches actor.now }
{
    actor == Member::Sender.name()
}

/// Whether what was due is a search.
fn is_search_call(due: &NeedData) -> bool
    ensures { result ≡ is_search_call due.now }
{
    matches!(due, NeedData::File(CallData::NextName(dir, _)) if is_searched(dir.as_slice()))
}

/// Whether such messages wait in this directory.
fn is_searched(dir: &[u8]) -> bool
    ensures { result ≡ is_searched dir.now }
{
    SEARCHED.iter().any(|name| dir == *name)
}

/// Whether it is the first of these directories.
fn is_first_dir(dir: &[u8]) -> bool
    ensures { result ≡ is_first_dir dir.now }
{
    dir == SEARCHED[0]
}

/// Whether an event looks for the first name of the first of these directories, as the first search of a turn does.
pub fn is_first(event: &Event) -> bool
    ensures { result ≡ is_first_kept event.now }
{
    matches!(event, Event::Act { own, .. } if is_first_call(&own.due))
}

/// Whether what was due begins at the start of the first of these directories.
fn is_first_call(due: &NeedData) -> bool
    ensures { result ≡ is_first_call due.now }
{
    matches!(due, NeedData::File(CallData::NextName(dir, after)) if is_first_dir(dir.as_slice()) && after.as_slice() == b"".as_slice())
}
