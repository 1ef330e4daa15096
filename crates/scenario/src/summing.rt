// What `sum` prints.
ghost use Rattle.std.specs.Prelude.{◌≡◌, ◌++◌, List, ℕ, All, IfOk, OnOk, flat_map};
ghost use Rattle.std.specs.List.{zip};
ghost use Rattle.call_fs.specs.Disk.{Disk};
ghost use Rattle.call_fs.specs.Plan.{Plan};
ghost use Rattle.queue_law.specs.Books.{Books};
ghost use Rattle.scenario.specs.Deeds.{Deed, after, history_of};
ghost use Rattle.script_fates.specs.Fates.{AreFates, IsUsed};
ghost use Rattle.scenario.specs.Playing.{IsPlaying};
ghost use Rattle.scenario.specs.Summed.{all_fates, sum_text};
ghost use Rattle.scenario.specs.Viewed.{view_at};
ghost use Rattle.scenario.specs.inside.Viewed.{IsOf, given_fates};

use crate::fates::fates_by;
use crate::overview::Overview;
use crate::showing::{Given, given_by};
use crash_fs::CrashDisk;
use mail_bytes::Memory;
use mail_world::{Entry, World};
use script_fates::Fates;
use script_traces::{RecipientFate, put_sum};
use std::alloc::Global;

/// Puts at the end of a text how many mails were accepted, how many recipients these have, and how many of them are pending, were
/// delivered to, are noted, or were bounced or dropped, each as `show` tells it.
pub fn sum(alloc: Global, world: &World<CrashDisk>, text: &mut Vec<u8>) -> Result<(), Memory>
    ensures { OnOk result ((own : List ℕ) × (text.new.items ≡ text.old.items ++ own)
        × ((d : Disk) (plan : Plan) (h : List Deed) → IsPlaying d world.now plan h → own ≡ sum_text d (history_of h))) }
{
    let fates = fates_in(alloc, world)?;
    put_sum(text, world.books().entries(), &fates)
}

/// What became of each recipient of all mails, in order.
fn fates_in(alloc: Global, world: &World<CrashDisk>) -> Result<Vec<RecipientFate>, Memory>
    ensures { IfOk result (λ fates. (d : Disk) (plan : Plan) (h : List Deed) → IsPlaying d world.now plan h
        → fates.items ≡ all_fates d (history_of h)) }
{
    let heard = fates_by(alloc, world.history().events())?;
    fates_heard(alloc, &heard, world)
}

/// The same, by what its events say.
fn fates_heard(
    alloc: Global,
    heard: &Fates,
    world: &World<CrashDisk>,
) -> Result<Vec<RecipientFate>, Memory>
    ensures { IfOk result (λ fates. (d : Disk) (plan : Plan) (h : List Deed) → IsPlaying d world.now plan h
        → AreFates heard.now (after d h).books → fates.items ≡ all_fates d (history_of h)) }
{
    let overview = Overview {
        disk: world.disk().below(),
        fates: heard,
    };
    fates_told(alloc, overview, world)
}

/// The same, by what is read of that world.
fn fates_told(
    alloc: Global,
    overview: Overview<'_>,
    world: &World<CrashDisk>,
) -> Result<Vec<RecipientFate>, Memory>
    ensures { IfOk result (λ fates. (d : Disk) (plan : Plan) (h : List Deed) → IsPlaying d world.now plan h
        → IsOf overview.entry d (history_of h) → fates.items ≡ all_fates d (history_of h)) }
{
    let given = given_by(alloc, world.history().events())?;
    fates_of_each(alloc, overview, world.books().entries(), &given)
}

/// What became of each recipient of the mails of these entries. Each was given the envelope at its place.
fn fates_of_each(
    alloc: Global,
    overview: Overview<'_>,
    entries: &[Entry],
    given: &[Given<'_>],
) -> Result<Vec<RecipientFate>, Memory>
    ensures { IfOk result (λ fates. (books : Books) → AreFates overview.entry.fates.now books → All (λ e. IsUsed e.number) entries.now
        → fates.items ≡ flat_map (given_fates (view_at overview.entry books)) (zip entries.now given.now)) }
{
    let mut all = Vec::new(alloc);
    for (entry, one) in entries.iter().zip(given) {
        let fates = overview.fates_of(alloc, entry, one.envelope)?;
        all.extend_from_slice(&fates)?;
    }
    Ok(all)
}
