// The known messages by number, and the numbers of which no channel file is left.
ghost use Rattle.std.specs.Prelude.{◌≡◌, ◌++◌, ◌∷◌, [], ℕ, Bool, true, Option, List, OnOk, OnErr, if◌then◌else◌};
ghost use Rattle.std.specs.Ordering.{nat_cmp};
ghost use Rattle.std.specs.BTreeMap.{get};
ghost use Rattle.std.specs.Map.{values_of};
ghost use Rattle.send_known.specs.declared.known.Known.{Known};
ghost use Rattle.send_known.specs.Known.{first_idle, learned, local_gone, put_off, remote_gone};
ghost use Rattle.send_known.specs.ByNumber.{AreNamed, AreOrdered, Covers, IsKept, KeepsDone, is_done_at, is_idle_at, lesser, without};

use crate::known::Known;
use mail_bytes::Memory;
use std::collections::BTreeMap;

/// The known messages, each under its number.
pub type ByNumber = BTreeMap<u64, Known>;

/// A message is known from now on. After an `Err` all is as before. The condition: each number of which no channel file is
/// left is among `done`.
pub fn learn(known: &mut ByNumber, done: &mut Vec<u64>, message: Known) -> Result<(), Memory>
    requires { IsKept known.old done.old.items true }
    ensures kept { IsKept known.new done.new.items true }
    ensures ok { OnOk result (values_of known.new.entries ≡ learned message (values_of known.old.entries)) }
    ensures err { OnErr result (values_of known.new.entries ≡ values_of known.old.entries) }
{
    let n = message.n;
    let is_done = !(message.local || message.remote);
    list_if(done, n, is_done)?;
    known.insert(n, message)?;
    Ok(())
}

/// Puts a number among the others, if that is so. After an `Err` they are as before.
fn list_if(done: &mut Vec<u64>, n: u64, is_done: bool) -> Result<(), Memory>
    ensures ok { OnOk result (done.new.items ≡ (if is_done then done.old.items ++ n ∷ [] else done.old.items)) }
    ensures err { OnErr result (done.new.items ≡ done.old.items) }
{
    if is_done {
        done.push(n)?;
    }
    Ok(())
}

/// The message of a number is finished no earlier than then.
pub fn put_off(known: &mut ByNumber, n: u64, moment: u64)
    requires { AreNamed known.old.entries }
    ensures values { values_of known.new.entries ≡ put_off n moment (values_of known.old.entries) }
    ensures kept { (done : List ℕ) (listed : Bool) → IsKept known.old done listed → IsKept known.new done listed }
{
    if let Some(message) = known.get_mut(&n) {
        message.finish_at = moment;
    }
}

/// The file of the local channel of a message is gone.
pub fn local_gone(known: &mut ByNumber, n: u64)
    requires { AreNamed known.old.entries }
    ensures ordered { AreOrdered known.new }
    ensures named { AreNamed known.new.entries }
    ensures values { values_of known.new.entries ≡ local_gone n (values_of known.old.entries) }
    ensures done { KeepsDone (get nat_cmp known.old) (get nat_cmp known.new) n }
{
    if let Some(message) = known.get_mut(&n) {
        message.local = false;
    }
}

/// The file of the remote channel of a message is gone.
pub fn remote_gone(known: &mut ByNumber, n: u64)
    requires { AreNamed known.old.entries }
    ensures ordered { AreOrdered known.new }
    ensures named { AreNamed known.new.entries }
    ensures values { values_of known.new.entries ≡ remote_gone n (values_of known.old.entries) }
    ensures done { KeepsDone (get nat_cmp known.old) (get nat_cmp known.new) n }
{
    if let Some(message) = known.get_mut(&n) {
        message.remote = false;
    }
}

/// Whether no channel file of a number is left.
fn is_done(known: &ByNumber, n: u64) -> bool
    ensures { result ≡ is_done_at known.now n }
{
    match known.get(&n) {
        None => false,
        Some(message) => !(message.local || message.remote),
    }
}

/// Whether a message is idle: no channel file of it is left, and its finish moment has come.
fn is_idle(known: &ByNumber, n: u64, now: u64) -> bool
    ensures { result ≡ is_idle_at now known.now n }
{
    match known.get(&n) {
        None => false,
        Some(message) => message.finish_at <= now && !(message.local || message.remote),
    }
}

/// Puts a number among the others if no channel file of it is left; whether each such number is among them then.
pub fn is_listed(known: &ByNumber, done: &mut Vec<u64>, listed: bool, n: u64) -> bool
    ensures was { result ≡ true → listed ≡ true }
    ensures covers { result ≡ true → (old : ℕ → Option Known) → Covers old done.old.items → KeepsDone old (get nat_cmp known.now) n
        → Covers (get nat_cmp known.now) done.new.items }
{
    if !listed {
        return false;
    }
    if !is_done(known, n) {
        return true;
    }
    match done.push(n) {
        Ok(()) => true,
        Err(_) => false,
    }
}

/// Takes a number out.
pub fn unlist(done: &mut Vec<u64>, n: u64)
    ensures { done.new.items ≡ without n done.old.items }
{
    done.retain(|other| *other != n);
}

/// Lists each number of which no channel file is left, if they aren't listed. After an `Err` they aren't either.
pub fn relist(known: &ByNumber, done: &mut Vec<u64>, listed: &mut bool) -> Result<(), Memory>
    requires { IsKept known.now done.old.items listed.old }
    ensures kept { IsKept known.now done.new.items listed.new }
    ensures listed { OnOk result (IsKept known.now done.new.items true) }
{
    if *listed {
        return Ok(());
    }
    list_again(known, done)?;
    *listed = true;
    Ok(())
}

/// Lists each number of which no channel file is left. After an `Err` some of them are missing.
fn list_again(known: &ByNumber, done: &mut Vec<u64>) -> Result<(), Memory>
    ensures { OnOk result (Covers (get nat_cmp known.now) done.new.items) }
{
    done.clear();
    for (n, message) in known {
        if !(message.local || message.remote) {
            done.push(*n)?;
        }
    }
    Ok(())
}

/// The least idle number, if each of which no channel file is left is among these.
pub fn least_idle(known: &ByNumber, done: &[u64], now: u64) -> Option<u64>
    requires kept { IsKept known.now done.now true }
    ensures { result ≡ first_idle now (values_of known.now.entries) }
{
    let mut least = None;
    for n in done {
        if is_idle(known, *n, now) {
            least = lesser(least, *n);
        }
    }
    least
}

/// The lesser of two numbers, if there are two.
fn lesser(least: Option<u64>, n: u64) -> Option<u64>
    ensures { result ≡ lesser least n }
{
    match least {
        None => Some(n),
        Some(other) => Some(other.min(n)),
    }
}

/// The least idle number, by a walk over all.
pub fn first_idle(known: &ByNumber, now: u64) -> Option<u64>
    requires { AreNamed known.now.entries }
    ensures { result ≡ first_idle now (values_of known.now.entries) }
{
    for (n, message) in known {
        if message.finish_at <= now && !(message.local || message.remote) {
            return Some(*n);
        }
    }
    None
}
