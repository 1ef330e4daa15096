// The command `play`: reads a script, checks it and plays it.
ghost use Rattle.std.specs.Prelude.{◌≡◌, ◌≢◌, ◌⊎◌, ◌++◌, ◌∷◌, [], List, ℕ, true, IsOk, IfOk, IfErr, OnOk, Contains, Err, length, ◌<◌};
ghost use Rattle.mail_bytes.specs.Told.{Rose, Meets, OnTold};
ghost use Rattle.script_lines.specs.Contents.{Content};
ghost use Rattle.script_lines.specs.Lines.{IsScript, IsRefused, most_bytes};
ghost use Rattle.scenario.specs.Text.{HasFewDeeds, Prints, BeginsAtMost, PrintsBadLine};
ghost use Rattle.qmail_top.specs.SafePlays.{IsSafePrefixAtMost, PrintsSafely};
ghost use Rattle.qmail_top.specs.Command.{IsReading, IsChecked, IsPrintedAtEnd, HasReason, NoneFailed, IsBeforeOutput, status_of};

use crate::refusing::refuse;
use outside::{Sink, Source, Took};
use queue_limits::{DONE, INPUT, MALFORMED, MEMORY, OUTPUT};
use scenario::{MAX_SCRIPT, PlayError, ScriptError, play, read_script};
use std::alloc::{AllocError, Global};

/// Plays the script that a source gives, and answers the exit status.
pub fn play_script<M: Source, O: Sink>(alloc: Global, message: &mut M, out: &mut O) -> u8
    // the causes of the statuses
    ensures input { result ≡ INPUT → Rose (M.faults message.old) (M.faults message.new) }
    ensures output { result ≡ OUTPUT → Rose (O.faults out.old) (O.faults out.new) }
    ensures unfailed { result ≡ MEMORY → NoneFailed (record { before = M.faults message.old; after = M.faults message.new })
        (record { before = O.faults out.old; after = O.faults out.new }) }
    ensures malformed { OnTold (M.left message.old) (λ script. result ≡ MALFORMED → IsRefused script) }
    ensures checked { OnTold (M.left message.old) (λ script. (result ≡ DONE) ⊎ (result ≡ OUTPUT) → ¬ (IsRefused script)) }
    ensures known { Contains (DONE ∷ MEMORY ∷ OUTPUT ∷ INPUT ∷ MALFORMED ∷ []) result }
    ensures complete { OnTold (M.left message.old) (λ script. (content : Content) → IsScript script content
        → ¬ (Rose (M.faults message.old) (M.faults message.new)) → ¬ (Rose (O.faults out.old) (O.faults out.new))
        → (result ≡ DONE) ⊎ (result ≡ MEMORY)) }

    // what is printed
    ensures prints { OnTold (M.left message.old) (λ script. result ≡ DONE → Meets (O.taken out.old) (O.taken out.new)
        (λ before after. (text : List ℕ) × PrintsSafely script text × (after ≡ before ++ text))) }
    ensures few { OnTold (M.left message.old) (λ script. result ≡ DONE → HasFewDeeds script) }
    ensures begins { OnTold (M.left message.old) (λ script. result ≢ DONE → result ≢ MALFORMED
        → Meets (O.taken out.old) (O.taken out.new)
        (λ before after. (text : List ℕ) × IsSafePrefixAtMost script text × (after ≡ before ++ text))) }
    ensures refuses { OnTold (M.left message.old) (λ script. result ≡ MALFORMED → Meets (O.taken out.old) (O.taken out.new)
        (λ before after. (text : List ℕ) × PrintsBadLine script text (Rose (O.faults out.old) (O.faults out.new))
        × (after ≡ before ++ text))) }
    ensures reached { Meets (M.left message.old) (M.left message.new) (λ script rest. rest ≢ []
        → (out.new ≡ out.old) ⊎ ((result ≡ MALFORMED) × (most_bytes < length script))) }
    ensures unended { IsPrintedAtEnd (M.ended message.new) (out.new ≡ out.old) (result ≡ MALFORMED) (M.left message.old) }
    ensures ended { Meets (M.left message.old) (M.left message.new) (λ script rest. result ≡ DONE → rest ≡ []) }
    ensures told_end { result ≡ DONE → OnTold (M.ended message.new) (λ is. is ≡ true) }
    ensures unwritten { result ≡ INPUT → out.new ≡ out.old }
{
    match play_message(alloc, message, out) {
        Ok(()) => DONE,
        Err(why) => status_of(why),
    }
}

/// Why a command didn't do all its work.
#[derive(Clone, Copy)]
pub(crate) enum Failure {
    /// Out of memory.
    Memory,
    /// The output failed.
    Output,
    /// The input failed.
    Input,
    /// The input is malformed.
    Malformed,
}

impl From<AllocError> for Failure {
    ghost use Rattle.std.specs.Prelude.{◌≡◌};
    ghost use Rattle.qmail_top.specs.declared.play_command.Failure.TheVariants.{Memory};

    ghost from_gives = { λ _ why. why ≡ Memory };

    fn from(_: AllocError) -> Self {
        Failure::Memory
    }
}

/// The exit status of a failure.
pub(crate) fn status_of(why: Failure) -> u8
    ensures { result ≡ status_of why }
{
    match why {
        Failure::Memory => MEMORY,
        Failure::Output => OUTPUT,
        Failure::Input => INPUT,
        Failure::Malformed => MALFORMED,
    }
}

/// Plays the script that a source gives.
fn play_message<M: Source, O: Sink>(
    alloc: Global,
    message: &mut M,
    out: &mut O,
) -> Result<(), Failure>
    ensures prints { OnTold (M.left message.old) (λ script. OnOk result (Meets (O.taken out.old) (O.taken out.new)
        (λ before after. (text : List ℕ) × Prints script text × (after ≡ before ++ text)))) }
    ensures few { OnTold (M.left message.old) (λ script. OnOk result (HasFewDeeds script)) }
    ensures begins { OnTold (M.left message.old) (λ script. IfErr result (λ why. why ≢ Failure.Malformed
        → Meets (O.taken out.old) (O.taken out.new)
        (λ before after. (text : List ℕ) × BeginsAtMost script text × (after ≡ before ++ text)))) }
    ensures refuses { OnTold (M.left message.old) (λ script. result ≡ Err Failure.Malformed
        → Meets (O.taken out.old) (O.taken out.new)
        (λ before after. (text : List ℕ) × PrintsBadLine script text (Rose (O.faults out.old) (O.faults out.new))
        × (after ≡ before ++ text))) }
    ensures reached { Meets (M.left message.old) (M.left message.new) (λ script rest. rest ≢ []
        → (out.new ≡ out.old) ⊎ ((result ≡ Err Failure.Malformed) × (most_bytes < length script))) }
    ensures unended { IsPrintedAtEnd (M.ended message.new) (out.new ≡ out.old) (result ≡ Err Failure.Malformed) (M.left message.old) }
    ensures ended { Meets (M.left message.old) (M.left message.new) (λ script rest. IsOk result → rest ≡ []) }
    ensures told_end { OnOk result (OnTold (M.ended message.new) (λ is. is ≡ true)) }
    ensures cause { IfErr result (λ why. HasReason why (record { before = M.faults message.old; after = M.faults message.new })
        (record { before = O.faults out.old; after = O.faults out.new })) }
    ensures unwritten { IfErr result (λ why. IsBeforeOutput why → out.new ≡ out.old) }
    ensures checked { OnTold (M.left message.old) (λ bytes. IsChecked bytes result) }
{
    let bytes = read_whole(alloc, message)?;
    let script = match read_script(alloc, &bytes) {
        Ok(script) => script,
        Err(ScriptError::Line(number)) => {
            refuse(out, number);
            return Err(Failure::Malformed);
        }
        Err(ScriptError::Memory) => return Err(Failure::Memory),
    };
    match play(alloc, script, out) {
        Ok(()) => Ok(()),
        Err(PlayError::Failed) => Err(Failure::Output),
        Err(PlayError::Memory) => Err(Failure::Memory),
    }
}

/// Reads a source to its end, or one byte past the most that a script may have.
pub(crate) fn read_whole<M: Source>(alloc: Global, message: &mut M) -> Result<Vec<u8>, Failure>
    ensures tells { Meets (M.left message.old) (M.left message.new)
        (λ before after. (front : List ℕ) × (before ≡ front ++ after)) }
    ensures read { IfOk result (λ bytes. Meets (M.left message.old) (M.left message.new) (λ before after. IsReading before after bytes.items)) }
    ensures told_end { IfOk result (λ bytes. (most_bytes < length bytes.items) ⊎ OnTold (M.ended message.new) (λ is. is ≡ true)) }
    ensures unfailed { OnOk result (M.faults message.new ≡ M.faults message.old) }
    ensures cause { IfErr result (λ why. ((why ≡ Failure.Memory) × (M.faults message.new ≡ M.faults message.old))
        ⊎ ((why ≡ Failure.Input) × Rose (M.faults message.old) (M.faults message.new))) }
{
    let mut bytes = Vec::new(alloc);
    let mut piece = [0; 8192];
    while bytes.len() <= MAX_SCRIPT {
        let room = (MAX_SCRIPT + 1 - bytes.len()).min(piece.len());
        match message.take(&mut piece[..room]) {
            Took::Got(count) => bytes.extend_from_slice(&piece[..count])?,
            Took::End => break,
            Took::Failed => return Err(Failure::Input),
        }
    }
    Ok(bytes)
}
