// What survives a machine stop, in words.
ghost use Rattle.std.specs.Prelude.{◌≡◌, ◌≢◌, ◌≤◌, ◌++◌, ◌∷◌, ℕ, IfOk, OnErr, IfSome, IfNone, IsTrue, ◌↔◌, Contains, codes};
ghost use Rattle.mail_bytes.specs.Decimal.{digits};
ghost use Rattle.call_fs.specs.declared.crash_file_system.Survival.{Survival as SurvivalOf};
ghost use Rattle.script_words.specs.Words.{survival_text, most_seed, IsSeeded};
ghost use Rattle.script_words.specs.Reading.{survival_words};

use crate::WordError;
use crate::words::first_word;
use call_fs::Survival;
use mail_bytes::{decimals_are_exact, undec};

/// The greatest seed of a machine stop.
const MAX_SEED: u64 = 65_536;

/// Reads what survives a machine stop.
pub fn read_survival(words: &[u8]) -> Result<Survival, WordError>
    ensures ok { IfOk result (λ how. (words.now ≡ survival_text how) × IsSeeded how) }
    ensures err { OnErr result ((how : SurvivalOf) → IsSeeded how → words.now ≢ survival_text how) }
{
    match survival_of(words) {
        Some(how) => Ok(how),
        None => Ok(Survival::Junk(read_junk(words)?)),
    }
}

/// What survives, by the word for it; None exactly if it is no such word.
fn survival_of(word: &[u8]) -> Option<Survival>
    ensures some { IfSome result (λ how. (word.now ≡ survival_text how) × IsSeeded how) }
    ensures none { IfNone result (¬ (Contains survival_words word.now)) }
{
    match word {
        b"keep" => Some(Survival::Keep),
        b"lose" => Some(Survival::Lose),
        _ => None,
    }
}

/// Reads `junk` and a seed.
fn read_junk(words: &[u8]) -> Result<u32, WordError>
    ensures ok { IfOk result (λ seed. (words.now ≡ codes "junk" ++ 32 ∷ digits seed) × (seed ≤ most_seed)) }
    ensures err { OnErr result ((seed : ℕ) → seed ≤ most_seed → words.now ≢ codes "junk" ++ 32 ∷ digits seed) }
{
    let (word, seed) = first_word(words)?;
    if !is_junk(word) {
        return Err(WordError::Malformed);
    }
    read_seed(seed)
}

/// Whether it is the word before a seed.
fn is_junk(word: &[u8]) -> bool
    ensures { IsTrue result ↔ (word.now ≡ codes "junk") }
{
    matches!(word, b"junk")
}

/// Reads a seed.
fn read_seed(word: &[u8]) -> Result<u32, WordError>
    ensures ok { IfOk result (λ seed. (word.now ≡ digits seed) × (seed ≤ most_seed)) }
    ensures err { OnErr result ((seed : ℕ) → seed ≤ most_seed → word.now ≢ digits seed) }
{
    decimals_are_exact();
    match undec(word) {
        Some(seed) if seed <= MAX_SEED => Ok(seed as u32),
        _ => Err(WordError::Malformed),
    }
}
