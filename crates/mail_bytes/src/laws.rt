// Laws of moments, of decimal texts and of escapes: contracts of functions that do nothing.
ghost use Rattle.std.specs.Prelude.{◌≡◌, ◌<◌, ◌^◌, ℕ, List, All};
ghost use Rattle.mail_bytes.specs.Decimal.{digits, value, number_of, IsDigit};
ghost use Rattle.mail_bytes.specs.Escape.{escaped, unescaped, IsBad};
ghost use Rattle.mail_bytes.specs.declared.moments.TheConstants.{LAST_MOMENT};

/// The figure of the last moment.
pub fn last_moment_is_this()
    ensures { LAST_MOMENT ≡ 250000000000 }
{}

/// A number and its text determine each other; also past u64's last value, in contracts.
pub fn decimals_are_exact()
    ensures read { (n : ℕ) → n < 2 ^ 64 → number_of (digits n) ≡ Some n }
    ensures written { (text : List ℕ) (n : ℕ) → number_of text ≡ Some n
        → (text ≡ digits n) × (n < 2 ^ 64) }
    ensures value { (n : ℕ) → value (digits n) ≡ n }
    ensures distinct { (m n : ℕ) → digits m ≡ digits n → m ≡ n }
    ensures only { (n : ℕ) → All IsDigit (digits n) }
{}

/// What is printed is read back, and no text with a bad escape is read.
pub fn escapes_are_exact()
    ensures back { (bytes : List ℕ) → All (λ b. b < 256) bytes
        → unescaped (escaped bytes) ≡ Ok bytes }
    ensures good { (text bytes : List ℕ) → unescaped text ≡ Ok bytes
        → (k : ℕ) → ¬ (IsBad text k) }
{}
