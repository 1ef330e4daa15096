// Which of two entries comes first.
ghost use Rattle.std.specs.Prelude.{◌≡◌};
ghost use Rattle.retry_schedule.specs.Due.{before};

/// Whether the first of two entries is due before the second; of two that are due at once the one with the lesser number is.
pub fn is_before(a: (u64, u64), b: (u64, u64)) -> bool
    ensures { result ≡ before a b }
{
    a.0 < b.0 || (a.0 == b.0 && a.1 < b.1)
}
