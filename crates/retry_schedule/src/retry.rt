// When a message is tried again.
ghost use Rattle.std.specs.Prelude.{◌≡◌, ◌≤◌, ◌<◌, ℕ, ◌+◌, ◌*◌};
ghost use Rattle.retry_schedule.specs.Retry.{IsRoot, next_retry, root};

/// The greatest number whose square is at most x. Takes no memory.
pub fn root(x: u64) -> u64
    ensures greatest { IsRoot x result }
    ensures is { result ≡ root x }
{
    x.isqrt()
}

/// When a message is tried again, by qmail's schedule: birth + (root(age) + skip)^2. Its age is how many seconds after
/// its birth it is tried now, or 0 if its birth is later. qmail's skip is 10 for a local recipient and 20 for a remote
/// one. The conditions: birth and now are moments, so at most 250,000,000,000 seconds after 1970 began, and skip is at
/// most 20. Takes no memory.
#[tactic(auto, unfolding(crate::specs::Retry::next_retry))]
pub fn next_retry(birth: u64, now: u64, skip: u64) -> u64
    requires birth { birth ≤ 250_000_000_000 }
    requires now { now ≤ 250_000_000_000 }
    requires skip { skip ≤ 20 }
    ensures { result ≡ next_retry birth now skip }
{
    let step = root(now.saturating_sub(birth)) + skip;
    birth + step * step
}
