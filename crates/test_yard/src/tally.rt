// A number that is added to in turn.
ghost use Rattle.std.specs.Prelude.{◌≡◌, ◌+◌, ◌%◌, ◌^◌, MatchResult};

use mail_bytes::Memory;
use std::alloc::Global;
use yard_lock::Stepped;

/// A sum. It starts again at 0 past the last u64.
#[derive(Drop)]
pub(crate) struct Tally {
    pub(crate) sum: u64,
}

impl Stepped for Tally {
    type In = u64;

    type Out = u64;

    ghost moves = { λ old more answer new. MatchResult answer (λ sum. (sum ≡ (old.sum + more) % 2 ^ 64) × (new.sum ≡ sum)) (λ _. new ≡ old) };

    fn apply(&mut self, _alloc: Global, more: u64) -> Result<u64, Memory> {
        self.sum = self.sum.wrapping_add(more);
        Ok(self.sum)
    }
}
