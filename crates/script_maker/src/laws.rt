// The figures, as laws.
ghost use Rattle.std.specs.Prelude.{◌≡◌};
ghost use Rattle.script_maker.specs.declared.draws.TheConstants.{LAST_SEED};

/// A seed has 16 bits, or is the first number after these.
pub fn last_seed_is_this()
    ensures { LAST_SEED ≡ 65536 }
{}
