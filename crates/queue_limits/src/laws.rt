// The figures, as laws.
ghost use Rattle.std.specs.Prelude.{◌≡◌};
ghost use Rattle.queue_limits.specs.declared.counts.TheConstants.{MAX_SLOTS};
ghost use Rattle.queue_limits.specs.declared.lengths.TheConstants.{MOST_BYTES};
ghost use Rattle.queue_limits.specs.declared.statuses.TheConstants.{BAD_CONTROL, DONE, IN_INTD, IN_MESS, IN_PID, IN_TODO, INPUT, LATE, LONG_ADDRESS, MALFORMED, MEMORY, NO_CLEANER, NO_LOCAL, NO_REMOTE, NO_START, OUTPUT, TOO_LONG, USAGE};
ghost use Rattle.queue_limits.specs.declared.times.TheConstants.{DAY, LONGEST_STALL, PID_NAME_AGE};

/// A day and twelve hours, both together, 1 GiB, and 120 slots.
pub fn limits_are_these()
    ensures day { DAY ≡ 86400 }
    ensures stall { LONGEST_STALL ≡ 43200 }
    ensures age { PID_NAME_AGE ≡ 129600 }
    ensures bytes { MOST_BYTES ≡ 1073741824 }
    ensures slots { MAX_SLOTS ≡ 120 }
{}

/// The exit statuses, those of qmail-queue(8) if it has one for the same cause.
pub fn statuses_are_these()
    ensures done { DONE ≡ 0 }
    ensures long_address { LONG_ADDRESS ≡ 11 }
    ensures too_long { TOO_LONG ≡ 31 }
    ensures memory { MEMORY ≡ 51 }
    ensures late { LATE ≡ 52 }
    ensures output { OUTPUT ≡ 53 }
    ensures input { INPUT ≡ 54 }
    ensures in_pid { IN_PID ≡ 63 }
    ensures in_mess { IN_MESS ≡ 64 }
    ensures in_intd { IN_INTD ≡ 65 }
    ensures in_todo { IN_TODO ≡ 66 }
    ensures no_cleaner { NO_CLEANER ≡ 81 }
    ensures no_local { NO_LOCAL ≡ 82 }
    ensures no_remote { NO_REMOTE ≡ 83 }
    ensures no_start { NO_START ≡ 84 }
    ensures bad_control { BAD_CONTROL ≡ 85 }
    ensures malformed { MALFORMED ≡ 91 }
    ensures usage { USAGE ≡ 100 }
{}
