// Laws of the queue's names and of the splits: contracts of functions that do nothing.
ghost use Rattle.std.specs.Prelude.{◌≡◌};
ghost use Rattle.queue_paths.specs.Names.{NamesAreExact};
ghost use Rattle.queue_paths.specs.Parts.{WaitsAreNamed};
ghost use Rattle.queue_paths.specs.declared.dirs.TheConstants.{SPLITS};

/// Each name has one text, and each text at most one name.
pub fn names_are_exact()
    ensures { NamesAreExact }
{}

/// What a number has in intd and in todo is one of its names there; it has nothing exactly if it has no name there.
pub fn waits_are_named()
    ensures { WaitsAreNamed }
{}

/// How many splits there are.
pub fn splits_are_23()
    ensures { SPLITS ≡ 23 }
{}
