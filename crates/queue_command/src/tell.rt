// Telling an injector how its input ended.
ghost use Rattle.std.specs.Prelude.{◌≡◌, List, None};
ghost use Rattle.call_fs.specs.declared.past.Own.{Own};
ghost use Rattle.queue_inject.specs.declared.injection.Arguments.{Arguments};
ghost use Rattle.queue_inject.specs.Machine.{asks, over_by};
ghost use Rattle.queue_inject.specs.Stands.{Stands, Ends};

use queue_inject::{Injector, InputEnd};

/// Tells an injector how the part of its input ended that it asks for.
pub fn tell_end(injector: &mut Injector, end: InputEnd)
    ensures stands { (args : Arguments) (past : List Own) → Stands injector.old args past
        → Ends injector.old args end → Stands injector.new args past }
    ensures over { injector.new ≡ record injector.old { heard = over_by (asks injector.old) injector.old.heard end } }
    ensures none { asks injector.new ≡ None }
{
    match end {
        InputEnd::Whole => injector.end_input(),
        InputEnd::Unread => injector.fail_input(false),
        InputEnd::Malformed => injector.fail_input(true),
    }
}
