// Laws of what a local delivery asks for: contracts of functions that do nothing.
ghost use Rattle.std.specs.Prelude.{◌≡◌, ℕ, List, Some};
ghost use Rattle.call_fs.specs.declared.past.NeedData.TheVariants.{Command};
ghost use Rattle.call_fs.specs.declared.past.Own.{Own};
ghost use Rattle.call_fs.specs.declared.program.Ready.{Ready};
ghost use Rattle.call_fs.specs.Past.{IsRunBy, taken};
ghost use Rattle.local_parts.specs.declared.arguments.LocalArgs.{LocalArgs};
ghost use Rattle.local_parts.specs.Inputs.{message_in};
ghost use Rattle.local_deliver.specs.Asked.{IsAsked};
ghost use Rattle.local_deliver.specs.Table.{Next, place_after};

/// What a local delivery can ask for at all: file calls, its input and its output, commands, and of the injector of its
/// forwards the start, a giving and the status. It never has to wait.
pub fn deliveries_ask_for_this()
    ensures { (args : LocalArgs) (past : List Own) (now : ℕ) (ready : Ready) → IsRunBy (Next args) past → IsAsked (Next args past now ready) }
{}

/// Once a command is due, the message that the delivery keeps is that of the input that it took.
pub fn commands_get_the_message()
    ensures { (args : LocalArgs) (past : List Own) (now : ℕ) (ready : Ready) (text : List ℕ) → IsRunBy (Next args) past
        → Next args past now ready ≡ Command text → message_in (taken past) ≡ Some (place_after args past).message }
{}
