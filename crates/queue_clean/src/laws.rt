// Laws of commands and of a cleaner's table: contracts of functions that do nothing.
ghost use Rattle.std.specs.Prelude.{◌≡◌, List, ℕ, []};
ghost use Rattle.call_fs.specs.declared.program.Port.{Port};
ghost use Rattle.call_fs.specs.declared.program.Ready.{Ready};
ghost use Rattle.call_fs.specs.declared.past.NeedData.TheVariants as needs;
ghost use Rattle.call_fs.specs.declared.past.Own.{Own};
ghost use Rattle.call_fs.specs.Past.{IsRunBy};
ghost use Rattle.queue_clean.specs.Commands.{CommandsAreExact};
ghost use Rattle.queue_clean.specs.Table.{Next};
ghost use Rattle.queue_clean.specs.Asked.{IsAsked};
ghost use Rattle.queue_clean.specs.Causes.{IsAnswered, IsEnded};
ghost use Rattle.queue_clean.specs.Worked.{does, events, dues};
ghost use Rattle.queue_clean.specs.declared.command.TheConstants.{LEAST_COMMAND, MOST_COMMAND};
ghost use Rattle.queue_clean.specs.declared.intake.TheConstants.{ROUND};

/// Each command has one text, and no other text is a command; and each text is cut into commands in one way.
pub fn commands_are_exact()
    ensures { CommandsAreExact }
{}

/// Which answer a cleaner gives to a command, and with which exit status it ends, as qmail-clean(8) has them.
///
/// | Answer | Exactly if |
/// |---|---|
/// | `x` | that was no command |
/// | `!` | an unlink failed |
/// | `+` | else |
///
/// | Status | Exactly if |
/// |---|---|
/// | 0 | its input ended |
/// | 53 | it couldn't give an answer |
/// | 54 | its input couldn't be taken |
pub fn answers_have_causes()
    ensures answers { (args : Unit {0}) (past : List Own) (now : ℕ) (ready : Ready) (port : Port) (bytes : List ℕ)
        → IsRunBy (Next args) past → Next args past now ready ≡ needs.Give port bytes → IsAnswered past port bytes }
    ensures ends { (args : Unit {0}) (past : List Own) (now : ℕ) (ready : Ready) (status : ℕ)
        → IsRunBy (Next args) past → Next args past now ready ≡ needs.Ended status → IsEnded past status }
{}

/// What a cleaner can ask for at all: searches, stats and unlinks, takings of its input and givings to its output. It
/// creates, opens and writes no file.
pub fn asks_for_little()
    ensures { (args : Unit {0}) (past : List Own) (now : ℕ) (ready : Ready) → IsAsked (Next args past now ready) }
{}

/// What a cleaner does in a run of twelve events: of two names in `pid` it removes the old one, and then it carries out
/// `foop/1`.
pub fn a_worked_run()
    ensures { does [] events ≡ dues }
{}

/// A command has 7 to 100 bytes with its NUL, and `pid/` is scanned before each 31st command, from the first on.
pub fn figures_are_these()
    ensures least { LEAST_COMMAND ≡ 7 }
    ensures most { MOST_COMMAND ≡ 100 }
    ensures round { ROUND ≡ 31 }
{}
