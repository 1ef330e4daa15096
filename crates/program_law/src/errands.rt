//! The errands of a cleaner are the commands that its sender gives and the answers that it takes, over the bytes in both
//! pipes, the cleaner's place and what the sender waits for (`specs/Errand/Errands.antt`). `specs/Errand/Laws.antt` has what
//! each event keeps of that. The laws are the contracts of functions that do nothing.
//!
//! # What is claimed
//!
//! - What is under way between a sender and its cleaner is told over the bytes in both pipes, the cleaner's place,
//!   and what the sender waits for. At most one command waits, is at work or was answered, and none while the
//!   sender waits for nothing. While it waits for the answer to a command, all that is under way is that command or
//!   its answer; only whole commands were given, unless the sender gives no more. It holds when a generation
//!   begins, and is kept by a giving, whole or in part, and by the taking of an answer, which is one byte and all
//!   that lies there. It is kept by each event of the cleaner that is due, with any answer, by the stop or end of
//!   the sender, and by a machine stop. `+` is given only after the last unlink of the command that the sender
//!   waits for, and what the cleaner takes up next is the command that waits. A whole errand is a worked row: the
//!   laws `starts_with_none`, `asks_keep`, `answers_are_of_errands`, `cleans_keep`, `losses_keep`, `is_alone`,
//!   `next_waits`, by `Errand` (`specs/Errand/Errands.antt`), and `a_worked_errand`. That the pipes of a history do this
//!   is part of world_law's invariant (`errands` of `Inv`).
//! - A cleaner takes a name in `pid` away only directly after a look at its file, which told that it was written
//!   last more than 36 hours before: the law `old_names_go`, over the cleaner's past alone.
ghost use Rattle.program_law.specs.Errand.Laws.{AnswersAreOfErrands, AsksKeep, CleansKeep, IsAlone, LossesKeep, NextWaits, StartsWithNone};
ghost use Rattle.program_law.specs.Errand.OldNames.{OldNamesGo};
ghost use Rattle.program_law.specs.Errand.Worked.{WorkedErrand};

/// A generation begins without an errand.
pub fn starts_with_none()
    ensures { StartsWithNone }
{}

/// A sender that waits for nothing may give a command: whole, after which it waits for its answer, or in part, after which it
/// gives no more.
pub fn asks_keep()
    ensures { AsksKeep }
{}

/// What a sender takes is the answer to its command, and all that lies there.
pub fn answers_are_of_errands()
    ensures { AnswersAreOfErrands }
{}

/// Each event of a cleaner that is due keeps what holds of its errands. No other command waits then, and `+` is given only after
/// the last unlink of the command that the sender waits for.
pub fn cleans_keep()
    ensures { CleansKeep }
{}

/// So do the stop or end of the sender, and a machine stop.
pub fn losses_keep()
    ensures { LossesKeep }
{}

/// Nothing is under way while the sender waits for nothing, and while a command is at work nothing else is.
pub fn is_alone()
    ensures { IsAlone }
{}

/// The command that a cleaner takes up next is the one that waits, which is the one that the sender waits for, if it waits for one.
pub fn next_waits()
    ensures { NextWaits }
{}

/// `todo/7`, from the command to its answer.
pub fn a_worked_errand()
    ensures { WorkedErrand }
{}

/// A cleaner takes a name in `pid` away only directly after a look at its file, which told that it was written last more than 36 hours
/// before.
pub fn old_names_go()
    ensures { OldNamesGo }
{}
