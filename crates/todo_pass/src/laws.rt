//! The laws of todo passes: what stands on the disk when the cleaner gets its command, and how a pass ends.
ghost use Rattle.todo_pass.specs.Laws.{AloneIsLeftAlone, EndsHaveCauses, MadeBeforeTheCommand};
ghost use Rattle.todo_pass.specs.Channels.{ChannelsAreRecords};
ghost use Rattle.todo_pass.specs.Places.{EachAtItsPlace};
ghost use Rattle.todo_pass.specs.Todo.{TodosAreExact};

/// When a pass gives the cleaner its command, until it has ended done, its info file and its channel files are on the disk,
/// complete and synced, if other programs leave alone what it holds; a channel without recipients has no file. They are
/// those of the route of each recipient of what was read of todo, and until the command was given the todo file holds just
/// that.
pub fn files_are_made_before_the_command()
    ensures { MadeBeforeTheCommand }
{}

/// A pass whose calls alone are made on a disk is such a one.
pub fn a_pass_alone_is_left_alone()
    ensures { AloneIsLeftAlone }
{}

/// A todo file is read as what it says exactly if it is a todo text; else the place is told of the first byte that no todo
/// text has there, or the length of bytes that only begin one.
pub fn todos_are_exact()
    ensures { TodosAreExact }
{}

/// Of each recipient the text of its channel has the record of its routed address, after the records of the earlier
/// recipients of that channel.
pub fn each_record_is_at_its_place()
    ensures { EachAtItsPlace }
{}

/// The text of each channel is a channel file that `records` takes, with a record to do for each of its recipients in the
/// order of the envelope, if what the control files say has no NUL, as what `Controls::read` gives.
pub fn channels_are_records()
    ensures { ChannelsAreRecords }
{}

/// How a pass ends, and why. It ends done only when the cleaner answered `+` and nothing else. It is left, only if:
///
/// | Reason | Cause in its past |
/// |---|---|
/// | `Fault` | a call at that file was refused, not for memory, and not as its table expects |
/// | `NoMess` | the message file was missing at its stat |
/// | `BadRecord` | what was read of the todo file is no todo text, first at that place |
/// | `Unclean` | the cleaner answered something but `+` |
/// | `Memory` | a call found no memory |
///
/// A pass at `Row::Lost` couldn't give its command, or the link to the cleaner ended or failed before an answer.
pub fn ends_have_causes()
    ensures { EndsHaveCauses }
{}
