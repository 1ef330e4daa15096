// Laws of what programs with channels keep of them: contracts of functions that do nothing.
ghost use Rattle.std.specs.Prelude.{◌≡◌, ◌<◌, ℕ, List, is_some};
ghost use Rattle.call_fs.specs.declared.past.ChildData.{ChildData};
ghost use Rattle.program_runner.specs.Lines.{HasOne, IsFailedAnswer, LineState, program_of};
ghost use Rattle.program_runner.specs.Members.{Leads, Step, all_asked, events_of};
ghost use Rattle.program_runner.specs.Programs.{AreFresh, HasFailedToHear, has_program};

/// The channels that are kept are those of the programs that the past has, and of the input.
pub fn lines_tell_the_past()
    // A delivery has a channel exactly if it has a program.
    ensures programs { (words : ChildData → List (List ℕ)) (first last : LineState) (turns : List Step) (slot : ℕ) → AreFresh first
        → Leads words first turns last → slot < 256 → is_some (program_of last slot) ≡ has_program slot (events_of turns) }
    // A taking fails only if a post told so.
    ensures failures { (words : ChildData → List (List ℕ)) (first last : LineState) (turns : List Step) → AreFresh first
        → Leads words first turns last → HasFailedToHear (events_of turns) → HasOne IsFailedAnswer (all_asked turns) }
{}
