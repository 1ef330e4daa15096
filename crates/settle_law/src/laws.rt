// What `settle` leads to, as laws: contracts of functions that do nothing.
ghost use Rattle.settle_law.specs.Lines.{LinesSettle};
ghost use Rattle.settle_law.specs.Promised.{RestsHold, SettlesEnd, SuccessesEnd};

/// At each rest the facts hold of which a settled state comes.
pub fn rests_hold()
    ensures { RestsHold }
{}

/// Where nothing fails the state is settled after `settle` that printed nothing.
pub fn settles_end()
    ensures { SettlesEnd }
{}

/// And if each report was of a success no message is left.
pub fn successes_end()
    ensures { SuccessesEnd }
{}

/// Each `settle` line of a script that is played prints why it stopped, or nothing. If it prints nothing, and nothing troubled the queue until then, it
/// leads to what `settle` promises.
pub fn lines_settle()
    ensures { LinesSettle }
{}
