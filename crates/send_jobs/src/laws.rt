// Laws of slots, marks and jobs.
ghost use Rattle.std.specs.Option.{option_map};
ghost use Rattle.std.specs.Prelude.{◌≡◌, ℕ, Bool, List, [], Option, Some, None, if◌then◌else◌, ◌==◌};
ghost use Rattle.envelope_records.specs.declared.channel.Record.{Record};
ghost use Rattle.send_jobs.specs.declared.attempts.Attempt.{Attempt};
ghost use Rattle.send_jobs.specs.declared.attempts.Mark.{Mark};
ghost use Rattle.send_jobs.specs.declared.jobs.Job.{Job};
ghost use Rattle.send_jobs.specs.declared.lane.Lane.{Lane};
ghost use Rattle.send_jobs.specs.Jobs.{job_of, put, unmark, unmarked_if, without};
ghost use Rattle.send_jobs.specs.Lanes.{begun_by, sent, reported, owes, mark_settled, IsRoomy};
ghost use Rattle.send_jobs.specs.Runs.{Act, IsRun, IsSoundRun};
ghost use Rattle.send_jobs.specs.Slots.{attempt_in, lowest, IsLeastFree};

/// After every run of calls the attempts in flight are at distinct places, each of which was read as `T`, and what is
/// finished was reported. There is one lowest free slot, or none.
pub fn slots_are_sound()
    ensures sound { (limit : ℕ) (acts : List Act) → IsRun limit acts → IsSoundRun limit acts }
    ensures lowest { (slots : List (Option Attempt)) → IsLeastFree slots (lowest slots) }
    ensures one { (slots : List (Option Attempt)) (a b : Option ℕ) →
        IsLeastFree slots a → IsLeastFree slots b → a ≡ b }
{}

/// There is room for the mark of each report, as long as no attempt goes out while a mark is to be made.
pub fn marks_have_room()
    ensures idle { (lane : Lane) → lane.marks ≡ [] → IsRoomy lane }
    ensures begun { (lane : Lane) (n begun : ℕ) (records : List Record) (dying : Bool) →
        IsRoomy lane → IsRoomy (begun_by n records begun dying lane) }
    ensures sent { (lane : Lane) (delivery : ℕ) → lane.marks ≡ [] → IsRoomy (sent delivery lane) }
    ensures reported { (lane : Lane) (slot : ℕ) → IsRoomy lane → IsRoomy (reported slot lane) }
    ensures marked { (lane : Lane) (slot : ℕ) (a : Attempt) (mark : Mark) →
        IsRoomy lane → attempt_in lane.slots slot ≡ Some a → IsRoomy (owes mark (reported slot lane)) }
    ensures settled { (lane : Lane) → IsRoomy lane → IsRoomy (mark_settled lane) }
{}

/// Jobs are a map from the numbers of messages.
pub fn jobs_are_a_map()
    ensures put { (job : Job) (n : ℕ) (jobs : List Job) →
        job_of n (put job jobs) ≡ (if job.n == n then Some job else job_of n jobs) }
    ensures unmarked { (m n : ℕ) (jobs : List Job) →
        job_of n (unmark m jobs) ≡ (if m == n then option_map (unmarked_if m) (job_of n jobs) else job_of n jobs) }
    ensures without { (m n : ℕ) (jobs : List Job) →
        job_of n (without m jobs) ≡ (if m == n then None else job_of n jobs) }
{}
