// Laws of reports and of a remote spawner's table: contracts of functions that do nothing.
ghost use Rattle.std.specs.Prelude.{◌≡◌, ◌≢◌, ◌≤◌, ◌↔◌, ◌∷◌, [], ℕ, List, All, slice_index};
ghost use Rattle.call_fs.specs.declared.past.ChildData.{ChildData};
ghost use Rattle.call_fs.specs.declared.past.NeedData.TheVariants as needs;
ghost use Rattle.call_fs.specs.declared.past.Own.{Own};
ghost use Rattle.call_fs.specs.declared.program.Port.TheVariants as port;
ghost use Rattle.call_fs.specs.declared.program.Ready.{Ready};
ghost use Rattle.call_fs.specs.Past.{IsRunBy, taken};
ghost use Rattle.outside.specs.declared.spawner.Status.{Status};
ghost use Rattle.spawn_protocol.specs.Request.{HasRead, Reader};
ghost use Rattle.spawn_protocol.specs.declared.request.Request.{Request};
ghost use Rattle.remote_spawn.specs.Parts.{IsVerdict};
ghost use Rattle.remote_spawn.specs.Reports.{IsReport, IsSuccess, report_of};
ghost use Rattle.spawner_parts.specs.Causes.{IsEnded, IsFailed, IsOver};
ghost use Rattle.spawner_parts.specs.Counts.{IsAtRest, IsSettled, asked, dealt_with};
ghost use Rattle.spawner_parts.specs.Known.{last_read};
ghost use Rattle.remote_spawn.specs.Starts.{IsStartOfOne};
ghost use Rattle.remote_spawn.specs.Table.{Next};
ghost use Rattle.remote_spawn.specs.Worked.{does, delivery, delivery_dues, refusals, refusal_dues};

/// A program's end has exactly one report. It is a letter, `K`, `Z` or `D`, and a text without NUL.
pub fn reports_are_exact()
    ensures one { (status : Status) (output report : List ℕ) →
        (report_of status output ≡ report) ↔ IsReport status output report }
    ensures plain { (status : Status) (output : List ℕ) →
        IsVerdict (slice_index (report_of status output) 0) × All (λ b. b ≢ 0) (report_of status output) }
{}

/// A success is told exactly if the program told it.
pub fn successes_are_told()
    ensures { (status : Status) (output : List ℕ) →
        (slice_index (report_of status output) 0 ≡ 75) ↔ IsSuccess status output }
{}

/// With which exit status a remote spawner ends, and why.
///
/// | Status | Exactly if |
/// |---|---|
/// | 0 | its requests have ended, no program is left, and each request has its report |
/// | 53 | it couldn't give to its output |
/// | 54 | its requests couldn't be taken, or what a program printed |
/// | 91 | a field of its requests has a 4097th byte, no program is left, and each request before has its report |
pub fn statuses_have_causes()
    ensures ends { (args : Unit {0}) (past : List Own) (now : ℕ) (ready : Ready) (status : ℕ)
        → IsRunBy (Next args) past → Next args past now ready ≡ needs.Ended status → IsEnded past status }
    // After a failed give or taking it has ended.
    ensures fails { (args : Unit {0}) (past : List Own) (now : ℕ) (ready : Ready) (status : ℕ)
        → IsRunBy (Next args) past → IsFailed past status → Next args past now ready ≡ needs.Ended status }
    // Once nothing is left to do it has ended.
    ensures settles { (args : Unit {0}) (past : List Own) (now : ℕ) (ready : Ready) (status : ℕ)
        → IsRunBy (Next args) past → IsOver past status → IsSettled past → Next args past now ready ≡ needs.Ended status }
{}

/// Each request has one report, and a bad one no program.
pub fn requests_have_reports()
    // For no slot are there more reports and programs than requests, and at rest there are as many.
    ensures most { (args : Unit {0}) (past : List Own) (requests : List Request) (reader : Reader) (slot : ℕ)
        → IsRunBy (Next args) past → HasRead (taken past) requests reader → dealt_with slot past ≤ asked slot requests }
    ensures each { (args : Unit {0}) (past : List Own) (now : ℕ) (ready : Ready) (requests : List Request) (reader : Reader) (slot : ℕ)
        → IsRunBy (Next args) past → HasRead (taken past) requests reader → IsAtRest past (Next args past now ready)
        → asked slot requests ≡ dealt_with slot past }
    // Programs are started in the order of the requests.
    ensures starts { (args : Unit {0}) (past : List Own) (now : ℕ) (ready : Ready) (requests : List Request) (reader : Reader) (program : ChildData)
        → IsRunBy (Next args) past → HasRead (taken past) requests reader → Next args past now ready ≡ needs.Start program
        → IsStartOfOne past requests program }
{}

/// A program is given the message as it was read.
pub fn messages_are_given()
    ensures { (args : Unit {0}) (past : List Own) (now : ℕ) (ready : Ready) (slot : ℕ) (bytes : List ℕ)
        → IsRunBy (Next args) past → Next args past now ready ≡ needs.Give (port.Program slot) bytes → bytes ≡ last_read past }
{}

/// What a remote spawner does in two runs. In one a message is delivered. In the other it takes two bad requests at once, and
/// one whose message is missing, and then a field of 4097 bytes.
pub fn worked_runs()
    ensures delivery { does [] delivery ≡ delivery_dues }
    ensures refusals { does [] refusals ≡ refusal_dues }
{}
