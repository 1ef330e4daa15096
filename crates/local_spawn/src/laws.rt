// Laws of files and local parts, and of a local spawner's table: contracts of functions that do nothing.
ghost use Rattle.std.specs.Prelude.{◌≡◌, ◌≤◌, [], ℕ, List, MatchOption, Some, None};
ghost use Rattle.call_fs.specs.declared.past.ChildData.{ChildData};
ghost use Rattle.call_fs.specs.declared.past.NeedData.TheVariants as needs;
ghost use Rattle.call_fs.specs.declared.past.Own.{Own};
ghost use Rattle.call_fs.specs.declared.program.Port.TheVariants as port;
ghost use Rattle.call_fs.specs.declared.program.Ready.{Ready};
ghost use Rattle.call_fs.specs.Past.{IsRunBy, taken};
ghost use Rattle.spawn_protocol.specs.Request.{HasRead, Reader};
ghost use Rattle.spawn_protocol.specs.declared.request.Request.{Request};
ghost use Rattle.spawner_parts.specs.Causes.{IsOver};
ghost use Rattle.spawner_parts.specs.Counts.{IsAtRest, IsSettled, asked, dealt_with};
ghost use Rattle.spawner_parts.specs.Known.{last_read};
ghost use Rattle.local_spawn.specs.declared.assign.Assignment.{Assignment};
ghost use Rattle.local_spawn.specs.declared.finding.Found.{Found};
ghost use Rattle.local_spawn.specs.Assign.{HasNoDot, IsBadLine, IsFile};
ghost use Rattle.local_spawn.specs.Causes.{HasEnded, HasFailed};
ghost use Rattle.mail_bytes.specs.Netstring.{netstring};
ghost use Rattle.local_spawn.specs.Finding.{IsFound, IsForNobody};
ghost use Rattle.local_spawn.specs.Starts.{IsDeliveryOfOne};
ghost use Rattle.local_spawn.specs.Table.{Next};
ghost use Rattle.local_spawn.specs.Users.{found_in, users_in};
ghost use Rattle.local_spawn.specs.Worked.{delivery, delivery_dues, does, refusals, refusal_dues, troubles, trouble_dues};

/// A file has one reading: these assignments, or this bad line, or no `.`.
pub fn files_are_exact()
    ensures file { (bytes : List ℕ) (lines others : List Assignment) → IsFile bytes lines → IsFile bytes others → lines ≡ others }
    ensures good { (bytes : List ℕ) (lines : List Assignment) (number : ℕ) → IsFile bytes lines → ¬ (IsBadLine bytes number) }
    ensures bad { (bytes : List ℕ) (number other : ℕ) → IsBadLine bytes number → IsBadLine bytes other → number ≡ other }
    ensures dot { (bytes : List ℕ) (lines : List Assignment) → HasNoDot bytes → ¬ (IsFile bytes lines) }
    ensures dotless { (bytes : List ℕ) (number : ℕ) → HasNoDot bytes → ¬ (IsBadLine bytes number) }
    // Its users, as the table has them.
    ensures users { (bytes : List ℕ) (lines : List Assignment) → IsFile bytes lines → users_in bytes ≡ Some lines }
    ensures unusable { (bytes : List ℕ) (number : ℕ) → IsBadLine bytes number → users_in bytes ≡ None }
    ensures unended { (bytes : List ℕ) → HasNoDot bytes → users_in bytes ≡ None }
{}

/// A local part belongs to one line, or to none.
pub fn users_are_exact()
    ensures one { (lines : List Assignment) (local : List ℕ) (found other : Found) → IsFound lines local found → IsFound lines local other → found ≡ other }
    ensures none { (lines : List Assignment) (local : List ℕ) (found : Found) → IsForNobody lines local → ¬ (IsFound lines local found) }
    // The line that the table finds.
    ensures found { (lines : List Assignment) (local : List ℕ) → MatchOption (found_in lines local) (IsForNobody lines local) (IsFound lines local) }
{}

/// With which exit status a local spawner ends, and why.
///
/// | Status | Exactly if |
/// |---|---|
/// | 0 | its requests have ended, no delivery is left, and each request has its report |
/// | 51 | users/assign couldn't be opened for memory |
/// | 53 | it couldn't give to its output |
/// | 54 | its requests couldn't be taken, or what a delivery printed |
/// | 91 | a field of its requests has a 4097th byte, no delivery is left, and each request before has its report |
pub fn statuses_have_causes()
    ensures ends { (args : Unit {0}) (past : List Own) (now : ℕ) (ready : Ready) (status : ℕ)
        → IsRunBy (Next args) past → Next args past now ready ≡ needs.Ended status → HasEnded past status }
    // After a failed give or taking, and after such an open, it has ended.
    ensures fails { (args : Unit {0}) (past : List Own) (now : ℕ) (ready : Ready) (status : ℕ)
        → IsRunBy (Next args) past → HasFailed past status → Next args past now ready ≡ needs.Ended status }
    // Once nothing is left to do it has ended.
    ensures settles { (args : Unit {0}) (past : List Own) (now : ℕ) (ready : Ready) (status : ℕ)
        → IsRunBy (Next args) past → IsOver past status → IsSettled past → Next args past now ready ≡ needs.Ended status }
{}

/// Each request has one report, and a bad one no delivery.
pub fn requests_have_reports()
    // For no slot are there more reports and deliveries than requests, and at rest there are as many.
    ensures most { (args : Unit {0}) (past : List Own) (requests : List Request) (reader : Reader) (slot : ℕ)
        → IsRunBy (Next args) past → HasRead (taken past) requests reader → dealt_with slot past ≤ asked slot requests }
    ensures each { (args : Unit {0}) (past : List Own) (now : ℕ) (ready : Ready) (requests : List Request) (reader : Reader) (slot : ℕ)
        → IsRunBy (Next args) past → HasRead (taken past) requests reader → IsAtRest past (Next args past now ready)
        → asked slot requests ≡ dealt_with slot past }
{}

/// Each delivery is to the user of its request's local part, in the order of the requests, and is given the message as it was read.
pub fn deliveries_are_of_users()
    ensures starts { (args : Unit {0}) (past : List Own) (now : ℕ) (ready : Ready) (requests : List Request) (reader : Reader) (program : ChildData)
        → IsRunBy (Next args) past → HasRead (taken past) requests reader → Next args past now ready ≡ needs.Start program
        → IsDeliveryOfOne past requests program }
    ensures gives { (args : Unit {0}) (past : List Own) (now : ℕ) (ready : Ready) (slot : ℕ) (bytes : List ℕ)
        → IsRunBy (Next args) past → Next args past now ready ≡ needs.Give (port.Program slot) bytes → bytes ≡ netstring (last_read past) }
{}

/// What a local spawner does in three runs. In one a message is delivered. In the second there is no file users/assign, a request is
/// bad, another has no user, and the message of a third is missing. In the last users/assign can't be used, and then a field has 4097
/// bytes.
pub fn worked_runs()
    ensures delivery { does [] delivery ≡ delivery_dues }
    ensures refusals { does [] refusals ≡ refusal_dues }
    ensures troubles { does [] troubles ≡ trouble_dues }
{}
