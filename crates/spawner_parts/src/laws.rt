// Laws of what the two spawners have in common: contracts of functions that do nothing.
ghost use Rattle.std.specs.Prelude.{◌≡◌, ◌≤◌, ◌∷◌, [], ℕ, List, Some};
ghost use Rattle.call_fs.specs.declared.calls.CallData.{CallData};
ghost use Rattle.call_fs.specs.declared.past.ChildData.{ChildData};
ghost use Rattle.call_fs.specs.declared.past.NeedData.TheVariants as needs;
ghost use Rattle.call_fs.specs.declared.past.Own.{Own};
ghost use Rattle.call_fs.specs.declared.program.Port.TheVariants as port;
ghost use Rattle.call_fs.specs.declared.program.Ready.{Ready};
ghost use Rattle.call_fs.specs.Past.{UsesHeld, held, taken};
ghost use Rattle.call_fs.specs.Program.{MayCome};
ghost use Rattle.spawn_protocol.specs.Request.{HasRead, Reader};
ghost use Rattle.spawn_protocol.specs.declared.request.Request.{Request};
ghost use Rattle.spawner_parts.specs.declared.place.Place.{Place};
ghost use Rattle.spawner_parts.specs.declared.row.Row.TheVariants as at;
ghost use Rattle.spawner_parts.specs.Asked.{IsSplit, host_of};
ghost use Rattle.spawner_parts.specs.Causes.{EndsWith, IsEnded, IsOver, slot_of};
ghost use Rattle.spawner_parts.specs.Counts.{IsAtRest, IsSettled, IsStart, asked, dealt_with};
ghost use Rattle.spawner_parts.specs.Known.{Carries, Tells, last_read};
ghost use Rattle.spawner_parts.specs.Table.{IsKind, Kind, act, begun, due_at, row_now};

/// A place that follows the table agrees with the past, whatever the kind of the spawner. The programs that it starts are to be
/// in the slots of their requests.
pub fn places_tell_the_past()
    ensures begins { Tells [] begun }
    ensures goes_on { (kind : Kind) (program : ChildData) (event : Own) (before : List Own) (p : Place) → IsKind kind → slot_of program ≡ p.request.slot
        → event.due ≡ due_at program (row_now p event.ready) p → MayCome event.due event.came → Tells before p
        → Tells (event ∷ before) (act kind (row_now p event.ready) event.came p) }
    // A file call before the first byte is given changes nothing.
    ensures waits { (call : CallData) (event : Own) (before : List Own) → event.due ≡ needs.File call → Tells before begun → Tells (event ∷ before) begun }
    // Its calls use only what it holds open.
    ensures uses { (program : ChildData) (past : List Own) (p : Place) (ready : Ready) → Tells past p
        → UsesHeld (held past) (due_at program (row_now p ready) p) }
{}

/// With which exit status a spawner ends, and why.
///
/// | Status | Exactly if |
/// |---|---|
/// | 0 | its requests have ended, no program is left, and each request has its report |
/// | 53 | it couldn't give to its output |
/// | 54 | its requests couldn't be taken, or what a program printed |
/// | 91 | a field of its requests has a 4097th byte, no program is left, and each request before has its report |
pub fn pasts_have_causes()
    ensures ends { (program : ChildData) (past : List Own) (p : Place) (ready : Ready) (status : ℕ) → Tells past p
        → due_at program (row_now p ready) p ≡ needs.Ended status → IsEnded past status }
    // After a failed give or taking it has ended.
    ensures fails { (kind : Kind) (program : ChildData) (event : Own) (p : Place) (ready : Ready) (status : ℕ)
        → event.due ≡ due_at program (row_now p event.ready) p → EndsWith status event.due event.came
        → row_now (act kind (row_now p event.ready) event.came p) ready ≡ at.Ended status }
    // Once nothing is left to do it has ended.
    ensures settles { (past : List Own) (p : Place) (ready : Ready) (status : ℕ) → Tells past p → IsOver past status → IsSettled past
        → row_now p ready ≡ at.Ended status }
{}

/// Each request has one report, and a bad one no program.
pub fn pasts_have_reports()
    // For no slot are there more reports and programs than requests, and at rest there are as many.
    ensures most { (past : List Own) (p : Place) (requests : List Request) (reader : Reader) (slot : ℕ) → Tells past p
        → HasRead (taken past) requests reader → dealt_with slot past ≤ asked slot requests }
    ensures each { (program : ChildData) (past : List Own) (p : Place) (ready : Ready) (requests : List Request) (reader : Reader) (slot : ℕ)
        → Tells past p → HasRead (taken past) requests reader → IsAtRest past (due_at program (row_now p ready) p)
        → asked slot requests ≡ dealt_with slot past }
    // Programs are started in the order of the requests.
    ensures starts { (program started : ChildData) (past : List Own) (p : Place) (ready : Ready) (requests : List Request) (reader : Reader)
        → slot_of program ≡ p.request.slot → Tells past p → HasRead (taken past) requests reader
        → due_at program (row_now p ready) p ≡ needs.Start started → IsStart past requests p.request started }
{}

/// A program is given the message as it was read last, in the way of its kind.
pub fn programs_are_given_messages()
    ensures goes_on { (kind : Kind) (program : ChildData) (event : Own) (before : List Own) (p : Place) → IsKind kind
        → event.due ≡ due_at program (row_now p event.ready) p → MayCome event.due event.came → Carries kind.given (last_read before) p.row p
        → let q = act kind (row_now p event.ready) event.came p in Carries kind.given (last_read (event ∷ before)) q.row q }
    ensures gives { (given : List ℕ → List ℕ) (program : ChildData) (past : List Own) (p : Place) (ready : Ready) (slot : ℕ) (bytes : List ℕ)
        → Carries given (last_read past) p.row p → due_at program (row_now p ready) p ≡ needs.Give (port.Program slot) bytes
        → bytes ≡ given (last_read past) }
    // Before the first byte is given there is no message.
    ensures begins { (given : List ℕ → List ℕ) (past : List Own) → Carries given (last_read past) begun.row begun }
{}

/// An address that has a host is what comes before its last `@`, the `@`, and the host.
pub fn hosts_are_exact()
    ensures { (address host : List ℕ) → host_of address ≡ Some host → (local : List ℕ) × IsSplit address local host }
{}
