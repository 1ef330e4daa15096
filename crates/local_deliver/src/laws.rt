// Laws of a local delivery's table: contracts of functions that do nothing.
ghost use Rattle.std.specs.Prelude.{◌≡◌, [], ◌∷◌, ℕ, List, Some};
ghost use Rattle.call_fs.specs.declared.calls.CallData.TheVariants.{Link};
ghost use Rattle.call_fs.specs.declared.past.ChildData.{ChildData};
ghost use Rattle.call_fs.specs.declared.past.ChildData.TheVariants.{Forward};
ghost use Rattle.call_fs.specs.declared.past.NeedData.TheVariants as needs;
ghost use Rattle.call_fs.specs.declared.past.Own.{Own};
ghost use Rattle.call_fs.specs.declared.program.Port.TheVariants as port;
ghost use Rattle.call_fs.specs.declared.program.Ready.{Ready};
ghost use Rattle.call_fs.specs.Disk.{Disk, IsWhole};
ghost use Rattle.call_fs.specs.Past.{IsRunBy, Makes, taken};
ghost use Rattle.local_parts.specs.declared.arguments.LocalArgs.{LocalArgs};
ghost use Rattle.local_parts.specs.Inputs.{message_in};
ghost use Rattle.local_parts.specs.Texts.{maildir_text};
ghost use Rattle.maildir_drop.specs.Rests.{LeavesAlone};
ghost use Rattle.local_deliver.specs.Carried.{AreWhole, IsCarried};
ghost use Rattle.local_deliver.specs.Causes.{IsCausedBy};
ghost use Rattle.local_deliver.specs.Deeds.{starts};
ghost use Rattle.local_deliver.specs.Forwards.{HasGiven, HasStarted, IsForwardInput};
ghost use Rattle.local_deliver.specs.Table.{Next, place_after};
ghost use Rattle.local_deliver.specs.Worked.{does, drop, drop_dues, forward, forward_dues, no_message, no_message_dues, to_j};
ghost use Rattle.local_deliver.specs.Writes.{AtWork, WritesOn};

/// What a local delivery does in three runs: one drops a message by the default line; one forwards it, and runs a command that
/// has a maildir line passed over; one has an input that is no message.
pub fn worked_runs()
    ensures dropped { does to_j [] drop ≡ drop_dues }
    ensures forwarded { does to_j [] forward ≡ forward_dues }
    ensures refused { does to_j [] no_message ≡ no_message_dues }
{}

/// A local delivery that ends with 0 has carried out its instructions: up to the first command that exits with 99, or to the
/// end, each maildir line has its link into `new`, in order; each command exited with 0 or 99; and one injection of the
/// message for all forwards went well, or there are no forwards and no injector was started.
pub fn success_is_carried_out()
    ensures { (args : LocalArgs) (past : List Own) (now : ℕ) (ready : Ready) → IsRunBy (Next args) past
        → Next args past now ready ≡ needs.Ended 0 → IsCarried args past }
{}

/// Each link that a local delivery makes is of a file that holds the lines of a maildir and its message, complete and on the
/// disk, if its calls alone are made on a disk.
pub fn links_are_of_whole_files()
    ensures { (args : LocalArgs) (past : List Own) → IsRunBy (Next args) past → AreWhole args past }
{}

/// A local delivery rests on any disk when it begins; and each of its events, made on a disk on which it rests, leads to one on
/// which it rests. Other programs may change the disk between its events: if they leave alone what the drop at work rests on, the
/// delivery rests on what they leave. And a link is due only for a file that holds the lines of a maildir and its message,
/// complete and on the disk.
pub fn deliveries_write_on()
    ensures begins { (args : LocalArgs) (d : Disk) → WritesOn args [] d }
    ensures goes_on { (args : LocalArgs) (past : List Own) (event : Own) (before after : Disk) → IsRunBy (Next args) (event ∷ past)
        → WritesOn args past before → Makes before event.read event.due event.came after → WritesOn args (event ∷ past) after }
    ensures stays { (args : LocalArgs) (past : List Own) (d e : Disk) → AtWork (λ it. LeavesAlone it.names it.place.row d e) (place_after args past)
        → WritesOn args past d → WritesOn args past e }
    ensures links { (args : LocalArgs) (past : List Own) (now : ℕ) (ready : Ready) (d : Disk) (from to message : List ℕ)
        → Next args past now ready ≡ needs.File (Link from to) → WritesOn args past d → message_in (taken past) ≡ Some message
        → IsWhole d from (maildir_text args message) }
{}

/// A local delivery starts one program at most: the injector of its forwards, as its user.
pub fn forwards_are_single()
    ensures { (args : LocalArgs) (past : List Own) (now : ℕ) (ready : Ready) (child : ChildData) → IsRunBy (Next args) past
        → Next args past now ready ≡ needs.Start child → ((room : ℕ) × (child ≡ Forward args.uid room)) × (starts past ≡ []) }
{}

/// A local delivery that has just started the injector of its forwards gives it its input next, at any moment and whatever is
/// ready, and it gives nothing to a program at any other time. What it gives is the message with its Delivered-To line and the
/// envelope for those addresses to which the lines that were reached forward it, as two netstrings. Only directly after that it
/// takes the status of that injector.
pub fn forwards_are_fed()
    ensures next { (args : LocalArgs) (past : List Own) → IsRunBy (Next args) past → HasStarted past
        → (text : List ℕ) × ((now : ℕ) (ready : Ready) → Next args past now ready ≡ needs.Give (port.Program 0) text) }
    ensures given { (args : LocalArgs) (past : List Own) (now : ℕ) (ready : Ready) (slot : ℕ) (text : List ℕ) → IsRunBy (Next args) past
        → Next args past now ready ≡ needs.Give (port.Program slot) text → (slot ≡ 0) × HasStarted past × IsForwardInput args past text }
    ensures taken { (args : LocalArgs) (past : List Own) (now : ℕ) (ready : Ready) (slot : ℕ) → IsRunBy (Next args) past
        → Next args past now ready ≡ needs.Take (port.Status slot) → (slot ≡ 0) × ((text : List ℕ) × HasGiven text past) }
{}

/// Why a local delivery has ended.
///
/// | Status | Only if |
/// |---|---|
/// | 0 | its instructions were carried out |
/// | 100 | the message has its Delivered-To line; the home has no file for the address; or a command or the injector exited with a status that no later try would mend |
/// | 111 | its input is no message, or a take, a call, a drop or a give failed; the home, the chosen file or a good control/me is missing; the instructions begin with a blank line or have a line of a mailbox file; or a command or the injector ended otherwise |
/// | 51 | a call, a command or a start found no memory |
pub fn statuses_have_causes()
    ensures { (args : LocalArgs) (past : List Own) (now : ℕ) (ready : Ready) (status : ℕ) → IsRunBy (Next args) past
        → Next args past now ready ≡ needs.Ended status → IsCausedBy args past status }
{}
