// Laws of notes and bounces, and of the steps that write and send them.
ghost use Rattle.std.specs.Prelude.{◌≡◌, ◌≢◌, ◌↔◌, ◌++◌, ◌∷◌, ◌+◌, ◌-◌, ◌≤◌, [], ℕ, List, Some, codes, length, drop, count_by, if◌then◌else◌, bytes_eq};
ghost use Rattle.bounce_record.specs.Bounces.{return_address};
ghost use Rattle.bounce_record.specs.Notes.{IsSoftened, count, heading, named, note_name, notes_of, parting, softened, with_note};
ghost use Rattle.bounce_record.specs.Resting.{NotesRest};
ghost use Rattle.bounce_record.specs.Runs.{CallsUseWhatIsHeld, NotesAreWritten, UnlinksWhatIsReturned};

/// Which newlines of a note become `/`, which lines name which addresses, and where a bounce goes, as relations.
pub fn notes_are_exact()
    ensures softened { (plain text : List ℕ) → IsSoftened plain text ↔ (text ≡ softened plain) }
    ensures named { (line address : List ℕ) → (named line ≡ Some address) ↔ (line ≡ heading address) }
    ensures marked { (address : List ℕ) → return_address (address ++ codes "-@[]") ≡ address }
    ensures unmarked { (sender : List ℕ) →
        ((address : List ℕ) → sender ≢ address ++ codes "-@[]") → return_address sender ≡ sender }
{}

/// A note at the end of a bounce file adds its own address to those that the file names, and no other, whatever its
/// report says. A file names an address as often as it has paragraphs of it, and names it still when more is put after
/// its last newline. Whether two newlines go before a note is told by the last two bytes of the file.
pub fn notes_are_counted()
    ensures counted { (bytes r : List ℕ) → count bytes r ≡ count_by (λ address. bytes_eq address r) (notes_of bytes) }
    ensures added { (file address report : List ℕ) →
        notes_of (with_note file address report) ≡ notes_of file ++ note_name address ∷ [] }
    ensures more { (file address report r : List ℕ) →
        count (with_note file address report) r ≡ count file r + (if bytes_eq (note_name address) r then 1 else 0) }
    ensures stays { (bytes rest r : List ℕ) → count (bytes ++ 10 ∷ []) r ≤ count (bytes ++ 10 ∷ rest) r }
    ensures parting { (file : List ℕ) → parting file ≡ parting (drop (length file - 2) file) }
{}

/// Each call of a note's writing and of a return uses only a descriptor that this holds open, in a mode that fits.
pub fn calls_use_what_is_held()
    ensures { CallsUseWhatIsHeld }
{}

/// A note that counts as written stands at the end of the bounce file, after what that held before and what parts it from
/// that, and all of the file is on the disk, if the calls of its writing alone were made on the disk.
pub fn written_notes_are_whole()
    ensures { NotesAreWritten }
{}

/// A return unlinks the bounce file only directly after the injector of the bounce of all that the bounce file and the message file
/// held was given that bounce and ended with 0, or if nothing comes of them (`bounce_message` says when), if its calls alone were
/// made on the disk.
pub fn bounces_are_queued_first()
    ensures { UnlinksWhatIsReturned }
{}

/// Notes rest on whole lines that every version of a bounce file begins with since its last sync. What is put at its end, also in
/// part, and a machine stop leave them; a sync makes them all that the file then holds. A file that was given a note is whole lines,
/// and one that begins with whole lines names no one less often than they do.
pub fn notes_rest_on_whole_lines()
    ensures { NotesRest }
{}
