//! Laws of scripts. Each is the contract of a function that does nothing.
ghost use Rattle.std.specs.Prelude.{◌≡◌, ◌<◌, ◌^◌, List, ℕ, Some, length};
ghost use Rattle.std.specs.List.{sum_by};
ghost use Rattle.call_fs.specs.Disk.{Disk};
ghost use Rattle.mail_world.specs.Books.{books_in};
ghost use Rattle.mail_world.specs.History.{Event};
ghost use Rattle.script_words.specs.declared.entry.Entry.{Entry};
ghost use Rattle.script_lines.specs.declared.line.Line.{Line};
ghost use Rattle.script_lines.specs.Contents.{Content};
ghost use Rattle.script_lines.specs.Lines.{IsScript};
ghost use Rattle.script_disks.specs.FirstDisk.{IsFirstDisk};
ghost use Rattle.scenario.specs.Summed.{all_fates, counted_recipients};
ghost use Rattle.scenario.specs.Text.{IsPlayed, Prints, BeginsToPrint, IsPrefix};

/// Entries make one disk, if they are fewer than the numbers of files; no file of it has two names.
pub fn one_disk()
    ensures some { (opening : List Entry) → length opening < 2 ^ 64 → (d : Disk) × IsFirstDisk opening d }
    ensures one { (opening : List Entry) (d e : Disk) → IsFirstDisk opening d → IsFirstDisk opening e → d ≡ e }
    ensures names { (opening : List Entry) (d : Disk) → IsFirstDisk opening d
        → (a b : List ℕ) (n : ℕ) → d.names a ≡ Some n → d.names b ≡ Some n → a ≡ b }
{}

/// Each script prints a text, and what it begins to print is a prefix of one.
pub fn has_text()
    ensures text { (script : List ℕ) (content : Content) → IsScript script content
        → (text : List ℕ) × Prints script text }
    ensures whole { (script begun : List ℕ) → BeginsToPrint script begun
        → (whole : List ℕ) × Prints script whole × IsPrefix begun whole }
{}

/// Lines that are played from the disk with some entries make one list of deeds, and so one history, and a script prints one text;
/// what it begins to print is a prefix of that.
pub fn one_text()
    ensures deeds { (opening : List Entry) (lines : List Line) (t u : List ℕ)
        (p : IsPlayed opening lines t) (q : IsPlayed opening lines u) → p.deeds ≡ q.deeds }
    ensures one { (script a b : List ℕ) → Prints script a → Prints script b → a ≡ b }
    ensures prefix { (script begun whole : List ℕ) → BeginsToPrint script begun → Prints script whole
        → IsPrefix begun whole }
{}

/// `sum` counts each recipient of each accepted mail: as many as the books say that their envelopes have.
pub fn all_are_summed()
    ensures { (d : Disk) (h : List Event) → length (all_fates d h) ≡ sum_by counted_recipients (books_in d h) }
{}
