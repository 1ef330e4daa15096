// Laws of envelopes, of todo texts and of the records of a channel: contracts of functions that do nothing.
ghost use Rattle.std.specs.Prelude.{◌≡◌, ◌↔◌, ◌++◌, List, ℕ};
ghost use Rattle.envelope_records.specs.Envelope.{Stage, HasEnvelope, IsEnvelope, IsStart, LeadsTo, IsFirstFault, read_envelope, read_more};
ghost use Rattle.envelope_records.specs.Envelope.Reading.{Whole, Open, Broken};
ghost use Rattle.envelope_records.specs.Records.{AreRecords, IsBadLetter, IsUnended, TodoTextsAreExact};
ghost use Rattle.envelope_records.specs.declared.channel.Record.{Record};
ghost use Rattle.envelope_records.specs.declared.envelope.EnvFault.{EnvFault};

/// Reading tells of any bytes whether they begin with an envelope, are the start of one, or neither; of the last it
/// tells the first fault from the left.
pub fn envelopes_are_exact()
    ensures whole { (bytes sender : List ℕ) (recipients : List (List ℕ)) →
        (read_envelope bytes ≡ Whole sender recipients) ↔ HasEnvelope bytes sender recipients }
    ensures leads { (bytes : List ℕ) (stage : Stage) →
        (read_envelope bytes ≡ Open stage) ↔ LeadsTo bytes stage }
    ensures first_fault { (bytes before : List ℕ) (fault : EnvFault) →
        (read_envelope bytes ≡ Broken before fault) ↔ IsFirstFault bytes before fault }
    // Each start of an envelope leads to a stage.
    ensures start { (bytes : List ℕ) → IsStart bytes →
        (stage : Stage) × (read_envelope bytes ≡ Open stage) }
    // At most one prefix of the bytes is an envelope.
    ensures one { (a b x y sender other : List ℕ) (recipients others : List (List ℕ)) →
        IsEnvelope a sender recipients → IsEnvelope b other others → a ++ x ≡ b ++ y →
        (a ≡ b) × ((sender ≡ other) × (recipients ≡ others)) }
    // However the bytes are cut; what has ended or failed stays so.
    ensures pieces { (prefix more : List ℕ) →
        read_envelope (prefix ++ more) ≡ read_more (read_envelope prefix) more }
{}

/// A todo text whose addresses have no NUL has one uid, one process number, one sender and one list of recipients.
pub fn todo_texts_are_exact()
    ensures { TodoTextsAreExact }
{}

/// Bytes are at most one list of records, and have at most one first record that isn't whole.
pub fn records_are_exact()
    ensures one { (bytes : List ℕ) (records others : List Record) →
        AreRecords bytes records → AreRecords bytes others → records ≡ others }
    ensures whole { (bytes : List ℕ) (records : List Record) (at : ℕ) →
        AreRecords bytes records → (¬ (IsBadLetter bytes at)) × (¬ (IsUnended bytes at)) }
    ensures letter { (bytes : List ℕ) (at other : ℕ) →
        IsBadLetter bytes at → IsBadLetter bytes other → at ≡ other }
    ensures unended { (bytes : List ℕ) (at other : ℕ) →
        IsUnended bytes at → IsUnended bytes other → at ≡ other }
    ensures apart { (bytes : List ℕ) (at other : ℕ) →
        IsBadLetter bytes at → ¬ (IsUnended bytes other) }
{}
