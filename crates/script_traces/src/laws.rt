//! Laws of lines. Each is the contract of a function that does nothing.
ghost use Rattle.std.specs.Prelude.{◌≡◌, ◌+◌, ◌∷◌, [], List, bytes_eq, codes, length, map};
ghost use Rattle.std.specs.List.{count_by};
ghost use Rattle.mail_bytes.specs.Texts.{line};
ghost use Rattle.script_traces.specs.Fates.{count_of, fate_word, sum_line};
ghost use Rattle.script_traces.specs.declared.fates.RecipientFate.{RecipientFate};
ghost use Rattle.script_traces.specs.declared.fates.RecipientFate.TheVariants.{Pending, Delivered, Noted, Bounced, Dropped};

/// The line of `sum` counts each recipient once: those that are pending, were delivered to, are noted, or were bounced or dropped are
/// all of them. Each is counted as the word of its own line tells it.
pub fn each_is_counted()
    ensures all { (fates : List RecipientFate) → count_of Pending fates + (count_of Delivered fates + (count_of Noted fates
        + (count_of Bounced fates + count_of Dropped fates))) ≡ length fates }
    ensures words { (fate : RecipientFate) (fates : List RecipientFate)
        → count_of fate fates ≡ count_by (bytes_eq (fate_word fate)) (map fate_word fates) }
    ensures row { sum_line 1 (Delivered ∷ Noted ∷ [])
        ≡ line (codes "accepted 1 recipients 2 pending 0 delivered 1 noted 1 bounced 0 dropped 0") }
{}
