//! Laws on the names of children.
ghost use Rattle.std.specs.Prelude.{◌≡◌, ◌≢◌, ◌∷◌, ℕ, List, Contains};
ghost use Rattle.mail_bytes.specs.Decimal.{digits};
ghost use Rattle.actor_names.specs.ChildNames.{bounce_name, delivery_name, forward_of};
ghost use Rattle.actor_names.specs.MailNames.{IsMailName, members};

/// The children of one kind have distinct names, if they have distinct numbers, and so have children of two kinds.
pub fn child_names_differ()
    ensures bounces { (m n : ℕ) → bounce_name m ≡ bounce_name n → m ≡ n }
    ensures deliveries { (m n : ℕ) → delivery_name m ≡ delivery_name n → m ≡ n }
    ensures forwards { (m n : ℕ) → forward_of (delivery_name m) ≡ forward_of (delivery_name n) → m ≡ n }
    ensures kinds { (m n : ℕ) → (bounce_name m ≢ delivery_name n)
        × (bounce_name m ≢ forward_of (delivery_name n))
        × (delivery_name m ≢ forward_of (delivery_name n)) }
{}

/// No mail and no member of a generation has the name of a child. The forward of a delivery has the number of that delivery.
pub fn child_names_are_their_own()
    ensures mails { (a : List ℕ) (n : ℕ) → IsMailName a → (bounce_name n ≢ a)
        × (delivery_name n ≢ a)
        × (forward_of (delivery_name n) ≢ a) }
    ensures members { (n : ℕ) → (¬ (Contains members (bounce_name n)))
        × (¬ (Contains members (delivery_name n)))
        × (¬ (Contains members (forward_of (delivery_name n)))) }
    ensures forwards { (n : ℕ) → forward_of (delivery_name n) ≡ 102 ∷ 46 ∷ digits n }
{}
