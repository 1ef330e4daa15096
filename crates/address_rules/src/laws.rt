//! Laws on the definitions: what is computed is what the rules say of whole texts.
ghost use Rattle.std.specs.Prelude.{◌≡◌, ◌≢◌, ◌↔◌, ◌++◌, ◌∷◌, [], List, ℕ, Option, Some, None};
ghost use Rattle.address_rules.specs.declared.control_file.ControlFile.{ControlFile};
ghost use Rattle.address_rules.specs.declared.controls.Controls.{Controls};
ghost use Rattle.address_rules.specs.declared.rewriting.Route.{Route};
ghost use Rattle.address_rules.specs.declared.virtual_domains.VirtualDomain.{VirtualDomain};
ghost use Rattle.address_rules.specs.Cuts.{IsLastCut};
ghost use Rattle.address_rules.specs.Keys.{domain_keys, IsFirstPrefix};
ghost use Rattle.address_rules.specs.Files.{controls_of, first_fault, IsFaulty, IsFirstFault};
ghost use Rattle.address_rules.specs.Routes.{address_in, route_of, IsRoute};
ghost use Rattle.address_rules.specs.Nuls.{HaveNoNul};
ghost use Rattle.mail_bytes.specs.Texts.{HasNoNul};
ghost use Rattle.address_rules.specs.Names.{stripped, verp_of, IsStripped, IsVerp};

/// An address has exactly one route.
pub fn routes_are_exact()
    ensures route { (controls : Controls) (address : List ℕ) (route : Route) →
        (route_of controls address ≡ route) ↔ IsRoute controls address route }
{}

/// An address has exactly one form without its prefix, and a sender exactly one that a recipient sees. What a prefix
/// was put before is what is left without it.
pub fn names_are_exact()
    ensures stripped { (lines : List VirtualDomain) (address text : List ℕ) →
        (stripped lines address ≡ text) ↔ IsStripped lines address text }
    ensures verp { (sender recipient text : List ℕ) →
        (verp_of sender recipient ≡ text) ↔ IsVerp sender recipient text }
    ensures undone { (lines : List VirtualDomain) (address box domain prefix : List ℕ) →
        IsLastCut 64 address box domain → IsFirstPrefix lines (domain_keys domain) prefix → prefix ≢ [] →
        stripped lines (prefix ++ 45 ∷ address) ≡ address }
{}

/// The fault that is told is in the first file with one, at the least line that has one; none is told exactly if no
/// file has one.
pub fn faults_are_exact()
    ensures first { (files : List (Option (List ℕ))) (file : ControlFile) (line : ℕ) →
        (first_fault files ≡ Some (file, line)) ↔ IsFirstFault files file line }
    ensures none { (files : List (Option (List ℕ))) →
        (first_fault files ≡ None) ↔ ((file : ControlFile) → ¬ (IsFaulty files file)) }
{}

/// Nothing that the files say has a NUL, if none of them has a fault; and over such controls the route of an address
/// without NUL has none.
pub fn texts_have_no_nul()
    ensures controls { (files : List (Option (List ℕ))) → first_fault files ≡ None → HaveNoNul (controls_of files) }
    ensures route { (controls : Controls) (address : List ℕ) → HaveNoNul controls → HasNoNul address →
        HasNoNul (address_in (route_of controls address)) }
{}
