// Which names actors may have.
ghost use Rattle.std.specs.Prelude.{◌↔◌, ◌≤◌, IsTrue, All, Contains, length};
ghost use Rattle.actor_names.specs.MailNames.{IsLetter, IsLetterOrDigit, IsMailName, members};

/// Whether it is the name of a member of a generation: sender, clean, lspawn, rspawn.
pub fn is_member(name: &[u8]) -> bool
    ensures { IsTrue result ↔ Contains members name.now }
{
    matches!(name, b"sender" | b"clean" | b"lspawn" | b"rspawn")
}

/// Whether a mail may have this name: a lower-case letter, then up to 15 lower-case letters or digits, and no member of
/// a generation.
pub fn is_mail_name(name: &[u8]) -> bool
    ensures { IsTrue result ↔ IsMailName name.now }
{
    match name {
        [first, rest @ ..] => {
            first.is_ascii_lowercase() && are_letters_or_digits(rest) && !is_member(name)
        }
        [] => false,
    }
}

/// Whether these are at most 15 letters or digits.
fn are_letters_or_digits(bytes: &[u8]) -> bool
    ensures { IsTrue result ↔ (All IsLetterOrDigit bytes.now × (length bytes.now ≤ 15)) }
{
    bytes.len() <= 15 && bytes.iter().all(|byte| is_letter_or_digit(*byte))
}

/// Whether it is a lower-case letter or a digit.
fn is_letter_or_digit(byte: u8) -> bool
    ensures { IsTrue result ↔ IsLetterOrDigit byte }
{
    byte.is_ascii_lowercase() || byte.is_ascii_digit()
}
