// The parts of an output.
ghost use Rattle.std.specs.Prelude.{◌≡◌, ◌<◌, ◌∷◌, ◌==◌, [], IfSome, MatchOption, length, position};
ghost use Rattle.remote_spawn.specs.Parts.{first_message, is_verdict, message_in_part, parts, recipient_in_part, recipient_text, said};

/// What a message report says.
#[derive(Clone, Copy)]
pub struct Message<'a> {
    /// `K`, `Z` or `D`.
    pub letter: u8,
    /// What comes after the letter.
    pub text: &'a [u8],
}

/// The first part of the bytes, without its NUL, and what comes after that; `None` exactly if no part is ended.
fn cut_part(bytes: &[u8]) -> Option<(&[u8], &[u8])>
    ensures parts { MatchOption result (parts bytes.now ≡ []) (λ cut. parts bytes.now ≡ cut.0.now ∷ parts cut.1.now) }
    ensures shorter { IfSome result (λ cut. length cut.1.now < length bytes.now) }
{
    match first_nul(bytes) {
        None => None,
        Some(at) => Some((&bytes[..at], &bytes[at + 1..])),
    }
}

/// The place of the first NUL.
fn first_nul(bytes: &[u8]) -> Option<usize>
    ensures { result ≡ position (λ b. b == 0) bytes.now }
{
    bytes.iter().position(|byte| *byte == 0)
}

/// The text of the recipient report; empty if there is none.
pub fn recipient_text(output: &[u8]) -> &[u8]
    ensures { result.now ≡ recipient_text (parts output.now) }
{
    match cut_part(output) {
        Some((part, _)) => recipient_in_part(part),
        None => &[],
    }
}

/// The text of the recipient report in a first part; empty if that begins with `K`, `Z` or `D`, and so is the message report.
fn recipient_in_part(part: &[u8]) -> &[u8]
    ensures { result.now ≡ recipient_in_part part.now }
{
    match part.split_first() {
        Some((letter, text)) if !is_verdict(*letter) => text,
        _ => &[],
    }
}

/// Whether a part that begins with this letter is a message report.
fn is_verdict(letter: u8) -> bool
    ensures { result ≡ is_verdict letter }
{
    matches!(letter, b'K' | b'Z' | b'D')
}

/// The message report in a part; `None` exactly if it begins with none of `K`, `Z` and `D`.
fn message_in_part(part: &[u8]) -> Option<Message<'_>>
    ensures { said result ≡ message_in_part part.now }
{
    match part.split_first() {
        Some((letter, text)) if is_verdict(*letter) => Some(Message {
            letter: *letter,
            text,
        }),
        _ => None,
    }
}

/// The first message report among the parts of these bytes.
pub fn first_message(bytes: &[u8]) -> Option<Message<'_>>
    ensures { said result ≡ first_message (parts bytes.now) }
{
    let mut rest = bytes;
    while let Some((part, after)) = cut_part(rest) {
        if let Some(message) = message_in_part(part) {
            return Some(message);
        }
        rest = after;
    }
    None
}
