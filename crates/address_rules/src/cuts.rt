// Texts cut at a byte.
ghost use Rattle.std.specs.Prelude.{◌≡◌, None, Some, MatchOption};
ghost use Rattle.address_rules.specs.Cuts.{first_cut, last_cut};

use bstr::ByteSlice;

/// What stands before and after the first such byte.
pub fn cut_first(text: &[u8], byte: u8) -> Option<(&[u8], &[u8])>
    ensures { MatchOption result (first_cut byte text.now ≡ None)
        (λ parts. first_cut byte text.now ≡ Some (parts.0.now, parts.1.now)) }
{
    let Some(at) = text.find_byte(byte) else {
        return None;
    };
    Some((&text[..at], &text[at + 1..]))
}

/// What stands before and after the last such byte.
pub fn cut_last(text: &[u8], byte: u8) -> Option<(&[u8], &[u8])>
    ensures { MatchOption result (last_cut byte text.now ≡ None)
        (λ parts. last_cut byte text.now ≡ Some (parts.0.now, parts.1.now)) }
{
    let Some(at) = text.rfind_byte(byte) else {
        return None;
    };
    Some((&text[..at], &text[at + 1..]))
}
