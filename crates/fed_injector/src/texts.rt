// What an injector is given by its parent: two netstrings.
ghost use Rattle.std.specs.Prelude.{◌≡◌, ◌≢◌, ◌<◌, ◌^◌, ◌++◌, List, ℕ, IfOk, IfSome, IsNone, length};
ghost use Rattle.fed_injector.specs.Texts.{GivesTexts, GivesTwo};
ghost use Rattle.mail_bytes.specs.Netstring.{netstring};

use call_fs::NeedData;
use mail_bytes::{ByteText, Memory, NetHead, net_head};
use std::alloc::Global;

/// The message and the envelope that these bytes give an injector, as two netstrings; none if they are no two netstrings. Takes no
/// memory.
pub fn texts_of(input: &[u8]) -> Option<(&[u8], &[u8])>
    ensures texts { IfSome result (λ texts. input.now ≡ netstring texts.0.now ++ netstring texts.1.now) }
    ensures none { IsNone result → (message envelope : List ℕ) → length message < 2 ^ 64 → length envelope < 2 ^ 64
        → input.now ≢ netstring message ++ netstring envelope }
{
    let (message, rest) = netstring_of(input)?;
    let (envelope, rest) = netstring_of(rest)?;
    if rest.is_empty() {
        Some((message, envelope))
    } else {
        None
    }
}

/// The text of the netstring with which these bytes begin, and what comes after it; none if they begin with none.
fn netstring_of(bytes: &[u8]) -> Option<(&[u8], &[u8])>
    ensures text { IfSome result (λ cut. bytes.now ≡ netstring cut.0.now ++ cut.1.now) }
    ensures fits { IfSome result (λ cut. length cut.0.now < 2 ^ 64) }
    ensures none { IsNone result → (text rest : List ℕ) → length text < 2 ^ 64 → bytes.now ≢ netstring text ++ rest }
{
    let NetHead::Len { value, used } = net_head(bytes) else {
        return None;
    };
    let rest = &bytes[used..];
    if value >= rest.len() as u64 {
        return None;
    }
    let len = value as usize;
    if rest[len] != b',' {
        return None;
    }
    Some((&rest[..len], &rest[len + 1..]))
}

/// The message and the envelope that are given to an injector when this is due to its parent, and a copy of each to keep. The condition:
/// it gives them, as two netstrings. The error: out of memory.
pub fn texts_to_give(
    alloc: Global,
    due: &NeedData,
) -> Result<(ByteText, ByteText, ByteText, ByteText), Memory>
    requires { GivesTwo due.now }
    ensures texts { IfOk result (λ texts. GivesTexts due.now texts.0 texts.1) }
    ensures message { IfOk result (λ texts. texts.2 ≡ texts.0) }
    ensures envelope { IfOk result (λ texts. texts.3 ≡ texts.1) }
{
    let (message, envelope) = given_by(alloc, due)?;
    let kept_message = ByteText::from_slice(alloc, message.as_slice())?;
    let kept_envelope = ByteText::from_slice(alloc, envelope.as_slice())?;
    Ok((message, envelope, kept_message, kept_envelope))
}

/// The message and the envelope that are given so. The condition: as above.
fn given_by(alloc: Global, due: &NeedData) -> Result<(ByteText, ByteText), Memory>
    requires { GivesTwo due.now }
    ensures { IfOk result (λ texts. GivesTexts due.now texts.0 texts.1) }
{
    let NeedData::Give(_, bytes) = due else {
        unreachable!()
    };
    let (message, envelope) = texts_of(bytes.as_slice()).unwrap();
    let message = ByteText::from_slice(alloc, message)?;
    Ok((message, ByteText::from_slice(alloc, envelope)?))
}
