// The next name of a directory, looked for among all names.
ghost use Rattle.std.specs.Prelude.{◌≡◌, ◌≤◌, ◌⊎◌, ◌++◌, ◌∷◌, ◌↔◌, ◌==◌, List, ℕ, Some, None, Contains, IsTrue, IfSome, IfNone, length, false, bytes_eq};
ghost use Rattle.std.specs.Option.{option_copied};
ghost use Rattle.std.specs.Ordering.{nat_cmp, is_gt};
ghost use Rattle.std.specs.Cmp.Lexicographic.{slice_cmp};
ghost use Rattle.call_fs.specs.Disk.{dir_of};
ghost use Rattle.call_fs.specs.Apply.{IsLater};
ghost use Rattle.call_runs.specs.Lists.{IsLeastPart};

use mail_bytes::ByteText;

/// What stands before the last `/`.
pub fn dir_of(name: &[u8]) -> &[u8]
    ensures { result.now ≡ dir_of name.now }
{
    let mut end = name.len();
    while end > 0 && name[end - 1] != b'/' {
        end -= 1;
    }
    &name[..end.saturating_sub(1)]
}

/// What stands after the directory and a `/`.
fn below<'a>(name: &'a [u8], dir: &[u8]) -> Option<&'a [u8]>
    ensures found { IfSome result (λ rest. name.now ≡ dir.now ++ 47 ∷ rest.now) }
    ensures none { IfNone result ((rest : List ℕ) → ¬ (name.now ≡ dir.now ++ 47 ∷ rest)) }
{
    let rest = name.strip_prefix(dir)?;
    let (first, below) = rest.split_first()?;
    if *first == b'/' { Some(below) } else { None }
}

/// Whether it is one part of a name, which comes after that one.
fn is_later(part: &[u8], after: &[u8]) -> bool
    ensures { IsTrue result ↔ IsLater after.now part.now }
{
    !part.contains(&b'/') && part.len() <= 255 && after.cmp(part).is_lt()
}

/// The part of this name in the directory, if it is a later one.
fn part_after<'a>(name: &'a [u8], dir: &[u8], after: &[u8]) -> Option<&'a [u8]>
    ensures some { IfSome result (λ part. (name.now ≡ dir.now ++ 47 ∷ part.now) × IsLater after.now part.now) }
    ensures none { IfNone result ((part : List ℕ) → name.now ≡ dir.now ++ 47 ∷ part → ¬ (IsLater after.now part)) }
{
    let part = below(name, dir)?;
    if is_later(part, after) {
        Some(part)
    } else {
        None
    }
}

/// The lesser of two parts.
fn lesser_of<'a>(one: &'a [u8], other: &'a [u8]) -> &'a [u8]
    ensures either { (result.now ≡ other.now) ⊎ (result.now ≡ one.now) }
    ensures one { is_gt (slice_cmp nat_cmp result.now one.now) ≡ false }
    ensures other { is_gt (slice_cmp nat_cmp result.now other.now) ≡ false }
{
    if one.cmp(other).is_le() { one } else { other }
}

/// The lesser of the least part so far and this one.
fn lesser<'a>(least: Option<&'a [u8]>, part: &'a [u8]) -> &'a [u8]
    ensures one { (result.now ≡ part.now) ⊎ (option_copied least.entry ≡ Some result.now) }
    ensures part { is_gt (slice_cmp nat_cmp result.now part.now) ≡ false }
    ensures least { IfSome least.entry (λ before. is_gt (slice_cmp nat_cmp result.now before.now) ≡ false) }
{
    match least {
        Some(before) => lesser_of(before, part),
        None => part,
    }
}

/// The least part in a directory after that one.
pub fn next<'a>(names: &'a [(ByteText, u64)], dir: &[u8], after: &[u8]) -> Option<&'a [u8]>
    ensures { IsLeastPart names.now dir.now after.now (option_copied result) }
{
    let mut least = None;
    for one in names {
        if let Some(part) = part_after(one.0.as_slice(), dir, after) {
            least = Some(lesser(least, part));
        }
    }
    least
}
