// Names of one directory.
ghost use Rattle.std.specs.Prelude.{◌≡◌, ◌≤◌, ◌++◌, ◌∷◌, List, ℕ, Contains, IfSome, IfNone, IsTrue, ◌↔◌, ◌==◌, length, position};
ghost use Rattle.std.specs.Ordering.{nat_cmp, ordering_then};
ghost use Rattle.std.specs.Cmp.Lexicographic.{slice_cmp};
ghost use Rattle.call_fs.specs.Disk.{dir_of};

use mail_bytes::ByteText;
use std::cmp::Ordering;

/// Whether this is one of the directories.
pub fn is_dir(dirs: &[ByteText], dir: &[u8]) -> bool
    ensures { IsTrue result ↔ Contains dirs.now dir.now }
{
    dirs.iter().any(|d| d.is(dir))
}

/// What stands before the last `/`.
pub fn dir_of(name: &[u8]) -> &[u8]
    ensures { result.now ≡ dir_of name.now }
{
    let mut end = name.len();
    while end > 0 && name[end - 1] != b'/' {
        end -= 1;
    }
    &name[..end.saturating_sub(1)]
}

/// What stands after the directory and a `/`.
pub fn below<'a>(name: &'a [u8], dir: &[u8]) -> Option<&'a [u8]>
    ensures found { IfSome result (λ rest. name.now ≡ dir.now ++ 47 ∷ rest.now) }
    ensures none { IfNone result ((rest : List ℕ) → ¬ (name.now ≡ dir.now ++ 47 ∷ rest)) }
{
    let rest = name.strip_prefix(dir)?;
    let (first, below) = rest.split_first()?;
    if *first == b'/' { Some(below) } else { None }
}

/// Whether it can be one part of a name.
pub fn is_part(text: &[u8]) -> bool
    ensures { IsTrue result ↔ ((¬ (Contains text.now 47)) × (length text.now ≤ 255)) }
{
    text.len() <= 255 && !text.contains(&b'/')
}

/// The place of the first `/`.
pub fn place_of_slash(text: &[u8]) -> Option<usize>
    ensures { result ≡ position (λ b. b == 47) text.now }
{
    text.iter().position(|b| *b == b'/')
}

/// How a name compares with the name of a part in a directory.
pub fn compare(name: &[u8], dir: &[u8], part: &[u8]) -> Ordering
    ensures { result ≡ slice_cmp nat_cmp name.now (dir.now ++ 47 ∷ part.now) }
{
    let (start, rest) = name.split_at(name.len().min(dir.len()));
    start.cmp(dir).then(compare_rest(rest, part))
}

/// How the rest of a name compares with a `/` and a part.
fn compare_rest(rest: &[u8], part: &[u8]) -> Ordering
    ensures { result ≡ slice_cmp nat_cmp rest.now (47 ∷ part.now) }
{
    match rest.split_first() {
        Some((first, tail)) => first.cmp(&b'/').then(tail.cmp(part)),
        None => Ordering::Less,
    }
}
