// The form of a file's name.
ghost use Rattle.std.specs.Prelude.{◌≡◌, ◌↔◌, IsTrue};
ghost use Rattle.call_fs.specs.Names.{IsPart, AreParts, IsName, without_slash};

/// Whether it is the name of a file: parts with a `/` between each two, and maybe one before the first. Which names a
/// disk holds only a disk can tell; a directory is no name.
pub fn is_name(name: &[u8]) -> bool
    ensures { IsTrue result ↔ IsName name.now }
{
    are_parts(without_slash(name))
}

/// Whether it is parts of a name with a `/` between each two.
pub fn are_parts(text: &[u8]) -> bool
    ensures { IsTrue result ↔ AreParts text.now }
{
    text.split(|byte| *byte == b'/').all(|part| is_part(part))
}

/// Whether it is one part of a name: 1 to 255 bytes, none of them NUL. A `/` isn't looked for.
pub fn is_part(part: &[u8]) -> bool
    ensures { IsTrue result ↔ IsPart part.now }
{
    !part.is_empty() && part.len() <= 255 && !part.contains(&0)
}

/// A name without the `/` before its first part.
fn without_slash(name: &[u8]) -> &[u8]
    ensures { result.now ≡ without_slash name.now }
{
    match name.split_first() {
        Some((first, rest)) if *first == b'/' => rest,
        _ => name,
    }
}
