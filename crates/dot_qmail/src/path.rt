// Where a path of a .qmail file leads.
ghost use Rattle.std.specs.Prelude.{◌≡◌, IfOk};
ghost use Rattle.dot_qmail.specs.Paths.{path_in, without_dot};

use mail_bytes::{ByteText, Memory};
use std::alloc::Global;

/// Where a path leads that a `.qmail` file of this home tells: one that begins with `/` is as it stands; of any other one
/// leading `./` is dropped, and the home and `/` go before it. The error: out of memory.
pub fn path_in(alloc: Global, home: &[u8], path: &[u8]) -> Result<ByteText, Memory>
    ensures { IfOk result (λ text. text ≡ path_in home.now path.now) }
{
    if path.starts_with(b"/") {
        return ByteText::from_slice(alloc, path);
    }
    let mut text = ByteText::from_slice(alloc, home)?;
    text.extend(b"/")?;
    text.extend(without_dot(path))?;
    Ok(text)
}

/// A path without one leading `./`.
fn without_dot(path: &[u8]) -> &[u8]
    ensures { result.now ≡ without_dot path.now }
{
    if path.starts_with(b"./") {
        &path[2..]
    } else {
        path
    }
}
