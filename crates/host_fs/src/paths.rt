// Names of files, and the paths that the system is handed for them.
ghost use Rattle.std.specs.Prelude.{◌≡◌, ◌↔◌, IfOk, IfSome, IfNone, IsTrue, IsErrOf, string_bytes};
ghost use Rattle.std.specs.Str.{IsUtf8};
ghost use Rattle.call_fs.specs.Names.{IsName};
ghost use Rattle.host_fs.specs.Names.{IsPath, IsRoot, is_of_machine, path_text};

use call_fs::{FsError, is_name};
use std::alloc::Global;
use std::str;

/// The path of a name under this root; one that begins with `/` is a path of the machine as it stands. `Fault` exactly
/// when there is none: the name isn't one or isn't UTF-8, or it stands under a root that isn't a path. Else only
/// `Memory` comes.
pub fn path_of(alloc: Global, root: &[u8], name: &[u8]) -> Result<String, FsError>
    ensures ok { IfOk result (λ path. string_bytes path ≡ path_text root.now name.now) }
    ensures fault { IsErrOf result FsError.Fault ↔ ¬ (IsPath root.now name.now) }
    ensures not_there { ¬ (IsErrOf result FsError.NotThere) }
    ensures exists { ¬ (IsErrOf result FsError.Exists) }
{
    let Some(text) = name_text(name) else {
        return Err(FsError::Fault);
    };
    if is_of_machine(name) {
        return Ok(String::from_str(alloc, text)?);
    }
    let Some(root) = root_text(root) else {
        return Err(FsError::Fault);
    };
    let mut path = String::from_str(alloc, root)?;
    path.push('/')?;
    path.push_str(text)?;
    Ok(path)
}

/// A name as text; None exactly if it isn't one, or isn't UTF-8.
fn name_text(name: &[u8]) -> Option<&str>
    ensures some { IfSome result (λ text. (text.now ≡ name.now) × IsName name.now × IsUtf8 name.now) }
    ensures none { IfNone result (¬ (IsName name.now × IsUtf8 name.now)) }
{
    if !is_name(name) {
        return None;
    }
    str::from_utf8(name).ok()
}

/// The root as text; None exactly if it is no path.
pub fn root_text(root: &[u8]) -> Option<&str>
    ensures some { IfSome result (λ text. (text.now ≡ root.now) × IsRoot root.now) }
    ensures none { IfNone result (¬ (IsRoot root.now)) }
{
    if root.is_empty() || root.contains(&0) {
        return None;
    }
    str::from_utf8(root).ok()
}

/// Whether it is a path of the machine.
fn is_of_machine(name: &[u8]) -> bool
    ensures { result ≡ is_of_machine name.now }
{
    match name.split_first() {
        Some((first, _)) => *first == b'/',
        None => false,
    }
}
