// Which .qmail file of a home handles an address.
ghost use Rattle.std.specs.Prelude.{◌≡◌, ◌++◌, ◌==◌, Some, None, map, position, codes, bytes_eq, IfOk, IfErr, if◌then◌else◌};
ghost use Rattle.dot_qmail.specs.Choice.{chosen, dot_name, safe_byte, safe, IsChooseFault};

use crate::rank::best_name;
use mail_bytes::{ByteText, Memory};
use std::alloc::{AllocError, Global};
use thiserror::Error;

/// What handles an address.
#[derive(Clone, Copy, PartialEq, Eq)]
pub enum Chosen {
    /// The file whose name stands at this place among the names.
    File(usize),
    /// The default delivery line.
    Default,
}

/// Why no file handles an address.
#[derive(Clone, Copy, Debug, PartialEq, Eq, Error)]
pub enum ChooseError {
    /// The home has no file for it.
    #[error("no mailbox here by that name")]
    NoMailbox,
    /// Out of memory.
    #[error("out of memory")]
    Memory,
}

impl From<AllocError> for ChooseError {
    ghost use Rattle.std.specs.Prelude.{◌≡◌};
    ghost use Rattle.dot_qmail.specs.declared.choice.ChooseError.TheVariants.{Memory};

    ghost from_gives = { λ _ why. why ≡ Memory };

    fn from(_: AllocError) -> Self {
        ChooseError::Memory
    }
}

/// The file that handles an address, among the names of a home (dot-qmail(5), "Extension addresses"). In `ext` upper case
/// becomes lower case and dots become colons. Without a dash it is `.qmail`, and the default delivery line if that is
/// missing. With one it is `.qmail`, the dash and ext; else the first that is there of the names `.qmail`, the dash, a stem
/// and `default`, for each prefix of ext that ends in `-`, the longest first, and for the empty one. Of equal names the first
/// counts. It takes time for each byte of the names once.
///
/// `NoMailbox` exactly if there is a dash and none of these names.
pub fn choose(
    alloc: Global,
    names: &[ByteText],
    dash: &[u8],
    ext: &[u8],
) -> Result<Chosen, ChooseError>
    ensures ok { IfOk result (λ it. chosen names.now dash.now ext.now ≡ Some it) }
    ensures err { IfErr result (IsChooseFault names.now dash.now ext.now) }
{
    if dash.is_empty() {
        return Ok(match place_of(names, b".qmail") {
            Some(place) => Chosen::File(place),
            None => Chosen::Default,
        });
    }
    let full = full_name(alloc, dash, ext)?;
    match best_name(names, full.as_slice(), 6 + dash.len()) {
        Some(top) => Ok(Chosen::File(top.place)),
        None => Err(ChooseError::NoMailbox),
    }
}

/// The place of a name.
fn place_of(names: &[ByteText], name: &[u8]) -> Option<usize>
    ensures { result ≡ position (λ it. bytes_eq it name.now) names.now }
{
    names.iter().position(|it| it.as_slice() == name)
}

/// The name of the file for a dash and ext: `.qmail`, the dash, and ext with lower case for upper case and colons for dots.
/// Fails only if out of memory.
pub fn full_name(alloc: Global, dash: &[u8], ext: &[u8]) -> Result<Vec<u8>, Memory>
    ensures { IfOk result (λ full. full.items ≡ dot_name dash.now (safe ext.now)) }
{
    let mut full = Vec::from_slice(alloc, b".qmail")?;
    full.extend_from_slice(dash)?;
    for byte in ext {
        full.push(safe_byte(*byte))?;
    }
    Ok(full)
}

/// A byte of an address as it stands in a file's name.
fn safe_byte(byte: u8) -> u8
    ensures { result ≡ safe_byte byte }
{
    if byte == b'.' {
        b':'
    } else {
        byte.to_ascii_lowercase()
    }
}
