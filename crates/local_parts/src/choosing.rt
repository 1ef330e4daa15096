// Which instructions are followed.
ghost use Rattle.std.specs.Prelude.{◌≡◌, IfOk};
ghost use Rattle.local_parts.specs.Choosing.{chosen_by, file_name};

use crate::{LocalArgs, Names};
use dot_qmail::{ChooseError, Chosen, choose};
use mail_bytes::{ByteText, Memory};
use std::alloc::{AllocError, Global};

/// What handles the address, among the names of the home; `None` if nothing does. Fails only if out of memory.
pub fn chosen_by(alloc: Global, args: &LocalArgs, names: &Names) -> Result<Option<Chosen>, Memory>
    ensures { IfOk result (λ it. it ≡ chosen_by args.now names.now) }
{
    match choose(
        alloc,
        names.as_slice(),
        args.dash.as_slice(),
        args.ext.as_slice(),
    ) {
        Ok(it) => Ok(Some(it)),
        Err(ChooseError::NoMailbox) => Ok(None),
        Err(ChooseError::Memory) => Err(AllocError),
    }
}

/// The name of the home's file that stands there among its names. Fails only if out of memory.
pub fn file_name(
    alloc: Global,
    args: &LocalArgs,
    names: &Names,
    place: usize,
) -> Result<ByteText, Memory>
    ensures { IfOk result (λ name. name ≡ file_name args.now names.now place) }
{
    let mut name = ByteText::from_slice(alloc, args.home.as_slice())?;
    name.extend(b"/")?;
    name.extend(names.name(place))?;
    Ok(name)
}
