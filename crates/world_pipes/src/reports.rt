// The reports of remote programs.
ghost use Rattle.std.specs.Prelude.{◌≡◌, ◌<◌, IfOk, OnOk, OnErr, length};
ghost use Rattle.world_pipes.specs.Mouths.{IsSame, HasReport, report_text};

use crate::Mouths;
use call_fs::Port;
use mail_bytes::Memory;
use std::alloc::Global;

/// The remote program in this slot ends with the output that its report stands for. The condition: there is such a slot.
/// The error: out of memory.
pub fn put_report(
    alloc: Global,
    mouths: &mut Mouths,
    slot: u8,
    letter: u8,
    text: &[u8],
) -> Result<(), Memory>
    requires { slot < length mouths.old.slots.items }
    ensures ok { OnOk result (HasReport mouths.old mouths.new slot (report_text letter text.now)) }
    ensures err { OnErr result (IsSame mouths.old mouths.new) }
{
    let output = output_of(alloc, letter, text)?;
    let port = Port::Program(slot);
    mouths.make_room(port, output.len())?;
    mouths.give(port, &output);
    mouths.close(port);
    mouths.end(slot);
    Ok(())
}

/// What a remote program with this report puts out.
fn output_of(alloc: Global, letter: u8, text: &[u8]) -> Result<Vec<u8>, Memory>
    ensures { IfOk result (λ output. output.items ≡ report_text letter text.now) }
{
    let mut output = Vec::from_slice(alloc, b"r\0")?;
    output.push(letter)?;
    output.extend_from_slice(text)?;
    output.push(0)?;
    Ok(output)
}
