// The start of a generation, and reports of its remote programs.
ghost use Rattle.std.specs.Prelude.{List, OnOk};
ghost use Rattle.call_fs.specs.Disk.{Disk};
ghost use Rattle.call_fs.specs.Plan.{Plan};
ghost use Rattle.scenario.specs.Deeds.{Deed};
ghost use Rattle.script_lines.specs.declared.line.Line.TheVariants as LineOf;
ghost use Rattle.script_lines.specs.declared.keyword.Alone.TheVariants as AloneOf;
ghost use Rattle.scenario.specs.Playing.{IsPlaying, HasPlayed};

use crate::refusing::put_refusal;
use crash_fs::CrashDisk;
use mail_bytes::{ByteText, Memory};
use mail_world::{World, WorldError};
use script_words::Letter;
use std::alloc::{AllocError, Global};

/// Starts a generation, or puts the line of its refusal at the end of a text, with the first member of the one before that lives.
pub fn begin(alloc: Global, world: &mut World<CrashDisk>, text: &mut Vec<u8>) -> Result<(), Memory>
    ensures { OnOk result ((d : Disk) (plan : Plan) (h : List Deed) → IsPlaying d world.old plan h
        → HasPlayed d world.new (LineOf.Alone AloneOf.Sender) text.old.items text.new.items plan h) }
{
    match world.start_generation(alloc) {
        Ok(()) => Ok(()),
        Err(WorldError::Alive(name)) => put_refusal(text, b"alive", name.as_slice()),
        // out of memory, and no other
        Err(_) => Err(AllocError),
    }
}

/// The remote program in a slot ends with this report, or the line of its refusal is put at the end of a text.
pub fn report(
    alloc: Global,
    world: &mut World<CrashDisk>,
    slot: u8,
    letter: Letter,
    told: &ByteText,
    text: &mut Vec<u8>,
) -> Result<(), Memory>
    ensures { OnOk result ((d : Disk) (plan : Plan) (h : List Deed) → IsPlaying d world.old plan h
        → HasPlayed d world.new (LineOf.Report slot letter told.now) text.old.items text.new.items plan h) }
{
    match world.report(alloc, slot, letter.byte(), told.as_slice()) {
        Ok(()) => Ok(()),
        Err(WorldError::NotWaiting(name)) => put_refusal(text, b"notwaiting", name.as_slice()),
        // out of memory, and no other
        Err(_) => Err(AllocError),
    }
}
