// The files of the lists, by number: a number that isn't listed has an empty file.
ghost use Rattle.std.specs.Prelude.{◌≡◌, IfOk, OnOk, OnErr, length};
ghost use Rattle.mail_bytes.specs.Moments.{IsMoment};
ghost use Rattle.call_fs.specs.Apply.{empty_file, grown, overwritten, cut, synced};
ghost use Rattle.mem_files.specs.MemFiles.{file_at};
ghost use Rattle.call_runs.specs.Lists.{uncounted, Changes};

use crate::pairs::place_of;
use crate::plain_file::PlainFile;
use mail_bytes::Memory;
use std::alloc::Global;

/// The numbers with their files.
type Files = Vec<(u64, PlainFile)>;

/// An empty file, at whose end bytes were written.
fn grown(alloc: Global, now: u64, bytes: &[u8]) -> Result<PlainFile, Memory>
    requires { IsMoment now }
    ensures { IfOk result (λ file. file ≡ grown now bytes.now (empty_file 0)) }
{
    let mut file = PlainFile::new(alloc, 0);
    file.append(now, bytes)?;
    Ok(file)
}

/// An empty file, of which bytes were to overwrite what lies below its length.
fn overwritten(alloc: Global, now: u64, place: usize, bytes: &[u8]) -> Result<PlainFile, Memory>
    requires { IsMoment now }
    ensures { IfOk result (λ file. file ≡ overwritten now place bytes.now (empty_file 0)) }
{
    let mut file = PlainFile::new(alloc, 0);
    file.overwrite(now, place, bytes)?;
    Ok(file)
}

/// Writes bytes at the end of a file. After an `Err` all is as before. The condition: `now` is a moment.
pub fn append(
    files: &mut Files,
    alloc: Global,
    number: u64,
    now: u64,
    bytes: &[u8],
) -> Result<(), Memory>
    requires { IsMoment now }
    ensures ok { OnOk result (Changes files.old.items files.new.items number (grown now bytes.now)) }
    ensures err { OnErr result (files.new.items ≡ files.old.items) }
{
    if let Some(at) = place_of(files, number) {
        let entry = &mut files[at];
        return entry.1.append(now, bytes);
    }
    let file = grown(alloc, now, bytes)?;
    files.push((number, file))?;
    Ok(())
}

/// Overwrites what lies below the length of a file. After an `Err` all is as before. The condition: `now` is a moment.
pub fn overwrite(
    files: &mut Files,
    alloc: Global,
    number: u64,
    now: u64,
    place: usize,
    bytes: &[u8],
) -> Result<(), Memory>
    requires { IsMoment now }
    ensures ok { OnOk result (Changes files.old.items files.new.items number (overwritten now place bytes.now)) }
    ensures err { OnErr result (files.new.items ≡ files.old.items) }
{
    if let Some(at) = place_of(files, number) {
        let entry = &mut files[at];
        return entry.1.overwrite(now, place, bytes);
    }
    let file = overwritten(alloc, now, place, bytes)?;
    files.push((number, file))?;
    Ok(())
}

/// Cuts a file. One that isn't listed is empty already.
pub fn cut(files: &mut Files, number: u64, len: usize)
    ensures { Changes files.old.items files.new.items number (cut len) }
{
    if let Some(at) = place_of(files, number) {
        let entry = &mut files[at];
        entry.1.cut(len);
    }
}

/// All bytes of a file are on the disk. One that isn't listed has none.
pub fn sync(files: &mut Files, number: u64)
    ensures { Changes files.old.items files.new.items number synced }
{
    if let Some(at) = place_of(files, number) {
        let entry = &mut files[at];
        entry.1.sync();
    }
}

/// How many bytes a file has, and its moment.
pub fn size_of(files: &[(u64, PlainFile)], number: u64) -> (u64, u64)
    ensures length { result.0 ≡ length (file_at (uncounted files.now) number).bytes }
    ensures moment { result.1 ≡ (file_at (uncounted files.now) number).moment }
    ensures is_moment { IsMoment result.1 }
{
    match place_of(files, number) {
        Some(at) => {
            let file = &files[at].1;
            (file.len() as u64, file.moment())
        }
        None => (0, 0),
    }
}
