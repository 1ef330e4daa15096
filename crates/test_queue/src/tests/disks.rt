// Disks with chosen names, and what an audit tells of them.
use mail_bytes::{ByteText, Memory};
use mem_fs::MemFs;
use queue_states::{Audit, AuditError, State, audit};
use std::alloc::Global;

/// The directories of a queue, 142 in all.
pub fn directories(alloc: Global) -> Result<Vec<ByteText>, Memory> {
    let mut dirs = Vec::new(alloc);
    for dir in ["pid", "intd", "todo", "bounce"] {
        dirs.push(ByteText::from_slice(alloc, dir.as_bytes())?)?;
    }
    for dir in ["mess", "info", "local", "remote", "intdx", "todox"] {
        for split in 0..23u64 {
            let name = format!(in alloc; "{dir}/{split}")?;
            dirs.push(ByteText::from_slice(alloc, name.as_bytes())?)?;
        }
    }
    Ok(dirs)
}

/// A disk with these directories except one, and these names, each of an empty file, whose calls of these indexes fail.
pub fn disk_of(
    alloc: Global,
    dirs: &[ByteText],
    without: &[u8],
    names: &[ByteText],
    fails: Vec<u64>,
) -> MemFs {
    let mut disk = MemFs::new(alloc, Vec::new(alloc), fails).unwrap();
    for dir in dirs {
        add_dir(alloc, &mut disk, dir.as_slice(), without);
    }
    for name in names {
        let _ = disk.place(alloc, name.as_slice(), b"");
    }
    disk
}

/// Adds a directory, unless it is the one that is left out.
fn add_dir(alloc: Global, disk: &mut MemFs, dir: &[u8], without: &[u8]) {
    if dir != without {
        let _ = disk.dir(alloc, dir);
    }
}

/// Texts that a value owns.
pub fn owned(alloc: Global, texts: &[&str]) -> Result<Vec<ByteText>, Memory> {
    let mut all = Vec::new(alloc);
    for text in texts {
        all.push(ByteText::from_slice(alloc, text.as_bytes())?)?;
    }
    Ok(all)
}

/// What an audit of a disk tells: its lines, or why there is none.
pub fn audit_of(alloc: Global, mut disk: MemFs) -> Result<String, Memory> {
    shown(alloc, audit(alloc, &mut disk, 0))
}

/// What came of an audit, as a text.
fn shown(alloc: Global, outcome: Result<Audit, AuditError>) -> Result<String, Memory> {
    match outcome {
        Ok(audit) => lines_of(alloc, &audit),
        Err(AuditError::Fault) => String::from_str(alloc, "fault"),
        Err(AuditError::Memory) => String::from_str(alloc, "memory"),
        Err(AuditError::Missing(dir)) => missing(alloc, dir.as_slice()),
    }
}

/// The lines of an audit.
fn lines_of(alloc: Global, audit: &Audit) -> Result<String, Memory> {
    let pids = audit.pids;
    let mut text = format!(in alloc; "pid {pids}\n")?;
    for (number, state) in audit.states.as_slice() {
        let line = format!(in alloc; "{number} {}\n", word_of(*state))?;
        text.push_str(line.as_str())?;
    }
    Ok(text)
}

/// The name of a state.
fn word_of(state: State) -> &'static str {
    match state {
        State::S1 => "S1",
        State::S2 => "S2",
        State::S3 => "S3",
        State::S4 => "S4",
        State::S5 => "S5",
        State::Other => "other",
    }
}

/// That a directory is missing.
fn missing(alloc: Global, dir: &[u8]) -> Result<String, Memory> {
    let mut text = String::from_str(alloc, "missing ")?;
    for byte in dir {
        text.push(char::from(*byte))?;
    }
    Ok(text)
}
