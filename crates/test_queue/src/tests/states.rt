// The state of each combination of files.
use super::disks::{audit_of, directories, disk_of};
use mail_bytes::{ByteText, Memory};
use std::alloc::Global;
use std::test::Fail;

/// The table of states, by mess, intd, todo, info, local, remote and bounce: there, not there, or either.
const TABLE: [(&str, &str); 4] = [
    ("S2", "+------"),
    ("S3", "++-----"),
    ("S4", "+?+???-"),
    ("S5", "+--+???"),
];

/// The directories of a message's files: which file, whether there are splits, and in which layouts of a number it is: flat,
/// split or both.
const FILES: [(usize, &str, bool, &str); 9] = [
    (0, "mess", true, "fsb"),
    (1, "intd", false, "fb"),
    (1, "intdx", true, "sb"),
    (2, "todo", false, "fb"),
    (2, "todox", true, "sb"),
    (3, "info", true, "fsb"),
    (4, "local", true, "fsb"),
    (5, "remote", true, "fsb"),
    (6, "bounce", false, "fsb"),
];

/// Whether a combination has the file of this place: a bit for each.
fn has(combination: u64, place: usize) -> bool {
    let mut bits = combination;
    for _ in 0..place {
        bits /= 2;
    }
    bits % 2 == 1
}

/// Whether a combination is one of this row.
fn fits(combination: u64, row: &str) -> bool {
    for (place, mark) in row.bytes().enumerate() {
        if (mark == b'+' && !has(combination, place)) || (mark == b'-' && has(combination, place)) {
            return false;
        }
    }
    true
}

/// The word of a combination's state.
fn word_of(combination: u64) -> &'static str {
    for (word, row) in &TABLE {
        if fits(combination, row) {
            return *word;
        }
    }
    "other"
}

/// The layout of a number: flat below 128, then split, then both.
fn layout_of(number: u64) -> u8 {
    match number / 128 {
        0 => b'f',
        1 => b's',
        _ => b'b',
    }
}

/// Adds the names of a number's files: numbers K, K + 128 and K + 256 have those of combination K, each in its layout.
fn add_names(alloc: Global, number: u64, names: &mut Vec<ByteText>) -> Result<(), Memory> {
    let layout = layout_of(number);
    for (place, dir, splits, layouts) in &FILES {
        if has(number % 128, *place) && layouts.bytes().any(|one| one == layout) {
            let name = if *splits {
                format!(in alloc; "{dir}/{}/{number}", number % 23)?
            } else {
                format!(in alloc; "{dir}/{number}")?
            };
            names.push(ByteText::from_slice(alloc, name.as_bytes())?)?;
        }
    }
    Ok(())
}

/// What an audit of all combinations tells, and what it is to tell.
fn all(alloc: Global) -> Result<(String, String), Memory> {
    let mut names = Vec::new(alloc);
    let mut expected = String::from_str(alloc, "pid 0\n")?;
    for number in 1..384u64 {
        if number % 128 != 0 {
            add_names(alloc, number, &mut names)?;
            let line = format!(in alloc; "{number} {}\n", word_of(number % 128))?;
            expected.push_str(line.as_str())?;
        }
    }
    let dirs = directories(alloc)?;
    let told = audit_of(alloc, disk_of(alloc, &dirs, b"", &names, Vec::new(alloc)))?;
    Ok((told, expected))
}

#[test]
fn each_combination_has_its_state(rt: HostRuntime) -> Result<(), Fail> {
    let (told, expected) = all(rt.alloc())?;
    assert_eq!(rt; told.as_str(), expected.as_str());
    Ok(())
}
