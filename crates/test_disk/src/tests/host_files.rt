// Rows over real files, in a directory that nothing else uses.
use super::host_steps::{add_if_wrong, bytes, see, see_text};
use call_fs::{Call, CallFs, How};
use host_fs::HostFs;
use std::alloc::Global;
use std::fs::{File, FileTimes};
use std::os::unix::fs::MetadataExt;
use std::time::{Duration, SystemTime, UNIX_EPOCH};
use std::{env, fs, process, thread};

/// A disk over real files.
type Host = HostFs<HostRuntime>;

// Each row is a call, and what is seen; numbers and moments of files are 0 there.

/// Two descriptors at once, a file that gets a second name, is cut and grows again, and one that is opened anew.
const FILES: &str = "create pid/77.0.1 | created 0 0
create pid/2 | created 1 0
append 0 hello%20 | done
append 1 second | done
append 0 world | done
sync 0 | done
read 0 3 4 | read lo w
read 1 0 9 | read second
create pid/77.0.1 | Exists
create no/1 | NotThere
link pid/77.0.1 mess/1/1 | done
link pid/77.0.1 mess/1/1 | Exists
link pid/1.0.1 mess/1/1 | NotThere
link pid/77.0.1 mess/23/1 | NotThere
unlink pid/77.0.1 | done
unlink pid/77.0.1 | NotThere
open_read pid/77.0.1 | NotThere
stat pid/77.0.1 | NotThere
stat pid/2/3 | NotThere
stat mess/1/1 | file 0 11 0
cut 0 100 | done
stat mess/1/1 | file 0 11 0
cut 0 5 | done
stat mess/1/1 | file 0 5 0
append 0 ! | done
read 0 0 9 | read hello!
close 0 | done
open_write mess/1/1 | opened 0
write 0 3 abcdef | done
write 0 9 abcdef | done
close 0 | done
open_append mess/1/1 | opened 0
append 0 ! | done
close 0 | done
open_read mess/1/1 | opened 0
read 0 0 16 | read helabc!
read 0 7 16 | read 
read 0 18446744073709551615 16 | read 
append 0 ! | Fault 1
write 0 0 ! | Fault 2
cut 0 0 | Fault 3
close 0 | done
close 0 | done
read 0 0 1 | Fault 4
sync 0 | Fault 5";

/// The names of a directory come in byte order, without its directories.
const NAMES: &str = "create todo/9 | created 0 0
create todo/10 | created 1 0
create todo/100 | created 2 0
create todo/2 | created 3 0
next todo | name 10
next todo 10 | name 100
next todo 100 | name 2
next todo 2 | name 9
next todo 9 | no name
next mess | no name
next no | NotThere
next todo/9 | NotThere";

/// Of a directory at rest each search finds what is there then, though its names are kept; and what was made since. After
/// each `pause` it is at rest.
const AT_REST: &str = "pause
create todo/2 | created 0 0
create todo/4 | created 1 0
next todo 2 | name 4
pause
next todo | name 2
next todo 2 | name 4
next todo 4 | no name
next todo | name 2
create todo/3 | created 2 0
next todo 2 | name 3
next todo 3 | name 4
pause
next todo | name 2
next todo 2 | name 3
unlink todo/3 | done
next todo 2 | name 4
link todo/2 todo/5 | done
next todo 4 | name 5
next mess | no name";

/// A little more than the time that a directory has to be at rest before its names are kept, in milliseconds.
const PAUSE: u64 = 2100;

/// A device is no file.
const FULL: &str = "open_append /dev/full | Fault 1
append 0 ! | Fault 2
sync 0 | Fault 3
open_write /dev/full | Fault 4
sync 1 | Fault 5";

/// What is done over a disk.
#[derive(Clone, Copy)]
enum Deed<'a> {
    /// Rows are played.
    Rows(&'a str),
    /// Six calls are made of a name that isn't a file's.
    Faults(&'a [u8]),
}

/// Plays rows, and adds what went otherwise.
fn play(rt: &HostRuntime, disk: &mut Host, rows: &str, wrong: &mut String) {
    for row in rows.lines() {
        if row == "pause" {
            thread::sleep(rt, Duration::from_millis(PAUSE));
        } else {
            play_row(rt.alloc(), disk, row, wrong);
        }
    }
}

/// Plays a row, and adds what went otherwise.
fn play_row(alloc: Global, disk: &mut Host, row: &str, wrong: &mut String) {
    let (call, wanted) = row.split_once(" | ").unwrap_or((row, "nothing"));
    let seen = see_text(alloc, disk, call, false);
    add_if_wrong(wrong, seen.as_str(), wanted);
    drop(seen);
}

/// Adds what is otherwise of the faults that six calls make of a name that isn't a file's, beside a file `todo/9`.
fn make_faults(alloc: Global, disk: &mut Host, name: &[u8], wrong: &mut String) {
    play_row(alloc, disk, "create todo/9 | created 0 0", wrong);
    for (call, wanted) in [
        (Call::CreateExcl(name), "Fault 1"),
        (Call::Open(name, How::Read), "Fault 2"),
        (Call::Link(b"todo/9", name), "Fault 3"),
        (Call::Link(name, b"todo/3"), "Fault 4"),
        (Call::Unlink(name), "Fault 5"),
        (Call::Stat(name), "Fault 6"),
    ] {
        let seen = see(alloc, disk, call, false);
        add_if_wrong(wrong, seen.as_str(), wanted);
        drop(seen);
    }
}

/// Does this over a new disk in this directory, and adds what went otherwise; whether it can be opened.
fn does_in(rt: &HostRuntime, root: &str, deed: Deed<'_>, wrong: &mut String) -> bool {
    match HostFs::open(rt, rt.alloc(), root.as_bytes()) {
        Ok(mut disk) => {
            match deed {
                Deed::Rows(rows) => play(rt, &mut disk, rows, wrong),
                Deed::Faults(name) => make_faults(rt.alloc(), &mut disk, name, wrong),
            }
            drop(disk);
            true
        }
        Err(_) => false,
    }
}

/// A path that nothing else uses; an empty one, where nothing can be made, if it can't be told.
pub fn scratch(rt: &HostRuntime, what: &str) -> String {
    match told_path(rt, what) {
        Some(path) => path,
        None => String::new(rt.alloc()),
    }
}

/// As `scratch`, if it can be told.
fn told_path(rt: &HostRuntime, what: &str) -> Option<String> {
    let nanos = since_1970(rt)?.as_nanos();
    let temp = env::temp_dir(rt).ok()?;
    let (temp, pid) = (temp.as_str(), process::id(rt.process()));
    format!(in rt.alloc(); "{temp}/{what}-{pid}-{nanos}").ok()
}

/// The time since 1970 by the system's clock.
pub fn since_1970(rt: &HostRuntime) -> Option<Duration> {
    SystemTime::now(rt).ok()?.duration_since(UNIX_EPOCH).ok()
}

/// Does this in a new directory, which is removed, and adds what went otherwise; whether that can be done.
fn does_alone(rt: &HostRuntime, what: &str, deed: Deed<'_>, wrong: &mut String) -> bool {
    let root = scratch(rt, what);
    let is_done = does_in(rt, root.as_str(), deed, wrong);
    let is_gone = fs::remove_dir_all(rt, root.as_str()).is_ok();
    drop(root);
    is_done & is_gone
}

#[test]
fn calls_on_real_files(rt: HostRuntime) {
    let mut wrong = String::new(rt.alloc());
    let mut are_made = true;
    for (what, rows) in [
        ("files", FILES),
        ("names", NAMES),
        ("full", FULL),
        ("at-rest", AT_REST),
    ] {
        are_made &= does_alone(&rt, what, Deed::Rows(rows), &mut wrong);
    }
    assert_eq!(rt; (are_made, wrong.as_str()), (true, ""));
}

/// Names that are no file's, the first of them empty.
const NO_FILES: &str = "
mess/1
todo//9
todo/
todo/%00
todo/%FF
aaaaaaaaaaaaaaaaaaaaaaaaaaaaaaaaaaaaaaaaaaaaaaaaaaaaaaaaaaaaaaaaaaaaaaaaaaaaaaaaaaaaaaaaaaaaaaaaaaaaaaaaaaaaaaaaaaaaaaaaaaaaaaaaaaaaaaaaaaaaaaaaaaaaaaaaaaaaaaaaaaaaaaaaaaaaaaaaaaaaaaaaaaaaaaaaaaaaaaaaaaaaaaaaaaaaaaaaaaaaaaaaaaaaaaaaaaaaaaaaaaaaaaaaaaaaaaaa";

/// A name that is too long, of parts that aren't.
fn long_name(alloc: Global) -> Vec<u8> {
    let mut long = Vec::new(alloc);
    for at in 0..4201 {
        let _ = long.push(if at % 100 == 99 { b'/' } else { b'a' });
    }
    long
}

/// Adds what is otherwise of the faults of each of these names; whether that can be done.
fn are_faults(rt: &HostRuntime, wrong: &mut String) -> bool {
    let long = long_name(rt.alloc());
    let mut are_made = does_alone(rt, "faults", Deed::Faults(&long), wrong);
    are_made &= long.len() == 4201;
    drop(long);
    for text in NO_FILES.lines() {
        let name = bytes(rt.alloc(), text);
        are_made &= does_alone(rt, "faults", Deed::Faults(&name), wrong);
        drop(name);
    }
    are_made
}

#[test]
fn a_name_that_is_no_file_is_a_fault(rt: HostRuntime) {
    let mut wrong = String::new(rt.alloc());
    let are_made = are_faults(&rt, &mut wrong);
    assert_eq!(rt; (are_made, wrong.as_str()), (true, ""));
}

/// The path of this name below that one; empty without memory for it.
pub fn below(rt: &HostRuntime, root: &str, name: &str) -> String {
    match format!(in rt.alloc(); "{root}/{name}") {
        Ok(path) => path,
        Err(_) => String::new(rt.alloc()),
    }
}

/// 1 if there is a directory with these rights, else 0.
fn is_made(rt: &HostRuntime, path: &str, rights: u32) -> u64 {
    match fs::metadata(rt, path) {
        Ok(metadata) => u64::from(metadata.mode() == rights),
        Err(_) => 0,
    }
}

/// The directories of a queue.
const TOPS: &str = "bounce control home info intd intdx local mess pid remote todo todox users";

/// How many splits a directory has.
fn splits_of(top: &str) -> u8 {
    match top {
        "info" | "intdx" | "local" | "mess" | "remote" | "todox" => 23,
        _ => 0,
    }
}

/// How many of so many splits below a directory, and of itself, are there with these rights.
fn made_of(rt: &HostRuntime, path: &str, splits: u8, rights: u32) -> u64 {
    let mut count = is_made(rt, path, rights);
    for split in 0..splits {
        if let Ok(split) = format!(in rt.alloc(); "{path}/{split}") {
            count = count.saturating_add(is_made(rt, split.as_str(), rights));
        }
    }
    count
}

/// How many of a queue's directories are below the root with these rights.
fn all_made(rt: &HostRuntime, root: &str, rights: u32) -> u64 {
    let mut count = 0u64;
    for top in TOPS.split_whitespace() {
        let path = below(rt, root, top);
        count = count.saturating_add(made_of(rt, path.as_str(), splits_of(top), rights));
        drop(path);
    }
    count
}

/// How many of a queue's directories are below the root with the rights that a new directory gets.
fn directories(rt: &HostRuntime, root: &str) -> u64 {
    let other = below(rt, root, "todo/other");
    let _ = fs::create_dir(rt, other.as_str());
    let count = match fs::metadata(rt, other.as_str()) {
        Ok(metadata) => all_made(rt, root, metadata.mode()),
        Err(_) => 0,
    };
    drop(other);
    count
}

/// How many entries the directory of this name has.
fn entries(rt: &HostRuntime, path: &str) -> usize {
    match fs::read_dir(rt, path) {
        Ok(names) => names.count(),
        Err(_) => 0,
    }
}

/// Takes some of a queue's directories away, to be made again; whether that can be done.
fn take_some(rt: &HostRuntime, root: &str) -> bool {
    let mut are_gone = true;
    for gone in ["intd", "mess/17", "remote/0", "users"] {
        let gone = below(rt, root, gone);
        are_gone &= fs::remove_dir(rt, gone.as_str()).is_ok();
        drop(gone);
    }
    are_gone
}

/// Whether a disk is opened in this directory, without a fault.
fn is_opened(rt: &HostRuntime, root: &str) -> bool {
    match HostFs::open(rt, rt.alloc(), root.as_bytes()) {
        Ok(disk) => {
            let is_well = disk.faults() == 0;
            drop(disk);
            is_well
        }
        Err(_) => false,
    }
}

/// Whether all of a queue's directories are made, also after some were taken away; and none besides at the top and in `mess`.
fn are_all_made(rt: &HostRuntime, root: &str) -> bool {
    let mut is_so = true;
    for _ in 0..2 {
        is_so = is_opened(rt, root) && take_some(rt, root) && is_so;
    }
    is_so &= is_opened(rt, root);
    let mess = below(rt, root, "mess");
    let counts = (
        directories(rt, root),
        entries(rt, root),
        entries(rt, mess.as_str()),
    );
    drop(mess);
    is_so & (counts == (151, 13, 23))
}

#[test]
fn all_directories_are_made(rt: HostRuntime) {
    let root = scratch(&rt, "directories");
    let is_so = are_all_made(&rt, root.as_str());
    let is_gone = fs::remove_dir_all(&rt, root.as_str()).is_ok();
    assert!(rt; is_so && is_gone);
}

/// Makes `pid/1` if it is new, and tells its number as it was made, 0 if it isn't new, its number by a stat, and its moment.
fn told_of(alloc: Global, disk: &mut Host, is_new: bool) -> Option<[u64; 3]> {
    let mut made = 0;
    if is_new {
        (_, made) = disk.create_excl(alloc, 0, b"pid/1").ok()?;
    }
    let stat = disk.stat(b"pid/1").ok()?;
    Some([made, stat.number, stat.moment])
}

/// The same, over a disk in this directory.
fn told_in(rt: &HostRuntime, root: &str, is_new: bool) -> Option<[u64; 3]> {
    match HostFs::open(rt, rt.alloc(), root.as_bytes()) {
        Ok(mut disk) => {
            let told = told_of(rt.alloc(), &mut disk, is_new);
            drop(disk);
            told
        }
        Err(_) => None,
    }
}

/// Sets the time of modification of a file; whether that can be done.
pub fn is_dated(rt: &HostRuntime, path: &str, time: Duration) -> bool {
    match (File::open(rt, path), UNIX_EPOCH.checked_add(time)) {
        (Ok(file), Some(time)) => file.set_times(FileTimes::new().set_modified(time)).is_ok(),
        _ => false,
    }
}

/// Whether the rights of this file are 0644, less what no new file gets, and both numbers are its inode's.
fn is_numbered(rt: &HostRuntime, path: &str, other: &str, made: u64, told: u64) -> bool {
    let is_written = fs::write(rt, other, "").is_ok();
    match (fs::metadata(rt, path), fs::metadata(rt, other)) {
        (Ok(found), Ok(any)) => {
            is_written
                && found.mode() & 0o777 == any.mode() & 0o644
                && found.ino() == made
                && made == told
        }
        _ => false,
    }
}

/// Whether a new `pid/1` of which this was told has its number and its rights, its moment is just now, and then the one that
/// was set.
fn is_as_told(rt: &HostRuntime, root: &str, now: u64, first: [u64; 3]) -> bool {
    let made = first[0];
    let told = first[1];
    let moment = first[2];
    let path = below(rt, root, "pid/1");
    let other = below(rt, root, "other");
    let is_numbered = is_numbered(rt, path.as_str(), other.as_str(), made, told);
    let is_dated = is_dated(rt, path.as_str(), Duration::from_secs(1_000_000_000));
    drop(path);
    drop(other);
    is_numbered
        & is_dated
        & (now <= moment.saturating_add(2) && moment <= now.saturating_add(60))
        & (told_in(rt, root, false) == Some([0, told, 1_000_000_000]))
}

/// Whether that is so of a new file.
fn is_as_made(rt: &HostRuntime, root: &str) -> bool {
    match (since_1970(rt), told_in(rt, root, true)) {
        (Some(now), Some(first)) => is_as_told(rt, root, now.as_secs(), first),
        _ => false,
    }
}

#[test]
fn a_new_file_has_its_number_its_rights_and_its_moment(rt: HostRuntime) {
    let root = scratch(&rt, "facts");
    let is_so = is_as_made(&rt, root.as_str());
    let is_gone = fs::remove_dir_all(&rt, root.as_str()).is_ok();
    assert!(rt; is_so && is_gone);
}
