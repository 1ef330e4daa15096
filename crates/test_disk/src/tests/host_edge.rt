// Rows over real files of what only the system itself can show: what it tells of a file, its clock, symbolic links, a FIFO,
// reads of a file that is open for something else, a device that is full, the rights of a new file, and what a link leaves
// open.
use super::host_files::{below, is_dated, scratch, since_1970};
use call_fs::{CallFs, Fd, FsError, How};
use host_fs::{Facts, HostFs, Leaving, QueueFiles, System, start_helpers};
use mail_bytes::NameBuf;
use std::alloc::Global;
use std::fs::{File, Metadata};
use std::os::unix::fs::{MetadataExt, symlink};
use std::process::{Command, Stdio};
use std::sync::{Arc, Wait};
use std::thread::Threads;
use std::time::Duration;
use std::{env, fs};

/// What is looked at.
#[derive(Clone, Copy, Debug)]
enum Look {
    /// What the system tells of paths and open files, field by field.
    Facts,
    /// The clock.
    Clock,
    /// The names of a directory with symbolic links.
    Links,
    /// Opens of what is no regular file, or can't be looked at.
    Specials,
    /// Reads of files that are open to be written.
    Reads,
    /// A device that takes no bytes, and can't be synced.
    Full,
    /// How many files are open.
    Opens,
    /// Names that are taken away.
    Unlinks,
    /// The rights of a new file.
    Rights,
    /// A link when no more files can be open.
    Lack,
}

/// All of that but the last two.
const LOOKS: [Look; 8] = [
    Look::Facts,
    Look::Clock,
    Look::Links,
    Look::Specials,
    Look::Reads,
    Look::Full,
    Look::Opens,
    Look::Unlinks,
];

/// Whether that is so of a system, below this directory, which isn't there yet.
fn holds<S: System + Copy>(system: &S, rt: &HostRuntime, root: &str, look: Look) -> bool {
    match HostFs::open(system, rt.alloc(), root.as_bytes()) {
        Ok(mut disk) => {
            let is_so = holds_over(system, rt, root, look, &mut disk);
            drop(disk);
            is_so
        }
        Err(_) => false,
    }
}

/// Whether it is over this disk.
fn holds_over<S: System>(
    system: &S,
    rt: &HostRuntime,
    root: &str,
    look: Look,
    disk: &mut HostFs<S>,
) -> bool {
    match look {
        Look::Facts => are_told(system, rt, root),
        Look::Clock => is_now(system, rt),
        Look::Links => lists_files(rt, root, disk),
        Look::Specials => are_faults(rt, root, disk),
        Look::Reads => are_read(rt.alloc(), disk),
        Look::Full => is_full(system),
        Look::Opens => leaves_none_open(rt, disk),
        Look::Unlinks => are_unlinked(system, rt, root),
        Look::Rights => has_rights(rt, root, disk),
        Look::Lack => links_none(rt, disk),
    }
}

/// The first that isn't so of a system; None if all are so.
fn first_wrong<S: System + Copy>(system: &S, rt: &HostRuntime, looks: &[Look]) -> Option<Look> {
    for look in looks {
        let root = scratch(rt, "edge");
        let is_so = holds(system, rt, root.as_str(), *look);
        let is_gone = fs::remove_dir_all(rt, root.as_str()).is_ok();
        if !(is_so && is_gone) {
            return Some(*look);
        }
    }
    None
}

/// As `first_wrong`, of the files of a queue, whose last names threads let go of.
fn first_wrong_of_a_queue<R: Threads + Wait + Copy + Send + Drop + 'static>(
    rt: &HostRuntime,
    handle: R,
    looks: &[Look],
) -> Option<Look> {
    match Arc::new(rt.alloc(), Leaving::new(rt.alloc())) {
        Ok(leaving) => {
            let is_begun = start_helpers(handle, &leaving).is_ok();
            let files = QueueFiles::new(rt, handle, leaving);
            let wrong = first_wrong(&&files, rt, looks);
            drop(files);
            if is_begun { wrong } else { Some(Look::Unlinks) }
        }
        Err(_) => Some(Look::Unlinks),
    }
}

#[test]
fn the_system_is_asked_for_the_right_thing(rt: HostRuntime) {
    let wrong = first_wrong(&rt, &rt, &LOOKS);
    assert!(rt; wrong.is_none(), "{wrong:?}");
}

#[test]
fn the_files_of_a_queue_are_asked_for_the_right_thing(rt: HostRuntime) {
    let wrong = first_wrong_of_a_queue(&rt, rt, &LOOKS);
    assert!(rt; wrong.is_none(), "{wrong:?}");
}

/// Whether these facts are those of the file, field by field.
fn is_same(facts: Facts, found: &Metadata) -> bool {
    (facts.is_dir, facts.is_file) == (found.is_dir(), found.is_file())
        && (facts.number, facts.length) == (found.ino(), found.len())
        && (facts.modified, facts.modified_nanos) == (found.mtime(), found.mtime_nsec())
        && (facts.changed, facts.changed_nanos) == (found.ctime(), found.ctime_nsec())
}

/// Whether the system tells of this path, and of what is open by it, what the file system tells.
fn is_told<S: System>(system: &S, rt: &HostRuntime, path: &str) -> bool {
    let opened = system
        .open(path, How::Read)
        .and_then(|file| system.fstat(&file));
    match (system.stat(path), opened, fs::metadata(rt, path)) {
        (Ok(named), Ok(opened), Ok(found)) => is_same(named, &found) && is_same(opened, &found),
        _ => false,
    }
}

/// Whether an old file of three bytes, a directory, and links to both are told as they are.
fn are_told<S: System>(system: &S, rt: &HostRuntime, root: &str) -> bool {
    let mut is_so = true;
    for name in ["todo/1", "todo", "todo/2", "todo/3"] {
        let path = below(rt, root, name);
        is_so = is_made(rt, name, path.as_str()) && is_told(system, rt, path.as_str()) && is_so;
        drop(path);
    }
    is_so
}

/// Makes what stands at this path, if it isn't there.
fn is_made(rt: &HostRuntime, name: &str, path: &str) -> bool {
    match name {
        "todo/1" => fs::write(rt, path, "abc").is_ok()
            && is_dated(rt, path, Duration::new(1_000_000_000, 7)),
        "todo/2" => symlink(rt, "1", path).is_ok(),
        "todo/3" => symlink(rt, "../pid", path).is_ok(),
        _ => true,
    }
}

/// Whether the time that the system tells lies between two readings of its clock.
fn is_now<S: System>(system: &S, rt: &HostRuntime) -> bool {
    match (since_1970(rt), system.now(), since_1970(rt)) {
        (Some(before), Ok(now), Some(after)) => before <= now && now <= after,
        _ => false,
    }
}

/// A name that is asked for the next one, and that one, if there is one.
type Next = (&'static [u8], Option<&'static [u8]>);

/// Of a link to a directory, one to nothing, a file, a link to that, and a link to itself, these count as names.
const LISTED: [Next; 4] = [
    (b"", Some(b"3")),
    (b"3", Some(b"4")),
    (b"4", Some(b"5")),
    (b"5", None),
];

/// Whether `todo` lists its files, links to files, and what can't be looked at, alone.
fn lists_files<S: System>(rt: &HostRuntime, root: &str, disk: &mut HostFs<S>) -> bool {
    let mut is_so = true;
    for (name, to) in [
        ("todo/1", "../pid"),
        ("todo/2", "nothing"),
        ("todo/4", "3"),
        ("todo/5", "5"),
    ] {
        is_so = is_linked(rt, root, name, to) && is_so;
    }
    is_so = disk.create_excl(rt.alloc(), 0, b"todo/3").is_ok() && is_so;
    for (after, wanted) in LISTED {
        is_so = is_next(disk, after, wanted) && is_so;
    }
    is_so
}

/// Makes a link to this of this name; whether that can be done.
fn is_linked(rt: &HostRuntime, root: &str, name: &str, to: &str) -> bool {
    let path = below(rt, root, name);
    let is_so = symlink(rt, to, path.as_str()).is_ok();
    drop(path);
    is_so
}

/// Whether the next name of `todo` after that one is this.
fn is_next<S: System>(disk: &mut HostFs<S>, after: &[u8], wanted: Option<&[u8]>) -> bool {
    let mut name = NameBuf::new();
    match (disk.next_name(b"todo", after, &mut name), wanted) {
        (Ok(true), Some(wanted)) => name.as_slice() == wanted,
        (Ok(false), None) => true,
        _ => false,
    }
}

/// Makes a FIFO, a link to it, one to a device and one to itself; whether that can be done.
fn makes_specials(rt: &HostRuntime, root: &str) -> bool {
    let fifo = below(rt, root, "todo/1");
    let mut is_so = makes_fifo(rt, fifo.as_str());
    drop(fifo);
    for (name, to) in [("todo/2", "1"), ("todo/3", "/dev/zero"), ("todo/4", "4")] {
        is_so = is_linked(rt, root, name, to) && is_so;
    }
    is_so
}

/// Makes a FIFO of this path; whether that can be done.
fn makes_fifo(rt: &HostRuntime, path: &str) -> bool {
    match Command::new(rt.alloc(), "mkfifo") {
        Ok(mut program) => {
            let is_so = program.arg(path).is_ok() && succeeds(rt, &mut program);
            drop(program);
            is_so
        }
        Err(_) => false,
    }
}

/// Whether a command ends with 0. What it prints is lost.
fn succeeds(rt: &HostRuntime, program: &mut Command) -> bool {
    program.stdout(Stdio::null());
    program.stderr(Stdio::null());
    match program.status(rt) {
        Ok(status) => status.success(),
        Err(_) => false,
    }
}

/// Whether each open of this name is a fault, and is counted.
fn is_fault<S: System>(alloc: Global, disk: &mut HostFs<S>, name: &[u8]) -> bool {
    let mut is_so = true;
    for how in [How::Read, How::Append, How::Write] {
        let faults = disk.faults();
        is_so = disk.open(alloc, name, how) == Err(FsError::Fault) && is_so;
        is_so = disk.faults() == faults.saturating_add(1) && is_so;
    }
    is_so
}

/// Whether each of these is a fault, however it is opened, at once, and a file beside them is opened and found.
fn are_faults<S: System>(rt: &HostRuntime, root: &str, disk: &mut HostFs<S>) -> bool {
    let mut is_so = makes_specials(rt, root);
    for name in [b"todo/1", b"todo/2", b"todo/3", b"todo/4"] {
        is_so = is_fault(rt.alloc(), disk, name) && is_so;
    }
    is_so = disk.create_excl(rt.alloc(), 0, b"todo/5").is_ok() && is_so;
    is_so = disk.open(rt.alloc(), b"todo/5", How::Read).is_ok() && is_so;
    is_next(disk, b"4", Some(b"5")) && is_so
}

/// Whether a device without room refuses bytes at its end and at a place, and a device a sync.
fn is_full<S: System>(system: &S) -> bool {
    let path = "/dev/full";
    match (
        system.open(path, How::Append),
        system.open(path, How::Write),
    ) {
        (Ok(end), Ok(place)) => {
            system.append(&end, b"!").is_err()
                && system.write_at(&place, b"!", 0).is_err()
                && system.sync(&end).is_err()
                && system.sync(&place).is_err()
        }
        _ => false,
    }
}

/// Whether the only name of a file with bytes goes away, and the name of none and that of a directory are refused.
fn are_unlinked<S: System>(system: &S, rt: &HostRuntime, root: &str) -> bool {
    let file = below(rt, root, "todo/1");
    let directory = below(rt, root, "todo");
    let is_so = is_unlinked(system, rt, file.as_str())
        && system.unlink(directory.as_str()).is_err();
    drop(file);
    drop(directory);
    is_so
}

/// Whether a file that is made at this path goes away, once.
fn is_unlinked<S: System>(system: &S, rt: &HostRuntime, path: &str) -> bool {
    let is_made = fs::write(rt, path, "abc").is_ok();
    let is_done = system.unlink(path).is_ok();
    let is_gone = fs::metadata(rt, path).is_err();
    is_made && is_done && is_gone && system.unlink(path).is_err()
}

/// Whether a file that was just made, and one that is opened in each way, can be read.
fn are_read<S: System>(alloc: Global, disk: &mut HostFs<S>) -> bool {
    let Ok((made, _)) = disk.create_excl(alloc, 0, b"pid/1") else {
        return false;
    };
    let mut is_so = disk.append(alloc, 0, made, b"abc").is_ok() && is_read(disk, made);
    for how in [How::Read, How::Append, How::Write] {
        is_so = match disk.open(alloc, b"pid/1", how) {
            Ok(opened) => is_read(disk, opened) && is_so,
            Err(_) => false,
        };
    }
    is_so
}

/// Whether the three bytes are read.
fn is_read<S: System>(disk: &mut HostFs<S>, fd: Fd) -> bool {
    let mut into = [0; 4];
    disk.read_at(fd, 0, &mut into) == Ok(3) && into == *b"abc\0"
}

/// How many files this process has open, and the listing of them.
fn opens(rt: &HostRuntime) -> usize {
    match fs::read_dir(rt, "/proc/self/fd") {
        Ok(names) => names.count(),
        Err(_) => 0,
    }
}

/// Whether no more files are open after links, one of which is refused, and after what else opens one.
fn leaves_none_open<S: System>(rt: &HostRuntime, disk: &mut HostFs<S>) -> bool {
    let alloc = rt.alloc();
    let before = opens(rt);
    let Ok((fd, _)) = disk.create_excl(alloc, 0, b"pid/1") else {
        return false;
    };
    let linked = [
        disk.link(alloc, b"pid/1", b"mess/1/1"),
        disk.link(alloc, b"pid/1", b"todo/1"),
        disk.link(alloc, b"pid/1", b"todo/1"),
    ];
    let is_one_more = opens(rt) == before.saturating_add(1);
    let is_listed = is_next(disk, b"", Some(b"1"));
    let is_closed = disk.close(fd).is_ok();
    let is_so = linked == [Ok(()), Ok(()), Err(FsError::Exists)] && is_listed && is_closed;
    before > 0 && is_one_more && opens(rt) == before && is_so
}

/// The variable by which this test knows that it was started by its own shell, and where it is to work then.
const PLACE: &str = "EDGE_PLACE";

/// What the shell does: nothing is taken from the rights of new files, few files can be open, and the test starts again.
/// If a loader was started with the test's program, as a try does, the program is the first word of that command line.
const AGAIN: &str =
    "umask 0; ulimit -n 24; case $1 in */ld-*) exec \"$0\" \"$2\" ;; *) exec \"$1\" \"$2\" ;; esac";

#[test]
fn rights_and_a_lack_of_descriptors(rt: HostRuntime) {
    let is_so = match env::var(&rt, PLACE) {
        Ok(root) => {
            holds(&rt, &rt, root.as_str(), Look::Rights)
                && holds(&rt, &rt, root.as_str(), Look::Lack)
                && first_wrong_of_a_queue(&rt, rt, &[Look::Rights]).is_none()
        }
        Err(_) => holds_again(&rt),
    };
    assert!(rt; is_so);
}

/// Whether the test, started again by a shell, is content.
fn holds_again(rt: &HostRuntime) -> bool {
    let root = scratch(rt, "edge");
    let is_so = is_content(rt, root.as_str());
    fs::remove_dir_all(rt, root.as_str()).is_ok() && is_so
}

/// As `holds_again`, in this directory.
fn is_content(rt: &HostRuntime, root: &str) -> bool {
    match Command::new(rt.alloc(), "sh") {
        Ok(mut shell) => {
            let is_so = add_words(rt, &mut shell) == Some(true)
                && shell.env(PLACE, root).is_ok()
                && succeeds(rt, &mut shell);
            drop(shell);
            is_so
        }
        Err(_) => false,
    }
}

/// Gives a shell the words by which it starts this test again; whether that can be done, if they can be told.
fn add_words(rt: &HostRuntime, shell: &mut Command) -> Option<bool> {
    let loaded = env::current_exe(rt).ok()?;
    let is_so = match env::args(rt) {
        Ok(mut words) => {
            let is_so = add_words_of(shell, loaded.as_str(), words.next(), words.next());
            drop(words);
            is_so
        }
        Err(_) => false,
    };
    drop(loaded);
    Some(is_so)
}

/// The same, with the words that this program and this test are started by.
fn add_words_of(
    shell: &mut Command,
    loaded: &str,
    program: Option<String>,
    name: Option<String>,
) -> bool {
    match (program, name) {
        (Some(program), Some(name)) => {
            let mut is_so = true;
            for word in ["-c", AGAIN, program.as_str(), loaded, name.as_str()] {
                is_so = shell.arg(word).is_ok() && is_so;
            }
            drop(program);
            drop(name);
            is_so
        }
        (program, name) => {
            drop(program);
            drop(name);
            false
        }
    }
}

/// Whether a new file has the rights 0644.
fn has_rights<S: System>(rt: &HostRuntime, root: &str, disk: &mut HostFs<S>) -> bool {
    let alloc = rt.alloc();
    let is_made = disk.create_excl(alloc, 0, b"pid/1").is_ok();
    let path = below(rt, root, "pid/1");
    let is_so = match fs::metadata(rt, path.as_str()) {
        Ok(found) => is_made && found.mode() & 0o7777 == 0o644,
        Err(_) => false,
    };
    drop(path);
    is_so
}

/// Opens files until no more can be open, and tells how many those were.
fn open_all(rt: &HostRuntime, held: &mut Vec<File>) -> usize {
    for _ in 0..64 {
        match File::open(rt, "/dev/null") {
            Ok(file) => {
                if held.push(file).is_err() {
                    return 64;
                }
            }
            Err(_) => return held.len(),
        }
    }
    64
}

/// Whether a link is a fault when no more files can be open, and leaves no name.
fn links_none<S: System>(rt: &HostRuntime, disk: &mut HostFs<S>) -> bool {
    let alloc = rt.alloc();
    let mut held = Vec::new(alloc);
    let count = open_all(rt, &mut held);
    let linked = disk.link(alloc, b"pid/1", b"todo/1");
    held.clear();
    let is_linked_now = disk.link(alloc, b"pid/1", b"todo/1");
    count < 64 && linked == Err(FsError::Fault) && is_linked_now == Ok(())
}
