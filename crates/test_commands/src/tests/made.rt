// What a command is run over, as rows say it.

use super::fields::{bytes, field, number, numbers};
use call_fs::{CallFs, DeliveryWordsData};
use mail_bytes::ByteText;
use mem_fs::MemFs;
use outside::{MemChild, MemPosts, MemSource, MemSpawner, Status, Waiting};
use std::alloc::Global;

/// The posts of a row, of which each of channel 1 that brings bytes comes as often as `times` says, once if it isn't there.
pub fn posts_of(alloc: Global, row: &str) -> MemPosts {
    let mut posts = Vec::new(alloc);
    for word in field(row, "posts").split_whitespace() {
        push_post(alloc, row, word, &mut posts);
    }
    MemPosts::new(posts)
}

/// Pushes a post, as often as it comes.
fn push_post(alloc: Global, row: &str, word: &str, posts: &mut Vec<Waiting>) {
    for _ in 0..number(row, "times").max(1) {
        match post_of(alloc, row, word) {
            Some(Waiting::Bytes { chan: 1, bytes }) => {
                let _ = posts.push(Waiting::Bytes { chan: 1, bytes });
            }
            Some(post) => {
                let _ = posts.push(post);
                return;
            }
            None => return,
        }
    }
}

/// A post: its channel, and after `:` the end, a failure, or bytes.
fn post_of(alloc: Global, row: &str, word: &str) -> Option<Waiting> {
    let (chan, told) = word.split_once(':')?;
    let chan = chan.parse::<u32>().ok()?;
    match told {
        "end" => Some(Waiting::End { chan }),
        "failed" => Some(Waiting::Failed { chan }),
        _ => Some(Waiting::Bytes {
            chan,
            bytes: ByteText::from_vec(bytes(alloc, row, told)),
        }),
    }
}

/// The children of a sender's links, and the injector of a bounce.
const LINKS: &str = "78/9999/0 79/9999/0 80/9999/0 81/9999/0";

/// The children of a row; those of a sender's links if it says none and is of one.
fn children_of(row: &str) -> &str {
    match field(row, "children") {
        "" if is_sender(row) => LINKS,
        told => told,
    }
}

/// A spawner of the children of a row.
pub fn spawner_of(alloc: Global, row: &str) -> MemSpawner {
    let mut children = Vec::new(alloc);
    for word in children_of(row).split_whitespace() {
        if let Some(child) = child_of(word) {
            let _ = children.push(child);
        }
    }
    MemSpawner::new(alloc, children, numbers(alloc, row, "fails"))
}

/// A child: the number of its process, for how many bytes it has room, and its exit status, or that it crashed, or that its
/// status can't be had.
fn child_of(word: &str) -> Option<MemChild> {
    let (pid, rest) = word.split_once('/')?;
    let (room, ended) = rest.split_once('/')?;
    let status = match ended {
        "crashed" => Status::Crashed,
        "failed" => Status::Failed,
        _ => Status::Ended(ended.parse::<u8>().ok()?),
    };
    Some(MemChild {
        pid: pid.parse::<u32>().ok()?,
        room: room.parse::<usize>().ok()?,
        status,
    })
}

/// The input of a row, in one piece.
pub fn source_of(alloc: Global, row: &str) -> MemSource {
    let mut pieces = Vec::new(alloc);
    let piece = ByteText::from_vec(bytes(alloc, row, field(row, "input")));
    let _ = pieces.push(piece);
    MemSource::new(pieces, Vec::new(alloc))
}

/// A text, if there is memory for it.
fn text(alloc: Global, told: &[u8]) -> ByteText {
    match ByteText::from_slice(alloc, told) {
        Ok(text) => text,
        Err(_) => ByteText::new(alloc),
    }
}

/// The words of a delivery.
pub fn words_of(alloc: Global) -> DeliveryWordsData {
    DeliveryWordsData {
        user: text(alloc, b"j"),
        home: text(alloc, b"home/j"),
        local: text(alloc, b"j"),
        dash: text(alloc, b""),
        ext: text(alloc, b""),
        domain: text(alloc, b"localhost"),
        sender: text(alloc, b"a@x"),
        line: text(alloc, b"./Maildir/"),
    }
}

/// The directories of every row: those of a queue, of its controls and of the user `j`.
const DIRS: &str =
    "control home home/j home/j/Maildir home/j/Maildir/tmp home/j/Maildir/new users pid todo intd bounce info/0 info/1 \
    info/2 info/3 info/4 info/5 info/6 info/7 info/8 info/9 info/10 info/11 info/12 info/13 info/14 info/15 \
    info/16 info/17 info/18 info/19 info/20 info/21 info/22 mess/0 mess/1 mess/2 mess/3 mess/4 mess/5 mess/6 \
    mess/7 mess/8 mess/9 mess/10 mess/11 mess/12 mess/13 mess/14 mess/15 mess/16 mess/17 mess/18 mess/19 mess/20 \
    mess/21 mess/22 local/0 local/1 local/2 local/3 local/4 local/5 local/6 local/7 local/8 local/9 local/10 \
    local/11 local/12 local/13 local/14 local/15 local/16 local/17 local/18 local/19 local/20 local/21 local/22 \
    remote/0 remote/1 remote/2 remote/3 remote/4 remote/5 remote/6 remote/7 remote/8 remote/9 remote/10 remote/11 \
    remote/12 remote/13 remote/14 remote/15 remote/16 remote/17 remote/18 remote/19 remote/20 remote/21 remote/22 \
    intdx/0 intdx/1 intdx/2 intdx/3 intdx/4 intdx/5 intdx/6 intdx/7 intdx/8 intdx/9 intdx/10 intdx/11 intdx/12 \
    intdx/13 intdx/14 intdx/15 intdx/16 intdx/17 intdx/18 intdx/19 intdx/20 intdx/21 intdx/22 todox/0 todox/1 \
    todox/2 todox/3 todox/4 todox/5 todox/6 todox/7 todox/8 todox/9 todox/10 todox/11 todox/12 todox/13 todox/14 \
    todox/15 todox/16 todox/17 todox/18 todox/19 todox/20 todox/21 todox/22";

/// The files of a spawner or a delivery: the message `hi`, and the user `j` with its home.
const PLAIN: &str = "mess/1/1=hi users/assign==j:j:1000:1000:home/j%20n:-::%0A.%0A";

/// Message 1 as it is queued.
const QUEUED: &str =
    "mess/1/1=Received:%20(qmail%2077%20invoked%20by%20uid%201000)%3B%201%20Jan%201970%2000:00:00%20-0000%0Ahi%0A \
    intd/1=u1000%00p77%00Fa@x%00Tb@y%00 todo/1=u1000%00p77%00Fa@x%00Tb@y%00";

/// Message 1 once it was preprocessed.
const KNOWN: &str = "mess/1/1=hi%0A info/1/1=Fa@x%00 remote/1/1=Tb@y%00";

/// The files that a run begins with.
fn files_of(row: &str) -> &str {
    match field(row, "mail") {
        "" if is_sender(row) => "",
        "" => PLAIN,
        "queued" => QUEUED,
        "known" => KNOWN,
        told => told,
    }
}

/// Whether a row is of a sender.
pub fn is_sender(row: &str) -> bool {
    field(row, "run").starts_with("send")
}

/// Makes the directories of a row on a disk, but for the one that it lacks.
pub fn make_dirs(alloc: Global, disk: &mut MemFs, row: &str) {
    let lacking = field(row, "lacks");
    for dir in DIRS.split_whitespace() {
        if dir != lacking {
            let _ = disk.dir(alloc, dir.as_bytes());
        }
    }
}

/// Puts a file with these contents there.
fn put(alloc: Global, disk: &mut MemFs, row: &str, name: &str, told: &str) {
    let contents = bytes(alloc, row, told);
    let _ = disk.place(alloc, name.as_bytes(), &contents);
    drop(contents);
}

/// Puts the files of a run on its disk, and the `.qmail` of `j` if the row says one.
pub fn put_files(alloc: Global, disk: &mut MemFs, row: &str) {
    for file in files_of(row).split_whitespace() {
        let (name, told) = file.split_once('=').unwrap_or((file, ""));
        put(alloc, disk, row, name, told);
    }
    let lines = field(row, "qmail");
    if !lines.is_empty() {
        put(alloc, disk, row, "home/j/.qmail", lines);
    }
}

/// Takes the names away that are gone as a run begins, as a cleaner would; whether they were there.
pub fn take_away(disk: &mut MemFs, row: &str) -> bool {
    for name in field(row, "gone").split_whitespace() {
        if disk.unlink(name.as_bytes()).is_err() {
            return false;
        }
    }
    true
}
