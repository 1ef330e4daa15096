// What a real directory asks of its system, and what it answers, step by step over a system whose replies are given.
use super::host_steps::{add_if_wrong, see_text};
use super::host_system::Scripted;
use host_fs::HostFs;
use mail_bytes::Memory;
use std::alloc::Global;

// Each row is a call, the replies of the system, and what is seen: what the system was asked, and the answer. A fault stands
// with how many there were by then. A line that begins with `#` is a comment.

/// Descriptors 0, 1 and 2 are the system's files 0, 1 and 2: made, opened to be overwritten, opened to be read.
const OPENED: &str = "create a | done, file 7 11 99 | create r/a; fstat 0; created 0 7
open_write b | file 7 11 99, done, file 7 11 99 | stat r/b; open r/b Write; fstat 1; opened 1
open_read /c | file 7 11 99, done, file 7 11 99 | stat /c; open /c Read; fstat 2; opened 2";

/// Files are made.
const CREATED: &str = "create todo/1 | there, file 7 11 99 | create r/todo/1; stat r/todo/1; Exists
create todo/1 | there, dir | create r/todo/1; stat r/todo/1; Fault 1
create todo/1 | missing, missing | create r/todo/1; stat r/todo/1; NotThere
create todo/1 | no_directory, no_directory | create r/todo/1; stat r/todo/1; NotThere
create todo/1 | forbidden, missing | create r/todo/1; stat r/todo/1; Fault 2
create todo/1 | done, file 0 0 0, done | create r/todo/1; fstat 0; unlink r/todo/1; Fault 3
create todo/1 | done, forbidden, forbidden | create r/todo/1; fstat 1; unlink r/todo/1; Fault 4
create %FF |  | Fault 5
create |  | Fault 6";

/// Files are opened and asked about by name.
const NAMED: &str =
    "open_append a | file 7 11 99, done, file 7 11 99 | stat r/a; open r/a Append; fstat 0; opened 0
open_read a | file 7 11 99, missing | stat r/a; open r/a Read; NotThere
open_read a | file 7 11 99, no_directory | stat r/a; open r/a Read; NotThere
open_read a | file 7 11 99, forbidden | stat r/a; open r/a Read; Fault 1
open_read a | file 7 11 99, done, dir | stat r/a; open r/a Read; fstat 1; Fault 2
open_read a | file 7 11 99, done, forbidden | stat r/a; open r/a Read; fstat 2; Fault 3
open_read a | file 7 11 99, done, file 7 11 99 | stat r/a; open r/a Read; fstat 3; opened 1
unlink /a | done | unlink /a; done
unlink a | missing | unlink r/a; NotThere
unlink a | no_directory | unlink r/a; NotThere
unlink a | is_directory | unlink r/a; Fault 4
unlink a | forbidden | unlink r/a; Fault 5
stat a | file 7 11 99 | stat r/a; file 7 11 99
stat a | file 8 0 -1 | stat r/a; file 8 0 0
stat a | file 8 0 250000000001 | stat r/a; file 8 0 250000000000
stat a | dir | stat r/a; Fault 6
stat a | missing | stat r/a; NotThere
stat a | no_directory | stat r/a; NotThere
stat a | forbidden | stat r/a; Fault 7
# what is no regular file isn't opened, since a FIFO would be waited for
open_read a | special | stat r/a; Fault 8
open_append a | dir | stat r/a; Fault 9
open_write a | file 7 11 99, done, special | stat r/a; open r/a Write; fstat 4; Fault 10
open_read a | missing | stat r/a; NotThere
open_read a | no_directory | stat r/a; NotThere
open_read a | forbidden | stat r/a; Fault 11";

/// Bytes are read and written.
const MOVED: &str =
    "read 2 5 4 | bytes x, interrupted, bytes yz, bytes ! | read 2 5 4; read 2 6 3; read 2 6 3; read 2 8 1; read xyz!
read 0 0 9 | bytes ab, bytes | read 0 0 9; read 0 2 7; read ab
read 1 1 << |  | read 
read 1 0 9 | bytes ab, forbidden | read 1 0 9; read 1 2 7; Fault 1
write 1 3 abcde | file 7 11 99, count 2, interrupted, count 2, count 1 | fstat 1; write 1 3 abcde; write 1 5 cde; write 1 5 cde; write 1 7 e; done
write 1 9 abcde | file 7 11 99, count 9 | fstat 1; write 1 9 ab; done
write 1 11 abcde | file 7 11 99 | fstat 1; done
write 1 0 ab | forbidden | fstat 1; Fault 2
write 1 0 ab | file 7 11 99, count 1, forbidden | fstat 1; write 1 0 ab; write 1 1 b; Fault 3
write 1 0 ab | file 7 11 99, count 0 | fstat 1; write 1 0 ab; Fault 4
write 0 0 ab |  | Fault 5
write 2 0 ab |  | Fault 6
append 0 abc | count 1, interrupted, count 2 | append 0 abc; append 0 bc; append 0 bc; done
append 0 abc | count 1, forbidden | append 0 abc; append 0 bc; Fault 7
append 0 abc | forbidden | append 0 abc; Fault 8
append 0 abc | count 0 | append 0 abc; Fault 9
append 1 abc |  | Fault 10
append 0 |  | done
cut 1 10 | file 7 11 99, done | fstat 1; set_len 1 10; done
cut 0 11 | file 7 11 99 | fstat 0; done
cut 0 0 | file 7 11 99, forbidden | fstat 0; set_len 0 0; Fault 11
cut 0 0 | forbidden | fstat 0; Fault 12
cut 2 0 |  | Fault 13
sync 2 | done | sync 2; done
sync 0 | forbidden | sync 0; Fault 14
sync 9 |  | Fault 15
close 1 |  | done
read 1 0 1 |  | Fault 16
open_read d | file 7 11 99, done, file 7 11 99 | stat r/d; open r/d Read; fstat 3; opened 1
sync 1 | done | sync 3; done";

/// Names are linked, unlinked and listed.
const LINKED: &str =
    "link intd/7 todo/7 | done, done, done | open r/todo/ Read; link r/intd/7 r/todo/7; sync 0; done
link a b | done, done, done | open r/ Read; link r/a r/b; sync 1; done
link a /b | done, done, done | open / Read; link r/a /b; sync 2; done
link a /b/c | done, done, done | open /b/ Read; link r/a /b/c; sync 3; done
# without the directory there is no link
link a b | forbidden | open r/ Read; Fault 1
link a b | other | open r/ Read; Fault 2
link a mess/23/1 | missing | open r/mess/23/ Read; NotThere
link a todo/9/1 | no_directory | open r/todo/9/ Read; NotThere
link a b | done, done, forbidden | open r/ Read; link r/a r/b; sync 4; Fault 3
link a b | done, there, file 7 11 99, file 7 11 99 | open r/ Read; link r/a r/b; stat r/a; stat r/b; Exists
link a b | done, there, file 7 11 99, dir | open r/ Read; link r/a r/b; stat r/a; stat r/b; Fault 4
link a b | done, there, dir | open r/ Read; link r/a r/b; stat r/a; Fault 5
link a b | done, missing, missing, missing | open r/ Read; link r/a r/b; stat r/a; stat r/b; NotThere
link a b | done, no_directory, missing, missing | open r/ Read; link r/a r/b; stat r/a; stat r/b; NotThere
link a b | done, forbidden, file 7 11 99, missing | open r/ Read; link r/a r/b; stat r/a; stat r/b; Fault 6
link a b// |  | Fault 7
link a%00 b |  | Fault 8";

/// The directory was changed less than two seconds ago, so it is listed at each call.
const LISTED: &str =
    "next todo | dir, clock 2999999999, done, bytes .%00..%009%0010%00, dir, dir, file 7 11 99, file 7 11 99, bytes | stat r/todo/; clock; list r/todo/; names; stat r/todo/.; stat r/todo/..; stat r/todo/9; stat r/todo/10; names; name 10
next todo | dir, clock 2999999999, done, bytes 1%00, file 7 11 99, bytes 2%00, bytes | stat r/todo/; clock; list r/todo/; names; stat r/todo/1; names; names; name 1
next todo 1 | dir, clock 2999999999, done, bytes 3%00, file 7 11 99, bytes 1%002%00, file 7 11 99, bytes | stat r/todo/; clock; list r/todo/; names; stat r/todo/3; names; stat r/todo/2; names; name 2
next todo a | dir, clock 2999999999, done, bytes %FF%00b/c%00c%00, file 7 11 99, bytes | stat r/todo/; clock; list r/todo/; names; stat r/todo/c; names; name c
next todo a | dir, clock 2999999999, done, bytes aaaaaaaaaaaaaaaaaaaaaaaaaaaaaaaaaaaaaaaaaaaaaaaaaaaaaaaaaaaaaaaaaaaaaaaaaaaaaaaaaaaaaaaaaaaaaaaaaaaaaaaaaaaaaaaaaaaaaaaaaaaaaaaaaaaaaaaaaaaaaaaaaaaaaaaaaaaaaaaaaaaaaaaaaaaaaaaaaaaaaaaaaaaaaaaaaaaaaaaaaaaaaaaaaaaaaaaaaaaaaaaaaaaaaaaaaaaaaaaaaaaaaaaaaaaaaaaa, bytes | stat r/todo/; clock; list r/todo/; names; names; no name
next todo a | dir, clock 2999999999, done, bytes b%00c%00, missing, dir, bytes | stat r/todo/; clock; list r/todo/; names; stat r/todo/b; stat r/todo/c; names; no name
next todo a | dir, clock 2999999999, done, bytes b%00, forbidden, bytes | stat r/todo/; clock; list r/todo/; names; stat r/todo/b; names; name b
next todo a | dir, clock 2999999999, done, bytes b%00, file 7 11 99, forbidden | stat r/todo/; clock; list r/todo/; names; stat r/todo/b; names; Fault 1
next todo | missing, missing | stat r/todo/; list r/todo/; NotThere
next todo | no_directory, no_directory | stat r/todo/; list r/todo/; NotThere
next todo | forbidden, forbidden | stat r/todo/; list r/todo/; Fault 2
next todo%FF |  | Fault 3";

/// Plays a row over a disk of the scripted system; whether it goes as it says, and else adds what was seen.
fn play_row<'s>(
    alloc: Global,
    system: &'s Scripted,
    disk: &mut HostFs<&'s Scripted>,
    row: &'static str,
    wrong: &mut String,
) {
    let (call, rest) = row.split_once(" | ").unwrap_or((row, ""));
    let (replies, wanted) = rest.split_once(" | ").unwrap_or((rest, "nothing"));
    system.set_replies(replies);
    let answer = see_text(alloc, disk, call, true);
    let seen = system.seen(answer.as_str());
    add_if_wrong(wrong, seen.as_str(), wanted);
    drop(answer);
    drop(seen);
}

/// Plays rows over a disk of the scripted system, and adds what went otherwise.
fn play<'s>(
    alloc: Global,
    system: &'s Scripted,
    disk: &mut HostFs<&'s Scripted>,
    rows: &'static str,
    wrong: &mut String,
) {
    for row in rows.lines() {
        if !row.starts_with('#') {
            play_row(alloc, system, disk, row, wrong);
        }
    }
}

/// Plays two parts over one new disk of this system, and adds what went otherwise.
fn play_over(
    alloc: Global,
    system: &Scripted,
    first: &'static str,
    second: &'static str,
    wrong: &mut String,
) -> Result<(), Memory> {
    let mut disk = HostFs::open(&system, alloc, b"r")?;
    let asked = system.seen("");
    drop(asked);
    play(alloc, system, &mut disk, first, wrong);
    play(alloc, system, &mut disk, second, wrong);
    Ok(())
}

/// Plays two parts over one new disk of a new system, and adds what went otherwise; whether both can be made.
pub fn play_both(
    alloc: Global,
    first: &'static str,
    second: &'static str,
    wrong: &mut String,
) -> bool {
    match Scripted::new(alloc) {
        Ok(system) => {
            let is_made = play_over(alloc, &system, first, second, wrong).is_ok();
            drop(system);
            is_made
        }
        Err(_) => false,
    }
}

#[test]
fn calls_ask_the_system_for_this(rt: HostRuntime) {
    let alloc = rt.alloc();
    let mut wrong = String::new(alloc);
    let mut are_made = play_both(alloc, OPENED, MOVED, &mut wrong);
    for rows in [CREATED, NAMED, LINKED, LISTED] {
        are_made &= play_both(alloc, rows, "", &mut wrong);
    }
    assert_eq!(rt; (are_made, wrong.as_str()), (true, ""));
}
