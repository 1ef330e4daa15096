// Commands whose clock, posts and spawner tell each call: what they asked, in which order, and what was answered.

use super::rows::first_wrong;

/// Of the spawners: before each event they ask the posts until nothing is waiting, and read the clock once.
const SPAWNERS: &str =
    r#"# two deliveries: each child is fed the message and its input ended; then of each, the lowest first, the output and the status are taken
run rspawn p; posts 0:%001/1%00a@x%00b@y%00 0:%011/1%00a@x%00c@z%00 0:end 1:r%00Kok%00 1:end 2:end; children 78/100/0 79/100/111; room 60; status 0; given x%00Kok%00%01ZUnable to run qmail-remote.%0A%00; words p y a@x b@y; fed hi; words2 p z a@x c@z; fed2 hi; calls start p y a@x b@y -> 1/78 | feed 1 hi | finish 1 | start p z a@x c@z -> 2/79 | feed 2 hi | finish 2 | status 1 -> 0 | status 2 -> 111; asked 0:%001/1%00a@x%00b@y%00 0:%011/1%00a@x%00c@z%00 0:end 1:r%00Kok%00 1:end 2:end -22; readings 22
# users/assign is read first; the child is this same program, and its message a netstring
run lspawn d; posts 0:%051/1%00a%25@x%00j@h%00 0:end 1:did%200+1+1%0A 1:end; children 78/100/0; room 40; status 0; given x%05Kdid 0+1+1%0A%00; words "" local d =j =home/j%2520n =j =- = =h =a%2525@x =./Maildir/ --uid 1000; fed 2:hi,; calls start "" local d =j =home/j%2520n =j =- = =h =a%2525@x =./Maildir/ --uid 1000 -> 1/78 | feed 1 2:hi, | finish 1 | status 1 -> 0; asked 0:%051/1%00a%25@x%00j@h%00 0:end 1:did 0+1+1%0A 1:end -16; readings 16"#;

/// Of local deliveries: a child's end is waited for before its status is asked; the clock is read once before each event.
const LOCALS: &str = r#"# a command, and then the injector of a forward
run local; qmail &a@b%0A|exit 99%0A./Maildir/%0A; input 3:hi%0A,; posts 1:let%20go 1:end 2:also 2:end; children 78/200/99 83/200/0; room 40; status 0; given did 0+1+1%0Aqp 83%0A; words sh -c exit%2099; fed hi%0A; words2 "" queue - d --uid 1000; fed2 29:Delivered-To: j@localhost%0Ahi%0A,11:Fa@x%00Ta@b%00%00,; calls start sh -c exit 99 -> 1/78 | feed 1 hi%0A | finish 1 | status 1 -> 99 | start "" queue - d --uid 1000 -> 2/83 | feed 2 29:Delivered-To: j@localhost%0Ahi%0A,11:Fa@x%00Ta@b%00%00, | finish 2 | status 2 -> 0; asked 1:let go 1:end 2:also 2:end; readings 14
# one that takes a part, and can't be heard
run local; qmail |x%0A; input 3:hi%0A,; posts 2:end 1:failed; children 78/1/crashed; room 60; status 111; given Command failed with status 0. (#4.3.0)%0A; words sh -c x; fed h; calls start sh -c x -> 1/78 | feed 1 hi%0A -> failed | finish 1 | status 1 -> crashed; asked 2:end 1:failed"#;

/// Of the sender: its links' children are started first, in order; at last all their inputs are ended, and then the status of each
/// is taken.
const SENDERS: &str =
    r#"# nothing to do: twelve control files, a byte of each spawner, 23 directories of info, one look into todo, and 23 of mess
run send 1; posts 2:x 3:x; children 78/9/0 79/9/1 80/9/2; room 999; status 0; started 3; calls start "" clean d -> 1/78 | start "" lspawn d -> 2/79 | start "" rspawn d p -> 3/80 | finish 1 | finish 2 | finish 3 | status 1 -> 0 | status 2 -> 1 | status 3 -> 2; asked 2:x 3:x -62; readings 62
# the second child can't be started: no post is asked, and the clock isn't read
run send 1; posts 2:x 3:x; fails 2; room 999; status 84; started 1; counted 1 0 0 0; calls start "" clean d -> 1/78 | start "" lspawn d -> failed | finish 1 | status 1 -> 0
# a delivery that fails: its request, and then the bounce's injector, which is fed and whose status is taken; then the cleaner
run send 20; mail known; posts 2:x 3:x 3:%00Dno%00 4:end 1:+; pace 1; room 999; status 0; given starting delivery 1: msg 1 to remote b@y%0Astatus: local 0/10 remote 1/20%0Adelivery 1: failure: no%0Astatus: local 0/10 remote 0/20%0Abounce msg 1 qp 81%0Aend msg 1%0A; started 4; fed foop/1%00; fed3 %001/1%00a@x%00b@y%00; fed4 370:Date: 1 Jan 1970 00:00:00 -0000%0AFrom: MAILER-DAEMON@localhost%0ATo: a@x%0ASubject: failure notice%0A%0AHi. This is the qmail-send program at localhost.%0AI'm afraid I wasn't able to deliver your message to the following addresses.%0AThis is a permanent error%3B I've given up. Sorry it didn't work out.%0A%0A<b@y>:%0Ano%0A%0A--- Below this line is a copy of the message.%0A%0AReturn-Path: <a@x>%0Ahi%0A,8:F%00Ta@x%00%00,; calls start "" clean d -> 1/78 | start "" lspawn d -> 2/79 | start "" rspawn d p -> 3/80 | feed 3 %001/1%00a@x%00b@y%00 | start "" queue - d --bounce -> 4/81 | feed 4 370:Date: 1 Jan 1970 00:00:00 -0000%0AFrom: MAILER-DAEMON@localhost%0ATo: a@x%0ASubject: failure notice%0A%0AHi. This is the qmail-send program at localhost.%0AI'm afraid I wasn't able to deliver your message to the following addresses.%0AThis is a permanent error%3B I've given up. Sorry it didn't work out.%0A%0A<b@y>:%0Ano%0A%0A--- Below this line is a copy of the message.%0A%0AReturn-Path: <a@x>%0Ahi%0A,8:F%00Ta@x%00%00, | finish 4 | status 4 -> 0 | feed 1 foop/1%00 | finish 1 | finish 2 | finish 3 | status 1 -> 0 | status 2 -> 0 | status 3 -> 0"#;

/// Of commands that have a clock alone: an injection reads it at its start, before each of its nine calls and at its end, and the
/// cleaner before each event.
const CLOCKS: &str =
    r#"run queue; mail users/assign=.%0A; input 3:hi%0A,11:Fa@x%00Tb@y%00%00,; readings 11; moments 0 0 0 0 0 0 0 0 0 0 0
run clean; input foop/1%00; room 1; status 0; given +; readings 7; moments 0 0 0 0 0 0 0"#;

#[test]
fn spawners_make_the_calls_that_the_rows_say(rt: HostRuntime) {
    assert_eq!(rt; first_wrong(rt.alloc(), SPAWNERS, 0), None);
}

#[test]
fn locals_make_the_calls_that_the_rows_say(rt: HostRuntime) {
    assert_eq!(rt; first_wrong(rt.alloc(), LOCALS, 0), None);
}

#[test]
fn senders_make_the_calls_that_the_rows_say(rt: HostRuntime) {
    assert_eq!(rt; first_wrong(rt.alloc(), SENDERS, 0), None);
}

#[test]
fn clocks_make_the_calls_that_the_rows_say(rt: HostRuntime) {
    assert_eq!(rt; first_wrong(rt.alloc(), CLOCKS, 0), None);
}
