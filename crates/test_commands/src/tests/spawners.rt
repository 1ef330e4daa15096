// The spawners, each over posts, children and a disk.

use super::rows::{SLOW_ASKS, first_wrong};

/// Of the remote spawner with the program `p`, which has the message `hi` in `mess/1/1`.
const RSPAWN: &str = r#"# a delivery
run rspawn p; posts 0:%001/1%00a@x%00b@y%00 0:end 1:r%00Kok%00 1:end; children 78/100/0; room 6; status 0; given x%00Kok%00; words p y a@x b@y; fed hi
# no request at all
run rspawn p; posts 0:end; room 6; status 0; given x
# a request that is cut by the end
run rspawn p; posts 0:%001/1%00a@x%00b@y 0:end; children 78/100/0; room 6; status 0; given x
# a field of 4096 bytes, and one of 4097
run rspawn p; posts 0:%07 0:{letters} 0:%00%00%00 0:end; letters 4096; room 40; status 0; given x%07ZBad request. (#4.3.0)%00
run rspawn p; posts 0:%001/1%00a@x%00b@y%00 0:%07 0:{letters} 1:Kok%00 1:end; letters 4097; children 78/100/0; room 40; status 91; given x%00Kok%00; words p y a@x b@y; fed hi
# the requests, or what a program printed, can't be taken
run rspawn p; posts 0:failed 0:end; room 40; status 54; given x
run rspawn p; posts 0:%001/1%00a@x%00b@y%00 0:end 1:failed; children 78/100/0; room 40; status 54; given x; words p y a@x b@y; fed hi
# the output is full, at once and at a report
run rspawn p; posts 0:end; room 0; status 53
run rspawn p; posts 0:%001/1%00a@x%00b@y%00 0:end 1:r%00Kok%00 1:end; children 78/100/0; room 3; status 53; given x%00K; words p y a@x b@y; fed hi
# how a program ended
run rspawn p; posts 0:%001/1%00a@x%00b@y%00 0:end 1:end; children 78/100/crashed; room 40; status 0; given x%00Zqmail-remote crashed.%0A%00; words p y a@x b@y; fed hi
run rspawn p; posts 0:%001/1%00a@x%00b@y%00 0:end 1:end; children 78/100/111; room 40; status 0; given x%00ZUnable to run qmail-remote.%0A%00; words p y a@x b@y; fed hi
# it couldn't be started, its status couldn't be had, or it took only a part of the message
run rspawn p; posts 0:%001/1%00a@x%00b@y%00 0:end; children 78/100/0; fails 1; room 40; status 0; given x%00Zqmail-remote crashed.%0A%00
run rspawn p; posts 0:%001/1%00a@x%00b@y%00 0:end 1:Kok%00 1:end; children 78/100/0; fails 3; room 40; status 0; given x%00Zqmail-remote crashed.%0A%00; words p y a@x b@y; fed hi
run rspawn p; posts 0:%001/1%00a@x%00b@y%00 0:end 1:Kok%00 1:end; children 78/1/0; room 40; status 0; given x%00Kok%00; words p y a@x b@y; fed h"#;

/// What comes if the posts bring one thing at a time.
const SLOW: &str = r#"# of two deliveries the later one ends first
run rspawn p; posts 0:%001/1%00a@x%00b@y%00 0:%011/1%00a@x%00c@z%00 1:r%00K 2:hno 0:end 2:%00Dnever%00 2:end 1:ok%00 1:end; children 78/100/0 78/100/0; room 40; status 0; given x%01Dnonever%00%00Kok%00; words p y a@x b@y; fed hi; words2 p z a@x c@z; fed2 hi
# a spawner that waits pauses at each look that finds nothing to do: the posts bring nothing twelve times, once of them before its first byte is given
run rspawn p; posts 0:end; room 1; status 0; given x; rests 11 66"#;

/// Of the local spawner in the directory `d`, which has one user, `j`, whose home is `home/j n`.
const LSPAWN: &str = r#"# a delivery
run lspawn d; posts 0:%051/1%00a%25@x%00j@h%00 0:end 1:did%200+1+1%0A%00more 1:end; children 78/100/0; room 40; status 0; given x%05Kdid 0+1+1%0A%00; words "" local d =j =home/j%2520n =j =- = =h =a%2525@x =./Maildir/ --uid 1000; fed 2:hi,
# what status it has
run lspawn d; posts 0:%051/1%00a%25@x%00j@h%00 0:end 1:no%0A 1:end; children 78/100/100; room 40; status 0; given x%05Dno%0A%00; words "" local d =j =home/j%2520n =j =- = =h =a%2525@x =./Maildir/ --uid 1000; fed 2:hi,
run lspawn d; posts 0:%051/1%00a%25@x%00j@h%00 0:end 1:later%0A 1:end; children 78/100/111; room 40; status 0; given x%05Zlater%0A%00; words "" local d =j =home/j%2520n =j =- = =h =a%2525@x =./Maildir/ --uid 1000; fed 2:hi,
# nobody is there
run lspawn d; posts 0:%051/1%00a@x%00k@h%00 0:end; children 78/100/0; room 60; status 0; given x%05DSorry, no mailbox here by that name. (#5.1.1)%0A%00
# a field that is too long; a delivery that can't be heard
run lspawn d; posts 0:%05 0:{letters} 0:end; letters 4097; room 60; status 91; given x
run lspawn d; posts 0:%051/1%00a%25@x%00j@h%00 1:did 1:failed 0:end; children 78/100/0; room 60; status 54; given x; words "" local d =j =home/j%2520n =j =- = =h =a%2525@x =./Maildir/ --uid 1000; fed 2:hi,"#;

/// More than a thousand pieces that wait at once.
const MANY: &str = r#"# a delivery that prints 1500 pieces
run lspawn d; posts 0:%051/1%00a%25@x%00j@h%00 0:end 1:a 1:end; times 1500; letters 1500; children 78/100/0; room 1600; status 0; given x%05K{letters}%00; words "" local d =j =home/j%2520n =j =- = =h =a%2525@x =./Maildir/ --uid 1000; fed 2:hi,"#;

#[test]
fn remote_spawners_do_what_the_rows_say(rt: HostRuntime) {
    assert_eq!(rt; first_wrong(rt.alloc(), RSPAWN, 0), None);
    assert_eq!(rt; first_wrong(rt.alloc(), RSPAWN, SLOW_ASKS), None);
    assert_eq!(rt; first_wrong(rt.alloc(), SLOW, SLOW_ASKS), None);
}

#[test]
fn local_spawners_do_what_the_rows_say(rt: HostRuntime) {
    assert_eq!(rt; first_wrong(rt.alloc(), LSPAWN, 0), None);
    assert_eq!(rt; first_wrong(rt.alloc(), LSPAWN, SLOW_ASKS), None);
    assert_eq!(rt; first_wrong(rt.alloc(), MANY, 0), None);
}
