// Local deliveries to `j@localhost`, from `a@x`, each over a message, a disk and children.

use super::rows::first_wrong;

const GONE_WELL: &str = r#"# by the default line into a maildir
run local; input 71:Received: (qmail 77 invoked by uid 1000)%3B 1 Jan 1970 00:00:00 -0000%0Ahi%0A,; room 40; status 0; given did 1+0+0%0A; dropped Return-Path: <a@x>%0ADelivered-To: j@localhost%0AReceived: (qmail 77 invoked by uid 1000)%3B 1 Jan 1970 00:00:00 -0000%0Ahi%0A
# a forward, and a command that has the maildir passed over
run local; qmail &a@b%0A|exit 99%0A./Maildir/%0A; input 71:Received: (qmail 77 invoked by uid 1000)%3B 1 Jan 1970 00:00:00 -0000%0Ahi%0A,; posts 1:let%20go 1:end 2:also%20let%20go 2:end; children 78/200/99 83/200/0; room 40; status 0; given did 0+1+1%0Aqp 83%0A; words sh -c exit%2099; fed Received: (qmail 77 invoked by uid 1000)%3B 1 Jan 1970 00:00:00 -0000%0Ahi%0A; words2 "" queue - d --uid 1000; fed2 97:Delivered-To: j@localhost%0AReceived: (qmail 77 invoked by uid 1000)%3B 1 Jan 1970 00:00:00 -0000%0Ahi%0A,11:Fa@x%00Ta@b%00%00,
# a command that goes well, before the maildir; its output can't be read
run local; qmail |x%0A./Maildir/%0A; input 3:hi%0A,; posts 7:end 1:failed; children 78/200/0; room 40; status 0; given did 1+0+1%0A; words sh -c x; fed hi%0A; dropped Return-Path: <a@x>%0ADelivered-To: j@localhost%0Ahi%0A
# one that takes a part of the message, and its exit status counts
run local; qmail |x%0A; input 3:hi%0A,; posts 1:end; children 78/1/0; room 40; status 0; given did 0+0+1%0A; words sh -c x; fed h
# of a long message nothing comes after a part that couldn't be fed
run local; qmail |x%0A; input 9000:{letters},; letters 9000; posts 1:end; children 78/20000/0; fails 2; room 40; status 0; given did 0+0+1%0A; words sh -c x
# an empty message
run local; qmail |x%0A; input 0:,; posts 1:end; children 78/10/0; room 40; status 0; given did 0+0+1%0A; words sh -c x"#;

const GONE_WRONG: &str = r#"# an input that is no whole netstring
run local; input 3:hi%0A; room 60; status 111; given Unable to read the message. (#4.3.0)%0A
# a loop
run local; input 29:Delivered-To: j@localhost%0A%0Ax%0A,; room 80; status 100; given This message is looping: it already has my Delivered-To line. (#5.4.6)%0A
# a file whose first line is blank
run local; qmail %0A./Maildir/%0A; input 3:hi%0A,; room 60; status 111; given Uh-oh: first line of .qmail file is blank. (#4.2.1)%0A
# how a command ended
run local; qmail |x%0A./Maildir/%0A; input 3:hi%0A,; posts 1:end; children 78/200/100; room 60; status 100; given Command failed with status 100. (#5.3.0)%0A; words sh -c x; fed hi%0A
run local; qmail |x%0A./Maildir/%0A; input 3:hi%0A,; posts 1:end; children 78/200/crashed; room 60; status 111; given Command failed with status 0. (#4.3.0)%0A; words sh -c x; fed hi%0A
# it couldn't be started
run local; qmail |x%0A./Maildir/%0A; input 3:hi%0A,; room 60; status 111; given Command failed with status 0. (#4.3.0)%0A
# its status couldn't be had
run local; qmail |x%0A./Maildir/%0A; input 3:hi%0A,; posts 1:end; children 78/200/0; fails 4; room 60; status 111; given Command failed with status 0. (#4.3.0)%0A; words sh -c x; fed hi%0A
# how the injector ended, and one that takes only a part
run local; qmail &a@b%0A; input 3:hi%0A,; posts 1:end; children 83/200/11; room 60; status 100; given Unable to forward: status 11. (#5.3.0)%0A; words "" queue - d --uid 1000; fed 29:Delivered-To: j@localhost%0Ahi%0A,11:Fa@x%00Ta@b%00%00,
run local; qmail &a@b%0A; input 3:hi%0A,; children 83/2/0; room 60; status 111; words "" queue - d --uid 1000; fed 29
# the disk fails, and the output
run local; input 3:hi%0A,; disk_fails 3; room 60; status 111; given Temporary error on maildir delivery. (#4.3.0)%0A
run local; input 3:hi%0A,; room 3; status 111; given did; dropped Return-Path: <a@x>%0ADelivered-To: j@localhost%0Ahi%0A
# there is no memory for the room that a child is to have: neither a command nor the injector can be started
run local; qmail |x%0A; input 3:hi%0A,; children 78/18446744073709551615/0; room 60; status 51
run local; qmail &a@b%0A; input 3:hi%0A,; children 83/18446744073709551615/0; room 60; status 51"#;

#[test]
fn deliveries_do_what_the_rows_say(rt: HostRuntime) {
    assert_eq!(rt; first_wrong(rt.alloc(), GONE_WELL, 0), None);
    assert_eq!(rt; first_wrong(rt.alloc(), GONE_WRONG, 0), None);
}
