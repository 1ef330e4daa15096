// The sender with its links' children, over posts, children and a disk: one generation, or several over the same disk.

use super::rows::first_wrong;

/// Those that end in their start, and those that find nothing to do.
const STARTS: &str = r#"# nothing to do
run send 1; posts 2:x 3:x; pace 1; room 999; status 0; started 3; counted 0 0 0 0
run send 3; posts 2:x 3:x; pace 1; room 999; status 0; started 3
# its status is taken of each child; one that can't be had changes nothing
run send 1; posts 2:x 3:x; pace 1; children 78/9/failed 79/9/0 80/9/0; room 999; status 0; started 3; counted 1 0 0 0
run send 1; posts 2:x 3:x; pace 1; children 78/9/0 79/9/failed 80/9/0; room 999; status 0; started 3; counted 1 0 0 0
run send 1; posts 2:x 3:x; pace 1; children 78/9/0 79/9/0 80/9/failed; room 999; status 0; started 3; counted 1 0 0 0
# the first or the third child can't be started: no file call is made, and those that were started are ended
run send 1; posts 2:x 3:x; pace 1; fails 1; disk_fails 1; room 999; status 84; counted 1 0 0 0
run send 1; posts 2:x 3:x; pace 1; fails 3; disk_fails 1; room 999; status 84; started 2; counted 1 0 0 0
run send 1; posts 2:x 3:x; pace 1; children 78/9/failed 79/9/failed; room 999; status 84; started 2; counted 3 0 0 0
# there is no memory for the room that the first or the third child is to have
run send 1; posts 2:x 3:x; pace 1; children 78/18446744073709551615/0; room 999; status 51; counted 0 0 0 0
run send 1; posts 2:x 3:x; pace 1; children 78/9/0 79/9/0 80/18446744073709551615/0; room 999; status 51; started 2; counted 0 0 0 0
# a directory is missing; the first or a later file call fails
run send 1; lacks info/0; posts 2:x 3:x; pace 1; room 999; status 84; started 3; counted 0 0 0 0
run send 1; lacks info/22; posts 2:x 3:x; pace 1; room 999; status 84; started 3; counted 0 0 0 0
run send 1; posts 2:x 3:x; pace 1; disk_fails 1; room 999; status 84; started 3; counted 0 1 0 0
run send 1; posts 2:x 3:x; pace 1; disk_fails 20; room 999; status 84; started 3; counted 0 1 0 0
# a bad control file
run send 1; mail control/queuelifetime=abc%0A; posts 2:x 3:x; pace 1; room 999; status 85; started 3; counted 0 0 0 0
# a record of a message that can't be read
run send 1; mail info/1/1=a@x%00; posts 2:x 3:x; pace 1; room 999; status 0; given alert: skip 1%0A; started 3
# the local or the remote spawner ends, or can't be heard, before it tells how many it runs
run send 1; posts 2:end; pace 1; room 999; status 82; started 3; counted 0 0 0 0
run send 1; posts 2:failed; pace 1; room 999; status 82; started 3; counted 0 0 1 0
run send 1; posts 2:x 3:end; pace 1; room 999; status 83; started 3; counted 0 0 0 0
run send 1; posts 2:x 3:failed; pace 1; room 999; status 83; started 3; counted 0 0 1 0"#;

/// Those that end in a turn, or have trouble in one.
const ENDS: &str =
    r#"# the cleaner ends while the sender waits for its answer to todo/1, or can't be heard; it takes nothing of the command, or a part
run send 1; mail queued; posts 2:x 3:x 1:end; pace 1; room 999; status 81; started 3; fed todo/1%00; counted 0 0 0 0
run send 1; mail queued; posts 2:x 3:x 1:failed; pace 1; room 999; status 81; started 3; fed todo/1%00; counted 0 0 1 0
run send 1; mail queued; posts 2:x 3:x; pace 1; children 78/0/0 79/0/0 80/0/0; room 999; status 81; started 3; counted 1 0 0 0
run send 1; mail queued; posts 2:x 3:x; pace 1; children 78/3/0 79/0/0 80/0/0; room 999; status 81; started 3; fed tod; counted 1 0 0 0
# it can't do it
run send 1; mail queued; posts 2:x 3:x 1:!; pace 1; room 999; status 0; given alert: left 1%0A; started 3; fed todo/1%00
# the log is full, in a line or from the start
run send 1; mail queued; posts 2:x 3:x 1:+; pace 1; room 12; status 53; given new msg 1%0Ain; started 3; fed todo/1%00; counted 0 0 0 1
run send 1; mail queued; posts 2:x 3:x 1:+; pace 1; room 0; status 53; started 3; fed todo/1%00; counted 0 0 0 1
# a message that can't be preprocessed
run send 1; mail todo/1=u1000%00p77%00Fa@x%00Tb@y%00; posts 2:x 3:x; pace 1; room 999; status 0; given alert: left 1%0A; started 3
# the local spawner, or the remote one, ends or can't be heard with a delivery in flight; the remote one takes a part of the request
run send 20; mail known; posts 2:x 3:x 2:end; pace 1; room 999; status 82; given starting delivery 1: msg 1 to remote b@y%0Astatus: local 0/10 remote 1/20%0A; started 3; fed3 %001/1%00a@x%00b@y%00; counted 0 0 0 0
run send 20; mail known; posts 2:x 3:x 3:end; pace 1; room 999; status 83; given starting delivery 1: msg 1 to remote b@y%0Astatus: local 0/10 remote 1/20%0A; started 3; fed3 %001/1%00a@x%00b@y%00; counted 0 0 0 0
run send 20; mail known; posts 2:x 3:x 3:failed; pace 1; room 999; status 83; given starting delivery 1: msg 1 to remote b@y%0Astatus: local 0/10 remote 1/20%0A; started 3; fed3 %001/1%00a@x%00b@y%00; counted 0 0 1 0
run send 20; mail known; posts 2:x 3:x; pace 1; children 78/9/0 79/9/0 80/4/0; room 999; status 83; started 3; fed3 %001/1; counted 1 0 0 0
# a report of no delivery
run send 1; posts 2:x 3:x 3:%00Ksettled%00; room 999; status 0; given alert: report 0%0A; started 3"#;

/// Those that deliver, or try to.
const MAILS: &str =
    r#"# a message that is delivered by the next generation; then its number is used again
run send 1; mail queued; posts 2:x 3:x 1:+; pace 1; room 999; status 0; given new msg 1%0Ainfo msg 1: bytes 71 from <a@x> qp 77 uid 1000%0A; started 3; fed todo/1%00; then; run send 20; gone intd/1 todo/1; posts 2:x 3:x 3:%00Ksettled%00 1:+; pace 1; room 999; status 0; given starting delivery 1: msg 1 to remote b@y%0Astatus: local 0/10 remote 1/20%0Adelivery 1: success: settled%0Astatus: local 0/10 remote 0/20%0Aend msg 1%0A; started 3; fed foop/1%00; fed3 %001/1%00a@x%00b@y%00; then; run send 1; gone mess/1/1; mail mess/1/1=Received:%20(qmail%2083%20invoked%20by%20uid%201000)%3B%201%20Jan%201970%2000:00:00%20-0000%0Aho intd/1=u1000%00p83%00Fc@x%00Td@y%00 todo/1=u1000%00p83%00Fc@x%00Td@y%00; posts 2:x 3:x 1:+; pace 1; room 999; status 0; given new msg 1%0Ainfo msg 1: bytes 70 from <c@x> qp 83 uid 1000%0A; started 3; fed todo/1%00
# one that is deferred, and again at the end of its time
run send 1; mail queued; posts 2:x 3:x 1:+; pace 1; room 999; status 0; given new msg 1%0Ainfo msg 1: bytes 71 from <a@x> qp 77 uid 1000%0A; started 3; fed todo/1%00; then; run send 20; gone intd/1 todo/1; posts 2:x 3:x 3:%00Zsettled%00 3:%00Zsettled%00; pace 2; later 7; moment 604800; room 999; status 0; given starting delivery 1: msg 1 to remote b@y%0Astatus: local 0/10 remote 1/20%0Adelivery 1: deferral: settled%0Astatus: local 0/10 remote 0/20%0Astarting delivery 2: msg 1 to remote b@y%0Astatus: local 0/10 remote 1/20%0Adelivery 2: deferral: settled%0Astatus: local 0/10 remote 0/20%0A; started 3; fed3 %001/1%00a@x%00b@y%00%001/1%00a@x%00b@y%00
# a second later it is too old
run send 1; mail queued; posts 2:x 3:x 1:+; pace 1; room 999; status 0; given new msg 1%0Ainfo msg 1: bytes 71 from <a@x> qp 77 uid 1000%0A; started 3; fed todo/1%00; then; run send 20; gone intd/1 todo/1; posts 2:x 3:x 3:%00Zsettled%00 3:%00Zsettled%00 4:end 1:+; pace 2; later 7; moment 604801; room 999; status 0; given starting delivery 1: msg 1 to remote b@y%0Astatus: local 0/10 remote 1/20%0Adelivery 1: deferral: settled%0Astatus: local 0/10 remote 0/20%0Astarting delivery 2: msg 1 to remote b@y%0Astatus: local 0/10 remote 1/20%0Adelivery 2: failure: settled%0Astatus: local 0/10 remote 0/20%0Abounce msg 1 qp 81%0Aend msg 1%0A; started 4; fed foop/1%00; fed3 %001/1%00a@x%00b@y%00%001/1%00a@x%00b@y%00; fed4 515:Date: 8 Jan 1970 00:00:01 -0000%0AFrom: MAILER-DAEMON@localhost%0ATo: a@x%0ASubject: failure notice%0A%0AHi. This is the qmail-send program at localhost.%0AI'm afraid I wasn't able to deliver your message to the following addresses.%0AThis is a permanent error%3B I've given up. Sorry it didn't work out.%0A%0A<b@y>:%0AsettledI'm not going to try again%3B this message has been in the queue too long.%0A%0A--- Below this line is a copy of the message.%0A%0AReturn-Path: <a@x>%0AReceived: (qmail 77 invoked by uid 1000)%3B 1 Jan 1970 00:00:00 -0000%0Ahi%0A,8:F%00Ta@x%00%00,
# one that the start finds, and that is returned; if its injector can't be started, or fails, it is to be returned later
run send 20; mail known; posts 2:x 3:x 3:%00Dno%00 4:end 1:+; pace 1; room 999; status 0; given starting delivery 1: msg 1 to remote b@y%0Astatus: local 0/10 remote 1/20%0Adelivery 1: failure: no%0Astatus: local 0/10 remote 0/20%0Abounce msg 1 qp 81%0Aend msg 1%0A; started 4; fed foop/1%00; fed3 %001/1%00a@x%00b@y%00; fed4 370:Date: 1 Jan 1970 00:00:00 -0000%0AFrom: MAILER-DAEMON@localhost%0ATo: a@x%0ASubject: failure notice%0A%0AHi. This is the qmail-send program at localhost.%0AI'm afraid I wasn't able to deliver your message to the following addresses.%0AThis is a permanent error%3B I've given up. Sorry it didn't work out.%0A%0A<b@y>:%0Ano%0A%0A--- Below this line is a copy of the message.%0A%0AReturn-Path: <a@x>%0Ahi%0A,8:F%00Ta@x%00%00,
run send 20; mail known; posts 2:x 3:x 3:%00Dno%00; pace 1; children 78/99/0 79/99/0 80/99/0 81/18446744073709551615/0; room 999; status 0; given starting delivery 1: msg 1 to remote b@y%0Astatus: local 0/10 remote 1/20%0Adelivery 1: failure: no%0Astatus: local 0/10 remote 0/20%0A; started 3; fed3 %001/1%00a@x%00b@y%00
run send 9; mail known; posts 2:x 3:x 3:%00Dno%00 4:end; pace 1; children 78/99/0 79/99/0 80/99/0 81/9999/53; room 999; status 0; given starting delivery 1: msg 1 to remote b@y%0Astatus: local 0/10 remote 1/20%0Adelivery 1: failure: no%0Astatus: local 0/10 remote 0/20%0A; started 4; fed3 %001/1%00a@x%00b@y%00; fed4 370:Date: 1 Jan 1970 00:00:00 -0000%0AFrom: MAILER-DAEMON@localhost%0ATo: a@x%0ASubject: failure notice%0A%0AHi. This is the qmail-send program at localhost.%0AI'm afraid I wasn't able to deliver your message to the following addresses.%0AThis is a permanent error%3B I've given up. Sorry it didn't work out.%0A%0A<b@y>:%0Ano%0A%0A--- Below this line is a copy of the message.%0A%0AReturn-Path: <a@x>%0Ahi%0A,8:F%00Ta@x%00%00,
# the remote spawner ends with a delivery in flight; the next generation makes it again
run send 20; mail known; posts 2:x 3:x 3:end; pace 1; room 999; status 83; given starting delivery 1: msg 1 to remote b@y%0Astatus: local 0/10 remote 1/20%0A; started 3; fed3 %001/1%00a@x%00b@y%00; then; run send 20; posts 2:x 3:x 3:%00Ksettled%00 1:+; pace 1; room 999; status 0; given starting delivery 1: msg 1 to remote b@y%0Astatus: local 0/10 remote 1/20%0Adelivery 1: success: settled%0Astatus: local 0/10 remote 0/20%0Aend msg 1%0A; started 3; fed foop/1%00; fed3 %001/1%00a@x%00b@y%00"#;

/// How they rest.
const RESTS: &str =
    r#"# it waits for the first byte of each spawner: a pause before each look that found nothing to do
run send 1; posts 2:x 3:x; pace 2; room 999; status 0; started 3; rests 4 6
# after each idle turn but the last
run send 3; posts 2:x 3:x; room 999; status 0; started 3; rests 2 2003
# of messages that can't be preprocessed, which are tried by their names, only after one that comes no later than the one before it
run send 3; mail todo/1=u1000%00p77%00Fa@x%00Tb@y%00; posts 2:x 3:x; room 999; status 0; given alert: left 1%0Aalert: left 1%0Aalert: left 1%0A; started 3; rests 1 1002
run send 7; mail todo/1=u1000%00p77%00Fa@x%00Tb@y%00 todo/12=u1000%00p77%00Fa@x%00Tb@y%00 todo/5=u1000%00p77%00Fa@x%00Tb@y%00; posts 2:x 3:x; room 999; status 0; given alert: left 1%0Aalert: left 12%0Aalert: left 5%0Aalert: left 1%0Aalert: left 12%0Aalert: left 5%0Aalert: left 1%0A; started 3; rests 1 1004
# while a delivery is in flight, before each of the last turns
run send 3; mail known; posts 2:x 3:x; room 999; status 0; given starting delivery 1: msg 1 to remote b@y%0Astatus: local 0/10 remote 1/20%0A; started 3; fed3 %001/1%00a@x%00b@y%00; rests 2 4003
# not while a report waits to be taken
run send 3; posts 2:x 3:x 3:%00K%00 3:%00K%00; room 999; status 0; given alert: report 0%0Aalert: report 0%0A; started 3; rests 1 1002"#;

#[test]
fn senders_start_and_end_as_the_rows_say(rt: HostRuntime) {
    assert_eq!(rt; first_wrong(rt.alloc(), STARTS, 0), None);
    assert_eq!(rt; first_wrong(rt.alloc(), ENDS, 0), None);
    assert_eq!(rt; first_wrong(rt.alloc(), RESTS, 0), None);
}

#[test]
fn senders_deliver_as_the_rows_say(rt: HostRuntime) {
    assert_eq!(rt; first_wrong(rt.alloc(), MAILS, 0), None);
}
