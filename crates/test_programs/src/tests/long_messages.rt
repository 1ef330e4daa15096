// Messages with more bytes than a message may have, over a disk that drops them.

use super::name_disk::NameDisk;
use super::repeated::Repeated;
use super::sources::pieces;
use outside::{MemClock, MemSource};
use queue_command::{Form, inject};
use received_line::Invoked;
use std::alloc::Global;

/// How many bytes of a message are taken at most: one past the limit.
const MOST_TAKEN: usize = 1_073_741_825;

/// How many bytes it has: 175 more.
const LENGTH: usize = 1_073_742_000;

/// How a message and its envelope are given, what stands before its bytes, and the status.
type Row = (Form, &'static [u8], u8);

/// Messages that are too long, and the status.
const ROWS: [Row; 3] = [
    // by itself
    (Form::Beside, b"", 31),
    // a netstring that promises more than its source has
    (Form::Netstrings, b"2000000000:", 31),
    // one that has as many bytes as it may, after which the next one is no comma
    (Form::Netstrings, b"1073741824:", 91),
];

/// What comes of such a message: the exit status, whether the disk has no name after it, and how many of its bytes were taken.
fn outcome(alloc: Global, form: Form, head: &'static [u8]) -> (u8, bool, usize) {
    let mut disk = NameDisk::new(alloc);
    let mut message = Repeated::new(head, LENGTH);
    let mut envelope = MemSource::new(pieces(alloc, &[b"Fa@x\0Tb@y\0\0"]), Vec::new(alloc));
    let mut clock = MemClock::new(Vec::new(alloc), 77);
    let status = inject(
        alloc,
        1000,
        Invoked::Uid(1000),
        form,
        &mut disk,
        &mut message,
        &mut envelope,
        &mut clock,
    );
    let is_empty = disk.is_empty();
    let taken = message.taken().saturating_sub(head.len());
    drop(disk);
    drop(message);
    drop(envelope);
    drop(clock);
    (status, is_empty, taken)
}

#[test]
fn a_message_of_over_a_gibibyte_is_refused(rt: HostRuntime) {
    for (form, head, status) in &ROWS {
        let came = outcome(rt.alloc(), *form, head);
        assert!(rt; came == (*status, true, MOST_TAKEN), "{:?}", *head);
    }
}
