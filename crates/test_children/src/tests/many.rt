// Many real processes at once.

use super::yard::{NOTHING, Yard, gather};
use outside::{Posts, Spawner, Status};
use proc_runner::System;
use std::alloc::Global;
use std::sync::Wait;

/// How many children.
const MANY: usize = 240;

/// How many bytes each prints.
const EACH: usize = 10_000;

/// Whether many children at once each print their bytes and end well. They are the first ones.
pub fn all_print<R: Wait + Drop, S: System>(yard: &mut Yard<R, S>, alloc: Global) -> bool {
    let mut right = true;
    for _ in 0..MANY {
        let chan = yard.start(alloc, &[b"sh", b"-c", b"exec head -c 10000 /dev/zero"]);
        yard.children.finish(chan);
        right = right && chan > 0;
    }
    let mut came = [NOTHING; MANY];
    gather(yard, &mut came);
    for at in 0..MANY {
        right = yard.children.status(at as u32 + 1) == Status::Ended(0) && right;
        right = right && came[at].is_right && came[at].bytes == EACH && came[at].ends == 1;
    }
    right && yard.posts.faults() == 0 && yard.children.faults() == 0
}
