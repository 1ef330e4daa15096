// Messages that are learnt in any order, and again.

use mail_bytes::ByteText;
use send_known::{Known, KnownList};
use std::alloc::Global;

/// Numbers in the order in which they are learnt, each with when it was born.
const LEARNT: [(u64, u64); 4] = [(9, 10), (7, 20), (9, 30), (8, 40)];

/// When each was born, by what was learnt last; 0 if it isn't known.
const BORN: [(u64, u64); 4] = [(6, 0), (7, 20), (8, 40), (9, 30)];

/// Learns a message; whether there was memory.
fn learns(alloc: Global, known: &mut KnownList, n: u64, birth: u64) -> bool {
    let message = Known {
        n,
        birth,
        finish_at: birth,
        local: true,
        remote: false,
        sender: ByteText::new(alloc),
    };
    known.learn(message).is_ok()
}

/// Whether all are learnt, each number is known once, and what is told of it is what was learnt last.
fn are_learnt(alloc: Global) -> bool {
    let mut known = KnownList::new(alloc);
    for (n, birth) in &LEARNT {
        if !learns(alloc, &mut known, *n, *birth) {
            return false;
        }
    }
    let are_told = BORN.iter().all(|(n, birth)| known.birth_of(*n) == *birth);
    known.forget(9);
    are_told && !known.is_known(9)
}

#[test]
fn a_known_number_is_learnt_again(rt: HostRuntime) {
    assert!(rt; are_learnt(rt.alloc()));
}
