// Each order of the pieces and the ends of three channels.

use super::channels::{Deed, is_done};
use super::scripted::{Script, Scripted, Turns, with_turns};
use super::yard::{POST, Yard};
use outside::{Post, Posts, Spawner, Status};
use std::alloc::{AllocError, Global};
use std::sync::{Arc, Wait};
use std::test::*;
use std::thread::Threads;

/// How often each of the three is read: two pieces and the end; one piece and a failure; one piece and the end.
const READ: [u64; 3] = [3, 2, 2];

/// How many readings that are.
const STEPS: usize = 7;

/// In how many orders they can come: 7! / (3! 2! 2!).
const ORDERS: u64 = 210;

/// In which order the channels are read, by a number below 3^7 whose digits are the channels; None if one of them isn't read as
/// often as it should be.
fn order_of(number: u32) -> Option<[u8; STEPS]> {
    let mut order = [0; STEPS];
    let mut read: [u64; 3] = [0; 3];
    let mut rest = number;
    for at in 0..STEPS {
        let who = (rest % 3) as usize;
        order[at] = who as u8;
        read[who] = read[who].saturating_add(1);
        rest /= 3;
    }
    if read == READ { Some(order) } else { None }
}

/// All orders, one after the other.
fn all_orders(alloc: Global) -> Result<Vec<u8>, AllocError> {
    let mut all = Vec::new(alloc);
    for number in 0..2187 {
        if let Some(order) = order_of(number) {
            all.extend_from_slice(&order)?;
        }
    }
    Ok(all)
}

const LETTERS: Script = Script {
    letter: b'0',
    prints: 1,
    at_once: 1,
    breaks: false,
    asks: 2,
    code: 0,
    in_order: true,
    takes: 10_000,
};

/// The three, and one that isn't started.
const SCRIPTS: [Script; 4] = [
    Script {
        prints: 2,
        asks: 0,
        ..LETTERS
    },
    Script {
        letter: b'1',
        breaks: true,
        ..LETTERS
    },
    Script {
        letter: b'2',
        code: 100,
        ..LETTERS
    },
    LETTERS,
];

const STATUSES: [Status; 3] = [Status::Ended(0), Status::Crashed, Status::Ended(100)];

/// What the n-th reading of one of the three, as this channel, is told as.
fn wanted(who: u8, nth: u64, chan: u32) -> Post {
    match (who, nth) {
        (0, 0 | 1) | (1 | 2, 0) => Post::Bytes { chan, len: 1 },
        (1, _) => Post::Failed { chan },
        _ => Post::End { chan },
    }
}

/// Whether posts come in the order of these readings, where the first of the three channels is this one. A reading is done only once
/// the post of the one before it was taken.
fn comes<R: Wait + Drop>(
    yard: &mut Yard<R, Scripted>,
    turns: &Turns,
    order: &[u8],
    first: u32,
) -> bool {
    let mut read: [u64; 3] = [0; 3];
    let mut buffer = [0; POST];
    let mut right = true;
    for who in order {
        let at = usize::from(*who).min(2);
        let chan = first.saturating_add(u32::from(*who));
        let post = yard.next(&mut buffer);
        right = right && post == wanted(*who, read[at], chan);
        if let Post::Bytes { .. } = post {
            right = right && buffer[0] == b'0' | *who;
        }
        read[at] = read[at].saturating_add(1);
        turns.go_on();
    }
    right
}

/// Whether three children whose outputs are read in this order are told in it, and have their statuses.
fn keeps<R: Wait + Drop>(
    yard: &mut Yard<R, Scripted>,
    alloc: Global,
    turns: &Turns,
    order: &[u8],
) -> bool {
    let names: [&[u8]; 3] = [b"0", b"1", b"2"];
    let first = yard.start(alloc, &[names[0]]);
    let second = yard.start(alloc, &[names[1]]);
    let third = yard.start(alloc, &[names[2]]);
    let mut right = first > 0 && second > first && third > second;
    right = comes(yard, turns, order, first) && right;
    for at in 0..3 {
        let chan = first.saturating_add(at as u32);
        right = yard.children.status(chan) == STATUSES[at] && right;
    }
    right
}

/// A system of the scripts, which are read in all orders, one after the other.
fn ordered(alloc: Global) -> Result<Scripted, AllocError> {
    match all_orders(alloc) {
        Ok(all) => with_turns(alloc, SCRIPTS, all),
        Err(why) => Err(why),
    }
}

/// How many orders are kept.
fn all_kept<R: Wait + Drop>(yard: &mut Yard<R, Scripted>, alloc: Global, turns: &Turns) -> u64 {
    let mut kept: u64 = 0;
    for order in turns.order.as_slice().chunks(STEPS) {
        if !keeps(yard, alloc, turns, order) {
            return kept;
        }
        kept = kept.saturating_add(1);
    }
    kept
}

/// Whether each order is kept, and a failure counted in each.
pub fn are_kept<R: Wait + Drop>(
    yard: &mut Yard<R, Scripted>,
    alloc: Global,
    turns: &Turns,
) -> bool {
    all_kept(yard, alloc, turns) == ORDERS && yard.posts.faults() == ORDERS
}

/// Whether all orders are, of children of this system.
fn tried<R: Threads + Wait + Copy + Send + Sync + Drop + 'static>(
    rt: R,
    alloc: Global,
    system: Scripted,
) -> bool {
    match Arc::try_clone(&system.turns) {
        Ok(turns) => {
            let is_so = is_done(rt, alloc, 4, system, Deed::Orders(turns.as_ref()));
            drop(turns);
            is_so
        }
        Err(_) => {
            drop(system);
            false
        }
    }
}

#[test]
fn each_order_of_three_channels(rt: HostRuntime) {
    match ordered(rt.alloc()) {
        Ok(system) => assert!(rt; tried(rt, rt.alloc(), system)),
        Err(_) => assert!(rt; false),
    }
}
