// Members that are at work late, or never.

use super::scripted::{Script, unordered};
use proc_runner::{Look, PatientSystem, Start, System};
use std::alloc::Global;
use std::cell::Cell;
use std::test::*;

/// A member that is at work once it was looked at so often.
#[derive(Drop)]
struct Late<'a> {
    looks: &'a Cell<u64>,
}

impl Look for Late<'_> {
    fn is_at_work(&self, _alloc: Global, _words: &[&[u8]]) -> bool {
        let left = self.looks.get();
        self.looks.set(left.saturating_sub(1));
        left == 0
    }
}

/// A child: one that is asked so often before it tells its end, and is at work so many looks later; whether it counts as started;
/// and how many looks are left then.
#[derive(Clone, Copy)]
struct Row {
    words: [&'static [u8]; 2],
    asks: u64,
    looks: u64,
    starts: bool,
    left: u64,
}

/// A member that is at work at once.
const MEMBER: Row = Row {
    words: [b"", b"0"],
    asks: 1_000_000,
    looks: 0,
    starts: true,
    left: 0,
};

/// Members that are at work at once, late and never, one that has ended, and a program that is no member.
const ROWS: [Row; 5] = [
    MEMBER,
    Row { looks: 7, ..MEMBER },
    Row {
        looks: 1_000_000,
        starts: false,
        left: 997_000,
        ..MEMBER
    },
    Row {
        asks: 0,
        looks: 9,
        left: 8,
        ..MEMBER
    },
    Row {
        words: [b"0", b"x"],
        looks: 5,
        left: 5,
        ..MEMBER
    },
];

/// What its program does.
const QUIET: Script = Script {
    letter: b'q',
    prints: 0,
    at_once: 1,
    breaks: false,
    asks: 0,
    code: 0,
    in_order: false,
    takes: 0,
};

/// Whether a start by this system is as its row says, where so many looks are left.
fn starts<S: System>(alloc: Global, system: &S, looks: &Cell<u64>, row: &Row) -> bool {
    match Start::of(&row.words) {
        Some(start) => {
            let born = system.spawn(alloc, &start);
            let is_so = born.is_ok() == row.starts;
            drop(born);
            is_so & (looks.get() == row.left)
        }
        None => false,
    }
}

/// Whether a start is as its row says.
fn holds(alloc: Global, row: &Row) -> bool {
    let looks = Cell::new(row.looks);
    let script = Script {
        asks: row.asks,
        ..QUIET
    };
    match unordered(alloc, [script; 4]) {
        Ok(system) => {
            let system = PatientSystem::new(system, Late { looks: &looks });
            let is_so = starts(alloc, &system, &looks, row);
            drop(system);
            is_so
        }
        Err(_) => false,
    }
}

#[test]
fn a_member_is_waited_for(rt: HostRuntime) {
    for row in &ROWS {
        assert!(rt; holds(rt.alloc(), row));
    }
}
