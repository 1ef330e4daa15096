// Which entry is due first.

use retry_schedule::{Due, PlainDue, Schedule};
use std::alloc::Global;

/// What is done, and what comes of it.
#[derive(Clone, Copy, Debug)]
enum Step {
    /// An entry (due, n) is put in.
    Add(u64, u64),
    /// A number gets another due moment.
    Change(u64, u64),
    /// A number gets a due moment, whether it has one or not.
    Put(u64, u64),
    /// A number gets another due moment, if it has one.
    Again(u64, u64),
    /// The entry of a number is taken out.
    Remove(u64),
    /// The first at a moment.
    First(u64, Option<(u64, u64)>),
    /// When a number is due.
    Of(u64, Option<u64>),
}

/// The last moment of all.
const LAST: u64 = u64::MAX;

/// Steps from a schedule without entries.
const STEPS: [Step; 43] = [
    Step::First(LAST, None),
    Step::Add(8, 3),
    Step::Add(5, 12),
    Step::Add(5, 9),
    Step::Add(LAST, 1),
    Step::First(4, None),
    // Of those that are due together the least number, whichever came first.
    Step::First(5, Some((5, 9))),
    Step::First(LAST, Some((5, 9))),
    Step::Of(12, Some(5)),
    Step::Of(4, None),
    // Later, to the same moment, and earlier.
    Step::Change(9, 7),
    Step::First(8, Some((5, 12))),
    Step::Change(12, 5),
    Step::First(8, Some((5, 12))),
    Step::Change(3, 0),
    Step::First(0, Some((0, 3))),
    Step::Change(3, 7),
    Step::Remove(12),
    Step::Of(12, None),
    Step::First(6, None),
    Step::First(7, Some((7, 3))),
    Step::Remove(3),
    Step::First(7, Some((7, 9))),
    Step::Remove(9),
    Step::First(LAST - 1, None),
    Step::First(LAST, Some((LAST, 1))),
    Step::Add(LAST, 0),
    // In place of a moment, and where there was none.
    Step::Put(0, 4),
    Step::First(LAST, Some((4, 0))),
    Step::Put(2, 4),
    Step::First(LAST, Some((4, 0))),
    Step::Put(0, 4),
    Step::Remove(0),
    Step::First(4, Some((4, 2))),
    // Of a number that isn't due nothing comes.
    Step::Again(0, 1),
    Step::Of(0, None),
    Step::Again(2, LAST),
    Step::First(LAST - 1, None),
    Step::First(LAST, Some((LAST, 1))),
    Step::Again(2, LAST),
    Step::Again(1, 3),
    Step::First(3, Some((3, 1))),
    Step::First(2, None),
];

/// Puts an entry in, if its number has none.
fn add<S: Schedule>(due: &mut S, moment: u64, n: u64) -> bool {
    due.due_of(n).is_none() && due.add(moment, n).is_ok()
}

/// Gives a number that has an entry another moment; whether that was done.
fn change<S: Schedule>(due: &mut S, n: u64, moment: u64) -> bool {
    due.due_of(n).is_some() && due.change(n, moment).is_ok()
}

/// Removes the entry of a number that has one; whether it had.
fn remove<S: Schedule>(due: &mut S, n: u64) -> bool {
    if due.due_of(n).is_none() {
        return false;
    }
    due.remove(n);
    true
}

/// Gives a number another moment, if it has one; it has none exactly if it had none.
fn again<S: Schedule>(due: &mut S, n: u64, moment: u64) -> bool {
    let was_due = due.is_due(n);
    due.reschedule(n, moment);
    due.is_due(n) == was_due
}

/// Whether the step does what it says.
fn does<S: Schedule>(due: &mut S, step: Step) -> bool {
    match step {
        Step::Add(moment, n) => add(due, moment, n),
        Step::Change(n, moment) => change(due, n, moment),
        Step::Put(n, moment) => due.put(moment, n).is_ok(),
        Step::Again(n, moment) => again(due, n, moment),
        Step::Remove(n) => remove(due, n),
        Step::First(now, found) => due.first(now) == found,
        Step::Of(n, found) => due.due_of(n) == found,
    }
}

/// The first step that doesn't do what it says.
fn first_wrong<S: Schedule>(due: &mut S) -> Option<Step> {
    for step in &STEPS {
        if !does(due, *step) {
            return Some(*step);
        }
    }
    None
}

#[test]
fn entries_come_in_order(rt: HostRuntime) {
    let wrong = first_wrong(&mut Due::new(rt.alloc()));
    assert!(rt; wrong.is_none(), "{wrong:?}");
}

#[test]
fn entries_of_the_plain_list_come_in_order(rt: HostRuntime) {
    let wrong = first_wrong(&mut PlainDue::new(rt.alloc()));
    assert!(rt; wrong.is_none(), "{wrong:?}");
}

/// Puts 10,000 entries in, no two of which are due together.
fn is_filled(due: &mut Due) -> bool {
    for n in 0..10_000 {
        if !add(due, n * 7919 % 10_007, n) {
            return false;
        }
    }
    true
}

/// Takes the first out 10,000 times; each time it is due later than the one before.
fn is_emptied(due: &mut Due) -> bool {
    let mut after = None;
    for _ in 0..10_000 {
        let Some((moment, n)) = due.first(LAST) else {
            return false;
        };
        if after >= Some(moment) || !remove(due, n) {
            return false;
        }
        after = Some(moment);
    }
    due.first(LAST).is_none()
}

#[test]
fn many_entries_are_filled_and_emptied(rt: HostRuntime) {
    let mut due = Due::new(rt.alloc());
    assert!(rt; is_filled(&mut due) && is_emptied(&mut due));
}

/// Whether both forms are due alike: the first of both at some moments, and when each number is due.
fn are_alike(due: &Due, plain: &PlainDue) -> bool {
    for at in 0..64 {
        if due.first(at) != plain.first(at) || due.due_of(at) != plain.due_of(at) {
            return false;
        }
    }
    due.first(LAST) == plain.first(LAST)
}

/// Does one of 512 things to both forms; whether both did it and are alike then.
fn both_do(due: &mut Due, plain: &mut PlainDue, turn: u64) -> bool {
    let n = turn.wrapping_mul(37) % 61;
    let moment = turn.wrapping_mul(turn) % 59;
    let done = match turn % 4 {
        0 | 1 => due.put(moment, n).is_ok() && plain.put(moment, n).is_ok(),
        2 => {
            due.reschedule(n, moment);
            plain.reschedule(n, moment);
            true
        }
        _ => {
            due.remove(n);
            plain.remove(n);
            true
        }
    };
    done && are_alike(due, plain)
}

#[test]
fn both_forms_are_alike(rt: HostRuntime) {
    let mut due = Due::new(rt.alloc());
    let mut plain = PlainDue::new(rt.alloc());
    for turn in 0..512 {
        assert!(rt; both_do(&mut due, &mut plain, turn), "{turn}");
    }
}

/// Whether a copy has the same entries, also after one more was put into it.
fn is_copied(alloc: Global, due: &Due) -> bool {
    let Ok(mut copy) = due.copy(alloc) else {
        return false;
    };
    let same = copy.first(LAST) == due.first(LAST) && copy.due_of(5) == due.due_of(5);
    same && copy.put(0, 5).is_ok() && copy.first(0) == Some((0, 5)) && due.first(0).is_none()
}

#[test]
fn a_copy_has_the_same_entries(rt: HostRuntime) {
    let mut due = Due::new(rt.alloc());
    for n in 0..100 {
        assert!(rt; add(&mut due, 100 - n, n), "{n}");
    }
    assert!(rt; is_copied(rt.alloc(), &due));
}
