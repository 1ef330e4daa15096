// The names of children.

use actor_names::{bounce_name, delivery_name, forward_of};
use std::test::Fail;

/// A number, and the names of that bounce, that delivery and its forward.
struct Row {
    number: u64,
    bounce: &'static [u8],
    delivery: &'static [u8],
    forward: &'static [u8],
}

/// The first ones, one with two digits, and the last ones.
const ROWS: [Row; 3] = [
    Row {
        number: 1,
        bounce: b"b.1",
        delivery: b"l.1",
        forward: b"f.1",
    },
    Row {
        number: 20,
        bounce: b"b.20",
        delivery: b"l.20",
        forward: b"f.20",
    },
    Row {
        number: 18446744073709551615,
        bounce: b"b.18446744073709551615",
        delivery: b"l.18446744073709551615",
        forward: b"f.18446744073709551615",
    },
];

/// Whether the names are those of the row.
fn is_right(row: &Row) -> bool {
    let delivery = delivery_name(row.number);
    bounce_name(row.number).is(row.bounce)
        && delivery.is(row.delivery)
        && forward_of(&delivery).is(row.forward)
}

/// Which row has other names first; none if all are right.
fn first_wrong(rows: &[Row]) -> Option<usize> {
    for (at, row) in rows.iter().enumerate() {
        if !is_right(row) {
            return Some(at);
        }
    }
    None
}

#[test]
fn children_have_names(rt: HostRuntime) -> Result<(), Fail> {
    assert_eq!(rt; first_wrong(&ROWS), None);
    Ok(())
}
