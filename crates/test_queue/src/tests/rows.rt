// The assertions of these tests, so that nothing else branches while a test holds what it looks at.
use std::process::Abort;

/// It holds, of this row.
pub fn is(rt: &impl Abort, holds: bool, row: &[u8]) {
    assert!(rt; holds, "{row:?}");
}

/// These are the same bytes.
pub fn same(rt: &impl Abort, one: &[u8], other: &[u8]) {
    assert_eq!(rt; one, other);
}
