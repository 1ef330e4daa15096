// Where paths of .qmail files lead, by rows.

use dot_qmail::path_in;
use std::alloc::Global;
use std::test::Fail;

/// A home, a path, and where it leads.
const ROWS: [(&[u8], &[u8], &[u8]); 7] = [
    (b"home/j", b"./Maildir/", b"home/j/Maildir/"),
    (b"home/j", b"./", b"home/j/"),
    (b"home/j", b"././m", b"home/j/./m"),
    (b"home/j", b".m", b"home/j/.m"),
    (b"home/j", b"../m", b"home/j/../m"),
    (b"home/j", b"/", b"/"),
    (b"/h", b"/abs/dir/", b"/abs/dir/"),
];

/// Whether the path leads there.
fn leads(alloc: Global, home: &[u8], path: &[u8], to: &[u8]) -> bool {
    match path_in(alloc, home, path) {
        Ok(text) => text.is(to),
        Err(_) => false,
    }
}

#[test]
fn paths_lead_into_the_home_or_stay(rt: HostRuntime) -> Result<(), Fail> {
    for (k, (home, path, to)) in ROWS.iter().enumerate() {
        assert!(rt; leads(rt.alloc(), home, path, to), "row {k}");
    }
    Ok(())
}
