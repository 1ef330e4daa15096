// Audits of disks with a few names.
use super::disks::{audit_of, directories, disk_of, owned};
use mail_bytes::Memory;
use std::alloc::Global;
use std::test::Fail;

/// The names of a disk, and what its audit tells.
struct Row(&'static [&'static str], &'static str);

/// Queues and what is printed of them.
const ROWS: &[Row] = &[
    Row(&[], "pid 0\n"),
    Row(&["pid/77.0.1", "mess/1/1"], "pid 1\n1 S2\n"),
    Row(&["mess/1/1", "info/1/1"], "pid 0\n1 S5\n"),
    Row(&["mess/1/1", "info/1/1", "intd/1"], "pid 0\n1 other\n"),
    Row(&["mess/1/1", "intd/1"], "pid 0\n1 S3\n"),
    Row(&["mess/1/1", "intd/1", "todo/1"], "pid 0\n1 S4\n"),
    // the names of the split layout count as those of the flat one, and both together as one
    Row(&["mess/1/1", "intdx/1/1"], "pid 0\n1 S3\n"),
    Row(&["mess/1/1", "intdx/1/1", "todox/1/1"], "pid 0\n1 S4\n"),
    Row(&["mess/1/1", "intdx/1/1", "todo/1"], "pid 0\n1 S4\n"),
    Row(&["mess/1/1", "todo/1", "todox/1/1"], "pid 0\n1 S4\n"),
    Row(&["mess/1/1", "info/1/1", "intdx/1/1"], "pid 0\n1 other\n"),
    Row(
        &["todox/22/22", "todox/0/23", "todox/1/24", "todox/0/46"],
        "pid 0\n22 other\n23 other\n24 other\n46 other\n",
    ),
    // in other splits, and with digits whose order as text is another
    Row(
        &["mess/20/457", "mess/10/10", "mess/2/2", "mess/0/23"],
        "pid 0\n2 S2\n10 S2\n23 S2\n457 S2\n",
    ),
    Row(
        &["todo/10", "mess/10/10", "todo/9", "mess/9/9", "bounce/100"],
        "pid 0\n9 S4\n10 S4\n100 other\n",
    ),
    // every name in pid/ counts
    Row(
        &["pid/77.0.1", "pid/77.0.2", "pid/1", "pid/stray", "pid/.x"],
        "pid 5\n",
    ),
    // names that the queue doesn't write are passed over
    Row(
        &[
            "todo/x",
            "todo/1x",
            "todo/01",
            "todo/0",
            "todo/-1",
            "todo/18446744073709551616",
            "mess/0/1",
            "mess/1/01",
            "mess/1/x",
            "info/2/1",
            "todo/1/1",
            "todox/x",
            "todox/1",
            "todox/2/1",
            "todox/1/01",
            "intdx/0/1",
            "control/me",
            "mess/1/1",
        ],
        "pid 0\n1 S2\n",
    ),
    Row(
        &["bounce/!", "bounce/2", "bounce/~", "intd/1.0.1"],
        "pid 0\n2 other\n",
    ),
    Row(
        &["todo/18446744073709551615"],
        "pid 0\n18446744073709551615 other\n",
    ),
];

/// The audit of the first row that is another; the empty text if there is none.
fn first_wrong(alloc: Global) -> Result<String, Memory> {
    let dirs = directories(alloc)?;
    for Row(names, expected) in ROWS {
        let names = owned(alloc, names)?;
        let told = audit_of(alloc, disk_of(alloc, &dirs, b"", &names, Vec::new(alloc)))?;
        if told.as_str() != *expected {
            return Ok(told);
        }
    }
    Ok(String::new(alloc))
}

#[test]
fn audits_tell_what_is_there(rt: HostRuntime) -> Result<(), Fail> {
    assert_eq!(rt; first_wrong(rt.alloc())?.as_str(), "");
    Ok(())
}
