// With what the commands of users exit.

use std::test::Fail;
use world_pipes::command_exits;

/// Command lines, and with what each exits.
const ROWS: [(&[u8], u8); 18] = [
    (b"exit 0", 0),
    (b"exit 3", 3),
    (b"exit 99", 99),
    (b"exit 111", 111),
    (b"exit 255", 255),
    // no statuses
    (b"exit 256", 127),
    (b"exit 18446744073709551616", 127),
    (b"exit -1", 127),
    (b"exit 07", 127),
    (b"exit 00", 127),
    // none that is told so
    (b"exit", 127),
    (b"exit ", 127),
    (b"exit  3", 127),
    (b"exit 3 ", 127),
    (b" exit 3", 127),
    (b"EXIT 3", 127),
    // other commands
    (b"true", 127),
    (b"", 127),
];

/// Which row exits otherwise first; none if all exit so.
fn first_wrong(rows: &[(&[u8], u8)]) -> Option<usize> {
    for (at, row) in rows.iter().enumerate() {
        if command_exits(row.0) != row.1 {
            return Some(at);
        }
    }
    None
}

#[test]
fn commands_exit_so(rt: HostRuntime) -> Result<(), Fail> {
    assert_eq!(rt; first_wrong(&ROWS), None);
    Ok(())
}
