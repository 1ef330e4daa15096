// Faults of control files, and limits at the byte.
use super::files::read;
use super::rows::is;
use address_rules::{ControlError, ControlFile};
use mail_bytes::Memory;
use std::alloc::Global;
use std::test::Fail;

/// The fault that is told, if any.
fn fault(alloc: Global, some: &[(ControlFile, &[u8])]) -> Option<(ControlFile, usize)> {
    match read(alloc, some) {
        Err(ControlError::BadControl { file, line }) => Some((file, line)),
        _ => None,
    }
}

/// Bytes, then so many `a`, then bytes, of which at most 2000.
fn around(alloc: Global, front: &[u8], count: usize, end: &[u8]) -> Vec<u8> {
    let mut text = Vec::new(alloc);
    for part in [front, &[b'a'; 2000][..count.min(2000)], end] {
        let _ = text.extend_from_slice(part);
    }
    text
}

/// The line of the fault of a file whose bytes are so.
fn line(alloc: Global, file: ControlFile, front: &[u8], count: usize, end: &[u8]) -> Option<usize> {
    let text = around(alloc, front, count, end);
    match fault(alloc, &[(file, text.as_slice())]) {
        Some((_, line)) => Some(line),
        None => None,
    }
}

#[test]
fn a_line_of_a_list_has_at_most_1000_bytes(rt: HostRuntime) {
    for file in [
        ControlFile::Locals,
        ControlFile::PercentHack,
        ControlFile::VirtualDomains,
    ] {
        let longest = line(rt.alloc(), file, b"x\n", 1000, b"\ny\n");
        let longer = line(rt.alloc(), file, b"x\n", 1001, b"\ny\n");
        is(&rt, longest.is_none() && longer == Some(2), b"");
    }
}

#[test]
fn a_line_of_a_value_has_at_most_400_bytes(rt: HostRuntime) {
    for file in [
        ControlFile::Me,
        ControlFile::EnvNoAtHost,
        ControlFile::BounceFrom,
        ControlFile::BounceHost,
        ControlFile::DoubleBounceTo,
        ControlFile::DoubleBounceHost,
    ] {
        let longest = line(rt.alloc(), file, b"", 400, b"");
        let longer = line(rt.alloc(), file, b"", 401, b"");
        is(&rt, longest.is_none() && longer == Some(1), b"");
    }
}

#[test]
fn each_line_counts_and_its_blanks_too(rt: HostRuntime) {
    let rows = [
        (b"x\n".as_slice(), 400, b"".as_slice(), None),
        (b"x\n", 401, b"", Some(2)),
        (b"x\n", 398, b" \t", None),
        (b"x\n", 399, b" \t\n", Some(2)),
        (b"x\n\n\n", 401, b"\n", Some(4)),
    ];
    for row in &rows {
        let found = line(rt.alloc(), ControlFile::Me, row.0, row.1, row.2);
        is(&rt, found == row.3, row.0);
    }
}

#[test]
fn a_number_with_a_long_second_line(rt: HostRuntime) {
    let good = line(rt.alloc(), ControlFile::QueueLifetime, b"5\n", 401, b"");
    let bad = line(rt.alloc(), ControlFile::QueueLifetime, b"x\n", 401, b"");
    is(&rt, good == Some(2) && bad == Some(1), b"");
}

/// A list of so many bytes, in lines of 1000.
fn long_list(alloc: Global, count: usize) -> Result<Vec<u8>, Memory> {
    let mut text = vec![in alloc; b'a'; count]?;
    for (at, byte) in text.iter_mut().enumerate() {
        if at % 1000 == 999 {
            *byte = b'\n';
        }
    }
    Ok(text)
}

#[test]
fn a_file_has_at_most_1048576_bytes(rt: HostRuntime) -> Result<(), Fail> {
    let longest = long_list(rt.alloc(), 1_048_576)?;
    let found = fault(rt.alloc(), &[(ControlFile::Locals, longest.as_slice())]);
    is(&rt, found.is_none(), b"");
    Ok(())
}

#[test]
fn one_byte_more_is_too_long(rt: HostRuntime) -> Result<(), Fail> {
    let longer = long_list(rt.alloc(), 1_048_577)?;
    let found = fault(rt.alloc(), &[(ControlFile::Locals, longer.as_slice())]);
    is(&rt, found == Some((ControlFile::Locals, 0)), b"");
    Ok(())
}

#[test]
fn a_nul_is_told_by_its_line(rt: HostRuntime) {
    let rows = [
        (ControlFile::Me, b"a\0".as_slice(), 1),
        (ControlFile::Me, b"a\nb\nc\0d\ne\0", 3),
        (ControlFile::Locals, b"\n#\0\n", 2),
        (ControlFile::QueueLifetime, b"5\n\0", 2),
        (ControlFile::QueueLifetime, b"5\0", 1),
    ];
    for row in &rows {
        let found = fault(rt.alloc(), &[(row.0, row.1)]);
        is(&rt, found == Some((row.0, row.2)), row.1);
    }
}

#[test]
fn the_first_file_is_told(rt: HostRuntime) {
    let found = fault(
        rt.alloc(),
        &[
            (ControlFile::ConcurrencyRemote, b"x"),
            (ControlFile::ConcurrencyLocal, b"5\n\0"),
            (ControlFile::QueueLifetime, b""),
        ],
    );
    is(&rt, found == Some((ControlFile::ConcurrencyLocal, 2)), b"");
}

#[test]
fn the_order_of_the_files(rt: HostRuntime) {
    let names = [
        "me",
        "locals",
        "percenthack",
        "virtualdomains",
        "envnoathost",
        "bouncefrom",
        "bouncehost",
        "doublebounceto",
        "doublebouncehost",
        "concurrencylocal",
        "concurrencyremote",
        "queuelifetime",
    ];
    for (file, name) in ControlFile::ALL.iter().zip(&names) {
        is(&rt, file.name() == *name, name.as_bytes());
    }
}

/// Whether the error is told so.
fn is_told(alloc: Global, why: &ControlError, text: &str) -> bool {
    match format!(in alloc; "{why}") {
        Ok(told) => told.as_str() == text,
        Err(_) => false,
    }
}

/// What is wrong with a control file, as a text.
const TEXTS: [(ControlError, &str); 2] = [
    (
        ControlError::BadControl {
            file: ControlFile::EnvNoAtHost,
            line: 3,
        },
        "control/envnoathost: line 3",
    ),
    (ControlError::Memory, "out of memory"),
];

#[test]
fn errors_are_told_in_words(rt: HostRuntime) {
    for (why, text) in &TEXTS {
        is(&rt, is_told(rt.alloc(), why, text), text.as_bytes());
    }
}
