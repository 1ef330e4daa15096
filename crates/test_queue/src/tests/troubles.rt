// Calls that fail, and directories that are missing.
use super::disks::{audit_of, directories, disk_of, owned};
use mail_bytes::{ByteText, Memory};
use queue_states::AuditError;
use std::alloc::Global;
use std::test::Fail;

/// A search for each of these and one more for each of the 142 directories are 146 calls.
const NAMES: [&str; 4] = ["pid/77.0.1", "mess/1/1", "intd/1", "todo/1"];

/// More calls than an audit of these names makes.
const CALLS: u64 = 146;

/// The first call whose failure doesn't end an audit.
fn first_harmless(alloc: Global) -> Result<u64, Memory> {
    let dirs = directories(alloc)?;
    let names = owned(alloc, &NAMES)?;
    for call in 1..1000 {
        let fails = Vec::from_slice(alloc, &[call])?;
        let told = audit_of(alloc, disk_of(alloc, &dirs, b"", &names, fails))?;
        if told.as_str() != "fault" {
            return Ok(call);
        }
    }
    Ok(0)
}

#[test]
fn a_failure_of_each_call_ends_an_audit(rt: HostRuntime) -> Result<(), Fail> {
    assert_eq!(rt; first_harmless(rt.alloc())?, CALLS + 1);
    Ok(())
}

/// What an audit tells if this directory is missing.
fn told_without(
    alloc: Global,
    dirs: &[ByteText],
    names: &[ByteText],
    dir: &[u8],
) -> Result<String, Memory> {
    audit_of(alloc, disk_of(alloc, dirs, dir, names, Vec::new(alloc)))
}

/// How many directories are told to be missing, if each is in turn.
fn told_missing(alloc: Global) -> Result<u64, Memory> {
    let dirs = directories(alloc)?;
    let names = owned(alloc, &NAMES)?;
    let mut count: u64 = 0;
    for dir in &dirs {
        let told = told_without(alloc, &dirs, &names, dir.as_slice())?;
        let rest = told.as_str().strip_prefix("missing ");
        if rest.is_some_and(|rest| rest.as_bytes() == dir.as_slice()) {
            count = count.saturating_add(1);
        }
    }
    Ok(count)
}

#[test]
fn a_missing_directory_is_named(rt: HostRuntime) -> Result<(), Fail> {
    assert_eq!(rt; told_missing(rt.alloc())?, 142);
    Ok(())
}

/// Whether the error is told so.
fn is_told(alloc: Global, why: &AuditError, text: &str) -> bool {
    match format!(in alloc; "{why}") {
        Ok(told) => told.as_str() == text,
        Err(_) => false,
    }
}

#[test]
fn errors_are_told_in_words(rt: HostRuntime) {
    let missing = AuditError::Missing(ByteText::new(rt.alloc()));
    assert!(rt;
        is_told(
            rt.alloc(),
            &AuditError::Fault,
            "the queue couldn't be listed"
        )
    );
    assert!(rt; is_told(rt.alloc(), &missing, "a directory of the queue is missing"));
    assert!(rt; is_told(rt.alloc(), &AuditError::Memory, "out of memory"));
}
