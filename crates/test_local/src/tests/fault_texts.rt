// What is wrong with a home or a .qmail file, in words.

use dot_qmail::{ChooseError, PlanError};
use std::alloc::Global;
use std::fmt::Display;

/// Whether the error is told so.
fn is_told<E: Display>(alloc: Global, why: &E, text: &str) -> bool {
    match format!(in alloc; "{why}") {
        Ok(told) => told.as_str() == text,
        Err(_) => false,
    }
}

/// Why a file tells nothing.
const PLANS: [(PlanError, &str); 2] = [
    (PlanError::BlankFirst, "first line of .qmail file is blank"),
    (PlanError::Memory, "out of memory"),
];

/// Why nothing handles an address.
const CHOICES: [(ChooseError, &str); 2] = [
    (ChooseError::NoMailbox, "no mailbox here by that name"),
    (ChooseError::Memory, "out of memory"),
];

#[test]
fn errors_are_told_in_words(rt: HostRuntime) {
    for (why, text) in &PLANS {
        assert!(rt; is_told(rt.alloc(), why, text), "{text}");
    }
    for (why, text) in &CHOICES {
        assert!(rt; is_told(rt.alloc(), why, text), "{text}");
    }
}
