// Numbers as decimal text.

use mail_bytes::{dec, undec};

/// Numbers and their texts.
const NUMBERS: [(u64, &[u8]); 3] = [
    (0, b"0"),
    (7, b"7"),
    (18_446_744_073_709_551_615, b"18446744073709551615"),
];

/// Texts of no number.
const OTHERS: [&[u8]; 4] = [b"18446744073709551616", b"01", b"", b"1a"];

/// Whether the number is written so, and read back.
fn are_each_other(number: u64, text: &[u8]) -> bool {
    let mut into = [0; 20];
    let len = dec(number, &mut into);
    &into[..len] == text && undec(text) == Some(number)
}

#[test]
fn a_number_and_its_text(rt: HostRuntime) {
    for (number, text) in &NUMBERS {
        assert!(rt; are_each_other(*number, text), "{number}");
    }
}

#[test]
fn texts_of_no_number(rt: HostRuntime) {
    for text in &OTHERS {
        assert!(rt; undec(text).is_none(), "{text:?}");
    }
}
