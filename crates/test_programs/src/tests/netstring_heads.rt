// Heads of netstrings.

use mail_bytes::{NetHead, net_head};

/// What bytes say as a head.
const ROWS: [(&[u8], NetHead); 16] = [
    (b"0:,", NetHead::Len { value: 0, used: 2 }),
    (b"5:hello,", NetHead::Len { value: 5, used: 2 }),
    (b"12:hello world!,", NetHead::Len { value: 12, used: 3 }),
    (
        b"18446744073709551615:",
        NetHead::Len {
            value: 18_446_744_073_709_551_615,
            used: 21,
        },
    ),
    (b"", NetHead::More),
    (b"0", NetHead::More),
    (b"907", NetHead::More),
    (b"18446744073709551615", NetHead::More),
    (b"18446744073709551616", NetHead::Bad),
    (b"184467440737095516150", NetHead::Bad),
    (b"00", NetHead::Bad),
    (b"05:hello,", NetHead::Bad),
    (b":", NetHead::Bad),
    (b"5 :", NetHead::Bad),
    (b"5,:", NetHead::Bad),
    (b"-1:", NetHead::Bad),
];

#[test]
fn heads_parts_and_others(rt: HostRuntime) {
    for (bytes, head) in &ROWS {
        assert!(rt; net_head(bytes) == *head, "{bytes:?}");
    }
}
