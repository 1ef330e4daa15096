// Texts that are the same when the case of letters is ignored.

use mail_bytes::same_fold;

/// Two texts, and whether they differ at most in case.
const ROWS: [(&[u8], &[u8], bool); 9] = [
    (b"Heaven.AF.Mil", b"heaven.af.mil", true),
    (b"AZ", b"az", true),
    (b"", b"", true),
    (b"@[`{", b"@[`{", true),
    // the neighbours of the letters are 32 apart too
    (b"@", b"`", false),
    (b"[", b"{", false),
    (b"\xc1", b"\xe1", false),
    (b"a.b", b"a.c", false),
    (b"a", b"a.", false),
];

#[test]
fn case_is_ignored(rt: HostRuntime) {
    for (one, other, are_same) in &ROWS {
        assert!(rt; same_fold(one, other) == *are_same, "{one:?} {other:?}");
    }
}
