// Bytes that a value owns.

use mail_bytes::ByteText;

/// Whether these are the same bytes.
pub fn same(one: &[u8], other: &[u8]) -> bool {
    one == other
}

/// Whether a text grows, and gives its bytes back.
fn grows(mut text: ByteText) -> bool {
    let is_grown = text.extend(b"").is_ok() & text.extend(b"c\0").is_ok();
    let is_so = text.is(b"abc\0") & !text.is(b"abc") & (text.len() == 4) & !text.is_empty();
    let bytes = ByteText::from_vec(text.into_vec()).into_vec();
    let is_given = bytes.as_slice() == b"abc\0".as_slice();
    drop(bytes);
    is_grown & is_so & is_given
}

#[test]
fn a_text_grows_and_gives_its_bytes_back(rt: HostRuntime) {
    assert!(rt; ByteText::from_slice(rt.alloc(), b"ab").is_ok_and(grows));
}

#[test]
fn the_empty_text_has_no_byte(rt: HostRuntime) {
    let text = ByteText::new(rt.alloc());
    assert!(rt; text.is_empty() && text.is(b"") && text.len() == 0);
    let is_same = match ByteText::from_slice(rt.alloc(), b"") {
        Ok(other) => other.is_empty() && text.is(other.as_slice()),
        Err(_) => false,
    };
    assert!(rt; is_same);
}
