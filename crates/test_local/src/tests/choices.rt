// Which file of a home handles an address, by rows.

use dot_qmail::{ChooseError, Chosen, choose};
use mail_bytes::{ByteText, Memory};
use std::alloc::Global;
use std::test::Fail;

/// Names of a home, dash and ext, and what handles the address; `None` if nothing does.
type Row = (
    &'static [&'static [u8]],
    &'static [u8],
    &'static [u8],
    Option<Chosen>,
);

/// Two default names, and one that is no stem of `a-b-c`.
const STEMS: &[&[u8]] = &[
    b".qmail-a-b-default",
    b".qmail-a-default",
    b".qmail-a-b-cdefault",
    b".qmail-default",
];

const ROWS: [Row; 15] = [
    (&[], b"", b"", Some(Chosen::Default)),
    (&[b".qmail-a"], b"", b"a", Some(Chosen::Default)),
    (&[b"x", b".qmail"], b"", b"", Some(Chosen::File(1))),
    (&[], b"-", b"a", None),
    (&[b".qmail"], b"-", b"a", None),
    (
        &[b".qmail-Foo.Bar", b".qmail-foo:bar"],
        b"-",
        b"Foo.Bar",
        Some(Chosen::File(1)),
    ),
    (STEMS, b"-", b"a-b-c", Some(Chosen::File(0))),
    (STEMS, b"-", b"a-x", Some(Chosen::File(1))),
    (STEMS, b"-", b"x", Some(Chosen::File(3))),
    (STEMS, b"-", b"A-B-", Some(Chosen::File(0))),
    (
        &[b".qmail-a-b-default", b".qmail-a-b-c"],
        b"-",
        b"a-b-c",
        Some(Chosen::File(1)),
    ),
    (
        &[b".qmail-default"],
        b"-",
        b"default",
        Some(Chosen::File(0)),
    ),
    (&[b".qmail-"], b"-", b"", Some(Chosen::File(0))),
    (&[b".qmail-default"], b"-", b"", Some(Chosen::File(0))),
    (
        &[b".qmail+default", b".qmail+a:b"],
        b"+",
        b"a.B",
        Some(Chosen::File(1)),
    ),
];

/// The names, as those of a home.
fn owned(alloc: Global, names: &[&[u8]]) -> Result<Vec<ByteText>, Memory> {
    let mut home = Vec::new(alloc);
    for name in names {
        home.push(ByteText::from_slice(alloc, name)?)?;
    }
    Ok(home)
}

/// Whether just this handles the address.
fn is_chosen(alloc: Global, row: &Row) -> bool {
    let Ok(names) = owned(alloc, row.0) else {
        return false;
    };
    match (choose(alloc, names.as_slice(), row.1, row.2), row.3) {
        (Ok(chosen), Some(wanted)) => chosen == wanted,
        (Err(ChooseError::NoMailbox), None) => true,
        _ => false,
    }
}

#[test]
fn the_first_name_that_is_there_is_chosen(rt: HostRuntime) -> Result<(), Fail> {
    for (k, row) in ROWS.iter().enumerate() {
        assert!(rt; is_chosen(rt.alloc(), row), "row {k}");
    }
    Ok(())
}
