// Prefixes taken off, and senders with their recipients.
use super::files::read;
use super::rows::same;
use address_rules::{ControlFile, strip_prefix, verp};
use std::test::Fail;

#[test]
fn senders_with_their_recipients(rt: HostRuntime) -> Result<(), Fail> {
    let rows = [
        (
            b"owner-@host-@[]".as_slice(),
            b"b@d".as_slice(),
            b"owner-b=d@host".as_slice(),
        ),
        (b"o-@a@h-@[]", b"x@y@d", b"o-@ax@y=d@h"),
        (b"@-@[]", b"b@d", b"b=d@"),
        (b"o-@h-@[]", b"@", b"o-=@h"),
        (b"o-h-@[]", b"b@d", b"o-h-@[]"),
        (b"-@[]", b"b@d", b"-@[]"),
        (b"o-@h", b"b@d", b"o-@h"),
        (b"o-@h-@[] ", b"b@d", b"o-@h-@[] "),
        (b"#@[]", b"b@d", b"#@[]"),
        (b"", b"b@d", b""),
        (b"o-@h-@[]", b"b", b"o-@h-@[]"),
    ];
    for row in &rows {
        let sender = verp(rt.alloc(), row.0, row.1)?;
        same(&rt, sender.as_slice(), row.2);
    }
    Ok(())
}

#[test]
fn prefixes_taken_off(rt: HostRuntime) -> Result<(), Fail> {
    let lines = b"a@x:whole\nx:w\n.z:vz\n.y.z:\nq:Q\nx:second\n:all\n";
    let controls = read(rt.alloc(), &[(ControlFile::VirtualDomains, lines)])?;
    let rows = [
        (b"w-bob@x".as_slice(), b"bob@x".as_slice()),
        (b"w-bob@X", b"bob@X"),
        (b"W-bob@x", b"W-bob@x"),
        (b"w-w-bob@x", b"w-bob@x"),
        (b"wbob@x", b"wbob@x"),
        (b"w@x", b"w@x"),
        (b"second-bob@x", b"second-bob@x"),
        // the whole address is no key here
        (b"whole-a@x", b"whole-a@x"),
        (b"vz-m@a.z", b"m@a.z"),
        // an empty prefix decides, and nothing is taken off
        (b"vz-m@a.y.z", b"vz-m@a.y.z"),
        (b"-m@a.y.z", b"-m@a.y.z"),
        (b"Q-m@q", b"m@q"),
        (b"all-m@other", b"m@other"),
        (b"all-", b"all-"),
    ];
    for row in &rows {
        same(&rt, strip_prefix(&controls, row.0), row.1);
    }
    Ok(())
}

#[test]
fn without_virtual_domains_nothing_is_taken_off(rt: HostRuntime) -> Result<(), Fail> {
    let controls = read(rt.alloc(), &[])?;
    same(&rt, strip_prefix(&controls, b"a-b@x"), b"a-b@x");
    Ok(())
}
