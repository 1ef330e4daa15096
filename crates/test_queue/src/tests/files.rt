// What control files say, and their defaults.
use super::rows::{is, same};
use address_rules::{ControlError, ControlFile, Controls, TextList, VirtualDomain, VirtualDomains};
use mail_bytes::{ByteText, Memory};
use std::alloc::Global;
use std::test::Fail;

/// Twelve files, of which these are there; the last of one file counts. What there is no memory for is missing, here and in
/// what is shown below, and shows in what is compared.
pub fn files(alloc: Global, some: &[(ControlFile, &[u8])]) -> [Option<ByteText>; 12] {
    let mut all = [
        None, None, None, None, None, None, None, None, None, None, None, None,
    ];
    for (file, bytes) in some {
        all[file.place()] = ByteText::from_slice(alloc, bytes).ok();
    }
    all
}

/// What these files say.
pub fn read(alloc: Global, some: &[(ControlFile, &[u8])]) -> Result<Controls, ControlError> {
    let all = files(alloc, some);
    Controls::read(alloc, &all)
}

/// Puts bytes at the end of a text.
fn add(text: &mut Vec<u8>, bytes: &[u8]) {
    let _ = text.extend_from_slice(bytes);
}

/// Puts the texts at the end of a text, each with a newline after it.
fn add_texts(text: &mut Vec<u8>, list: &TextList) {
    for one in list.as_slice() {
        add(text, one.as_slice());
        add(text, b"\n");
    }
}

/// Puts the lines at the end of a text, each as `DOMAIN=PREFIX` with a newline after it.
fn add_lines(text: &mut Vec<u8>, list: &VirtualDomains) {
    for line in list.as_slice() {
        add(text, line.domain.as_slice());
        add(text, b"=");
        add(text, line.prefix.as_slice());
        add(text, b"\n");
    }
}

/// All fields in order, a line each; lists in brackets.
fn whole(alloc: Global, controls: &Controls) -> Vec<u8> {
    let mut text = Vec::new(alloc);
    add(&mut text, controls.me.as_slice());
    add(&mut text, b"\n[");
    add_texts(&mut text, &controls.locals);
    add(&mut text, b"][");
    add_texts(&mut text, &controls.percent_hack);
    add(&mut text, b"][");
    add_lines(&mut text, &controls.virtual_domains);
    add(&mut text, b"]\n");
    for one in [
        controls.env_no_at_host.as_slice(),
        controls.bounce_from.as_slice(),
        controls.bounce_host.as_slice(),
        controls.double_bounce_to.as_slice(),
        controls.double_bounce_host.as_slice(),
    ] {
        add(&mut text, one);
        add(&mut text, b"\n");
    }
    text
}

/// What the files say, on paper; nothing if they have a fault.
fn paper(alloc: Global, some: &[(ControlFile, &[u8])]) -> Vec<u8> {
    match read(alloc, some) {
        Ok(controls) => whole(alloc, &controls),
        Err(_) => Vec::new(alloc),
    }
}

/// The three numbers.
fn numbers(alloc: Global, some: &[(ControlFile, &[u8])]) -> Option<(u32, u32, u32)> {
    match read(alloc, some) {
        Ok(it) => Some((
            it.concurrency_local,
            it.concurrency_remote,
            it.queue_lifetime,
        )),
        Err(_) => None,
    }
}

/// The last of three numbers.
fn lifetime_in(found: Option<(u32, u32, u32)>) -> Option<u32> {
    match found {
        Some((_, _, lifetime)) => Some(lifetime),
        None => None,
    }
}

#[test]
fn without_files_the_defaults_count(rt: HostRuntime) {
    let text = paper(rt.alloc(), &[]);
    let want =
        b"localhost\n[localhost\n][][]\nlocalhost\nMAILER-DAEMON\nlocalhost\npostmaster\nlocalhost\n";
    same(&rt, text.as_slice(), want);
}

#[test]
fn the_numbers_have_defaults_too(rt: HostRuntime) {
    let found = numbers(rt.alloc(), &[]);
    is(&rt, found == Some((10, 20, 604_800)), b"");
}

#[test]
fn me_is_the_default_of_four(rt: HostRuntime) {
    let text = paper(rt.alloc(), &[(ControlFile::Me, b"a.example \t\nb\n")]);
    let want =
        b"a.example\n[a.example\n][][]\na.example\nMAILER-DAEMON\na.example\npostmaster\na.example\n";
    same(&rt, text.as_slice(), want);
}

#[test]
fn lists_pass_over_comments_and_empty_lines(rt: HostRuntime) {
    let text = paper(
        rt.alloc(),
        &[
            (ControlFile::Me, b"m"),
            (ControlFile::Locals, b"#a\n\n \t\nx \n x\ny#\nz"),
            (ControlFile::PercentHack, b"\n"),
            (
                ControlFile::VirtualDomains,
                b"none\n#a:b\n.z:vz\nx:w:v \n:\nb: \n",
            ),
        ],
    );
    let want =
        b"m\n[x\n x\ny#\nz\n][][.z=vz\nx=w:v\n=\nb=\n]\nm\nMAILER-DAEMON\nm\npostmaster\nm\n";
    same(&rt, text.as_slice(), want);
}

#[test]
fn an_empty_file_is_no_default(rt: HostRuntime) {
    let text = paper(
        rt.alloc(),
        &[
            (ControlFile::Me, b"\nm\n"),
            (ControlFile::Locals, b""),
            (ControlFile::EnvNoAtHost, b""),
            (ControlFile::BounceFrom, b"#from"),
            (ControlFile::BounceHost, b"bh"),
            (ControlFile::DoubleBounceTo, b"to"),
            (ControlFile::DoubleBounceHost, b"dh"),
        ],
    );
    same(&rt, text.as_slice(), b"\n[][][]\n\n#from\nbh\nto\ndh\n");
}

#[test]
fn one_to_nine_digits_are_a_number(rt: HostRuntime) {
    let rows = [
        (b"0".as_slice(), Some(0)),
        (b"7 \t\n8", Some(7)),
        (b"000000007", Some(7)),
        (b"999999999\n", Some(999_999_999)),
        (b"0000000007", None),
        (b"1000000000", None),
        (b"", None),
        (b"\n7", None),
        (b"#7", None),
        (b" 7", None),
        (b"+7", None),
        (b"7a", None),
        (b"7/", None),
        (b"7:", None),
    ];
    for row in &rows {
        let found = numbers(rt.alloc(), &[(ControlFile::QueueLifetime, row.0)]);
        is(&rt, lifetime_in(found) == row.1, row.0);
    }
}

#[test]
fn each_number_has_its_file(rt: HostRuntime) {
    let found = numbers(
        rt.alloc(),
        &[
            (ControlFile::ConcurrencyLocal, b"1"),
            (ControlFile::ConcurrencyRemote, b"2"),
            (ControlFile::QueueLifetime, b"3"),
        ],
    );
    is(&rt, found == Some((1, 2, 3)), b"");
}

/// A list of one text, made and given back.
fn one_text(alloc: Global) -> Result<Vec<ByteText>, Memory> {
    let mut texts = Vec::new(alloc);
    texts.push(ByteText::from_slice(alloc, b"x")?)?;
    Ok(TextList::from_vec(texts).into_vec())
}

/// A list of one line, made and given back.
fn one_line(alloc: Global) -> Result<Vec<VirtualDomain>, Memory> {
    let mut lines = Vec::new(alloc);
    lines.push(VirtualDomain {
        domain: ByteText::from_slice(alloc, b"x")?,
        prefix: ByteText::from_slice(alloc, b"w")?,
    })?;
    Ok(VirtualDomains::from_vec(lines).into_vec())
}

#[test]
fn lists_give_back_what_they_were_made_of(rt: HostRuntime) -> Result<(), Fail> {
    let texts = one_text(rt.alloc())?.len();
    let lines = one_line(rt.alloc())?.len();
    is(&rt, texts == 1 && lines == 1, b"");
    Ok(())
}
