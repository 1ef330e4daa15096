// Where addresses go.
use super::files::read;
use super::rows::is;
use address_rules::{ControlFile, Controls, Route, rewrite};
use std::alloc::Global;

/// Whether the address goes there: `L` or `R`, and the address then.
fn goes(alloc: Global, controls: &Controls, address: &[u8], route: &[u8]) -> bool {
    match rewrite(alloc, controls, address) {
        Ok(Route::Local(text)) => is_route(b'L', text.as_slice(), route),
        Ok(Route::Remote(text)) => is_route(b'R', text.as_slice(), route),
        Err(_) => false,
    }
}

/// Whether a route is this letter and this address.
fn is_route(letter: u8, address: &[u8], route: &[u8]) -> bool {
    match route.split_first() {
        Some((first, rest)) => *first == letter && rest == address,
        None => false,
    }
}

/// Whether all rows have these routes by these controls.
fn all_go(alloc: Global, controls: &Controls, rows: &[(&[u8], &[u8])]) -> bool {
    let mut are_right = true;
    for (address, route) in rows {
        are_right = goes(alloc, controls, address, route) && are_right;
    }
    are_right
}

/// All rows have these routes.
fn holds(alloc: Global, some: &[(ControlFile, &[u8])], rows: &[(&[u8], &[u8])]) -> bool {
    match read(alloc, some) {
        Ok(controls) => all_go(alloc, &controls, rows),
        Err(_) => false,
    }
}

#[test]
fn the_first_example(rt: HostRuntime) {
    let good = holds(
        rt.alloc(),
        &[
            (ControlFile::Locals, b"x\n"),
            (ControlFile::PercentHack, b"hack\n"),
            (ControlFile::VirtualDomains, b".z:vz\nx:w\n"),
        ],
        &[
            (b"Bob@X", b"LBob@X"),
            (b"a@b@x", b"La@b@x"),
            (b"joe%y@hack", b"Rjoe@y"),
            (b"m@a.z", b"Lvz-m@a.z"),
        ],
    );
    is(&rt, good, b"");
}

#[test]
fn an_address_without_a_host(rt: HostRuntime) {
    let good = holds(
        rt.alloc(),
        &[
            (ControlFile::Me, b"m\n"),
            (ControlFile::EnvNoAtHost, b"e\n"),
        ],
        &[
            (b"bob", b"Rbob@e"),
            (b"", b"R@e"),
            (b"bob@", b"Rbob@"),
            (b"bob@m", b"Lbob@m"),
        ],
    );
    is(&rt, good, b"");
}

#[test]
fn without_files_localhost_is_here(rt: HostRuntime) {
    let good = holds(
        rt.alloc(),
        &[],
        &[
            (b"bob", b"Lbob@localhost"),
            (b"Bob@LOCALHOST", b"LBob@LOCALHOST"),
            (b"a%b@localhost", b"La%b@localhost"),
            (b"bob@x.localhost", b"Rbob@x.localhost"),
        ],
    );
    is(&rt, good, b"");
}

#[test]
fn a_percent_sign_in_odd_places(rt: HostRuntime) {
    let good = holds(
        rt.alloc(),
        &[
            (ControlFile::Me, b"m\n"),
            (ControlFile::EnvNoAtHost, b"Hack\n"),
            (ControlFile::PercentHack, b"hack\ny\n"),
        ],
        &[
            // as often as there is one
            (b"a%b%y@hack", b"Ra@b"),
            (b"a%b%c@hack", b"Ra%b@c"),
            (b"a%hack%y@hack", b"Ra@hack"),
            // the domain's own percent sign is none of the part before
            (b"a@b%hack", b"Ra@b%hack"),
            (b"a%b@c@hack", b"Ra@b@c"),
            (b"%@hack", b"R@"),
            (b"%m@HACK", b"L@m"),
            (b"a%@hack", b"Ra@"),
            (b"a@hack", b"Ra@hack"),
            (b"a%b", b"Ra@b"),
            (b"a%y@b@hack", b"Ra@y@b"),
        ],
    );
    is(&rt, good, b"");
}

#[test]
fn an_empty_prefix_is_remote(rt: HostRuntime) {
    let good = holds(
        rt.alloc(),
        &[
            (ControlFile::Locals, b"here\n"),
            (
                ControlFile::VirtualDomains,
                b"A@B.example:whole\nb.example:\n.example:ex\n:all\nb.EXAMPLE:second\n",
            ),
        ],
        &[
            (b"a@b.example", b"Lwhole-a@b.example"),
            (b"c@b.example", b"Rc@b.example"),
            (b"c@B.Example", b"Rc@B.Example"),
            (b"c@d.example", b"Lex-c@d.example"),
            (b"c@example", b"Lall-c@example"),
            (b"c@here", b"Lc@here"),
            (b"c@", b"Lall-c@"),
        ],
    );
    is(&rt, good, b"");
}

#[test]
fn the_longest_suffix_counts(rt: HostRuntime) {
    let good = holds(
        rt.alloc(),
        &[(
            ControlFile::VirtualDomains,
            b".c:c\n.b.c:bc\nb.c:own\n..d:dd\n.:dot\n",
        )],
        &[
            (b"u@a.b.c", b"Lbc-u@a.b.c"),
            (b"u@x.a.B.C", b"Lbc-u@x.a.B.C"),
            (b"u@b.c", b"Lown-u@b.c"),
            (b"u@xb.c", b"Lc-u@xb.c"),
            (b"u@.c", b"Lc-u@.c"),
            (b"u@c", b"Ru@c"),
            (b"u@a..d", b"Ldd-u@a..d"),
            (b"u@a.", b"Ldot-u@a."),
            (b"u.b.c@q", b"Ru.b.c@q"),
        ],
    );
    is(&rt, good, b"");
}

#[test]
fn locals_count_before_virtualdomains(rt: HostRuntime) {
    let good = holds(
        rt.alloc(),
        &[
            (ControlFile::Locals, b"x\n"),
            (ControlFile::VirtualDomains, b"x:v\na@x:w\n:all\n"),
        ],
        &[
            (b"a@x", b"La@x"),
            (b"a@y", b"Lall-a@y"),
            (b"a@b@c", b"Lall-a@b@c"),
        ],
    );
    is(&rt, good, b"");
}
