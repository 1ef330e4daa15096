// What is done with worlds, and what is seen then.

use super::deeds::{Deed, seen_of};
use std::alloc::Global;
use std::test::Fail;

/// What is done, and what is seen.
type Row = (&'static [Deed], &'static str);

/// The mail `a` from `a@x` to `b@y`.
const A: Deed = Deed::Mail(b"a", b"hi\n", b"Fa@x\0Tb@y\0\0");

/// The mail `b` from `c@x` to `d@y`.
const B: Deed = Deed::Mail(b"b", b"ho", b"Fc@x\0Td@y\0\0");

/// Refusals; a delivery, after which the number is used again; a sender that is stopped while the cleaner's pipe has a command. Then
/// bounces: one that is injected and delivered; a double bounce, of which a third isn't made; an injector that awaits its input when
/// the sender is stopped; one that is stopped itself; one that outlives its sender; and one that a new generation makes anew.
const ROWS: [Row; 11] = [
    (
        &[
            Deed::Step(b"rspawn"),
            Deed::Stop(b"sender"),
            Deed::Report(0),
            Deed::Sender,
            Deed::Report(0),
            Deed::Run(b"rspawn"),
            Deed::Step(b"rspawn"),
        ],
        "refused unknown rspawn\nrefused unknown sender\nrefused notwaiting rspawn\nrefused notwaiting rspawn\nrefused notwaiting rspawn\n",
    ),
    (
        &[
            Deed::Sender,
            Deed::Sender,
            Deed::Stop(b"sender"),
            Deed::Sender,
            Deed::Stop(b"clean"),
            Deed::Sender,
        ],
        "refused alive sender\nrefused alive clean\nrefused alive lspawn\n",
    ),
    (
        &[A, A, Deed::Run(b"a"), Deed::Show, Deed::Step(b"a")],
        "refused taken a\na end 0\nintd/1\ntodo/1\nmess/1/1\n-\nrefused gone a\n",
    ),
    (
        &[
            A,
            Deed::Run(b"a"),
            Deed::Sender,
            Deed::Settle,
            Deed::Show,
            B,
            Deed::Run(b"b"),
            Deed::Show,
        ],
        "a end 0\n-\nb end 0\nintd/1\ntodo/1\nmess/1/1\n-\n",
    ),
    (
        &[
            A,
            Deed::Run(b"a"),
            Deed::Sender,
            Deed::Turn,
            Deed::Run(b"sender"),
            Deed::Stop(b"sender"),
            Deed::Show,
            Deed::Turn,
            Deed::Show,
            Deed::Sender,
            Deed::Settle,
            Deed::Show,
        ],
        "a end 0\nintd/1\ntodo/1\nmess/1/1\ninfo/1/1\nremote/1/1\n-\nclean end 0\nlspawn end 0\nrspawn end 0\nmess/1/1\ninfo/1/1\nremote/1/1\n-\n-\n",
    ),
    (
        &[
            A,
            Deed::Run(b"a"),
            Deed::Sender,
            Deed::Turn,
            Deed::Turn,
            Deed::Turn,
            Deed::Fail(0),
            Deed::Run(b"rspawn"),
            Deed::ToChild,
            Deed::Show,
            Deed::Turn,
            Deed::Show,
            Deed::Settle,
            Deed::Show,
        ],
        "a end 0\nbounce/1\nmess/1/1\ninfo/1/1\n-\nb.1 end 0\nintd/4\ntodo/4\nbounce/1\nmess/4/4\nmess/1/1\ninfo/1/1\n-\n-\n",
    ),
    (
        &[
            A,
            Deed::Run(b"a"),
            Deed::Sender,
            Deed::Turn,
            Deed::Turn,
            Deed::Turn,
            Deed::Fail(0),
            Deed::Run(b"rspawn"),
            Deed::Turn,
            Deed::Turn,
            Deed::Turn,
            Deed::Turn,
            Deed::Turn,
            Deed::Fail(0),
            Deed::Turn,
            Deed::Turn,
            Deed::Turn,
            Deed::Turn,
            Deed::Turn,
            Deed::Turn,
            Deed::Settle,
            Deed::Show,
        ],
        "a end 0\nb.1 end 0\nb.2 end 0\n-\n",
    ),
    (
        &[
            A,
            Deed::Run(b"a"),
            Deed::Sender,
            Deed::Turn,
            Deed::Turn,
            Deed::Turn,
            Deed::Fail(0),
            Deed::Run(b"rspawn"),
            Deed::ToChild,
            Deed::Step(b"b.1"),
            Deed::Stop(b"sender"),
            Deed::Run(b"b.1"),
            Deed::Show,
        ],
        "a end 0\nrefused notwaiting b.1\nb.1 end 54\nbounce/1\nmess/1/1\ninfo/1/1\n-\n",
    ),
    (
        &[
            A,
            Deed::Run(b"a"),
            Deed::Sender,
            Deed::Turn,
            Deed::Turn,
            Deed::Turn,
            Deed::Fail(0),
            Deed::Run(b"rspawn"),
            Deed::ToChild,
            Deed::Stop(b"b.1"),
            Deed::Step(b"b.1"),
            Deed::Settle,
            Deed::Show,
        ],
        "a end 0\nrefused gone b.1\nbounce/1\nmess/1/1\ninfo/1/1\n-\n",
    ),
    (
        &[
            A,
            Deed::Run(b"a"),
            Deed::Sender,
            Deed::Turn,
            Deed::Turn,
            Deed::Turn,
            Deed::Fail(0),
            Deed::Run(b"rspawn"),
            Deed::ToChild,
            Deed::Step(b"sender"),
            Deed::Stop(b"sender"),
            Deed::Sender,
            Deed::Turn,
            Deed::Show,
            Deed::Sender,
            Deed::Settle,
            Deed::Show,
        ],
        "a end 0\nrefused alive clean\nclean end 0\nlspawn end 0\nrspawn end 0\nb.1 end 0\nintd/4\ntodo/4\nbounce/1\nmess/4/4\nmess/1/1\ninfo/1/1\n-\nb.2 end 0\n-\n",
    ),
    (
        &[
            A,
            Deed::Run(b"a"),
            Deed::Sender,
            Deed::Turn,
            Deed::Turn,
            Deed::Turn,
            Deed::Fail(0),
            Deed::Run(b"rspawn"),
            Deed::ToChild,
            Deed::Stop(b"sender"),
            Deed::Turn,
            Deed::Sender,
            Deed::Settle,
            Deed::Show,
        ],
        "a end 0\nclean end 0\nlspawn end 0\nrspawn end 0\nb.1 end 54\nb.2 end 0\n-\n",
    ),
];

/// Whether something else is seen.
fn is_wrong(alloc: Global, row: &Row) -> bool {
    match seen_of(alloc, row.0) {
        Ok(seen) => seen.as_slice() != row.1.as_bytes(),
        Err(_) => true,
    }
}

/// Which row goes otherwise first; none if all go so.
fn first_wrong(alloc: Global, rows: &[Row]) -> Option<usize> {
    for (at, row) in rows.iter().enumerate() {
        if is_wrong(alloc, row) {
            return Some(at);
        }
    }
    None
}

#[test]
fn generations_do_as_they_are_told(rt: HostRuntime) -> Result<(), Fail> {
    assert_eq!(rt; first_wrong(rt.alloc(), &ROWS), None);
    Ok(())
}
