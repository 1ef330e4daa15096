// Which searches of a real directory list it anew, and which find the names that were kept, over a system whose replies
// are given. Rows are those of host_scripts.
//
// `dir 2 4096 100 7 100 8` is a directory that was changed for the last time 100 seconds and 8 nanoseconds after 1970 began;
// `clock 102000000008` is two seconds after that, and `clock 102000000007` a nanosecond less.
use super::host_scripts::play_both;

/// A directory at rest is listed once, however often it is searched. What its entries are is asked at each search.
const KEPT: &str =
    "next todo | dir 2 4096 100 7 100 8, clock 102000000008, done, bytes .%00..%009%0010%00, bytes 100%00%FF%00b/c%00, bytes aaaaaaaaaaaaaaaaaaaaaaaaaaaaaaaaaaaaaaaaaaaaaaaaaaaaaaaaaaaaaaaaaaaaaaaaaaaaaaaaaaaaaaaaaaaaaaaaaaaaaaaaaaaaaaaaaaaaaaaaaaaaaaaaaaaaaaaaaaaaaaaaaaaaaaaaaaaaaaaaaaaaaaaaaaaaaaaaaaaaaaaaaaaaaaaaaaaaaaaaaaaaaaaaaaaaaaaaaaaaaaaaaaaaaaaaaaaaaaaaaaaaaaaaaaaaaaaa, bytes, dir, dir, file 7 11 99 | stat r/todo/; clock; list r/todo/; names; names; names; names; stat r/todo/.; stat r/todo/..; stat r/todo/10; name 10
next todo 10 | dir 2 4096 100 7 100 8, file 7 11 99 | stat r/todo/; stat r/todo/100; name 100
next todo 100 | dir 2 4096 100 7 100 8, file 7 11 99 | stat r/todo/; stat r/todo/9; name 9
next todo 9 | dir 2 4096 100 7 100 8 | stat r/todo/; no name
next todo %FF | dir 2 4096 100 7 100 8 | stat r/todo/; no name
next todo . | dir 2 4096 100 7 100 8, dir, missing, dir, file 7 11 99 | stat r/todo/; stat r/todo/..; stat r/todo/10; stat r/todo/100; stat r/todo/9; name 9
next todo 0 | dir 2 4096 100 7 100 8, forbidden | stat r/todo/; stat r/todo/10; name 10
next todo 0 | dir 2 4096 100 7 100 8, file 7 11 99 | stat r/todo/; stat r/todo/10; name 10";

/// It is listed anew once the system tells something else of it, one number after the other changed, and when another
/// directory was searched meanwhile.
const CHANGES: &str =
    "next todo | dir 2 4096 100 7 100 8, clock 102000000008, done, bytes 1%00, bytes, file 7 11 99 | stat r/todo/; clock; list r/todo/; names; names; stat r/todo/1; name 1
next todo | dir 2 4096 100 6 100 8, clock 102000000008, done, bytes 2%00, bytes, file 7 11 99 | stat r/todo/; clock; list r/todo/; names; names; stat r/todo/2; name 2
next todo | dir 2 4096 100 6 100 5, clock 102000000008, done, bytes 3%00, bytes, file 7 11 99 | stat r/todo/; clock; list r/todo/; names; names; stat r/todo/3; name 3
next todo | dir 2 4096 99 6 100 5, clock 102000000008, done, bytes 4%00, bytes, file 7 11 99 | stat r/todo/; clock; list r/todo/; names; names; stat r/todo/4; name 4
next todo | dir 2 4096 99 6 99 5, clock 102000000008, done, bytes 5%00, bytes, file 7 11 99 | stat r/todo/; clock; list r/todo/; names; names; stat r/todo/5; name 5
next todo | dir 3 4096 99 6 99 5, clock 102000000008, done, bytes 6%00, bytes, file 7 11 99 | stat r/todo/; clock; list r/todo/; names; names; stat r/todo/6; name 6
next todo 5 | dir 3 4096 99 6 99 5, file 7 11 99 | stat r/todo/; stat r/todo/6; name 6
next mess 5 | dir 3 4096 99 6 99 5, clock 102000000008, done, bytes 7%00, bytes, file 7 11 99 | stat r/mess/; clock; list r/mess/; names; names; stat r/mess/7; name 7
next todo 5 | dir 3 4096 99 6 99 5, clock 102000000008, done, bytes 8%00, bytes, file 7 11 99 | stat r/todo/; clock; list r/todo/; names; names; stat r/todo/8; name 8
next todo 8 | dir 3 4096 99 6 99 5 | stat r/todo/; no name";

/// A directory that was changed less than two seconds ago, or that can't be told to be at rest, is listed at each search: the
/// names were changed long ago and the rights just now, or the other way round, or at a time before 1970.
const RESTLESS: &str =
    "next todo | dir 2 4096 100 7 100 8, clock 102000000007, done, bytes 1%00, file 7 11 99, bytes | stat r/todo/; clock; list r/todo/; names; stat r/todo/1; names; name 1
next todo | dir 2 4096 100 7 100 8, clock 102000000007, done, bytes 2%00, file 7 11 99, bytes | stat r/todo/; clock; list r/todo/; names; stat r/todo/2; names; name 2
next todo | dir 2 4096 100 7 100 8, clock 50000000000, done, bytes | stat r/todo/; clock; list r/todo/; names; no name
next todo | dir 2 4096 1 7 101 8, clock 102000000008, done, bytes | stat r/todo/; clock; list r/todo/; names; no name
next todo | dir 2 4096 1 7 101 8, clock 102000000008, done, bytes 3%00, file 7 11 99, bytes | stat r/todo/; clock; list r/todo/; names; stat r/todo/3; names; name 3
next todo | dir 2 4096 101 7 1 8, clock 102000000008, done, bytes | stat r/todo/; clock; list r/todo/; names; no name
next todo | dir 2 4096 101 7 1 8, clock 102000000008, done, bytes 4%00, file 7 11 99, bytes | stat r/todo/; clock; list r/todo/; names; stat r/todo/4; names; name 4
next todo | dir 2 4096 -1 7 100 8, clock 102000000008, done, bytes 5%00, file 7 11 99, bytes | stat r/todo/; clock; list r/todo/; names; stat r/todo/5; names; name 5
next todo | dir 2 4096 100 7 100 8, forbidden, done, bytes 6%00, file 7 11 99, bytes | stat r/todo/; clock; list r/todo/; names; stat r/todo/6; names; name 6
next todo | forbidden, done, bytes 7%00, file 7 11 99, bytes | stat r/todo/; list r/todo/; names; stat r/todo/7; names; name 7";

/// Once the directory can't be told, or its listing can't be read, nothing is kept. Then each search lists it as if it
/// weren't at rest, and only that can fail. A name that a listing gives twice is found once.
const BROKEN: &str =
    "next todo | dir 2 4096 100 7 100 8, clock 102000000008, done, bytes 1%002%001%00, bytes, dir, file 7 11 99 | stat r/todo/; clock; list r/todo/; names; names; stat r/todo/1; stat r/todo/2; name 2
next todo | forbidden, done, bytes 3%00, file 7 11 99, bytes | stat r/todo/; list r/todo/; names; stat r/todo/3; names; name 3
next todo | dir 2 4096 100 7 100 8, clock 102000000008, forbidden, done, bytes 4%00, file 7 11 99, bytes | stat r/todo/; clock; list r/todo/; list r/todo/; names; stat r/todo/4; names; name 4
next todo | dir 2 4096 100 7 100 8, clock 102000000008, done, bytes 5%00, forbidden, done, bytes 6%00, file 7 11 99, bytes | stat r/todo/; clock; list r/todo/; names; names; list r/todo/; names; stat r/todo/6; names; name 6
next todo | dir 2 4096 100 7 100 8, clock 102000000008, forbidden, forbidden | stat r/todo/; clock; list r/todo/; list r/todo/; Fault 1
next todo | dir 2 4096 100 7 100 8, clock 102000000008, done, bytes 7%00, bytes, file 7 11 99 | stat r/todo/; clock; list r/todo/; names; names; stat r/todo/7; name 7
next todo | missing, missing | stat r/todo/; list r/todo/; NotThere";

#[test]
fn a_directory_at_rest_is_listed_once(rt: HostRuntime) {
    let mut wrong = String::new(rt.alloc());
    let mut are_made = true;
    for rows in [KEPT, CHANGES, RESTLESS, BROKEN] {
        are_made &= play_both(rt.alloc(), rows, "", &mut wrong);
    }
    assert_eq!(rt; (are_made, wrong.as_str()), (true, ""));
}
