// What a real directory asks of its system when it is opened: which of a queue's directories are made, over a system whose
// replies are given; and nothing, if it is opened as it is.
use super::host_steps::add_if_wrong;
use super::host_system::Scripted;
use host_fs::HostFs;
use std::alloc::Global;

/// The replies of the system, and what it was asked: of one that is opened as it is, of a queue whose directories stand, and where
/// some are missing.
const ROWS: &str = "as it is | 
done, bytes .%00..%00bounce%00control%00home%00info%00intd%00intdx%00local%00mess%00pid%00remote%00todo%00todox%00users%00, done, bytes .%00..%000%001%0010%0011%0012%0013%0014%0015%0016%0017%0018%0019%002%0020%0021%0022%003%004%005%006%007%008%009%00, done, bytes .%00..%000%001%0010%0011%0012%0013%0014%0015%0016%0017%0018%0019%002%0020%0021%0022%003%004%005%006%007%008%009%00, done, bytes .%00..%000%001%0010%0011%0012%0013%0014%0015%0016%0017%0018%0019%002%0020%0021%0022%003%004%005%006%007%008%009%00, done, bytes .%00..%000%001%0010%0011%0012%0013%0014%0015%0016%0017%0018%0019%002%0020%0021%0022%003%004%005%006%007%008%009%00, done, bytes .%00..%000%001%0010%0011%0012%0013%0014%0015%0016%0017%0018%0019%002%0020%0021%0022%003%004%005%006%007%008%009%00, done, bytes .%00..%000%001%0010%0011%0012%0013%0014%0015%0016%0017%0018%0019%002%0020%0021%0022%003%004%005%006%007%008%009%00 | list r/; names; list r/mess/; names; list r/info/; names; list r/local/; names; list r/remote/; names; list r/intdx/; names; list r/todox/; names; 
# one at the root and one split are missing; a listing comes in two pieces
done, bytes bounce%00control%00home%00info%00intd%00intdx%00local%00mess%00pid%00remote%00todo2%00todox%00, bytes users%00, bytes, done, bytes 0%001%0010%0011%0012%0013%0014%0015%0016%00, bytes 18%00170%007%20%00-17%00%2017%0019%002%0020%0021%0022%003%004%005%006%007%008%009%00, bytes, done, bytes .%00..%000%001%0010%0011%0012%0013%0014%0015%0016%0017%0018%0019%002%0020%0021%0022%003%004%005%006%007%008%009%00, done, bytes .%00..%000%001%0010%0011%0012%0013%0014%0015%0016%0017%0018%0019%002%0020%0021%0022%003%004%005%006%007%008%009%00, done, bytes 0%001%0010%0011%0012%0013%0014%0015%0016%00, bytes 17%00, bytes 18%00170%007%20%00-17%00%2017%0019%002%0020%0021%0022%003%004%005%006%007%008%009%00, done, bytes .%00..%000%001%0010%0011%0012%0013%0014%0015%0016%0017%0018%0019%002%0020%0021%0022%003%004%005%006%007%008%009%00, done, bytes .%00..%000%001%0010%0011%0012%0013%0014%0015%0016%0017%0018%0019%002%0020%0021%0022%003%004%005%006%007%008%009%00, done, done, done | list r/; names; names; names; list r/mess/; names; names; names; list r/info/; names; list r/local/; names; list r/remote/; names; names; names; list r/intdx/; names; list r/todox/; names; make_dir r; make_dir r/todo; make_dir r/mess/17; 
# what isn't known to be there is made, and one that can't be made is passed over
done, bytes .%00..%00bounce%00control%00home%00info%00intd%00intdx%00local%00mess%00pid%00remote%00todo%00todox%00users%00, done, bytes 0%001%0010%0011%0012%0013%0014%0015%0016%00, forbidden, missing, done, bytes .%00..%000%001%0010%0011%0012%0013%0014%0015%0016%0017%0018%0019%002%0020%0021%0022%003%004%005%006%007%008%009%00, done, bytes .%00..%000%001%0010%0011%0012%0013%0014%0015%0016%0017%0018%0019%002%0020%0021%0022%003%004%005%006%007%008%009%00, done, bytes .%00..%000%001%0010%0011%0012%0013%0014%0015%0016%0017%0018%0019%002%0020%0021%0022%003%004%005%006%007%008%009%00, done, bytes .%00..%000%001%0010%0011%0012%0013%0014%0015%0016%0017%0018%0019%002%0020%0021%0022%003%004%005%006%007%008%009%00, forbidden, forbidden | list r/; names; list r/mess/; names; names; list r/info/; list r/local/; names; list r/remote/; names; list r/intdx/; names; list r/todox/; names; make_dir r; make_dir r/mess/22; make_dir r/mess/21; make_dir r/mess/20; make_dir r/mess/19; make_dir r/mess/18; make_dir r/mess/17; make_dir r/mess/9; make_dir r/mess/8; make_dir r/mess/7; make_dir r/mess/6; make_dir r/mess/5; make_dir r/mess/4; make_dir r/mess/3; make_dir r/mess/2; make_dir r/info/22; make_dir r/info/21; make_dir r/info/20; make_dir r/info/19; make_dir r/info/18; make_dir r/info/17; make_dir r/info/16; make_dir r/info/15; make_dir r/info/14; make_dir r/info/13; make_dir r/info/12; make_dir r/info/11; make_dir r/info/10; make_dir r/info/9; make_dir r/info/8; make_dir r/info/7; make_dir r/info/6; make_dir r/info/5; make_dir r/info/4; make_dir r/info/3; make_dir r/info/2; make_dir r/info/1; make_dir r/info/0; ";

/// Opens a disk over a system, as it is if so; whether that can be done.
fn is_opened(alloc: Global, system: &Scripted, as_is: bool) -> bool {
    let disk = if as_is {
        HostFs::open_as_is(&system, alloc, b"r")
    } else {
        HostFs::open(&system, alloc, b"r")
    };
    disk.is_ok()
}

/// Opens a disk over a system with these replies, and adds what it was asked if that is otherwise.
fn open_row(alloc: Global, row: &'static str, wrong: &mut String) {
    let (replies, wanted) = row.split_once(" | ").unwrap_or((row, "nothing"));
    let Ok(system) = Scripted::new(alloc) else {
        add_if_wrong(wrong, "no system", wanted);
        return;
    };
    let as_is = replies == "as it is";
    system.set_replies(if as_is { "" } else { replies });
    let is_opened = is_opened(alloc, &system, as_is);
    let seen = system.seen(if is_opened { "" } else { "not opened" });
    add_if_wrong(wrong, seen.as_str(), wanted);
    drop(seen);
    drop(system);
}

#[test]
fn only_missing_directories_are_made(rt: HostRuntime) {
    let mut wrong = String::new(rt.alloc());
    for row in ROWS.lines() {
        if !row.starts_with('#') {
            open_row(rt.alloc(), row, &mut wrong);
        }
    }
    assert_eq!(rt; wrong.as_str(), "");
}
