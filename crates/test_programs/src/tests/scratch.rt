// A place for real files that nothing else uses.

use std::time::{SystemTime, UNIX_EPOCH};
use std::{env, process};

/// A path below the directory for such files, by what is put there, the number of this process and the time. Nothing is
/// made. It is empty, where nothing can be made, if it can't be told.
pub fn scratch(rt: &HostRuntime, what: &str) -> String {
    match told(rt, what) {
        Some(path) => path,
        None => String::new(rt.alloc()),
    }
}

/// As `scratch`, if it can be told.
fn told(rt: &HostRuntime, what: &str) -> Option<String> {
    let now = SystemTime::now(rt).ok()?;
    let nanos = now.duration_since(UNIX_EPOCH).ok()?.as_nanos();
    let temp = env::temp_dir(rt).ok()?;
    let (temp, pid) = (temp.as_str(), process::id(rt.process()));
    format!(in rt.alloc(); "{temp}/{what}-{pid}-{nanos}").ok()
}
