//! The program: what the words of its command line say, over the real things (qmail_process). The exit status is that of the one
//! public call; if memory runs out before the call it is 51.
//!
//! # What is claimed
//!
//! - Nothing beyond safety. What it hands to the call is shown by tests alone.
#![tactic(auto)]

mod working;

use host_streams::status_of;
use qmail_process::{run, words_of};
use qmail_top::Qmail;
use std::process::ExitCode;
use working::{is_work, work};

fn main(rt: HostRuntime) -> ExitCode {
    let called = match words_of(&rt, rt.alloc()) {
        Ok(words) => {
            if is_work(rt.alloc(), &words) {
                work(&rt, &rt, rt.alloc(), &words)
            } else {
                run(&Qmail, &rt, rt, rt.alloc(), &words)
            }
        }
        Err(why) => Err(why),
    };
    ExitCode::from(status_of(called))
}
