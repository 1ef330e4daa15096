// Children as processes of the system.

use super::large::{MANY_TIMES, TEXT, counts, gives_back, sleepers};
use super::many::all_print;
use super::shells::{commands, floods, itself, keeps_apart, refuses, strangers};
use super::yard::Yard;
use host_children::HostSystem;
use proc_runner::System;
use std::alloc::{AllocError, Global};
use std::process::{OpenProcess, Processes};
use std::sync::Wait;
use std::test::*;
use std::thread::Threads;
use std::time::Clock;

/// What is tried.
#[derive(Clone, Copy)]
enum Part {
    /// Children one after the other, and two at once.
    Few,
    /// Many at once.
    Many,
    /// A child that gives back much.
    Back,
    /// A child that counts much.
    Counted,
    /// Children that are ended by the limit.
    Sleepers,
}

/// A text, each of whose bytes is one more than the one before it, from 0 to 250 and again.
fn text(alloc: Global) -> Result<Vec<u8>, AllocError> {
    let mut text = Vec::with_capacity(alloc, TEXT)?;
    for at in 0..TEXT {
        text.push((at % 251) as u8)?;
    }
    Ok(text)
}

/// Of children one after the other, and two at once, the first thing that isn't as it should be; nothing if all is.
fn wrong_of_few<R: Wait + Drop, S: System>(yard: &mut Yard<R, S>, alloc: Global) -> &'static str {
    if !commands(yard, alloc) {
        return "commands of a shell";
    }
    if !floods(yard, alloc) {
        return "remote programs that print too much";
    }
    if !strangers(yard, alloc) {
        return "programs of others";
    }
    if !itself(yard, alloc) {
        return "this same program";
    }
    if !refuses(yard, alloc) {
        return "feedings that fail";
    }
    if !keeps_apart(yard, alloc) {
        return "no descriptor of another";
    }
    ""
}

/// A word if it isn't so.
fn unless(is_so: bool, word: &'static str) -> &'static str {
    if is_so { "" } else { word }
}

/// The first thing that isn't as it should be; nothing if all is.
fn wrong<R: Wait + Drop, S: System>(
    yard: &mut Yard<R, S>,
    alloc: Global,
    part: Part,
    text: &[u8],
) -> &'static str {
    match part {
        Part::Few => wrong_of_few(yard, alloc),
        Part::Many => unless(all_print(yard, alloc), "many children at once"),
        Part::Back => {
            let is_so = gives_back(yard, alloc, text, 1);
            unless(
                gives_back(yard, alloc, text, MANY_TIMES) && is_so,
                "a mebibyte that comes back, and 64",
            )
        }
        Part::Counted => unless(counts(yard, alloc, text), "64 MiB that are counted"),
        Part::Sleepers => unless(sleepers(yard, alloc, text), "children that don't end"),
    }
}

/// The same, with the text that is fed.
fn wrong_in<R: Wait + Drop, S: System>(
    yard: &mut Yard<R, S>,
    alloc: Global,
    part: Part,
) -> &'static str {
    match text(alloc) {
        Ok(text) => {
            let told = wrong(yard, alloc, part, text.as_slice());
            drop(text);
            told
        }
        Err(_) => "no memory",
    }
}

/// The same over the system, where a child may run for so long after its input ended, in milliseconds, and files lie in the directory in
/// which it runs.
fn wrong_over<R: Threads + Wait + Processes + Clock + Copy + Send + Sync + Drop + 'static>(
    rt: R,
    files: &HostRuntime,
    alloc: Global,
    drain: u64,
    part: Part,
) -> &'static str
where
    R::Started: Drop + Send + 'static,
    <R::Started as OpenProcess>::Stdin: Send + 'static,
    <R::Started as OpenProcess>::Stdout: Send + 'static,
    <R::Started as OpenProcess>::Stderr: Send + 'static,
{
    match String::from_str(alloc, ".") {
        Ok(dir) => {
            match Yard::new(rt, alloc, 64, HostSystem::new(rt, files, 0, dir), drain) {
                Ok(mut yard) => {
                    let told = wrong_in(&mut yard, alloc, part);
                    drop(yard);
                    told
                }
                Err(_) => "no memory",
            }
        }
        Err(_) => "no memory",
    }
}

#[test]
fn one_after_the_other(rt: HostRuntime) {
    assert!(rt; wrong_over(rt, &rt, rt.alloc(), 60_000, Part::Few) == "");
}

#[test]
fn many_at_once(rt: HostRuntime) {
    assert!(rt; wrong_over(rt, &rt, rt.alloc(), 60_000, Part::Many) == "");
}

#[test]
fn much_that_comes_back(rt: HostRuntime) {
    assert!(rt; wrong_over(rt, &rt, rt.alloc(), 60_000, Part::Back) == "");
}

#[test]
fn much_that_is_counted(rt: HostRuntime) {
    assert!(rt; wrong_over(rt, &rt, rt.alloc(), 60_000, Part::Counted) == "");
}

#[test]
fn ended_by_the_limit(rt: HostRuntime) {
    assert!(rt; wrong_over(rt, &rt, rt.alloc(), 1000, Part::Sleepers) == "");
}
