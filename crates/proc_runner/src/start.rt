// What is started, and by which words.
ghost use Rattle.std.specs.Prelude.{◌≡◌, IfNone, IfSome, MatchBool, map};
ghost use Rattle.proc_runner.specs.Starts.{AreTexts, CanStart, IsStart, IsText, kind_of};

use std::str;

/// What a child is.
#[derive(Clone, Copy)]
pub enum Kind {
    /// This same program, as a member of a generation or an injector. Descriptor 2 is that of its parent.
    Member,
    /// This same program, as a local delivery. Descriptor 2 is that of its parent.
    Delivery,
    /// The remote program: in a process group of its own, with descriptor 2 at /dev/null.
    Remote,
    /// The command of a user, by /bin/sh, in a process group of its own, with descriptor 2 at /dev/null.
    Command,
}

/// What is started: the words after the program's name, and the program, which no word names if it is this one.
#[derive(Clone, Copy)]
pub struct Start<'a> {
    /// What it is.
    pub kind: Kind,
    /// The words, the first one of a member and a delivery empty: it stands for this same program.
    pub words: &'a [&'a [u8]],
}

impl<'a> Start<'a> {
    /// What these words start; None if there are none, or one isn't UTF-8 or has a NUL, as the system can't take it then.
    pub fn of(words: &'a [&'a [u8]]) -> Option<Start<'a>>
        ensures none { IfNone result (¬ (CanStart (map (λ w. w.now) words.now))) }
        ensures some { IfSome result (λ start. IsStart (map (λ w. w.now) words.now) start) }
    {
        let (first, rest) = words.split_first()?;
        if !are_texts(words) {
            return None;
        }
        let kind = which(first, rest);
        Some(Start { kind, words })
    }
}

/// What a child is, by its first word and the others. A remote program has four words, so that one named `sh` is no command.
fn which(first: &[u8], rest: &[&[u8]]) -> Kind
    ensures { result ≡ kind_of first.now (map (λ w. w.now) rest.now) }
{
    let is_command = first == b"sh".as_slice() && rest.len() == 2;
    if is_command {
        return Kind::Command;
    }
    if !first.is_empty() {
        return Kind::Remote;
    }
    match rest.first() {
        Some(name) if *name == b"local".as_slice() => Kind::Delivery,
        _ => Kind::Member,
    }
}

/// Whether the system can take these words.
fn are_texts(words: &[&[u8]]) -> bool
    ensures { MatchBool result (AreTexts (map (λ w. w.now) words.now)) (¬ (AreTexts (map (λ w. w.now) words.now))) }
{
    for word in words {
        if !is_text(word) {
            return false;
        }
    }
    true
}

/// Whether the system can take this word.
fn is_text(word: &[u8]) -> bool
    ensures { MatchBool result (IsText word.now) (¬ (IsText word.now)) }
{
    if word.contains(&0) {
        return false;
    }
    str::from_utf8(word).is_ok()
}
