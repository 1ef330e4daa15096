// What is told at the end of a stopped script.

use crate::stages::now;

/// Whether the lines after the last line `pid` are those that a case allows, and that line has the number that is so of `pids`,
/// or else 0: each of them is like one of the lines `each` or `free`; if the mail is accepted by then, something is like each of
/// the lines `each`, and else nothing is like any of them; nothing is like a line `never`; and of two lines `pairs` as much at
/// least is like the second one as like the first.
pub(crate) fn are_accounted(lines: &str, past: &str, text: &str) -> bool {
    let Some((pids, told)) = told_last(text) else {
        return false;
    };
    if pids != now(lines, "pids", past).unwrap_or("0") {
        return false;
    }
    let is_accepted = now(lines, "accepted", past) == Some("yes");
    told.lines().all(|one| is_allowed(lines, one))
        && lines.lines().all(|rule| is_kept(rule, told, is_accepted))
}

/// The number in the last line `pid` of a text, and what stands after that line.
fn told_last(text: &str) -> Option<(&str, &str)> {
    let (_, last) = text.rsplit_once("pid ")?;
    last.split_once('\n')
}

/// Whether a line that is told is like one that may be.
fn is_allowed(lines: &str, one: &str) -> bool {
    lines.lines().any(|rule| match rule.split_once(' ') {
        Some(("each" | "free", pattern)) => is_like(pattern, one),
        _ => false,
    })
}

/// Whether a line of a case is kept by what is told, if it says how often something is.
fn is_kept(rule: &str, told: &str, is_accepted: bool) -> bool {
    match rule.split_once(' ') {
        Some(("each", pattern)) => (count(pattern, told) > 0) == is_accepted,
        Some(("never", pattern)) => count(pattern, told) == 0,
        Some(("pairs", patterns)) => are_paired(patterns, told),
        _ => true,
    }
}

/// Whether at least as much is like the second of two lines as like the first.
fn are_paired(patterns: &str, told: &str) -> bool {
    match patterns.split_once(" : ") {
        Some((first, second)) => count(first, told) <= count(second, told),
        None => false,
    }
}

/// How many of these lines are like this one.
fn count(pattern: &str, told: &str) -> usize {
    told.lines().filter(|one| is_like(pattern, one)).count()
}

/// Whether two lines are alike: their first words have as many parts, parted by points, and each part and what follows the first
/// word is the same, or is `*` in the pattern.
fn is_like(pattern: &str, line: &str) -> bool {
    let (other, other_rest) = first_word(pattern);
    let (name, rest) = first_word(line);
    is_any_or(other_rest, rest) && are_parts_like(other, name)
}

/// The first word of a line, and the rest after a space.
fn first_word(line: &str) -> (&str, &str) {
    line.split_once(' ').unwrap_or((line, ""))
}

/// Whether a word has as many parts as a pattern, each of them the same or `*` in the pattern.
fn are_parts_like(pattern: &str, word: &str) -> bool {
    let mut parts = pattern.split('.');
    for one in word.split('.') {
        if !parts.next().is_some_and(|part| is_any_or(part, one)) {
            return false;
        }
    }
    parts.next().is_none()
}

/// Whether a part is `*` or this one.
fn is_any_or(part: &str, one: &str) -> bool {
    part == "*" || part == one
}
