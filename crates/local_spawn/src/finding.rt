// The line that a local part belongs to.
ghost use Rattle.std.specs.Prelude.{◌≡◌, ◌↔◌, IsTrue, MatchOption};
ghost use Rattle.local_spawn.specs.Finding.{BeginsFor, Becomes, IsFor, IsForNobody, IsFound};
ghost use Rattle.local_spawn.specs.Users.{found_in};

use crate::assign::{Assign, Assignment};
use crate::kinds::Kind;
use mail_bytes::same_fold;

/// The line that a local part belongs to.
#[derive(Clone, Copy)]
pub struct Found {
    /// Its place among the lines, from 0.
    pub line: u64,
    /// How many bytes of the local part it has matched: all of them for a simple line.
    pub rest: u64,
}

/// The line that this local part belongs to: the first simple line for it, else the wildcard for it that is the longest, the first
/// of equally long ones. The case of ASCII letters is ignored. `None` exactly if no line is for it. Takes no memory.
#[tactic(auto, using(crate::proofs::FoundLemmas::one_answer))]
pub fn find(assign: &Assign, local: &[u8]) -> Option<Found>
    ensures is { MatchOption result (IsForNobody assign.now local.now) (IsFound assign.now local.now) }
    ensures found { result ≡ found_in assign.now local.now }
{
    find_in(assign.as_slice(), local)
}

/// The same, in these lines.
fn find_in(lines: &[Assignment], local: &[u8]) -> Option<Found>
    ensures { MatchOption result (IsForNobody lines.now local.now) (IsFound lines.now local.now) }
{
    let mut best: Option<Found> = None;
    for (index, assignment) in lines.iter().enumerate() {
        if is_for(assignment, local) {
            return Some(Found {
                line: index as u64,
                rest: local.len() as u64,
            });
        }
        best = better(best, index as u64, assignment, local);
    }
    best
}

/// Whether it is a simple line for this local part.
fn is_for(assignment: &Assignment, local: &[u8]) -> bool
    ensures { IsTrue result ↔ IsFor assignment.now local.now }
{
    assignment.kind == Kind::Simple && same_fold(assignment.local.as_slice(), local)
}

/// Whether it is a wildcard for this local part.
fn begins_for(assignment: &Assignment, local: &[u8]) -> bool
    ensures { IsTrue result ↔ BeginsFor assignment.now local.now }
{
    let start = assignment.local.as_slice();
    assignment.kind == Kind::Wildcard
        && start.len() <= local.len()
        && same_fold(start, &local[..start.len()])
}

/// The better of the longest wildcard so far and this line.
fn better(best: Option<Found>, index: u64, assignment: &Assignment, local: &[u8]) -> Option<Found>
    ensures { Becomes best index assignment.now local.now result }
{
    if !begins_for(assignment, local) {
        return best;
    }
    let rest = assignment.local.len() as u64;
    match best {
        Some(found) if rest <= found.rest => best,
        _ => Some(Found { line: index, rest }),
    }
}
