// Reading users/assign.
ghost use Rattle.std.specs.Prelude.{◌≡◌, ◌↔◌, ◌<◌, ◌==◌, ◌∷◌, [], IfErr, IfOk, IsTrue, OnOk, length, map, position};
ghost use Rattle.std.specs.List.{slice_split};
ghost use Rattle.local_spawn.specs.Assign.{IsAdded, IsCause, IsFile, IsFirstLine, IsRefused};
ghost use Rattle.local_spawn.specs.Fields.{assignment_of, kind_of, number_in, parsed, parsed_by, parsed_fields, said};

use crate::assign::{Assign, Assignment};
use crate::kinds::Kind;
use mail_bytes::{ByteText, Memory, undec};
use std::alloc::{AllocError, AllocFailed, Global};
use thiserror::Error;

/// Why users/assign can't be read.
#[derive(Debug, Drop, Error)]
pub enum AssignError {
    /// The first line before `.` that is none of an assignment, by its number from 1.
    #[error("line {0} assigns nothing")]
    Line(usize),
    /// There is no line `.`.
    #[error("no line `.`")]
    NoDot,
    /// Out of memory.
    #[error("out of memory")]
    Memory,
}

impl From<AllocError> for AssignError {
    ghost use Rattle.std.specs.Prelude.{◌≡◌};
    ghost use Rattle.local_spawn.specs.declared.reading.AssignError.TheVariants.{Memory};

    ghost from_gives = { λ _ why. why ≡ Memory };

    fn from(_: AllocError) -> Self {
        AssignError::Memory
    }
}

impl<T: Drop> From<AllocFailed<T>> for AssignError {
    ghost use Rattle.std.specs.Prelude.{◌≡◌};
    ghost use Rattle.local_spawn.specs.declared.reading.AssignError.TheVariants.{Memory};

    ghost from_gives = { λ _ why. why ≡ Memory };

    fn from(_: AllocFailed<T>) -> Self {
        AssignError::Memory
    }
}

impl Assign {
    /// Reads the file: lines `=LOCAL:USER:UID:GID:HOME:DASH:EXT:` and `+LOC:USER:UID:GID:HOME:DASH:PRE:`, whose numbers are decimal
    /// texts up to u32's last value, and then the line `.`, which may lack its newline. What comes after that line is passed over.
    ///
    /// `Line` exactly if a line before `.` is none of these, with the number of the first such line; else `NoDot` exactly if there
    /// is no line `.`.
    pub fn read(alloc: Global, bytes: &[u8]) -> Result<Assign, AssignError>
        ensures ok { IfOk result (IsFile bytes.now) }
        ensures err { IfErr result (IsCause bytes.now) }
    {
        let mut lines = Vec::new(alloc);
        let mut rest = bytes;
        while !rest.is_empty() {
            let (line, after) = cut_line(rest);
            if is_dot(line) {
                return Ok(Assign::from_vec(lines));
            }
            add_line(alloc, &mut lines, line)?;
            rest = after;
        }
        Err(AssignError::NoDot)
    }
}

/// The first line, and what comes after its newline. The condition: there is a line.
fn cut_line(text: &[u8]) -> (&[u8], &[u8])
    requires { 0 < length text.now }
    ensures line { IsFirstLine text.now result.0.now result.1.now }
    ensures shorter { length result.1.now < length text.now }
{
    match first_newline(text) {
        Some(at) => (&text[..at], &text[at + 1..]),
        None => (text, &[]),
    }
}

/// The place of the first newline.
fn first_newline(text: &[u8]) -> Option<usize>
    ensures { result ≡ position (λ b. b == 10) text.now }
{
    text.iter().position(|byte| *byte == b'\n')
}

/// Whether it is the line that ends the file.
fn is_dot(line: &[u8]) -> bool
    ensures { IsTrue result ↔ (line.now ≡ 46 ∷ []) }
{
    line == b".".as_slice()
}

/// Puts the assignment of a line at the end of a list; `Line` exactly if it has none.
fn add_line(alloc: Global, lines: &mut Vec<Assignment>, line: &[u8]) -> Result<(), AssignError>
    ensures ok { OnOk result (IsAdded line.now lines.old.items lines.new.items) }
    ensures err { IfErr result (IsRefused line.now (length lines.old.items)) }
{
    match assignment_in(alloc, line)? {
        None => Err(AssignError::Line(lines.len() + 1)),
        Some(assignment) => {
            lines.push(assignment)?;
            Ok(())
        }
    }
}

/// The assignment of a line; `None` exactly if it has none.
fn assignment_in(alloc: Global, line: &[u8]) -> Result<Option<Assignment>, Memory>
    ensures { IfOk result (λ found. found ≡ parsed line.now) }
{
    let pieces = pieces_of(alloc, line)?;
    match fields_in(pieces.as_slice()) {
        None => Ok(None),
        Some(fields) => Ok(Some(fields.owned(alloc)?)),
    }
}

/// The pieces of a line between its colons.
fn pieces_of(alloc: Global, line: &[u8]) -> Result<Vec<&[u8]>, Memory>
    ensures { IfOk result (λ pieces. map (λ piece. piece.now) pieces.items ≡ slice_split (λ b. b == 58) line.now) }
{
    line.split(|byte| *byte == b':').collect(alloc)
}

/// The fields of a line.
#[derive(Clone, Copy)]
struct Fields<'a> {
    kind: Kind,
    local: &'a [u8],
    user: &'a [u8],
    uid: u32,
    gid: u32,
    home: &'a [u8],
    dash: &'a [u8],
    ext: &'a [u8],
}

impl Fields<'_> {
    /// An assignment with these fields.
    fn owned(&self, alloc: Global) -> Result<Assignment, Memory>
        ensures { IfOk result (λ assignment. assignment ≡ assignment_of self.now) }
    {
        Ok(Assignment {
            kind: self.kind,
            local: ByteText::from_slice(alloc, self.local)?,
            user: ByteText::from_slice(alloc, self.user)?,
            uid: self.uid,
            gid: self.gid,
            home: ByteText::from_slice(alloc, self.home)?,
            dash: ByteText::from_slice(alloc, self.dash)?,
            ext: ByteText::from_slice(alloc, self.ext)?,
        })
    }
}

/// The fields of a line with these pieces: they are eight, and the last one is empty.
fn fields_in<'a>(pieces: &[&'a [u8]]) -> Option<Fields<'a>>
    ensures { said result ≡ parsed_by (map (λ piece. piece.now) pieces.now) }
{
    let [first, user, uid, gid, home, dash, ext, last] = pieces else {
        return None;
    };
    if last.is_empty() {
        fields_of(first, user, uid, gid, home, dash, ext)
    } else {
        None
    }
}

/// The fields that are these pieces: the first begins with the sign of a kind, and two are numbers.
fn fields_of<'a>(
    first: &'a [u8],
    user: &'a [u8],
    uid: &[u8],
    gid: &[u8],
    home: &'a [u8],
    dash: &'a [u8],
    ext: &'a [u8],
) -> Option<Fields<'a>>
    ensures { said result ≡ parsed_fields first.now user.now uid.now gid.now home.now dash.now ext.now }
{
    let (sign, local) = first.split_first()?;
    let kind = kind_of(*sign)?;
    let uid = number_in(uid)?;
    let gid = number_in(gid)?;
    Some(Fields {
        kind,
        local,
        user,
        uid,
        gid,
        home,
        dash,
        ext,
    })
}

/// The kind of a line that begins with this byte.
fn kind_of(sign: u8) -> Option<Kind>
    ensures { result ≡ kind_of sign }
{
    match sign {
        b'=' => Some(Kind::Simple),
        b'+' => Some(Kind::Wildcard),
        _ => None,
    }
}

/// The number that a decimal text is, up to u32's last value.
fn number_in(text: &[u8]) -> Option<u32>
    ensures { result ≡ number_in text.now }
{
    u32::try_from(undec(text)?).ok()
}
