// The lines that say what a script's disk holds at its beginning.
ghost use Rattle.std.specs.Prelude.{◌≡◌, ◌++◌, ◌∷◌, List, ℕ, Contains, IfOk, IfErr, IfSome, IfNone, codes};
ghost use Rattle.script_words.specs.declared.entry.Entry.{Entry as EntryOf};
ghost use Rattle.script_words.specs.Words.{StandsFor};
ghost use Rattle.script_words.specs.Entries.{IsEntryLine, IsEntryPath, path_of};
ghost use Rattle.script_words.specs.Reading.{kind_text, kind_texts};

use crate::paths::is_entry_path;
use crate::words::{bytes_of, first_word, read_end, read_last_word};
use crate::{Entry, WordError};
use mail_bytes::{ByteText, Memory};
use std::alloc::{AllocError, Global};

/// Reads a line that says what a script's disk holds at its beginning; `None` exactly if it is no such line.
/// The error: out of memory.
pub fn read_entry(alloc: Global, text: &[u8]) -> Result<Option<Entry>, Memory>
    ensures some { IfOk result (λ read. IfSome read (λ entry. IsEntryLine text.now entry × IsEntryPath (path_of entry))) }
    ensures none { IfOk result (λ read. IfNone read ((entry : EntryOf) → ¬ (IsEntryLine text.now entry))) }
{
    match read_kind(alloc, text) {
        Ok(entry) => Ok(Some(entry)),
        Err(WordError::Malformed) => Ok(None),
        Err(WordError::Memory) => Err(AllocError),
    }
}

/// The first word of such a line.
#[derive(Clone, Copy)]
enum Kind {
    /// `file`
    File,
    /// `dir`
    Dir,
}

/// Reads such a line by its first word.
fn read_kind(alloc: Global, text: &[u8]) -> Result<Entry, WordError>
    ensures ok { IfOk result (IsEntryLine text.now) }
    ensures err { IfErr result (λ why. why ≡ WordError.Malformed → (entry : EntryOf) → ¬ (IsEntryLine text.now entry)) }
{
    let (word, rest) = first_word(text)?;
    match kind_of(word) {
        Some(Kind::File) => read_file(alloc, rest),
        Some(Kind::Dir) => read_dir(alloc, rest),
        None => Err(WordError::Malformed),
    }
}

/// The first word of such a line; None exactly if it is no such word.
fn kind_of(word: &[u8]) -> Option<Kind>
    ensures some { IfSome result (λ kind. word.now ≡ kind_text kind) }
    ensures none { IfNone result (¬ (Contains kind_texts word.now)) }
{
    match word {
        b"file" => Some(Kind::File),
        b"dir" => Some(Kind::Dir),
        _ => None,
    }
}

/// Reads what follows `file` and a space: a path, `:` and the bytes.
fn read_file(alloc: Global, words: &[u8]) -> Result<Entry, WordError>
    ensures ok { IfOk result (IsEntryLine (codes "file" ++ 32 ∷ words.now)) }
    ensures err { IfErr result (λ why. why ≡ WordError.Malformed → (entry : EntryOf) → ¬ (IsEntryLine (codes "file" ++ 32 ∷ words.now) entry)) }
{
    let (word, rest) = first_word(words)?;
    let path = read_path(alloc, word)?;
    let body = read_end(rest)?;
    let bytes = bytes_of(alloc, body)?;
    Ok(Entry::File {
        path,
        bytes: ByteText::from_vec(bytes),
    })
}

/// Reads what follows `dir` and a space: a path.
fn read_dir(alloc: Global, words: &[u8]) -> Result<Entry, WordError>
    ensures ok { IfOk result (IsEntryLine (codes "dir" ++ 32 ∷ words.now)) }
    ensures err { IfErr result (λ why. why ≡ WordError.Malformed → (entry : EntryOf) → ¬ (IsEntryLine (codes "dir" ++ 32 ∷ words.now) entry)) }
{
    Ok(Entry::Dir(read_path(alloc, words)?))
}

/// Reads the path of an entry, by the one word for it.
fn read_path(alloc: Global, word: &[u8]) -> Result<ByteText, WordError>
    ensures ok { IfOk result (λ path. StandsFor word.now path × IsEntryPath path) }
    ensures err { IfErr result (λ why. why ≡ WordError.Malformed → (path : List ℕ) → StandsFor word.now path → ¬ (IsEntryPath path)) }
{
    let path = read_last_word(alloc, word)?;
    if !is_entry_path(path.as_slice()) {
        return Err(WordError::Malformed);
    }
    Ok(path)
}
