// Reading a script.
ghost use Rattle.std.specs.Prelude.{◌≡◌, ◌≢◌, ◌++◌, ◌∷◌, [], IfOk, IfErr, IsTrue, ◌↔◌, Contains, OnOk, OnErr, Some, None};
ghost use Rattle.script_words.specs.Entries.{IsEntryPath, path_of};
ghost use Rattle.script_words.specs.Reading.{form_text};
ghost use Rattle.actor_names.specs.MailNames.{IsMailName};
ghost use Rattle.script_lines.specs.declared.line.Line.{Line};
ghost use Rattle.script_lines.specs.declared.keyword.Keyword.TheVariants as KeywordOf;
ghost use Rattle.script_lines.specs.Contents.{Content};
ghost use Rattle.script_lines.specs.inside.Contents.{with_entry};
ghost use Rattle.script_lines.specs.Lines.{IsActorName, IsChildName, child_kinds, is_remark, IsLine, IsScript, IsScriptFault};
ghost use Rattle.script_lines.specs.Keywords.{keyword_text};
ghost use Rattle.script_lines.specs.inside.Reading.{HasMail, CanFollow, IsFirstLine, MayFollow, IsTextRead};

use crate::keyword::{Keyword, keyword_of};
use crate::{Line, Script, ScriptError};
use actor_names::{ActorName, is_mail_name, is_member};
use mail_bytes::ByteText;
use script_words::{
    Entry, Form, WordError, bytes_of, cut, first_word, is_count, may_follow, read_counted,
    read_entry, read_envelope_as, read_last_word, read_letter, read_moment, read_report,
    read_survival,
};
use std::alloc::Global;

/// The most bytes that a script may have.
pub const MAX_SCRIPT: usize = 16_777_216;

/// The most bytes that a line may have, its newline not counted.
const MAX_LINE: usize = 65_535;

/// Reads a script. `Line(0)` exactly if it has over 16,777,216 bytes; else `Line(k)` for the first line that isn't in
/// the grammar.
pub fn read_script(alloc: Global, bytes: &[u8]) -> Result<Script, ScriptError>
    ensures ok { IfOk result (IsScript bytes.now) }
    ensures err { IfErr result (IsScriptFault bytes.now) }
{
    if bytes.len() > MAX_SCRIPT {
        return Err(ScriptError::Line(0));
    }
    let mut script = Script::new(alloc);
    let mut rest = bytes;
    let mut number: u64 = 0;
    while !rest.is_empty() {
        let (text, after) = first_line(rest);
        number += 1;
        match read_line(alloc, text, &mut script) {
            Ok(()) => rest = after,
            Err(WordError::Malformed) => return Err(ScriptError::Line(number)),
            Err(WordError::Memory) => return Err(ScriptError::Memory),
        }
    }
    Ok(script)
}

/// The first line, and what stands after its newline. The condition: there are some bytes.
fn first_line(bytes: &[u8]) -> (&[u8], &[u8])
    requires { bytes.now ≢ [] }
    ensures { IsFirstLine bytes.now result.0.now result.1.now }
{
    let (text, after) = cut(bytes, b'\n');
    match after {
        Some(after) => (text, after),
        None => (text, b""),
    }
}

/// Reads a line, and puts what it says at the end of the script; nothing of one that is passed over. `Malformed` also
/// if it is too long, and if it says what the disk holds at the beginning and may not follow those before it.
fn read_line(alloc: Global, text: &[u8], script: &mut Script) -> Result<(), WordError>
    ensures ok { OnOk result (IsTextRead text.now script.old script.new) }
    ensures err { IfErr result (λ why. why ≡ WordError.Malformed → (longer : Content) → ¬ (IsTextRead text.now script.old longer)) }
{
    if text.len() > MAX_LINE {
        return Err(WordError::Malformed);
    }
    if is_remark(text) {
        return Ok(());
    }
    if let Some(entry) = read_entry(alloc, text)? {
        return put_entry(script, entry);
    }
    let line = parse_line(alloc, text)?;
    script.put_line(line)?;
    Ok(())
}

/// Puts an entry at the end of a script, if it may stand there. The condition: its path lies below a directory for
/// entries.
fn put_entry(script: &mut Script, entry: Entry) -> Result<(), WordError>
    requires { IsEntryPath (path_of entry) }
    ensures ok { OnOk result (MayFollow script.old entry × (script.new ≡ with_entry script.old entry)) }
    ensures err { IfErr result (λ why. why ≡ WordError.Malformed → ¬ (MayFollow script.old entry)) }
{
    if !follows(script, &entry) {
        return Err(WordError::Malformed);
    }
    script.put_entry(entry)?;
    Ok(())
}

/// Whether no line stands before an entry, and it agrees with the entries before it.
fn follows(script: &Script, entry: &Entry) -> bool
    ensures { IsTrue result ↔ MayFollow script.now entry.now }
{
    script.lines().is_empty() && may_follow(script.opening(), entry)
}

/// Whether a line is passed over: an empty one, or one that begins with `#`.
fn is_remark(text: &[u8]) -> bool
    ensures { result ≡ is_remark text.now }
{
    match text.first() {
        Some(first) => *first == b'#',
        None => true,
    }
}

/// Reads a line by its words, however long it is.
fn parse_line(alloc: Global, text: &[u8]) -> Result<Line, WordError>
    ensures ok { IfOk result (IsLine text.now) }
    ensures err { IfErr result (λ why. why ≡ WordError.Malformed → (line : Line) → ¬ (IsLine text.now line)) }
{
    let (word, rest) = cut(text, b' ');
    match (keyword_of(word), rest) {
        (Some(keyword), Some(rest)) => read_argument(alloc, keyword, rest),
        (Some(keyword), None) => read_alone(keyword),
        (None, _) => Err(WordError::Malformed),
    }
}

/// The line of a word that nothing follows.
fn read_alone(keyword: Keyword) -> Result<Line, WordError>
    ensures ok { IfOk result (IsLine (keyword_text keyword)) }
    ensures err { OnErr result (¬ (CanFollow keyword None)) }
{
    match keyword {
        Keyword::Alone(word) => Ok(Line::Alone(word)),
        Keyword::Mail(_) | Keyword::Actor(_) | Keyword::Count(_) => Err(WordError::Malformed),
        Keyword::Moment(_) | Keyword::Survival(_) | Keyword::Word(_) => Err(WordError::Malformed),
        Keyword::Letter(_) | Keyword::Report => Err(WordError::Malformed),
    }
}

/// Reads what stands after a word and its space, by the kind of argument that the word has.
fn read_argument(alloc: Global, keyword: Keyword, rest: &[u8]) -> Result<Line, WordError>
    ensures ok { IfOk result (IsLine (keyword_text keyword ++ 32 ∷ rest.now)) }
    ensures err { IfErr result (λ why. why ≡ WordError.Malformed → ¬ (CanFollow keyword (Some rest.now))) }
{
    match keyword {
        Keyword::Mail(form) => read_mail(alloc, form, rest),
        Keyword::Alone(_) => Err(WordError::Malformed),
        Keyword::Actor(word) => Ok(Line::Actor(word, read_actor(rest)?)),
        Keyword::Count(word) => Ok(Line::Count(word, read_counted(rest)?)),
        Keyword::Moment(word) => Ok(Line::Moment(word, read_moment(rest)?)),
        Keyword::Survival(word) => Ok(Line::Survival(word, read_survival(rest)?)),
        Keyword::Word(word) => Ok(Line::Word(word, read_last_word(alloc, rest)?)),
        Keyword::Letter(word) => Ok(Line::Letter(word, read_letter(rest)?)),
        Keyword::Report => read_report_line(alloc, rest),
    }
}

/// Reads what follows `report` and a space: a slot, the letter of a report and a word for a text.
fn read_report_line(alloc: Global, words: &[u8]) -> Result<Line, WordError>
    ensures ok { IfOk result (IsLine (keyword_text KeywordOf.Report ++ 32 ∷ words.now)) }
    ensures err { IfErr result (λ why. why ≡ WordError.Malformed → ¬ (CanFollow KeywordOf.Report (Some words.now))) }
{
    let (slot, letter, text) = read_report(alloc, words)?;
    Ok(Line::Report { slot, letter, text })
}

/// Reads the name of an actor.
fn read_actor(word: &[u8]) -> Result<ActorName, WordError>
    ensures ok { IfOk result (λ name. (name ≡ word.now) × IsActorName word.now) }
    ensures err { IfErr result (λ why. why ≡ WordError.Malformed → ¬ (IsActorName word.now)) }
{
    if !is_actor_name(word) {
        return Err(WordError::Malformed);
    }
    match ActorName::of(word) {
        Some(name) => Ok(name),
        None => Err(WordError::Malformed),
    }
}

/// Whether an actor may have this name.
fn is_actor_name(word: &[u8]) -> bool
    ensures { IsTrue result ↔ IsActorName word.now }
{
    is_mail_name(word) || is_member(word) || is_child_name(word)
}

/// Whether it names a local delivery, a forward or a bounce, by its number.
fn is_child_name(word: &[u8]) -> bool
    ensures { IsTrue result ↔ IsChildName word.now }
{
    match cut(word, b'.') {
        (kind, Some(count)) => is_child_kind(kind) && is_count(count),
        _ => false,
    }
}

/// Whether it is the letter of local deliveries, forwards or bounces.
fn is_child_kind(kind: &[u8]) -> bool
    ensures { IsTrue result ↔ Contains child_kinds kind.now }
{
    matches!(kind, b"l" | b"f" | b"b")
}

/// Reads what follows `mail` or `raw` and a space: a name, what the envelope is made of, `:` and a body.
fn read_mail(alloc: Global, form: Form, words: &[u8]) -> Result<Line, WordError>
    ensures ok { IfOk result (IsLine (form_text form ++ 32 ∷ words.now)) }
    ensures err { IfErr result (λ why. why ≡ WordError.Malformed → ¬ (HasMail form words.now)) }
{
    let (word, rest) = first_word(words)?;
    let name = read_mail_name(word)?;
    let (envelope, text) = read_envelope_as(alloc, form, rest)?;
    let body = bytes_of(alloc, text)?;
    Ok(Line::Mail {
        name,
        message: ByteText::from_vec(body),
        envelope: ByteText::from_vec(envelope),
    })
}

/// Reads the name of a mail.
fn read_mail_name(word: &[u8]) -> Result<ActorName, WordError>
    ensures ok { IfOk result (λ name. (name ≡ word.now) × IsMailName word.now) }
    ensures err { IfErr result (λ why. why ≡ WordError.Malformed → ¬ (IsMailName word.now)) }
{
    if !is_mail_name(word) {
        return Err(WordError::Malformed);
    }
    read_actor(word)
}
