// The text that a row lends: the name of its call, or the command to the cleaner.
ghost use Rattle.std.specs.Prelude.{◌≡◌, ◌≤◌, ◌+◌, ◌++◌, ◌∷◌, [], length};
ghost use Rattle.mail_bytes.specs.Decimal.{digits};
ghost use Rattle.todo_pass.specs.Parts.{path_in};
ghost use Rattle.todo_pass.specs.Rows.{lent_at};
ghost use Rattle.todo_pass.specs.Table.{command_text};

use crate::{Part, Row};
use mail_bytes::{NameBuf, dec};
use queue_paths::path;

/// Replaces `into` by what the row lends; empty if it lends nothing.
pub fn put_lent(row: Row, n: u64, into: &mut NameBuf)
    ensures { into.new ≡ lent_at row n }
{
    match row {
        Row::Clear { target } | Row::Create { target } => put_name(target.part(), n, into),
        Row::StatMess => put_name(Part::Mess, n, into),
        Row::OpenTodo => put_name(Part::Todo, n, into),
        Row::Give => put_command(n, into),
        _ => into.clear(),
    }
}

/// Replaces `into` by the name of a file.
fn put_name(part: Part, n: u64, into: &mut NameBuf)
    ensures { into.new ≡ path_in part n }
{
    path(&part.name(n), into);
}

/// Replaces `into` by the command to the cleaner.
fn put_command(n: u64, into: &mut NameBuf)
    ensures { into.new ≡ command_text n }
{
    let mut number = [0; 20];
    let len = dec(n, &mut number);
    into.clear();
    put(into, b"todo/");
    put(into, &number[..len]);
    put(into, &[0]);
}

/// The digits of a number. Takes no memory.
pub fn number_text(n: u64) -> NameBuf
    ensures { result ≡ digits n }
{
    let mut name = NameBuf::new();
    let mut text = [0; 20];
    let len = dec(n, &mut text);
    put(&mut name, &text[..len]);
    name
}

/// Puts bytes at the end. The condition: there is room for them.
fn put(into: &mut NameBuf, bytes: &[u8])
    requires { length into.old + length bytes.now ≤ 255 }
    ensures { into.new ≡ into.old ++ bytes.now }
{
    into.extend(bytes).unwrap();
}
