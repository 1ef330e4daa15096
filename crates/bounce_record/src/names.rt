// The names that the steps of notes and bounces use.
ghost use Rattle.std.specs.Prelude.{◌≡◌};
ghost use Rattle.bounce_record.specs.Rows.{note_name_at, return_name_at};

use crate::{NoteRow, ReturnRow};
use mail_bytes::NameBuf;
use queue_paths::{Name, path};

/// Replaces `into` by the name of the call of a note's row; empty if it has none.
pub fn put_note_name(row: NoteRow, n: u64, into: &mut NameBuf)
    ensures { into.new ≡ note_name_at row n }
{
    match row {
        NoteRow::Open | NoteRow::Create | NoteRow::Stat { .. } => path(&Name::Bounce(n), into),
        _ => into.clear(),
    }
}

/// Replaces `into` by the name of the call of a return's row; empty if it has none.
pub fn put_return_name(row: ReturnRow, n: u64, into: &mut NameBuf)
    ensures { into.new ≡ return_name_at row n }
{
    match row {
        ReturnRow::Open | ReturnRow::Unlink | ReturnRow::Discard => path(&Name::Bounce(n), into),
        ReturnRow::OpenMessage => path(&Name::Mess(n), into),
        _ => into.clear(),
    }
}
