// The text of a line, piece by piece.
ghost use Rattle.std.specs.Prelude.{◌≡◌, ◌+◌, ◌≤◌, ◌++◌, length, map, vec_len, vec_capacity};
ghost use Rattle.std.specs.List.{flat_map, sum_by};
ghost use Rattle.mail_bytes.specs.Decimal.{digits};
ghost use Rattle.send_log.specs.Lines.{line, shown, shown_byte};
ghost use Rattle.send_log.specs.Pieces.{piece_text, piece_room};

use mail_bytes::dec;

/// A piece of a line.
#[derive(Clone, Copy)]
pub enum Piece<'a> {
    /// Words of the line's kind, as they stand.
    Words(&'a [u8]),
    /// A number in decimal.
    Number(u64),
    /// An address or a report.
    Shown(&'a [u8]),
}

/// Puts the pieces of a line and a newline at the end of a text. The condition: there is room for them.
pub fn put_line(text: &mut Vec<u8>, pieces: &[Piece<'_>])
    requires { vec_len text.old + (sum_by piece_room pieces.now + 1) ≤ vec_capacity text.old }
    ensures items { text.new.items ≡ text.old.items ++ line (map piece_text pieces.now) }
    ensures short { vec_len text.new ≤ vec_len text.old + (sum_by piece_room pieces.now + 1) }
    ensures capacity { vec_capacity text.old ≤ vec_capacity text.new }
{
    put_pieces(text, pieces);
    put_bytes(text, b"\n");
}

/// Puts pieces at the end of a text. The condition: there is room for them.
fn put_pieces(text: &mut Vec<u8>, pieces: &[Piece<'_>])
    requires { vec_len text.old + sum_by piece_room pieces.now ≤ vec_capacity text.old }
    ensures items { text.new.items ≡ text.old.items ++ flat_map piece_text pieces.now }
    ensures short { vec_len text.new ≤ vec_len text.old + sum_by piece_room pieces.now }
    ensures capacity { vec_capacity text.old ≤ vec_capacity text.new }
{
    for piece in pieces {
        put_piece(text, piece);
    }
}

/// Puts a piece at the end of a text. The condition: there is room for it.
fn put_piece(text: &mut Vec<u8>, piece: &Piece<'_>)
    requires { vec_len text.old + piece_room piece.now ≤ vec_capacity text.old }
    ensures items { text.new.items ≡ text.old.items ++ piece_text piece.now }
    ensures short { vec_len text.new ≤ vec_len text.old + piece_room piece.now }
    ensures capacity { vec_capacity text.old ≤ vec_capacity text.new }
{
    match piece {
        Piece::Words(words) => put_bytes(text, words),
        Piece::Number(number) => put_number(text, *number),
        Piece::Shown(bytes) => put_shown(text, bytes),
    }
}

/// Puts bytes at the end of a text. The condition: there is room for them.
fn put_bytes(text: &mut Vec<u8>, bytes: &[u8])
    requires { vec_len text.old + length bytes.now ≤ vec_capacity text.old }
    ensures items { text.new.items ≡ text.old.items ++ bytes.now }
    ensures len { vec_len text.new ≡ vec_len text.old + length bytes.now }
    ensures capacity { vec_capacity text.old ≤ vec_capacity text.new }
{
    text.extend_from_slice(bytes).unwrap();
}

/// Puts a number at the end of a text. The condition: there is room for 20 digits.
fn put_number(text: &mut Vec<u8>, number: u64)
    requires { vec_len text.old + 20 ≤ vec_capacity text.old }
    ensures items { text.new.items ≡ text.old.items ++ digits number }
    ensures short { vec_len text.new ≤ vec_len text.old + 20 }
    ensures capacity { vec_capacity text.old ≤ vec_capacity text.new }
{
    let mut into = [0; 20];
    let len = dec(number, &mut into);
    put_bytes(text, &into[..len]);
}

/// Puts bytes at the end of a text as they are shown. The condition: there is room for them.
fn put_shown(text: &mut Vec<u8>, bytes: &[u8])
    requires { vec_len text.old + length bytes.now ≤ vec_capacity text.old }
    ensures items { text.new.items ≡ text.old.items ++ shown bytes.now }
    ensures len { vec_len text.new ≡ vec_len text.old + length bytes.now }
    ensures capacity { vec_capacity text.old ≤ vec_capacity text.new }
{
    for byte in bytes {
        put_bytes(text, &[shown_byte(*byte)]);
    }
}

/// How a byte of an address or a report is shown.
fn shown_byte(byte: u8) -> u8
    ensures { result ≡ shown_byte byte }
{
    match byte {
        b'\n' => b'/',
        b'%' => b'_',
        33..=126 => byte,
        _ => b'_',
    }
}
