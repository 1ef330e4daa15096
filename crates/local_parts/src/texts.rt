// The lines that a local delivery puts before a message.
ghost use Rattle.std.specs.Prelude.{◌≡◌, ◌≤◌, ◌++◌, ◌∷◌, [], IfOk, OnOk, All, length};
ghost use Rattle.call_fs.specs.declared.file_system.TheConstants.{PIECE};
ghost use Rattle.mail_bytes.specs.Blocks.{joined};
ghost use Rattle.local_parts.specs.Texts.{delivered_line, delivered_to, in_line, line_byte, maildir_text, return_line};

use crate::{Blocks, LocalArgs};
use mail_bytes::{ByteText, Memory};
use std::alloc::Global;

/// `Delivered-To: LOCAL@DOMAIN`, each newline of the address as `_`. The error: out of memory.
pub fn delivered_to(alloc: Global, args: &LocalArgs) -> Result<ByteText, Memory>
    ensures { IfOk result (λ text. text ≡ delivered_to args.now) }
{
    let mut text = ByteText::from_slice(alloc, b"Delivered-To: ")?;
    put_in_line(&mut text, args.local.as_slice())?;
    text.extend(b"@")?;
    put_in_line(&mut text, args.domain.as_slice())?;
    Ok(text)
}

/// The same as a line. The error: out of memory.
pub fn delivered_line(alloc: Global, args: &LocalArgs) -> Result<ByteText, Memory>
    ensures { IfOk result (λ text. text ≡ delivered_line args.now) }
{
    let mut text = delivered_to(alloc, args)?;
    text.extend(b"\n")?;
    Ok(text)
}

/// `Return-Path: <SENDER>` as a line, each newline of the sender as `_`.
fn return_line(alloc: Global, args: &LocalArgs) -> Result<ByteText, Memory>
    ensures { IfOk result (λ text. text ≡ return_line args.now) }
{
    let mut text = ByteText::from_slice(alloc, b"Return-Path: <")?;
    put_in_line(&mut text, args.sender.as_slice())?;
    text.extend(b">\n")?;
    Ok(text)
}

/// The file of a maildir, in blocks of at most 8192 bytes: both lines, and the message. The error: out of memory.
pub fn maildir_blocks(
    alloc: Global,
    args: &LocalArgs,
    message: &Blocks,
) -> Result<Vec<Vec<u8>>, Memory>
    ensures bytes { IfOk result (λ blocks. joined blocks.items ≡ maildir_text args.now message.now) }
    ensures short { IfOk result (λ blocks. All (λ block. length block.items ≤ PIECE) blocks.items) }
{
    let mut text = Blocks::new(alloc);
    text.put(alloc, return_line(alloc, args)?.as_slice())?;
    text.put(alloc, delivered_line(alloc, args)?.as_slice())?;
    text.put_all(alloc, message)?;
    text.into_blocks()
}

/// Puts a part of a line at the end of a text.
fn put_in_line(text: &mut ByteText, part: &[u8]) -> Result<(), Memory>
    ensures { OnOk result (text.new ≡ text.old ++ in_line part.now) }
{
    for byte in part {
        text.extend(&[line_byte(*byte)])?;
    }
    Ok(())
}

/// A byte of an address as it stands in a line.
fn line_byte(byte: u8) -> u8
    ensures { result ≡ line_byte byte }
{
    if byte == b'\n' { b'_' } else { byte }
}
