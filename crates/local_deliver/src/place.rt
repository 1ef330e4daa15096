// What a local delivery keeps.

use crate::{Dropping, Row};
use local_parts::{Blocks, Course, Names};
use mail_bytes::ByteText;

/// What a local delivery keeps: where it stands, and what its steps need.
#[derive(Drop)]
pub struct Place {
    /// Where it stands.
    pub row: Row,
    /// What was taken of its input; once the input has ended, the message.
    pub message: Blocks,
    /// What was read of the file at work.
    pub read: ByteText,
    /// The name of the host.
    pub host: ByteText,
    /// The names of the home's files that were told.
    pub names: Names,
    /// The name of the chosen `.qmail` file.
    pub name: ByteText,
    /// The instructions.
    pub course: Course,
    /// The drop at work, or the last one.
    pub dropping: Option<Dropping>,
    /// The command at work, what is given to the injector, or the report.
    pub text: ByteText,
    /// How many bytes the injector is to have room for.
    pub room: u64,
    /// Its process number.
    pub injector: u32,
}
