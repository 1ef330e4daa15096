// What an injector is started with.

use mail_bytes::ByteText;
use received_line::Invoked;

/// How an input ended.
#[derive(Clone, Copy)]
pub enum InputEnd {
    /// At its end.
    Whole,
    /// It could not be read on.
    Unread,
    /// The netstring that it came in has a wrong head or comma.
    Malformed,
}

/// A part of an injector's input.
#[derive(Clone, Copy)]
pub enum Part {
    /// The message, which comes first.
    Message,
    /// The envelope.
    Envelope,
}

/// What an injector is started with: who injects and when, and its whole input.
#[derive(Drop)]
pub struct Arguments {
    /// The user whose message it is.
    pub uid: u32,
    /// The injector's process number.
    pub pid: u32,
    /// By whom, or for what, it was invoked.
    pub invoked: Invoked,
    /// When it was started, in seconds since 1 January 1970 UTC.
    pub start: u64,
    /// The message.
    pub message: ByteText,
    /// How the message ended.
    pub message_end: InputEnd,
    /// The envelope.
    pub envelope: ByteText,
    /// How the envelope's bytes ended.
    pub envelope_end: InputEnd,
}
