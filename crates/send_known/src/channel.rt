// The two channels.

/// The channel of a recipient.
#[derive(Clone, Copy, Debug, PartialEq, Eq)]
pub enum Channel {
    /// By qmail-lspawn(8).
    Local,
    /// By qmail-rspawn(8).
    Remote,
}
