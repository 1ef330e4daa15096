// Kinds of lines.

/// Which local parts a line is for.
#[derive(Clone, Copy, PartialEq, Eq)]
pub enum Kind {
    /// `=LOCAL:`: this one.
    Simple,
    /// `+LOC:`: all that begin with this.
    Wildcard,
}
