// What a port of a program is.

/// What a port of a program is.
#[derive(Clone, Copy)]
pub enum Line {
    /// There is none: no such link, or no program of that delivery.
    Missing,
    /// The program's output.
    Output,
    /// A link, with this channel.
    Link(u32),
    /// The program of this delivery, with this channel.
    Program(u8, u32),
    /// The exit status of the program of this delivery, with this channel.
    Status(u8, u32),
}
