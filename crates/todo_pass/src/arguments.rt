// What a todo pass is started with.

use address_rules::Controls;

/// What a todo pass is started with: the number of the message, and what the control files say.
#[derive(Drop)]
pub struct Arguments {
    /// The number of the message.
    pub n: u64,
    /// What the control files say.
    pub controls: Controls,
}
