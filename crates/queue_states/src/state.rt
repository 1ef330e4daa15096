//! The states of a message number, by which of its files are there.
ghost use Rattle.std.specs.Prelude.{◌≡◌};
ghost use Rattle.queue_states.specs.States.{state_by_all};
ghost use Rattle.queue_states.specs.Lines.{state_word};

/// The state of a message number (INTERNALS, "Queue structure").
#[derive(Clone, Copy)]
pub enum State {
    /// Nothing of it is there.
    S1,
    /// The message file alone.
    S2,
    /// The message and the envelope in intd.
    S3,
    /// Queued: the message, and the envelope in todo.
    S4,
    /// Preprocessed: the message and info.
    S5,
    /// A combination that no legal history leads to.
    Other,
}

impl State {
    /// Its name: `S1` to `S5`, or `other`. Takes no memory.
    pub fn word(self) -> &'static [u8]
        ensures { result.now ≡ state_word self }
    {
        match self {
            State::S1 => b"S1",
            State::S2 => b"S2",
            State::S3 => b"S3",
            State::S4 => b"S4",
            State::S5 => b"S5",
            State::Other => b"other",
        }
    }
}

/// The state of a number, by which of its files are there: mess, intd, todo, info, local, remote, bounce. Takes no
/// memory.
pub fn state_of(present: [bool; 7]) -> State
    ensures { result ≡ state_by_all present }
{
    match present {
        [false, false, false, false, false, false, false] => State::S1,
        [true, false, false, false, false, false, false] => State::S2,
        [true, true, false, false, false, false, false] => State::S3,
        [true, _, true, _, _, _, false] => State::S4,
        [true, false, false, true, _, _, _] => State::S5,
        _ => State::Other,
    }
}
