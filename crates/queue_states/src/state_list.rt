// Numbers with their states.
ghost use Rattle.std.specs.Prelude.{◌≡◌};

use crate::state::State;
use std::marker::Model;

/// Numbers with their states; contracts see the list of these pairs.
#[derive(Drop)]
pub struct StateList {
    entries: Vec<(u64, State)>,
}

impl Model for StateList {
    ghost use Rattle.std.specs.Prelude.{List, ℕ};
    ghost use Rattle.queue_states.specs.declared.state.State.{State};

    ghost Value = { List (ℕ × State) };

    ghost view = { λ l. l.entries.items };
}

impl StateList {
    /// The list of these pairs. Takes no memory.
    pub fn from_vec(entries: Vec<(u64, State)>) -> Self
        ensures { result ≡ entries.items }
    {
        StateList { entries }
    }

    /// Its pairs.
    pub fn as_slice(&self) -> &[(u64, State)]
        ensures { result.now ≡ self.now }
    {
        self.entries.as_slice()
    }

    /// Gives the pairs back. Takes no memory.
    pub fn into_vec(self) -> Vec<(u64, State)>
        ensures { result.items ≡ self }
    {
        self.entries
    }
}
