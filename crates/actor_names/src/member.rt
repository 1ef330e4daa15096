// The members of a generation.
ghost use Rattle.std.specs.Prelude.{◌≡◌};
ghost use Rattle.actor_names.specs.Members.{name_of, member_of, seat_of, member_at};

use crate::ActorName;

/// A member of a generation.
#[derive(Clone, Copy)]
pub enum Member {
    /// The sender.
    Sender,
    /// The cleaner.
    Cleaner,
    /// The local spawner.
    LocalSpawner,
    /// The remote spawner.
    RemoteSpawner,
}

impl Member {
    /// How many there are.
    pub const COUNT: usize = 4;

    /// The member of this name, if it is that of one.
    pub fn of(name: &[u8]) -> Option<Member>
        ensures { result ≡ member_of name.now }
    {
        if name == b"sender".as_slice() {
            Some(Member::Sender)
        } else if name == b"clean".as_slice() {
            Some(Member::Cleaner)
        } else if name == b"lspawn".as_slice() {
            Some(Member::LocalSpawner)
        } else if name == b"rspawn".as_slice() {
            Some(Member::RemoteSpawner)
        } else {
            None
        }
    }

    /// The bytes of its name.
    pub fn name(self) -> &'static [u8]
        ensures { result.now ≡ name_of self }
    {
        match self {
            Member::Sender => b"sender",
            Member::Cleaner => b"clean",
            Member::LocalSpawner => b"lspawn",
            Member::RemoteSpawner => b"rspawn",
        }
    }

    /// Its name. Takes no memory.
    pub fn actor_name(self) -> ActorName
        ensures { result ≡ name_of self }
    {
        ActorName::of(self.name()).unwrap()
    }

    /// Its seat: its place among the members, from 0.
    pub fn seat(self) -> usize
        ensures { result ≡ seat_of self }
    {
        match self {
            Member::Sender => 0,
            Member::Cleaner => 1,
            Member::LocalSpawner => 2,
            Member::RemoteSpawner => 3,
        }
    }

    /// The member at this seat, if it is that of one.
    pub fn at(seat: usize) -> Option<Member>
        ensures { result ≡ member_at seat }
    {
        match seat {
            0 => Some(Member::Sender),
            1 => Some(Member::Cleaner),
            2 => Some(Member::LocalSpawner),
            3 => Some(Member::RemoteSpawner),
            _ => None,
        }
    }
}
