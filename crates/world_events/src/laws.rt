//! Laws on the list of a generation's members.
ghost use Rattle.std.specs.Prelude.{◌≡◌, ℕ, length, map};
ghost use Rattle.std.specs.List.{range_with_len};
ghost use Rattle.actor_names.specs.MailNames.{members};
ghost use Rattle.actor_names.specs.Members.{name_of, seat_of};
ghost use Rattle.world_events.specs.Programs.{class_of, crew_at, generation};
ghost use Rattle.world_events.specs.Programs.Class.{Seated};

/// Names, seats and what members run go by the one list of them, in its order.
pub fn members_are_listed()
    ensures names { members ≡ map name_of generation }
    ensures seats { range_with_len 0 (length members) ≡ map seat_of generation }
    ensures classes { (start : ℕ) → map class_of (crew_at start) ≡ map Seated generation }
{}
