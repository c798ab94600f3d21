//! Laws of rooms.

ghost use Rattle.std.specs.Prelude.{◌≡◌, ℕ};
ghost use mathlib.Core.List.{IsPrefix};
ghost use Rattle.sessions.specs.Plans.{Rules};
ghost use Rattle.mutator_rule.specs.declared.seat.MutatorSeat.{MutatorSeat};
ghost use Rattle.mutator_rule.specs.Logs.{KnowsLog};
ghost use Rattle.mutator_rule.specs.Seats.{known, local_of, epoch_of_seat};
ghost use Rattle.racing_rooms.specs.Rooms.{HasRooms};
ghost use Rattle.racing_rooms.specs.NoRoom.{regions_at, HasNoRoom};

/// A mutator that has no room for an object has none after steps of others: its own blocks, objects
/// and regions stay, and others give it no room.
pub fn lack_of_room_stays()
    ensures { (rules : Rules) (old new : MutatorSeat) → (known new).start ≡ (known old).start
        → (local_of new).number ≡ (local_of old).number
        → IsPrefix (known old).seen (known new).seen
        → KnowsLog (epoch_of_seat rules old) (known old)
        → KnowsLog (epoch_of_seat rules new) (known new)
        → (local_of new).owned ≡ (local_of old).owned → (local_of new).made ≡ (local_of old).made
        → HasRooms rules old → HasRooms rules new → regions_at new ≡ regions_at old
        → (size : ℕ) → HasNoRoom rules old size → HasNoRoom rules new size }
{}
