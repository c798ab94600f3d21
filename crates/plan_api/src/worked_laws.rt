//! Worked examples of parts of holes, of cursors and of counts.

ghost use Rattle.std.specs.Prelude.{◌≡◌, ℕ, List, [], ◌∷◌, map, None};
ghost use Rattle.plan_api.specs.Prelude.{Nothing, Copies, Headroom, counts_with, mixed_heap, session_counts, session_reserve, PlacesInHole, PlacesInOverflow, LacksRoom, HasRoomFrom, IsFirstPart, IsFirstHole, cursors_with};
ghost use Rattle.plan_api.specs.Prelude.kinds;
ghost use Rattle.plan_api.specs.Prelude.reserves;

/// First parts in a worked heap: of a tail all that is left from the offset on; of lines the first
/// run with room, or what is left of it after the line of the offset; of cells of the size's class
/// the next free one.
pub fn first_parts_of_a_worked_heap()
    ensures tail { IsFirstPart kinds.Bump mixed_heap 0 0 3 (record { next = 15; end = 4096 }) }
    ensures late { IsFirstPart kinds.Bump mixed_heap 0 20 3 (record { next = 20; end = 4096 }) }
    ensures lines { IsFirstPart kinds.Immix mixed_heap 1 0 3 (record { next = 32; end = 160 }) }
    ensures rest { IsFirstPart kinds.Immix mixed_heap 1 33 3 (record { next = 48; end = 160 }) }
    ensures short { HasRoomFrom kinds.Immix mixed_heap 1 33 113 48 160 → ⊥ }
    ensures cell { IsFirstPart kinds.Cells mixed_heap 2 0 2000
        (record { next = 2048; end = 4096 }) }
    ensures later { IsFirstHole kinds.Cells mixed_heap 2 2049 2000 None }
    ensures class { IsFirstHole kinds.Cells mixed_heap 2 0 1536 None }
{}

/// A hole region of ten words and an overflow region of a hundred. Ten words go to the hole region,
/// and seventeen to the overflow region. Eleven go nowhere, since they take no more than a line,
/// and a hundred and one do not fit.
pub fn placements_of_worked_cursors()
    ensures hole { PlacesInHole (cursors_with 20 100) (cursors_with 30 100) 10 1 20 }
    ensures over { PlacesInOverflow (cursors_with 20 100) (cursors_with 20 117) 17 2 100 }
    ensures line { LacksRoom (cursors_with 20 100) 11 }
    ensures large { LacksRoom (cursors_with 20 100) 101 }
{}

/// The code's counts and reserves are those of the definitions.
pub fn counts_are_read()
    ensures counts { session_counts (record { blocks = 8; free = 1; large = 2 })
        ≡ counts_with 8 1 2 }
    ensures reserves { map session_reserve
        (reserves.Nothing ∷ reserves.Copies ∷ reserves.Headroom ∷ [])
        ≡ Nothing ∷ Copies ∷ Headroom ∷ [] }
{}
