//! Laws of objects that are placed at a stop.

ghost use Rattle.std.specs.Prelude.{ℕ, ◌≢◌, ◌+◌, ◌≤◌};
ghost use Rattle.sessions.specs.Prelude.{block_start, Kind, Name, IsName, HeapState, IsHeld, name_at, size_of, blocks_for, IsWellFormed, LineBitsAreExact, IsRoom, IsLargeRoom, WritesLargeObject, HasHole, IsFreeRun, PlacesLarge, AddsObject, UsesRun, ChangesBlocks};

use ideal_heap::{MAX_NUMS, MAX_REFS};
use object_model::MAX_MEDIUM_WORDS;

/// There is room for a small or medium object at the start of each hole with room: in the tail of a
/// block, in a free cell, and in a run of clear lines, if the line bits are exact.
pub fn holes_have_room()
    ensures { (fill : Kind) (s : HeapState) (k at refs nums : ℕ) (n : Name) → IsWellFormed s
        → LineBitsAreExact s k → HasHole fill s k at (size_of refs nums)
        → size_of refs nums ≤ MAX_MEDIUM_WORDS → refs ≤ MAX_REFS → nums ≤ MAX_NUMS
        → IsName n → ((x : ℕ) → IsHeld s x → name_at s x ≢ n)
        → IsRoom s (block_start s.blocks k + at) n refs nums }
{}

/// A large object written to the lowest run of Free blocks is placed like a `new` at a stop.
pub fn large_objects_are_placed()
    ensures place { (s : HeapState) (k refs nums : ℕ) (n : Name) → IsLargeRoom s k n refs nums
        → ((j : ℕ) → IsFreeRun s j (blocks_for (size_of refs nums)) → k ≤ j)
        → PlacesLarge s (block_start s.blocks k) (size_of refs nums) }
    ensures object { (s new : HeapState) (k refs nums : ℕ) (n : Name) → IsWellFormed s
        → IsLargeRoom s k n refs nums → WritesLargeObject s new k n refs nums
        → AddsObject s new (block_start s.blocks k) refs nums }
    ensures run { (s new : HeapState) (k refs nums : ℕ) (n : Name) → IsWellFormed s
        → IsLargeRoom s k n refs nums → WritesLargeObject s new k n refs nums
        → UsesRun s new k (blocks_for (size_of refs nums)) }
    ensures changes { (s new : HeapState) (k refs nums : ℕ) (n : Name) → IsWellFormed s
        → IsLargeRoom s k n refs nums → WritesLargeObject s new k n refs nums
        → ChangesBlocks s new k (blocks_for (size_of refs nums)) }
{}
