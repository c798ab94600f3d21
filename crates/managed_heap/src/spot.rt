//! A place for an object, and what a stop writes there before and after the object.

ghost use Rattle.std.specs.Prelude.{◌≡◌, ◌≢◌, ◌≤◌, ◌<◌, ℕ, length};
ghost use Rattle.managed_heap.specs.Prelude.{IsRowOf, Kind, heap_state, HeapState, size_of, state_of, MakesRun, IsReadableBlock, AreApart, IsFreeRun, Rules, AreNotes, FillsHoles, FlagsCover, PlacesInBlock, PlacesRun, IsManaged, IsPlaceForSize, TakesSpotBlock, TakesSpot, RelistsSpot};

use heap_layout::BlockWord;
use ideal_heap::{MAX_NUMS, MAX_REFS};
use large_space::place_large;
use object_model::{Heap, MAX_MEDIUM_WORDS, Row};
use plain_world::BlockNotes;
use plan_api::Plan;

/// A place for an object: a block, the offset in it in words, whether the block is Free, and the
/// number of Free blocks that a large object takes, else 0.
#[derive(Clone, Copy, Debug)]
pub(crate) struct Spot {
    pub(crate) block: u32,
    pub(crate) offset: u32,
    pub(crate) free: bool,
    pub(crate) run: u32,
}

/// Gives the block of a spot its word, if it is Free.
fn take_block<P: Plan>(row: Row, spot: &Spot, size: u32) -> Row
    requires plan { IsManaged P.rules }
    requires extent { IsRowOf row.layout row.words }
    requires block { spot.now.block < (state_of row).blocks }
    requires least { 3 ≤ size }
    requires most { size ≤ MAX_MEDIUM_WORDS }
    ensures { TakesSpotBlock P.rules.fill (state_of row) spot.now size (state_of result) }
{
    let mut row = row;
    if !spot.free {
        return row;
    }
    let word = BlockWord {
        kind: P::alloc_kind(),
        class: P::class_for(size),
        owner: 0,
    };
    row.set_block(spot.block, &word);
    row
}

/// Makes `count` Free blocks, from `block` on, the run of a large object.
fn take_run(row: Row, block: u32, count: u32) -> Row
    requires extent { IsRowOf row.layout row.words }
    requires least { 1 ≤ count }
    requires most { count ≤ 15 }
    requires free { IsFreeRun (state_of row) block count }
    ensures { MakesRun (state_of row) (state_of result) block count }
{
    let mut row = row;
    place_large(&mut row.words, &row.layout, block, count);
    row
}

/// Gives the blocks of a spot their words, where they are Free.
pub(crate) fn take_spot<P: Plan>(row: Row, spot: &Spot, size: u32) -> Row
    requires plan { IsManaged P.rules }
    requires extent { IsRowOf row.layout row.words }
    requires least { 3 ≤ size }
    requires most { size ≤ size_of MAX_REFS MAX_NUMS }
    requires place { IsPlaceForSize P.rules.fill (state_of row) size spot.now }
    ensures { TakesSpot P.rules.fill (state_of row) spot.now size (state_of result) }
{
    if spot.run == 0 {
        return take_block::<P>(row, spot, size);
    }
    take_run(row, spot.block, spot.run)
}

/// Relists the block of a spot, where an object was written. A run needs none: its blocks are no
/// Immix blocks.
pub(crate) fn relist_spot<P: Plan>(row: Row, spot: &Spot) -> Row
    requires block { spot.now.run ≡ 0 → IsReadableBlock (state_of row) spot.now.block }
    requires apart { spot.now.run ≡ 0 → AreApart (state_of row) spot.now.block }
    ensures { RelistsSpot P.rules (state_of row) spot.now (state_of result) }
{
    let mut row = row;
    if spot.run == 0 {
        P::relist_block(&mut row.words, &row.layout, spot.block);
    }
    row
}

/// Notes that an object was placed at the spot. The heap is the one with the object.
pub(crate) fn note_placed(notes: &mut BlockNotes, heap: &Heap, spot: &Spot)
    ensures small { spot.now.run ≡ 0 → (rules : Rules) (old new : HeapState) (a refs nums : ℕ)
        → FillsHoles rules.fill → AreNotes rules.fill old notes.old
        → PlacesInBlock rules old new a refs nums spot.now.block spot.now.free
        → AreNotes rules.fill new notes.new }
    ensures small_flags { spot.now.run ≡ 0
        → (rules : Rules) (old new : HeapState) (a refs nums : ℕ)
        → FlagsCover rules old notes.old.flags.items
        → PlacesInBlock rules old new a refs nums spot.now.block spot.now.free
        → FlagsCover rules new notes.new.flags.items }
    ensures large { spot.now.run ≢ 0 → (fill : Kind) (old : HeapState) (a refs nums : ℕ)
        → FillsHoles fill → AreNotes fill old notes.old
        → PlacesRun old (heap_state heap.now) a refs nums spot.now.block
        → AreNotes fill (heap_state heap.now) notes.new }
    ensures large_flags { spot.now.run ≢ 0 → (rules : Rules) (old : HeapState) (a refs nums : ℕ)
        → FlagsCover rules old notes.old.flags.items
        → PlacesRun old (heap_state heap.now) a refs nums spot.now.block
        → (heap_state heap.now).base ≡ old.base
        → FlagsCover rules (heap_state heap.now) notes.new.flags.items }
{
    if spot.run == 0 {
        notes.placed_in(spot.block, spot.free);
        return;
    }
    notes.placed_run(heap);
}
