//! Lines: the hole region and the overflow region of a mutator, and the one that takes an object.
//!
//! Called for plans with lines. Reads the row, notes and one seat, and writes nothing.

ghost use Rattle.std.specs.Prelude.{◌≡◌, ◌<◌, ◌≤◌, ℕ, Some, IfSome, IfNone, true, false, length};
ghost use Rattle.heap_layout.specs.declared.block.Kind.TheVariants as kinds;
ghost use Rattle.object_model.specs.Objects.{state_of};
ghost use Rattle.object_model.specs.Lawful.{IsWellFormed, IsReadableBlock};
ghost use Rattle.plan_api.specs.Cursors.{RegionHasRoom, LacksRoom};
ghost use Rattle.local_allocators.specs.MutatorRegions.{cursors_of, IsBlockFor, Overflows};
ghost use Rattle.local_allocators.specs.Seats.{block_of};
ghost use Rattle.local_allocators.specs.OwnRooms.{IsOwnRoom};
ghost use Rattle.local_allocators.specs.NotedRegions.{region_of};
ghost use Rattle.local_allocators.specs.NotedSeats.{HasNotedBlocks, regions_in};

use crate::local_seat::LocalSeat;
use crate::own_block::OwnRoom;
use block_regions::BlockNote;
use heap_layout::{Kind, LINE_WORDS, Region};
use object_model::{HEADER_WORDS, MAX_MEDIUM_WORDS, Row};
use plan_api::{Cursors, hole_in_block, place_in};

/// What is left of a block of the mutator, or no words if there is no block.
#[inline(always)]
fn region_in(notes: &[BlockNote], block: Option<u32>) -> Region
    requires { (k : ℕ) → block ≡ Some k → k < length notes.now }
    ensures { result ≡ region_of notes.now block }
{
    let nowhere = Region { next: 0, end: 0 };
    let Some(block) = block else {
        return nowhere;
    };
    match notes[block as usize] {
        BlockNote::Unowned { .. } => nowhere,
        BlockNote::Owned { region, .. } => region,
    }
}

/// The hole region and the overflow region of the mutator. Each has no words before it has a
/// block.
fn cursors(notes: &[BlockNote], seat: &LocalSeat) -> Cursors
    requires { HasNotedBlocks kinds.Immix notes.now seat.now }
    ensures { result ≡ cursors_of (regions_in notes.now seat.now) }
{
    Cursors {
        hole: region_in(notes, seat.blocks[0]),
        hole_block: seat.blocks[0].unwrap_or(0),
        over: region_in(notes, seat.over),
        over_block: seat.over.unwrap_or(0),
    }
}

/// The block of the region that takes an object of `size` words, if a region has room: both
/// regions are read.
fn block_of_regions(notes: &[BlockNote], seat: &LocalSeat, size: u32) -> Option<u32>
    requires seat { HasNotedBlocks kinds.Immix notes.now seat.now }
    requires least { HEADER_WORDS ≤ size }
    requires hole { (cursors_of (regions_in notes.now seat.now)).hole.next
        ≤ (cursors_of (regions_in notes.now seat.now)).hole.end }
    requires over { (cursors_of (regions_in notes.now seat.now)).over.next
        ≤ (cursors_of (regions_in notes.now seat.now)).over.end }
    ensures some { IfSome result (λ k.
        IsBlockFor kinds.Immix (regions_in notes.now seat.now) size k
        × RegionHasRoom (region_of notes.now (Some k)) size) }
    ensures none { IfNone result (LacksRoom (cursors_of (regions_in notes.now seat.now)) size) }
{
    let mut cursors = cursors(notes, seat);
    let (block, _) = place_in(&mut cursors, size)?;
    Some(block)
}

/// The block of the region that takes an object of `size` words, if a region has room. The hole
/// region is read first, since it nearly always has.
#[inline(always)]
pub(crate) fn block_of_lines(notes: &[BlockNote], seat: &LocalSeat, size: u32) -> Option<u32>
    requires seat { HasNotedBlocks kinds.Immix notes.now seat.now }
    requires least { HEADER_WORDS ≤ size }
    requires hole { (cursors_of (regions_in notes.now seat.now)).hole.next
        ≤ (cursors_of (regions_in notes.now seat.now)).hole.end }
    requires over { (cursors_of (regions_in notes.now seat.now)).over.next
        ≤ (cursors_of (regions_in notes.now seat.now)).over.end }
    ensures some { IfSome result (λ k.
        IsBlockFor kinds.Immix (regions_in notes.now seat.now) size k
        × RegionHasRoom (region_of notes.now (Some k)) size) }
    ensures none { IfNone result (LacksRoom (cursors_of (regions_in notes.now seat.now)) size) }
{
    let block = seat.blocks[0];
    let hole = region_in(notes, block);
    if hole.end - hole.next >= size {
        return block;
    }
    block_of_regions(notes, seat, size)
}

/// Whether an object of `size` words overflows the hole region: it takes more than a line, and the
/// region has some words left, but too few.
pub(crate) fn overflows_hole(notes: &[BlockNote], seat: &LocalSeat, size: u32) -> bool
    requires seat { HasNotedBlocks kinds.Immix notes.now seat.now }
    requires hole { (cursors_of (regions_in notes.now seat.now)).hole.next
        ≤ (cursors_of (regions_in notes.now seat.now)).hole.end }
    ensures yes { result ≡ true → Overflows kinds.Immix (regions_in notes.now seat.now) size }
    ensures no { result ≡ false
        → Overflows kinds.Immix (regions_in notes.now seat.now) size → ⊥ }
{
    if size <= LINE_WORDS {
        return false;
    }
    let region = region_in(notes, seat.blocks[0]);
    let left = region.end - region.next;
    0 < left && left < size
}

/// The room for `size` words in an own block whose region, if it is the hole region, has none: the
/// next hole, if the block is that of the hole region.
pub(crate) fn room_in_lines(
    row: &Row,
    seat: &LocalSeat,
    block: u32,
    region: &Region,
    size: u32,
) -> OwnRoom
    requires order { IsWellFormed (state_of row.now) }
    requires block { IsReadableBlock (state_of row.now) block }
    requires least { HEADER_WORDS ≤ size }
    requires most { size ≤ MAX_MEDIUM_WORDS }
    ensures { IsOwnRoom kinds.Immix (state_of row.now) (block_of (Some seat.now) 0) block
        region.now size result }
{
    if seat.blocks[0] != Some(block) {
        return OwnRoom::Nothing;
    }
    match hole_in_block(
        &row.words,
        &row.layout,
        Kind::Immix,
        block,
        region.end,
        size,
    ) {
        Some(hole) => OwnRoom::Hole(hole),
        None => OwnRoom::Nothing,
    }
}
