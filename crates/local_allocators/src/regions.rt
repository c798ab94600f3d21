//! Regions, by the kind of the blocks that a mutator fills: where one begins, which one takes an
//! object, and what the object leaves of it.
//!
//! Called by the search of a world. Asks for the kind, and leaves the rest to `tails`, `cells` and
//! `lines`. Writes nothing.

ghost use Rattle.std.specs.Prelude.{◌≡◌, ◌↔◌, ◌+◌, ◌<◌, ◌≤◌, ℕ, Some, None, IfSome, IfNone, true, false, IsTrue};
ghost use Rattle.heap_layout.specs.Zones.{IsRowOf};
ghost use Rattle.heap_layout.specs.declared.block.Kind.TheVariants as kinds;
ghost use Rattle.object_model.specs.Objects.{state_of, class_at, HasKind};
ghost use Rattle.object_model.specs.Lawful.{IsWellFormed, IsReadableBlock};
ghost use Rattle.sessions.specs.Fitting.{class_for as class_for_size};
ghost use Rattle.plan_api.specs.Holes.{IsFirstHole};
ghost use Rattle.plan_api.specs.Cursors.{RegionHasRoom, LacksRoom};
ghost use Rattle.block_regions.specs.Notes.{FillsHoles};
ghost use Rattle.block_regions.specs.Regions.{IsRegionIn, IsRestAfter, first_region as first_region_of};
ghost use Rattle.local_allocators.specs.MutatorRegions.{FillsLines, cursors_of, IsBlockFor, Overflows};
ghost use Rattle.local_allocators.specs.OwnRooms.{IsOwnRoom};
ghost use Rattle.local_allocators.specs.Seats.{block_of};
ghost use Rattle.local_allocators.specs.NotedRegions.{region_of};
ghost use Rattle.local_allocators.specs.NotedSeats.{HasNotedBlocks, regions_in};

use crate::cells::{free_cell, has_other_class};
use crate::lines::{block_of_lines, overflows_hole, room_in_lines};
use crate::local_seat::LocalSeat;
use crate::own_block::OwnRoom;
use crate::tails::rest_of;
use block_regions::BlockNote;
use cell_space::cell_size;
use heap_layout::{BLOCK_WORDS, CLASS_UNIT, CLASSES, Kind, Region};
use object_model::{HEADER_WORDS, MAX_MEDIUM_WORDS, Row};
use plan_api::{class_for, hole_in_block};

/// The class of an object of `size` words: the size class of its cell, or 0 if blocks have no
/// cells.
pub fn class_of(fill: Kind, size: u32) -> u32
    ensures class { result ≡ class_for_size fill size }
    ensures few { result < CLASSES }
{
    class_for(fill, size)
}

/// The region of a Free block that is taken for an object of `size` words: all of it, or its
/// first cell.
pub fn first_region(fill: Kind, size: u32) -> Region
    ensures { result ≡ first_region_of fill (class_for_size fill size) }
{
    let end = if fill == Kind::Cells {
        cell_size(class_of(fill, size))
    } else {
        BLOCK_WORDS
    };
    Region { next: 0, end }
}

/// Whether a block is Free: the code of its kind alone says it.
pub fn is_free(row: &Row, block: u32) -> bool
    requires extent { IsRowOf row.now.layout row.now.words }
    requires block { block < row.now.layout.blocks }
    ensures { IsTrue result ↔ HasKind (state_of row.now) block kinds.Free }
{
    row.words.get(row.layout.block_at(block) as usize) % CLASS_UNIT == Kind::Free as u64
}

/// The first part of a hole of a block that has room for `size` words and begins at or after
/// the offset `from`, if mutators fill blocks of its kind.
pub fn first_hole(row: &Row, fill: Kind, block: u32, from: u32, size: u32) -> Option<Region>
    requires order { IsWellFormed (state_of row.now) }
    requires block { IsReadableBlock (state_of row.now) block }
    requires least { HEADER_WORDS ≤ size }
    requires most { size ≤ MAX_MEDIUM_WORDS }
    ensures { IsFirstHole fill (state_of row.now) block from size result }
{
    hole_in_block(&row.words, &row.layout, fill, block, from, size)
}

/// What an object of `size` words at the start of the region leaves of the block: the rest of
/// the region, or the next free cell. Then it reads start words from the region's end on.
#[inline(always)]
pub fn rest_after(row: &Row, fill: Kind, block: u32, region: &Region, size: u32) -> Region
    requires fills { FillsHoles fill }
    requires extent { IsRowOf row.now.layout row.now.words }
    requires kind { HasKind (state_of row.now) block fill }
    requires class { class_at (state_of row.now) block
        ≡ class_for_size fill size }
    requires left { IsRegionIn fill (state_of row.now) block region.now }
    requires room { region.now.next + size ≤ region.now.end }
    requires end { region.now.end ≤ BLOCK_WORDS }
    ensures { IsRestAfter fill (state_of row.now) block size region.now result }
{
    if fill != Kind::Cells {
        return rest_of(region, size);
    }
    free_cell(row, block, class_of(fill, size), region.end)
}

/// The block of the region that takes an object of `size` words. Under a plan with lines there is
/// none if no region has room.
#[inline(always)]
pub fn block_for(notes: &[BlockNote], seat: &LocalSeat, fill: Kind, size: u32) -> Option<u32>
    requires seat { HasNotedBlocks fill notes.now seat.now }
    requires least { HEADER_WORDS ≤ size }
    requires hole { FillsLines fill → (cursors_of (regions_in notes.now seat.now)).hole.next
        ≤ (cursors_of (regions_in notes.now seat.now)).hole.end }
    requires over { FillsLines fill → (cursors_of (regions_in notes.now seat.now)).over.next
        ≤ (cursors_of (regions_in notes.now seat.now)).over.end }
    ensures some { IfSome result (λ k.
        IsBlockFor fill (regions_in notes.now seat.now) size k) }
    ensures room { FillsLines fill → IfSome result (λ k.
        RegionHasRoom (region_of notes.now (Some k)) size) }
    ensures none { FillsLines fill → IfNone result (LacksRoom
        (cursors_of (regions_in notes.now seat.now)) size) }
    ensures class { (FillsLines fill → ⊥)
        → result ≡ (regions_in notes.now seat.now).blocks (class_for_size fill size) }
{
    if fill == Kind::Immix {
        return block_of_lines(notes, seat, size);
    }
    seat.blocks[class_of(fill, size) as usize]
}

/// Whether an object of `size` words overflows the hole region, under a plan with lines: it takes
/// more than a line, and the region has some words left, but too few.
pub fn overflows(notes: &[BlockNote], seat: &LocalSeat, fill: Kind, size: u32) -> bool
    requires seat { HasNotedBlocks fill notes.now seat.now }
    requires hole { FillsLines fill → (cursors_of (regions_in notes.now seat.now)).hole.next
        ≤ (cursors_of (regions_in notes.now seat.now)).hole.end }
    ensures yes { result ≡ true → Overflows fill (regions_in notes.now seat.now) size }
    ensures no { result ≡ false → Overflows fill (regions_in notes.now seat.now) size → ⊥ }
{
    if fill != Kind::Immix {
        return false;
    }
    overflows_hole(notes, seat, size)
}

/// The block of the hole region, under a plan with lines.
pub fn hole_block(seat: &LocalSeat, fill: Kind) -> Option<u32>
    ensures some { IfSome result (λ k.
        FillsLines fill × (block_of (Some seat.now) 0 ≡ Some k)) }
    ensures none { IfNone result (FillsLines fill → block_of (Some seat.now) 0 ≡ None) }
{
    if fill != Kind::Immix {
        return None;
    }
    seat.blocks[0]
}

/// The room for `size` words in an own block of the mutator: what is left of it, or under a plan
/// with lines, where what is left has too few words, the next hole.
pub fn own_room(
    row: &Row,
    seat: &LocalSeat,
    fill: Kind,
    block: u32,
    region: &Region,
    size: u32,
) -> OwnRoom
    requires order { IsWellFormed (state_of row.now) }
    requires block { IsReadableBlock (state_of row.now) block }
    requires kind { HasKind (state_of row.now) block fill }
    requires left { region.now.next ≤ region.now.end }
    requires least { HEADER_WORDS ≤ size }
    requires most { size ≤ MAX_MEDIUM_WORDS }
    ensures { IsOwnRoom fill (state_of row.now) (block_of (Some seat.now) 0) block
        region.now size result }
{
    if fill == Kind::Immix {
        return room_in_lines(row, seat, block, region, size);
    }
    if region.end - region.next < size {
        return OwnRoom::Nothing;
    }
    if has_other_class(row, fill, block, size) {
        return OwnRoom::Nothing;
    }
    OwnRoom::Rest
}
