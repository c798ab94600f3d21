//! The search for holes of the mutator's own blocks.
//!
//! Nobody else allocates in them, so what a mutator sees there past its own objects is as the epoch
//! began. Line words are loaded only where a line may follow, and start words one by one.

ghost use Rattle.std.specs.Prelude.{◌≡◌, ◌≢◌, ◌+◌, ◌*◌, ◌<◌, ◌≤◌, ℕ, Some, None, true, false, length, slice_get, IfSome, IfNone, MatchOption};
ghost use Rattle.std.specs.List.{Contains};
ghost use Rattle.heap_layout.specs.declared.block.Kind.TheVariants as kinds;
ghost use Rattle.object_model.specs.Objects.{cell_words, lines_for};
ghost use Rattle.sessions.specs.Fitting.{class_for};
ghost use Rattle.line_marks.specs.Bits.{IsFirstClearRun, HasNoClearRun};
ghost use Rattle.block_regions.specs.declared.block_notes.BlockNote.TheVariants.{Owned};
ghost use Rattle.mutator_core.specs.declared.state.OwnedBlock.{OwnedBlock};
ghost use Rattle.racing_mutator.specs.RacingSeats.{IsReady, OnlyLoads, local, holdings, epoch_of_racing};
ghost use Rattle.racing_rooms.specs.Rooms.{HasRooms};
ghost use Rattle.racing_rooms.specs.NoRoom.{regions_at, LacksOwn, LacksRegionRoom};
ghost use Rattle.racing_rooms.specs.OwnHoles.{IsNextCell, LacksLeft};
ghost use Rattle.racing_mutator.specs.Searches.{HasFound, TakesNothing};
ghost use Rattle.racing_mutator.specs.Regions.{FindsRegion};

use crate::looks::no_start_word;
use crate::racing::{Racing, is_set};
use block_regions::BlockNote;
use cell_space::cell_size;
use heap_layout::{BLOCK_WORDS, CLASSES, Kind, LINE_WORDS, Region, decode};
use line_marks::first_run;
use local_allocators::hole_block;
use mutator_core::Event;
use object_model::{HEADER_WORDS, MAX_MEDIUM_WORDS};
use plan_api::Plan;
use side_meta::BITS_PER_WORD;

/// The first run of clear lines with room for `size` words, among the lines that begin at or after
/// the offset `from`, by the words of a block's line bits.
pub(crate) fn clear_lines(lines: &[u64], from: u32, size: u32) -> Option<Region>
    requires words { length lines.now ≡ 4 }
    requires least { HEADER_WORDS ≤ size }
    requires most { size ≤ MAX_MEDIUM_WORDS }
    ensures { MatchOption result (HasNoClearRun lines.now (lines_for from) (lines_for size))
        (λ r. (x : ℕ) × (end : ℕ) × (r.next ≡ LINE_WORDS * x)
        × (r.end ≡ LINE_WORDS * end)
        × IsFirstClearRun lines.now (lines_for from) (lines_for size) x end) }
{
    let first = from.div_ceil(LINE_WORDS);
    let Some(run) = first_run(lines, first, size.div_ceil(LINE_WORDS)) else {
        return None;
    };
    Some(Region {
        next: LINE_WORDS * run.start,
        end: LINE_WORDS * run.end,
    })
}

impl<P: Plan> Racing<'_, '_, P> {
    /// The first free cell of the block at or after the offset `from`, where a cell begins, or no
    /// words. That cell nearly always is free.
    pub(crate) fn next_cell(&mut self, block: u32, class: u32, from: u32) -> Region
        requires ready { IsReady P.rules self.old }
        requires block { block < (epoch_of_racing P.rules self.old).before.blocks }
        requires class { class < CLASSES }
        requires end { from ≤ BLOCK_WORDS }
        requires from { (index : ℕ) × (from ≡ index * cell_words class) }
        ensures ready { IsReady P.rules self.new }
        ensures looks { OnlyLoads P.rules self.old self.new }
        ensures notes { self.new.seat.now.notes ≡ self.old.seat.now.notes }
        ensures births { (local self.new).births ≡ (local self.old).births }
        ensures cell { IsNextCell (epoch_of_racing P.rules self.old) (local self.new) block class
            from result }
    {
        let size = cell_size(class);
        let mut held = no_start_word();
        let mut at = from;
        while at + size <= BLOCK_WORDS {
            held = self.start_word(block, at, held);
            if !is_set(held.word, at % BITS_PER_WORD) {
                return Region {
                    next: at,
                    end: at + size,
                };
            }
            at += size;
        }
        Region {
            next: BLOCK_WORDS,
            end: BLOCK_WORDS,
        }
    }

    /// The class of a block of the mutator, by a load of the block word.
    fn own_class(&mut self, block: u32) -> u32
        requires ready { IsReady P.rules self.old }
        requires block { block < (epoch_of_racing P.rules self.old).before.blocks }
        requires mine { (class : ℕ) × Contains (local self.old).owned (record {
          block = block;
          class = class;
        }) }
        ensures ready { IsReady P.rules self.new }
        ensures looks { OnlyLoads P.rules self.old self.new }
        ensures notes { self.new.seat.now.notes ≡ self.old.seat.now.notes }
        ensures births { (local self.new).births ≡ (local self.old).births }
        ensures class { (class : ℕ) → Contains (local self.old).owned (record {
          block = block;
          class = class;
        }) → result ≡ class }
    {
        let at = self.row.layout().block_at(block) as usize;
        let code = self
            .row
            .look(self.seat, at, &Event::LoadBlock(block as u64));
        decode(code).unwrap().class
    }

    /// Allocates objects of `size` words in a block of the mutator from now on, if what is left of
    /// it has room. A block of tails that the mutator left may have room for smaller ones.
    fn return_to(&mut self, block: u32, size: u32) -> bool
        requires ready { IsReady P.rules self.old }
        requires rooms { HasRooms P.rules self.old.seat.now }
        requires block { block < (epoch_of_racing P.rules self.old).before.blocks }
        requires plain { P.rules.fill ≢ kinds.Immix }
        requires least { HEADER_WORDS ≤ size }
        requires most { size ≤ MAX_MEDIUM_WORDS }
        ensures ready { IsReady P.rules self.new }
        ensures rooms { HasRooms P.rules self.new.seat.now }
        ensures takes { TakesNothing P.rules self.old self.new }
        ensures kept { holdings (local self.new) ≡ holdings (local self.old) }
        ensures found { result ≡ true
            → HasFound P.rules self.new (class_for P.rules.fill size) block size }
        ensures region { result ≡ true
            → FindsRegion P.rules self.old.seat.now size block self.new.seat.now }
        ensures notes { result ≡ false
            → self.new.seat.now.notes ≡ self.old.seat.now.notes }
        ensures lacks { result ≡ false → LacksLeft (epoch_of_racing P.rules self.old)
            (holdings (local self.old)) self.old.seat.now.notes.blocks.items block size }
    {
        let BlockNote::Owned { region, .. } = self.seat.notes().blocks[block as usize] else {
            return false;
        };
        let left = region.end - region.next;
        if left < size {
            return false;
        }
        let class = P::class_for(size);
        if self.own_class(block) != class {
            return false;
        }
        let ticket = self.seat.notes().local.ticket;
        self.note_own(false, block, class, region, ticket);
        true
    }

    /// Makes the next hole with room for `size` words of the block of the hole region the hole
    /// region, under a plan with lines. Returns the block.
    fn take_later_lines(&mut self, size: u32) -> Option<u32>
        requires ready { IsReady P.rules self.old }
        requires rooms { HasRooms P.rules self.old.seat.now }
        requires lines { P.rules.fill ≡ kinds.Immix }
        requires least { HEADER_WORDS ≤ size }
        requires most { size ≤ MAX_MEDIUM_WORDS }
        requires full { LacksRegionRoom P.rules self.old.seat.now size }
        ensures ready { IsReady P.rules self.new }
        ensures rooms { HasRooms P.rules self.new.seat.now }
        ensures takes { TakesNothing P.rules self.old self.new }
        ensures kept { holdings (local self.new) ≡ holdings (local self.old) }
        ensures found { IfSome result (λ k.
            HasFound P.rules self.new (class_for P.rules.fill size) k size) }
        ensures region { IfSome result (λ k.
            FindsRegion P.rules self.old.seat.now size k self.new.seat.now) }
        ensures notes { IfNone result (
            self.new.seat.now.notes ≡ self.old.seat.now.notes) }
        ensures lacks { IfNone result (LacksOwn P.rules self.new.seat.now size) }
    {
        let block = hole_block(&self.seat.notes().local, P::alloc_kind())?;
        let BlockNote::Owned { region, .. } = self.seat.notes().blocks[block as usize] else {
            return None;
        };
        if region.end == BLOCK_WORDS {
            return None;
        }
        let lines = self.look_lines(block);
        let hole = clear_lines(&lines, region.end, size)?;
        let ticket = self.seat.notes().local.ticket;
        self.note_own(false, block, P::class_for(size), hole, ticket);
        Some(block)
    }

    /// Finds a hole with room for `size` words in a block of the mutator's own. Returns the block.
    #[inline(never)]
    pub(crate) fn take_own_hole(&mut self, size: u32) -> Option<u32>
        requires ready { IsReady P.rules self.old }
        requires rooms { HasRooms P.rules self.old.seat.now }
        requires least { HEADER_WORDS ≤ size }
        requires most { size ≤ MAX_MEDIUM_WORDS }
        requires full { LacksRegionRoom P.rules self.old.seat.now size }
        ensures ready { IsReady P.rules self.new }
        ensures rooms { HasRooms P.rules self.new.seat.now }
        ensures takes { TakesNothing P.rules self.old self.new }
        ensures ticket { (local self.new).ticket ≡ (local self.old).ticket }
        ensures found { IfSome result (λ k.
            HasFound P.rules self.new (class_for P.rules.fill size) k size) }
        ensures region { IfSome result (λ k.
            FindsRegion P.rules self.old.seat.now size k self.new.seat.now) }
        ensures regions { IfNone result (
            regions_at self.new.seat.now ≡ regions_at self.old.seat.now) }
        ensures lacks { IfNone result (LacksOwn P.rules self.new.seat.now size) }
    {
        if P::alloc_kind() == Kind::Immix {
            return self.take_later_lines(size);
        }
        for block in 0..self.row.layout().blocks() {
            if self.return_to(block, size) {
                return Some(block);
            }
        }
        None
    }
}
