//! Looks at a block: the loads of its words, of which a mutator makes a view.

ghost use Rattle.std.specs.Prelude.{◌≡◌, ◌+◌, ◌*◌, ◌/◌, ◌<◌, ◌≤◌, ◌⊎◌, ℕ, IsTrue, length, slice_index};
ghost use Rattle.heap_layout.specs.Zones.{LineWords, StartBits, InZone, IsAddress, first};
ghost use Rattle.heap_layout.specs.declared.block_codes.TheConstants.{OWNER_UNIT as OWNERS};
ghost use Rattle.heap_layout.specs.Blocks.{code_of, is_block_code, IsValidWord};
ghost use Rattle.object_model.specs.Objects.{block_word, owner_at};
ghost use Rattle.mutator_core.specs.Machine.{refs_in, nums_in};
ghost use Rattle.mutator_core.specs.Guards.{HasSeenStart};
ghost use Rattle.racing_mutator.specs.RacingSeats.{IsReady, OnlyLoads, local, epoch_of_racing, heap_seen};
ghost use Rattle.racing_mutator.specs.Looks.{with_block_word, with_loaded, HasLoaded, IsStartWord, HasSeenEnd, HasLooked};

use crate::racing::Racing;
use heap_layout::{BLOCK_BIT_WORDS, BLOCK_LINE_BIT_WORDS, BLOCK_WORDS, BlockWord};
use ideal_heap::{MAX_NUMS, MAX_REFS};
use line_marks::last_bit;
use mutator_core::Event;
use object_model::{HEADER_WORDS, NUMS_UNIT, SHAPE_OFFSET};
use plan_api::{BlockView, Plan};
use side_meta::BITS_PER_WORD;

/// A start word of a block, and which one it is. The index `BLOCK_BIT_WORDS` is that of none.
#[derive(Clone, Copy, Debug)]
pub(crate) struct StartWord {
    pub index: u32,
    pub word: u64,
}

/// No start word.
pub(crate) fn no_start_word() -> StartWord
    ensures { result.index ≡ BLOCK_BIT_WORDS }
{
    StartWord {
        index: BLOCK_BIT_WORDS,
        word: 0,
    }
}

impl<P: Plan> Racing<'_, '_, P> {
    /// Loads a line word or a start word, given by its index of the row.
    pub(crate) fn look_side(&mut self, at: u32) -> u64
        requires ready { IsReady P.rules self.old }
        requires zone { InZone (epoch_of_racing P.rules self.old).before.blocks LineWords at
            ⊎ InZone (epoch_of_racing P.rules self.old).before.blocks StartBits at }
        ensures ready { IsReady P.rules self.new }
        ensures looks { OnlyLoads P.rules self.old self.new }
        ensures notes { self.new.seat.now.notes ≡ self.old.seat.now.notes }
        ensures births { (local self.new).births ≡ (local self.old).births }
        ensures loaded { local self.new ≡ with_loaded (local self.old) at result }
        ensures line { InZone (epoch_of_racing P.rules self.old).before.blocks LineWords at
            → result ≡ slice_index (epoch_of_racing P.rules self.old).before.words at }
    {
        self.row
            .look(self.seat, at as usize, &Event::LoadSide(at as u64))
    }

    /// Loads the word of a block.
    pub(crate) fn look_block(&mut self, block: u32) -> u64
        requires ready { IsReady P.rules self.old }
        requires block { block < (epoch_of_racing P.rules self.old).before.blocks }
        ensures ready { IsReady P.rules self.new }
        ensures looks { OnlyLoads P.rules self.old self.new }
        ensures loaded { local self.new ≡ with_block_word (local self.old) block result }
        ensures notes { self.new.seat.now.notes ≡ self.old.seat.now.notes }
        ensures word { result / OWNERS ≡ 0
            → result ≡ block_word (epoch_of_racing P.rules self.old).before block }
        ensures owned { 0 < result / OWNERS → 0 < owner_at (heap_seen P.rules self.new) block }
        ensures code { IsTrue (is_block_code result) }
    {
        let at = self.row.layout().block_at(block) as usize;
        self.row
            .look(self.seat, at, &Event::LoadBlock(block as u64))
    }

    /// Loads the shape word of an object of which the mutator saw the start bit.
    fn look_shape_at(&mut self, address: u32) -> u64
        requires ready { IsReady P.rules self.old }
        requires address { IsAddress (epoch_of_racing P.rules self.old).before.blocks address }
        requires start { HasSeenStart (epoch_of_racing P.rules self.old) (local self.old) address }
        ensures ready { IsReady P.rules self.new }
        ensures looks { OnlyLoads P.rules self.old self.new }
        ensures notes { self.new.seat.now.notes ≡ self.old.seat.now.notes }
        ensures births { (local self.new).births ≡ (local self.old).births }
        ensures loaded { local self.new
            ≡ with_loaded (local self.old) (address + SHAPE_OFFSET) result }
        ensures refs { refs_in result ≤ MAX_REFS }
        ensures nums { nums_in result ≤ MAX_NUMS }
    {
        let at = address as usize + SHAPE_OFFSET as usize;
        self.row
            .look(self.seat, at, &Event::LoadShapeAt(address as u64))
    }

    /// Loads the four words with the line bits of a block.
    pub(crate) fn look_lines(&mut self, block: u32) -> [u64; 4]
        requires ready { IsReady P.rules self.old }
        requires block { block < (epoch_of_racing P.rules self.old).before.blocks }
        ensures ready { IsReady P.rules self.new }
        ensures looks { OnlyLoads P.rules self.old self.new }
        ensures notes { self.new.seat.now.notes ≡ self.old.seat.now.notes }
        ensures births { (local self.new).births ≡ (local self.old).births }
        ensures words { (n : ℕ) → n < 4 → slice_index result n
            ≡ slice_index (epoch_of_racing P.rules self.old).before.words
            (first (epoch_of_racing P.rules self.old).before.blocks LineWords + 4 * block + n) }
    {
        let at = self.row.layout().line_at(block);
        let mut lines = [0; 4];
        for index in 0..BLOCK_LINE_BIT_WORDS {
            lines[index as usize] = self.look_side(at + index);
        }
        lines
    }

    /// Loads the 64 words with the start bits of a block.
    fn look_starts(&mut self, block: u32) -> [u64; 64]
        requires ready { IsReady P.rules self.old }
        requires block { block < (epoch_of_racing P.rules self.old).before.blocks }
        ensures ready { IsReady P.rules self.new }
        ensures looks { OnlyLoads P.rules self.old self.new }
        ensures notes { self.new.seat.now.notes ≡ self.old.seat.now.notes }
        ensures births { (local self.new).births ≡ (local self.old).births }
        ensures len { length result ≡ 64 }
        ensures words { (n : ℕ) → n < 64 → HasLoaded (local self.new)
            (first (epoch_of_racing P.rules self.old).before.blocks StartBits + 64 * block + n)
            (slice_index result n) }
    {
        let at = self.row.layout().start_base() + BLOCK_BIT_WORDS * block;
        let mut starts = [0; 64];
        for index in 0..BLOCK_BIT_WORDS {
            starts[index as usize] = self.look_side(at + index);
        }
        starts
    }

    /// The start word with the bit of an offset of the block. It is loaded, unless it is the one
    /// that is held.
    pub(crate) fn start_word(&mut self, block: u32, offset: u32, held: StartWord) -> StartWord
        requires ready { IsReady P.rules self.old }
        requires block { block < (epoch_of_racing P.rules self.old).before.blocks }
        requires offset { offset < BLOCK_WORDS }
        requires held { IsStartWord (epoch_of_racing P.rules self.old) (local self.old) block held }
        ensures ready { IsReady P.rules self.new }
        ensures looks { OnlyLoads P.rules self.old self.new }
        ensures notes { self.new.seat.now.notes ≡ self.old.seat.now.notes }
        ensures births { (local self.new).births ≡ (local self.old).births }
        ensures held { IsStartWord (epoch_of_racing P.rules self.old) (local self.new) block
            result }
        ensures here { result.index ≡ offset / BITS_PER_WORD }
        ensures still { (a : ℕ)
            → HasSeenStart (epoch_of_racing P.rules self.old) (local self.old) a
            → HasSeenStart (epoch_of_racing P.rules self.old) (local self.new) a }
    {
        let index = offset / BITS_PER_WORD;
        if held.index == index {
            return held;
        }
        let base = self.row.layout().start_base();
        let word = self.look_side(base + BLOCK_BIT_WORDS * block + index);
        StartWord { index, word }
    }

    /// The offset after the last object that begins in the block, of which the mutator saw the
    /// start bits, or 0 if there is none.
    fn look_end(&mut self, block: u32, starts: &[u64; 64]) -> u32
        requires ready { IsReady P.rules self.old }
        requires block { block < (epoch_of_racing P.rules self.old).before.blocks }
        requires len { length starts.now ≡ 64 }
        requires loaded { (n : ℕ) → n < 64 → HasLoaded (local self.old)
            (first (epoch_of_racing P.rules self.old).before.blocks StartBits + 64 * block + n)
            (slice_index starts.now n) }
        ensures ready { IsReady P.rules self.new }
        ensures looks { OnlyLoads P.rules self.old self.new }
        ensures notes { self.new.seat.now.notes ≡ self.old.seat.now.notes }
        ensures births { (local self.new).births ≡ (local self.old).births }
        ensures grows { (at word : ℕ) → HasLoaded (local self.old) at word
            → HasLoaded (local self.new) at word }
        ensures end { HasSeenEnd (epoch_of_racing P.rules self.old) (local self.new) block
            starts.now result }
    {
        let Some(offset) = last_bit(starts) else {
            return 0;
        };
        let address = self.row.layout().address(block, offset);
        let word = self.look_shape_at(address);
        offset + HEADER_WORDS + (word % NUMS_UNIT) as u32 + (word / NUMS_UNIT) as u32
    }

    /// The view of a block whose word was loaded, by a load of each of its other words.
    pub(crate) fn look_at(&mut self, block: u32, word: BlockWord) -> BlockView
        requires ready { IsReady P.rules self.old }
        requires block { block < (epoch_of_racing P.rules self.old).before.blocks }
        requires code { code_of word ≡ block_word (epoch_of_racing P.rules self.old).before block }
        requires valid { IsValidWord word }
        ensures ready { IsReady P.rules self.new }
        ensures looks { OnlyLoads P.rules self.old self.new }
        ensures notes { self.new.seat.now.notes ≡ self.old.seat.now.notes }
        ensures births { (local self.new).births ≡ (local self.old).births }
        ensures word { result.word ≡ word }
        ensures looked { HasLooked (epoch_of_racing P.rules self.old) (local self.new) block
            result }
    {
        let lines = self.look_lines(block);
        let starts = self.look_starts(block);
        let end = self.look_end(block, &starts);
        BlockView {
            word,
            lines,
            starts,
            end,
        }
    }
}
