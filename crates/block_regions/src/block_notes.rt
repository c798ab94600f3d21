//! What is known of the room in a heap's blocks between two epochs, and of their logged objects.

ghost use Rattle.std.specs.Prelude.{◌≡◌, ◌+◌, ◌<◌, ◌≤◌, ℕ, true, false, length, replicate, IfOk, IfSome, IfNone};
ghost use Rattle.heap_layout.specs.declared.block.Kind.{Kind};
ghost use Rattle.heap_layout.specs.declared.block.Kind.TheVariants as kinds;
ghost use Rattle.object_model.specs.Objects.{HeapState, HasKind, class_at};
ghost use Rattle.object_model.specs.Heaps.{heap_state};
ghost use Rattle.plan_api.specs.Counting.{session_counts};
ghost use Rattle.plan_api.specs.Holes.{IsFirstPart, IsFirstHole};
ghost use Rattle.sessions.specs.Fitting.{counts_of, HasHole, HasSomeHole, class_for as class_for_size};
ghost use Rattle.sessions.specs.Plans.{Rules};
ghost use Rattle.block_regions.specs.declared.block_notes.BlockNote.TheVariants.{Unowned};
ghost use Rattle.block_regions.specs.Notes.{FillsHoles, AreNotes, FlagsCover, NoneIsLogged, IsLowestHole, LacksHoles, PlacesInBlock, PlacesRun};

use crate::vectors::copies;
use heap_layout::{BLOCK_WORDS, Kind, Region};
use object_model::{HEADER_WORDS, Heap, MAX_MEDIUM_WORDS};
use plan_api::{BlockCounts, block_counts, class_for, hole_in_block};
use std::alloc::{AllocError, Global};

/// What is known of a block's room in an epoch.
#[derive(Clone, Copy, Debug)]
pub enum BlockNote {
    /// Nobody owns the block. It has no hole for an object of `least` words or more.
    Unowned { least: u32 },
    /// The mutator with the number `owner` owns the block. It allocates in the region.
    Owned { owner: u32, region: Region },
}

/// What is known of the room in a heap's blocks between two epochs. From epoch to epoch it is kept
/// right without a look at all blocks.
#[derive(Debug, Drop)]
pub struct BlockNotes {
    /// The counts of the blocks.
    pub counts: BlockCounts,
    /// A note for each block.
    pub notes: Vec<BlockNote>,
    /// The blocks that mutators own: none. There is room for all blocks.
    pub owned: Vec<u32>,
    /// A flag for each block: set if an object of it may be logged.
    pub flags: Vec<bool>,
}

/// The note of a block of which nothing is known: no hole is larger than a block.
fn nothing_known() -> BlockNote
    ensures { result ≡ Unowned (BLOCK_WORDS + 1) }
{
    BlockNote::Unowned {
        least: BLOCK_WORDS + 1,
    }
}

/// The first hole of a block with room for `size` words, if mutators fill blocks of its kind.
fn hole_of(heap: &Heap, fill: Kind, block: u32, size: u32) -> Option<Region>
    requires block { block < (heap_state heap.now).blocks }
    requires least { HEADER_WORDS ≤ size }
    requires most { size ≤ MAX_MEDIUM_WORDS }
    ensures { IsFirstHole fill (heap_state heap.now) block 0 size result }
{
    hole_in_block(heap.words(), heap.layout(), fill, block, 0, size)
}

/// Whether what the block lacks for `size` words it lacks for more too: its cells, if it has such,
/// are for this size.
fn decides(heap: &Heap, fill: Kind, block: u32, size: u32) -> bool
    requires { block < (heap_state heap.now).blocks }
    ensures { result ≡ true → HasKind (heap_state heap.now) block fill
        → class_at (heap_state heap.now) block ≡ class_for_size fill size }
{
    let word = heap.block(block);
    word.kind != fill || word.class == class_for(fill, size)
}

impl BlockNotes {
    /// Counts the blocks of the heap. Nothing else is known yet: all flags are set.
    pub fn new(alloc: Global, heap: &Heap) -> Result<BlockNotes, AllocError>
        ensures notes { IfOk result (λ n. (fill : Kind) → AreNotes fill (heap_state heap.now) n) }
        ensures flags { IfOk result (λ n. (rules : Rules)
            → FlagsCover rules (heap_state heap.now) n.flags.items) }
    {
        BlockNotes::with_flags(alloc, heap, true)
    }

    /// Counts the blocks of a heap in which no object is logged: no flag is set.
    pub fn new_unflagged(alloc: Global, heap: &Heap) -> Result<BlockNotes, AllocError>
        ensures notes { IfOk result (λ n. (fill : Kind) → AreNotes fill (heap_state heap.now) n) }
        ensures flags { IfOk result (λ n. (rules : Rules) → NoneIsLogged rules (heap_state heap.now)
            → FlagsCover rules (heap_state heap.now) n.flags.items) }
        ensures unset { IfOk result (λ n. n.flags.items
            ≡ replicate (heap_state heap.now).blocks false) }
    {
        BlockNotes::with_flags(alloc, heap, false)
    }

    /// Counts the blocks of the heap, and makes all flags the same.
    fn with_flags(alloc: Global, heap: &Heap, flag: bool) -> Result<BlockNotes, AllocError>
        ensures notes { IfOk result (λ n. (fill : Kind) → AreNotes fill (heap_state heap.now) n) }
        ensures flags { IfOk result (λ n. n.flags.items
            ≡ replicate (heap_state heap.now).blocks flag) }
    {
        let counts = block_counts(heap);
        let blocks = counts.blocks as usize;
        let notes = copies(alloc, nothing_known(), blocks)?;
        let owned = Vec::with_capacity(alloc, blocks)?;
        let flags = copies(alloc, flag, blocks)?;
        Ok(BlockNotes {
            counts,
            notes,
            owned,
            flags,
        })
    }

    /// The counts of the heap's blocks.
    pub fn counts(&self) -> &BlockCounts
        ensures { result.now ≡ self.now.counts }
    {
        &self.counts
    }

    /// The offset of the first hole with room for `size` words in the block. If the block lacks
    /// one, that is noted, unless its cells are for other sizes.
    fn hole_in(&mut self, heap: &Heap, fill: Kind, block: u32, size: u32) -> Option<u32>
        requires fills { FillsHoles fill }
        requires notes { AreNotes fill (heap_state heap.now) self.old }
        requires block { block < (heap_state heap.now).blocks }
        requires least { HEADER_WORDS ≤ size }
        requires most { size ≤ MAX_MEDIUM_WORDS }
        ensures notes { AreNotes fill (heap_state heap.now) self.new }
        ensures flags { self.new.flags ≡ self.old.flags }
        ensures none { IfNone result (LacksHoles fill (heap_state heap.now) block size) }
        ensures some { IfSome result (λ at. (end : ℕ) × IsFirstPart fill (heap_state heap.now)
            block 0 size (record { next = at; end = end })) }
    {
        let BlockNote::Unowned { least } = self.notes[block as usize] else {
            return None;
        };
        if least <= size {
            return None;
        }
        match hole_of(heap, fill, block, size) {
            None => {
                if decides(heap, fill, block, size) {
                    self.notes[block as usize] = BlockNote::Unowned { least: size };
                }
                None
            }
            Some(region) => Some(region.next),
        }
    }

    /// The first hole with room for `size` words in the lowest block that has one: its block, and
    /// its offset in words. Blocks that lack one are noted, unless their cells are for other sizes,
    /// so that no later call looks at them for this size or a greater one.
    pub fn lowest_hole(&mut self, heap: &Heap, fill: Kind, size: u32) -> Option<(u32, u32)>
        requires fills { FillsHoles fill }
        requires notes { AreNotes fill (heap_state heap.now) self.old }
        requires least { HEADER_WORDS ≤ size }
        requires most { size ≤ MAX_MEDIUM_WORDS }
        ensures notes { AreNotes fill (heap_state heap.now) self.new }
        ensures flags { self.new.flags ≡ self.old.flags }
        ensures none { IfNone result (HasSomeHole fill (heap_state heap.now) size → ⊥) }
        ensures some { IfSome result (λ r. IsLowestHole fill (heap_state heap.now) r.0 r.1 size) }
    {
        for block in 0..heap.layout().blocks() {
            if let Some(offset) = self.hole_in(heap, fill, block, size) {
                return Some((block, offset));
            }
        }
        None
    }

    /// The lowest Free block.
    pub fn lowest_free(&self, heap: &Heap) -> Option<u32>
        requires { session_counts self.now.counts ≡ counts_of (heap_state heap.now) }
        ensures none { IfNone result ((k : ℕ)
            → HasKind (heap_state heap.now) k kinds.Free → ⊥) }
        ensures some { IfSome result (λ r. HasKind (heap_state heap.now) r kinds.Free
            × ((k : ℕ) → HasKind (heap_state heap.now) k kinds.Free → r ≤ k)) }
    {
        if self.counts.free == 0 {
            return None;
        }
        for block in 0..heap.layout().blocks() {
            if heap.block(block).kind == Kind::Free {
                return Some(block);
            }
        }
        None
    }

    /// Notes that an object was placed in the block, which was Free or had a hole.
    pub fn placed_in(&mut self, block: u32, was_free: bool)
        ensures notes { (rules : Rules) (old new : HeapState) (a refs nums : ℕ)
            → FillsHoles rules.fill → AreNotes rules.fill old self.old
            → PlacesInBlock rules old new a refs nums block was_free
            → AreNotes rules.fill new self.new }
        ensures flags { (rules : Rules) (old new : HeapState) (a refs nums : ℕ)
            → FlagsCover rules old self.old.flags.items
            → PlacesInBlock rules old new a refs nums block was_free
            → FlagsCover rules new self.new.flags.items }
    {
        if was_free {
            self.counts.free = self.counts.free.saturating_sub(1);
            if let Some(note) = self.notes.get_mut(block as usize) {
                *note = nothing_known();
            }
        }
    }

    /// Notes that a large object was placed in a run of Free blocks. Takes no memory, and reads
    /// block words alone.
    pub fn placed_run(&mut self, heap: &Heap)
        ensures notes { (fill : Kind) (old : HeapState) (a refs nums block : ℕ)
            → FillsHoles fill → AreNotes fill old self.old
            → PlacesRun old (heap_state heap.now) a refs nums block
            → AreNotes fill (heap_state heap.now) self.new }
        ensures flags { (rules : Rules) (old : HeapState) (a refs nums block : ℕ)
            → FlagsCover rules old self.old.flags.items
            → PlacesRun old (heap_state heap.now) a refs nums block
            → (heap_state heap.now).base ≡ old.base
            → FlagsCover rules (heap_state heap.now) self.new.flags.items }
    {
        self.counts = block_counts(heap);
    }
}
