//! A lawful heap.

ghost use Rattle.object_model.specs.Lawful.{IsLawful};
ghost use Rattle.object_model.specs.Objects.{state_of};

use crate::bits::is_held;
use crate::row::Row;
use crate::shape::Shape;
use heap_layout::{BlockWord, Layout};
use ideal_heap::{MAX_NUMS, MAX_REFS, Name};
use shared_row::WordRow;
use std::alloc::{AllocError, Global};

/// A heap that satisfies the heap invariant.
///
/// It can only be read. To change it, take its `Row`, and make a heap again of a lawful one.
#[derive(Debug, Drop)]
pub struct Heap {
    row: Row,
    pub ghost lawful: { IsLawful (state_of row) },
}

impl Heap {
    ghost use Rattle.std.specs.Prelude.{◌≡◌, ◌≢◌, ◌↔◌, ◌+◌, ◌<◌, ◌≤◌, IfOk, IsTrue};
    ghost use Rattle.heap_layout.specs.Zones.{IsAddress};
    ghost use Rattle.heap_layout.specs.Blocks.{code_of, IsValidWord};
    ghost use Rattle.ideal_heap.specs.Names.{IsName};
    ghost use Rattle.object_model.specs.Objects.{empty_heap, IsHeld, is_pinned, block_word, name_at as object_name, refs_at, nums_at, ref_at as ref_word_at, num_at as num_word_at};
    ghost use Rattle.object_model.specs.Lawful.{IsRefField};
    ghost use Rattle.object_model.specs.Heaps.{heap_state};

    /// An empty heap: a row of zeros. Fails if memory runs out.
    pub fn new(alloc: Global, layout: Layout) -> Result<Heap, AllocError>
        ensures { IfOk result (λ h. heap_state h ≡ empty_heap layout.blocks) }
    {
        let words = WordRow::zeros(alloc, layout.words() as usize)?;
        Ok(Heap {
            row: Row {
                words,
                layout,
                number: 0,
                base: 0,
            },
        })
    }

    /// The heap of a lawful row. Copies nothing.
    pub fn from_row(row: Row) -> Heap
        requires { IsLawful (state_of row) }
        ensures { heap_state result ≡ state_of row }
    {
        Heap { row }
    }

    /// The heap's row, for code that changes it. Copies nothing.
    pub fn into_row(self) -> Row
        ensures state { state_of result ≡ heap_state self }
        ensures lawful { IsLawful (state_of result) }
    {
        self.row
    }

    /// The layout of its row: where each zone begins, in words.
    pub fn layout(&self) -> &Layout
        ensures { result.now.blocks ≡ (heap_state self.now).blocks }
    {
        &self.row.layout
    }

    /// The number of the last collection, 0 before the first.
    pub fn number(&self) -> u64
        ensures { result ≡ (heap_state self.now).number }
    {
        self.row.number
    }

    /// The number of the last full collection that reclaimed, 0 before the first.
    pub fn base(&self) -> u64
        ensures { result ≡ (heap_state self.now).base }
    {
        self.row.base
    }

    /// The words of its row: side metadata first, the heap last.
    pub fn words(&self) -> &WordRow
        ensures { result.now ≡ (heap_state self.now).words }
    {
        &self.row.words
    }

    /// The kind, class and owner of a block.
    pub fn block(&self, block: u32) -> BlockWord
        requires { block < (heap_state self.now).blocks }
        ensures code { code_of result ≡ block_word (heap_state self.now) block }
        ensures valid { IsValidWord result }
    {
        self.row.block(block)
    }

    /// Whether an object begins at `address`: whether the start bit is set.
    pub fn held(&self, address: u32) -> bool
        requires { IsAddress (heap_state self.now).blocks address }
        ensures { IsTrue result ↔ IsHeld (heap_state self.now) address }
    {
        is_held(&self.row.words, &self.row.layout, address)
    }

    /// Whether the object at `address` is pinned. No collection moves a pinned object.
    pub fn pinned(&self, address: u32) -> bool
        requires { IsHeld (heap_state self.now) address }
        ensures { result ≡ is_pinned (heap_state self.now) address }
    {
        self.row.pinned(address)
    }

    /// The name of the object at `address`.
    pub fn name_at(&self, address: u32) -> Name
        requires { IsHeld (heap_state self.now) address }
        ensures name { result ≡ object_name (heap_state self.now) address }
        ensures valid { IsName result }
    {
        self.row.name_at(address)
    }

    /// How many references and numbers the object at `address` has.
    pub fn shape_at(&self, address: u32) -> Shape
        requires { IsHeld (heap_state self.now) address }
        ensures refs { result.refs ≡ refs_at (heap_state self.now) address }
        ensures nums { result.nums ≡ nums_at (heap_state self.now) address }
        ensures refs_most { result.refs ≤ MAX_REFS }
        ensures nums_most { result.nums ≤ MAX_NUMS }
    {
        self.row.shape_at(address)
    }

    /// Reference `index` of the object at `address`: an address, or 0 for nil.
    pub fn ref_at(&self, address: u32, index: u32) -> u32
        requires held { IsHeld (heap_state self.now) address }
        requires field { index < refs_at (heap_state self.now) address }
        ensures value { result ≡ ref_word_at (heap_state self.now) address index }
        ensures reference { IsRefField (heap_state self.now) result }
    {
        self.row.ref_at(address, index)
    }

    /// Number `index` of the object at `address`.
    pub fn num_at(&self, address: u32, index: u32) -> u64
        requires held { IsHeld (heap_state self.now) address }
        requires field { index < nums_at (heap_state self.now) address }
        ensures { result ≡ num_word_at (heap_state self.now) address index }
    {
        self.row.num_at(address, index)
    }
}
