//! How many Free blocks may be granted, by the counts of a heap's blocks.

ghost use Rattle.std.specs.Prelude.{◌≡◌, ◌↔◌, ◌+◌, ◌<◌, ℕ, IsTrue, nat_eq, if◌then◌else◌, ◌||◌};
ghost use Rattle.plan_api.specs.Prelude.{IsRowOf, kind_code, is_block_code, shown, block_word, heap_state, total_in, used_in, headroom_in, reserve_in, reserve_per_block, allowance_in, IsGrantable, IsRunGrantable, counts_of, session_counts, session_reserve};

use crate::counts::{BlockCounts, Reserve};
use crate::readers::block_word_in;
use heap_layout::{Kind, Layout};
use immix_space::headroom_for;
use object_model::Heap;
use side_meta::Words;

impl BlockCounts {
    /// The number of blocks that belong to no large object.
    pub fn total(&self) -> u32
        ensures { result ≡ total_in (session_counts self.now) }
    {
        self.blocks.saturating_sub(self.large)
    }

    /// The number of blocks in use, those of large objects apart.
    pub fn used(&self) -> u32
        ensures { result ≡ used_in (session_counts self.now) }
    {
        self.total().saturating_sub(self.free)
    }

    /// The headroom in blocks: one for each 32 blocks of the heap, rounded up.
    pub fn headroom(&self) -> u32
        ensures { result ≡ headroom_in (session_counts self.now) }
    {
        headroom_for(self.blocks)
    }

    /// The number of Free blocks that are held back.
    pub fn reserved(&self, reserve: Reserve) -> u32
        ensures { result ≡ reserve_in (session_reserve reserve) (session_counts self.now) }
    {
        match reserve {
            Reserve::Nothing => 0,
            Reserve::Copies => self.used(),
            Reserve::Headroom => self.headroom(),
        }
    }

    /// Whether one Free block may be granted to a mutator.
    pub fn is_grantable(&self, reserve: Reserve) -> bool
        ensures { IsTrue result ↔ IsGrantable (session_reserve reserve)
            (session_counts self.now) }
    {
        self.free.saturating_sub(self.reserved(reserve)) > per_block(reserve)
    }

    /// Whether `count` Free blocks may be granted to a large object.
    pub fn is_run_grantable(&self, reserve: Reserve, count: u32) -> bool
        ensures { IsTrue result ↔ IsRunGrantable (session_reserve reserve)
            (session_counts self.now) count }
    {
        count <= self.free && self.reserved(reserve) <= self.free - count
    }

    /// The number of Free blocks that mutators may take in an epoch.
    pub fn allowance(&self, reserve: Reserve) -> u32
        ensures { result ≡ allowance_in (session_reserve reserve) (session_counts self.now) }
    {
        self.free.saturating_sub(self.reserved(reserve)) / (1 + per_block(reserve))
    }
}

/// By how many blocks the reserve grows for each Free block that is granted.
fn per_block(reserve: Reserve) -> u32
    ensures value { result ≡ reserve_per_block (session_reserve reserve) }
    ensures most { result < 2 }
{
    match reserve {
        Reserve::Copies => 1,
        Reserve::Nothing | Reserve::Headroom => 0,
    }
}

/// The counts of a heap's blocks, from one pass over the block words.
pub fn block_counts(heap: &Heap) -> BlockCounts
    ensures { session_counts result ≡ counts_of (heap_state heap.now) }
{
    block_counts_in(heap.words(), heap.layout())
}

/// The counts of a row's blocks.
pub fn block_counts_in<W: Words>(words: &W, layout: &Layout) -> BlockCounts
    requires extent { IsRowOf layout.now (W.words words.now) }
    requires codes { (k : ℕ) → k < layout.now.blocks
        → IsTrue (is_block_code (block_word (shown (W.words words.now) layout.now) k)) }
    ensures { session_counts result ≡ counts_of (shown (W.words words.now) layout.now) }
{
    let blocks = layout.blocks();
    let mut free = 0;
    let mut large = 0;
    for block in 0..blocks {
        let kind = block_word_in(words, layout, block).kind;
        free += free_blocks(kind);
        large += large_blocks(kind);
    }
    BlockCounts {
        blocks,
        free,
        large,
    }
}

/// 1 for a Free block, else 0.
fn free_blocks(kind: Kind) -> u32
    ensures { result ≡ (if nat_eq (kind_code kind) 0 then 1 else 0) }
{
    match kind {
        Kind::Free => 1,
        _ => 0,
    }
}

/// 1 for a block of a large object, else 0.
fn large_blocks(kind: Kind) -> u32
    ensures { result ≡ (if nat_eq (kind_code kind) 6 || nat_eq (kind_code kind) 7 then 1 else 0) }
{
    match kind {
        Kind::LargeHead | Kind::LargeTail => 1,
        _ => 0,
    }
}
