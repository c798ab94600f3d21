//! The tests whether an object fits a heap.

ghost use Rattle.std.specs.Prelude.{◌≡◌, ◌↔◌, ◌⊎◌, ◌<◌, ◌≤◌, ℕ, IsTrue};
ghost use Rattle.plan_api.specs.Prelude.{heap_state, size_of, blocks_for_size, Rules, HasHole, HasSomeHole, MayGrant, MayGrantRun, IsFreeRun, Fits, session_reserve};

use crate::counts::Reserve;
use crate::grants::block_counts;
use crate::holes::first_hole;
use crate::readers::view;
use heap_layout::Kind;
use ideal_heap::{MAX_NUMS, MAX_REFS};
use large_space::{blocks_for, find_run};
use object_model::{HEADER_WORDS, Heap, MAX_MEDIUM_WORDS};

/// Whether the block has a hole with room for `size` words.
fn has_hole_in(heap: &Heap, block: u32, fill: Kind, size: u32) -> bool
    requires block { block < (heap_state heap.now).blocks }
    requires least { HEADER_WORDS ≤ size }
    requires most { size ≤ MAX_MEDIUM_WORDS }
    ensures { IsTrue result ↔ ((at : ℕ) × HasHole fill (heap_state heap.now) block at size) }
{
    heap.block(block).kind == fill && first_hole(fill, &view(heap, block), 0, size).is_some()
}

/// Whether some block of the kind `fill` has a hole with room for `size` words. Stops at the first
/// such block, and views only blocks of that kind.
pub fn has_hole(heap: &Heap, fill: Kind, size: u32) -> bool
    requires least { HEADER_WORDS ≤ size }
    requires most { size ≤ MAX_MEDIUM_WORDS }
    ensures { IsTrue result ↔ HasSomeHole fill (heap_state heap.now) size }
{
    for block in 0..heap.layout().blocks() {
        if has_hole_in(heap, block, fill, size) {
            return true;
        }
    }
    false
}

/// Whether an object of `size` words, at most `MAX_MEDIUM_WORDS`, fits: a Free block may be
/// granted, or a hole has room.
pub fn fits_small(heap: &Heap, fill: Kind, reserve: Reserve, size: u32) -> bool
    requires least { HEADER_WORDS ≤ size }
    requires most { size ≤ MAX_MEDIUM_WORDS }
    ensures { IsTrue result ↔ (HasSomeHole fill (heap_state heap.now) size
        ⊎ MayGrant (session_reserve reserve) (heap_state heap.now)) }
{
    block_counts(heap).is_grantable(reserve) || has_hole(heap, fill, size)
}

/// Whether a large object of `size` words fits: there is a run of as many Free blocks as it needs,
/// and they may be granted. Reads block words alone.
pub fn has_run(heap: &Heap, reserve: Reserve, size: u32) -> bool
    requires least { MAX_MEDIUM_WORDS < size }
    requires most { size ≤ size_of MAX_REFS MAX_NUMS }
    ensures { IsTrue result ↔ (MayGrantRun (session_reserve reserve) (heap_state heap.now)
        (blocks_for_size size)
        × ((k : ℕ) × IsFreeRun (heap_state heap.now) k (blocks_for_size size))) }
{
    let count = blocks_for(size);
    block_counts(heap).is_run_grantable(reserve, count)
        && find_run(heap.words(), heap.layout(), count).is_some()
}

/// Whether an object of `size` words fits: up to `MAX_MEDIUM_WORDS` in a hole or a Free block,
/// above in a run of Free blocks.
pub fn fits(heap: &Heap, fill: Kind, reserve: Reserve, size: u32) -> bool
    requires least { HEADER_WORDS ≤ size }
    requires most { size ≤ size_of MAX_REFS MAX_NUMS }
    ensures { (r : Rules) → r.fill ≡ fill → r.reserve ≡ session_reserve reserve
        → IsTrue result ↔ Fits r (heap_state heap.now) size }
{
    if size > MAX_MEDIUM_WORDS {
        return has_run(heap, reserve, size);
    }
    fits_small(heap, fill, reserve, size)
}
