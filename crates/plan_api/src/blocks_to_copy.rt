//! Which blocks a collection evacuates, and which objects may leave them.

ghost use Rattle.std.specs.Prelude.{◌≡◌, ◌<◌, ℕ, length, map, IfOk, false};
ghost use Rattle.std.specs.List.{range_with_len};
ghost use Rattle.plan_api.specs.Prelude.{heap_state, HeapState, HasKind, IsHeld, may_leave_from, Rules, is_copied_in, HasFills, listed};

use heap_layout::{Kind, block_of};
use object_model::{Collect, Heap, MAX_MEDIUM_WORDS, size_words};
use std::alloc::{AllocError, Global};

/// The kinds of blocks that mutators and tracers of a plan fill, and whether it has young objects.
#[derive(Clone, Copy, Debug)]
pub struct Fills {
    /// The kind of the blocks that mutators fill.
    pub fill: Kind,
    /// The kind of the blocks that a collection copies into.
    pub copy: Kind,
    /// Whether objects are young or old.
    pub young: bool,
}

impl Fills {
    /// Whether a plan that copies whole blocks evacuates blocks of this kind: in a nursery
    /// collection those that mutators fill, in a full one also those that tracers fill and Kept
    /// ones.
    pub fn is_copied(&self, collect: Collect, kind: Kind) -> bool
        ensures { (r : Rules) (s : HeapState) (k : ℕ) → HasFills r self.now → HasKind s k kind
            → is_copied_in r collect s k ≡ result }
    {
        match collect {
            Collect::Full => kind == self.fill || kind == self.copy || kind == Kind::Kept,
            Collect::Nursery => self.young && kind == self.fill,
        }
    }
}

/// For each block whether a plan that copies whole blocks evacuates it. Reads each block word once.
///
/// Fails if memory runs out.
pub fn copied_blocks(
    alloc: Global,
    heap: &Heap,
    fills: &Fills,
    collect: Collect,
) -> Result<Vec<bool>, AllocError>
    ensures { IfOk result (λ v. (r : Rules) → HasFills r fills.now
        → v.items ≡ map (is_copied_in r collect (heap_state heap.now))
        (range_with_len 0 (heap_state heap.now).blocks)) }
{
    let blocks = heap.layout().blocks();
    let mut from = Vec::with_capacity(alloc, blocks as usize)?;
    for block in 0..blocks {
        from.push_reserved(fills.is_copied(collect, heap.block(block).kind));
    }
    Ok(from)
}

/// For each block of the heap `false`: no block is evacuated.
///
/// Fails if memory runs out.
pub fn no_blocks(alloc: Global, heap: &Heap) -> Result<Vec<bool>, AllocError>
    ensures { IfOk result (λ v. v.items
        ≡ map (λ k. false) (range_with_len 0 (heap_state heap.now).blocks)) }
{
    let blocks = heap.layout().blocks() as usize;
    let from = vec![in alloc; false; blocks]?;
    Ok(from)
}

/// Whether the object may leave the blocks in `from`: its block is there, and it is neither pinned
/// nor large.
pub fn may_leave(heap: &Heap, from: &[bool], address: u32) -> bool
    requires held { IsHeld (heap_state heap.now) address }
    requires from { length from.now ≡ (heap_state heap.now).blocks }
    ensures { result ≡ may_leave_from (listed from.now) (heap_state heap.now) address }
{
    if !from[block_of(heap.layout(), address) as usize] {
        return false;
    }
    if heap.pinned(address) {
        return false;
    }
    size_words(&heap.shape_at(address)) <= MAX_MEDIUM_WORDS
}
