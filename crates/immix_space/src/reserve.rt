//! The blocks that are held back for evacuation.

ghost use Rattle.std.specs.Prelude.{◌≡◌, ℕ};
ghost use Rattle.object_model.specs.Objects.{HeapState};
ghost use Rattle.sessions.specs.Grants.{BlockCounts, headroom_in};
ghost use Rattle.sessions.specs.Fitting.{headroom_of};

use heap_layout::Layout;

/// One block is held back for so many blocks of the heap, and for a rest of fewer.
const BLOCKS_PER_RESERVED: u32 = 32;

/// The headroom in blocks: one for each 32 blocks of the heap, rounded up.
///
/// For callers that have a layout and no counts, as who chooses the size of a heap.
pub fn headroom(layout: &Layout) -> u32
    ensures { (s : HeapState) → s.blocks ≡ layout.now.blocks → result ≡ headroom_of s }
{
    headroom_for(layout.blocks())
}

/// The headroom of a heap of so many blocks. The reserve of a plan is counted by it.
pub fn headroom_for(blocks: u32) -> u32
    ensures { (c : BlockCounts) → c.blocks ≡ blocks → result ≡ headroom_in c }
{
    blocks.div_ceil(BLOCKS_PER_RESERVED)
}
