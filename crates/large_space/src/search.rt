//! The search for a run of Free blocks.

ghost use Rattle.std.specs.Prelude.{◌≡◌, ◌+◌, ◌*◌, ◌<◌, ◌≤◌, ℕ, IfSome, MatchOption};
ghost use Rattle.heap_layout.specs.Zones.{block_start, IsRowOf};
ghost use Rattle.object_model.specs.Objects.{blocks_for as blocks_for_size, shown};
ghost use Rattle.object_model.specs.Lawful.{FreeBlockIsClear, IsClear, AllLie, MeetsNoObject};
ghost use Rattle.large_space.specs.FreeRuns.{IsFirstRun, HasNoRun};

use heap_layout::{BLOCK_WORDS, CLASS_UNIT, Kind, Layout};
use side_meta::Words;

/// How many blocks an object of `size` words needs.
pub fn blocks_for(size: u32) -> u32
    ensures { result ≡ blocks_for_size size }
{
    size.div_ceil(BLOCK_WORDS)
}

/// The first block of the lowest run of `count` Free blocks.
///
/// Reads each block word at most once.
pub fn find_run<W: Words>(words: &W, layout: &Layout, count: u32) -> Option<u32>
    requires extent { IsRowOf layout.now (W.words words.now) }
    requires least { 1 ≤ count }
    requires most { count ≤ 15 }
    ensures run { MatchOption result
        (HasNoRun (shown (W.words words.now) layout.now) count)
        (λ block. IsFirstRun (shown (W.words words.now) layout.now) block count) }
    ensures clear { ((k : ℕ)
        → FreeBlockIsClear (shown (W.words words.now) layout.now) k)
        → IfSome result (λ block. (j : ℕ) → j < count
        → IsClear (shown (W.words words.now) layout.now) (block + j)) }
    ensures apart { AllLie (shown (W.words words.now) layout.now)
        → IfSome result (λ block. MeetsNoObject (shown (W.words words.now) layout.now)
        (block_start layout.now.blocks block) (4096 * count)) }
{
    let mut from = 0;
    for block in 0..layout.blocks() {
        if words.get(layout.block_at(block)) % CLASS_UNIT != Kind::Free as u64 {
            from = block + 1;
        } else if block + 1 - from == count {
            return Some(from);
        }
    }
    None
}
