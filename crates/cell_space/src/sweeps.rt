//! The sweep of a block of cells.

ghost use Rattle.std.specs.Prelude.{◌≡◌, ◌<◌};
ghost use Rattle.heap_layout.specs.Zones.{IsRowOf};
ghost use Rattle.object_model.specs.Objects.{block_word, shown};
ghost use Rattle.object_model.specs.Releasing.{IsReleasable};
ghost use Rattle.block_sweeps.specs.Sweeping.{Sweeps, object_count};

use heap_layout::{Layout, decode};
use side_meta::Words;

/// Sweeps a block: objects in it that do not live are held no more. The block becomes Free if none
/// is left, else it stays as it is. Answers how many are left.
///
/// For callers that sweep a block of cells by itself, as tests do. A plan's release treats blocks
/// of all kinds, and calls `block_sweeps::sweep_block`.
pub fn sweep_block<W: Words>(words: &mut W, layout: &Layout, block: u32, base: u64) -> u32
    requires extent { IsRowOf layout.now (W.words words.old) }
    requires block { block < layout.now.blocks }
    requires releasable { IsReleasable (shown (W.words words.old) layout.now) block }
    ensures swept { Sweeps base (block_word (shown (W.words words.old) layout.now) block)
        (shown (W.words words.old) layout.now)
        (shown (W.words words.new) layout.now) block }
    ensures count { result
        ≡ object_count (shown (W.words words.new) layout.now) block }
{
    let living = decode(words.get(layout.block_at(block))).unwrap();
    block_sweeps::sweep_block(words, layout, block, base, &living)
}
