//! What becomes of an evacuated block.

ghost use Rattle.std.specs.Prelude.{◌≡◌, ◌<◌};
ghost use Rattle.heap_layout.specs.Zones.{IsRowOf};
ghost use Rattle.heap_layout.specs.declared.block.Kind.TheVariants as kinds;
ghost use Rattle.heap_layout.specs.Blocks.{kind_code};
ghost use Rattle.object_model.specs.Objects.{shown};
ghost use Rattle.object_model.specs.Releasing.{IsReleasable};
ghost use Rattle.block_sweeps.specs.Sweeping.{Sweeps, object_count};

use block_sweeps::sweep_block;
use heap_layout::{BlockWord, Kind, Layout};
use side_meta::Words;

/// Sweeps an evacuated block: objects in it that do not live are held no more. The block becomes
/// Free if none is left, else Kept. Answers how many are left.
pub fn release_block<W: Words>(words: &mut W, layout: &Layout, block: u32, base: u64) -> u32
    requires extent { IsRowOf layout.now (W.words words.old) }
    requires block { block < layout.now.blocks }
    requires releasable { IsReleasable (shown (W.words words.old) layout.now) block }
    ensures swept { Sweeps base (kind_code kinds.Kept)
        (shown (W.words words.old) layout.now)
        (shown (W.words words.new) layout.now) block }
    ensures count { result
        ≡ object_count (shown (W.words words.new) layout.now) block }
{
    let kept = BlockWord {
        kind: Kind::Kept,
        class: 0,
        owner: 0,
    };
    sweep_block(words, layout, block, base, &kept)
}
