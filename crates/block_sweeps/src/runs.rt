//! The sweep of a large run.

ghost use Rattle.std.specs.Prelude.{◌≡◌, ◌↔◌, ◌+◌, ◌<◌, ◌≤◌, ◌^◌, IsTrue};
ghost use Rattle.heap_layout.specs.Zones.{block_start, IsRowOf};
ghost use Rattle.heap_layout.specs.declared.block.Kind.TheVariants as kinds;
ghost use Rattle.object_model.specs.Objects.{HasKind, shown};
ghost use Rattle.object_model.specs.Releasing.{IsReleasable};
ghost use Rattle.object_model.specs.Ages.{Lives};
ghost use Rattle.block_sweeps.specs.RunSweeps.{ClearsHead, FreesAll};
ghost use Rattle.block_sweeps.specs.Sweeping.{SweepsRun};

use crate::clearing::{free_block, store};
use crate::objects::lives;
use heap_layout::{BLOCK_BIT_WORDS, CLASS_UNIT, Layout};
use side_meta::Words;

/// Frees a large run, with its metadata cleared, if its object does not live. Answers whether it
/// did so.
pub fn sweep_run<W: Words>(words: &mut W, layout: &Layout, block: u32, base: u64) -> bool
    requires extent { IsRowOf layout.now (W.words words.old) }
    requires block { IsReleasable (shown (W.words words.old) layout.now) block }
    requires kind { HasKind (shown (W.words words.old) layout.now) block kinds.LargeHead }
    ensures freed { IsTrue result ↔ (Lives base (shown (W.words words.old) layout.now)
        (block_start layout.now.blocks block) → ⊥) }
    ensures swept { SweepsRun base (shown (W.words words.old) layout.now)
        (shown (W.words words.new) layout.now) block }
{
    if lives(words, layout.address(block, 0), base) {
        return false;
    }
    let class = words.get(layout.block_at(block)) / CLASS_UNIT;
    clear_head(words, layout, block);
    free_all(words, layout, block, block + class as u32);
    true
}

/// Clears the bits of the object that begins at word 0 of a block. The 63 addresses after it have
/// no bit that is set.
fn clear_head<W: Words>(words: &mut W, layout: &Layout, block: u32)
    requires extent { IsRowOf layout.now (W.words words.old) }
    requires block { block < layout.now.blocks }
    ensures { ClearsHead (shown (W.words words.old) layout.now)
        (shown (W.words words.new) layout.now) block }
{
    store(words, layout.start_base() + BLOCK_BIT_WORDS * block, 0);
    store(words, layout.pin_base() + BLOCK_BIT_WORDS * block, 0);
    store(words, layout.unlog_base() + BLOCK_BIT_WORDS * block, 0);
}

/// Makes the blocks from `from` on, before `to`, Free, and clears their line bits.
fn free_all<W: Words>(words: &mut W, layout: &Layout, from: u32, to: u32)
    requires extent { IsRowOf layout.now (W.words words.old) }
    requires order { from ≤ to }
    requires blocks { to ≤ layout.now.blocks }
    ensures { FreesAll (shown (W.words words.old) layout.now)
        (shown (W.words words.new) layout.now) from to }
{
    for block in from..to {
        free_block(words, layout, block);
    }
}
