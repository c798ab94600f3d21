//! The sweep of a large run.

ghost use Rattle.std.specs.Prelude.{◌≡◌, ◌↔◌, IsTrue};
ghost use Rattle.heap_layout.specs.Zones.{block_start, IsRowOf};
ghost use Rattle.heap_layout.specs.declared.block.Kind.TheVariants as kinds;
ghost use Rattle.object_model.specs.Objects.{HasKind, shown};
ghost use Rattle.object_model.specs.Releasing.{IsReleasable};
ghost use Rattle.object_model.specs.Ages.{Lives};
ghost use Rattle.block_sweeps.specs.Sweeping.{SweepsRun};

use block_sweeps::sweep_run;
use heap_layout::Layout;
use side_meta::Words;

/// Sweeps the run that begins in a block: if its object does not live, it is held no more, and each
/// block of the run becomes Free. Answers whether they did.
///
/// A plan's release of a large run calls it.
pub fn sweep_large<W: Words>(words: &mut W, layout: &Layout, block: u32, base: u64) -> bool
    requires extent { IsRowOf layout.now (W.words words.old) }
    requires releasable { IsReleasable (shown (W.words words.old) layout.now) block }
    requires kind { HasKind (shown (W.words words.old) layout.now) block kinds.LargeHead }
    ensures freed { IsTrue result ↔ (Lives base (shown (W.words words.old) layout.now)
        (block_start layout.now.blocks block) → ⊥) }
    ensures swept { SweepsRun base (shown (W.words words.old) layout.now)
        (shown (W.words words.new) layout.now) block }
{
    sweep_run(words, layout, block, base)
}
