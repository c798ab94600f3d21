//! The sweep of an Immix block, after which a line is free exactly where no object touches it.

ghost use Rattle.std.specs.Prelude.{◌≡◌, ◌<◌};
ghost use Rattle.heap_layout.specs.Zones.{IsRowOf};
ghost use Rattle.heap_layout.specs.declared.block.Kind.TheVariants as kinds;
ghost use Rattle.object_model.specs.Objects.{HasKind, shown};
ghost use Rattle.object_model.specs.Lawful.{IsReadableBlock, LineBitsAreExact};
ghost use Rattle.object_model.specs.Releasing.{IsReleasable};
ghost use Rattle.block_sweeps.specs.Sweeping.{AreApart, MarksTouched, object_count};
ghost use Rattle.immix_space.specs.LineSweeps.{SweepsLines, IsTouchedFromWithin};

use block_sweeps::mark_touched_lines;
use heap_layout::{BlockWord, Kind, Layout};
use side_meta::Words;

/// Sweeps an Immix block: objects in it that do not live are held no more, and its line bits become
/// those of the lines that the others touch, so they are exact if no object reaches in from another
/// block. The block becomes Free if none is left. Answers how many are left.
///
/// For callers that sweep one Immix block by itself, as tests do: a plan's release also sets unlog
/// bits and treats blocks of all kinds, so it takes the parts, `block_sweeps::sweep_block` and
/// `relist`.
pub fn sweep_block<W: Words>(words: &mut W, layout: &Layout, block: u32, base: u64) -> u32
    requires extent { IsRowOf layout.now (W.words words.old) }
    requires block { block < layout.now.blocks }
    requires releasable { IsReleasable (shown (W.words words.old) layout.now) block }
    requires kind { HasKind (shown (W.words words.old) layout.now) block kinds.Immix }
    ensures swept { SweepsLines base (shown (W.words words.old) layout.now)
        (shown (W.words words.new) layout.now) block }
    ensures count { result
        ≡ object_count (shown (W.words words.new) layout.now) block }
    ensures exact { IsTouchedFromWithin (shown (W.words words.old) layout.now) block
        → LineBitsAreExact (shown (W.words words.new) layout.now) block }
{
    let living = BlockWord {
        kind: Kind::Immix,
        class: 0,
        owner: 0,
    };
    let count = block_sweeps::sweep_block(words, layout, block, base, &living);
    if count == 0 {
        return 0;
    }
    relist(words, layout, block);
    count
}

/// Makes the line bits of an Immix block those of the lines that objects in it touch, so they are
/// exact if no object reaches in from another block.
pub fn relist<W: Words>(words: &mut W, layout: &Layout, block: u32)
    requires block { IsReadableBlock (shown (W.words words.old) layout.now) block }
    requires apart { AreApart (shown (W.words words.old) layout.now) block }
    requires kind { HasKind (shown (W.words words.old) layout.now) block kinds.Immix }
    ensures marked { MarksTouched (shown (W.words words.old) layout.now)
        (shown (W.words words.new) layout.now) block }
    ensures exact { IsTouchedFromWithin (shown (W.words words.old) layout.now) block
        → LineBitsAreExact (shown (W.words words.new) layout.now) block }
{
    mark_touched_lines(words, layout, block);
}
