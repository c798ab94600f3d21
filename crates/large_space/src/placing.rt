//! The blocks of a large object.

ghost use Rattle.std.specs.Prelude.{◌≡◌, ◌+◌, ◌*◌, ◌<◌, ◌≤◌, ℕ};
ghost use Rattle.heap_layout.specs.Zones.{first, BlockWords, IsRowOf};
ghost use Rattle.heap_layout.specs.declared.block.Kind.TheVariants as kinds;
ghost use Rattle.heap_layout.specs.Blocks.{kind_code};
ghost use Rattle.object_model.specs.Objects.{state_over, shown};
ghost use Rattle.object_model.specs.Births.{MakesRun};
ghost use Rattle.sessions.specs.Fitting.{IsFreeRun};
ghost use Rattle.block_sweeps.specs.Stores.{Stores, Fills};

use heap_layout::{BlockWord, Kind, Layout, encode};
use side_meta::Words;

/// Makes `count` Free blocks, from `block` on, the run of one large object: a head whose class is
/// `count`, and tails.
pub fn place_large<W: Words>(words: &mut W, layout: &Layout, block: u32, count: u32)
    requires extent { IsRowOf layout.now (W.words words.old) }
    requires least { 1 ≤ count }
    requires most { count ≤ 15 }
    requires free { IsFreeRun (shown (W.words words.old) layout.now) block count }
    ensures { (number base : ℕ)
        → MakesRun (state_over (W.words words.old) layout.now number base)
        (state_over (W.words words.new) layout.now number base) block count }
{
    make_head(words, layout, block, count);
    make_tails(words, layout, block + 1, block + count);
}

/// Makes the block the head of a run of `count` blocks.
fn make_head<W: Words>(words: &mut W, layout: &Layout, block: u32, count: u32)
    requires extent { IsRowOf layout.now (W.words words.old) }
    requires block { block < layout.now.blocks }
    requires least { 1 ≤ count }
    requires most { count ≤ 15 }
    ensures { Stores (W.words words.old) (W.words words.new)
        (first layout.now.blocks BlockWords + block)
        (kind_code kinds.LargeHead + 256 * count) }
{
    let head = BlockWord {
        kind: Kind::LargeHead,
        class: count,
        owner: 0,
    };
    words.set(layout.block_at(block), encode(&head));
}

/// Makes the blocks from `from` on, before `to`, tails.
fn make_tails<W: Words>(words: &mut W, layout: &Layout, from: u32, to: u32)
    requires extent { IsRowOf layout.now (W.words words.old) }
    requires order { from ≤ to }
    requires blocks { to ≤ layout.now.blocks }
    ensures { Fills (W.words words.old) (W.words words.new)
        (first layout.now.blocks BlockWords + from) (first layout.now.blocks BlockWords + to)
        (λ _. kind_code kinds.LargeTail) }
{
    for block in from..to {
        words.set(layout.block_at(block), Kind::LargeTail as u64);
    }
}
