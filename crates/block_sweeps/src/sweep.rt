//! The sweep of a block's objects, a word of start bits at a time.

ghost use Rattle.std.specs.Prelude.{◌≡◌, ◌+◌, ◌<◌, ◌^◌, ◌&&◌, ℕ, IsTrue, length, slice_index, bit_and, count_ones};
ghost use Rattle.side_meta.specs.BitWords.{has_bit};
ghost use Rattle.heap_layout.specs.Zones.{IsRowOf};
ghost use Rattle.heap_layout.specs.Blocks.{code_of, IsValidWord};
ghost use Rattle.object_model.specs.Objects.{shown};
ghost use Rattle.object_model.specs.Releasing.{IsReleasable};
ghost use Rattle.block_sweeps.specs.Stores.{Stores};
ghost use Rattle.block_sweeps.specs.Sweeping.{Sweeps, KeepsLiving, ChangesOnly, IsObjectBitWord, InBlock, object_count};
ghost use Rattle.block_sweeps.specs.WordSweeps.{survives, start_word, MaySweep, SweepsWords};

use crate::clearing::{free_block, store};
use crate::objects::lives;
use heap_layout::{BLOCK_BIT_WORDS, BlockWord, Layout, encode};
use side_meta::{BITS_PER_WORD, Words};

/// Sweeps a block: objects in it that do not live are held no more. A block in which nothing lives
/// becomes Free; another gets the block word `living`. Answers how many objects live.
///
/// Reads the collector word of each object, and writes only words that change.
pub fn sweep_block<W: Words>(
    words: &mut W,
    layout: &Layout,
    block: u32,
    base: u64,
    living: &BlockWord,
) -> u32
    requires extent { IsRowOf layout.now (W.words words.old) }
    requires block { block < layout.now.blocks }
    requires releasable { IsReleasable (shown (W.words words.old) layout.now) block }
    requires word { IsValidWord living.now }
    ensures swept { Sweeps base (code_of living.now)
        (shown (W.words words.old) layout.now)
        (shown (W.words words.new) layout.now) block }
    ensures count { result
        ≡ object_count (shown (W.words words.new) layout.now) block }
{
    let count = sweep_objects(words, layout, block, base);
    if count == 0 {
        free_block(words, layout, block);
    } else {
        store(words, layout.block_at(block), encode(living));
    }
    count
}

/// Clears the start, pin and unlog bits of objects in the block that do not live. Answers how many
/// live.
fn sweep_objects<W: Words>(words: &mut W, layout: &Layout, block: u32, base: u64) -> u32
    requires extent { IsRowOf layout.now (W.words words.old) }
    requires block { block < layout.now.blocks }
    requires releasable { IsReleasable (shown (W.words words.old) layout.now) block }
    ensures objects { KeepsLiving base
        (InBlock (shown (W.words words.old) layout.now) block)
        (shown (W.words words.old) layout.now)
        (shown (W.words words.new) layout.now) }
    ensures rest { ChangesOnly (IsObjectBitWord layout.now.blocks block)
        (shown (W.words words.old) layout.now)
        (shown (W.words words.new) layout.now) }
    ensures count { result
        ≡ object_count (shown (W.words words.new) layout.now) block }
{
    let mut count = 0;
    for index in BLOCK_BIT_WORDS * block..BLOCK_BIT_WORDS * block + BLOCK_BIT_WORDS {
        count += sweep_word(words, layout, index, base);
    }
    count
}

/// Sweeps the objects that begin at the addresses of word `index` of start bits. Answers how many
/// live.
fn sweep_word<W: Words>(words: &mut W, layout: &Layout, index: u32, base: u64) -> u32
    requires { MaySweep (shown (W.words words.old) layout.now) index }
    ensures swept { SweepsWords base index 1
        (shown (W.words words.old) layout.now)
        (shown (W.words words.new) layout.now) }
    ensures count { result ≡ count_ones
        (start_word (shown (W.words words.new) layout.now) index) }
    ensures fits { start_word (shown (W.words words.new) layout.now) index < 2 ^ 64 }
{
    let starts = words.get(layout.start_base() + index);
    if starts == 0 {
        return 0;
    }
    let living = living_bits(
        words,
        starts,
        layout.heap_base() + BITS_PER_WORD * index,
        base,
    );
    if living != starts {
        store(words, layout.start_base() + index, living);
        mask(words, layout.pin_base() + index, living);
        mask(words, layout.unlog_base() + index, living);
    }
    living.count_ones()
}

/// Clears the bits of a word that are clear in `bits`.
fn mask<W: Words>(words: &mut W, index: u32, bits: u64)
    requires { index < length (W.words words.old) }
    ensures { Stores (W.words words.old) (W.words words.new) index
        (bit_and (slice_index (W.words words.old) index) bits) }
{
    let word = words.get(index);
    store(words, index, word & bits);
}

/// The start bits whose objects live. Bit 0 is that of the address `first`.
fn living_bits<W: Words>(words: &W, starts: u64, first: u32, base: u64) -> u64
    requires index { length (W.words words.now) < 2 ^ 32 }
    requires words { (j : ℕ) → j < BITS_PER_WORD → IsTrue (has_bit starts j)
        → first + j + 2 < length (W.words words.now) }
    ensures { (j : ℕ) → j < BITS_PER_WORD → has_bit result j
        ≡ (has_bit starts j && survives (W.words words.now) base (first + j)) }
{
    let mut living = starts;
    let mut rest = starts;
    while rest != 0 {
        let bit = rest.trailing_zeros();
        let others = !(1u64 << bit);
        rest &= others;
        if !lives(words, first + bit, base) {
            living &= others;
        }
    }
    living
}
