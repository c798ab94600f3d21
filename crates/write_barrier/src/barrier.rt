//! Which objects are old, and which have their unlog bit.

ghost use Rattle.std.specs.Prelude.{◌≡◌, ◌+◌, ◌&&◌, ◌<◌, ◌^◌, ℕ, slice_index, slice_set, length};
ghost use Rattle.heap_layout.specs.declared.layout.Layout.{Layout};
ghost use Rattle.heap_layout.specs.Zones.{UnlogBits, IsAddress, IsRowOf, row_words};
ghost use Rattle.side_meta.specs.BitWords.{without_bit};
ghost use Rattle.object_model.specs.Objects.{state_over, is_unlogged as has_unlog_bit};
ghost use Rattle.object_model.specs.Ages.{is_old as is_old_at};
ghost use Rattle.object_model.specs.BitWords.{bit_word, bit_place};
ghost use Rattle.object_model.specs.Changes.{ClearsUnlog};

use heap_layout::Layout;
use side_meta::{BITS_PER_WORD, Words, clear_bit, test_bit};

/// Whether a store of a reference into the object must log it first, under a plan with young
/// objects: it is old, and no store has logged it since the last collection.
pub fn must_log<W: Words>(words: &W, layout: &Layout, base: u64, address: u32) -> bool
    requires extent { IsRowOf layout.now (W.words words.now) }
    requires address { IsAddress layout.now.blocks address }
    requires header { address + 2 < row_words layout.now.blocks }
    ensures { (number : ℕ) → result
        ≡ (is_old_at (state_over (W.words words.now) layout.now number base) address
        && has_unlog_bit (state_over (W.words words.now) layout.now number base) address) }
{
    is_old(words, base, address) && is_unlogged(words, layout, address)
}

/// Whether the object is old: the last full collection, number `base`, or a later one claimed it.
/// None is while `base` is 0.
#[inline(always)]
pub fn is_old<W: Words>(words: &W, base: u64, address: u32) -> bool
    requires word { address + 2 < length (W.words words.now) }
    requires index { address + 2 < 2 ^ 32 }
    ensures { (layout : Layout) (number : ℕ) → result
        ≡ is_old_at (state_over (W.words words.now) layout number base) address }
{
    forward_word::is_old(words.get(address + 2), base)
}

/// Whether the unlog bit of an address is set.
#[inline(always)]
pub fn is_unlogged<W: Words>(words: &W, layout: &Layout, address: u32) -> bool
    requires extent { IsRowOf layout.now (W.words words.now) }
    requires address { IsAddress layout.now.blocks address }
    ensures { (number base : ℕ) → result
        ≡ has_unlog_bit (state_over (W.words words.now) layout.now number base) address }
{
    let (index, bit) = unlog_bit(layout, address);
    test_bit(words, index, bit)
}

/// Clears the unlog bit of an address: an old object there is logged. Nothing else changes.
#[inline(always)]
pub fn log<W: Words>(words: &mut W, layout: &Layout, address: u32)
    requires extent { IsRowOf layout.now (W.words words.old) }
    requires address { IsAddress layout.now.blocks address }
    ensures clears { (number base : ℕ)
        → ClearsUnlog (state_over (W.words words.old) layout.now number base)
        (state_over (W.words words.new) layout.now number base) address }
    ensures words { W.words words.new ≡ slice_set (W.words words.old)
        (bit_word layout.now.blocks UnlogBits address)
        (without_bit (slice_index (W.words words.old)
        (bit_word layout.now.blocks UnlogBits address))
        (bit_place layout.now.blocks address)) }
{
    let (index, bit) = unlog_bit(layout, address);
    clear_bit(words, index, bit);
}

/// The index of the word with the unlog bit of an address, and the position of the bit in it.
#[inline(always)]
fn unlog_bit(layout: &Layout, address: u32) -> (u32, u32)
    requires { IsAddress layout.now.blocks address }
    ensures word { result.0 ≡ bit_word layout.now.blocks UnlogBits address }
    ensures bit { result.1 ≡ bit_place layout.now.blocks address }
{
    let index = address - layout.heap_base();
    (
        layout.unlog_base() + index / BITS_PER_WORD,
        index % BITS_PER_WORD,
    )
}
