//! Old and young objects, and the first collection of a plan that has both.

ghost use Rattle.std.specs.Prelude.{◌≡◌, ◌↔◌, ◌<◌, ◌≤◌, ◌*◌, ◌&&◌, ℕ, IsTrue, not, true, nat_eq, if◌then◌else◌};
ghost use Rattle.std.specs.List.{range_with_len, list_any};
ghost use Rattle.plan_api.specs.Prelude.{IsRowOf, kind_code, IsHeld, state_over, has_kind, block_count, is_old_at, RemembersYoung, heap_state, Rules, first_collection, AreReadable, BeginsYoungIn, begins_young_at};
ghost use Rattle.plan_api.specs.Prelude.kinds;

use crate::grants::block_counts_in;
use crate::readers::block_word_in;
use heap_layout::{BLOCK_BIT_WORDS, Kind, Layout};
use object_model::{Collect, Heap};
use side_meta::{BITS_PER_WORD, Words};
use write_barrier::{starts_without_unlog_bit, without};

/// Whether the object is old: the last full collection or a later one claimed it.
pub(crate) fn is_old(heap: &Heap, address: u32) -> bool
    requires { IsHeld (heap_state heap.now) address }
    ensures { result ≡ is_old_at (heap_state heap.now) address }
{
    write_barrier::is_old(heap.words(), heap.base(), address)
}

/// The collection to try first under a plan with young objects.
pub fn first_kind(heap: &Heap) -> Collect
    requires { RemembersYoung (heap_state heap.now) }
    ensures { (r : Rules) → r.young ≡ true → result ≡ first_collection r (heap_state heap.now) }
{
    first_kind_in(heap.words(), heap.layout(), heap.base())
}

/// The same of a row whose last full collection has this number: a nursery one if there was one,
/// some object is young, and at least a quarter of the blocks in use have young objects.
///
/// Reads of each block in use its word, start and unlog bits, and the collector words of objects
/// whose unlog bit is clear, up to the first young one.
pub fn first_kind_in<W: Words>(words: &W, layout: &Layout, base: u64) -> Collect
    requires extent { IsRowOf layout.now (W.words words.now) }
    requires readable { AreReadable (W.words words.now) layout.now }
    ensures { (r : Rules) (number : ℕ) → r.young ≡ true
        → RemembersYoung (state_over (W.words words.now) layout.now number base)
        → result ≡ first_collection r (state_over (W.words words.now) layout.now number base) }
{
    if base == 0 {
        return Collect::Full;
    }
    let (some, young) = young_blocks(words, layout, base);
    if !some {
        return Collect::Full;
    }
    if block_counts_in(words, layout).used() > 4 * young {
        return Collect::Full;
    }
    Collect::Nursery
}

/// Whether some object is young, and in how many blocks young ones begin, heads of large objects
/// not counted.
fn young_blocks<W: Words>(words: &W, layout: &Layout, base: u64) -> (bool, u32)
    requires extent { IsRowOf layout.now (W.words words.now) }
    requires readable { AreReadable (W.words words.now) layout.now }
    ensures some { result.0
        ≡ list_any (begins_young_at (state_over (W.words words.now) layout.now 0 base))
        (range_with_len 0 layout.now.blocks) }
    ensures count { result.1 ≡ block_count (state_over (W.words words.now) layout.now 0 base)
        (λ k. begins_young_at (state_over (W.words words.now) layout.now 0 base) k
        && not (has_kind (state_over (W.words words.now) layout.now 0 base) k kinds.LargeHead)) }
    ensures most { result.1 ≤ layout.now.blocks }
{
    let mut some = false;
    let mut young = 0;
    for block in 0..layout.blocks() {
        if begins_young(words, layout, base, block) {
            some = true;
            young += small_blocks(block_word_in(words, layout, block).kind);
        }
    }
    (some, young)
}

/// 0 for the head of a large object, else 1.
fn small_blocks(kind: Kind) -> u32
    ensures value { result ≡ (if nat_eq (kind_code kind) 6 then 0 else 1) }
    ensures most { result < 2 }
{
    match kind {
        Kind::LargeHead => 0,
        _ => 1,
    }
}

/// Whether a young object begins in a block.
fn begins_young<W: Words>(words: &W, layout: &Layout, base: u64, block: u32) -> bool
    requires extent { IsRowOf layout.now (W.words words.now) }
    requires readable { AreReadable (W.words words.now) layout.now }
    requires block { block < layout.now.blocks }
    ensures { result
        ≡ begins_young_at (state_over (W.words words.now) layout.now 0 base) block }
{
    if matches!(
        block_word_in(words, layout, block).kind,
        Kind::Free | Kind::LargeTail
    ) {
        return false;
    }
    for word in 0..BLOCK_BIT_WORDS {
        if begins_young_in(words, layout, base, BLOCK_BIT_WORDS * block + word) {
            return true;
        }
    }
    false
}

/// Whether a young object begins at one of the 64 addresses of word `index` of start bits.
fn begins_young_in<W: Words>(words: &W, layout: &Layout, base: u64, index: u32) -> bool
    requires extent { IsRowOf layout.now (W.words words.now) }
    requires readable { AreReadable (W.words words.now) layout.now }
    requires index { index < BLOCK_BIT_WORDS * layout.now.blocks }
    ensures { IsTrue result
        ↔ BeginsYoungIn (state_over (W.words words.now) layout.now 0 base) index }
{
    let first = layout.heap_base() + BITS_PER_WORD * index;
    let mut rest = starts_without_unlog_bit(words, layout, index);
    while rest != 0 {
        let bit = rest.trailing_zeros();
        if !write_barrier::is_old(words, base, first + bit) {
            return true;
        }
        rest = without(rest, bit);
    }
    false
}
