//! The list of the logged objects.

ghost use Rattle.std.specs.Prelude.{◌≡◌, ◌+◌, ◌*◌, ◌^◌, ◌<◌, ℕ, true, replicate, IfOk, OnOk};
ghost use Rattle.side_meta.specs.BitWords.{has_bit, without_bit};
ghost use Rattle.heap_layout.specs.Zones.{heap_of, block_start, IsRowOf};
ghost use Rattle.object_model.specs.Objects.{state_over};
ghost use Rattle.object_model.specs.Heaps.{heap_state};
ghost use Rattle.object_model.specs.Ages.{ListsLogged};
ghost use Rattle.write_barrier.specs.Listed.{CoverLogged, logged_below, lacks_unlog_bit};

use crate::barrier::is_old;
use heap_layout::{BLOCK_BIT_WORDS, Kind, Layout};
use object_model::Heap;
use side_meta::{BITS_PER_WORD, Words};
use std::alloc::{AllocError, Global};

/// The logged objects, which are old and have a clear unlog bit. By address, each once. It is asked
/// under plans with young objects: under the others a clear bit does not mean that.
///
/// Goes over the start and unlog bits of the blocks in which objects may begin. Reads the collector
/// word of an object only if its unlog bit is clear. Fails if memory runs out.
pub fn logged(alloc: Global, heap: &Heap) -> Result<Vec<u32>, AllocError>
    ensures { IfOk result (λ v. ListsLogged (heap_state heap.now) v.items) }
{
    let mut logged = Vec::new(alloc);
    for block in 0..heap.layout().blocks() {
        add_block(heap, block, &mut logged)?;
    }
    Ok(logged)
}

/// The logged objects, as `logged` lists them, by a flag for each block: set if the block may have
/// logged objects. Looks at flagged blocks alone.
///
/// Fails if memory runs out.
pub fn logged_in_flagged(alloc: Global, heap: &Heap, flags: &[bool]) -> Result<Vec<u32>, AllocError>
    requires { CoverLogged (heap_state heap.now) flags.now }
    ensures { IfOk result (λ v. ListsLogged (heap_state heap.now) v.items) }
{
    let mut logged = Vec::new(alloc);
    for block in 0..heap.layout().blocks() {
        add_if_flagged(heap, flags, block, &mut logged)?;
    }
    Ok(logged)
}

/// Flags for the blocks of a heap of whose logged objects nothing is known: all are set.
pub fn all_flags(alloc: Global, heap: &Heap) -> Result<Vec<bool>, AllocError>
    ensures { IfOk result (λ v. CoverLogged (heap_state heap.now) v.items) }
{
    let blocks = heap.layout().blocks() as usize;
    let mut flags = Vec::with_capacity(alloc, blocks)?;
    for _ in 0..blocks {
        flags.push(true)?;
    }
    Ok(flags)
}

/// Adds the logged objects of a block if it is flagged.
fn add_if_flagged(
    heap: &Heap,
    flags: &[bool],
    block: u32,
    logged: &mut Vec<u32>,
) -> Result<(), AllocError>
    requires flags { CoverLogged (heap_state heap.now) flags.now }
    requires block { block < (heap_state heap.now).blocks }
    requires before { logged.old.items ≡ logged_below (heap_state heap.now)
        (block_start (heap_state heap.now).blocks block) }
    ensures { OnOk result (logged.new.items ≡ logged_below (heap_state heap.now)
        (block_start (heap_state heap.now).blocks (block + 1))) }
{
    if !flags[block as usize] {
        return Ok(());
    }
    add_block(heap, block, logged)
}

/// Adds the logged objects of a block.
fn add_block(heap: &Heap, block: u32, logged: &mut Vec<u32>) -> Result<(), AllocError>
    requires block { block < (heap_state heap.now).blocks }
    requires before { logged.old.items ≡ logged_below (heap_state heap.now)
        (block_start (heap_state heap.now).blocks block) }
    ensures { OnOk result (logged.new.items ≡ logged_below (heap_state heap.now)
        (block_start (heap_state heap.now).blocks (block + 1))) }
{
    if matches!(heap.block(block).kind, Kind::Free | Kind::LargeTail) {
        return Ok(());
    }
    let words = heap.words();
    let from = BLOCK_BIT_WORDS * block;
    let starts = (heap.layout().start_base() + from) as usize;
    let unlogs = (heap.layout().unlog_base() + from) as usize;
    for word in 0..BLOCK_BIT_WORDS {
        let held = words.get(starts + word as usize);
        let bits = held & !words.get(unlogs + word as usize);
        if bits != 0 {
            add_word(heap, from + word, bits, logged)?;
        }
    }
    Ok(())
}

/// Adds the logged objects of the 64 addresses whose bits are in word `index` of start bits, of
/// which `bits` are those without unlog bits. Apart from the loop over words, which is then short.
#[inline(never)]
fn add_word(heap: &Heap, index: u32, bits: u64, logged: &mut Vec<u32>) -> Result<(), AllocError>
    requires index { index < BLOCK_BIT_WORDS * (heap_state heap.now).blocks }
    requires bits { (j : ℕ) → j < BITS_PER_WORD
        → has_bit bits j ≡ lacks_unlog_bit (heap_state heap.now) index j }
    requires before { logged.old.items ≡ logged_below (heap_state heap.now)
        (heap_of (heap_state heap.now).blocks + BITS_PER_WORD * index) }
    ensures { OnOk result (logged.new.items ≡ logged_below (heap_state heap.now)
        (heap_of (heap_state heap.now).blocks + BITS_PER_WORD * index + BITS_PER_WORD)) }
{
    let first = heap.layout().heap_base() + BITS_PER_WORD * index;
    let base = heap.base();
    let mut rest = bits;
    while rest != 0 {
        let bit = rest.trailing_zeros();
        if is_old(heap.words(), base, first + bit) {
            logged.push(first + bit)?;
        }
        rest = without(rest, bit);
    }
    Ok(())
}

/// The start bits of word `index` whose objects have a clear unlog bit.
#[inline(always)]
pub fn starts_without_unlog_bit<W: Words>(words: &W, layout: &Layout, index: u32) -> u64
    requires extent { IsRowOf layout.now (W.words words.now) }
    requires index { index < BLOCK_BIT_WORDS * layout.now.blocks }
    ensures bits { (number base j : ℕ) → j < BITS_PER_WORD → has_bit result j
        ≡ lacks_unlog_bit (state_over (W.words words.now) layout.now number base) index j }
    ensures fits { result < 2 ^ 64 }
{
    let starts = words.get(layout.start_base() + index);
    let unlogs = words.get(layout.unlog_base() + index);
    starts & !unlogs
}

/// The bits without one of them.
#[inline(always)]
pub fn without(bits: u64, bit: u32) -> u64
    requires { bit < BITS_PER_WORD }
    ensures { result ≡ without_bit bits bit }
{
    bits & !(1 << bit)
}
