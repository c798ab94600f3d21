//! Rows of words that are written by hand, for tests of sweeps and of plans.

ghost use Rattle.std.specs.Prelude.{◌≡◌, ◌+◌, ◌<◌, ◌≤◌, length, IfOk};
ghost use Rattle.heap_layout.specs.Zones.{row_words, first, IsAddress, IsRowOf};
ghost use Rattle.heap_layout.specs.Zones.Zone.{UnlogBits};
ghost use Rattle.heap_layout.specs.declared.layout.TheConstants.{BLOCK_WORDS};
ghost use Rattle.object_model.specs.declared.shape.TheConstants.{HEADER_WORDS};

use heap_layout::{BLOCK_WORDS, CLASS_UNIT, Kind, Layout};
use object_model::{COLLECTOR_OFFSET, HEADER_WORDS, NUMS_UNIT, SHAPE_OFFSET, Shape};
use side_meta::{BITS_PER_WORD, Words, set_bit};
use std::alloc::{AllocError, Global};

/// An object of mutator 1 as it lies in a block.
#[derive(Clone, Copy)]
pub struct Object {
    /// Where it begins, in words from the start of its block.
    pub offset: u32,
    /// The number of its birth.
    pub birth: u32,
    /// How many references and numbers it has.
    pub shape: Shape,
    /// Its collector word.
    pub collector: u64,
    /// Whether its pin bit is set.
    pub pinned: bool,
    /// Whether its unlog bit is set.
    pub unlogged: bool,
    pub ghost inside: { offset + HEADER_WORDS ≤ BLOCK_WORDS },
}

/// An object without references that no collection has claimed, with no pin and no unlog bit. Its
/// number of birth is its offset and 1.
pub fn plain_object(offset: u32, nums: u32) -> Object
    requires { offset + HEADER_WORDS ≤ BLOCK_WORDS }
    ensures { result.offset ≡ offset }
{
    Object {
        offset,
        birth: offset + 1,
        shape: Shape { refs: 0, nums },
        collector: 0,
        pinned: false,
        unlogged: false,
    }
}

/// The row of an empty heap.
pub fn empty_row(alloc: Global, layout: &Layout) -> Result<Vec<u64>, AllocError>
    ensures { IfOk result (λ words. length words.items ≡ row_words layout.now.blocks) }
{
    let count = layout.words() as usize;
    let mut words = Vec::with_capacity(alloc, count)?;
    words.resize(count, 0)?;
    Ok(words)
}

/// Sets the word of a block without an owner.
pub fn set_block(words: &mut Vec<u64>, layout: &Layout, block: u32, kind: Kind, class: u32)
    requires extent { IsRowOf layout.now words.old.items }
    requires block { block < layout.now.blocks }
    ensures { length words.new.items ≡ length words.old.items }
{
    words.set(
        layout.block_at(block),
        kind as u64 + CLASS_UNIT * class as u64,
    );
}

/// Writes the header of an object, and sets its start bit and those of its pin and unlog bits that
/// are to be set.
pub fn write_object(words: &mut Vec<u64>, layout: &Layout, block: u32, object: &Object)
    requires extent { IsRowOf layout.now words.old.items }
    requires block { block < layout.now.blocks }
    ensures { length words.new.items ≡ length words.old.items }
{
    let address = layout.address(block, object.offset);
    words.set(address, 32 * object.birth as u64 + 1);
    let shape = object.shape;
    words.set(
        address + SHAPE_OFFSET,
        shape.refs as u64 + NUMS_UNIT * shape.nums as u64,
    );
    words.set(address + COLLECTOR_OFFSET, object.collector);
    set_bit_of(words, layout, layout.start_base(), address);
    if object.pinned {
        set_bit_of(words, layout, layout.pin_base(), address);
    }
    if object.unlogged {
        set_bit_of(words, layout, layout.unlog_base(), address);
    }
}

/// Sets the bit of an address in the zone of bits that begins at word `zone`.
pub fn set_bit_of(words: &mut Vec<u64>, layout: &Layout, zone: u32, address: u32)
    requires extent { IsRowOf layout.now words.old.items }
    requires zone { zone ≤ first layout.now.blocks UnlogBits }
    requires address { IsAddress layout.now.blocks address }
    ensures { length words.new.items ≡ length words.old.items }
{
    let bit = address - layout.heap_base();
    set_bit(words, zone + bit / BITS_PER_WORD, bit % BITS_PER_WORD);
}
