//! What is read of an object.

ghost use Rattle.std.specs.Prelude.{◌≡◌, ◌+◌, ◌/◌, ◌%◌, ◌<◌, ◌≤◌, ◌^◌, length, slice_index};
ghost use Rattle.object_model.specs.Objects.{size_of};
ghost use Rattle.block_sweeps.specs.WordSweeps.{survives};

use forward_word::{number_of, target_of};
use ideal_heap::{MAX_NUMS, MAX_REFS};
use object_model::{COLLECTOR_OFFSET, NUMS_UNIT, SHAPE_OFFSET, Shape, size_words};
use side_meta::Words;

/// The size in words of the object at the address.
pub fn object_size<W: Words>(words: &W, address: u32) -> u32
    requires word { address + SHAPE_OFFSET < length (W.words words.now) }
    requires index { address + SHAPE_OFFSET < 2 ^ 32 }
    requires refs { slice_index (W.words words.now) (address + SHAPE_OFFSET) % NUMS_UNIT
        ≤ MAX_REFS }
    requires nums { slice_index (W.words words.now) (address + SHAPE_OFFSET) / NUMS_UNIT
        ≤ MAX_NUMS }
    ensures { result
        ≡ size_of (slice_index (W.words words.now) (address + SHAPE_OFFSET) % NUMS_UNIT)
        (slice_index (W.words words.now) (address + SHAPE_OFFSET) / NUMS_UNIT) }
{
    let word = words.get(address + SHAPE_OFFSET);
    size_words(&Shape {
        refs: (word % NUMS_UNIT) as u32,
        nums: (word / NUMS_UNIT) as u32,
    })
}

/// Whether the object at the address lives: collection `base` or a later one claimed it, and it is
/// its own target.
pub(crate) fn lives<W: Words>(words: &W, address: u32, base: u64) -> bool
    requires index { address + COLLECTOR_OFFSET < 2 ^ 32 }
    requires word { address + COLLECTOR_OFFSET < length (W.words words.now) }
    ensures { result ≡ survives (W.words words.now) base address }
{
    let word = words.get(address + COLLECTOR_OFFSET);
    number_of(word) >= base && target_of(word) == address
}
