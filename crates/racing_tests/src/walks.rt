//! A walk over a stopped heap.

ghost use Rattle.std.specs.Prelude.{◌+◌, ◌<◌, ◌≤◌};
ghost use Rattle.object_model.specs.Heaps.{heap_state};

use heap_layout::BLOCK_WORDS;
use object_model::{Heap, Shape, size_words};
use plan_api::{Plan, has_hole};
use std::alloc::Global;
use std::process::Abort;
use std::test::Fail;

// More births than a mutator has.
const BIRTHS: usize = 32_768;

// Places in a table of names: for 16 mutators, whose numbers begin at 1.
const NAMES: usize = 557_056;

// Objects that were met, by their names, and where the last one ends.
#[derive(Drop)]
struct Met {
    names: Vec<bool>,
    end: u32,
}

// Meets the object at the address, if one begins there: its name is new, and it begins where the
// last one ends or later.
fn meet(rt: &impl Abort, heap: &Heap, met: &mut Met, address: u32) {
    assert!(rt; address >= heap.layout().heap_base() && address < heap.layout().words());
    if !heap.held(address) {
        return;
    }
    let name = heap.name_at(address);
    let place = (name.mutator as usize)
        .wrapping_mul(BIRTHS)
        .wrapping_add(name.birth as usize);
    assert!(rt; place < met.names.len() && (name.birth as usize) < BIRTHS);
    assert!(rt; !met.names[place] && address >= met.end);
    met.names[place] = true;
    met.end = address.wrapping_add(size_words(&heap.shape_at(address)));
}

// Meets the objects of a block.
fn meet_block(rt: &impl Abort, heap: &Heap, met: &mut Met, block: u32)
    requires { block < (heap_state heap.now).blocks }
{
    for offset in 0..BLOCK_WORDS {
        let address = heap.layout().address(block, offset);
        meet(rt, heap, met, address);
    }
}

/// No two objects of the heap have one name, and none overlaps another.
pub(crate) fn check_walk(rt: &impl Abort, alloc: Global, heap: &Heap) -> Result<(), Fail> {
    let mut met = Met {
        names: vec![in alloc; false; NAMES]?,
        end: 0,
    };
    for block in 0..heap.layout().blocks() {
        meet_block(rt, heap, &mut met, block);
    }
    Ok(())
}

/// No room is left for an object of the shape but large blocks' and those kept in reserve.
pub(crate) fn check_full<P: Plan>(rt: &impl Abort, heap: &Heap, shape: &Shape)
    requires refs { shape.now.refs ≤ 8 }
    requires size { shape.now.refs + shape.now.nums ≤ 2045 }
{
    assert!(rt; !has_hole(heap, P::alloc_kind(), size_words(shape)));
    assert!(rt; P::allowance(heap) == 0);
}
