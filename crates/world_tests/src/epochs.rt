//! Epochs of a heap that mutators fill, as in the model.

ghost use Rattle.std.specs.Prelude.{◌≡◌, ◌<◌, IfOk, false};
ghost use Rattle.object_model.specs.Heaps.{heap_state};
ghost use Rattle.plain_world.specs.Calls.{IsOpen};

use crate::model::{Fill, Lines, Model};
use heap_layout::Kind;
use object_model::Heap;
use plain_world::PlainWorld;
use plan_api::{Plan, block_counts};
use std::alloc::{AllocError, Global};
use std::process::Abort;

// For each line of a block whether it is marked.
fn marked(heap: &Heap, block: u32) -> Lines
    requires { block < (heap_state heap.now).blocks }
{
    let first = heap.layout().line_at(block) as usize;
    let mut lines = [false; 256];
    for (line, bit) in lines.iter_mut().enumerate() {
        let at = first.wrapping_add(line / 64);
        *bit = at < heap.words().len() && heap.words().get(at) >> (line % 64) & 1 == 1;
    }
    lines
}

// A block has no owner, and is Free if and only if it has no object. Under cells it has the class
// of its room, and under lines those are marked that objects touch.
fn is_as_in(model: &Model, heap: &Heap, block: u32) -> bool
    requires { block < (heap_state heap.now).blocks }
{
    let Some(room) = model.rooms.get(block as usize) else {
        return false;
    };
    let kind = match model.fill {
        _ if !room.used => Kind::Free,
        Fill::Tails => Kind::Bump,
        Fill::Cells => Kind::Cells,
        Fill::Lines => Kind::Immix,
    };
    let lines = match model.fill {
        Fill::Lines => model.touched(block as usize),
        _ => [false; 256],
    };
    let word = heap.block(block);
    (word.kind, word.class, word.owner, room.owner) == (kind, room.class, 0, 0)
        && marked(heap, block).as_slice() == lines.as_slice()
        && (model.fill != Fill::Lines || room.listed.as_slice() == lines.as_slice())
}

/// The blocks are as in the model.
pub(crate) fn check_blocks(rt: &impl Abort, heap: &Heap, model: &Model) {
    let blocks = heap.layout().blocks();
    assert!(rt; blocks as usize == model.rooms.len());
    for block in 0..blocks {
        assert!(rt; is_as_in(model, heap, block), "block {block} of {blocks}");
    }
}

/// The next epoch, which goes on with what is known of the blocks or not. Between the two, the
/// blocks are as in the model.
pub(crate) fn next_epoch<P: Plan>(
    rt: &impl Abort,
    alloc: Global,
    world: PlainWorld<P>,
    model: &mut Model,
    keeps: bool,
) -> Result<PlainWorld<P>, AllocError>
    requires ages { P.rules.young ≡ false }
    requires open { IsOpen P.rules world }
    ensures { IfOk result (λ w. IsOpen P.rules w) }
{
    let (heap, mutators, notes) = world.close_with();
    model.close();
    check_blocks(rt, &heap, model);
    assert!(rt; *notes.counts() == block_counts(&heap) && mutators.len() <= 16);
    model.begin(&mutators);
    match keeps {
        true => PlainWorld::<P>::begin_with(alloc, heap, mutators, notes),
        false => PlainWorld::<P>::begin(alloc, heap, mutators),
    }
}
