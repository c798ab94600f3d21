//! Tests of the plan Immix on heaps of 4 blocks. In these, block words begin at word 18, line words
//! at 22, start bits at 38, and block 0 at word 806.

ghost use Rattle.std.specs.Prelude.{◌≡◌};
ghost use Rattle.heap_layout.specs.declared.block.Kind.TheVariants as kinds;
ghost use Rattle.object_model.specs.Objects.{state_of};
ghost use Rattle.object_model.specs.WorkedHeaps.{one_block, with_lines, with_first_object};

use crate::searches::take;
use heap_layout::{BlockWord, Kind, Layout};
use object_model::{Collect, Heap, Row, lawful_heaps};
use plan_api::Plan;
use plans::Immix;
use std::alloc::{AllocError, Global};
use std::process::Abort;
use std::test::Fail;

/// The row with an object of 23 words at the start of block 0, and its two lines marked.
fn with_object(mut row: Row) -> Row
    requires { state_of row ≡ one_block kinds.Immix 0 }
    ensures { state_of result
        ≡ with_first_object (with_lines (one_block kinds.Immix 0) 3) 20 }
{
    row.words.set(22, 3);
    row.words.set(38, 1);
    row.words.set(806, 33);
    row.words.set(807, 65_536 * 20);
    row
}

/// A heap whose block 0 is an Immix block, with an object of 23 words at its start.
fn heap_of_lines(alloc: Global, layout: Layout) -> Result<Heap, AllocError>
    requires { layout.blocks ≡ 4 }
{
    lawful_heaps();
    let mut row = Heap::new(alloc, layout)?.into_row();
    row.set_block(
        0,
        &BlockWord {
            kind: Kind::Immix,
            class: 0,
            owner: 0,
        },
    );
    Ok(Heap::from_row(with_object(row)))
}

/// Whether the object of block 0 may move if these blocks are evacuated, or `None` if it has none.
fn moves(heap: &Heap, from: &[bool]) -> Option<bool> {
    if heap.layout().blocks() != 4 {
        return None;
    }
    if from.len() != 4 {
        return None;
    }
    if !heap.held(806) {
        return None;
    }
    Some(Immix::may_move(heap, from, 806))
}

/// Whether this is the allowance, and whether objects of 3, 2,048, 2,049 and 8,193 words fit as
/// they should, which need a hole or a block, a block, and three blocks.
fn asks(heap: &Heap, allowance: u32, fit: [bool; 4]) -> bool {
    let seen = [
        Immix::fits(heap, 3),
        Immix::fits(heap, 2048),
        Immix::fits(heap, 2049),
        Immix::fits(heap, 8193),
    ];
    Immix::allowance(heap) == allowance && seen == fit
}

/// Whether a full collection comes first, which evacuates block 0 or no block.
fn evacuates(alloc: Global, heap: &Heap, first: bool) -> Result<bool, AllocError> {
    let from = Immix::from_blocks(alloc, heap, Collect::Full)?;
    let is_wanted = from.as_slice() == [first, false, false, false].as_slice();
    Ok(is_wanted && Immix::kind(heap) == Collect::Full)
}

/// The blocks of a heap are taken one after another. With `lines` a hole is left at the end, and
/// block 0 is evacuated as long as some block is Free.
fn take_all(rt: &impl Abort, alloc: Global, mut heap: Heap, lines: bool) -> Result<(), AllocError> {
    for (block, allowance) in [(0, 2), (1, 1), (2, 0), (3, 0)] {
        heap = take(heap, block);
        let fit = [lines || block < 2, lines || block < 2, block < 2, false];
        assert!(rt;
            asks(&heap, allowance, fit) && evacuates(alloc, &heap, lines && block < 3)?,
            "{block}"
        );
    }
    Ok(())
}

// Of an empty heap, and of one whose block 0 has two marked lines.
#[test]
fn taken_blocks(rt: HostRuntime) -> Result<(), Fail> {
    take_all(
        &rt,
        rt.alloc(),
        Heap::new(rt.alloc(), Layout::new(4)?)?,
        false,
    )?;
    let lines = heap_of_lines(rt.alloc(), Layout::new(4)?)?;
    let first = moves(&lines, &[true, false, false, false]);
    let others = moves(&lines, &[false, true, true, true]);
    assert!(rt; first == Some(true) && others == Some(false));
    take_all(&rt, rt.alloc(), lines, true)?;
    Ok(())
}
