//! Tests of what plans evacuate, on heaps that a mutator built.

use crate::heaps::build;
use ideal_heap::Command;
use object_model::{Collect, Heap};
use plan_api::Plan;
use plans::{NoGc, SemiSpace};
use std::process::Abort;
use std::test::Fail;

// Whether a collection that evacuates the blocks in `from` may move an object.
fn moves<P: Plan>(rt: &impl Abort, heap: &Heap, from: &[bool], address: u32) -> bool {
    assert!(rt; heap.layout().heap_base() <= address);
    assert!(rt; address < heap.layout().words());
    assert!(rt; heap.held(address));
    assert!(rt; from.len() == heap.layout().blocks() as usize);
    P::may_move(heap, from, address)
}

/// Two objects fill block 0, at 806 and 2854, and one lies in block 1, at 4902. The second one is
/// pinned.
const COMMANDS: &[Command] = &[
    Command::New {
        d: 0,
        refs: 0,
        nums: 2045,
    },
    Command::New {
        d: 1,
        refs: 0,
        nums: 2045,
    },
    Command::New {
        d: 2,
        refs: 0,
        nums: 0,
    },
    Command::Pin { s: 1 },
];

#[test]
fn evacuated_blocks(rt: HostRuntime) -> Result<(), Fail> {
    let alloc = rt.alloc();
    let heap = build(&rt, alloc, 4, COMMANDS, 3)?.heap;
    let from = SemiSpace::from_blocks(alloc, &heap, Collect::Full)?;
    let used = [true, true, false, false];
    assert_eq!(rt; from.as_slice(), used.as_slice());
    let from = NoGc::from_blocks(alloc, &heap, Collect::Full)?;
    assert_eq!(rt; from.as_slice(), [false; 4].as_slice());
    let first = [true, false, false, false];
    for (from, address, moved) in [
        (used, 806, true),
        (used, 2854, false),
        (used, 4902, true),
        (first, 806, true),
        (first, 4902, false),
    ] {
        let may_move = moves::<SemiSpace>(&rt, &heap, &from, address);
        assert_eq!(rt; may_move, moved, "from {from:?} at {address}");
        assert!(rt; !moves::<NoGc>(&rt, &heap, &from, address));
    }
    Ok(())
}
