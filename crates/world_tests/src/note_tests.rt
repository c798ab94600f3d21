//! Tests of what is known of the blocks of a heap.

ghost use Rattle.object_model.specs.Heaps.{heap_state};
ghost use Rattle.block_regions.specs.Notes.{AreNotes, FillsHoles};

use crate::worlds::{allocate, new_world};
use heap_layout::Kind;
use object_model::Heap;
use plain_world::BlockNotes;
use plan_api::{Plan, block_counts};
use plans::{MarkSweep, NoGc};
use std::alloc::Global;
use std::process::Abort;
use std::test::Fail;

// A size, and the block and the offset of the lowest hole with room for it.
type Row = (u32, Option<(u32, u32)>);

// Block 0 has 96 words left, block 1 none, block 2 3,996, and block 3 is Free.
const TAILS: [u32; 5] = [2000, 2000, 2048, 2048, 100];

const TAIL_HOLES: [Row; 5] = [
    (96, Some((0, 4000))),
    (97, Some((2, 100))),
    (3, Some((0, 4000))),
    (2048, Some((2, 100))),
    (4, Some((0, 4000))),
];

// Block 0 has 96 words left, block 2 45 words, and the others none.
const FULL: [u32; 9] = [2000, 2000, 2048, 2048, 100, 2048, 1903, 2048, 2048];

const FULL_HOLES: [Row; 3] = [(97, None), (45, Some((0, 4000))), (2048, None)];

// Block 0 has one of two cells taken, block 1 all, block 2 three of 64, and block 3 is Free.
const CELLS: [u32; 8] = [1537, 1024, 1024, 1024, 1024, 64, 64, 64];

const CELL_HOLES: [Row; 9] = [
    (2048, Some((0, 2048))),
    (1025, None),
    (1024, None),
    (769, None),
    (64, Some((2, 192))),
    (65, None),
    (49, Some((2, 192))),
    (48, None),
    (1600, Some((0, 2048))),
];

// The lowest holes for sizes, each asked for twice.
fn check_holes(rt: &impl Abort, notes: &mut BlockNotes, heap: &Heap, fill: Kind, table: &[Row])
    requires fills { FillsHoles fill }
    requires notes { AreNotes fill (heap_state heap.now) notes.old }
    ensures { AreNotes fill (heap_state heap.now) notes.new }
{
    for (size, want) in table {
        assert!(rt; 3 <= *size && *size <= 2048);
        let first = notes.lowest_hole(heap, fill, *size);
        let second = notes.lowest_hole(heap, fill, *size);
        assert!(rt; (first, second) == (*want, *want), "for {size} words");
    }
}

// The heap of 4 blocks in which a mutator allocated objects of these sizes.
fn heap_with<P: Plan>(rt: &impl Abort, alloc: Global, sizes: &[u32]) -> Result<Heap, Fail> {
    let mut world = new_world::<P>(rt, alloc, 4, 1)?;
    for size in sizes {
        allocate(rt, &mut world, 0, 0, 0, size.saturating_sub(3));
    }
    let (heap, _mutators) = world.close();
    Ok(heap)
}

// The lowest holes and the lowest Free block are these. An object that is placed in the Free block
// takes it, and one that is placed in a hole does not.
fn check_notes(
    rt: &impl Abort,
    alloc: Global,
    heap: &Heap,
    fill: Kind,
    table: &[Row],
    free: Option<u32>,
) -> Result<(), Fail>
    requires { FillsHoles fill }
{
    let mut notes = BlockNotes::new(alloc, heap)?;
    check_holes(rt, &mut notes, heap, fill, table);
    let found = notes.lowest_free(heap);
    notes.placed_in(2, false);
    let counts = *notes.counts();
    notes.placed_in(3, true);
    let left = notes.counts().free;
    assert!(rt; (found, counts, left) == (free, block_counts(heap), 0));
    Ok(())
}

#[test]
fn lowest_places(rt: HostRuntime) -> Result<(), Fail> {
    let alloc = rt.alloc();
    for (sizes, table, free) in [
        (TAILS.as_slice(), TAIL_HOLES.as_slice(), Some(3)),
        (FULL.as_slice(), FULL_HOLES.as_slice(), None),
    ] {
        let heap = heap_with::<NoGc>(&rt, alloc, sizes)?;
        check_notes(&rt, alloc, &heap, Kind::Bump, table, free)?;
    }
    let heap = heap_with::<MarkSweep>(&rt, alloc, &CELLS)?;
    check_notes(&rt, alloc, &heap, Kind::Cells, &CELL_HOLES, Some(3))
}
