//! Tests of allocation until a heap is full, under plans that fill tails, cells and lines.

ghost use Rattle.std.specs.Prelude.{◌≡◌, IfOk, false};
ghost use Rattle.plain_world.specs.Calls.{IsOpen};

use crate::epochs::next_epoch;
use crate::filling::fill;
use crate::model::{Fill, Model};
use crate::recycling::{Kept, recycled_epoch};
use crate::worlds::new_world;
use plain_world::PlainWorld;
use plan_api::Plan;
use plans::{Immix, MarkSweep, NoGc};
use std::alloc::Global;
use std::process::Abort;
use std::test::Fail;
use std::thread::Threads;

// So many objects of each mutator fill any of these heaps.
const UNTIL_FULL: u32 = 3_000;

const EACH_THIRD: Option<Kept> = Some(Kept { of: 3, first: 1 });

const SOME_IN_A_ROW: Option<Kept> = Some(Kept { of: 16, first: 4 });

// An epoch: how many objects each mutator allocates at most, their sizes in turns, or none for all
// sizes in no order, and what a collection after it keeps, if one is made.
type Epoch = (u32, &'static [u32], Option<Kept>);

// A heap of so many blocks that so many mutators fill.
struct Setting {
    fill: Fill,
    blocks: u32,
    count: u32,
    epochs: &'static [Epoch],
}

// First each mutator allocates at most one object, and one is large. Then objects lie in the tails
// or cells that the others left.
const TAILS: [Epoch; 4] = [
    (1, &[60, 700, 2049, 2048], None),
    (UNTIL_FULL, &[60, 700, 1500, 2048], None),
    (UNTIL_FULL, &[7, 130, 33, 1024], None),
    (UNTIL_FULL, &[], None),
];

const MORE_TAILS: [Epoch; 8] = [
    (2, &[700, 1500, 60], None),
    (3, &[2048, 900, 33], None),
    (UNTIL_FULL, &[2048, 2047, 1900], None),
    (UNTIL_FULL, &[1200, 700, 1300], None),
    (0, &[], None),
    (UNTIL_FULL, &[700, 130, 33], None),
    (UNTIL_FULL, &[2048, 1000, 700], None),
    (UNTIL_FULL, &[40, 9, 7], None),
];

const CELLS: [Epoch; 5] = [
    (1, &[5, 700, 2049, 1500], None),
    (UNTIL_FULL, &[64, 700, 1500, 2048], None),
    (UNTIL_FULL, &[49, 513, 6, 1025], None),
    (UNTIL_FULL, &[64, 1024, 33, 768], None),
    (UNTIL_FULL, &[], None),
];

// Blocks are recycled, with holes of some lines or of many.
const LINES: [Epoch; 9] = [
    (5, &[], None),
    (UNTIL_FULL, &[], EACH_THIRD),
    (UNTIL_FULL, &[], SOME_IN_A_ROW),
    (20, &[], None),
    (UNTIL_FULL, &[], None),
    (60, &[], EACH_THIRD),
    (7, &[], SOME_IN_A_ROW),
    (UNTIL_FULL, &[], None),
    (UNTIL_FULL, &[], None),
];

// One mutator, and several that share blocks in turns.
const SETTINGS: [Setting; 6] = [
    Setting {
        fill: Fill::Tails,
        blocks: 20,
        count: 16,
        epochs: &TAILS,
    },
    Setting {
        fill: Fill::Tails,
        blocks: 8,
        count: 3,
        epochs: &MORE_TAILS,
    },
    Setting {
        fill: Fill::Cells,
        blocks: 8,
        count: 5,
        epochs: &CELLS,
    },
    Setting {
        fill: Fill::Lines,
        blocks: 4,
        count: 1,
        epochs: &LINES,
    },
    Setting {
        fill: Fill::Lines,
        blocks: 8,
        count: 2,
        epochs: &LINES,
    },
    Setting {
        fill: Fill::Lines,
        blocks: 40,
        count: 5,
        epochs: &LINES,
    },
];

// The next epoch, after a collection that keeps these objects, or none.
fn follow<P: Plan, R: Abort + Threads + Sync>(
    rt: &R,
    alloc: Global,
    world: PlainWorld<P>,
    model: &mut Model,
    kept: Option<Kept>,
    keeps: bool,
) -> Result<PlainWorld<P>, Fail>
    requires ages { P.rules.young ≡ false }
    requires open { IsOpen P.rules world }
    ensures { IfOk result (λ w. IsOpen P.rules w) }
{
    match kept {
        None => Ok(next_epoch(rt, alloc, world, model, keeps)?),
        Some(kept) => recycled_epoch(rt, alloc, world, model, kept),
    }
}

// Runs the epochs of a heap. Where no collection was made the next one goes on with what is known
// of the blocks, or not. Returns the words of the heap at the end.
fn run<P: Plan, R: Abort + Threads + Sync>(
    rt: &R,
    alloc: Global,
    setting: &Setting,
    keeps: bool,
) -> Result<Vec<u64>, Fail>
    requires { P.rules.young ≡ false }
{
    let mut model = Model::new(alloc, setting.fill, setting.blocks)?;
    let mut world = new_world::<P>(rt, alloc, setting.blocks, setting.count)?;
    model.begin(world.mutators());
    let mut state = setting.blocks;
    for (most, sizes, kept) in setting.epochs {
        let full = fill(
            rt,
            &mut world,
            &mut model,
            setting.count,
            *most,
            sizes,
            &mut state,
        )?;
        assert!(rt; full || *most < UNTIL_FULL, "{most} of {sizes:?}");
        world = follow(rt, alloc, world, &mut model, *kept, keeps)?;
    }
    assert!(rt; model.are_apart());
    let (heap, _mutators) = world.close();
    Ok(heap.words().to_vec(alloc)?)
}

fn run_under_plan<R: Abort + Threads + Sync>(
    rt: &R,
    alloc: Global,
    setting: &Setting,
    keeps: bool,
) -> Result<Vec<u64>, Fail> {
    match setting.fill {
        Fill::Tails => run::<NoGc, R>(rt, alloc, setting, keeps),
        Fill::Cells => run::<MarkSweep, R>(rt, alloc, setting, keeps),
        Fill::Lines => run::<Immix, R>(rt, alloc, setting, keeps),
    }
}

// The heap is the same with what is known of the blocks and without.
#[test]
fn mutators_fill_blocks(rt: HostRuntime) -> Result<(), Fail> {
    let alloc = rt.alloc();
    for setting in &SETTINGS {
        let words = run_under_plan(&rt, alloc, setting, true)?;
        assert!(rt; words == run_under_plan(&rt, alloc, setting, false)?);
    }
    Ok(())
}
