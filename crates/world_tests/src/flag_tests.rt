//! Tests of the flags of blocks: which are set, and the list of the logged objects by them.

ghost use Rattle.std.specs.Prelude.{◌≡◌, IfOk, true};
ghost use Rattle.object_model.specs.Heaps.{heap_state};
ghost use Rattle.sessions.specs.Collecting.{Remembers};
ghost use Rattle.block_regions.specs.Notes.{AreNotes, FlagsCover};
ghost use Rattle.write_barrier.specs.Listed.{CoverLogged};
ghost use Rattle.plain_world.specs.Calls.{IsOpen};

use crate::ages::stop;
use crate::worlds::{new_world, reply_to};
use ideal_heap::Command;
use mutator_calls::Mutator;
use object_model::Heap;
use plain_world::{BlockNotes, PlainWorld, may_use};
use plan_api::Plan;
use plans::{GenCopy, StickyImmix};
use std::alloc::Global;
use std::process::Abort;
use std::test::Fail;
use std::thread::Threads;
use write_barrier::{all_flags, logged, logged_in_flagged};

// An object of 1,000 words before the list in register 0, which becomes the list: four to a block.
const ADD: [Command; 3] = [
    Command::New {
        d: 1,
        refs: 2,
        nums: 995,
    },
    Command::Put { s: 1, i: 0, v: 0 },
    Command::Move { d: 0, s: 1 },
];

// A step along the list of register 2.
const NEXT: Command = Command::Get { d: 2, s: 2, i: 0 };

// A store into the object of register 2.
const STORE: Command = Command::Put { s: 2, i: 1, v: 0 };

// Commands in an epoch, and how many flags are set at its end.
const EPOCHS: [(&[Command], usize); 7] = [
    (&[], 0),
    // Into a young object.
    (
        &[
            Command::New {
                d: 3,
                refs: 1,
                nums: 0,
            },
            Command::Put { s: 3, i: 0, v: 0 },
        ],
        0,
    ),
    (&[Command::Move { d: 2, s: 0 }, STORE], 1),
    // Another object of the block, and one again.
    (&[NEXT, STORE, STORE], 1),
    (&[NEXT, NEXT, NEXT, STORE], 2),
    // None is stored into.
    (&[NEXT, NEXT, NEXT, NEXT], 2),
    (&[STORE], 3),
];

fn call_all<P: Plan>(rt: &impl Abort, world: &mut PlainWorld<P>, commands: &[Command])
    requires { IsOpen P.rules world.old }
    ensures { IsOpen P.rules world.new }
{
    for command in commands {
        let _reply = reply_to(rt, world, 0, command);
    }
}

// What is known of a heap in which no object is logged.
fn unflagged<P: Plan>(rt: &impl Abort, alloc: Global, heap: &Heap) -> Result<BlockNotes, Fail>
    ensures notes { IfOk result (λ n. AreNotes P.rules.fill (heap_state heap.now) n) }
    ensures flags { IfOk result (λ n. FlagsCover P.rules (heap_state heap.now) n.flags.items) }
{
    let found = logged(alloc, heap)?;
    let count = found.len();
    if count != 0 {
        panic!(rt; "{count} logged objects");
    }
    let notes = BlockNotes::new_unflagged(alloc, heap)?;
    Ok(notes)
}

// The next epoch of a heap in which no object is logged.
fn begin_unflagged<P: Plan>(
    rt: &impl Abort,
    alloc: Global,
    heap: Heap,
    mutators: Vec<Mutator>,
) -> Result<PlainWorld<P>, Fail>
    requires { Remembers P.rules (heap_state heap) }
    ensures { IfOk result (λ w. IsOpen P.rules w) }
{
    assert!(rt; mutators.len() <= 16 && may_use(&heap, &mutators));
    let notes = unflagged::<P>(rt, alloc, &heap)?;
    Ok(PlainWorld::<P>::begin_with(alloc, heap, mutators, notes)?)
}

// The list of the logged objects over flagged blocks is that over all. The flags are those of the
// blocks with logged objects. Returns how many are set.
fn check_flags(rt: &impl Abort, alloc: Global, heap: &Heap, flags: &[bool]) -> Result<usize, Fail>
    requires { CoverLogged (heap_state heap.now) flags.now }
{
    let all = logged(alloc, heap)?;
    let found = logged_in_flagged(alloc, heap, flags)?;
    let every = logged_in_flagged(alloc, heap, &all_flags(alloc, heap)?)?;
    assert!(rt; found.as_slice() == all.as_slice() && every.as_slice() == all.as_slice());
    let base = heap.layout().heap_base();
    let mut count = 0usize;
    for (block, flag) in flags.iter().enumerate() {
        let has = all
            .iter()
            .any(|a| (a.wrapping_sub(base) / 4096) as usize == block);
        assert_eq!(rt; *flag, has, "block {block}");
        count = count.wrapping_add(*flag as usize);
    }
    Ok(count)
}

// The next epoch, with what is known of the blocks. So many flags are set.
fn next_epoch<P: Plan>(
    rt: &impl Abort,
    alloc: Global,
    world: PlainWorld<P>,
    want: usize,
) -> Result<PlainWorld<P>, Fail>
    requires open { IsOpen P.rules world }
    requires young { P.rules.young ≡ true }
    ensures { IfOk result (λ w. IsOpen P.rules w) }
{
    let (heap, mutators, notes) = world.close_with();
    let count = check_flags(rt, alloc, &heap, &notes.flags)?;
    assert_eq!(rt; count, want);
    assert!(rt; mutators.len() <= 16);
    Ok(PlainWorld::<P>::begin_with(alloc, heap, mutators, notes)?)
}

// Stores into a collected list of 12 objects in three blocks, epoch by epoch.
fn check_epochs<P: Plan, R: Abort + Threads + Sync>(rt: &R, alloc: Global) -> Result<(), Fail>
    requires collects { P.rules.collects ≡ true }
    requires young { P.rules.young ≡ true }
{
    let mut world = new_world::<P>(rt, alloc, 16, 1)?;
    for _ in 0..12 {
        call_all(rt, &mut world, &ADD);
    }
    let (heap, mut mutators) = world.close();
    let heap = stop::<P, R>(rt, alloc, heap, &mut mutators, true)?;
    let mut world = begin_unflagged::<P>(rt, alloc, heap, mutators)?;
    for (commands, want) in EPOCHS {
        call_all(rt, &mut world, commands);
        world = next_epoch(rt, alloc, world, want)?;
    }
    Ok(())
}

#[test]
fn stores_flag_the_blocks_of_old_objects(rt: HostRuntime) -> Result<(), Fail> {
    check_epochs::<GenCopy, HostRuntime>(&rt, rt.alloc())?;
    check_epochs::<StickyImmix, HostRuntime>(&rt, rt.alloc())
}
