//! Mutators on threads that allocate: until no block has room, and a few objects in each epoch.

ghost use Rattle.std.specs.Prelude.{◌≡◌, ◌+◌, ◌<◌, ◌≤◌, All, IfOk, length, map, true};
ghost use Rattle.std.specs.Thread.{IsSync};
ghost use Rattle.object_model.specs.Graphs.{numbers_of};
ghost use Rattle.racing_mutator.specs.RacingSeats.{MayCall};
ghost use Rattle.racing_world.specs.Answers.{births_of};
ghost use Rattle.racing_world.specs.Calls.{epoch_of_world, number_of};

use crate::walks::{check_full, check_walk};
use crate::worlds::{MOST, SHARED, closed, new_world, number, opened_again, plain_world};
use mutator_calls::Allocated;
use mutator_rule::MutatorSeat;
use object_model::Shape;
use plan_api::{Plan, block_counts};
use plans::{GenCopy, Immix, MarkSweep, NoGc, SemiSpace, StickyImmix};
use racing_world::World;
use std::alloc::Global;
use std::process::Abort;
use std::test::Fail;
use std::thread::{Threads, for_each_mut};

/// The register of a mutator's new object.
pub(crate) const NEW: u32 = 3;

/// The number of the shared object that counts objects.
pub(crate) const MADE: u32 = 1;

// The one that counts errors.
const ERRORS: u32 = 2;

/// How many numbers it has.
pub(crate) const NUMS: u32 = 3;

// How often the blocks are filled.
const ROUNDS: u32 = 10;

// What a mutator stores into its objects, but for its number.
const GIFT: u64 = 55_000;

// The objects that a mutator allocates in each of many epochs, the epochs of a heap, and the heaps
// of each plan: 10,080 epochs.
const FEW: u32 = 2;

const EPOCHS: u32 = 210;

const HEAPS: u32 = 4;

// Allocates an object. Whether there was room.
fn make_one<P: Plan>(world: &World<P>, seat: &mut MutatorSeat, shape: &Shape) -> bool
    requires call { MayCall P.rules world.now.row seat.old }
    requires few { births_of seat.old < MOST }
    requires refs { shape.now.refs ≤ 8 }
    requires size { shape.now.refs + shape.now.nums ≤ 2045 }
    ensures call { MayCall P.rules world.now.row seat.new }
    ensures number { number_of seat.new ≡ number_of seat.old }
{
    match world.new_object(seat, NEW, shape.refs, shape.nums) {
        Allocated::Made(_) => true,
        Allocated::Stop(_) => false,
    }
}

/// Allocates objects, at most so many, until the mutator is to stop. Stores a number into each.
pub(crate) fn fill<P: Plan>(world: &World<P>, seat: &mut MutatorSeat, shape: &Shape, most: u32)
    requires call { MayCall P.rules world.now.row seat.old }
    requires refs { shape.now.refs ≤ 8 }
    requires size { shape.now.refs + shape.now.nums ≤ 2045 }
    ensures call { MayCall P.rules world.now.row seat.new }
    ensures number { number_of seat.new ≡ number_of seat.old }
{
    let gift = seat.number() as u64 + GIFT;
    for _ in 0..most {
        if seat.births() >= MOST {
            return;
        }
        if !make_one(world, seat, shape) {
            return;
        }
        world.write(seat, NEW, 0, gift);
        let kept = number(world, seat, NEW, 0) == gift;
        world.add(seat, SHARED, if kept { MADE } else { ERRORS }, 1);
    }
}

// Each mutator fills blocks, on a thread of its own where one can be started.
fn fill_together<P: Plan + Sync, R: Threads + Sync>(
    rt: &R,
    world: &World<P>,
    seats: &mut [MutatorSeat],
    shape: &Shape,
    most: u32,
)
    requires calls { All (MayCall P.rules world.now.row) seats.old }
    requires some { 0 < length seats.old }
    requires refs { shape.now.refs ≤ 8 }
    requires size { shape.now.refs + shape.now.nums ≤ 2045 }
    ensures calls { All (MayCall P.rules world.now.row) seats.new }
    ensures all { map number_of seats.new ≡ map number_of seats.old }
{
    let threads = seats.len();
    for_each_mut(
        rt,
        seats,
        threads,
        &|_: usize, seat: &mut MutatorSeat|
            requires { IsSync P.row × MayCall P.rules world.now.row seat.old
                × (shape.now.refs ≤ 8) × (shape.now.refs + shape.now.nums ≤ 2045) }
            ensures { MayCall P.rules world.entry.now.row seat.new
                × (number_of seat.new ≡ number_of seat.old) }
        {
            fill(world, seat, shape, most);
        },
    );
}

// The blocks of a heap as an epoch begins: how many Free ones the mutators may take, and how many
// are Free.
#[derive(Drop)]
struct Room {
    limit: u32,
    free: u32,
}

/// The number of objects that the mutators of the seats have allocated.
pub(crate) fn births(seats: &Vec<MutatorSeat>) -> u64 {
    let mut sum: u64 = 0;
    for m in 0..seats.len() {
        sum = sum.wrapping_add(seats[m].births() as u64);
    }
    sum
}

// A world of `count` mutators, as `plain_world` has them, and the blocks of its heap.
fn begun<P: Plan>(
    rt: &impl Abort,
    alloc: Global,
    count: u32,
) -> Result<(World<P>, Vec<MutatorSeat>, Room), Fail>
    ensures calls { IfOk result (λ r. All (MayCall P.rules r.0.row) r.1.items) }
    ensures all { IfOk result (λ r. map number_of r.1.items
        ≡ numbers_of (epoch_of_world P.rules r.0).mutators) }
{
    let plain = plain_world::<P>(rt, alloc, count, NUMS)?;
    let (heap, mutators) = plain.close();
    let room = Room {
        limit: P::allowance(&heap),
        free: block_counts(&heap).free,
    };
    assert!(rt; mutators.len() > 0 && mutators.len() <= 16);
    let (world, seats) = World::begin(alloc, heap, mutators)?;
    Ok((world, seats, room))
}

// Whether the shared object counts this many objects, and no error.
fn counts<P: Plan>(world: &World<P>, seat: &mut MutatorSeat, made: u64) -> bool
    requires { MayCall P.rules world.now.row seat.old }
    ensures call { MayCall P.rules world.now.row seat.new }
    ensures number { number_of seat.new ≡ number_of seat.old }
{
    number(world, seat, SHARED, MADE) == made && number(world, seat, SHARED, ERRORS) == 0
}

/// The same, as a mutator reads it.
pub(crate) fn check_counts<P: Plan>(
    rt: &impl Abort,
    world: &World<P>,
    seats: &mut Vec<MutatorSeat>,
    made: u64,
)
    requires calls { All (MayCall P.rules world.now.row) seats.old.items }
    ensures calls { All (MayCall P.rules world.now.row) seats.new.items }
    ensures numbers { map number_of seats.new.items ≡ map number_of seats.old.items }
{
    assert!(rt; seats.len() > 0);
    assert!(rt; counts(world, &mut seats[0], made));
}

// The mutators take as many Free blocks as they may, and no block twice. Then no room is left.
fn check_fill<P: Plan + Sync, R: Threads + Sync + Abort>(
    rt: &R,
    alloc: Global,
    count: u32,
    shape: &Shape,
) -> Result<(), Fail>
    requires refs { shape.now.refs ≤ 8 }
    requires size { shape.now.refs + shape.now.nums ≤ 2045 }
{
    let (world, mut seats, room) = begun::<P>(rt, alloc, count)?;
    assert!(rt; seats.len() > 0);
    let before = births(&seats);
    fill_together(rt, &world, seats.as_mut_slice(), shape, MOST);
    let made = births(&seats).wrapping_sub(before);
    assert!(rt; made >= room.limit as u64);
    check_counts(rt, &world, &mut seats, made);
    assert!(rt; seats.len() > 0);
    let (heap, _) = world.close(alloc, seats)?;
    assert!(rt; block_counts(&heap).free.checked_add(room.limit) == Some(room.free));
    check_full::<P>(rt, &heap, shape);
    check_walk(rt, alloc, &heap)
}

#[test]
fn mutators_fill_free_blocks(rt: HostRuntime) -> Result<(), Fail> {
    let alloc = rt.alloc();
    let small = Shape { refs: 1, nums: 1 };
    let large = Shape { refs: 8, nums: 100 };
    for _ in 0..ROUNDS {
        check_fill::<NoGc, _>(&rt, alloc, 2, &small)?;
        check_fill::<MarkSweep, _>(&rt, alloc, 16, &large)?;
        check_fill::<SemiSpace, _>(&rt, alloc, 4, &large)?;
        check_fill::<GenCopy, _>(&rt, alloc, 16, &small)?;
        check_fill::<Immix, _>(&rt, alloc, 4, &small)?;
        check_fill::<StickyImmix, _>(&rt, alloc, 16, &large)?;
    }
    Ok(())
}

// The numbers of an object without references that fills a cell, by size class.
const CELL_NUMS: [u32; 19] = [
    1, 3, 5, 9, 13, 21, 29, 45, 61, 93, 125, 189, 253, 381, 509, 765, 1021, 1533, 2045,
];

#[test]
fn mutators_fill_cells_of_all_classes(rt: HostRuntime) -> Result<(), Fail> {
    let alloc = rt.alloc();
    for nums in &CELL_NUMS {
        assert!(rt; *nums <= 2045);
        let shape = Shape {
            refs: 0,
            nums: *nums,
        };
        check_fill::<MarkSweep, _>(&rt, alloc, 4, &shape)?;
    }
    Ok(())
}

// The mutators allocate a few objects in each of many epochs. No object is lost or named twice, and
// none overlaps another.
fn check_epochs<P: Plan + Sync, R: Threads + Sync + Abort>(
    rt: &R,
    alloc: Global,
    count: u32,
) -> Result<(), Fail> {
    let shape = Shape { refs: 1, nums: 1 };
    let (mut world, mut seats) = new_world::<P>(rt, alloc, count, NUMS)?;
    let before = births(&seats);
    for _ in 0..EPOCHS {
        assert!(rt; seats.len() > 0);
        fill_together(rt, &world, seats.as_mut_slice(), &shape, FEW);
        (world, seats) = opened_again(rt, alloc, world, seats)?;
    }
    let made = births(&seats).wrapping_sub(before);
    check_counts(rt, &world, &mut seats, made);
    let (heap, _) = closed(rt, alloc, world, seats)?;
    check_walk(rt, alloc, &heap)
}

#[test]
fn mutators_allocate_in_many_epochs(rt: HostRuntime) -> Result<(), Fail> {
    let alloc = rt.alloc();
    for _ in 0..HEAPS {
        for count in [2, 4] {
            check_epochs::<NoGc, _>(&rt, alloc, count)?;
            check_epochs::<MarkSweep, _>(&rt, alloc, count)?;
            check_epochs::<SemiSpace, _>(&rt, alloc, count)?;
            check_epochs::<GenCopy, _>(&rt, alloc, count)?;
            check_epochs::<Immix, _>(&rt, alloc, count)?;
            check_epochs::<StickyImmix, _>(&rt, alloc, count)?;
        }
    }
    Ok(())
}
