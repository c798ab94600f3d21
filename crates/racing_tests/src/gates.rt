//! A mutator that is held between the last word of an object and its start bit.

ghost use Rattle.std.specs.Prelude.{◌≡◌, ◌+◌, ◌<◌, ◌≤◌, All, length, map};
ghost use Rattle.std.specs.Thread.{IsSync};
ghost use Rattle.object_model.specs.Objects.{size_of};
ghost use Rattle.racing_rooms.specs.NoRoom.{LacksRegionRoom};
ghost use Rattle.racing_mutator.specs.RacingSeats.{MayCall};
ghost use Rattle.racing_world.specs.Answers.{births_of};
ghost use Rattle.racing_world.specs.Calls.{number_of};

use crate::births::{MADE, NEW, NUMS, births, check_counts, fill};
use crate::walks::check_walk;
use crate::worlds::{MOST, SHARED, new_world, number};
use ideal_heap::Reply;
use mutator_rule::MutatorSeat;
use object_model::{Shape, size_words};
use plan_api::Plan;
use plans::{GenCopy, Immix, MarkSweep, NoGc, SemiSpace, StickyImmix};
use racing_mutator::Racing;
use racing_world::World;
use std::alloc::Global;
use std::process::Abort;
use std::test::Fail;
use std::thread::{Threads, for_each_mut};
use work_packets::{Gate, MeetGate, Point};

// The numbers of the mutator that is held, and of the one that it waits for.
const HELD: u32 = 1;

const OTHER: u32 = 2;

const ROUNDS: u32 = 20;

// At the first the others wait until the object's words are stored, at the second the mutator that
// is held waits until the blocks are full.
#[derive(Drop)]
struct Gates {
    written: MeetGate,
    full: MeetGate,
}

// Allocates an object, for which no region has room. Between its last word and its start bit the
// other mutator fills the blocks. Whether there was room.
fn hold_new<P: Plan>(racing: &mut Racing<'_, '_, P>, shape: &Shape, gates: &Gates) -> bool
    requires call { MayCall P.rules racing.old.row.now racing.old.seat.now }
    requires full { LacksRegionRoom P.rules racing.old.seat.now
        (size_of shape.now.refs shape.now.nums) }
    requires few { births_of racing.old.seat.now < MOST }
    requires refs { shape.now.refs ≤ 8 }
    requires size { shape.now.refs + shape.now.nums ≤ 2045 }
    ensures call { MayCall P.rules racing.old.row.now racing.new.seat.now }
    ensures number { number_of racing.new.seat.now ≡ number_of racing.old.seat.now }
    ensures seat { racing.new.seat.ghost_name ≡ racing.old.seat.ghost_name }
{
    match racing.find_room(size_words(shape)) {
        Ok(block) => {
            racing.write_found(block, shape);
            gates.written.pass(HELD, Point::Alloc);
            gates.full.pass(HELD, Point::Publish);
            racing.publish_found(block, NEW, shape);
            true
        }
        Err(_) => false,
    }
}

// The same of a seat that has no room yet.
fn hold_object<P: Plan>(
    world: &World<P>,
    seat: &mut MutatorSeat,
    shape: &Shape,
    gates: &Gates,
) -> bool
    requires call { MayCall P.rules world.now.row seat.old }
    requires few { births_of seat.old < MOST }
    requires refs { shape.now.refs ≤ 8 }
    requires size { shape.now.refs + shape.now.nums ≤ 2045 }
    ensures call { MayCall P.rules world.now.row seat.new }
    ensures number { number_of seat.new ≡ number_of seat.old }
{
    let mut racing = Racing {
        row: world.row(),
        seat,
    };
    match racing.allocate_here(NEW, shape) {
        Some(_) => false,
        None => hold_new(&mut racing, shape, gates),
    }
}

// Whether the words of the object are those of a new one.
fn is_new<P: Plan>(world: &World<P>, seat: &mut MutatorSeat) -> bool
    requires { MayCall P.rules world.now.row seat.old }
    ensures call { MayCall P.rules world.now.row seat.new }
    ensures number { number_of seat.new ≡ number_of seat.old }
{
    let field = world.get(seat, 2, NEW, 0);
    field == Reply::Nil && number(world, seat, NEW, 0) == 0 && number(world, seat, NEW, 1) == 0
}

// The part of a mutator: it is held, or fills the blocks.
fn play<P: Plan>(world: &World<P>, seat: &mut MutatorSeat, shape: &Shape, gates: &Gates)
    requires call { MayCall P.rules world.now.row seat.old }
    requires refs { shape.now.refs ≤ 8 }
    requires size { shape.now.refs + shape.now.nums ≤ 2045 }
    ensures call { MayCall P.rules world.now.row seat.new }
    ensures number { number_of seat.new ≡ number_of seat.old }
{
    if seat.number() != HELD {
        gates.written.pass(seat.number(), Point::Alloc);
        fill(world, seat, shape, MOST);
        gates.full.pass(seat.number(), Point::Publish);
    } else if seat.births() < MOST {
        if hold_object(world, seat, shape, gates) && is_new(world, seat) {
            world.add(seat, SHARED, MADE, 1);
        }
    }
}

// Both mutators play their parts, on threads.
fn play_together<P: Plan + Sync, R: Threads + Sync>(
    rt: &R,
    world: &World<P>,
    seats: &mut [MutatorSeat],
    shape: &Shape,
    gates: &Gates,
)
    requires calls { All (MayCall P.rules world.now.row) seats.old }
    requires some { 0 < length seats.old }
    requires refs { shape.now.refs ≤ 8 }
    requires size { shape.now.refs + shape.now.nums ≤ 2045 }
    ensures calls { All (MayCall P.rules world.now.row) seats.new }
    ensures all { map number_of seats.new ≡ map number_of seats.old }
{
    let threads = seats.len();
    for_each_mut(
        rt,
        seats,
        threads,
        &|_: usize, seat: &mut MutatorSeat|
            requires { IsSync P.row × MayCall P.rules world.now.row seat.old
                × (shape.now.refs ≤ 8) × (shape.now.refs + shape.now.nums ≤ 2045) }
            ensures { MayCall P.rules world.entry.now.row seat.new
                × (number_of seat.new ≡ number_of seat.old) }
        {
            play(world, seat, shape, gates);
        },
    );
}

// Neither gate is missed. The object that was held is as new then, no other is lost, and no two
// overlap.
fn check_held<P: Plan + Sync, R: Threads + Sync + Abort>(
    rt: &R,
    alloc: Global,
    shape: &Shape,
) -> Result<(), Fail>
    requires refs { shape.now.refs ≤ 8 }
    requires size { shape.now.refs + shape.now.nums ≤ 2045 }
{
    let (world, mut seats) = new_world::<P>(rt, alloc, 2, NUMS)?;
    let gates = Gates {
        written: MeetGate::new(OTHER, HELD, Point::Alloc),
        full: MeetGate::new(HELD, OTHER, Point::Publish),
    };
    let before = births(&seats);
    assert!(rt; seats.len() > 0);
    play_together(rt, &world, seats.as_mut_slice(), shape, &gates);
    assert!(rt; !gates.written.missed() && !gates.full.missed());
    let made = births(&seats).wrapping_sub(before);
    check_counts(rt, &world, &mut seats, made);
    assert!(rt; seats.len() > 0);
    let (heap, _) = world.close(alloc, seats)?;
    check_walk(rt, alloc, &heap)
}

#[test]
fn an_object_without_start_bit_is_seen_by_nobody(rt: HostRuntime) -> Result<(), Fail> {
    let alloc = rt.alloc();
    let small = Shape { refs: 1, nums: 2 };
    let large = Shape { refs: 8, nums: 100 };
    for _ in 0..ROUNDS {
        check_held::<NoGc, _>(&rt, alloc, &small)?;
        check_held::<MarkSweep, _>(&rt, alloc, &large)?;
        check_held::<SemiSpace, _>(&rt, alloc, &small)?;
        check_held::<GenCopy, _>(&rt, alloc, &large)?;
        check_held::<Immix, _>(&rt, alloc, &small)?;
        check_held::<StickyImmix, _>(&rt, alloc, &large)?;
    }
    Ok(())
}
