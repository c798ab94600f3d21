//! Random commands of mutators on threads, each beside an ideal heap of its own.

ghost use Rattle.std.specs.Prelude.{◌≡◌, ◌<◌, All, IfOk, map, length};
ghost use Rattle.std.specs.Thread.{IsSync};
ghost use Rattle.ideal_heap.specs.Plain.{mutators_of};
ghost use Rattle.racing_mutator.specs.RacingSeats.{MayCall};
ghost use Rattle.racing_world.specs.Calls.{number_of};

use crate::births::{MADE, NUMS, check_counts};
use crate::random::Random;
use crate::walks::check_walk;
use crate::worlds::{MOST, OWN, OWN_NUMS, SHARED, new_world, reply_to};
use ideal_heap::{Command, Ideal, Reply, valid};
use mutator_rule::MutatorSeat;
use plan_api::Plan;
use plans::{GenCopy, Immix, MarkSweep, NoGc, SemiSpace, StickyImmix};
use racing_world::World;
use std::alloc::{AllocError, Global};
use std::process::Abort;
use std::test::Fail;
use std::thread::{Threads, for_each_mut};

// The commands of a mutator: more than the heap has room for.
const COMMANDS: u32 = 2_000;

const ROUNDS: u64 = 5;

// Whether the ideal heap could execute the command of the mutator with this number, and replies
// the same.
fn is_reply(ideal: &mut Ideal, mutator: u32, command: &Command, reply: &Reply) -> bool
    requires { mutators_of ideal.old ≡ 16 }
    ensures { mutators_of ideal.new ≡ 16 }
{
    if mutator < 1 || mutator > 16 || !valid(command) || ideal.births(mutator) >= MOST {
        return false;
    }
    match ideal.apply(mutator, command) {
        Ok(want) => want == *reply,
        Err(_) => false,
    }
}

// An ideal heap with the objects that the mutator has allocated, the last one in its register.
fn ideal_of_seat(alloc: Global, seat: &MutatorSeat) -> Result<Ideal, AllocError>
    ensures { IfOk result (λ h. mutators_of h ≡ 16) }
{
    let mut ideal = Ideal::new(alloc, 16)?;
    let mutator = seat.number();
    let own = Command::New {
        d: OWN,
        refs: 1,
        nums: OWN_NUMS,
    };
    for _ in 0..seat.births() {
        is_reply(&mut ideal, mutator, &own, &Reply::Done);
    }
    Ok(ideal)
}

// Makes random commands on objects of its own, and global `g`. Whether the replies are those of the
// ideal heap, which skips each `new` that gets `full`.
fn replies_are_right<P: Plan>(
    world: &World<P>,
    seat: &mut MutatorSeat,
    ideal: &mut Ideal,
    random: &mut Random,
    g: u32,
) -> bool
    requires call { MayCall P.rules world.now.row seat.old }
    requires mutators { mutators_of ideal.old ≡ 16 }
    ensures call { MayCall P.rules world.now.row seat.new }
    ensures number { number_of seat.new ≡ number_of seat.old }
{
    for _ in 0..COMMANDS {
        let command = random.command(g);
        let reply = reply_to(world, seat, &command);
        if reply != Reply::Full && !is_reply(ideal, seat.number(), &command, &reply) {
            return false;
        }
    }
    true
}

// The mutator at place `m` does so, and counts itself in the shared object if all is right.
fn play<P: Plan>(world: &World<P>, seat: &mut MutatorSeat, alloc: Global, m: usize, seed: u64)
    requires { MayCall P.rules world.now.row seat.old }
    ensures call { MayCall P.rules world.now.row seat.new }
    ensures number { number_of seat.new ≡ number_of seat.old }
{
    let mut random = Random(seed.wrapping_add(m as u64));
    if let Ok(mut ideal) = ideal_of_seat(alloc, seat) {
        if replies_are_right(world, seat, &mut ideal, &mut random, (m % 16) as u32) {
            world.add(seat, SHARED, MADE, 1);
        }
    }
}

// Each mutator does so, on a thread of its own where one can be started.
fn play_together<P: Plan + Sync, R: Threads + Sync>(
    rt: &R,
    world: &World<P>,
    seats: &mut [MutatorSeat],
    alloc: Global,
    seed: u64,
)
    requires calls { All (MayCall P.rules world.now.row) seats.old }
    requires some { 0 < length seats.old }
    ensures calls { All (MayCall P.rules world.now.row) seats.new }
    ensures all { map number_of seats.new ≡ map number_of seats.old }
{
    let threads = seats.len();
    for_each_mut(
        rt,
        seats,
        threads,
        &|m: usize, seat: &mut MutatorSeat|
            requires { IsSync P.row × MayCall P.rules world.now.row seat.old }
            ensures { MayCall P.rules world.entry.now.row seat.new
                × (number_of seat.new ≡ number_of seat.old) }
        {
            play(world, seat, alloc, m, seed);
        },
    );
}

// The replies of all are right, and blocks ran out.
fn check_private<P: Plan + Sync, R: Threads + Sync + Abort>(
    rt: &R,
    alloc: Global,
    count: u32,
    seed: u64,
) -> Result<(), Fail> {
    let (world, mut seats) = new_world::<P>(rt, alloc, count, NUMS)?;
    assert!(rt; seats.len() > 0);
    play_together(rt, &world, seats.as_mut_slice(), alloc, seed);
    check_counts(rt, &world, &mut seats, count as u64);
    assert!(rt; seats.len() > 0);
    let (heap, _) = world.close(alloc, seats)?;
    assert!(rt; P::allowance(&heap) == 0);
    check_walk(rt, alloc, &heap)
}

#[test]
fn replies_are_those_of_an_ideal_heap(rt: HostRuntime) -> Result<(), Fail> {
    let alloc = rt.alloc();
    for round in 0..ROUNDS {
        for count in [2, 4, 16] {
            let seed = 100 + 16 * round;
            check_private::<NoGc, _>(&rt, alloc, count, seed)?;
            check_private::<MarkSweep, _>(&rt, alloc, count, seed)?;
            check_private::<SemiSpace, _>(&rt, alloc, count, seed)?;
            check_private::<GenCopy, _>(&rt, alloc, count, seed)?;
            check_private::<Immix, _>(&rt, alloc, count, seed)?;
            check_private::<StickyImmix, _>(&rt, alloc, count, seed)?;
        }
    }
    Ok(())
}
