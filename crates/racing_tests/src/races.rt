//! Mutators on threads, where all share one object.

ghost use Rattle.std.specs.Prelude.{◌≡◌, ◌<◌, All, length};
ghost use Rattle.std.specs.Thread.{IsSync};
ghost use Rattle.racing_mutator.specs.RacingSeats.{MayCall};
ghost use Rattle.racing_world.specs.Calls.{number_of};

use crate::games::{NUMS, play, played_right};
use crate::worlds::new_world;
use mutator_rule::MutatorSeat;
use plan_api::Plan;
use plans::{NoGc, StickyImmix};
use racing_world::World;
use std::alloc::Global;
use std::process::Abort;
use std::test::Fail;
use std::thread::{Threads, for_each_mut};

// How often all play, for each number of mutators.
const ROUNDS: u32 = 100;

// Each mutator plays, on a thread of its own where one can be started.
fn play_together<P: Plan + Sync, R: Threads + Sync>(
    rt: &R,
    world: &World<P>,
    seats: &mut [MutatorSeat],
    count: u32,
)
    requires calls { All (MayCall P.rules world.now.row) seats.old }
    requires some { 0 < length seats.old }
    ensures calls { All (MayCall P.rules world.now.row) seats.new }
{
    let threads = seats.len();
    for_each_mut(
        rt,
        seats,
        threads,
        &|i: usize, seat: &mut MutatorSeat|
            requires { IsSync P.row × MayCall P.rules world.now.row seat.old }
            ensures { MayCall P.rules world.entry.now.row seat.new
                × (number_of seat.new ≡ number_of seat.old) }
        {
            play(world, seat, (i % 16) as u32, count);
        },
    );
}

// What they played is right, and the world ends.
fn check_play<P: Plan + Sync, R: Threads + Sync + Abort>(
    rt: &R,
    alloc: Global,
    count: u32,
) -> Result<(), Fail> {
    let (world, mut seats) = new_world::<P>(rt, alloc, count, NUMS)?;
    assert!(rt; seats.len() > 0);
    play_together(rt, &world, seats.as_mut_slice(), count);
    assert!(rt; seats.len() > 0);
    assert!(rt; played_right(&world, &mut seats[0], count));
    Ok(())
}

#[test]
fn mutators_play_together(rt: HostRuntime) -> Result<(), Fail> {
    let alloc = rt.alloc();
    for _ in 0..ROUNDS {
        check_play::<NoGc, _>(&rt, alloc, 2)?;
        check_play::<StickyImmix, _>(&rt, alloc, 4)?;
        check_play::<NoGc, _>(&rt, alloc, 16)?;
    }
    Ok(())
}
