//! Tests of the calls of a world.

ghost use Rattle.sessions.specs.Plans.{NoGc as no_gc, rules_of};
ghost use Rattle.plain_world.specs.Calls.{IsOpen};

use crate::twins::{Twins, World};
use crate::worlds::{allocate, new_world};
use ideal_heap::Command;
use mutator_calls::Polled;
use std::alloc::AllocError;
use std::process::Abort;
use std::test::Fail;

// Stops that mutators raise, and what both then get from a poll.
fn check_polls(rt: &impl Abort, world: &mut World, table: &[(Option<u32>, Polled)])
    requires { IsOpen (rules_of no_gc) world.old }
    ensures { IsOpen (rules_of no_gc) world.new }
{
    for (raises, want) in table {
        assert!(rt; world.mutators().len() == 2);
        if let Some(m) = raises {
            assert!(rt; *m < 2);
            world.raise(*m);
        }
        let polled = (world.poll(0), world.poll(1));
        assert!(rt; polled == (*want, *want));
    }
}

// The first stop of an epoch stands, and the next epoch begins with no stop. An epoch with no call
// gives back the words of the heap, but for the stop and the budget word.
#[test]
fn stops_and_epochs(rt: HostRuntime) -> Result<(), Fail> {
    let alloc = rt.alloc();
    let mut world = new_world(&rt, alloc, 4, 2)?;
    for (m, d) in [(0, 0), (1, 0), (1, 1), (1, 2)] {
        allocate(&rt, &mut world, m, d, 0, 2000);
    }
    let table = [
        (None, Polled::Go),
        (Some(1), Polled::Raised(2)),
        (Some(0), Polled::Raised(2)),
    ];
    check_polls(&rt, &mut world, &table);
    let (heap, mutators) = world.close();
    let words = heap.words().to_vec(alloc)?;
    assert!(&rt; mutators.len() <= 16);
    let (heap, mutators) = World::begin(alloc, heap, mutators)?.close();
    // Mutator 2 raised a stop, and three tickets were drawn.
    assert!(&rt; words.as_slice().starts_with(&[2, 3]));
    let after = heap.words().to_vec(alloc)?;
    assert!(&rt; after.as_slice().starts_with(&[0, 0]));
    assert!(&rt; after.iter().skip(2).eq(words.iter().skip(2)));
    assert!(&rt; mutators.len() <= 16);
    let mut world = World::begin(alloc, heap, mutators)?;
    let table = [(None, Polled::Go), (Some(0), Polled::Raised(1))];
    check_polls(&rt, &mut world, &table);
    Ok(())
}

/// The next state of a random sequence.
pub(crate) fn stir(state: u64) -> u64 {
    state
        .wrapping_mul(6_364_136_223_846_793_005)
        .wrapping_add(1_442_695_040_888_963_407)
}

// A random command on registers 0 to 11.
fn command_of(state: u64) -> Command {
    let (d, s) = ((state >> 33) % 12, (state >> 41) % 12);
    let (d, s) = (d as u32, s as u32);
    let (i, g) = (((state >> 50) & 3) as u32, ((state >> 54) & 15) as u32);
    match (state >> 58) & 31 {
        0..4 => Command::New {
            d,
            refs: i,
            nums: g & 3,
        },
        4 => Command::Move { d, s },
        5 => Command::DropReg { s },
        6 | 7 => Command::Load { d, g },
        8 | 9 => Command::Share { g, s },
        10 => Command::Pin { s },
        11 => Command::Unpin { s },
        12..15 => Command::Read { s, j: i },
        15..18 => Command::Write {
            s,
            j: i,
            n: state & 3,
        },
        18..20 => Command::Add { s, j: i, n: state },
        20..22 => Command::Swap {
            s,
            j: i,
            was: state & 3,
            next: 5,
        },
        22..26 => Command::Get { d, s, i },
        _ => Command::Put { s: d, i, v: s },
    }
}

// Random commands of the two mutators, from a state of the random sequence on. Returns its state.
fn call_at_random(rt: &impl Abort, twins: &mut Twins, state: u64) -> Result<u64, AllocError>
    requires { IsOpen (rules_of no_gc) twins.old.world }
    ensures { IsOpen (rules_of no_gc) twins.new.world }
{
    let mut x = state;
    for _ in 0..2000 {
        x = stir(x);
        let m = ((x >> 30) & 1) as u32;
        twins.call(rt, m, &command_of(x))?;
    }
    Ok(x)
}

#[test]
fn random_calls(rt: HostRuntime) -> Result<(), Fail> {
    let mut twins = Twins::new(&rt, rt.alloc(), 64)?;
    let mut x = 1;
    for _ in 0..10 {
        x = call_at_random(&rt, &mut twins, x)?;
        twins = twins.check_graph(&rt, rt.alloc())?;
    }
    Ok(())
}
