//! Tests of what stores log, and of the list of logged objects.

ghost use Rattle.std.specs.Prelude.{◌≡◌, true};
ghost use Rattle.plain_world.specs.Calls.{IsOpen};

use crate::ages::{Between, Old, call_noted, noted_epoch};
use crate::calls::stir;
use crate::worlds::new_world;
use ideal_heap::Command;
use plain_world::PlainWorld;
use plan_api::Plan;
use plans::{GenCopy, StickyImmix};
use std::alloc::Global;
use std::process::Abort;
use std::test::Fail;
use std::thread::Threads;

// References, numbers and offsets of objects that begin at both ends of words of bits, and at
// offset 4,093, the last at which one can begin. In the other order they begin at the same offsets.
const EDGES: [(u32, u32, u32); 10] = [
    (0, 0, 0),
    (1, 56, 3),
    (1, 61, 63),
    (1, 59, 128),
    (1, 1853, 191),
    (1, 1853, 2048),
    (1, 59, 3905),
    (1, 61, 3968),
    (1, 56, 4033),
    (0, 0, 4093),
];

// Fills a block with objects at edges, which registers 0 to 9 hold.
fn place_edges<P: Plan>(rt: &impl Abort, world: &mut PlainWorld<P>, olds: &mut Vec<Old>)
    requires { IsOpen P.rules world.old }
    ensures { IsOpen P.rules world.new }
{
    for (d, (refs, nums, _)) in EDGES.iter().enumerate() {
        let new = Command::New {
            d: d as u32,
            refs: *refs,
            nums: *nums,
        };
        call_noted(rt, world, olds, &new);
    }
}

// A random command. Registers 0 to 9 stay as they are. Objects have at most three references, and
// some sizes that end at the edge of a word of bits or of a block.
fn command_of(state: u64) -> Command {
    let (d, s) = (10 + (state >> 33) % 6, (state >> 41) % 16);
    let (d, s) = (d as u32, s as u32);
    let (i, g) = (((state >> 50) & 3) as u32, ((state >> 54) & 15) as u32);
    let nums = [0u32, 0, 1, 2, 57, 58, 121, 2042][(state >> 46) as usize & 7];
    match (state >> 58) & 31 {
        0..5 => Command::New { d, refs: i, nums },
        5 => Command::DropReg { s: d },
        6 | 7 => Command::Load { d, g },
        8 | 9 => Command::Share { g, s },
        10 => Command::Pin { s },
        11..18 => Command::Get { d, s, i },
        18..22 => Command::Put { s, i: 0, v: d },
        _ => Command::Put { s, i, v: d },
    }
}

// Random commands of the one mutator. Returns the state of the random sequence.
fn call_at_random<P: Plan>(
    rt: &impl Abort,
    world: &mut PlainWorld<P>,
    olds: &mut Vec<Old>,
    state: u64,
    count: u32,
) -> u64
    requires { IsOpen P.rules world.old }
    ensures { IsOpen P.rules world.new }
{
    let mut x = state;
    for _ in 0..count {
        x = stir(x);
        call_noted(rt, world, olds, &command_of(x));
    }
    x
}

// Epochs of random commands, in a heap of so many blocks.
#[derive(Clone, Copy)]
struct Setting {
    blocks: u32,
    epochs: u32,
    commands: u32,
}

// Runs epochs, with a full collection after two of three. The first begins with objects at edges.
// Returns how many objects were logged.
fn run<P: Plan, R: Abort + Threads + Sync>(
    rt: &R,
    alloc: Global,
    setting: Setting,
    seed: u64,
) -> Result<usize, Fail>
    requires { P.rules.collects ≡ true }
{
    let mut world = new_world::<P>(rt, alloc, setting.blocks, 1)?;
    let mut olds = Vec::new(alloc);
    place_edges(rt, &mut world, &mut olds);
    let (mut x, mut sum) = (seed, 0usize);
    for epoch in 0..setting.epochs {
        x = call_at_random(rt, &mut world, &mut olds, x, setting.commands);
        let between = Between {
            logs: (x >> 61) as usize,
            collects: epoch % 3 != 1,
        };
        let (next, count) = noted_epoch::<P, R>(rt, alloc, world, &mut olds, between)?;
        sum = sum.wrapping_add(count);
        world = next;
    }
    Ok(sum)
}

// 2,000 small heaps, and 10,000 commands in a larger one. More than ten objects a heap are logged.
#[test]
fn random_stores(rt: HostRuntime) -> Result<(), Fail> {
    let alloc = rt.alloc();
    let large = Setting {
        blocks: 32,
        epochs: 20,
        commands: 500,
    };
    let mut sum = run::<GenCopy, HostRuntime>(&rt, alloc, large, 3)?;
    for seed in 0..1000 {
        let small = Setting {
            blocks: 4 + (seed % 5) as u32,
            epochs: 3,
            commands: 40,
        };
        sum = sum.wrapping_add(run::<GenCopy, HostRuntime>(&rt, alloc, small, seed)?);
        sum = sum.wrapping_add(run::<StickyImmix, HostRuntime>(&rt, alloc, small, seed)?);
    }
    assert!(&rt; sum > 20_000, "{sum} logged objects");
    Ok(())
}

// Objects at edges, which fill a block, are all listed.
fn check_edges<P: Plan, R: Abort + Threads + Sync>(rt: &R, alloc: Global) -> Result<(), Fail>
    requires { P.rules.collects ≡ true }
{
    let mut world = new_world::<P>(rt, alloc, 4, 1)?;
    let mut olds = Vec::new(alloc);
    place_edges(rt, &mut world, &mut olds);
    for logs in [0, 1] {
        let between = Between {
            logs,
            collects: logs == 0,
        };
        world = noted_epoch::<P, R>(rt, alloc, world, &mut olds, between)?.0;
    }
    let found = olds
        .iter()
        .filter(|o| o.logged)
        .map(|o| o.address.wrapping_sub(806) % 4096);
    assert!(rt; found.eq(EDGES.iter().map(|e| e.2)));
    Ok(())
}

#[test]
fn objects_at_edges_are_listed(rt: HostRuntime) -> Result<(), Fail> {
    check_edges::<GenCopy, HostRuntime>(&rt, rt.alloc())?;
    check_edges::<StickyImmix, HostRuntime>(&rt, rt.alloc())
}
