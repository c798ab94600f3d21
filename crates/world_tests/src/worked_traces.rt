//! Worked traces, most under plans with young objects. An allocation that stops is made again after
//! the first collection to try, and after a full one.

ghost use Rattle.std.specs.Prelude.{◌≡◌, IfOk, true};
ghost use Rattle.object_model.specs.Heaps.{heap_state};
ghost use Rattle.sessions.specs.Collecting.{Remembers};
ghost use Rattle.collector.specs.Collected.{IsOffered};
ghost use Rattle.plain_world.specs.Calls.{IsOpen};

use crate::ages::begin;
use crate::recycling::{collect_from, registers_of, set_registers};
use crate::worlds::{new_world, reply_to};
use heap_graph::graph;
use heap_layout::Kind;
use ideal_heap::{Command, Name, Reply};
use mutator_calls::Mutator;
use object_model::{Collect, Heap, are_roots};
use plain_world::PlainWorld;
use plan_api::Plan;
use plans::{GenCopy, SemiSpace, StickyImmix};
use std::alloc::{AllocError, Global};
use std::process::Abort;
use std::test::Fail;
use std::thread::Threads;

// A command of mutator 1, and its reply.
type Row = (Command, Reply);

// The birth number of an object, its block, its size, and whether it is old.
type Spot = (u32, u32, u32, bool);

// A heap after a trace: the number of its last collection and its base, the reachable
// objects, and the blocks that are not Free.
type Outcome = ((u64, u64), &'static [Spot], &'static [(u32, Kind)]);

const GC: Row = (Command::Gc, Reply::Done);

// An object is made, the mutator's first one with birth number 1.
fn made(d: u32, refs: u32, nums: u32, birth: u32) -> Row {
    let name = Name { mutator: 1, birth };
    (Command::New { d, refs, nums }, Reply::New(name))
}

// A field of an object is loaded, which refers to the one with this birth number.
fn loaded(d: u32, s: u32, birth: u32) -> Row {
    let name = Name { mutator: 1, birth };
    (Command::Get { d, s, i: 0 }, Reply::Ref(name))
}

fn put(s: u32, v: u32) -> Row {
    (Command::Put { s, i: 0, v }, Reply::Done)
}

fn dropped(s: u32) -> Row {
    (Command::DropReg { s }, Reply::Done)
}

fn pinned(s: u32) -> Row {
    (Command::Pin { s }, Reply::Yes)
}

// A cycle of two objects dies.
fn cycle(alloc: Global) -> Result<Vec<Row>, AllocError> {
    Ok(vec![in alloc;
        made(0, 1, 0, 1),
        made(1, 1, 0, 2),
        put(0, 1),
        put(1, 0),
        dropped(1),
        GC,
        loaded(2, 0, 2),
        loaded(3, 2, 1),
        dropped(0),
        dropped(2),
        dropped(3),
        GC,
    ]?)
}

// Of two objects the pinned one stays, and the other one moves.
fn one_pinned(alloc: Global) -> Result<Vec<Row>, AllocError> {
    Ok(vec![in alloc;
        made(0, 0, 1, 1),
        made(1, 0, 1, 2),
        pinned(0),
        (Command::Pin { s: 0 }, Reply::No),
        GC,
    ]?)
}

// One object is collected, and one comes after it.
fn two_ages(alloc: Global) -> Result<Vec<Row>, AllocError> {
    Ok(vec![in alloc; made(0, 0, 0, 1), GC, made(1, 0, 0, 2)]?)
}

// Four objects fill two blocks, and two of them are pinned. In the third collection no block is
// left for a copy, nor in the one that the last object asks for.
fn stuck(alloc: Global) -> Result<Vec<Row>, AllocError> {
    Ok(vec![in alloc;
        made(0, 0, 2045, 1),
        pinned(0),
        made(1, 0, 2045, 2),
        made(2, 0, 2045, 3),
        pinned(2),
        made(3, 0, 2045, 4),
        GC,
        pinned(1),
        GC,
        GC,
        (
            Command::New {
                d: 4,
                refs: 0,
                nums: 1
            },
            Reply::Full
        ),
    ]?)
}

// An old object alone refers to a young one with number 9. Then so many objects of half a block are
// made, each of which but the last is dead.
fn remembered(alloc: Global, count: u32, is_dropped: bool) -> Result<Vec<Row>, AllocError> {
    let mut rows = vec![in alloc;
        made(0, 1, 0, 1),
        GC,
        made(1, 0, 1, 2),
        (Command::Write { s: 1, j: 0, n: 9 }, Reply::Done),
        put(0, 1),
        dropped(1),
    ]?;
    if is_dropped {
        rows.push(dropped(0))?;
    }
    for n in 0..count {
        rows.push(made(2, 0, 2045, n.wrapping_add(3)))?;
    }
    if !is_dropped {
        let read = (Command::Read { s: 3, j: 0 }, Reply::Num(9));
        rows.extend_from_slice(&[loaded(3, 0, 2), read])?;
    }
    Ok(rows)
}

// The next epoch after a collection, the first one to try or a full one, and the kind of that.
fn collected<P: Plan, R: Abort + Threads + Sync>(
    rt: &R,
    alloc: Global,
    world: PlainWorld<P>,
    first: bool,
) -> Result<(PlainWorld<P>, Collect), Fail>
    requires collects { P.rules.collects ≡ true }
    requires open { IsOpen P.rules world }
    ensures { IfOk result (λ r. IsOpen P.rules r.0) }
{
    let (heap, mut mutators) = world.close();
    let kind = kind_of::<P>(&heap, first);
    let roots = registers_of(alloc, &mutators)?;
    let (heap, roots) = collect_from::<P, R>(rt, alloc, heap, roots, kind)?;
    set_registers(&mut mutators, &roots);
    Ok((begin(rt, alloc, heap, mutators)?, kind))
}

// The kind of the first collection to try, or of a full one.
fn kind_of<P: Plan>(heap: &Heap, first: bool) -> Collect
    requires { Remembers P.rules (heap_state heap.now) }
    ensures { IsOffered P.rules result (heap_state heap.now) }
{
    if first { P::kind(heap) } else { Collect::Full }
}

// The command of the one mutator, or a full collection if it is `gc`. One that stops is made again
// after collections.
fn step<P: Plan, R: Abort + Threads + Sync>(
    rt: &R,
    alloc: Global,
    world: PlainWorld<P>,
    command: &Command,
) -> Result<(PlainWorld<P>, Reply), Fail>
    requires collects { P.rules.collects ≡ true }
    requires open { IsOpen P.rules world }
    ensures { IfOk result (λ r. IsOpen P.rules r.0) }
{
    let mut world = world;
    if *command == Command::Gc {
        return Ok((collected::<P, R>(rt, alloc, world, false)?.0, Reply::Done));
    }
    let reply = reply_to(rt, &mut world, 0, command);
    if reply != Reply::Full {
        return Ok((world, reply));
    }
    let (mut world, kind) = collected::<P, R>(rt, alloc, world, true)?;
    let reply = reply_to(rt, &mut world, 0, command);
    if reply != Reply::Full || kind == Collect::Full {
        return Ok((world, reply));
    }
    let (mut world, _) = collected::<P, R>(rt, alloc, world, false)?;
    let reply = reply_to(rt, &mut world, 0, command);
    Ok((world, reply))
}

// The heap of so many blocks and its mutator after these commands, each with its reply.
fn run<P: Plan, R: Abort + Threads + Sync>(
    rt: &R,
    alloc: Global,
    blocks: u32,
    table: &[Row],
) -> Result<(Heap, Vec<Mutator>), Fail>
    requires { P.rules.collects ≡ true }
{
    let mut world = new_world::<P>(rt, alloc, blocks, 1)?;
    for (command, want) in table {
        let (next, reply) = step::<P, R>(rt, alloc, world, command)?;
        assert!(rt; reply == *want, "{reply:?} to {command:?}");
        world = next;
    }
    Ok(world.close())
}

// Whether an object is old under the plan.
fn is_old<P: Plan>(rt: &impl Abort, heap: &Heap, address: u32) -> bool {
    assert!(rt; heap.layout().heap_base() <= address && address < heap.layout().words());
    assert!(rt; heap.held(address));
    P::old(heap, address)
}

// Whether these are the reachable objects.
fn has_objects<P: Plan>(
    rt: &impl Abort,
    alloc: Global,
    heap: &Heap,
    roots: &[u32],
    want: &[Spot],
) -> Result<bool, Fail> {
    assert!(rt; are_roots(heap, roots));
    let places = graph(alloc, heap, roots)?;
    let base = heap.layout().heap_base();
    let mut spots = Vec::new(alloc);
    for place in places {
        let block = place.at.wrapping_sub(base) / 4096;
        let old = is_old::<P>(rt, heap, place.at);
        spots.push((place.name.birth, block, place.size, old))?;
    }
    Ok(spots.as_slice() == want)
}

// The blocks that are not Free, with their kinds.
fn used_blocks(alloc: Global, heap: &Heap) -> Result<Vec<(u32, Kind)>, AllocError> {
    let mut used = Vec::new(alloc);
    for block in 0..heap.layout().blocks() {
        let kind = heap.block(block).kind;
        if kind != Kind::Free {
            used.push((block, kind))?;
        }
    }
    Ok(used)
}

// Runs a trace under a plan, and compares what it leaves.
fn check<P: Plan, R: Abort + Threads + Sync>(
    rt: &R,
    alloc: Global,
    blocks: u32,
    table: &[Row],
    want: Outcome,
) -> Result<(), Fail>
    requires { P.rules.collects ≡ true }
{
    let (heap, mutators) = run::<P, R>(rt, alloc, blocks, table)?;
    let roots = registers_of(alloc, &mutators)?;
    assert!(rt; has_objects::<P>(rt, alloc, &heap, &roots, want.1)?);
    let used = used_blocks(alloc, &heap)?;
    assert!(rt; used.as_slice() == want.2, "{used:?}");
    assert_eq!(rt; (heap.number(), heap.base()), want.0);
    Ok(())
}

const DEAD: Outcome = ((2, 2), &[], &[]);

const MOVED: Outcome = (
    (1, 1),
    &[(1, 0, 4, true), (2, 1, 4, true)],
    &[(0, Kind::Kept), (1, Kind::Mature)],
);

const STUCK: Outcome = (
    (4, 4),
    &[
        (1, 0, 2048, true),
        (2, 2, 2048, true),
        (3, 1, 2048, true),
        (4, 3, 2048, true),
    ],
    &[
        (0, Kind::Kept),
        (1, Kind::Kept),
        (2, Kind::Kept),
        (3, Kind::Kept),
    ],
);

const AGED: Outcome = (
    (1, 1),
    &[(1, 1, 3, true), (2, 0, 3, false)],
    &[(0, Kind::Young), (1, Kind::Mature)],
);

// No object is old under a plan without young ones.
const AGELESS: Outcome = (
    (1, 1),
    &[(1, 1, 3, false), (2, 1, 3, false)],
    &[(1, Kind::Bump)],
);

// Three nursery collections, none of which makes room, and four full ones.
const COPIED: Outcome = (
    (7, 7),
    &[(1, 0, 4, true), (2, 0, 4, true), (9, 1, 2048, false)],
    &[(0, Kind::Mature), (1, Kind::Young)],
);

// One nursery collection, after which two objects are made.
const IN_PLACE: Outcome = (
    (2, 1),
    &[(1, 1, 4, true), (2, 1, 4, true), (9, 0, 2048, false)],
    &[(0, Kind::Immix), (1, Kind::Immix), (2, Kind::Immix)],
);

// The dead old object and what it refers to stay.
const FLOATS: Outcome = (
    (2, 1),
    &[(16, 0, 2048, false)],
    &[(0, Kind::Young), (1, Kind::Mature), (8, Kind::Mature)],
);

#[test]
fn worked_traces(rt: HostRuntime) -> Result<(), Fail> {
    let alloc = rt.alloc();
    let cycle = cycle(alloc)?;
    let ages = two_ages(alloc)?;
    let remembered_one = remembered(alloc, 7, false)?;
    for (blocks, table, want) in [
        (4, &cycle, DEAD),
        (4, &one_pinned(alloc)?, MOVED),
        (4, &stuck(alloc)?, STUCK),
        (4, &ages, AGED),
        (4, &remembered_one, COPIED),
        (16, &remembered(alloc, 14, true)?, FLOATS),
    ] {
        check::<GenCopy, HostRuntime>(&rt, alloc, blocks, table, want)?;
    }
    check::<SemiSpace, HostRuntime>(&rt, alloc, 4, &ages, AGELESS)?;
    for (table, want) in [(&cycle, DEAD), (&remembered_one, IN_PLACE)] {
        check::<StickyImmix, HostRuntime>(&rt, alloc, 4, table, want)?;
    }
    Ok(())
}
