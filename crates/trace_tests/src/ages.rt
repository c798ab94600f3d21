//! Heaps at a stop, with old objects, of which some are logged, and young ones.

ghost use Rattle.std.specs.Prelude.{◌≡◌, ◌<◌, ◌≤◌, ℕ, Some, IfSome, IsTrue, true, map, slice_get};
ghost use Rattle.object_model.specs.Births.{IsLargeRoom, WritesLargeObject};
ghost use Rattle.object_model.specs.Heaps.{heap_state};
ghost use Rattle.object_model.specs.Objects.{size_of, blocks_for as blocks_for_size};
ghost use Rattle.object_model.specs.Ages.{RemembersYoung};
ghost use Rattle.heap_users.specs.Users.{mutator_state};
ghost use Rattle.heap_users.specs.Beginnings.{MayUse};
ghost use Rattle.plain_world.specs.Calls.{IsOpen};

use crate::heaps::reply_to;
use heap_layout::Layout;
use ideal_heap::{Command, Name, Reply};
use large_space::{blocks_for, find_run, place_large};
use mutator_calls::Mutator;
use object_model::{Heap, Shape, size_words};
use plain_world::{PlainWorld, may_use, new_mutators};
use plan_api::Plan;
use std::alloc::Global;
use std::process::Abort;
use std::test::Fail;

/// A heap at a stop, which remembers its young objects, and its mutators.
#[derive(Drop)]
pub(crate) struct AgedHeap {
    pub(crate) heap: Heap,
    pub(crate) mutators: Vec<Mutator>,
    ghost remembers: { RemembersYoung (heap_state heap) },
}

/// A heap that remembers its young objects, and its mutators.
pub(crate) fn remembering(heap: Heap, mutators: Vec<Mutator>) -> AgedHeap
    requires remembers { RemembersYoung (heap_state heap) }
{
    AgedHeap { heap, mutators }
}

/// An empty heap of `blocks` blocks, with two mutators.
pub(crate) fn new_heap(alloc: Global, blocks: u32) -> Result<AgedHeap, Fail> {
    let heap = Heap::new(alloc, Layout::new(blocks)?)?;
    let mutators = new_mutators(alloc, 2)?;
    Ok(remembering(heap, mutators))
}

/// The heap after an epoch of these commands of mutators at these places. Each allocation has room.
pub(crate) fn epoch<P: Plan>(
    rt: &impl Abort,
    alloc: Global,
    aged: AgedHeap,
    commands: &[(u32, Command)],
) -> Result<AgedHeap, Fail>
    requires { P.rules.young ≡ true }
{
    let AgedHeap { heap, mutators } = aged;
    assert!(rt; mutators.len() <= 16 && may_use(&heap, &mutators));
    let mut world = PlainWorld::<P>::begin(alloc, heap, mutators)?;
    for (m, command) in commands {
        let reply = reply_to(rt, &mut world, *m, command);
        assert!(rt; reply != Reply::Full, "at {command:?}");
    }
    Ok(close(world))
}

fn close<P: Plan>(world: PlainWorld<P>) -> AgedHeap
    requires open { IsOpen P.rules world }
    requires young { P.rules.young ≡ true }
{
    let (heap, mutators) = world.close();
    remembering(heap, mutators)
}

/// A birth number after those of all objects.
fn next_birth(mutators: &[Mutator]) -> u32 {
    let births = mutators.iter().map(|u| u.births).max();
    births.unwrap_or(0).saturating_add(1)
}

/// Whether a birth number comes after those of all objects.
fn is_new_birth(mutators: &[Mutator], birth: u32) -> bool
    ensures { IsTrue result → (k : ℕ) (u : Mutator) → slice_get mutators.now k ≡ Some u
        → u.births < birth }
{
    for mutator in mutators {
        if birth <= mutator.births {
            return false;
        }
    }
    true
}

// Asserts that the mutators may use the heap.
fn check_users(rt: &impl Abort, heap: &Heap, mutators: &[Mutator])
    ensures { MayUse (heap_state heap.now) (map mutator_state mutators.now) }
{
    assert!(rt; may_use(heap, mutators));
}

// Asserts that a name of the first mutator has a birth number after those of all objects.
fn check_name(rt: &impl Abort, mutators: &[Mutator], name: &Name)
    ensures mutator { name.now.mutator ≡ 1 }
    ensures born { 1 ≤ name.now.birth }
    ensures few { name.now.birth ≤ 1000000 }
    ensures later { (k : ℕ) (u : Mutator) → slice_get mutators.now k ≡ Some u
        → u.births < name.now.birth }
{
    assert!(rt; name.mutator == 1 && 1 <= name.birth && name.birth <= 1_000_000);
    assert!(rt; is_new_birth(mutators, name.birth));
}

// Asserts that an object of this shape is large.
fn check_shape(rt: &impl Abort, shape: &Shape)
    ensures refs { shape.now.refs ≤ 1024 }
    ensures large { 2048 < shape.now.nums }
    ensures nums { shape.now.nums ≤ 60000 }
{
    assert!(rt; shape.refs <= 1024 && 2048 < shape.nums && shape.nums <= 60_000);
}

// The first block of the lowest run of Free blocks that has room for a new large object.
fn find_room(
    rt: &impl Abort,
    heap: &Heap,
    mutators: &[Mutator],
    name: &Name,
    shape: &Shape,
) -> Option<u32>
    ensures { IfSome result (λ block. IsLargeRoom (heap_state heap.now) block name.now
        shape.now.refs shape.now.nums) }
{
    check_users(rt, heap, mutators);
    check_name(rt, mutators, name);
    check_shape(rt, shape);
    let count = blocks_for(size_words(shape));
    find_run(heap.words(), heap.layout(), count)
}

// The heap with a large object more, at the start of this block. The first mutator has its address
// in register `d`.
fn place(aged: AgedHeap, block: u32, d: u32, name: &Name, shape: &Shape) -> AgedHeap
    requires room { IsLargeRoom (heap_state aged.heap) block name.now shape.now.refs
        shape.now.nums }
{
    let AgedHeap { heap, mut mutators } = aged;
    let first = heap.layout().heap_base();
    let count = blocks_for(size_words(shape));
    let heap = write_large(heap, block, count, name, shape);
    if let Some(mutator) = mutators.first_mut() {
        mutator.births = name.birth;
        if let Some(register) = mutator.registers.get_mut(d as usize) {
            *register = first.wrapping_add(block.wrapping_mul(4096));
        }
    }
    remembering(heap, mutators)
}

/// The heap with a large object more, in the lowest run of Free blocks that has room for it. The
/// first mutator has its address in register `d`. Without such a run the heap stays.
pub(crate) fn with_large(
    rt: &impl Abort,
    aged: AgedHeap,
    d: u32,
    refs: u32,
    nums: u32,
) -> AgedHeap {
    let name = Name {
        mutator: 1,
        birth: next_birth(&aged.mutators),
    };
    let shape = Shape { refs, nums };
    let Some(block) = find_room(rt, &aged.heap, &aged.mutators, &name, &shape) else {
        return aged;
    };
    place(aged, block, d, &name, &shape)
}

/// The heap with a large object in a run of `count` Free blocks.
fn write_large(heap: Heap, block: u32, count: u32, name: &Name, shape: &Shape) -> Heap
    requires room { IsLargeRoom (heap_state heap) block name.now shape.now.refs shape.now.nums }
    requires count { count ≡ blocks_for_size (size_of shape.now.refs shape.now.nums) }
    ensures { WritesLargeObject (heap_state heap) (heap_state result) block name.now
        shape.now.refs shape.now.nums }
{
    let mut row = heap.into_row();
    let address = row.layout.address(block, 0);
    place_large(&mut row.words, &row.layout, block, count);
    row.write_object(address, name, shape);
    Heap::from_row(row)
}
