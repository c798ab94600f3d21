//! Collections that drop objects, so that the lines of blocks are filled again.

ghost use Rattle.std.specs.Prelude.{◌≡◌, ◌<◌, IfOk, true, false};
ghost use Rattle.object_model.specs.Heaps.{heap_state};
ghost use Rattle.object_model.specs.Lawful.{AreRoots};
ghost use Rattle.sessions.specs.Collecting.{Remembers};
ghost use Rattle.collector.specs.Collected.{IsOffered};
ghost use Rattle.plain_world.specs.Calls.{IsOpen};

use crate::epochs::check_blocks;
use crate::model::Model;
use collector::collect;
use mutator_calls::Mutator;
use object_model::{Collect, Heap, are_roots};
use plain_world::{PlainWorld, may_use};
use plan_api::Plan;
use pools::PlainPool;
use std::alloc::{AllocError, Global};
use std::process::Abort;
use std::test::Fail;
use std::thread::Threads;
use work_packets::OpenGate;

/// Of each so many objects in a row the first ones are kept.
#[derive(Clone, Copy)]
pub(crate) struct Kept {
    pub(crate) of: usize,
    pub(crate) first: usize,
}

impl Kept {
    fn has(&self, index: usize) -> bool {
        match index.checked_rem(self.of) {
            Some(rest) => rest < self.first,
            None => false,
        }
    }
}

/// The registers of all mutators in turn.
pub(crate) fn registers_of(alloc: Global, mutators: &[Mutator]) -> Result<Vec<u32>, AllocError> {
    let mut registers = Vec::new(alloc);
    for mutator in mutators {
        registers.extend_from_slice(&mutator.registers)?;
    }
    Ok(registers)
}

/// The mutators' registers after a collection.
pub(crate) fn set_registers(mutators: &mut Vec<Mutator>, roots: &[u32]) {
    for (m, mutator) in mutators.iter_mut().enumerate() {
        for (s, register) in mutator.registers.iter_mut().enumerate() {
            let at = m.wrapping_mul(16).wrapping_add(s);
            *register = roots.get(at).copied().unwrap_or(0);
        }
    }
}

// Drops from the model the objects that no root holds and that are not kept. The addresses of the
// others follow the roots.
fn keep(
    alloc: Global,
    model: &mut Model,
    roots: &mut Vec<u32>,
    kept: Kept,
) -> Result<(), AllocError> {
    let held = roots.len();
    let mut index = 0usize;
    let mut objects = Vec::new(alloc);
    for object in &model.objects {
        let address = model.address(object);
        if kept.has(index) || roots.iter().take(held).any(|root| *root == address) {
            objects.push(*object)?;
            roots.push(address)?;
        }
        index = index.wrapping_add(1);
    }
    model.objects = objects;
    Ok(())
}

// A heap, and roots that are nil or held.
#[derive(Drop)]
struct Rooted {
    heap: Heap,
    roots: Vec<u32>,
    ghost held: { AreRoots (heap_state heap) roots.items },
}

fn with_roots(rt: &impl Abort, heap: Heap, roots: Vec<u32>) -> Rooted
    ensures { result.heap ≡ heap }
{
    assert!(rt; are_roots(&heap, &roots));
    Rooted { heap, roots }
}

/// A collection from these roots.
pub(crate) fn collect_from<P: Plan, R: Abort + Threads + Sync>(
    rt: &R,
    alloc: Global,
    heap: Heap,
    roots: Vec<u32>,
    kind: Collect,
) -> Result<(Heap, Vec<u32>), Fail>
    requires offered { IsOffered P.rules kind (heap_state heap) }
    ensures { P.rules.collects ≡ true → IfOk result (λ r. Remembers P.rules (heap_state r.0)) }
{
    let Rooted { heap, roots } = with_roots(rt, heap, roots);
    assert!(rt; heap.number() < 1_000_000);
    assert!(rt; roots.len() <= 1_000_000);
    let made = collect::<P, PlainPool, OpenGate, R>(
        rt, alloc, heap, roots, kind, 1, &PlainPool, &OpenGate,
    )?;
    Ok((made.heap, made.roots))
}

/// The next epoch, after a collection that drops objects which no register holds. Before and after
/// it the blocks are as in the model.
pub(crate) fn recycled_epoch<P: Plan, R: Abort + Threads + Sync>(
    rt: &R,
    alloc: Global,
    world: PlainWorld<P>,
    model: &mut Model,
    kept: Kept,
) -> Result<PlainWorld<P>, Fail>
    requires ages { P.rules.young ≡ false }
    requires open { IsOpen P.rules world }
    ensures { IfOk result (λ w. IsOpen P.rules w) }
{
    let (heap, mut mutators) = world.close();
    model.close();
    check_blocks(rt, &heap, model);
    let mut roots = registers_of(alloc, &mutators)?;
    let held = roots.len();
    keep(alloc, model, &mut roots, kept)?;
    let (heap, roots) = collect_from::<P, R>(rt, alloc, heap, roots, Collect::Full)?;
    set_registers(&mut mutators, &roots);
    model.collected(roots.get(held..).unwrap_or_default());
    check_blocks(rt, &heap, model);
    model.begin(&mutators);
    assert!(rt; mutators.len() <= 16 && may_use(&heap, &mutators));
    Ok(PlainWorld::<P>::begin(alloc, heap, mutators)?)
}
