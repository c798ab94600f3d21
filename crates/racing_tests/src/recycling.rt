//! Collections that drop objects, so that holes and cells are filled again.

ghost use Rattle.std.specs.Prelude.{◌≡◌, IfOk, map, true};
ghost use Rattle.object_model.specs.Heaps.{heap_state};
ghost use Rattle.object_model.specs.Lawful.{AreRoots};
ghost use Rattle.sessions.specs.Collecting.{Remembers};
ghost use Rattle.heap_users.specs.Users.{mutator_state};
ghost use Rattle.heap_users.specs.Beginnings.{MayUse};

use collector::collect;
use mutator_calls::Mutator;
use object_model::{Collect, Heap, are_roots};
use plain_world::may_use;
use plan_api::Plan;
use pools::PlainPool;
use std::alloc::{AllocError, Global};
use std::process::Abort;
use std::test::Fail;
use std::thread::Threads;
use work_packets::OpenGate;

// The registers of all mutators in turn.
fn registers_of(alloc: Global, mutators: &[Mutator]) -> Result<Vec<u32>, AllocError> {
    let mut registers = Vec::new(alloc);
    for mutator in mutators {
        registers.extend_from_slice(&mutator.registers)?;
    }
    Ok(registers)
}

// The mutators' registers after a collection.
fn set_registers(mutators: &mut Vec<Mutator>, roots: &[u32]) {
    for (m, mutator) in mutators.iter_mut().enumerate() {
        for (s, register) in mutator.registers.iter_mut().enumerate() {
            let at = m.wrapping_mul(16).wrapping_add(s);
            *register = roots.get(at).copied().unwrap_or(0);
        }
    }
}

// A heap, and roots that are nil or held.
#[derive(Drop)]
struct Rooted {
    heap: Heap,
    roots: Vec<u32>,
    ghost held: { AreRoots (heap_state heap) roots.items },
}

fn with_roots(rt: &impl Abort, heap: Heap, roots: Vec<u32>) -> Rooted {
    assert!(rt; are_roots(&heap, &roots));
    Rooted { heap, roots }
}

// A full collection from these roots.
fn collect_from<P: Plan, R: Abort + Threads + Sync>(
    rt: &R,
    alloc: Global,
    heap: Heap,
    roots: Vec<u32>,
) -> Result<(Heap, Vec<u32>), Fail>
    ensures { P.rules.collects ≡ true → IfOk result (λ r. Remembers P.rules (heap_state r.0)) }
{
    let Rooted { heap, roots } = with_roots(rt, heap, roots);
    assert!(rt; heap.number() < 1_000_000);
    assert!(rt; roots.len() <= 1_000_000);
    let full = Collect::Full;
    let made = collect::<P, PlainPool, OpenGate, R>(
        rt, alloc, heap, roots, full, 1, &PlainPool, &OpenGate,
    )?;
    Ok((made.heap, made.roots))
}

/// The heap without the objects that no mutator reaches.
pub(crate) fn recycled<P: Plan, R: Abort + Threads + Sync>(
    rt: &R,
    alloc: Global,
    heap: Heap,
    mutators: Vec<Mutator>,
) -> Result<(Heap, Vec<Mutator>), Fail>
    requires { P.rules.collects ≡ true }
    ensures users { IfOk result (λ r.
        MayUse (heap_state r.0) (map mutator_state r.1.items)) }
    ensures remembers { IfOk result (λ r. Remembers P.rules (heap_state r.0)) }
{
    let mut mutators = mutators;
    let roots = registers_of(alloc, &mutators)?;
    let (heap, roots) = collect_from::<P, R>(rt, alloc, heap, roots)?;
    set_registers(&mut mutators, &roots);
    assert!(rt; may_use(&heap, &mutators));
    Ok((heap, mutators))
}
