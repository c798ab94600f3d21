//! Heaps that a mutator built, and full collections of them.

ghost use Rattle.std.specs.Prelude.{◌≡◌, ◌<◌, IfOk, IsTrue, length};
ghost use Rattle.heap_layout.specs.declared.block.Kind.TheVariants as kinds;
ghost use Rattle.object_model.specs.Heaps.{heap_state};
ghost use Rattle.object_model.specs.Lawful.{AreRoots};
ghost use Rattle.plain_world.specs.Calls.{IsOpen};
ghost use Rattle.trace_core.specs.Runs.{MayRun};
ghost use Rattle.trace_tests.specs.Blocks.{is_large, HasSmall};

use heap_layout::{Kind, Layout};
use ideal_heap::{Command, Reply, valid};
use mutator_calls::Allocated;
use object_model::{Collect, Heap, are_roots};
use plain_world::{PlainWorld, new_mutators};
use plan_api::Plan;
use plans::NoGc;
use std::alloc::{AllocError, Global};
use std::process::Abort;
use std::test::Fail;
use trace_core::TraceRun;

/// A heap with objects, and the mutator's registers that are roots.
#[derive(Drop)]
pub(crate) struct Built {
    pub(crate) heap: Heap,
    pub(crate) registers: Vec<u32>,
    ghost roots: { AreRoots (heap_state heap) registers.items },
}

/// The heap of `blocks` blocks after these commands, with objects in Bump blocks. The first `kept`
/// registers are roots.
pub(crate) fn build(
    rt: &impl Abort,
    alloc: Global,
    blocks: u32,
    commands: &[Command],
    kept: usize,
) -> Result<Built, Fail> {
    build_under::<NoGc>(rt, alloc, blocks, commands, kept)
}

/// The heap of `blocks` blocks after these commands under a plan. The first `kept` registers are
/// roots.
pub(crate) fn build_under<P: Plan>(
    rt: &impl Abort,
    alloc: Global,
    blocks: u32,
    commands: &[Command],
    kept: usize,
) -> Result<Built, Fail> {
    let mut world = new_world::<P>(alloc, blocks)?;
    for command in commands {
        let reply = reply_to(rt, &mut world, 0, command);
        assert!(rt;
            reply == Reply::Done || reply == Reply::Yes,
            "{reply:?} to {command:?}"
        );
    }
    let (heap, mutators) = world.close();
    let mut registers = Vec::new(alloc);
    if let Some(mutator) = mutators.first() {
        registers.extend_from_slice(&mutator.registers)?;
    }
    registers.truncate(kept);
    Ok(with_roots(rt, heap, registers))
}

/// A heap with these registers, which are roots.
pub(crate) fn with_roots(rt: &impl Abort, heap: Heap, registers: Vec<u32>) -> Built
    ensures { result.heap ≡ heap }
{
    assert!(rt; are_roots(&heap, &registers));
    Built { heap, registers }
}

/// A world of an empty heap of `blocks` blocks, with one mutator.
pub(crate) fn new_world<P: Plan>(alloc: Global, blocks: u32) -> Result<PlainWorld<P>, Fail>
    ensures { IfOk result (λ w. IsOpen P.rules w) }
{
    let heap = Heap::new(alloc, Layout::new(blocks)?)?;
    let mutators = new_mutators(alloc, 1)?;
    Ok(PlainWorld::<P>::begin(alloc, heap, mutators)?)
}

/// The reply to a command of the mutator at place `m`, `Done` to an allocation that has room.
pub(crate) fn reply_to<P: Plan>(
    rt: &impl Abort,
    world: &mut PlainWorld<P>,
    m: u32,
    command: &Command,
) -> Reply
    requires { IsOpen P.rules world.old }
    ensures { IsOpen P.rules world.new }
{
    assert!(rt; valid(command));
    assert!(rt; (m as usize) < world.mutators().len());
    assert!(rt; world.births(m) < 1_000_000);
    match *command {
        Command::New { d, refs, nums } => match world.new_object(m, d, refs, nums) {
            Allocated::Made(_) => Reply::Done,
            Allocated::Stop(_) => Reply::Full,
        },
        Command::Get { d, s, i } => world.get(m, d, s, i),
        Command::Put { s, i, v } => world.put(m, s, i, v),
        Command::Write { s, j, n } => world.write(m, s, j, n),
        Command::Move { d, s } => world.move_register(m, d, s),
        Command::DropReg { s } => world.drop_register(m, s),
        Command::Share { g, s } => world.share(m, g, s),
        Command::Pin { s } => world.pin(m, s),
        _ => Reply::Null,
    }
}

/// Whether a block is Free, or of a kind that is filled from start to end.
fn is_small(heap: &Heap, block: u32) -> bool
    requires { block < (heap_state heap.now).blocks }
    ensures { IsTrue result → IsTrue (is_large (heap_state heap.now) block) → ⊥ }
{
    matches!(
        heap.block(block).kind,
        Kind::Free | Kind::Bump | Kind::Young | Kind::Mature
    )
}

/// Asserts that each block is so.
pub(crate) fn check_small(rt: &impl Abort, heap: &Heap)
    ensures { HasSmall (heap_state heap.now) }
{
    for block in 0..heap.layout().blocks() {
        assert!(rt; is_small(heap, block));
    }
}

/// A list that has `moving` times true first, and `blocks` entries.
pub(crate) fn first_blocks(alloc: Global, blocks: u32, moving: u32) -> Result<Vec<bool>, AllocError>
    ensures { IfOk result (λ v. length v.items ≡ blocks) }
{
    let mut from = Vec::new(alloc);
    for block in 0..blocks {
        from.push(block < moving)?;
    }
    Ok(from)
}

/// A full collection, which moves the objects of the blocks before `moving` into Bump blocks.
pub(crate) fn full_run(
    rt: &impl Abort,
    alloc: Global,
    heap: &Heap,
    moving: u32,
    lines: bool,
) -> Result<TraceRun, AllocError>
    ensures run { IfOk result (MayRun (heap_state heap.now)) }
    ensures kind { IfOk result (λ r. r.copy_kind ≡ kinds.Bump) }
{
    check_small(rt, heap);
    assert!(rt; heap.number() < 1_000_000);
    let number = heap.number() + 1;
    let from = first_blocks(alloc, heap.layout().blocks(), moving)?;
    Ok(TraceRun {
        number,
        base: number,
        collect: Collect::Full,
        from,
        copy_kind: Kind::Bump,
        lines,
        logged: Vec::new(alloc),
    })
}
