//! Calls of worlds.

ghost use Rattle.std.specs.Prelude.{IfOk};
ghost use Rattle.plain_world.specs.Calls.{IsOpen};

use heap_layout::Layout;
use ideal_heap::{Command, Reply, valid};
use mutator_calls::Allocated;
use object_model::Heap;
use plain_world::{PlainWorld, new_mutators};
use plan_api::Plan;
use std::alloc::Global;
use std::process::Abort;
use std::test::Fail;

/// A world of an empty heap of `blocks` blocks, with `count` mutators.
pub(crate) fn new_world<P: Plan>(
    rt: &impl Abort,
    alloc: Global,
    blocks: u32,
    count: u32,
) -> Result<PlainWorld<P>, Fail>
    ensures { IfOk result (λ w. IsOpen P.rules w) }
{
    assert!(rt; 1 <= count && count <= 16);
    let heap = Heap::new(alloc, Layout::new(blocks)?)?;
    Ok(PlainWorld::<P>::begin(alloc, heap, new_mutators(alloc, count)?)?)
}

/// The address in register `s` of the mutator at place `m`.
pub(crate) fn address<P: Plan>(rt: &impl Abort, world: &PlainWorld<P>, m: u32, s: u32) -> u32 {
    let mutators = world.mutators();
    assert!(rt; (m as usize) < mutators.len() && s < 16);
    mutators[m as usize].registers[s as usize]
}

/// The answer to an allocation of the mutator at place `m`.
pub(crate) fn allocate<P: Plan>(
    rt: &impl Abort,
    world: &mut PlainWorld<P>,
    m: u32,
    d: u32,
    refs: u32,
    nums: u32,
) -> Allocated
    requires { IsOpen P.rules world.old }
    ensures { IsOpen P.rules world.new }
{
    assert!(rt; (m as usize) < world.mutators().len());
    assert!(rt; d < 16 && refs <= 1024 && nums <= 60_000);
    assert!(rt; world.births(m) < 1_000_000);
    world.new_object(m, d, refs, nums)
}

/// The reply to a command of the mutator at place `m`. A `new` that stops is refused.
pub(crate) fn reply_to<P: Plan>(
    rt: &impl Abort,
    world: &mut PlainWorld<P>,
    m: u32,
    command: &Command,
) -> Reply
    requires { IsOpen P.rules world.old }
    ensures { IsOpen P.rules world.new }
{
    assert!(rt; (m as usize) < world.mutators().len() && valid(command));
    match *command {
        Command::New { d, refs, nums } => match allocate(rt, world, m, d, refs, nums) {
            Allocated::Made(name) => Reply::New(name),
            Allocated::Stop(_) => Reply::Full,
        },
        Command::Get { d, s, i } => world.get(m, d, s, i),
        Command::Put { s, i, v } => world.put(m, s, i, v),
        Command::Read { s, j } => world.read(m, s, j),
        Command::Write { s, j, n } => world.write(m, s, j, n),
        Command::Add { s, j, n } => world.add(m, s, j, n),
        Command::Swap { s, j, was, next } => world.swap(m, s, j, was, next),
        Command::Move { d, s } => world.move_register(m, d, s),
        Command::DropReg { s } => world.drop_register(m, s),
        Command::Load { d, g } => world.load(m, d, g),
        Command::Share { g, s } => world.share(m, g, s),
        Command::Pin { s } => world.pin(m, s),
        Command::Unpin { s } => world.unpin(m, s),
        Command::Gc | Command::Meet => Reply::Done,
    }
}
