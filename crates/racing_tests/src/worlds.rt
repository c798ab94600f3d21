//! Worlds that mutators share, and calls of their seats.

ghost use Rattle.std.specs.Prelude.{◌≡◌, ◌<◌, ◌≤◌, All, IfOk, map, length};
ghost use Rattle.object_model.specs.Graphs.{numbers_of};
ghost use Rattle.object_model.specs.Heaps.{heap_state};
ghost use Rattle.sessions.specs.Collecting.{Remembers};
ghost use Rattle.heap_users.specs.Users.{mutator_state};
ghost use Rattle.heap_users.specs.Beginnings.{MayUse};
ghost use Rattle.plain_world.specs.Calls.{IsOpen};
ghost use Rattle.mutator_rule.specs.Seats.{local_of};
ghost use Rattle.racing_mutator.specs.RacingSeats.{MayCall, holdings};
ghost use Rattle.racing_world.specs.Calls.{epoch_of_world, number_of};
ghost use Rattle.racing_tests.specs.Beginnings.{BeginsIdeal};

use heap_layout::Layout;
use ideal_heap::{Command, Reply, valid};
use mutator_calls::{Allocated, Mutator};
use mutator_rule::MutatorSeat;
use object_model::Heap;
use plain_world::{PlainWorld, new_mutators};
use plan_api::Plan;
use racing_world::World;
use std::alloc::{AllocError, Global};
use std::process::Abort;
use std::test::Fail;

/// The register with the object that all mutators have, and the one with each mutator's own.
pub(crate) const SHARED: u32 = 0;

pub(crate) const OWN: u32 = 1;

// The heap has room for a block of each mutator.
const BLOCKS: u32 = 24;

/// The numbers of an own object.
pub(crate) const OWN_NUMS: u32 = 8;

// The mutator at place `m` allocates an object with one reference.
fn make<P: Plan>(rt: &impl Abort, world: &mut PlainWorld<P>, m: u32, d: u32, nums: u32)
    requires { IsOpen P.rules world.old }
    ensures { IsOpen P.rules world.new }
{
    assert!(rt; (m as usize) < world.mutators().len());
    assert!(rt; d < 16 && nums <= 1000);
    assert!(rt; world.births(m) < 1000);
    world.new_object(m, d, 1, nums);
}

// The mutator at place `m` loads the object that all have, and allocates its own.
fn give<P: Plan>(rt: &impl Abort, world: &mut PlainWorld<P>, m: u32)
    requires { IsOpen P.rules world.old }
    ensures { IsOpen P.rules world.new }
{
    assert!(rt; (m as usize) < world.mutators().len());
    world.load(m, SHARED, 0);
    make(rt, world, m, OWN, OWN_NUMS);
}

/// A plain world of `count` mutators that all have one object of `nums` numbers in a register, and
/// each one of its own. No global has an object.
pub(crate) fn plain_world<P: Plan>(
    rt: &impl Abort,
    alloc: Global,
    count: u32,
    nums: u32,
) -> Result<PlainWorld<P>, Fail>
    ensures { IfOk result (λ w. IsOpen P.rules w) }
{
    assert!(rt; 1 <= count && count <= 16);
    let heap = Heap::new(alloc, Layout::new(BLOCKS)?)?;
    let mut plain = PlainWorld::<P>::begin(alloc, heap, new_mutators(alloc, count)?)?;
    make(rt, &mut plain, 0, SHARED, nums);
    assert!(rt; plain.mutators().len() > 0);
    plain.share(0, 0, SHARED);
    for m in 0..count {
        give(rt, &mut plain, m);
    }
    assert!(rt; plain.mutators().len() > 0);
    plain.share(0, 0, 2);
    Ok(plain)
}

/// The heap of a plain world, as one that mutators share.
pub(crate) fn shared<P: Plan>(
    rt: &impl Abort,
    alloc: Global,
    plain: PlainWorld<P>,
) -> Result<(World<P>, Vec<MutatorSeat>), AllocError>
    requires { IsOpen P.rules plain }
    ensures calls { IfOk result (λ r. All (MayCall P.rules r.0.row) r.1.items) }
    ensures all { IfOk result (λ r. map number_of r.1.items
        ≡ numbers_of (epoch_of_world P.rules r.0).mutators) }
    ensures ideal { IfOk result (λ r. BeginsIdeal (epoch_of_world P.rules r.0)) }
{
    let (heap, mutators) = plain.close();
    opened(rt, alloc, heap, mutators)
}

/// A world of the heap and its mutators.
pub(crate) fn opened<P: Plan>(
    rt: &impl Abort,
    alloc: Global,
    heap: Heap,
    mutators: Vec<Mutator>,
) -> Result<(World<P>, Vec<MutatorSeat>), AllocError>
    requires users { MayUse (heap_state heap) (map mutator_state mutators.items) }
    requires remembers { Remembers P.rules (heap_state heap) }
    ensures calls { IfOk result (λ r. All (MayCall P.rules r.0.row) r.1.items) }
    ensures all { IfOk result (λ r. map number_of r.1.items
        ≡ numbers_of (epoch_of_world P.rules r.0).mutators) }
    ensures ideal { IfOk result (λ r. BeginsIdeal (epoch_of_world P.rules r.0)) }
{
    assert!(rt; mutators.len() > 0 && mutators.len() <= 16);
    World::begin(alloc, heap, mutators)
}

/// The heap of a world at its stop, and the mutators.
pub(crate) fn closed<P: Plan>(
    rt: &impl Abort,
    alloc: Global,
    world: World<P>,
    seats: Vec<MutatorSeat>,
) -> Result<(Heap, Vec<Mutator>), AllocError>
    requires calls { All (MayCall P.rules world.row) seats.items }
    requires all { map number_of seats.items
        ≡ numbers_of (epoch_of_world P.rules world).mutators }
    requires ideal { BeginsIdeal (epoch_of_world P.rules world) }
    ensures users { IfOk result (λ r.
        MayUse (heap_state r.0) (map mutator_state r.1.items)) }
    ensures remembers { IfOk result (λ r. Remembers P.rules (heap_state r.0)) }
{
    assert!(rt; seats.len() > 0);
    world.close(alloc, seats)
}

/// The next epoch of a world.
pub(crate) fn opened_again<P: Plan>(
    rt: &impl Abort,
    alloc: Global,
    world: World<P>,
    seats: Vec<MutatorSeat>,
) -> Result<(World<P>, Vec<MutatorSeat>), AllocError>
    requires calls { All (MayCall P.rules world.row) seats.items }
    requires all { map number_of seats.items
        ≡ numbers_of (epoch_of_world P.rules world).mutators }
    requires ideal { BeginsIdeal (epoch_of_world P.rules world) }
    ensures calls { IfOk result (λ r. All (MayCall P.rules r.0.row) r.1.items) }
    ensures all { IfOk result (λ r. map number_of r.1.items
        ≡ numbers_of (epoch_of_world P.rules r.0).mutators) }
    ensures ideal { IfOk result (λ r. BeginsIdeal (epoch_of_world P.rules r.0)) }
{
    let (heap, mutators) = closed(rt, alloc, world, seats)?;
    opened(rt, alloc, heap, mutators)
}

/// A world of `count` mutators, as `plain_world` has them.
pub(crate) fn new_world<P: Plan>(
    rt: &impl Abort,
    alloc: Global,
    count: u32,
    nums: u32,
) -> Result<(World<P>, Vec<MutatorSeat>), Fail>
    ensures calls { IfOk result (λ r. All (MayCall P.rules r.0.row) r.1.items) }
    ensures all { IfOk result (λ r. map number_of r.1.items
        ≡ numbers_of (epoch_of_world P.rules r.0).mutators) }
    ensures ideal { IfOk result (λ r. BeginsIdeal (epoch_of_world P.rules r.0)) }
{
    let plain = plain_world::<P>(rt, alloc, count, nums)?;
    Ok(shared(rt, alloc, plain)?)
}

/// Number `j` of the object in register `s`.
pub(crate) fn number<P: Plan>(world: &World<P>, seat: &mut MutatorSeat, s: u32, j: u32) -> u64
    requires call { MayCall P.rules world.now.row seat.old }
    requires register { s < 16 }
    ensures call { MayCall P.rules world.now.row seat.new }
    ensures number { number_of seat.new ≡ number_of seat.old }
    ensures holds { holdings (local_of seat.new) ≡ holdings (local_of seat.old) }
{
    match world.read(seat, s, j) {
        Reply::Num(n) => n,
        _ => u64::MAX,
    }
}

/// The most objects of a mutator: more than there is room for.
pub(crate) const MOST: u32 = 1_000_000;

/// The reply to a command of a seat, `full` to a `new` that is left to the stop. `gc`, `meet` and
/// commands out of range are not called.
pub(crate) fn reply_to<P: Plan>(
    world: &World<P>,
    seat: &mut MutatorSeat,
    command: &Command,
) -> Reply
    requires { MayCall P.rules world.now.row seat.old }
    ensures call { MayCall P.rules world.now.row seat.new }
    ensures number { number_of seat.new ≡ number_of seat.old }
{
    if !valid(command) || seat.births() >= MOST {
        return Reply::Done;
    }
    match *command {
        Command::New { d, refs, nums } => match world.new_object(seat, d, refs, nums) {
            Allocated::Made(name) => Reply::New(name),
            Allocated::Stop(_) => Reply::Full,
        },
        Command::Get { d, s, i } => world.get(seat, d, s, i),
        Command::Put { s, i, v } => world.put(seat, s, i, v),
        Command::Read { s, j } => world.read(seat, s, j),
        Command::Write { s, j, n } => world.write(seat, s, j, n),
        Command::Add { s, j, n } => world.add(seat, s, j, n),
        Command::Swap { s, j, was, next } => world.swap(seat, s, j, was, next),
        Command::Move { d, s } => world.move_register(seat, d, s),
        Command::DropReg { s } => world.drop_register(seat, s),
        Command::Load { d, g } => world.load(seat, d, g),
        Command::Share { g, s } => world.share(seat, g, s),
        Command::Pin { s } => world.pin(seat, s),
        Command::Unpin { s } => world.unpin(seat, s),
        Command::Gc | Command::Meet => Reply::Done,
    }
}

/// A number by which replies differ.
pub(crate) fn code_of(reply: &Reply) -> u64 {
    match *reply {
        Reply::Nil => 1,
        Reply::Done => 2,
        Reply::Yes => 3,
        Reply::No => 4,
        Reply::Null => 5,
        Reply::Range => 6,
        Reply::New(_) | Reply::Full => 7,
        Reply::Ref(name) => (name.mutator as u64)
            .wrapping_mul(16)
            .wrapping_add(name.birth as u64),
        Reply::Num(n) => n.wrapping_add(1000),
    }
}
