//! What an epoch's end says of the blocks, beside a fresh look at each.

ghost use Rattle.std.specs.Prelude.{◌≡◌, ◌<◌, All, IfOk, length, map, true};
ghost use Rattle.std.specs.Thread.{IsSync};
ghost use Rattle.object_model.specs.Graphs.{numbers_of};
ghost use Rattle.object_model.specs.Heaps.{heap_state};
ghost use Rattle.sessions.specs.Collecting.{Remembers};
ghost use Rattle.block_regions.specs.Notes.{AreNotes, FlagsCover};
ghost use Rattle.heap_users.specs.Users.{mutator_state};
ghost use Rattle.heap_users.specs.Beginnings.{MayUse};
ghost use Rattle.racing_mutator.specs.RacingSeats.{MayCall};
ghost use Rattle.racing_world.specs.Calls.{epoch_of_world, number_of};
ghost use Rattle.racing_tests.specs.Beginnings.{BeginsIdeal};

use crate::births::NUMS;
use crate::random::Random;
use crate::recycling::recycled;
use crate::walks::check_walk;
use crate::worlds::{plain_world, reply_to};
use bitflags::Flags;
use block_regions::{BlockNote, BlockNotes};
use heap_layout::{BLOCK_WORDS, Kind};
use mutator_calls::Mutator;
use mutator_rule::MutatorSeat;
use object_model::Heap;
use plan_api::{Plan, PlanFlags, block_counts, first_hole, view};
use plans::{Immix, MarkSweep, StickyImmix};
use racing_world::World;
use std::alloc::{AllocError, Global};
use std::process::Abort;
use std::test::Fail;
use std::thread::{Threads, for_each_mut};
use write_barrier::logged;

// The commands of a mutator in an epoch: two mutators fill most of the blocks, four all.
const COMMANDS: u32 = 1_000;

// How often a heap is collected. Two epochs follow each time.
const ROUNDS: u64 = 30;

// How many blocks lacked room by their notes, and how many objects were logged.
#[derive(Drop)]
struct Told {
    noted: u32,
    logged: usize,
}

// A world of the heap and its mutators, with what is known of the blocks.
fn opened<P: Plan>(
    rt: &impl Abort,
    alloc: Global,
    heap: Heap,
    mutators: Vec<Mutator>,
    notes: &BlockNotes,
) -> Result<(World<P>, Vec<MutatorSeat>), AllocError>
    requires users { MayUse (heap_state heap) (map mutator_state mutators.items) }
    requires remembers { Remembers P.rules (heap_state heap) }
    requires notes { AreNotes P.rules.fill (heap_state heap) notes.now }
    requires flags { FlagsCover P.rules (heap_state heap) notes.now.flags.items }
    ensures calls { IfOk result (λ r. All (MayCall P.rules r.0.row) r.1.items) }
    ensures all { IfOk result (λ r. map number_of r.1.items
        ≡ numbers_of (epoch_of_world P.rules r.0).mutators) }
    ensures ideal { IfOk result (λ r. BeginsIdeal (epoch_of_world P.rules r.0)) }
    ensures notes { IfOk result (λ r.
        AreNotes P.rules.fill (epoch_of_world P.rules r.0).before notes.now) }
    ensures flags { IfOk result (λ r.
        FlagsCover P.rules (epoch_of_world P.rules r.0).before notes.now.flags.items) }
{
    assert!(rt; mutators.len() > 0 && mutators.len() <= 16);
    World::begin_with(alloc, heap, mutators, notes)
}

// The heap at the end of the epoch, with its mutators and what is known of the blocks.
fn closed<P: Plan>(
    rt: &impl Abort,
    alloc: Global,
    world: World<P>,
    seats: Vec<MutatorSeat>,
    notes: BlockNotes,
) -> Result<(Heap, Vec<Mutator>, BlockNotes), AllocError>
    requires calls { All (MayCall P.rules world.row) seats.items }
    requires all { map number_of seats.items
        ≡ numbers_of (epoch_of_world P.rules world).mutators }
    requires ideal { BeginsIdeal (epoch_of_world P.rules world) }
    requires notes { AreNotes P.rules.fill (epoch_of_world P.rules world).before notes }
    requires flags { FlagsCover P.rules (epoch_of_world P.rules world).before notes.flags.items }
    ensures users { IfOk result (λ r.
        MayUse (heap_state r.0) (map mutator_state r.1.items)) }
    ensures remembers { IfOk result (λ r. Remembers P.rules (heap_state r.0)) }
    ensures notes { IfOk result (λ r. AreNotes P.rules.fill (heap_state r.0) r.2) }
    ensures flags { IfOk result (λ r. FlagsCover P.rules (heap_state r.0) r.2.flags.items) }
{
    assert!(rt; seats.len() > 0);
    world.close_with(alloc, seats, notes)
}

// Makes random commands.
fn play<P: Plan>(world: &World<P>, seat: &mut MutatorSeat, m: usize, seed: u64)
    requires { MayCall P.rules world.now.row seat.old }
    ensures call { MayCall P.rules world.now.row seat.new }
    ensures number { number_of seat.new ≡ number_of seat.old }
{
    let mut random = Random(seed.wrapping_add(m as u64));
    for _ in 0..COMMANDS {
        let command = random.command((m % 16) as u32);
        reply_to(world, seat, &command);
    }
}

// Each mutator does so, on a thread of its own where one can be started.
fn play_together<P: Plan + Sync, R: Threads + Sync>(
    rt: &R,
    world: &World<P>,
    seats: &mut [MutatorSeat],
    seed: u64,
)
    requires calls { All (MayCall P.rules world.now.row) seats.old }
    requires some { 0 < length seats.old }
    ensures calls { All (MayCall P.rules world.now.row) seats.new }
    ensures all { map number_of seats.new ≡ map number_of seats.old }
{
    let threads = seats.len();
    for_each_mut(
        rt,
        seats,
        threads,
        &|m: usize, seat: &mut MutatorSeat|
            requires { IsSync P.row × MayCall P.rules world.now.row seat.old }
            ensures { MayCall P.rules world.entry.now.row seat.new
                × (number_of seat.new ≡ number_of seat.old) }
        {
            play(world, seat, m, seed);
        },
    );
}

// Nobody owns the block, and it has no hole for as many words as its note says or more. Whether the
// note says so of some object.
fn check_block(rt: &impl Abort, heap: &Heap, notes: &BlockNotes, fill: Kind, block: u32) -> bool
    requires { block < (heap_state heap.now).blocks }
{
    let fresh = view(heap, block);
    match notes.notes.get(block as usize) {
        Some(BlockNote::Unowned { least }) => {
            for size in 3..=2048 {
                if size >= *least {
                    assert!(rt; first_hole(fill, &fresh, 0, size).is_none());
                }
            }
            assert!(rt; fresh.word.owner == 0);
            *least <= 2048
        }
        _ => panic!(rt; "block {block} has an owner"),
    }
}

// The block of each logged object has a flag. Returns how many objects are logged.
fn check_flags<P: Plan>(
    rt: &impl Abort,
    alloc: Global,
    heap: &Heap,
    flags: &[bool],
) -> Result<usize, AllocError> {
    if !P::FLAGS.contains(PlanFlags::YOUNG) {
        return Ok(0);
    }
    let all = logged(alloc, heap)?;
    for address in &all {
        let block = address.wrapping_sub(heap.layout().heap_base()) / BLOCK_WORDS;
        assert!(rt; flags.get(block as usize).copied() == Some(true));
    }
    Ok(all.len())
}

// What is known of the blocks is what a look at each finds. Adds up what the notes tell.
fn check_notes<P: Plan>(
    rt: &impl Abort,
    alloc: Global,
    heap: &Heap,
    notes: &BlockNotes,
    told: &mut Told,
) -> Result<(), AllocError> {
    assert!(rt; *notes.counts() == block_counts(heap));
    assert!(rt; notes.owned.len() == 0);
    for block in 0..heap.layout().blocks() {
        if check_block(rt, heap, notes, P::alloc_kind(), block) {
            told.noted = told.noted.wrapping_add(1);
        }
    }
    let logged = check_flags::<P>(rt, alloc, heap, &notes.flags)?;
    told.logged = told.logged.wrapping_add(logged);
    Ok(())
}

// An epoch of mutators on threads, and what is known of the blocks then.
fn play_epoch<P: Plan + Sync, R: Threads + Sync + Abort>(
    rt: &R,
    alloc: Global,
    heap: Heap,
    mutators: Vec<Mutator>,
    notes: BlockNotes,
    seed: u64,
    told: &mut Told,
) -> Result<(Heap, Vec<Mutator>, BlockNotes), Fail>
    requires users { MayUse (heap_state heap) (map mutator_state mutators.items) }
    requires remembers { Remembers P.rules (heap_state heap) }
    requires notes { AreNotes P.rules.fill (heap_state heap) notes }
    requires flags { FlagsCover P.rules (heap_state heap) notes.flags.items }
    ensures users { IfOk result (λ r.
        MayUse (heap_state r.0) (map mutator_state r.1.items)) }
    ensures remembers { IfOk result (λ r. Remembers P.rules (heap_state r.0)) }
    ensures notes { IfOk result (λ r. AreNotes P.rules.fill (heap_state r.0) r.2) }
    ensures flags { IfOk result (λ r. FlagsCover P.rules (heap_state r.0) r.2.flags.items) }
{
    let (world, mut seats) = opened::<P>(rt, alloc, heap, mutators, &notes)?;
    assert!(rt; seats.len() > 0);
    play_together(rt, &world, seats.as_mut_slice(), seed);
    let (heap, mutators, notes) = closed(rt, alloc, world, seats, notes)?;
    check_notes::<P>(rt, alloc, &heap, &notes, told)?;
    Ok((heap, mutators, notes))
}

// A collection, then two epochs. The second goes on with what is known at the end of the first.
fn play_round<P: Plan + Sync, R: Threads + Sync + Abort>(
    rt: &R,
    alloc: Global,
    heap: Heap,
    mutators: Vec<Mutator>,
    seed: u64,
    told: &mut Told,
) -> Result<(Heap, Vec<Mutator>), Fail>
    requires { P.rules.collects ≡ true }
{
    let (heap, mutators) = recycled::<P, R>(rt, alloc, heap, mutators)?;
    let notes = BlockNotes::new(alloc, &heap)?;
    let more = seed.wrapping_mul(1_000);
    let (heap, mutators, notes) = play_epoch::<P, R>(rt, alloc, heap, mutators, notes, seed, told)?;
    let (heap, mutators, _) = play_epoch::<P, R>(rt, alloc, heap, mutators, notes, more, told)?;
    Ok((heap, mutators))
}

// Notes are right in each epoch of a heap, and some tell more than nothing.
fn check_rounds<P: Plan + Sync, R: Threads + Sync + Abort>(
    rt: &R,
    alloc: Global,
    count: u32,
) -> Result<(), Fail>
    requires { P.rules.collects ≡ true }
{
    let mut told = Told {
        noted: 0,
        logged: 0,
    };
    let (mut heap, mut mutators) = plain_world::<P>(rt, alloc, count, NUMS)?.close();
    for round in 0..ROUNDS {
        (heap, mutators) = play_round::<P, R>(
            rt,
            alloc,
            heap,
            mutators,
            100 + 16 * round,
            &mut told,
        )?;
    }
    assert!(rt; told.noted > 0);
    assert!(rt; told.logged > 0 || !P::FLAGS.contains(PlanFlags::YOUNG));
    check_walk(rt, alloc, &heap)
}

#[test]
fn notes_are_right_at_the_end_of_epochs(rt: HostRuntime) -> Result<(), Fail> {
    let alloc = rt.alloc();
    for count in [2, 4] {
        check_rounds::<MarkSweep, _>(&rt, alloc, count)?;
        check_rounds::<Immix, _>(&rt, alloc, count)?;
        check_rounds::<StickyImmix, _>(&rt, alloc, count)?;
    }
    Ok(())
}
