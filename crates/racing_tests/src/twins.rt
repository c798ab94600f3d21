//! One mutator over a world that could be shared, and over a plain one, through many epochs.

ghost use Rattle.std.specs.Prelude.{◌≡◌, ◌<◌, All, IfOk, map, length};
ghost use Rattle.object_model.specs.Graphs.{numbers_of};
ghost use Rattle.plain_world.specs.Calls.{IsOpen};
ghost use Rattle.racing_mutator.specs.RacingSeats.{MayCall};
ghost use Rattle.racing_world.specs.Calls.{epoch_of_world, number_of};
ghost use Rattle.racing_tests.specs.Beginnings.{BeginsIdeal};

use crate::random::Random;
use crate::worlds::{MOST, closed, opened, plain_world, reply_to, shared};
use heap_layout::Kind;
use ideal_heap::{Command, Reply, valid};
use mutator_calls::{Allocated, Mutator};
use mutator_rule::MutatorSeat;
use object_model::Heap;
use plain_world::PlainWorld;
use plan_api::Plan;
use plans::{GenCopy, Immix, MarkSweep, NoGc, SemiSpace, StickyImmix};
use racing_world::World;
use std::alloc::{AllocError, Global};
use std::process::Abort;
use std::test::Fail;

// Each kind of command, with each reply that it can have.
const TRACE: [Command; 34] = [
    Command::Read { s: 0, j: 0 },
    Command::Write { s: 0, j: 0, n: 7 },
    Command::Write { s: 0, j: 9, n: 1 },
    Command::Write { s: 5, j: 0, n: 1 },
    Command::Add { s: 0, j: 0, n: 5 },
    Command::Add { s: 0, j: 9, n: 5 },
    Command::Add { s: 5, j: 0, n: 5 },
    Command::Swap {
        s: 0,
        j: 0,
        was: 7,
        next: 1,
    },
    Command::Swap {
        s: 0,
        j: 0,
        was: 12,
        next: 9,
    },
    Command::Swap {
        s: 0,
        j: 9,
        was: 0,
        next: 9,
    },
    Command::Swap {
        s: 5,
        j: 0,
        was: 0,
        next: 9,
    },
    Command::Read { s: 0, j: 0 },
    Command::Read { s: 0, j: 9 },
    Command::Read { s: 5, j: 0 },
    Command::Get { d: 2, s: 0, i: 0 },
    Command::Put { s: 0, i: 0, v: 1 },
    Command::Put { s: 0, i: 1, v: 1 },
    Command::Put { s: 5, i: 0, v: 1 },
    Command::Get { d: 2, s: 0, i: 0 },
    Command::Get { d: 2, s: 0, i: 1 },
    Command::Get { d: 2, s: 5, i: 0 },
    Command::Pin { s: 2 },
    Command::Pin { s: 1 },
    Command::Pin { s: 5 },
    Command::Unpin { s: 1 },
    Command::Unpin { s: 2 },
    Command::Unpin { s: 5 },
    Command::Move { d: 3, s: 2 },
    Command::DropReg { s: 2 },
    Command::Pin { s: 3 },
    Command::Share { g: 15, s: 3 },
    Command::Load { d: 4, g: 15 },
    Command::Load { d: 5, g: 14 },
    Command::Put { s: 4, i: 0, v: 0 },
];

// The random commands of an epoch, if none is left to the stop; the epochs of a heap; and the heaps
// of each plan.
const EPOCH: u32 = 500;

const EPOCHS: u32 = 8;

const HEAPS: u32 = 400;

// How many commands run under each plan at least.
const COMMANDS: u32 = 100_000;

// The reply to a command of the only mutator. `gc` and `meet` are not called.
fn plain_reply<P: Plan>(rt: &impl Abort, world: &mut PlainWorld<P>, command: &Command) -> Reply
    requires { IsOpen P.rules world.old }
    ensures { IsOpen P.rules world.new }
{
    assert!(rt; world.mutators().len() > 0 && valid(command));
    assert!(rt; world.births(0) < MOST);
    match *command {
        Command::New { d, refs, nums } => match world.new_object(0, d, refs, nums) {
            Allocated::Made(name) => Reply::New(name),
            Allocated::Stop(_) => Reply::Full,
        },
        Command::Get { d, s, i } => world.get(0, d, s, i),
        Command::Put { s, i, v } => world.put(0, s, i, v),
        Command::Read { s, j } => world.read(0, s, j),
        Command::Write { s, j, n } => world.write(0, s, j, n),
        Command::Add { s, j, n } => world.add(0, s, j, n),
        Command::Swap { s, j, was, next } => world.swap(0, s, j, was, next),
        Command::Move { d, s } => world.move_register(0, d, s),
        Command::DropReg { s } => world.drop_register(0, s),
        Command::Load { d, g } => world.load(0, d, g),
        Command::Share { g, s } => world.share(0, g, s),
        Command::Pin { s } => world.pin(0, s),
        Command::Unpin { s } => world.unpin(0, s),
        Command::Gc | Command::Meet => Reply::Done,
    }
}

// The replies are equal, one by one.
fn check_replies<P: Plan>(
    rt: &impl Abort,
    plain: &mut PlainWorld<P>,
    world: &World<P>,
    seat: &mut MutatorSeat,
)
    requires plain { IsOpen P.rules plain.old }
    requires call { MayCall P.rules world.now.row seat.old }
    ensures plain { IsOpen P.rules plain.new }
    ensures call { MayCall P.rules world.now.row seat.new }
    ensures number { number_of seat.new ≡ number_of seat.old }
{
    for command in &TRACE {
        let reply = reply_to(world, seat, command);
        assert!(rt; plain_reply(rt, plain, command) == reply);
    }
}

// Whether both worlds look for room in the same order: under plans that fill lines or cells.
fn have_one_order<P: Plan>() -> bool {
    matches!(P::alloc_kind(), Kind::Immix | Kind::Cells)
}

// The same of random commands, until an object is left to the stop. Returns how many there were,
// and whether the worlds are still alike: if they look for room in another order, one may find none
// where the other does.
fn check_random<P: Plan>(
    rt: &impl Abort,
    plain: &mut PlainWorld<P>,
    world: &World<P>,
    seat: &mut MutatorSeat,
    random: &mut Random,
) -> (u32, bool)
    requires plain { IsOpen P.rules plain.old }
    requires call { MayCall P.rules world.now.row seat.old }
    ensures plain { IsOpen P.rules plain.new }
    ensures call { MayCall P.rules world.now.row seat.new }
    ensures number { number_of seat.new ≡ number_of seat.old }
{
    for done in 0..EPOCH {
        let g = random.below(16);
        let command = random.command(g);
        let reply = reply_to(world, seat, &command);
        let want = plain_reply(rt, plain, &command);
        if reply == Reply::Full || want == Reply::Full {
            assert!(rt; reply == want || !have_one_order::<P>());
            return (done, reply == want);
        }
        assert!(rt; reply == want);
    }
    (EPOCH, true)
}

// The replies to the commands of the table, and then to random ones.
fn check_commands<P: Plan>(
    rt: &impl Abort,
    plain: &mut PlainWorld<P>,
    world: &World<P>,
    seat: &mut MutatorSeat,
    random: &mut Random,
) -> (u32, bool)
    requires plain { IsOpen P.rules plain.old }
    requires call { MayCall P.rules world.now.row seat.old }
    ensures plain { IsOpen P.rules plain.new }
    ensures call { MayCall P.rules world.now.row seat.new }
    ensures number { number_of seat.new ≡ number_of seat.old }
{
    check_replies(rt, plain, world, seat);
    check_random(rt, plain, world, seat, random)
}

// The same of the only seat of the world.
fn check_seat<P: Plan>(
    rt: &impl Abort,
    plain: &mut PlainWorld<P>,
    world: &World<P>,
    seats: &mut Vec<MutatorSeat>,
    random: &mut Random,
) -> (u32, bool)
    requires plain { IsOpen P.rules plain.old }
    requires calls { All (MayCall P.rules world.now.row) seats.old.items }
    ensures plain { IsOpen P.rules plain.new }
    ensures calls { All (MayCall P.rules world.now.row) seats.new.items }
    ensures numbers { map number_of seats.new.items ≡ map number_of seats.old.items }
{
    assert!(rt; seats.len() > 0);
    check_commands(rt, plain, world, &mut seats[0], random)
}

// The mutators have as many objects. The rows are equal where room is looked for in one order.
fn check_same<P: Plan>(
    rt: &impl Abort,
    alloc: Global,
    mutators: (&Vec<Mutator>, &Vec<Mutator>),
    heaps: (&Heap, &Heap),
) -> Result<(), Fail> {
    assert!(rt; mutators.0.len() == 1 && mutators.1.len() == 1);
    assert!(rt; mutators.0[0].births == mutators.1[0].births);
    if have_one_order::<P>() {
        let words = (
            heaps.0.words().to_vec(alloc)?,
            heaps.1.words().to_vec(alloc)?,
        );
        assert!(rt; words.0.as_slice() == words.1.as_slice());
        assert!(rt; mutators.0[0].registers.as_slice() == mutators.1[0].registers.as_slice());
    }
    Ok(())
}

// A plain world that goes on with the heap of another.
fn begun_again<P: Plan>(
    rt: &impl Abort,
    alloc: Global,
    plain: PlainWorld<P>,
) -> Result<PlainWorld<P>, AllocError>
    requires { IsOpen P.rules plain }
    ensures { IfOk result (λ w. IsOpen P.rules w) }
{
    let (heap, mutators) = plain.close();
    assert!(rt; mutators.len() <= 16);
    PlainWorld::begin(alloc, heap, mutators)
}

// Both worlds end their epoch with the same heap, and begin the next.
fn both_again<P: Plan>(
    rt: &impl Abort,
    alloc: Global,
    plain: PlainWorld<P>,
    world: World<P>,
    seats: Vec<MutatorSeat>,
) -> Result<(PlainWorld<P>, World<P>, Vec<MutatorSeat>), Fail>
    requires plain { IsOpen P.rules plain }
    requires calls { All (MayCall P.rules world.row) seats.items }
    requires all { map number_of seats.items
        ≡ numbers_of (epoch_of_world P.rules world).mutators }
    requires ideal { BeginsIdeal (epoch_of_world P.rules world) }
    ensures plain { IfOk result (λ r. IsOpen P.rules r.0) }
    ensures calls { IfOk result (λ r. All (MayCall P.rules r.1.row) r.2.items) }
    ensures all { IfOk result (λ r. map number_of r.2.items
        ≡ numbers_of (epoch_of_world P.rules r.1).mutators) }
    ensures ideal { IfOk result (λ r. BeginsIdeal (epoch_of_world P.rules r.1)) }
{
    let (heap, mutators) = closed(rt, alloc, world, seats)?;
    let (plain_heap, plain_mutators) = plain.close();
    check_same::<P>(
        rt,
        alloc,
        (&mutators, &plain_mutators),
        (&heap, &plain_heap),
    )?;
    let (world, seats) = opened(rt, alloc, heap, mutators)?;
    assert!(rt; plain_mutators.len() <= 16);
    let plain = PlainWorld::begin(alloc, plain_heap, plain_mutators)?;
    Ok((plain, world, seats))
}

// Replies and heaps are equal, from a new heap on through its epochs. Returns the number of random
// commands.
fn check_twins<P: Plan>(rt: &impl Abort, alloc: Global, random: &mut Random) -> Result<u32, Fail> {
    let first = plain_world::<P>(rt, alloc, 1, 2)?;
    let mut plain = begun_again(rt, alloc, first)?;
    let second = plain_world::<P>(rt, alloc, 1, 2)?;
    let (mut world, mut seats) = shared(rt, alloc, second)?;
    let mut done = 0u32;
    for _ in 0..EPOCHS {
        let (more, alike) = check_seat(rt, &mut plain, &world, &mut seats, random);
        done = done.wrapping_add(more);
        if !alike {
            return Ok(done);
        }
        (plain, world, seats) = both_again(rt, alloc, plain, world, seats)?;
    }
    Ok(done)
}

// The same of new heaps, until the random commands are many.
fn check_heaps<P: Plan>(rt: &impl Abort, alloc: Global, seed: u64) -> Result<(), Fail> {
    let mut random = Random(seed);
    let mut done = 0u32;
    for _ in 0..HEAPS {
        if done < COMMANDS {
            done = done.wrapping_add(check_twins::<P>(rt, alloc, &mut random)?);
        }
    }
    assert!(rt; done >= COMMANDS);
    Ok(())
}

#[test]
fn one_mutator_does_as_in_a_plain_world(rt: HostRuntime) -> Result<(), Fail> {
    let alloc = rt.alloc();
    check_heaps::<NoGc>(&rt, alloc, 1)?;
    check_heaps::<MarkSweep>(&rt, alloc, 2)?;
    check_heaps::<SemiSpace>(&rt, alloc, 3)?;
    check_heaps::<GenCopy>(&rt, alloc, 4)?;
    check_heaps::<Immix>(&rt, alloc, 5)?;
    check_heaps::<StickyImmix>(&rt, alloc, 6)
}
