//! Replies of mutators on threads, which some order of their commands gives in the ideal heap.

ghost use Rattle.std.specs.Prelude.{◌≡◌, ◌<◌, All, length, map};
ghost use Rattle.std.specs.Thread.{IsSync};
ghost use Rattle.racing_mutator.specs.RacingSeats.{MayCall};
ghost use Rattle.racing_world.specs.Calls.{number_of};

use crate::games::meet;
use crate::ideal::Ideal;
use crate::worlds::{SHARED, code_of, new_world, number, reply_to};
use ideal_heap::Command;
use mutator_rule::MutatorSeat;
use plan_api::Plan;
use plans::{NoGc, StickyImmix};
use racing_world::World;
use std::alloc::Global;
use std::process::Abort;
use std::test::Fail;
use std::thread::{Threads, for_each_mut};

// How often each trace runs.
const ROUNDS: u32 = 100;

// The most mutators of a trace.
const MOST_MUTATORS: usize = 4;

// The longest trace, and the number of the shared object from which on replies are noted.
const MOST: usize = 12;

const NOTES: u32 = 8;

const NUMS: u32 = NOTES + MOST as u32;

// Six commands of each of two mutators.
const TWO: [Command; 12] = [
    Command::Add { s: 0, j: 1, n: 1 },
    Command::Write { s: 0, j: 2, n: 7 },
    Command::Share { g: 3, s: 1 },
    Command::Swap {
        s: 0,
        j: 1,
        was: 1,
        next: 5,
    },
    Command::Get { d: 2, s: 0, i: 0 },
    Command::Read { s: 0, j: 2 },
    Command::Read { s: 0, j: 2 },
    Command::Add { s: 0, j: 1, n: 2 },
    Command::Load { d: 2, g: 3 },
    Command::Put { s: 0, i: 0, v: 1 },
    Command::Write { s: 0, j: 2, n: 8 },
    Command::Swap {
        s: 0,
        j: 1,
        was: 3,
        next: 9,
    },
];

// Two commands of each of four mutators.
const FOUR: [Command; 8] = [
    Command::Pin { s: 0 },
    Command::Swap {
        s: 0,
        j: 1,
        was: 0,
        next: 1,
    },
    Command::Pin { s: 0 },
    Command::Swap {
        s: 0,
        j: 1,
        was: 0,
        next: 2,
    },
    Command::Swap {
        s: 0,
        j: 1,
        was: 1,
        next: 3,
    },
    Command::Unpin { s: 0 },
    Command::Put { s: 0, i: 0, v: 1 },
    Command::Get { d: 2, s: 0, i: 0 },
];

// The mutator makes the command if it is its own, and notes the reply.
fn run_command<P: Plan>(
    world: &World<P>,
    seat: &mut MutatorSeat,
    own: bool,
    at: u32,
    command: &Command,
)
    requires call { MayCall P.rules world.now.row seat.old }
    requires place { at < MOST }
    ensures call { MayCall P.rules world.now.row seat.new }
    ensures number { number_of seat.new ≡ number_of seat.old }
{
    if own {
        let reply = reply_to(world, seat, command);
        world.write(seat, SHARED, NOTES + at, code_of(&reply));
    }
}

// The mutator at place `m` makes its commands, and notes the replies.
fn run_commands<P: Plan>(
    world: &World<P>,
    seat: &mut MutatorSeat,
    m: usize,
    count: u32,
    table: &[Command],
)
    requires { MayCall P.rules world.now.row seat.old }
    ensures call { MayCall P.rules world.now.row seat.new }
    ensures number { number_of seat.new ≡ number_of seat.old }
{
    meet(world, seat, count);
    let mut at = 0;
    for command in table {
        run_command(world, seat, is_of(at, m, table.len(), count), at, command);
        at = (at + 1) % MOST as u32;
    }
}

// Whether the command at this place of a table is one of the mutator at place `m`.
fn is_of(at: u32, m: usize, commands: usize, count: u32) -> bool {
    if count == 0 {
        return false;
    }
    let each = commands / count as usize;
    each > 0 && at as usize / each == m
}

// How the replies differ from those that the ideal heap gives in this order. The digits of `order`,
// to the base of `count`, tell whose command is next, the highest one first. 0 if all are the same,
// else the weight of the digit of the first reply that is another.
fn first_fault(
    table: &[Command],
    replies: &[u64; MOST],
    count: u32,
    orders: u32,
    order: u32,
) -> u32 {
    if count == 0 {
        return 1;
    }
    let mut heap = Ideal::new();
    let mut done = [0usize; MOST_MUTATORS];
    let mut weight = orders;
    let each = table.len() / count as usize;
    for _ in 0..table.len() {
        weight /= count;
        if weight == 0 {
            return 1;
        }
        let m = (order / weight % count) as usize;
        if m >= MOST_MUTATORS || done[m] >= each {
            return weight;
        }
        let at = m.wrapping_mul(each).wrapping_add(done[m]);
        if at >= table.len() || at >= MOST || heap.reply(m, &table[at]) != replies[at] {
            return weight;
        }
        done[m] = done[m].wrapping_add(1);
    }
    0
}

// Whether some of the orders gives the replies. Those that begin with a wrong one are passed over.
fn has_order(table: &[Command], replies: &[u64; MOST], count: u32, orders: u32) -> bool {
    let mut order = 0u32;
    for _ in 0..orders {
        if order >= orders {
            return false;
        }
        let weight = first_fault(table, replies, count, orders, order);
        if weight == 0 {
            return true;
        }
        order = (order / weight).wrapping_add(1).wrapping_mul(weight);
    }
    false
}

// The replies that the mutators noted.
fn noted<P: Plan>(world: &World<P>, seat: &mut MutatorSeat) -> [u64; MOST]
    requires { MayCall P.rules world.now.row seat.old }
    ensures call { MayCall P.rules world.now.row seat.new }
    ensures number { number_of seat.new ≡ number_of seat.old }
{
    let mut replies = [0; MOST];
    for k in 0..MOST {
        replies[k] = number(world, seat, SHARED, NOTES + k as u32);
    }
    replies
}

// Each mutator makes its commands, on a thread of its own where one can be started.
fn run_together<P: Plan + Sync, R: Threads + Sync>(
    rt: &R,
    world: &World<P>,
    seats: &mut [MutatorSeat],
    count: u32,
    table: &[Command],
)
    requires calls { All (MayCall P.rules world.now.row) seats.old }
    requires some { 0 < length seats.old }
    ensures calls { All (MayCall P.rules world.now.row) seats.new }
{
    let threads = seats.len();
    for_each_mut(
        rt,
        seats,
        threads,
        &|i: usize, seat: &mut MutatorSeat|
            requires { IsSync P.row × MayCall P.rules world.now.row seat.old }
            ensures { MayCall P.rules world.entry.now.row seat.new
                × (number_of seat.new ≡ number_of seat.old) }
        {
            run_commands(world, seat, i, count, table);
        },
    );
}

// Some order of the commands gives the replies.
fn check_orders<P: Plan + Sync, R: Threads + Sync + Abort>(
    rt: &R,
    alloc: Global,
    count: u32,
    table: &[Command],
    orders: u32,
) -> Result<(), Fail> {
    let (world, mut seats) = new_world::<P>(rt, alloc, count, NUMS)?;
    assert!(rt; seats.len() > 0);
    run_together(rt, &world, seats.as_mut_slice(), count, table);
    assert!(rt; seats.len() > 0);
    let replies = noted(&world, &mut seats[0]);
    assert!(rt; has_order(table, &replies, count, orders));
    Ok(())
}

#[test]
fn replies_have_an_order(rt: HostRuntime) -> Result<(), Fail> {
    let alloc = rt.alloc();
    for _ in 0..ROUNDS {
        check_orders::<NoGc, _>(&rt, alloc, 2, &TWO, 4096)?;
        check_orders::<StickyImmix, _>(&rt, alloc, 4, &FOUR, 65536)?;
    }
    Ok(())
}
