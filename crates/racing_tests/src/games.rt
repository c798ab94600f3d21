//! What each mutator does where all share one object.

ghost use Rattle.std.specs.Prelude.{◌≡◌};
ghost use Rattle.racing_mutator.specs.RacingSeats.{MayCall};
ghost use Rattle.racing_world.specs.Calls.{number_of};

use crate::worlds::{OWN, SHARED, number};
use ideal_heap::Reply;
use mutator_calls::Polled;
use mutator_rule::MutatorSeat;
use plan_api::Plan;
use racing_world::World;

/// How often each mutator takes its turn.
pub(crate) const TURNS: u64 = 8;

// The numbers of the object that all have: how many mutators arrived; the counter; the lock, what
// it guards, and how often it was taken; how many pins and unpins changed the bit; the stops that
// were seen, in one sum; how many saw what another handed over; errors; from REPLIES on how often
// the counter was each number.
const ARRIVED: u32 = 0;

const COUNTER: u32 = 1;

const LOCK: u32 = 2;

const GUARDED: u32 = 3;

const TAKEN: u32 = 4;

const PINNED: u32 = 5;

const UNPINNED: u32 = 6;

const STOPS: u32 = 7;

const HANDED: u32 = 8;

const ERRORS: u32 = 9;

const REPLIES: u32 = 10;

/// How many numbers it has.
pub(crate) const NUMS: u32 = 150;

// How often a mutator tries to take the lock, and how often it looks for the others.
const TRIES: u32 = 10_000_000;

const LOOKS: u32 = 300;

// What a mutator hands over, but for its place.
const GIFT: u64 = 77_000;

// Counts an error.
fn fail<P: Plan>(world: &World<P>, seat: &mut MutatorSeat)
    requires { MayCall P.rules world.now.row seat.old }
    ensures call { MayCall P.rules world.now.row seat.new }
    ensures number { number_of seat.new ≡ number_of seat.old }
{
    world.add(seat, SHARED, ERRORS, 1);
}

/// Waits for the others, but not for long.
pub(crate) fn meet<P: Plan>(world: &World<P>, seat: &mut MutatorSeat, count: u32)
    requires { MayCall P.rules world.now.row seat.old }
    ensures call { MayCall P.rules world.now.row seat.new }
    ensures number { number_of seat.new ≡ number_of seat.old }
{
    world.add(seat, SHARED, ARRIVED, 1);
    for _ in 0..LOOKS {
        if number(world, seat, SHARED, ARRIVED) >= count as u64 {
            return;
        }
    }
}

// Adds to the counter, and notes the reply.
fn count<P: Plan>(world: &World<P>, seat: &mut MutatorSeat)
    requires { MayCall P.rules world.now.row seat.old }
    ensures call { MayCall P.rules world.now.row seat.new }
    ensures number { number_of seat.new ≡ number_of seat.old }
{
    if let Reply::Num(n) = world.add(seat, SHARED, COUNTER, 1) {
        let reply = n.min(NUMS as u64) as u32;
        world.add(seat, SHARED, REPLIES + reply, 1);
    }
}

// Whether the lock could be taken.
fn takes_lock<P: Plan>(world: &World<P>, seat: &mut MutatorSeat) -> bool
    requires { MayCall P.rules world.now.row seat.old }
    ensures call { MayCall P.rules world.now.row seat.new }
    ensures number { number_of seat.new ≡ number_of seat.old }
{
    for _ in 0..TRIES {
        if matches!(world.swap(seat, SHARED, LOCK, 0, 1), Reply::Yes) {
            return true;
        }
    }
    false
}

// Counts under the lock, by a load and a store.
fn guard<P: Plan>(world: &World<P>, seat: &mut MutatorSeat)
    requires { MayCall P.rules world.now.row seat.old }
    ensures call { MayCall P.rules world.now.row seat.new }
    ensures number { number_of seat.new ≡ number_of seat.old }
{
    if takes_lock(world, seat) {
        let n = number(world, seat, SHARED, GUARDED);
        world.write(seat, SHARED, GUARDED, n.wrapping_add(1));
        world.swap(seat, SHARED, LOCK, 1, 0);
        world.add(seat, SHARED, TAKEN, 1);
    }
}

// Whether the mutator finds in its own object what it stored, and no other its pin.
fn own_is_kept<P: Plan>(world: &World<P>, seat: &mut MutatorSeat, turn: u64) -> bool
    requires { MayCall P.rules world.now.row seat.old }
    ensures call { MayCall P.rules world.now.row seat.new }
    ensures number { number_of seat.new ≡ number_of seat.old }
{
    let n = turn.wrapping_mul(GIFT);
    world.write(seat, OWN, 1, n);
    let before = number(world, seat, OWN, 2);
    let added = world.add(seat, OWN, 2, 1);
    world.put(seat, OWN, 0, OWN);
    let field = world.get(seat, 3, OWN, 0);
    let pinned = world.pin(seat, OWN);
    let unpinned = world.unpin(seat, 3);
    let kept = number(world, seat, 3, 1);
    before == turn
        && added == Reply::Num(turn)
        && matches!(field, Reply::Ref(_))
        && kept == n
        && pinned == Reply::Yes
        && unpinned == Reply::Yes
}

// 1 if the reply is yes, else 0.
fn one_if_yes(reply: &Reply) -> u64 {
    if matches!(*reply, Reply::Yes) { 1 } else { 0 }
}

// Pins the object that all have, and unpins it.
fn pin<P: Plan>(world: &World<P>, seat: &mut MutatorSeat)
    requires { MayCall P.rules world.now.row seat.old }
    ensures call { MayCall P.rules world.now.row seat.new }
    ensures number { number_of seat.new ≡ number_of seat.old }
{
    let pinned = one_if_yes(&world.pin(seat, SHARED));
    world.add(seat, SHARED, PINNED, pinned);
    let unpinned = one_if_yes(&world.unpin(seat, SHARED));
    world.add(seat, SHARED, UNPINNED, unpinned);
}

// Whether the global has an object before long.
fn sees<P: Plan>(world: &World<P>, seat: &mut MutatorSeat, g: u32) -> bool
    requires { MayCall P.rules world.now.row seat.old }
    ensures call { MayCall P.rules world.now.row seat.new }
    ensures number { number_of seat.new ≡ number_of seat.old }
{
    for _ in 0..LOOKS {
        if matches!(world.load(seat, 2, g % 16), Reply::Ref(_)) {
            return true;
        }
    }
    false
}

// Stores in its own object and hands it over by a global, then looks for what the next one gives.
fn hand_over<P: Plan>(world: &World<P>, seat: &mut MutatorSeat, m: u32, count: u32)
    requires { MayCall P.rules world.now.row seat.old }
    ensures call { MayCall P.rules world.now.row seat.new }
    ensures number { number_of seat.new ≡ number_of seat.old }
{
    world.write(seat, OWN, 0, GIFT.wrapping_add(m as u64));
    world.share(seat, m % 16, OWN);
    let other = if m.wrapping_add(1) < count {
        m.wrapping_add(1)
    } else {
        0
    };
    if sees(world, seat, other) {
        let n = number(world, seat, 2, 0);
        let at = if n == GIFT.wrapping_add(other as u64) {
            HANDED
        } else {
            ERRORS
        };
        world.add(seat, SHARED, at, 1);
    }
}

// Raises a stop, and notes whose it sees.
fn stop<P: Plan>(world: &World<P>, seat: &mut MutatorSeat)
    requires { MayCall P.rules world.now.row seat.old }
    ensures call { MayCall P.rules world.now.row seat.new }
    ensures number { number_of seat.new ≡ number_of seat.old }
{
    world.raise(seat);
    match world.poll(seat) {
        Polled::Raised(mutator) => {
            world.add(seat, SHARED, STOPS, mutator as u64);
        }
        Polled::Go => fail(world, seat),
    }
}

// One turn.
fn take_turn<P: Plan>(world: &World<P>, seat: &mut MutatorSeat, turn: u64)
    requires { MayCall P.rules world.now.row seat.old }
    ensures call { MayCall P.rules world.now.row seat.new }
    ensures number { number_of seat.new ≡ number_of seat.old }
{
    count(world, seat);
    guard(world, seat);
    pin(world, seat);
    if !own_is_kept(world, seat, turn) {
        fail(world, seat);
    }
}

/// What the mutator at place `m` of `count` does.
pub(crate) fn play<P: Plan>(world: &World<P>, seat: &mut MutatorSeat, m: u32, count: u32)
    requires { MayCall P.rules world.now.row seat.old }
    ensures call { MayCall P.rules world.now.row seat.new }
    ensures number { number_of seat.new ≡ number_of seat.old }
{
    meet(world, seat, count);
    for turn in 0..TURNS {
        take_turn(world, seat, turn);
    }
    hand_over(world, seat, m, count);
    stop(world, seat);
}

// Whether the counter was each number below the total once.
fn replies_differ<P: Plan>(world: &World<P>, seat: &mut MutatorSeat, total: u32) -> bool
    requires { MayCall P.rules world.now.row seat.old }
    ensures call { MayCall P.rules world.now.row seat.new }
    ensures number { number_of seat.new ≡ number_of seat.old }
{
    for k in 0..total.min(NUMS) {
        if number(world, seat, SHARED, REPLIES + k) != 1 {
            return false;
        }
    }
    true
}

// Whether all saw one stop, and whose it is.
fn stops_are_one<P: Plan>(world: &World<P>, seat: &mut MutatorSeat, count: u32) -> bool
    requires { MayCall P.rules world.now.row seat.old }
    ensures call { MayCall P.rules world.now.row seat.new }
    ensures number { number_of seat.new ≡ number_of seat.old }
{
    match world.poll(seat) {
        Polled::Raised(mutator) => {
            let sum = (mutator as u64).wrapping_mul(count as u64);
            1 <= mutator && mutator <= count && number(world, seat, SHARED, STOPS) == sum
        }
        Polled::Go => false,
    }
}

// Whether the replies to pins and unpins are right together.
fn pins_are_told<P: Plan>(world: &World<P>, seat: &mut MutatorSeat) -> bool
    requires { MayCall P.rules world.now.row seat.old }
    ensures call { MayCall P.rules world.now.row seat.new }
    ensures number { number_of seat.new ≡ number_of seat.old }
{
    let pinned = number(world, seat, SHARED, PINNED);
    let unpinned = number(world, seat, SHARED, UNPINNED);
    let free = matches!(world.pin(seat, SHARED), Reply::Yes);
    0 < pinned && pinned.wrapping_sub(unpinned) == if free { 0 } else { 1 }
}

/// Whether all is right after `count` mutators played.
pub(crate) fn played_right<P: Plan>(world: &World<P>, seat: &mut MutatorSeat, count: u32) -> bool
    requires { MayCall P.rules world.now.row seat.old }
    ensures call { MayCall P.rules world.now.row seat.new }
    ensures number { number_of seat.new ≡ number_of seat.old }
{
    let total = TURNS.wrapping_mul(count as u64);
    let errors = number(world, seat, SHARED, ERRORS);
    let counter = number(world, seat, SHARED, COUNTER);
    let guarded = number(world, seat, SHARED, GUARDED);
    let taken = number(world, seat, SHARED, TAKEN);
    let handed = number(world, seat, SHARED, HANDED);
    let once = replies_differ(world, seat, total.min(NUMS as u64) as u32);
    let stopped = stops_are_one(world, seat, count);
    let pinned = pins_are_told(world, seat);
    once && stopped
        && pinned
        && errors == 0
        && counter == total
        && guarded == total
        && taken == total
        && handed > 0
}
