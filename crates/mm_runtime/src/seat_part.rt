//! A mutator's part of an epoch whose mutators run on threads.

ghost use Rattle.std.specs.Prelude.{◌≡◌, ◌+◌, ◌<◌, ◌≤◌, ◌^◌, None, length, MatchOption, IfNone, IfSome, false};
ghost use Rattle.mm_runtime.specs.Prelude.{IsValid, MayCall, has_raised, next_in_trace, IsProgress, SeatGetsReply, SeatGoesOn, SeatEndsPart, SeatEndsFor, RunsSeat, HasFewBirths, IsPartOf, RunsPartOf, RepliesSince, State, Rules, HasEndedFor, IsFreshSeat, raises_stop};
ghost use Rattle.mm_runtime.specs.Prelude.command_is;

use crate::progress::{PartEnd, Progress};
use crate::seat_calls::perform_at;
use ideal_heap::{Command, MAX_NUMS, MAX_REFS, REGISTERS, Reply};
use mutator_calls::{Allocated, Polled};
use mutator_rule::MutatorSeat;
use plan_api::Plan;
use racing_world::World;
use stored_commands::StoredCommand;
use stored_replies::StoredReplies;
use work_packets::{Gate, Point};

/// A mutator's part of an epoch: its trace, its seat, and how the part ended.
#[derive(Drop)]
pub struct Part {
    pub(crate) mutator: u32,
    pub(crate) progress: Progress,
    pub(crate) seat: MutatorSeat,
    pub(crate) end: Option<PartEnd>,
}

impl Part {
    /// The mutator's number.
    pub fn mutator(&self) -> u32
        ensures { result ≡ self.now.mutator }
    {
        self.mutator
    }

    /// How the part ended, `None` if it was not run yet.
    pub fn end(&self) -> Option<PartEnd>
        ensures same { result ≡ self.now.end }
        ensures fresh { (rules : Rules) → HasEndedFor rules self.now
            → IfNone result (IsFreshSeat rules self.now.seat) }
        ensures cause { (rules : Rules) → HasEndedFor rules self.now
            → IfSome result (SeatEndsFor rules self.now.seat (next_in_trace self.now.progress)) }
        ensures raised { (rules : Rules) → HasEndedFor rules self.now
            → IfSome result (λ end. has_raised self.now.seat ≡ raises_stop end) }
    {
        self.end
    }
}

/// Allocates the object of a `new`: the reply goes to the replies, or the part ends if the stop is
/// to serve it.
fn allocate_at<P: Plan, G: Gate>(
    world: &World<P>,
    seat: &mut MutatorSeat,
    d: u32,
    refs: u32,
    nums: u32,
    replies: &mut StoredReplies,
    gate: &G,
) -> Option<PartEnd>
    requires call { MayCall P.rules world.now.row seat.old }
    requires register { d < REGISTERS }
    requires refs { refs ≤ MAX_REFS }
    requires nums { nums ≤ MAX_NUMS }
    requires births { HasFewBirths P.rules world.now seat.old replies.old.items }
    requires few { length replies.old.items + 1 < 2 ^ 32 }
    requires room { length replies.old.items < replies.old.capacity }
    ensures { MatchOption result
        (SeatGetsReply P.rules world.now seat.old (command_is.New d refs nums) replies.old
        seat.new replies.new)
        (SeatEndsPart P.rules world.now seat.old (command_is.New d refs nums) replies.old
        seat.new replies.new) }
{
    let number = seat.number();
    gate.pass(number, Point::Alloc);
    match world.new_object(seat, d, refs, nums) {
        Allocated::Made(name) => {
            gate.pass(number, Point::Publish);
            replies.push_reserved(Reply::New(name));
            None
        }
        Allocated::Stop(need) => {
            world.raise(seat);
            Some(PartEnd::Need(need))
        }
    }
}

/// One step of the part: the reply to the next command goes to the replies, or the part ends.
fn step_at<P: Plan, G: Gate>(
    world: &World<P>,
    seat: &mut MutatorSeat,
    stored: StoredCommand<'_>,
    replies: &mut StoredReplies,
    gate: &G,
) -> Option<PartEnd>
    requires call { MayCall P.rules world.now.row seat.old }
    requires valid { IsValid stored }
    requires births { HasFewBirths P.rules world.now seat.old replies.old.items }
    requires few { length replies.old.items + 1 < 2 ^ 32 }
    requires room { length replies.old.items < replies.old.capacity }
    ensures { MatchOption result
        (SeatGoesOn P.rules world.now seat.old stored.entry replies.old seat.new replies.new)
        (SeatEndsPart P.rules world.now seat.old stored.entry replies.old seat.new replies.new) }
{
    gate.pass(seat.number(), Point::Poll);
    if let Polled::Raised(by) = world.poll(seat) {
        return Some(PartEnd::Raised(by));
    }
    let command = stored.command();
    match command {
        Command::Gc => {
            world.raise(seat);
            Some(PartEnd::Gc)
        }
        Command::Meet => Some(PartEnd::Meet),
        Command::New { d, refs, nums } => allocate_at(world, seat, d, refs, nums, replies, gate),
        _ => {
            perform_at(world, seat, command, replies);
            None
        }
    }
}

/// Runs the mutator of a seat from its next command on, until its part of the epoch ends.
fn run_seat<P: Plan, G: Gate>(
    world: &World<P>,
    seat: &mut MutatorSeat,
    progress: &mut Progress,
    gate: &G,
) -> PartEnd
    requires call { MayCall P.rules world.now.row seat.old }
    requires calm { has_raised seat.old ≡ false }
    requires progress { IsProgress progress.old }
    requires births { HasFewBirths P.rules world.now seat.old progress.old.replies.items }
    ensures runs { RunsSeat P.rules world.now seat.old progress.old seat.new progress.new }
    ensures progress { IsProgress progress.new }
    ensures births { HasFewBirths P.rules world.now seat.new progress.new.replies.items }
    ensures end { SeatEndsFor P.rules seat.new (next_in_trace progress.new) result }
    ensures raised { has_raised seat.new ≡ raises_stop result }
{
    progress.prepare_next();
    while let Some(stored) = progress.trace.get(progress.replies.len()) {
        if let Some(end) = step_at(world, seat, stored, &mut progress.replies, gate) {
            return end;
        }
        progress.prepare_next();
    }
    PartEnd::Trace
}

/// Runs a part of an epoch with this world to its end. One that has ended stays as it is.
pub(crate) fn run_part_at<P: Plan, G: Gate>(world: &World<P>, part: &mut Part, gate: &G)
    requires { IsPartOf P.rules world.now part.old }
    ensures part { IsPartOf P.rules world.now part.new }
    ensures ended { part.new.end ≡ None → ⊥ }
    ensures same { (part.old.end ≡ None → ⊥) → part.new ≡ part.old }
    ensures runs { RunsPartOf P.rules world.now part.old part.new }
    ensures since { (before : State) → RepliesSince P.rules before part.old
        → RepliesSince P.rules before part.new }
{
    if part.end.is_some() {
        return;
    }
    let end = run_seat(world, &mut part.seat, &mut part.progress, gate);
    part.end = Some(end);
}
