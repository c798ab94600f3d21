//! A mutator's part of an epoch.

ghost use Rattle.std.specs.Prelude.{◌≡◌, ◌+◌, ◌<◌, ◌≤◌, ◌^◌, length, MatchOption};
ghost use Rattle.mm_runtime.specs.Prelude.{IsValid, HasPlace, IsOpen, births_at, places_of, stop_word, next_in_trace, IsProgress, EndsFor, EndsPart, GetsReply, RunsTrace};
ghost use Rattle.mm_runtime.specs.Prelude.command_is;

use crate::perform::perform;
use crate::progress::{PartEnd, Progress};
use ideal_heap::{Command, MAX_MUTATORS, MAX_NUMS, MAX_REFS, REGISTERS, Reply};
use managed_heap::PlainWorld;
use mutator_calls::{Allocated, Polled};
use plan_api::Plan;
use stored_commands::StoredCommand;
use stored_replies::StoredReplies;
use work_packets::{Gate, Point};

/// Allocates the object of a `new`: the reply goes to the replies, or the part ends if the stop is
/// to serve it. A reply answered within another enum would be copied, and wait for its own stores.
fn allocate<P: Plan, G: Gate>(
    world: &mut PlainWorld<P>,
    place: u32,
    d: u32,
    refs: u32,
    nums: u32,
    replies: &mut StoredReplies,
    gate: &G,
) -> Option<PartEnd>
    requires open { IsOpen P.rules world.old }
    requires place { HasPlace world.old place }
    requires few { places_of world.old ≤ MAX_MUTATORS }
    requires register { d < REGISTERS }
    requires refs { refs ≤ MAX_REFS }
    requires nums { nums ≤ MAX_NUMS }
    requires births { births_at world.old place + 1 < 2 ^ 32 }
    requires calm { stop_word world.old ≡ 0 }
    requires room { length replies.old.items < replies.old.capacity }
    ensures { MatchOption result
        (GetsReply P.rules world.old place (command_is.New d refs nums) replies.old
        world.new replies.new)
        (EndsPart P.rules world.old place (command_is.New d refs nums) replies.old
        world.new replies.new) }
{
    gate.pass(place + 1, Point::Alloc);
    match world.new_object(place, d, refs, nums) {
        Allocated::Made(name) => {
            gate.pass(place + 1, Point::Publish);
            replies.push_reserved(Reply::New(name));
            None
        }
        Allocated::Stop(need) => {
            world.raise(place);
            Some(PartEnd::Need(need))
        }
    }
}

/// One step of the part: the reply to the next command goes to the replies, or the part ends.
fn step<P: Plan, G: Gate>(
    world: &mut PlainWorld<P>,
    place: u32,
    stored: StoredCommand<'_>,
    replies: &mut StoredReplies,
    gate: &G,
) -> Option<PartEnd>
    requires open { IsOpen P.rules world.old }
    requires place { HasPlace world.old place }
    requires few { places_of world.old ≤ MAX_MUTATORS }
    requires valid { IsValid stored }
    requires births { births_at world.old place + 1 < 2 ^ 32 }
    requires room { length replies.old.items < replies.old.capacity }
    ensures { MatchOption result
        (GetsReply P.rules world.old place stored.entry replies.old world.new replies.new)
        (EndsPart P.rules world.old place stored.entry replies.old world.new replies.new) }
{
    gate.pass(place + 1, Point::Poll);
    if let Polled::Raised(by) = world.poll(place) {
        return Some(PartEnd::Raised(by));
    }
    let command = stored.command();
    match command {
        Command::Gc => {
            world.raise(place);
            Some(PartEnd::Gc)
        }
        Command::Meet => Some(PartEnd::Meet),
        Command::New { d, refs, nums } => allocate(world, place, d, refs, nums, replies, gate),
        _ => {
            perform(world, place, command, replies);
            None
        }
    }
}

/// Runs the mutator at place `place` from its next command on, until its part of the epoch ends.
pub(crate) fn run_part<P: Plan, G: Gate>(
    world: &mut PlainWorld<P>,
    place: u32,
    progress: &mut Progress,
    gate: &G,
) -> PartEnd
    requires open { IsOpen P.rules world.old }
    requires place { HasPlace world.old place }
    requires few { places_of world.old ≤ MAX_MUTATORS }
    requires progress { IsProgress progress.old }
    requires births { births_at world.old place ≤ length progress.old.replies.items }
    ensures runs { RunsTrace P.rules world.old place progress.old world.new progress.new }
    ensures progress { IsProgress progress.new }
    ensures births { births_at world.new place ≤ length progress.new.replies.items }
    ensures end { EndsFor (stop_word world.old) world.new place
        (next_in_trace progress.new) result }
{
    progress.prepare_next();
    while let Some(stored) = progress.trace.get(progress.replies.len()) {
        if let Some(end) = step(world, place, stored, &mut progress.replies, gate) {
            return end;
        }
        progress.prepare_next();
    }
    PartEnd::Trace
}
