//! Epochs whose mutators run on threads: opened at a manager, and closed into the next.
//!
//! An epoch and its parts hold all that the manager held. `run_part` may be called on each part in
//! a thread of its own, by a `&` to the epoch; `close_epoch` runs those that were not.

ghost use Rattle.std.specs.Prelude.{◌≡◌, ◌↔◌, ◌<◌, ◌≤◌, All, None, length, map, IfOk, IfSome};
ghost use Rattle.mm_runtime.specs.Prelude.{Setting, Moment, IsWhole, Closes, State, left, replied, number_of, has_raised, next_in_trace, raises_stop, SeatEndsFor, seat_of, trace_in, end_of, ClosesSome, HasEnded, IsManaged, IsInOrder, MakesEpoch, IsPartOf, RunsPartOf, RunsToEnd, RepliesSince, IsEpochOf, EndsParts, AreGcs, AreNeeds, RunsAll};

use crate::manager::{Manager, Turn};
use crate::pace::Pace;
use crate::progress::{PartEnd, Progress};
use crate::seat_part::{Part, run_part_at};
use crate::side_by_side::{run_in_turn, run_side_by_side};
use block_regions::BlockNotes;
use managed_heap::{Parts, Scheduler, StoppedHeap};
use mutator_rule::MutatorSeat;
use plan_api::Plan;
use pools::Pool;
use racing_world::World;
use std::alloc::{AllocError, Global};
use std::thread::Threads;
use work_packets::Gate;

/// An epoch: the world that its mutators share, and what its stop needs besides.
#[derive(Drop)]
pub struct Epoch<P: Plan> {
    pub(crate) alloc: Global,
    pub(crate) world: World<P>,
    // What was known of the blocks as the epoch began.
    pub(crate) notes: BlockNotes,
    // The list that collections use for their roots.
    pub(crate) roots: Vec<u32>,
    // The numbers of nursery and full collections.
    pub(crate) nursery: u64,
    pub(crate) full: u64,
    // The number of workers of a collection.
    pub(crate) workers: u32,
}

/// Runs a part of this epoch to its end. One that has ended stays as it is. Takes no memory, and
/// waits for nobody.
pub fn run_part<P: Plan, G: Gate>(epoch: &Epoch<P>, part: &mut Part, gate: &G)
    requires part { IsPartOf P.rules epoch.now.world part.old }
    ensures part { IsPartOf P.rules epoch.now.world part.new }
    ensures ended { part.new.end ≡ None → ⊥ }
    ensures cause { IfSome part.new.end (SeatEndsFor P.rules part.new.seat
        (next_in_trace part.new.progress)) }
    ensures raised { IfSome part.new.end (λ end. has_raised part.new.seat ≡ raises_stop end) }
    ensures same { (part.old.end ≡ None → ⊥) → part.new ≡ part.old }
    ensures runs { RunsPartOf P.rules epoch.now.world part.old part.new }
    ensures since { (before : State) → RepliesSince P.rules before part.old
        → RepliesSince P.rules before part.new }
{
    run_part_at(&epoch.world, part, gate);
}

/// The parts of the traces, each with its mutator's seat.
fn new_parts(
    alloc: Global,
    progress: Vec<Progress>,
    seats: Vec<MutatorSeat>,
) -> Result<Vec<Part>, AllocError>
    requires { length seats.items ≡ length progress.items }
    ensures traces { IfOk result (λ v. map trace_in v.items ≡ progress.items) }
    ensures seats { IfOk result (λ v. map seat_of v.items ≡ seats.items) }
    ensures numbers { IfOk result (λ v. All (λ p. p.mutator ≡ number_of p.seat) v.items) }
    ensures fresh { IfOk result (λ v. All (λ p. p.end ≡ None) v.items) }
{
    let mut seats = seats;
    let mut parts = Vec::with_capacity(alloc, progress.len())?;
    for trace in progress {
        let seat = seats.remove(0);
        parts.push_reserved(Part {
            mutator: seat.number(),
            progress: trace,
            seat,
            end: None,
        });
    }
    Ok(parts)
}

/// Runs each part of an epoch to its end. Those with commands left run at the same time, each in a
/// thread where one can be started. Takes no memory.
pub fn run_parts<P: Plan + Sync, G: Gate, R: Threads + Sync>(
    rt: &R,
    epoch: &Epoch<P>,
    parts: &mut Vec<Part>,
    gate: &G,
)
    requires ready { (old : Manager P) × ClosesSome P.rules old
        × IsEpochOf P.rules old epoch.now parts.old.items }
    ensures runs { RunsAll P.rules epoch.now.world parts.old.items parts.new.items }
    ensures epoch { (old : Manager P) → IsEpochOf P.rules old epoch.now parts.old.items
        → IsEpochOf P.rules old epoch.now parts.new.items }
{
    run_side_by_side(rt, &epoch.world, gate, parts.as_mut_slice());
}

/// The seats, the traces and the ends of the parts.
fn take_apart(
    alloc: Global,
    parts: Vec<Part>,
) -> Result<(Vec<MutatorSeat>, Vec<Progress>, Vec<PartEnd>), AllocError>
    ensures seats { IfOk result (λ r. r.0.items ≡ map seat_of parts.items) }
    ensures traces { IfOk result (λ r. r.1.items ≡ map trace_in parts.items) }
    ensures ends { IfOk result (λ r. r.2.items ≡ map end_of parts.items) }
{
    let mut seats = Vec::with_capacity(alloc, parts.len())?;
    let mut progress = Vec::with_capacity(alloc, parts.len())?;
    let mut ends = Vec::with_capacity(alloc, parts.len())?;
    for part in parts {
        let Part {
            progress: trace,
            seat,
            end,
            ..
        } = part;
        seats.push_reserved(seat);
        progress.push_reserved(trace);
        ends.push_reserved(end.unwrap_or(PartEnd::Trace));
    }
    Ok((seats, progress, ends))
}

impl<P: Plan> Manager<P> {
    /// Opens an epoch: each mutator gets a part, in order.
    ///
    /// Fails if memory runs out. The manager is lost then.
    pub fn open_epoch(self) -> Result<(Epoch<P>, Vec<Part>), AllocError>
        requires ready { ClosesSome P.rules self }
        ensures epoch { IfOk result (λ r. IsEpochOf P.rules self r.0 r.1.items) }
        ensures fresh { IfOk result (λ r. All (λ p. p.end ≡ None) r.1.items) }
    {
        let Manager {
            alloc,
            heap,
            progress,
            ..
        } = self;
        let parts = heap.into_parts();
        let (world, seats) = World::<P>::begin_with(
            alloc,
            parts.heap,
            parts.mutators,
            &parts.notes,
        )?;
        let epoch = Epoch {
            alloc,
            world,
            notes: parts.notes,
            roots: parts.roots,
            nursery: parts.nursery,
            full: parts.full,
            workers: parts.workers,
        };
        let parts = new_parts(alloc, progress, seats)?;
        Ok((epoch, parts))
    }
}

impl<P: Plan> Epoch<P> {
    /// Ends the epoch, whose parts have ended. Returns how each ended.
    ///
    /// Fails if memory runs out. The epoch is lost then.
    fn close(self, parts: Vec<Part>) -> Result<(Manager<P>, Vec<PartEnd>), AllocError>
        requires ready { (old : Manager P) × ClosesSome P.rules old
            × IsEpochOf P.rules old self parts.items }
        requires ended { All (λ p. p.end ≡ None → ⊥) parts.items }
        ensures order { IfOk result (λ r. IsInOrder P.rules 0 r.0) }
        ensures part { (old : Manager P) → IsEpochOf P.rules old self parts.items
            → IfOk result (λ r. EndsParts P.rules old r.1.items r.0) }
        ensures count { IfOk result (λ r. length r.1.items ≡ length r.0.progress.items) }
        ensures gcs { IfOk result (λ r. AreGcs r.0.progress.items r.1.items) }
        ensures needs { IfOk result (λ r. AreNeeds r.0.progress.items r.1.items) }
        ensures replied { (old : Manager P) → IsEpochOf P.rules old self parts.items
            → IfOk result (λ r. replied old.progress.items ≤ replied r.0.progress.items) }
    {
        let (seats, progress, ends) = take_apart(self.alloc, parts)?;
        let Epoch {
            alloc,
            world,
            notes,
            roots,
            nursery,
            full,
            workers,
        } = self;
        let (heap, mutators, notes) = world.close_with(alloc, seats, notes)?;
        let parts = Parts {
            heap,
            mutators,
            notes,
            roots,
            nursery,
            full,
            workers,
        };
        let heap = StoppedHeap::from_parts(alloc, parts);
        let manager = Manager {
            alloc,
            heap,
            progress,
            pace: Pace::new(),
        };
        Ok((manager, ends))
    }

    /// Runs each part that has not ended, ends the epoch and makes its stop.
    ///
    /// Fails if memory runs out. The epoch is lost then.
    pub fn close_epoch<Q: Pool, G: Gate, R: Threads + Sync>(
        self,
        rt: &R,
        parts: Vec<Part>,
        pool: &Q,
        gate: &G,
    ) -> Result<(Manager<P>, Turn), AllocError>
        requires plan { IsManaged P.rules }
        requires ready { (old : Manager P) × ClosesSome P.rules old
            × IsEpochOf P.rules old self parts.items }
        ensures ready { IfOk result (λ r. ClosesSome P.rules r.0) }
        ensures epoch { (old : Manager P) → IsEpochOf P.rules old self parts.items
            → IfOk result (λ r. MakesEpoch P.rules old r.0) }
        ensures ended { IfOk result (λ r. (r.1 ≡ Turn.Ended) ↔ HasEnded r.0) }
        ensures whole { IfOk result (λ r. r.1 ≡ Turn.Ended → (t : Setting) (now : Moment)
            → Closes P.rules r.0 t now → IsWhole t now) }
        ensures more { (old : Manager P) → ClosesSome P.rules old
            → IsEpochOf P.rules old self parts.items → IfOk result (λ r. r.1 ≡ Turn.More
            → replied old.progress.items < replied r.0.progress.items) }
        ensures left { (old : Manager P) → ClosesSome P.rules old
            → IsEpochOf P.rules old self parts.items → IfOk result (λ r. r.1 ≡ Turn.More
            → left r.0.progress.items < left old.progress.items) }
    {
        let mut parts = parts;
        run_in_turn(&self.world, gate, parts.as_mut_slice());
        let (manager, ends) = self.close(parts)?;
        let scheduler = Scheduler { rt, pool, gate };
        let (manager, turn) = manager.make_stop(&scheduler, &ends)?;
        Ok((manager, turn))
    }
}
