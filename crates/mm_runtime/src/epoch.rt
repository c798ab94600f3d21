//! An epoch: each mutator runs until it stops.
//!
//! `advance` calls `run_epoch` first. It hands heap, mutators and notes to a world and takes back
//! what the world leaves, all three from the same `close_with`; `run_part` adds the replies. Never
//! writes the counts of collections.

ghost use Rattle.std.specs.Prelude.{◌≡◌, ◌+◌, ◌<◌, ◌≤◌, ℕ, length, slice_get, Some, IfOk};
ghost use Rattle.mm_runtime.specs.Prelude.{births_at, mutator_number_at, places_of, stop_word, IsOpen, replied, IsProgress, IsInOrder, ClosesSome, EndsParts, IsManaged, AreGcs, AreNeeds, RunsParts};

use crate::manager::Manager;
use crate::part::run_part;
use crate::progress::{PartEnd, Progress};
use ideal_heap::MAX_MUTATORS;
use managed_heap::{Parts, PlainWorld, StoppedHeap};
use plan_api::Plan;
use std::alloc::{AllocError, Global};
use work_packets::Gate;

/// Runs each mutator's part, one after another. Returns how each ended.
fn run_parts<P: Plan, G: Gate>(
    alloc: Global,
    world: &mut PlainWorld<P>,
    progress: &mut Vec<Progress>,
    gate: &G,
) -> Result<Vec<PartEnd>, AllocError>
    requires open { IsOpen P.rules world.old }
    requires few { places_of world.old ≤ MAX_MUTATORS }
    requires places { places_of world.old ≡ length progress.old.items }
    requires numbers { (k : ℕ) → k < places_of world.old → mutator_number_at world.old k ≡ k + 1 }
    requires calm { stop_word world.old ≡ 0 }
    requires each { (k : ℕ) (p : Progress) → slice_get progress.old.items k ≡ Some p
        → IsProgress p }
    requires births { (k : ℕ) (p : Progress) → slice_get progress.old.items k ≡ Some p
        → births_at world.old k ≤ length p.replies.items }
    ensures { IfOk result (λ ends. RunsParts P.rules world.old progress.old.items
        (length progress.old.items) ends.items world.new progress.new.items) }
{
    let mut ends = Vec::with_capacity(alloc, progress.len())?;
    for m in 0..progress.len() {
        ends.push_reserved(run_part(world, m as u32, &mut progress[m], gate));
    }
    Ok(ends)
}

impl<P: Plan> Manager<P> {
    /// Runs an epoch. Returns how each mutator's part of it ended.
    pub(crate) fn run_epoch<G: Gate>(
        self,
        gate: &G,
    ) -> Result<(Manager<P>, Vec<PartEnd>), AllocError>
        requires plan { IsManaged P.rules }
        requires ready { ClosesSome P.rules self }
        ensures order { IfOk result (λ r. IsInOrder P.rules 0 r.0) }
        ensures part { IfOk result (λ r. EndsParts P.rules self r.1.items r.0) }
        ensures count { IfOk result (λ r. length r.1.items ≡ length r.0.progress.items) }
        ensures gcs { IfOk result (λ r. AreGcs r.0.progress.items r.1.items) }
        ensures needs { IfOk result (λ r. AreNeeds r.0.progress.items r.1.items) }
        ensures replied { IfOk result (λ r.
            replied self.progress.items ≤ replied r.0.progress.items) }
    {
        let Manager {
            alloc,
            heap: stopped,
            mut progress,
            pace,
        } = self;
        let parts = stopped.into_parts();
        let mut world = PlainWorld::<P>::begin_with(
            alloc,
            parts.heap,
            parts.mutators,
            parts.notes,
        )?;
        let ends = run_parts(alloc, &mut world, &mut progress, gate)?;
        let (heap, mutators, notes) = world.close_with();
        let parts = Parts {
            heap,
            mutators,
            notes,
            roots: parts.roots,
            nursery: parts.nursery,
            full: parts.full,
            workers: parts.workers,
        };
        let heap = StoppedHeap::from_parts(alloc, parts);
        let manager = Manager {
            alloc,
            heap,
            progress,
            pace,
        };
        Ok((manager, ends))
    }
}
