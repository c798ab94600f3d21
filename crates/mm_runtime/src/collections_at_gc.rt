//! The first step of a stop: the collection that `gc` asks for.
//!
//! `advance` calls `collect_at` after the epoch, and before any need is served. One collection
//! answers all: each mutator at `gc` gets its reply together with it, and no other mutator gets
//! one. Never places an object.

ghost use Rattle.std.specs.Prelude.{◌≡◌, ◌≢◌, ◌↔◌, ◌≤◌, ◌<◌, ℕ, IsTrue, filter, length, Some, slice_get, IfOk};
ghost use Rattle.mm_runtime.specs.Prelude.{Setting, Moment, CollectsFor, is_at_gc, traced_mutators, State, replied, IsAtStop, IsInOrder, IsProgress, StandsAt, IsManaged, causes, AreGcs, is_gc_at, HasGc, RepliesBelow};
ghost use Rattle.mm_runtime.specs.Prelude.end_is;

use crate::manager::Manager;
use crate::progress::{PartEnd, Progress, reply_ok};
use managed_heap::Scheduler;
use object_model::Collect;
use plan_api::Plan;
use pools::Pool;
use std::alloc::AllocError;
use std::thread::Threads;
use work_packets::Gate;

/// Whether a mutator's part ended at `gc`.
fn some_gc(ends: &[PartEnd]) -> bool
    ensures { IsTrue result ↔ HasGc ends.now }
{
    for end in ends {
        if let PartEnd::Gc = end {
            return true;
        }
    }
    false
}

/// Replies `ok` to each mutator whose part ended at `gc`.
fn reply_to_gcs(progress: &mut Vec<Progress>, ends: &[PartEnd])
    requires count { length ends.now ≡ length progress.old.items }
    requires each { (k : ℕ) (p : State)
        → slice_get progress.old.items k ≡ Some p → IsProgress p }
    requires gcs { AreGcs progress.old.items ends.now }
    ensures { RepliesBelow (is_gc_at ends.now) (length progress.old.items)
        progress.old.items progress.new.items }
{
    for (m, end) in ends.iter().enumerate() {
        if let PartEnd::Gc = end {
            reply_ok(&mut progress[m]);
        }
    }
}

impl<P: Plan> Manager<P> {
    /// Makes one full collection for all mutators at `gc`, if there are any.
    ///
    /// Fails if memory runs out. The manager is lost then.
    pub(crate) fn collect_at<Q: Pool, G: Gate, R: Threads + Sync>(
        self,
        scheduler: &Scheduler<'_, R, Q, G>,
        ends: &[PartEnd],
    ) -> Result<Manager<P>, AllocError>
        requires plan { IsManaged P.rules }
        requires stop { IsAtStop P.rules 0 self }
        requires count { length ends.now ≡ length self.progress.items }
        requires gcs { AreGcs self.progress.items ends.now }
        ensures order { IfOk result (λ r. IsInOrder P.rules 0 r) }
        ensures gc { (t : Setting) (now : Moment) → StandsAt P.rules self t now
            → IfOk result (λ r. (mid : Moment)
            × CollectsFor t (filter (λ m. is_at_gc (causes ends.now m)) (traced_mutators t)) now mid
            × StandsAt P.rules r t mid) }
        ensures others { IfOk result (λ r. (k : ℕ) → slice_get ends.now k ≢ Some end_is.Gc
            → slice_get r.progress.items k ≡ slice_get self.progress.items k) }
        ensures replied { IfOk result (λ r.
            replied self.progress.items ≤ replied r.progress.items) }
    {
        if !some_gc(ends) {
            return Ok(self);
        }
        let Manager {
            alloc,
            heap,
            mut progress,
            pace,
        } = self;
        let Scheduler { rt, pool, gate } = *scheduler;
        let (heap, _) = heap.collect_noting(rt, Collect::Full, pool, gate, false)?;
        reply_to_gcs(&mut progress, ends);
        Ok(Manager {
            alloc,
            heap,
            progress,
            pace,
        })
    }
}
