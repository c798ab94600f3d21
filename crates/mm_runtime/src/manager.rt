//! The manager of a heap: epochs and stops, from the empty heap to the end of all traces.
//!
//! `driver` calls `begin_stored` once and `advance` until it answers `Ended`. Between two calls
//! the manager stands at a moment of its session: heap and replies belong together. Traces are
//! never written.

ghost use Rattle.std.specs.Prelude.{◌≡◌, ◌↔◌, ◌<◌, ◌≤◌, ℕ, All, Some, length, slice_get, IfOk, IsTrue};
ghost use Rattle.mm_runtime.specs.Prelude.{MIN_BLOCKS, MAX_BLOCKS, Setting, Moment, IsEpoch, IsWhole, first_moment, State, left, traces_of, replied, Closes, IsFresh, ClosesSome, IsRunnableTrace, HasEnded, IsManaged, IsInOrder, IsAtStop, AreGcs, AreNeeds, EndsParts, MakesEpoch, lists_of};

use crate::epochs::run_parts;
use crate::pace::Pace;
use crate::progress::{PartEnd, Progress};
use collector::MAX_WORKERS;
use heap_layout::Layout;
use ideal_heap::{Command, MAX_MUTATORS};
use managed_heap::{Scheduler, StoppedHeap};
use plan_api::Plan;
use pools::Pool;
use std::alloc::{AllocError, Global};
use std::thread::Threads;
use stored_commands::{StoredTrace, stored_traces};
use stored_replies::StoredReplies;
use work_packets::Gate;

/// Whether a command is left without a reply.
#[derive(Clone, Copy, Debug, PartialEq, Eq)]
pub enum Turn {
    /// At least one command has no reply yet.
    More,
    /// Every command has its reply.
    Ended,
}

/// A heap with the mutators that run their traces on it, between two epochs.
#[derive(Debug, Drop)]
pub struct Manager<P> {
    pub(crate) alloc: Global,
    pub(crate) heap: StoppedHeap<P>,
    // The trace of each mutator, in their order.
    pub(crate) progress: Vec<Progress>,
    // How long the last epochs were. No clause speaks of it.
    pub(crate) pace: Pace,
}

/// A trace with room for its replies.
fn new_progress(alloc: Global, trace: StoredTrace) -> Result<Progress, AllocError>
    ensures { IfOk result (λ p. IsFresh trace p) }
{
    let replies = StoredReplies::with_capacity(alloc, trace.len())?;
    Ok(Progress { trace, replies })
}

/// Each trace with room for its replies.
fn all_progress(alloc: Global, traces: Vec<StoredTrace>) -> Result<Vec<Progress>, AllocError>
    ensures traces { IfOk result (λ v. traces_of v.items ≡ traces.items) }
    ensures fresh { IfOk result (λ v. (k : ℕ) (p : State) → slice_get v.items k ≡ Some p
        → IsFresh p.trace p) }
{
    let mut progress = Vec::with_capacity(alloc, traces.len())?;
    for trace in traces {
        progress.push(new_progress(alloc, trace)?)?;
    }
    Ok(progress)
}

impl<P: Plan> Manager<P> {
    /// A manager of an empty heap, whose mutators have run nothing of their traces yet. Each of its
    /// collections has so many workers. Takes the memory for the heap and for all replies.
    ///
    /// Fails if memory runs out.
    pub fn begin(
        alloc: Global,
        layout: Layout,
        traces: Vec<Vec<Command>>,
        workers: u32,
    ) -> Result<Manager<P>, AllocError>
        requires some_worker { 1 ≤ workers }
        requires few_workers { workers ≤ MAX_WORKERS }
        requires some { 1 ≤ length traces.items }
        requires few { length traces.items ≤ MAX_MUTATORS }
        requires runnable { All IsRunnableTrace (lists_of traces.items) }
        ensures ready { IfOk result (λ m. ClosesSome P.rules m) }
        ensures closes { IfOk result (λ m. (t : Setting) → t.rules ≡ P.rules
            → t.blocks ≡ layout.blocks → t.workers ≡ workers
            → t.traces ≡ lists_of traces.items → Closes P.rules m t (first_moment t)) }
    {
        let stored = stored_traces(alloc, &traces)?;
        Manager::begin_stored(alloc, layout, stored, workers)
    }

    /// A manager as `begin` makes it, of stored traces, which it keeps.
    ///
    /// Fails if memory runs out.
    pub fn begin_stored(
        alloc: Global,
        layout: Layout,
        traces: Vec<StoredTrace>,
        workers: u32,
    ) -> Result<Manager<P>, AllocError>
        requires some_worker { 1 ≤ workers }
        requires few_workers { workers ≤ MAX_WORKERS }
        requires some { 1 ≤ length traces.items }
        requires few { length traces.items ≤ MAX_MUTATORS }
        requires runnable { All IsRunnableTrace (traces.items) }
        ensures ready { IfOk result (λ m. ClosesSome P.rules m) }
        ensures closes { IfOk result (λ m. (t : Setting) → t.rules ≡ P.rules
            → t.blocks ≡ layout.blocks → t.workers ≡ workers
            → t.traces ≡ traces.items → Closes P.rules m t (first_moment t)) }
    {
        let heap = StoppedHeap::new(alloc, layout, traces.len() as u32, workers)?;
        let progress = all_progress(alloc, traces)?;
        Ok(Manager {
            alloc,
            heap,
            progress,
            pace: Pace::new(),
        })
    }

    /// Makes the stop of an epoch whose parts ended so, in the order of the mutators. The packets
    /// of collections run in the scheduler's pool.
    ///
    /// Fails if memory runs out. The manager is lost then.
    pub(crate) fn make_stop<Q: Pool, G: Gate, R: Threads + Sync>(
        self,
        scheduler: &Scheduler<'_, R, Q, G>,
        ends: &[PartEnd],
    ) -> Result<(Manager<P>, Turn), AllocError>
        requires plan { IsManaged P.rules }
        requires stop { IsAtStop P.rules 0 self }
        requires count { length ends.now ≡ length self.progress.items }
        requires gcs { AreGcs self.progress.items ends.now }
        requires needs { AreNeeds self.progress.items ends.now }
        ensures order { IfOk result (λ r. IsInOrder P.rules 0 r.0) }
        ensures epoch { (old : Manager P) → EndsParts P.rules old ends.now self
            → IfOk result (λ r. MakesEpoch P.rules old r.0) }
        ensures ended { IfOk result (λ r. (r.1 ≡ Turn.Ended) ↔ HasEnded r.0) }
    {
        let manager = self.collect_at(scheduler, ends)?;
        let mut manager = manager.serve_needs(scheduler, ends)?;
        manager.meet();
        let turn = manager.turn();
        Ok((manager, turn))
    }
}

/// Whether two traces or more have commands left.
fn some_two_left(progress: &[Progress]) -> bool {
    let mut one = false;
    for trace in progress {
        if trace.replies.len() < trace.trace.len() {
            if one {
                return true;
            }
            one = true;
        }
    }
    false
}

impl<P: Plan + Sync> Manager<P> {
    /// Runs one epoch and its stop, as `advance` does, with mutators in threads or in turns.
    fn run_to_stop<Q: Pool, G: Gate, R: Threads + Sync>(
        self,
        rt: &R,
        pool: &Q,
        gate: &G,
        on_threads: bool,
    ) -> Result<(Manager<P>, Turn), AllocError>
        requires plan { IsManaged P.rules }
        requires ready { ClosesSome P.rules self }
        ensures ready { IfOk result (λ r. ClosesSome P.rules r.0) }
        ensures epoch { (t : Setting) (now : Moment) → Closes P.rules self t now
            → IfOk result (λ r. (next : Moment) × IsEpoch t now next
            × Closes P.rules r.0 t next) }
        ensures ended { IfOk result (λ r. (r.1 ≡ Turn.Ended) ↔ HasEnded r.0) }
        ensures more { IfOk result (λ r. r.1 ≡ Turn.More
            → replied self.progress.items < replied r.0.progress.items) }
        ensures left { IfOk result (λ r. r.1 ≡ Turn.More
            → left r.0.progress.items < left self.progress.items) }
        ensures whole { IfOk result (λ r. r.1 ≡ Turn.Ended → (t : Setting) (now : Moment)
            → Closes P.rules r.0 t now → IsWhole t now) }
    {
        if on_threads {
            let (epoch, mut parts) = self.open_epoch()?;
            run_parts(rt, &epoch, &mut parts, gate);
            let (next, turn) = epoch.close_epoch(rt, parts, pool, gate)?;
            return Ok((next, turn));
        }
        let (manager, ends) = self.run_epoch(gate)?;
        let scheduler = Scheduler { rt, pool, gate };
        let (manager, turn) = manager.make_stop(&scheduler, &ends)?;
        Ok((manager, turn))
    }

    /// Runs one epoch and its stop: each mutator runs until it stops, and then collections are made
    /// and needs are served. Mutators run in threads, if two or more have commands left, and in
    /// turns while one short epoch follows another. The packets of collections run in `pool`.
    ///
    /// Fails if memory runs out. The manager is lost then.
    pub fn advance<Q: Pool, G: Gate, R: Threads + Sync>(
        self,
        rt: &R,
        pool: &Q,
        gate: &G,
    ) -> Result<(Manager<P>, Turn), AllocError>
        requires plan { IsManaged P.rules }
        requires ready { ClosesSome P.rules self }
        ensures ready { IfOk result (λ r. ClosesSome P.rules r.0) }
        ensures epoch { (t : Setting) (now : Moment) → Closes P.rules self t now
            → IfOk result (λ r. (next : Moment) × IsEpoch t now next
            × Closes P.rules r.0 t next) }
        ensures ended { IfOk result (λ r. (r.1 ≡ Turn.Ended) ↔ HasEnded r.0) }
        ensures more { IfOk result (λ r. r.1 ≡ Turn.More
            → replied self.progress.items < replied r.0.progress.items) }
        ensures left { IfOk result (λ r. r.1 ≡ Turn.More
            → left r.0.progress.items < left self.progress.items) }
        ensures whole { IfOk result (λ r. r.1 ≡ Turn.Ended → (t : Setting) (now : Moment)
            → Closes P.rules r.0 t now → IsWhole t now) }
    {
        let on_threads = !self.pace.is_slow() && some_two_left(&self.progress);
        let pace = self.pace;
        let before = self.commands();
        let (mut manager, turn) = self.run_to_stop(rt, pool, gate, on_threads)?;
        let more = manager.commands().saturating_sub(before);
        manager.pace = pace.after(more);
        Ok((manager, turn))
    }
}
