//! All needs of a stop.
//!
//! `advance` calls `serve_needs` after `collect_at`. Needs are served in ascending order of the
//! mutators, each to its end, since one may collect for the next. All that is written, `place.rt`
//! writes.

ghost use Rattle.std.specs.Prelude.{◌≡◌, ◌≤◌, ℕ, filter, length, IfOk};
ghost use Rattle.mm_runtime.specs.Prelude.{Setting, Moment, ServesAll, is_at_need, traced_mutators, replied, IsAtStop, IsInOrder, StandsAt, IsManaged, Need, causes, AreNeeds, NeedsNext, ServesEnd, AddsReply};

use crate::manager::Manager;
use crate::progress::PartEnd;
use managed_heap::Scheduler;
use plan_api::Plan;
use pools::Pool;
use std::alloc::AllocError;
use std::thread::Threads;
use work_packets::Gate;

impl<P: Plan> Manager<P> {
    /// Serves the need of mutator `number`, if its part of the epoch ended at one.
    fn serve_end<Q: Pool, G: Gate, R: Threads + Sync>(
        self,
        scheduler: &Scheduler<'_, R, Q, G>,
        number: u32,
        end: PartEnd,
    ) -> Result<Manager<P>, AllocError>
        requires plan { IsManaged P.rules }
        requires stop { IsAtStop P.rules 0 self }
        requires least { 1 ≤ number }
        requires next { (need : Need) → end ≡ PartEnd.Need need → NeedsNext self number need }
        ensures order { IfOk result (λ r. IsInOrder P.rules 0 r) }
        ensures serves { (t : Setting) (now : Moment) → StandsAt P.rules self t now
            → IfOk result (λ r. (next : Moment) × ServesEnd t number end now next
            × StandsAt P.rules r t next) }
        ensures replies { IfOk result (λ r. AddsReply self number r) }
    {
        let PartEnd::Need(need) = end else {
            return Ok(self);
        };
        let Scheduler { rt, pool, gate } = *scheduler;
        let (manager, _placed) = self.place_or_collect(rt, number, need, pool, gate)?;
        Ok(manager)
    }

    /// Serves each need, in ascending order of the mutators.
    pub(crate) fn serve_needs<Q: Pool, G: Gate, R: Threads + Sync>(
        self,
        scheduler: &Scheduler<'_, R, Q, G>,
        ends: &[PartEnd],
    ) -> Result<Manager<P>, AllocError>
        requires plan { IsManaged P.rules }
        requires stop { IsAtStop P.rules 0 self }
        requires count { length ends.now ≡ length self.progress.items }
        requires needs { AreNeeds self.progress.items ends.now }
        ensures order { IfOk result (λ r. IsInOrder P.rules 0 r) }
        ensures needs { (t : Setting) (now : Moment) → StandsAt P.rules self t now
            → IfOk result (λ r. (mid : Moment)
            × ServesAll t (filter (λ m. is_at_need (causes ends.now m)) (traced_mutators t)) now mid
            × StandsAt P.rules r t mid) }
        ensures replied { IfOk result (λ r.
            replied self.progress.items ≤ replied r.progress.items) }
    {
        let mut manager = self;
        for m in 0..ends.len() {
            manager = manager.serve_end(scheduler, m as u32 + 1, ends[m])?;
        }
        Ok(manager)
    }
}
