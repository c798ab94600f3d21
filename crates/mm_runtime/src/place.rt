//! The second step of a stop: objects that no mutator could allocate.
//!
//! `serve` calls `place_or_collect` for each need. The stopped heap places the object or collects;
//! this file writes the reply alone.

ghost use Rattle.std.specs.Prelude.{◌≡◌, ◌+◌, ◌≤◌, ◌<◌, ℕ, length, slice_get, IfOk};
ghost use Rattle.mm_runtime.specs.Prelude.{heap_state, size_of, Fits, Setting, Moment, ServesNeed, IsManaged, reply_of, IsAtStop, IsInOrder, StandsAt, Progress, NeedsNext, RepliesAt, RepliesTo, MatchPlaced};
ghost use Rattle.mm_runtime.specs.Prelude.reply_is;

use crate::manager::Manager;
use crate::progress::Progress;
use ideal_heap::Reply;
use managed_heap::Placed;
use mutator_calls::Need;
use plan_api::Plan;
use pools::Pool;
use std::alloc::AllocError;
use std::thread::Threads;
use work_packets::Gate;

/// The reply to a need.
fn reply_for(placed: &Placed) -> Reply
    ensures { result ≡ reply_of placed.now }
{
    match *placed {
        Placed::Placed(name) => Reply::New(name),
        Placed::HeapFull { .. } => Reply::Full,
    }
}

/// The next reply to mutator `number`.
fn reply_to(progress: &mut Vec<Progress>, number: u32, reply: Reply)
    requires least { 1 ≤ number }
    requires most { number ≤ length progress.old.items }
    requires room { (k : ℕ) (p : Progress) → k + 1 ≡ number
        → slice_get progress.old.items k ≡ Some p
        → length p.replies.items < p.replies.capacity }
    ensures { (k : ℕ) → k + 1 ≡ number
        → RepliesAt progress.old.items progress.new.items k reply }
{
    progress[number as usize - 1].replies.push_reserved(reply);
}

impl<P: Plan> Manager<P> {
    /// Serves a need of mutator `number`. If the object does not fit, the collection to try first
    /// is made, and a full one if that was a nursery one and the object still does not fit. It is
    /// placed if it fits then, and the reply is `full` if it does not.
    ///
    /// Fails if memory runs out. The manager is lost then.
    pub fn place_or_collect<Q: Pool, G: Gate, R: Threads + Sync>(
        self,
        rt: &R,
        number: u32,
        need: Need,
        pool: &Q,
        gate: &G,
    ) -> Result<(Manager<P>, Placed), AllocError>
        requires plan { IsManaged P.rules }
        requires stop { IsAtStop P.rules 0 self }
        requires next { NeedsNext self number need }
        ensures order { IfOk result (λ r. IsInOrder P.rules 0 r.0) }
        ensures serves { (t : Setting) (now : Moment) → StandsAt P.rules self t now
            → IfOk result (λ r. (next : Moment)
            × ServesNeed t number need.register need.refs need.nums now next
            × StandsAt P.rules r.0 t next) }
        ensures placed { IfOk result (λ r. MatchPlaced r.1
            (λ n. RepliesTo self number (reply_is.New n) r.0)
            (λ size. RepliesTo self number reply_is.Full r.0 × (size ≡ size_of need.refs need.nums)
            × (r.0.heap.full ≡ self.heap.full + 1)
            × (Fits P.rules (heap_state r.0.heap.heap) size → ⊥))) }
    {
        let Manager {
            alloc,
            heap,
            mut progress,
            pace,
        } = self;
        let (heap, placed, _) = heap.place_or_collect(rt, number, need, pool, gate, false)?;
        reply_to(&mut progress, number, reply_for(&placed));
        let manager = Manager {
            alloc,
            heap,
            progress,
            pace,
        };
        Ok((manager, placed))
    }
}
