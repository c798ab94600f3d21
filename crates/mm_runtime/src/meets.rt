//! The last step of a stop: mutators that meet.
//!
//! `advance` calls `meet` and `turn` last. `meet` writes replies alone: either each mutator at
//! `meet` gets one, or none does. Never writes the heap.

ghost use Rattle.std.specs.Prelude.{◌≡◌, ◌↔◌, ◌≤◌, ℕ, IsTrue, Some, length, slice_get};
ghost use Rattle.mm_runtime.specs.Prelude.{Setting, Moment, Meets, is_waiting, State, next_in_trace, replied, HasEnded, IsProgress, IsAtStop, IsInOrder, StandsAt, is_meet_at, RepliesBelow};

use crate::manager::{Manager, Turn};
use crate::progress::{Progress, reply_ok};
use plan_api::Plan;

/// Replies `ok` to each mutator at `meet`.
fn reply_to_meets(progress: &mut Vec<Progress>)
    requires { (k : ℕ) (p : State)
        → slice_get progress.old.items k ≡ Some p → IsProgress p }
    ensures { RepliesBelow (is_meet_at progress.old.items) (length progress.old.items)
        progress.old.items progress.new.items }
{
    for m in 0..progress.len() {
        if progress[m].is_at_meet() {
            reply_ok(&mut progress[m]);
        }
    }
}

impl<P: Plan> Manager<P> {
    /// Whether each mutator is at `meet` or at the end of its trace.
    fn all_wait(&self) -> bool
        ensures { IsTrue result ↔ ((k : ℕ) (p : State)
            → slice_get self.now.progress.items k ≡ Some p
            → IsTrue (is_waiting (next_in_trace p))) }
    {
        for progress in &self.progress {
            if !progress.waits() {
                return false;
            }
        }
        true
    }

    /// If each mutator is at `meet` or at the end of its trace, each `meet` gets its reply.
    pub(crate) fn meet(&mut self)
        requires stop { IsAtStop P.rules 0 self.old }
        ensures order { IsInOrder P.rules 0 self.new }
        ensures meets { (t : Setting) (now : Moment) → StandsAt P.rules self.old t now
            → (next : Moment) × Meets t now next × StandsAt P.rules self.new t next }
        ensures replied { replied self.old.progress.items ≤ replied self.new.progress.items }
    {
        if self.all_wait() {
            reply_to_meets(&mut self.progress);
        }
    }

    /// Whether a command is left without a reply.
    pub(crate) fn turn(&self) -> Turn
        requires { IsInOrder P.rules 0 self.now }
        ensures { (result ≡ Turn.Ended) ↔ HasEnded self.now }
    {
        for progress in &self.progress {
            if progress.replies.len() < progress.trace.len() {
                return Turn::More;
            }
        }
        Turn::Ended
    }
}
