//! What the workers of a trace leave.

ghost use Rattle.std.specs.Prelude.{◌≡◌, ◌<◌, ℕ, All, length, slice_index};
ghost use Rattle.object_model.specs.Times.{times};
ghost use Rattle.racing_collector.specs.Accounts.{places};

use crate::served::Served;
use crate::tally::Tally;
use trace_table::WorkerSeat;

/// The seats of the workers, the roots that they served, and the counts of all.
#[derive(Drop)]
pub struct Raced {
    pub(crate) seats: Vec<WorkerSeat>,
    pub(crate) served: Vec<Served>,
    pub(crate) tally: Tally,
}

/// The roots, of which those that were served are replaced by their targets.
pub(crate) fn settle(mut roots: Vec<u32>, served: Vec<Served>) -> Vec<u32>
    requires places { All (λ s. s.place < length roots.items) served.items }
    ensures count { length result.items ≡ length roots.items }
    ensures targets { (F : ℕ → ℕ) → All (λ s. s.target ≡ F s.place) served.items → (i : ℕ)
        → 0 < times i (places served.items) → slice_index result.items i ≡ F i }
{
    for s in served {
        roots[s.place as usize] = s.target;
    }
    roots
}
