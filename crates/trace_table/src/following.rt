//! How a reference is followed: what it refers to gets its target, and is copied.

ghost use Rattle.std.specs.Prelude.{◌≡◌, ◌+◌, ◌<◌, ◌≤◌, All, [], vec_len, vec_capacity};
ghost use Rattle.object_model.specs.Objects.{IsHeld};
ghost use Rattle.trace_core.specs.CallEvents.{IsNoRoot};
ghost use Rattle.trace_words.specs.Steps.{AsksFor};
ghost use Rattle.trace_table.specs.Seats.{IsTable, IsSeat, IsGrey, setup_at, Follows, TakesBlockIfNeeded};

use crate::table::{TraceTable, WorkerSeat};
use crate::tokens::{Claim, Grey};
use trace_words::About;

impl TraceTable {
    /// The target of the object at `r`, which something that is no root asks for. Its unlog bit is
    /// looked at first: where that is set, no word of the object is loaded.
    #[inline(always)]
    pub(crate) fn follow<C: About>(&self, seat: &mut WorkerSeat, r: u32, out: &mut Vec<Grey>) -> u32
        requires about { (setup_at self.now ≡ C.setup) × (r ≡ C.object) }
        requires table { IsTable self.now }
        requires seat { IsSeat self.now seat.old }
        requires spent { seat.old.seat.me.0.won ≡ [] }
        requires held { IsHeld C.setup.before C.object }
        requires asks { AsksFor C.setup seat.old.seat.me.0 C.object C.cause }
        requires no_root { IsNoRoot C.object C.cause }
        requires room { vec_len out.old < vec_capacity out.old }
        ensures seat { IsSeat self.now seat.new }
        ensures follows { Follows C.object result seat.old.seat.me.0 seat.new.seat.me.0
            out.old.items out.new.items }
        ensures block { TakesBlockIfNeeded C.setup C.object seat.old.seat.me.0
            seat.new.seat.me.0 }
        ensures tokens { All (IsGrey self.now) out.old.items
            → All (IsGrey self.now) out.new.items }
        ensures more { vec_len out.new ≤ vec_len out.old + 1 }
        ensures capacity { vec_capacity out.new ≡ vec_capacity out.old }
    {
        if self.is_marked::<C>(&mut seat.seat, r) {
            return r;
        }
        self.claim_and_copy::<C>(seat, r, out)
    }

    /// The same by a claim. Copies the object and pushes its token, if no other claimed it.
    #[inline(never)]
    fn claim_and_copy<C: About>(&self, seat: &mut WorkerSeat, r: u32, out: &mut Vec<Grey>) -> u32
        requires about { (setup_at self.now ≡ C.setup) × (r ≡ C.object) }
        requires table { IsTable self.now }
        requires seat { IsSeat self.now seat.old }
        requires spent { seat.old.seat.me.0.won ≡ [] }
        requires held { IsHeld C.setup.before C.object }
        requires asks { AsksFor C.setup seat.old.seat.me.0 C.object C.cause }
        requires no_root { IsNoRoot C.object C.cause }
        requires room { vec_len out.old < vec_capacity out.old }
        ensures seat { IsSeat self.now seat.new }
        ensures follows { Follows C.object result seat.old.seat.me.0 seat.new.seat.me.0
            out.old.items out.new.items }
        ensures block { TakesBlockIfNeeded C.setup C.object seat.old.seat.me.0
            seat.new.seat.me.0 }
        ensures tokens { All (IsGrey self.now) out.old.items
            → All (IsGrey self.now) out.new.items }
        ensures more { vec_len out.new ≤ vec_len out.old + 1 }
        ensures capacity { vec_capacity out.new ≡ vec_capacity out.old }
    {
        match self.claim_for::<C>(seat, r) {
            Claim::Old => r,
            Claim::Seen(target) => target,
            Claim::Won(won) => {
                let grey = self.copy(seat, won);
                let target = grey.at();
                out.push_reserved(grey);
                target
            }
        }
    }
}
