//! Claims: each object gets its target once, by one exchange of its collector word.

ghost use Rattle.std.specs.Prelude.{◌≡◌, ◌<◌, [], IsTrue};
ghost use Rattle.object_model.specs.Objects.{IsHeld};
ghost use Rattle.trace_core.specs.Machine.{ByRoot};
ghost use Rattle.trace_core.specs.Setups.{may_be_moved, refs as refs_of, size};
ghost use Rattle.trace_words.specs.Steps.{MayClaim, LacksRoom, FitsRoom, AsksFor};
ghost use Rattle.trace_core.specs.Views.{hits};
ghost use Rattle.trace_table.specs.Seats.{IsTable, IsSeat, setup_at, Asks, ClaimsFor, ClaimsRoot, SameRoom, SameBlock, TakesBlockIfNeeded};

use crate::table::{TraceTable, WorkerSeat};
use crate::tokens::{Claim, Found, Won};
use forward_word::{encode, target_of};
use object_model::size_words;
use std::marker::Brand;
use trace_words::{About, ask, claim_and_move, claim_in_place};

impl TraceTable {
    /// Claims the object at `x` for a root that is no global. A root whose object has its target
    /// has asked for it then. Else it has once the object is copied.
    pub fn claim(&self, seat: &mut WorkerSeat, x: u32) -> Claim
        requires table { IsTable self.now }
        requires seat { IsSeat self.now seat.old }
        requires spent { seat.old.seat.me.0.won ≡ [] }
        requires held { IsHeld (setup_at self.now).before x }
        ensures seat { IsSeat self.now seat.new }
        ensures claims { ClaimsRoot (setup_at self.now) x seat.old.seat.me.0 seat.new.seat.me.0
            result }
        ensures block { TakesBlockIfNeeded (setup_at self.now) x seat.old.seat.me.0
            seat.new.seat.me.0 }
    {
        match self.claim_for::<Brand>(seat, x) {
            Claim::Old => {
                self.ask(seat, x, x);
                Claim::Old
            }
            Claim::Seen(target) => {
                self.ask(seat, x, target);
                Claim::Seen(target)
            }
            Claim::Won(won) => Claim::Won(won),
        }
    }

    /// A root that is no global asks for the object at `x`, whose target the seat knows.
    fn ask(&self, seat: &mut WorkerSeat, x: u32, target: u32)
        requires table { IsTable self.now }
        requires seat { IsSeat self.now seat.old }
        requires held { IsHeld (setup_at self.now).before x }
        requires knows { 0 < hits x target seat.old.seat.me.0.known }
        ensures seat { IsSeat self.now seat.new }
        ensures asks { Asks x seat.old.seat.me.0 seat.new.seat.me.0 }
        ensures room { SameRoom seat.old.seat.me.0 seat.new.seat.me.0 }
    {
        self.ask_known::<Brand>(seat, x, target);
    }

    /// The same, with a target that the caller picks.
    fn ask_known<C: About>(&self, seat: &mut WorkerSeat, x: u32, target: u32)
        requires about { (setup_at self.now ≡ C.setup) × (x ≡ C.object) × (target ≡ C.target) }
        requires table { IsTable self.now }
        requires seat { IsSeat self.now seat.old }
        requires held { IsHeld C.setup.before C.object }
        requires knows { 0 < hits C.object C.target seat.old.seat.me.0.known }
        ensures seat { IsSeat self.now seat.new }
        ensures asks { Asks x seat.old.seat.me.0 seat.new.seat.me.0 }
        ensures room { SameRoom seat.old.seat.me.0 seat.new.seat.me.0 }
    {
        ask::<C>(&self.row.words, &mut seat.seat, x);
    }

    /// Claims the object at `x`, which something asks for.
    #[inline(always)]
    pub(crate) fn claim_for<C: About>(&self, seat: &mut WorkerSeat, x: u32) -> Claim
        requires about { (setup_at self.now ≡ C.setup) × (x ≡ C.object) }
        requires table { IsTable self.now }
        requires seat { IsSeat self.now seat.old }
        requires spent { seat.old.seat.me.0.won ≡ [] }
        requires held { IsHeld C.setup.before C.object }
        requires asks { AsksFor C.setup seat.old.seat.me.0 C.object C.cause }
        ensures seat { IsSeat self.now seat.new }
        ensures claims { ClaimsFor C.setup C.object C.cause seat.old.seat.me.0
            seat.new.seat.me.0 result }
        ensures block { TakesBlockIfNeeded C.setup C.object seat.old.seat.me.0
            seat.new.seat.me.0 }
    {
        match self.find::<C>(&mut seat.seat, x) {
            Found::Old => Claim::Old,
            Found::Seen(target) => Claim::Seen(target),
            Found::Waits(word) => self.win::<C>(seat, x, word),
        }
    }

    /// Gives the object at `x` its target, if no other does so first.
    #[inline(always)]
    fn win<C: About>(&self, seat: &mut WorkerSeat, x: u32, word: u64) -> Claim
        requires about { (setup_at self.now ≡ C.setup) × (x ≡ C.object) }
        requires table { IsTable self.now }
        requires seat { IsSeat self.now seat.old }
        requires spent { seat.old.seat.me.0.won ≡ [] }
        requires may { MayClaim C.setup seat.old.seat.me.0 C.object C.cause word }
        ensures seat { IsSeat self.now seat.new }
        ensures claims { ClaimsFor C.setup C.object C.cause seat.old.seat.me.0
            seat.new.seat.me.0 result }
        ensures block { TakesBlockIfNeeded C.setup C.object seat.old.seat.me.0
            seat.new.seat.me.0 }
    {
        let shape = self.shape::<C>(&mut seat.seat, x);
        let words = size_words(&shape);
        let moves = self.may_move::<C>(&mut seat.seat, x, words);
        if !moves {
            return self.win_in_place::<C>(seat, x, word, words, shape.refs);
        }
        if self.has_room(seat, words) {
            return self.win_moved::<C>(seat, x, word, words, shape.refs);
        }
        self.win_in_place::<C>(seat, x, word, words, shape.refs)
    }

    /// Claims the object at `x`, which stays: it may not move, or has no room.
    #[inline(always)]
    fn win_in_place<C: About>(
        &self,
        seat: &mut WorkerSeat,
        x: u32,
        word: u64,
        words: u32,
        refs: u32,
    ) -> Claim
        requires about { (setup_at self.now ≡ C.setup) × (x ≡ C.object) }
        requires shape { (words ≡ size C.setup C.object) × (refs ≡ refs_of C.setup C.object) }
        requires table { IsTable self.now }
        requires seat { IsSeat self.now seat.old }
        requires spent { seat.old.seat.me.0.won ≡ [] }
        requires may { MayClaim C.setup seat.old.seat.me.0 C.object C.cause word }
        requires stays { IsTrue (may_be_moved C.setup C.object)
            → LacksRoom C.setup seat.old.seat.me.0 C.object }
        ensures seat { IsSeat self.now seat.new }
        ensures claims { ClaimsFor C.setup C.object C.cause seat.old.seat.me.0
            seat.new.seat.me.0 result }
        ensures block { SameBlock seat.old.seat.me.0 seat.new.seat.me.0 }
    {
        let new = encode(self.run.number, x);
        let met = claim_in_place::<C>(&self.row.words, &mut seat.seat, x, word, new);
        if met != word {
            return Claim::Seen(target_of(met));
        }
        Claim::Won(Won {
            object: x,
            target: x,
            size: words,
            refs,
        })
    }

    /// Claims the object at `x`, which goes to the front of the room.
    fn win_moved<C: About>(
        &self,
        seat: &mut WorkerSeat,
        x: u32,
        word: u64,
        words: u32,
        refs: u32,
    ) -> Claim
        requires about { (setup_at self.now ≡ C.setup) × (x ≡ C.object) }
        requires shape { (words ≡ size C.setup C.object) × (refs ≡ refs_of C.setup C.object) }
        requires table { IsTable self.now }
        requires seat { IsSeat self.now seat.old }
        requires spent { seat.old.seat.me.0.won ≡ [] }
        requires may { MayClaim C.setup seat.old.seat.me.0 C.object C.cause word }
        requires room { FitsRoom C.setup seat.old.seat.me.0 C.object }
        ensures seat { IsSeat self.now seat.new }
        ensures claims { ClaimsFor C.setup C.object C.cause seat.old.seat.me.0
            seat.new.seat.me.0 result }
        ensures block { SameBlock seat.old.seat.me.0 seat.new.seat.me.0 }
    {
        let target = seat.front;
        let new = encode(self.run.number, target);
        let met = claim_and_move::<C>(&self.row.words, &mut seat.seat, x, word, new);
        if met != word {
            return Claim::Seen(target_of(met));
        }
        seat.front = target + words;
        Claim::Won(Won {
            object: x,
            target,
            size: words,
            refs,
        })
    }
}
