//! Scans: fields get their last values, one after the other.
//! A field whose reference stays is loaded once more in place of its store.

ghost use Rattle.std.specs.Prelude.{◌≡◌, ◌≢◌, ℕ, ◌+◌, ◌<◌, ◌≤◌, IsTrue, false, All, [], length, vec_len, vec_capacity};
ghost use Rattle.object_model.specs.Lines.{TouchesLine};
ghost use Rattle.object_model.specs.Objects.{IsHeld};
ghost use Rattle.trace_core.specs.Machine.{ByField};
ghost use Rattle.trace_core.specs.Setups.{blocks, refs as refs_of};
ghost use Rattle.trace_words.specs.Rule.{HasLined};
ghost use Rattle.trace_words.specs.Steps.{AsksFor, IsDone};
ghost use Rattle.trace_table.specs.Seats.{IsTable, IsSeat, IsGrey, setup_at, Follows, TakesBlockIfNeeded, IsScanning, ScansNoOther, Scans, MarksNoLine};
ghost use Rattle.trace_core.specs.Views.{hits};

use crate::table::{TraceTable, WorkerSeat};
use crate::tokens::Grey;
use object_model::HEADER_WORDS;
use std::marker::Brand;
use trace_words::{About, keep_field, read_field, scan_field, take_in};

impl TraceTable {
    /// Scans the fields of an object: claims what each refers to, copies what it won and pushes its
    /// token, and stores the target into the field. Marks the object's lines if the run marks
    /// lines.
    ///
    /// It takes no memory: `out` has room for as many tokens as the object has references.
    #[inline(always)]
    pub fn scan_object(&self, seat: &mut WorkerSeat, grey: Grey, out: &mut Vec<Grey>)
        requires table { IsTable self.now }
        requires seat { IsSeat self.now seat.old }
        requires done { IsDone (setup_at self.now) seat.old.seat.me.0 }
        requires grey { IsGrey self.now grey }
        requires room { vec_len out.old + grey.refs ≤ vec_capacity out.old }
        requires tokens { All (IsGrey self.now) out.old.items }
        ensures seat { IsSeat self.now seat.new }
        ensures done { IsDone (setup_at self.now) seat.new.seat.me.0 }
        ensures scans { Scans 1 seat.old.seat.me.0 seat.new.seat.me.0 out.old.items
            out.new.items }
        ensures knows { 0 < hits grey.object grey.target seat.new.seat.me.0.known }
        ensures others { ScansNoOther grey.object seat.old.seat.me.0 seat.new.seat.me.0 }
        ensures lines { IsTrue self.now.run.lines → (line : ℕ)
            → TouchesLine (blocks (setup_at self.now)) grey.target grey.size line
            → HasLined (setup_at self.now) seat.new.seat.me.0 line }
        ensures unmarked { self.now.run.lines ≡ false
            → MarksNoLine seat.old.seat.me.0 seat.new.seat.me.0 }
        ensures tokens { All (IsGrey self.now) out.new.items }
        ensures capacity { vec_capacity out.new ≡ vec_capacity out.old }
    {
        let Grey {
            seat: token,
            object,
            target,
            size,
            refs,
        } = grey;
        take_in(&self.row.words, &mut seat.seat, token);
        for k in 0..refs {
            self.scan_field::<Brand>(seat, object, target, k, out);
        }
        if self.run.lines {
            self.mark_object(seat, object, target, size);
        }
    }

    /// Scans one field of the object that was at `x` and is at `target`.
    #[inline(always)]
    fn scan_field<C: About>(
        &self,
        seat: &mut WorkerSeat,
        x: u32,
        target: u32,
        k: u32,
        out: &mut Vec<Grey>,
    )
        requires about { (setup_at self.now ≡ C.setup) × (x ≡ C.object) × (target ≡ C.target)
            × (k ≡ C.index) }
        requires table { IsTable self.now }
        requires seat { IsSeat self.now seat.old }
        requires scanning { IsScanning C.setup C.object C.target C.index seat.old.seat.me.0 }
        requires held { IsHeld C.setup.before C.object }
        requires field { C.index < refs_of C.setup C.object }
        requires inside { target + HEADER_WORDS + k < self.now.row.words.table_id.words }
        requires room { vec_len out.old < vec_capacity out.old }
        ensures seat { IsSeat self.now seat.new }
        ensures scanning { IsScanning C.setup C.object C.target (C.index + 1)
            seat.new.seat.me.0 }
        ensures scans { Scans 0 seat.old.seat.me.0 seat.new.seat.me.0 out.old.items
            out.new.items }
        ensures others { ScansNoOther C.object seat.old.seat.me.0 seat.new.seat.me.0 }
        ensures unmarked { MarksNoLine seat.old.seat.me.0 seat.new.seat.me.0 }
        ensures tokens { All (IsGrey self.now) out.old.items
            → All (IsGrey self.now) out.new.items }
        ensures more { vec_len out.new ≤ vec_len out.old + 1 }
        ensures capacity { vec_capacity out.new ≡ vec_capacity out.old }
    {
        let at = target as usize + HEADER_WORDS as usize + k as usize;
        let reference = read_field::<C>(&self.row.words, &mut seat.seat, at) as u32;
        if reference == 0 {
            keep_field::<C>(&self.row.words, &mut seat.seat, at);
            return;
        }
        let last = self.follow_field::<Brand>(seat, reference, x, k, out);
        if last == reference {
            keep_field::<C>(&self.row.words, &mut seat.seat, at);
        } else {
            scan_field::<C>(&self.row.words, &mut seat.seat, at, last as u64);
        }
    }

    /// The target of the object at `r`, to which field `k` of the object at `y` refers.
    #[inline(always)]
    fn follow_field<C: About>(
        &self,
        seat: &mut WorkerSeat,
        r: u32,
        y: u32,
        k: u32,
        out: &mut Vec<Grey>,
    ) -> u32
        requires about { (setup_at self.now ≡ C.setup) × (r ≡ C.object)
            × (C.cause ≡ ByField y k) }
        requires table { IsTable self.now }
        requires seat { IsSeat self.now seat.old }
        requires spent { seat.old.seat.me.0.won ≡ [] }
        requires held { IsHeld C.setup.before C.object }
        requires asks { AsksFor C.setup seat.old.seat.me.0 C.object C.cause }
        requires room { vec_len out.old < vec_capacity out.old }
        ensures seat { IsSeat self.now seat.new }
        ensures follows { Follows C.object result seat.old.seat.me.0 seat.new.seat.me.0
            out.old.items out.new.items }
        ensures block { TakesBlockIfNeeded C.setup C.object seat.old.seat.me.0
            seat.new.seat.me.0 }
        ensures tokens { All (IsGrey self.now) out.old.items
            → All (IsGrey self.now) out.new.items }
        ensures more { vec_len out.new ≤ vec_len out.old + 1 }
        ensures capacity { vec_capacity out.new ≡ vec_capacity out.old }
    {
        self.follow::<C>(seat, r, out)
    }
}
