//! Globals: the tokens of all of them, and how one gets its last value.
//! A global whose reference stays is loaded once more in place of its store.

ghost use Rattle.std.specs.Prelude.{◌≡◌, ◌+◌, ◌<◌, ◌≤◌, true, false, [], All, IfOk, IfErr, map, vec_len, vec_capacity};
ghost use Rattle.std.specs.List.{range_with_len};
ghost use Rattle.heap_layout.specs.declared.layout.TheConstants.{GLOBALS};
ghost use Rattle.object_model.specs.Objects.{IsHeld};
ghost use Rattle.object_model.specs.Times.{times};
ghost use Rattle.trace_core.specs.Machine.{ByGlobal};
ghost use Rattle.trace_words.specs.Shares.{gives_global};
ghost use Rattle.trace_words.specs.Steps.{AsksFor, IsDone};
ghost use Rattle.trace_table.specs.Seats.{IsTable, IsSeat, IsGrey, IsGlobalRoot, setup_at, Follows, TakesBlockIfNeeded, IsSetting, Sets, Scans, MarksNoLine};
ghost use Rattle.trace_table.specs.Ends.{left_share, SameTrace, SameTable};

use crate::table::{TraceTable, WorkerSeat};
use crate::tokens::{GlobalRoot, Grey};
use heap_layout::GLOBALS;
use std::alloc::{AllocError, Global};
use std::marker::Brand;
use trace_words::{About, give_global, keep_global, read_global, set_global, take_in};

impl TraceTable {
    /// The tokens of all globals, in order, at the first `Ok`. Then none.
    ///
    /// Fails if memory runs out.
    pub fn take_globals(&mut self, alloc: Global) -> Result<Vec<GlobalRoot>, AllocError>
        requires table { IsTable self.old }
        requires left { self.old.keeper.me ≡ (left_share self.old, []) }
        ensures table { IsTable self.new }
        ensures left { self.new.keeper.me ≡ (left_share self.new, []) }
        ensures same { SameTrace self.old self.new }
        ensures first { IfOk result (λ roots. self.old.globals_taken ≡ false
            → map (λ root. root.global) roots.items ≡ range_with_len 0 GLOBALS) }
        ensures later { IfOk result (λ roots. self.old.globals_taken ≡ true
            → roots.items ≡ []) }
        ensures rights { IfOk result (λ roots. All (IsGlobalRoot self.new) roots.items) }
        ensures taken { IfOk result (λ roots. self.new.globals_taken ≡ true) }
        ensures failed { IfErr result (λ e. self.new.globals_taken ≡ self.old.globals_taken) }
        ensures logged { self.new.logged_taken ≡ self.old.logged_taken }
    {
        if self.globals_taken {
            return Ok(Vec::new(alloc));
        }
        let mut roots = Vec::with_capacity(alloc, GLOBALS as usize)?;
        for global in 0..GLOBALS {
            let root = self.global_root::<Brand>(global);
            roots.push_reserved(root);
        }
        self.globals_taken = true;
        Ok(roots)
    }

    /// The token of a global that is not set.
    fn global_root<C: About>(&mut self, global: u32) -> GlobalRoot
        requires about { (setup_at self.old ≡ C.setup) × (global ≡ C.index) }
        requires table { IsTable self.old }
        requires below { global < GLOBALS }
        requires right { 0 < times C.index self.old.keeper.me.0.unset }
        ensures table { IsTable self.new }
        ensures same { SameTable self.old self.new }
        ensures keeper { self.new.keeper.me
            ≡ (gives_global global self.old.keeper.me.0, self.old.keeper.me.1) }
        ensures root { IsGlobalRoot self.new result }
        ensures number { result.global ≡ global }
    {
        let shared = &self.row;
        let seat = give_global::<C>(&shared.words, &mut self.keeper);
        GlobalRoot { seat, global }
    }

    /// Sets a global: claims what it refers to, copies that and pushes its token if it won, and
    /// stores the target into the global.
    ///
    /// It takes no memory: `out` has room for one token.
    pub fn trace_global(&self, seat: &mut WorkerSeat, root: GlobalRoot, out: &mut Vec<Grey>)
        requires table { IsTable self.now }
        requires seat { IsSeat self.now seat.old }
        requires done { IsDone (setup_at self.now) seat.old.seat.me.0 }
        requires root { IsGlobalRoot self.now root }
        requires room { vec_len out.old < vec_capacity out.old }
        requires tokens { All (IsGrey self.now) out.old.items }
        ensures seat { IsSeat self.now seat.new }
        ensures done { IsDone (setup_at self.now) seat.new.seat.me.0 }
        ensures scans { Scans 1 seat.old.seat.me.0 seat.new.seat.me.0 out.old.items
            out.new.items }
        ensures set { 0 < times root.global seat.new.seat.me.0.set }
        ensures grey { seat.new.seat.me.0.grey ≡ seat.old.seat.me.0.grey }
        ensures unmarked { MarksNoLine seat.old.seat.me.0 seat.new.seat.me.0 }
        ensures tokens { All (IsGrey self.now) out.new.items }
        ensures more { vec_len out.new ≤ vec_len out.old + 1 }
        ensures capacity { vec_capacity out.new ≡ vec_capacity out.old }
    {
        let GlobalRoot {
            seat: token,
            global,
        } = root;
        take_in(&self.row.words, &mut seat.seat, token);
        self.settle_global::<Brand>(seat, global, out);
    }

    /// Sets a global, to which the seat has the right.
    fn settle_global<C: About>(&self, seat: &mut WorkerSeat, global: u32, out: &mut Vec<Grey>)
        requires about { (setup_at self.now ≡ C.setup) × (global ≡ C.index) }
        requires table { IsTable self.now }
        requires seat { IsSeat self.now seat.old }
        requires setting { IsSetting C.setup C.index seat.old.seat.me.0 }
        requires below { C.index < GLOBALS }
        requires room { vec_len out.old < vec_capacity out.old }
        ensures seat { IsSeat self.now seat.new }
        ensures done { IsDone C.setup seat.new.seat.me.0 }
        ensures sets { Sets C.index seat.old.seat.me.0 seat.new.seat.me.0 out.old.items
            out.new.items }
        ensures grey { seat.new.seat.me.0.grey ≡ seat.old.seat.me.0.grey }
        ensures unmarked { MarksNoLine seat.old.seat.me.0 seat.new.seat.me.0 }
        ensures tokens { All (IsGrey self.now) out.old.items
            → All (IsGrey self.now) out.new.items }
        ensures more { vec_len out.new ≤ vec_len out.old + 1 }
        ensures capacity { vec_capacity out.new ≡ vec_capacity out.old }
    {
        let at = self.layout.global_at(global) as usize;
        let reference = read_global::<C>(&self.row.words, &mut seat.seat, at) as u32;
        if reference == 0 {
            keep_global::<C>(&self.row.words, &mut seat.seat, at);
            return;
        }
        let last = self.follow_global::<Brand>(seat, reference, global, out);
        if last == reference {
            keep_global::<C>(&self.row.words, &mut seat.seat, at);
        } else {
            set_global::<C>(&self.row.words, &mut seat.seat, at, last as u64);
        }
    }

    /// The target of the object at `r`, to which a global refers.
    fn follow_global<C: About>(
        &self,
        seat: &mut WorkerSeat,
        r: u32,
        global: u32,
        out: &mut Vec<Grey>,
    ) -> u32
        requires about { (setup_at self.now ≡ C.setup) × (r ≡ C.object)
            × (C.cause ≡ ByGlobal global) }
        requires table { IsTable self.now }
        requires seat { IsSeat self.now seat.old }
        requires spent { seat.old.seat.me.0.won ≡ [] }
        requires held { IsHeld C.setup.before C.object }
        requires asks { AsksFor C.setup seat.old.seat.me.0 C.object C.cause }
        requires room { vec_len out.old < vec_capacity out.old }
        ensures seat { IsSeat self.now seat.new }
        ensures follows { Follows C.object result seat.old.seat.me.0 seat.new.seat.me.0
            out.old.items out.new.items }
        ensures block { TakesBlockIfNeeded C.setup C.object seat.old.seat.me.0
            seat.new.seat.me.0 }
        ensures tokens { All (IsGrey self.now) out.old.items
            → All (IsGrey self.now) out.new.items }
        ensures more { vec_len out.new ≤ vec_len out.old + 1 }
        ensures capacity { vec_capacity out.new ≡ vec_capacity out.old }
    {
        self.follow::<C>(seat, r, out)
    }
}
