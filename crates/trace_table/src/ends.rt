//! How a racing trace begins and ends.

ghost use Rattle.std.specs.Prelude.{◌≡◌, ◌⊎◌, true, false, ◌+◌, ◌<◌, ◌≤◌, All, IfOk, List, [], length};
ghost use Rattle.object_model.specs.Heaps.{heap_state};
ghost use Rattle.object_model.specs.Objects.{state_of, with_words};
ghost use Rattle.trace_core.specs.Runs.{IsRunOf, MayRun, setup_of};
ghost use Rattle.trace_core.specs.Setups.{TraceMayBegin};
ghost use Rattle.trace_core.specs.declared.run.TraceRun.{TraceRun};
ghost use Rattle.trace_words.specs.Rule.{setup_in, tracing_of};
ghost use Rattle.trace_words.specs.Shares.{worker_share, total};
ghost use Rattle.trace_words.specs.declared.share.Share.{Share};
ghost use Rattle.trace_words.specs.Steps.{LeavesTrace, IsWhole, IsDone};
ghost use Rattle.trace_table.specs.declared.table.TraceTable.{TraceTable};
ghost use Rattle.trace_table.specs.Seats.{IsTable, IsSeat, setup_at};
ghost use Rattle.trace_table.specs.Ends.{kept_share, left_share, shares_of, NewSeats, SameTable, IsOneWorkers, joined};

use crate::table::{TraceTable, WorkerSeat};
use object_model::{Heap, Row};
use plain_tracer::PlainTrace;
use shared_row::WordRow;
use std::alloc::{AllocError, Global};
use std::marker::Brand;
use std::snapshot::Snapshot;
use trace_core::{TraceRun, Traced};
use trace_words::{About, TraceKey, give_parts, share_row, take_in, take_row_back};

impl TraceTable {
    /// Begins a trace of a heap by so many workers. A full collection clears all unlog bits, and
    /// under a plan with lines all line bits. A nursery collection sets the unlog bits of the
    /// logged objects.
    ///
    /// Fails if memory runs out.
    pub fn begin(
        alloc: Global,
        heap: Heap,
        run: TraceRun,
        workers: u32,
    ) -> Result<(TraceTable, Vec<WorkerSeat>), AllocError>
        requires run { MayRun (heap_state heap) run }
        requires workers { (1 ≤ workers) × (workers ≤ 16) }
        ensures table { IfOk result (λ r. IsTable r.0) }
        ensures setup { IfOk result (λ r. setup_at r.0 ≡ setup_of (heap_state heap) run workers) }
        ensures run { IfOk result (λ r. r.0.run ≡ run) }
        ensures left { IfOk result (λ r. r.0.keeper.me ≡ (left_share r.0, [])) }
        ensures taken { IfOk result (λ r. (r.0.globals_taken ≡ false)
            × (r.0.logged_taken ≡ false)) }
        ensures seats { IfOk result (λ r. NewSeats r.0 workers r.1.items) }
    {
        let mut seats = Vec::with_capacity(alloc, workers as usize)?;
        let tracer = PlainTrace::begin(heap, run)?;
        let traced = tracer.close();
        let mut table = TraceTable::share(traced, workers);
        for k in 0..workers {
            seats.push_reserved(table.next_seat::<Brand>(k));
        }
        Ok((table, seats))
    }

    /// Shares a row that is as a trace begins.
    fn share(traced: Traced, workers: u32) -> TraceTable
        requires ready { TraceMayBegin (tracing_of (state_of traced.row) traced.run workers) }
        requires run { IsRunOf (tracing_of (state_of traced.row) traced.run workers) traced.run }
        ensures table { IsTable result }
        ensures setup { setup_at result ≡ tracing_of (state_of traced.row) traced.run workers }
        ensures run { result.run ≡ traced.run }
        ensures keeper { result.keeper.me ≡ (kept_share traced.run workers 0, []) }
        ensures taken { (result.globals_taken ≡ false) × (result.logged_taken ≡ false) }
    {
        let Traced { row, run } = traced;
        let Row {
            words,
            layout,
            number,
            base,
        } = row;
        let blocks = layout.blocks();
        let key = key_of(&words, blocks, number, base, run, workers);
        let (row, keeper) = share_row(words, &key);
        let TraceKey { run, .. } = key;
        TraceTable {
            row,
            layout,
            number,
            base,
            run,
            keeper,
            globals_taken: false,
            logged_taken: false,
        }
    }

    /// The seat of the next worker, when `k` have theirs.
    fn next_seat<C: About>(&mut self, k: u32) -> WorkerSeat
        requires about { (setup_at self.old ≡ C.setup) × (C.index ≡ 1) × (C.worker ≡ k + 1) }
        requires table { IsTable self.old }
        requires keeper { self.old.keeper.me ≡ (kept_share self.old.run C.setup.workers k, []) }
        requires few { k < C.setup.workers }
        ensures table { IsTable self.new }
        ensures same { SameTable self.old self.new }
        ensures keeper { self.new.keeper.me
            ≡ (kept_share self.old.run C.setup.workers (k + 1), []) }
        ensures seat { IsSeat self.new result }
        ensures share { result.seat.me.0 ≡ worker_share 1 (k + 1) }
    {
        let shared = &self.row;
        let seat = give_parts::<C>(&shared.words, &mut self.keeper);
        WorkerSeat {
            seat,
            worker: k + 1,
            front: 0,
            limit: 0,
            next_block: 0,
        }
    }

    /// The row after the trace, and what `begin` was given. Blocks that were taken to copy into are
    /// still their workers'.
    pub fn close(self, mut seats: Vec<WorkerSeat>) -> Traced
        requires table { IsTable self }
        requires seats { All (IsSeat self) seats.items }
        ensures run { result.run ≡ self.run }
        ensures heap { state_of result.row ≡ with_words (setup_at self).before result.row.words }
        ensures trace { LeavesTrace (setup_at self) result.row.words
            (joined (shares_of seats.items) self.keeper.me.0) }
    {
        let TraceTable {
            row,
            layout,
            number,
            base,
            run,
            mut keeper,
            ..
        } = self;
        while let Some(worker) = seats.pop() {
            take_in(&row.words, &mut keeper, worker.seat);
        }
        let words = take_row_back(row, keeper);
        Traced {
            row: Row {
                words,
                layout,
                number,
                base,
            },
            run,
        }
    }
}

/// What a row knows of its trace.
fn key_of(
    words: &WordRow,
    blocks: u32,
    number: u64,
    base: u64,
    run: TraceRun,
    workers: u32,
) -> TraceKey
    ensures setup { setup_in result ≡ tracing_of (record {
      words = words.now;
      blocks = blocks;
      number = number;
      base = base;
    }) run workers }
    ensures run { result.run ≡ run }
    ensures workers { result.workers ≡ workers }
{
    TraceKey {
        words: Snapshot::of(words),
        blocks,
        number,
        base,
        run,
        workers,
    }
}

/// The table's share with those of all workers is whole, if they took in as many tokens as they
/// gave. If the tokens of all globals and of all logged objects were taken and no worker has
/// anything left to do, nothing is left to do. Then `close` says what the trace did.
pub fn all_seats_are_the_whole()
    ensures whole { (t : TraceTable) (shares : List Share) → All IsOneWorkers shares
        → length shares ≡ (setup_at t).workers
        → (left_share t).gave + total (λ v. v.gave) shares ≡ total (λ v. v.took) shares
        → IsWhole (setup_at t) (joined shares (left_share t)) }
    ensures done { (t : TraceTable) (shares : List Share) → t.globals_taken ≡ true
        → ((t.run.logged.items ≡ []) ⊎ (t.logged_taken ≡ true))
        → All (IsDone (setup_at t)) shares
        → IsDone (setup_at t) (joined shares (left_share t)) }
{}
