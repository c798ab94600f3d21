//! A whole trace by several workers.

ghost use Rattle.std.specs.Prelude.{◌≡◌, ◌≤◌, ℕ, List, All, IfOk, length};
ghost use Rattle.object_model.specs.Heaps.{heap_state};
ghost use Rattle.object_model.specs.Lawful.{AreRoots, IsLawfulButLines};
ghost use Rattle.object_model.specs.Objects.{HeapState};
ghost use Rattle.trace_core.specs.Runs.{MayRun, setup_of};
ghost use Rattle.trace_core.specs.declared.run.TraceRun.{TraceRun};
ghost use Rattle.trace_table.specs.Ends.{NewSeats};
ghost use Rattle.trace_table.specs.Seats.{IsTable, setup_at};
ghost use Rattle.racing_collector.specs.Items.{AreRootPackets, IsPacketOf};
ghost use Rattle.racing_collector.specs.Raced.{HasRaced, HoldAll};
ghost use Rattle.racing_collector.specs.declared.item.RaceItem.{RaceItem};
ghost use Rattle.work_packets.specs.declared.packet.Packet.{Packet};
ghost use Rattle.racing_collector.specs.Together.{TracesAll};

use crate::item::RaceItem;
use crate::raced::{Raced, settle};
use crate::racing::Racing;
use crate::root_packets::root_packets;
use crate::tally::Tally;
use crate::workers::{dismiss, enlist};
use object_model::Heap;
use pools::Pool;
use std::alloc::{AllocError, Global};
use std::thread::Threads;
use trace_core::{TraceRun, Traced};
use trace_table::{TraceTable, WorkerSeat};
use work_packets::{Bucket, Gate, Packet};

/// The maximum number of workers of a trace.
pub const MAX_WORKERS: u32 = 16;

/// The maximum number of roots of a trace.
pub const MAX_ROOTS: usize = 1_000_000;

/// What a trace by several workers leaves: the row, the roots' targets in the order of the roots,
/// and counts of the objects that it claimed.
#[derive(Drop)]
pub struct TracedTogether {
    pub traced: Traced,
    pub roots: Vec<u32>,
    pub tally: Tally,
}

/// Traces a heap from its globals and these roots, and in a nursery collection from its logged
/// objects, by several workers that a pool runs.
///
/// Fails if memory runs out. The heap is lost then.
pub fn trace_together<Q: Pool, G: Gate, R: Threads + Sync>(
    rt: &R,
    alloc: Global,
    heap: Heap,
    run: TraceRun,
    roots: Vec<u32>,
    workers: u32,
    pool: &Q,
    gate: &G,
) -> Result<TracedTogether, AllocError>
    requires may { MayRun (heap_state heap) run }
    requires workers { (1 ≤ workers) × (workers ≤ MAX_WORKERS) }
    requires few { length roots.items ≤ MAX_ROOTS }
    requires held { AreRoots (heap_state heap) roots.items }
    ensures run { IfOk result (λ t. t.traced.run ≡ run) }
    ensures traces { IfOk result (λ t. TracesAll (heap_state heap) run workers roots.items t) }
{
    let (mut table, seats) = TraceTable::begin(alloc, heap, run, workers)?;
    let globals = table.take_globals(alloc)?;
    let logged = table.take_logged(alloc)?;
    let first = root_packets(alloc, roots.len() as u32, globals, logged)?;
    let racing = Racing { table, roots };
    let raced = race(rt, alloc, &racing, seats, first, pool, gate)?;
    Ok(finish(racing, raced))
}

/// Runs the packets of the roots, and then all that scan objects.
fn race<Q: Pool, G: Gate, R: Threads + Sync>(
    rt: &R,
    alloc: Global,
    racing: &Racing,
    seats: Vec<WorkerSeat>,
    first: Vec<Packet<RaceItem>>,
    pool: &Q,
    gate: &G,
) -> Result<Raced, AllocError>
    requires table { IsTable racing.now.table }
    requires seats { NewSeats racing.now.table (setup_at racing.now.table).workers seats.items }
    requires roots { AreRoots (setup_at racing.now.table).before racing.now.roots.items }
    requires packets { AreRootPackets first.items }
    requires takes { All (IsPacketOf racing.now) first.items }
    ensures { IfOk result (λ raced. HasRaced racing.now first.items raced) }
{
    let workers = enlist(alloc, racing, seats, gate)?;
    let (workers, scans) = pool.run_bucket(rt, Bucket::Roots, workers, first, gate)?;
    let (workers, _none) = pool.run_bucket(rt, Bucket::Closure, workers, scans, gate)?;
    let raced = dismiss(alloc, workers)?;
    Ok(raced)
}

/// The row and the roots after all was served.
fn finish(racing: Racing, raced: Raced) -> TracedTogether
    requires table { IsTable racing.table }
    requires raced { (first : List (Packet RaceItem)) × HoldAll racing first
        × HasRaced racing first raced }
    ensures run { result.traced.run ≡ racing.table.run }
    ensures traces { (s : HeapState) (run : TraceRun) (workers : ℕ) → IsLawfulButLines s
        → MayRun s run → setup_at racing.table ≡ setup_of s run workers
        → racing.table.run ≡ run → TracesAll s run workers racing.roots.items result }
{
    let Racing { table, roots } = racing;
    let Raced {
        seats,
        served,
        tally,
    } = raced;
    let roots = settle(roots, served);
    let traced = table.close(seats);
    TracedTogether {
        traced,
        roots,
        tally,
    }
}
