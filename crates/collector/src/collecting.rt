//! A whole collection.

ghost use Rattle.std.specs.Prelude.{◌≡◌, ◌+◌, ◌*◌, ◌^◌, ◌<◌, ◌≤◌, ◌⊎◌, ◌∷◌, [], ℕ, List, All, IfOk, IsTrue, length, true, false, if◌then◌else◌};
ghost use Rattle.collector.specs.Prelude.{Full, Nursery, CoverLogged, IsHeld, heap_state, IsCollection, Collects, OnlyCounts, MayRun, is_nursery, ListsLogged, IsOffered, IsRunUnder, IsFinishedTrace, FillsInTurn, FillsIf, LeavesFewBlocks, items_of, AreRootItems, AreRootPackets, IsAwaited, AwaitsPackets, AwaitsNothing, IsNote, NotesIf, stays_in_place, AreRoots, TracingStart};

use crate::item::Item;
use crate::outcome::{Collected, Note};
use crate::packet_tracer::PacketTracer;
use crate::roots::{MAX_ROOTS, root_packets};
use crate::worker::TracingWorker;
use bitflags::Flags;
use block_release::{known_after, release_by};
use forward_word::NUMBER_BITS;
use object_model::{Collect, Heap};
use plain_tracer::PlainTrace;
use plan_api::{Plan, PlanFlags, block_counts};
use pools::Pool;
use racing_collector::{MAX_WORKERS, Tally, TracedTogether, trace_together};
use std::alloc::{AllocError, Global};
use std::thread::Threads;
use trace_core::TraceRun;
use work_packets::{Bucket, Gate, Packet};
use write_barrier::{all_flags, logged_in_flagged};

/// Runs a collection of a heap in buckets of work, as MMTk does: the tracer is prepared, the worker
/// serves the roots, `roots` and the heap's globals, scans what it claims, and in a nursery
/// collection the logged objects, and the blocks are released. Old objects stay in a nursery
/// collection, dead ones too. Under NoGC the collection number rises, and nothing else changes.
///
/// `roots` are the mutators' registers. One worker takes a block to copy into only for an object
/// that does not fit the last one, and then the lowest Free one. Several share the work.
///
/// Fails if memory runs out. The heap is lost then.
pub fn collect<P: Plan, Q: Pool, G: Gate, R: Threads + Sync>(
    rt: &R,
    alloc: Global,
    heap: Heap,
    roots: Vec<u32>,
    collect: Collect,
    workers: u32,
    pool: &Q,
    gate: &G,
) -> Result<Collected, AllocError>
    requires offered { IsOffered P.rules collect (heap_state heap) }
    requires some { 1 ≤ workers }
    requires most { workers ≤ MAX_WORKERS }
    requires few { length roots.items ≤ MAX_ROOTS }
    requires held { AreRoots (heap_state heap) roots.items }
    requires number { (heap_state heap).number + 1 < 2 ^ NUMBER_BITS }
    ensures collected { IfOk result (λ c. (made : IsCollection P.rules workers collect
        (heap_state heap) roots.items (heap_state c.heap) c.roots.items)
        × NotesIf P.rules.collects P.rules workers collect (heap_state heap) roots.items
        (heap_state c.heap) c.roots.items made c.note
        × FillsIf P.rules.collects P.rules workers collect (heap_state heap) roots.items
        (heap_state c.heap) c.roots.items made) }
    ensures blocks { IfOk result (λ c. LeavesFewBlocks P.rules workers collect (heap_state heap)
        (heap_state c.heap) c.note) }
{
    let flags = all_flags(alloc, &heap)?;
    collect_flagged::<P, Q, G, R>(rt, alloc, heap, roots, &flags, collect, workers, pool, gate)
}

/// Runs a collection as `collect` does, with a flag for each block: under a plan with young objects
/// it is set if an object of the block may be logged. A nursery collection looks for logged objects
/// in flagged blocks alone.
pub fn collect_flagged<P: Plan, Q: Pool, G: Gate, R: Threads + Sync>(
    rt: &R,
    alloc: Global,
    heap: Heap,
    roots: Vec<u32>,
    flags: &[bool],
    collect: Collect,
    workers: u32,
    pool: &Q,
    gate: &G,
) -> Result<Collected, AllocError>
    requires offered { IsOffered P.rules collect (heap_state heap) }
    requires flags { IsTrue P.rules.young → CoverLogged (heap_state heap) flags.now }
    requires some { 1 ≤ workers }
    requires most { workers ≤ MAX_WORKERS }
    requires few { length roots.items ≤ MAX_ROOTS }
    requires held { AreRoots (heap_state heap) roots.items }
    requires number { (heap_state heap).number + 1 < 2 ^ NUMBER_BITS }
    ensures collected { IfOk result (λ c. (made : IsCollection P.rules workers collect
        (heap_state heap) roots.items (heap_state c.heap) c.roots.items)
        × NotesIf P.rules.collects P.rules workers collect (heap_state heap) roots.items
        (heap_state c.heap) c.roots.items made c.note
        × FillsIf P.rules.collects P.rules workers collect (heap_state heap) roots.items
        (heap_state c.heap) c.roots.items made) }
    ensures blocks { IfOk result (λ c. LeavesFewBlocks P.rules workers collect (heap_state heap)
        (heap_state c.heap) c.note) }
{
    let reclaims = P::collects();
    if !reclaims {
        return Ok(count_only(heap, roots, collect));
    }
    let run = prepare::<P>(alloc, &heap, flags, collect)?;
    let trace = trace_heap(rt, alloc, heap, run, roots, workers, pool, gate)?;
    Ok(finish::<P>(trace))
}

/// A collection that reclaims nothing: all objects are kept in place.
fn count_only(heap: Heap, roots: Vec<u32>, collect: Collect) -> Collected
    requires full { collect ≡ Full }
    requires number { (heap_state heap).number + 1 < 2 ^ NUMBER_BITS }
    ensures heap { OnlyCounts collect (heap_state heap) roots.items (heap_state result.heap)
        result.roots.items }
    ensures note { IsNote collect (heap_state heap) (stays_in_place (heap_state heap))
        (heap_state result.heap) result.note }
{
    let (kept, kept_words) = heap.held_count();
    let free_blocks = block_counts(&heap).free;
    let mut row = heap.into_row();
    row.number += 1;
    Collected {
        heap: Heap::from_row(row),
        roots,
        note: Note {
            collect,
            kept,
            moved: 0,
            in_place: kept,
            kept_words,
            free_blocks,
        },
    }
}

/// What the tracer gets as the description of a collection under the plan.
///
/// Fails if memory runs out.
fn prepare<P: Plan>(
    alloc: Global,
    heap: &Heap,
    flags: &[bool],
    collect: Collect,
) -> Result<TraceRun, AllocError>
    requires offered { IsOffered P.rules collect (heap_state heap.now) }
    requires flags { IsTrue P.rules.young → CoverLogged (heap_state heap.now) flags.now }
    requires number { (heap_state heap.now).number + 1 < 2 ^ NUMBER_BITS }
    ensures may { IfOk result (λ run. MayRun (heap_state heap.now) run) }
    ensures under { IfOk result (λ run. IsRunUnder P.rules collect (heap_state heap.now) run) }
{
    let from = P::from_blocks(alloc, heap, collect)?;
    let logged = logged_for(alloc, heap, flags, collect)?;
    Ok(TraceRun {
        number: heap.number() + 1,
        base: base_after(heap, collect),
        collect,
        from,
        copy_kind: P::copy_kind(),
        lines: P::FLAGS.contains(PlanFlags::LINES),
        logged,
    })
}

/// The base after a collection of the heap.
fn base_after(heap: &Heap, collect: Collect) -> u64
    requires { (heap_state heap.now).number + 1 < 2 ^ NUMBER_BITS }
    ensures { result ≡ (if is_nursery collect then (heap_state heap.now).base
        else (heap_state heap.now).number + 1) }
{
    match collect {
        Collect::Nursery => heap.base(),
        Collect::Full => heap.number() + 1,
    }
}

/// The logged objects for a nursery collection, and none for a full one.
///
/// Fails if memory runs out.
fn logged_for(
    alloc: Global,
    heap: &Heap,
    flags: &[bool],
    collect: Collect,
) -> Result<Vec<u32>, AllocError>
    requires { collect ≡ Nursery → CoverLogged (heap_state heap.now) flags.now }
    ensures nursery { IfOk result (λ v. IsTrue (is_nursery collect)
        → ListsLogged (heap_state heap.now) v.items) }
    ensures full { IfOk result (λ v. is_nursery collect ≡ false → v.items ≡ []) }
{
    match collect {
        Collect::Nursery => logged_in_flagged(alloc, heap, flags),
        Collect::Full => Ok(Vec::new(alloc)),
    }
}

/// A whole tracing, by a plain tracer if there is one worker.
///
/// Fails if memory runs out.
fn trace_heap<Q: Pool, G: Gate, R: Threads + Sync>(
    rt: &R,
    alloc: Global,
    heap: Heap,
    run: TraceRun,
    roots: Vec<u32>,
    workers: u32,
    pool: &Q,
    gate: &G,
) -> Result<TracedTogether, AllocError>
    requires may { MayRun (heap_state heap) run }
    requires some { 1 ≤ workers }
    requires most { workers ≤ MAX_WORKERS }
    requires few { length roots.items ≤ MAX_ROOTS }
    requires held { AreRoots (heap_state heap) roots.items }
    ensures { IfOk result (λ t. IsFinishedTrace (heap_state heap) run workers roots.items t) }
{
    if workers == 1 {
        return trace_by_one(alloc, heap, run, roots, pool, gate);
    }
    let trace = trace_together(rt, alloc, heap, run, roots, workers, pool, gate)?;
    Ok(trace)
}

/// A whole tracing by one worker.
///
/// Fails if memory runs out.
fn trace_by_one<Q: Pool, G: Gate>(
    alloc: Global,
    heap: Heap,
    run: TraceRun,
    roots: Vec<u32>,
    pool: &Q,
    gate: &G,
) -> Result<TracedTogether, AllocError>
    requires may { MayRun (heap_state heap) run }
    requires few { length roots.items ≤ MAX_ROOTS }
    requires held { AreRoots (heap_state heap) roots.items }
    ensures { IfOk result (λ t. IsFinishedTrace (heap_state heap) run 1 roots.items t) }
{
    let (trace, first) = begin(alloc, heap, run, roots)?;
    let trace = run_packets(trace, first, pool, gate)?;
    Ok(close(trace))
}

/// The tracing as it begins, and the packets of its roots.
fn begin(
    alloc: Global,
    heap: Heap,
    run: TraceRun,
    roots: Vec<u32>,
) -> Result<(PacketTracer, Vec<Packet<Item>>), AllocError>
    requires may { MayRun (heap_state heap) run }
    requires few { length roots.items ≤ MAX_ROOTS }
    requires held { AreRoots (heap_state heap) roots.items }
    ensures awaits { IfOk result (λ r. IsAwaited (heap_state heap) run roots.items r.0
        (items_of r.1.items)) }
    ensures items { IfOk result (λ r. AreRootItems (length roots.items) run.logged.items
        (items_of r.1.items)) }
    ensures packets { IfOk result (λ r. AreRootPackets r.1.items) }
{
    let mut tracer = PlainTrace::begin(heap, run)?;
    let globals = tracer.take_globals(alloc)?;
    let logged = tracer.take_logged(alloc)?;
    let first = root_packets(alloc, roots.len() as u32, globals, logged)?;
    let trace = PacketTracer {
        tracer,
        roots,
        tally: Tally {
            kept: 0,
            moved: 0,
            words: 0,
        },
        won: Vec::new(alloc),
        spare: Vec::new(alloc),
    };
    Ok((trace, first))
}

/// Runs the packets of the roots, and then all that scan objects.
fn run_packets<Q: Pool, G: Gate>(
    trace: PacketTracer,
    first: Vec<Packet<Item>>,
    pool: &Q,
    gate: &G,
) -> Result<PacketTracer, AllocError>
    requires awaits { (start : TracingStart) × AwaitsPackets start trace first.items }
    requires packets { AreRootPackets first.items }
    ensures { IfOk result (λ t. (start : TracingStart) → AwaitsPackets start trace first.items
        → AwaitsPackets start t []) }
{
    let worker = TracingWorker {
        trace,
        gate,
        who: 17,
    };
    let (worker, scans) = pool.run_alone(Bucket::Roots, worker, first, gate)?;
    let (worker, _none) = pool.run_alone(Bucket::Closure, worker, scans, gate)?;
    Ok(worker.trace)
}

/// The tracing of which nothing is left to do.
fn close(trace: PacketTracer) -> TracedTogether
    requires { (start : TracingStart) × AwaitsNothing start trace }
    ensures { (start : TracingStart) → AwaitsNothing start trace
        → IsFinishedTrace (heap_state start.heap) start.run 1 start.roots.items result }
{
    let PacketTracer {
        tracer,
        roots,
        tally,
        ..
    } = trace;
    TracedTogether {
        traced: tracer.close(),
        roots,
        tally,
    }
}

/// The heap after a finished tracing, by any number of workers.
fn finish<P: Plan>(trace: TracedTogether) -> Collected
    requires { (start : TracingStart) × (w : ℕ)
        × IsFinishedTrace (heap_state start.heap) start.run w start.roots.items trace
        × IsRunUnder P.rules start.run.collect (heap_state start.heap) start.run }
    ensures { (start : TracingStart) (w : ℕ)
        → IsFinishedTrace (heap_state start.heap) start.run w start.roots.items trace
        → IsRunUnder P.rules start.run.collect (heap_state start.heap) start.run
        → (made : Collects P.rules w start.run.collect (heap_state start.heap)
        start.roots.items (heap_state result.heap) result.roots.items)
        × IsNote start.run.collect (heap_state start.heap) made.target
        (heap_state result.heap) result.note
        × (w ≡ 1 → FillsInTurn (heap_state start.heap) made.target)
        × LeavesFewBlocks P.rules w start.run.collect (heap_state start.heap)
        (heap_state result.heap) result.note }
{
    let TracedTogether {
        traced,
        roots,
        tally,
    } = trace;
    let collect = traced.run.collect;
    let known = known_after(collect, traced.run.lines);
    let heap = release_by::<P>(traced, known);
    let free_blocks = block_counts(&heap).free;
    Collected {
        heap,
        roots,
        note: Note {
            collect,
            kept: tally.kept,
            moved: tally.moved,
            in_place: tally.kept.saturating_sub(tally.moved),
            kept_words: tally.words,
            free_blocks,
        },
    }
}
