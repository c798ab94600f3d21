//! Whole sessions: traces are run to their end, and the text is written.

ghost use Rattle.std.specs.Prelude.{◌≡◌, ◌≤◌, ℕ, All, length, IfOk};
ghost use Rattle.driver.specs.Prelude.{Setting, Moment, IsWhole, job_of_order, Closes, ClosesSome, IsRunnableTrace, IsManaged, replies_part, IsSessionText, IsSummary, WritesText, WritesTextBy};

use crate::report::report_text;
use crate::summary::summary_text;
use crate::writing::{PrintFault, write_session};
use command_line::{MAX_WORKERS, Order, PlanName, Target};
use heap_layout::{Layout, MAX_BLOCKS, MIN_BLOCKS};
use ideal_heap::MAX_MUTATORS;
use mm_runtime::{Manager, Scheduler, Turn, managed_plans};
use outside::{PIECE_BYTES, Sink, write_text};
use plan_api::Plan;
use plans::{GenCopy, Immix, MarkSweep, NoGc, SemiSpace, StickyImmix};
use pools::StealPool;
use std::alloc::{AllocError, Global};
use std::thread::Threads;
use stored_commands::StoredTrace;
use trace_text::print_replies;
use work_packets::Gate;

// Runs the traces to their end, under a plan.
fn run_to_end<P: Plan + Sync, G: Gate, R: Threads + Sync>(
    scheduler: &Scheduler<'_, R, StealPool, G>,
    alloc: Global,
    layout: Layout,
    workers: u32,
    traces: Vec<StoredTrace>,
) -> Result<Manager<P>, AllocError>
    requires plan { IsManaged P.rules }
    requires some { 1 ≤ length traces.items }
    requires few { length traces.items ≤ MAX_MUTATORS }
    requires fit { All IsRunnableTrace traces.items }
    requires some_worker { 1 ≤ workers }
    requires few_workers { workers ≤ MAX_WORKERS }
    ensures ready { IfOk result (λ m. ClosesSome P.rules m) }
    ensures whole { (t : Setting) → t.rules ≡ P.rules → t.blocks ≡ layout.blocks
        → t.workers ≡ workers → t.traces ≡ traces.items
        → IfOk result (λ m. (last : Moment) × IsWhole t last × Closes P.rules m t last) }
{
    let Scheduler { rt, pool, gate } = *scheduler;
    let mut manager = Manager::<P>::begin_stored(alloc, layout, traces, workers)?;
    'epochs: loop {
        let (next, turn) = manager.advance(rt, pool, gate)?;
        manager = next;
        if turn == Turn::Ended {
            return Ok(manager);
        }
    }
}

// The replies of all mutators.
pub(crate) fn text_of_replies<P: Plan>(
    alloc: Global,
    manager: &Manager<P>,
) -> Result<Vec<u8>, AllocError>
    requires { ClosesSome P.rules manager.now }
    ensures { (t : Setting) (last : Moment) → Closes P.rules manager.now t last
        → IfOk result (λ v. v.items ≡ replies_part (length t.traces) last) }
{
    let mut text = Vec::new(alloc);
    for m in 0..manager.mutators() {
        print_replies(m + 1, manager.replies(m + 1), &mut text)?;
    }
    Ok(text)
}

// Writes the text of a session with files.
fn write_files<P: Plan, O: Sink>(
    alloc: Global,
    manager: &Manager<P>,
    has_map: bool,
    out: &mut O,
) -> Result<(), PrintFault>
    requires { ClosesSome P.rules manager.now }
    ensures text { (t : Setting) (last : Moment) → Closes P.rules manager.now t last
        → WritesTextBy (IsSessionText P.plan (length t.traces) has_map last)
        (O.state out.old) (O.state out.new) result }
    ensures later { (O.state out.old).faults ≤ (O.state out.new).faults }
{
    let report = report_text::<P>(alloc, manager, has_map)?;
    let piece = Vec::with_capacity(alloc, PIECE_BYTES)?;
    write_session(out, manager, &report, piece)?;
    Ok(())
}

// Writes the summary of a session of a made trace of so many commands.
fn write_summary<P: Plan, O: Sink>(
    alloc: Global,
    manager: &Manager<P>,
    commands: u32,
    out: &mut O,
) -> Result<(), PrintFault>
    requires { ClosesSome P.rules manager.now }
    ensures text { (t : Setting) (last : Moment) → Closes P.rules manager.now t last
        → WritesTextBy (IsSummary commands last) (O.state out.old) (O.state out.new) result }
    ensures later { (O.state out.old).faults ≤ (O.state out.new).faults }
{
    let text = summary_text::<P>(alloc, manager, commands)?;
    write_text(out, &text)?;
    Ok(())
}

// Runs the traces under a plan, and writes the text of their session.
fn write_under<P: Plan + Sync, G: Gate, R: Threads + Sync, O: Sink>(
    scheduler: &Scheduler<'_, R, StealPool, G>,
    alloc: Global,
    layout: Layout,
    order: &Order,
    traces: Vec<StoredTrace>,
    out: &mut O,
) -> Result<(), PrintFault>
    requires plan { IsManaged P.rules }
    requires some { 1 ≤ length traces.items }
    requires few { length traces.items ≤ MAX_MUTATORS }
    requires fit { All IsRunnableTrace traces.items }
    requires some_worker { 1 ≤ order.now.workers }
    requires few_workers { order.now.workers ≤ MAX_WORKERS }
    ensures text { (job_of_order order.now).plan ≡ P.plan
        → (job_of_order order.now).blocks ≡ layout.blocks
        → WritesText (job_of_order order.now) traces.items (O.state out.old) (O.state out.new)
        result }
    ensures later { (O.state out.old).faults ≤ (O.state out.new).faults }
{
    let manager = run_to_end::<P, G, R>(scheduler, alloc, layout, order.workers, traces)?;
    match order.work {
        Target::Files(_) => write_files(alloc, &manager, order.map, out),
        Target::Made(commands) => write_summary(alloc, &manager, commands, out),
    }
}

/// Runs a whole session of an order, and writes its text: these are its traces, and it names the
/// plan.
///
/// Errors: out of memory, before the first write; the sink failed.
pub(crate) fn write_text_of_session<G: Gate, R: Threads + Sync, O: Sink>(
    rt: &R,
    alloc: Global,
    order: &Order,
    traces: Vec<StoredTrace>,
    out: &mut O,
    gate: &G,
) -> Result<(), PrintFault>
    requires some_worker { 1 ≤ order.now.workers }
    requires few_workers { order.now.workers ≤ MAX_WORKERS }
    requires least { MIN_BLOCKS ≤ order.now.blocks }
    requires most { order.now.blocks ≤ MAX_BLOCKS }
    requires some { 1 ≤ length traces.items }
    requires few { length traces.items ≤ MAX_MUTATORS }
    requires fit { All IsRunnableTrace traces.items }
    ensures text { WritesText (job_of_order order.now) traces.items (O.state out.old)
        (O.state out.new) result }
    ensures later { (O.state out.old).faults ≤ (O.state out.new).faults }
{
    let layout = Layout::new(order.blocks).unwrap();
    let scheduler = Scheduler {
        rt,
        pool: &StealPool,
        gate,
    };
    managed_plans();
    match order.plan {
        PlanName::NoGc => write_under::<NoGc, G, R, O>(
            &scheduler, alloc, layout, order, traces, out,
        ),
        PlanName::MarkSweep => write_under::<MarkSweep, G, R, O>(
            &scheduler, alloc, layout, order, traces, out,
        ),
        PlanName::SemiSpace => write_under::<SemiSpace, G, R, O>(
            &scheduler, alloc, layout, order, traces, out,
        ),
        PlanName::GenCopy => write_under::<GenCopy, G, R, O>(
            &scheduler, alloc, layout, order, traces, out,
        ),
        PlanName::Immix => write_under::<Immix, G, R, O>(
            &scheduler, alloc, layout, order, traces, out,
        ),
        PlanName::StickyImmix => write_under::<StickyImmix, G, R, O>(
            &scheduler, alloc, layout, order, traces, out,
        ),
    }
}
