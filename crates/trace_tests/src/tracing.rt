//! The trace of a whole collection by one worker.

ghost use Rattle.object_model.specs.Heaps.{heap_state};
ghost use Rattle.plain_tracer.specs.Tracers.{TracerHolds};
ghost use Rattle.trace_core.specs.Runs.{MayRun};
ghost use Rattle.trace_tests.specs.Tokens.{AreGrey};

use crate::heaps::Built;
use crate::roots::{trace_globals, trace_registers};
use plain_tracer::{Grey, PlainTrace};
use std::alloc::{AllocError, Global};
use std::process::Abort;
use trace_core::{TraceRun, Traced};

/// What a trace left: its row, the last values of the registers, and how many objects it scanned.
#[derive(Drop)]
pub(crate) struct Outcome {
    pub(crate) traced: Traced,
    pub(crate) registers: Vec<u32>,
    pub(crate) scanned: u32,
}

/// Traces a heap from its registers and globals, and in a nursery collection from its logged
/// objects.
pub(crate) fn trace(
    rt: &impl Abort,
    alloc: Global,
    built: Built,
    run: TraceRun,
) -> Result<Outcome, AllocError>
    requires { MayRun (heap_state built.heap) run }
{
    let Built { heap, registers } = built;
    let mut tracer = PlainTrace::begin(heap, run)?;
    let globals = tracer.take_globals(alloc)?;
    let mut stack = tracer.take_logged(alloc)?;
    let registers = trace_registers(alloc, &mut tracer, &registers, &mut stack)?;
    trace_globals(&mut tracer, globals, &mut stack)?;
    let scanned = scan_all(rt, &mut tracer, &mut stack)?;
    Ok(Outcome {
        traced: tracer.close(),
        registers,
        scanned,
    })
}

/// Scans the objects of these tokens and all that they lead to. Returns how many.
fn scan_all(
    rt: &impl Abort,
    tracer: &mut PlainTrace,
    stack: &mut Vec<Grey>,
) -> Result<u32, AllocError>
    requires { TracerHolds tracer.old (λ p es v. AreGrey p v stack.old.items) }
{
    for scanned in 0..1_000_000 {
        let Some(grey) = stack.pop() else {
            return Ok(scanned);
        };
        stack.reserve(grey.refs() as usize)?;
        tracer.scan_object(grey, stack);
    }
    panic!(rt; "the trace does not end")
}
