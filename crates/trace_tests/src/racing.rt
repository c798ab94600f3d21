//! The trace of a whole collection by one worker on a shared row, call by call.

ghost use Rattle.std.specs.Prelude.{All};
ghost use Rattle.object_model.specs.Heaps.{heap_state};
ghost use Rattle.object_model.specs.Lawful.{IsRoot, AreRoots};
ghost use Rattle.trace_core.specs.Runs.{MayRun};
ghost use Rattle.trace_words.specs.Steps.{IsDone};
ghost use Rattle.trace_table.specs.Seats.{IsTable, IsSeat, IsGrey, IsGlobalRoot, setup_at};
ghost use Rattle.trace_tests.specs.Parts.{HasPart};

use crate::heaps::Built;
use crate::tracing::Outcome;
use std::alloc::{AllocError, Global};
use std::process::Abort;
use std::test::Fail;
use trace_core::TraceRun;
use trace_table::{Claim, GlobalRoot, Grey, TraceTable, WorkerSeat};

/// A worker's seat, and the tokens that it begins with.
#[derive(Drop)]
pub(crate) struct Part {
    pub(crate) seat: WorkerSeat,
    pub(crate) globals: Vec<GlobalRoot>,
    pub(crate) stack: Vec<Grey>,
}

// The last values of registers that a worker found, and how many objects it scanned.
type Found = (Vec<u32>, u32);

// A worker's seat after its part.
type Ended = (WorkerSeat, Result<Found, AllocError>);

// The last value of a register, whose object is claimed and copied.
fn race_register(
    table: &TraceTable,
    seat: &mut WorkerSeat,
    register: u32,
    stack: &mut Vec<Grey>,
) -> Result<u32, AllocError>
    requires table { IsTable table.now }
    requires seat { IsSeat table.now seat.old }
    requires done { IsDone (setup_at table.now) seat.old.seat.me.0 }
    requires root { IsRoot (setup_at table.now).before register }
    requires tokens { All (IsGrey table.now) stack.old.items }
    ensures seat { IsSeat table.now seat.new }
    ensures done { IsDone (setup_at table.now) seat.new.seat.me.0 }
    ensures tokens { All (IsGrey table.now) stack.new.items }
{
    stack.reserve(1)?;
    if register == 0 {
        return Ok(0);
    }
    match table.claim(seat, register) {
        Claim::Old => Ok(register),
        Claim::Seen(target) => Ok(target),
        Claim::Won(won) => {
            let grey = table.copy(seat, won);
            let target = grey.at();
            stack.push_reserved(grey);
            Ok(target)
        }
    }
}

// The last values of registers.
fn race_registers(
    table: &TraceTable,
    alloc: Global,
    seat: &mut WorkerSeat,
    registers: &[u32],
    stack: &mut Vec<Grey>,
) -> Result<Vec<u32>, AllocError>
    requires table { IsTable table.now }
    requires seat { IsSeat table.now seat.old }
    requires done { IsDone (setup_at table.now) seat.old.seat.me.0 }
    requires roots { AreRoots (setup_at table.now).before registers.now }
    requires tokens { All (IsGrey table.now) stack.old.items }
    ensures seat { IsSeat table.now seat.new }
    ensures done { IsDone (setup_at table.now) seat.new.seat.me.0 }
    ensures tokens { All (IsGrey table.now) stack.new.items }
{
    let mut last = Vec::new(alloc);
    for register in registers {
        last.push(race_register(table, seat, *register, stack)?)?;
    }
    Ok(last)
}

// Sets globals.
fn race_globals(
    table: &TraceTable,
    seat: &mut WorkerSeat,
    globals: Vec<GlobalRoot>,
    stack: &mut Vec<Grey>,
) -> Result<(), AllocError>
    requires table { IsTable table.now }
    requires seat { IsSeat table.now seat.old }
    requires done { IsDone (setup_at table.now) seat.old.seat.me.0 }
    requires globals { All (IsGlobalRoot table.now) globals.items }
    requires tokens { All (IsGrey table.now) stack.old.items }
    ensures seat { IsSeat table.now seat.new }
    ensures done { IsDone (setup_at table.now) seat.new.seat.me.0 }
    ensures tokens { All (IsGrey table.now) stack.new.items }
{
    for global in globals {
        stack.reserve(1)?;
        table.trace_global(seat, global, stack);
    }
    Ok(())
}

// Scans the objects of these tokens and all that they lead to, if they are below a million. How
// many.
fn race_scans(
    table: &TraceTable,
    seat: &mut WorkerSeat,
    stack: &mut Vec<Grey>,
) -> Result<u32, AllocError>
    requires table { IsTable table.now }
    requires seat { IsSeat table.now seat.old }
    requires done { IsDone (setup_at table.now) seat.old.seat.me.0 }
    requires tokens { All (IsGrey table.now) stack.old.items }
    ensures seat { IsSeat table.now seat.new }
    ensures done { IsDone (setup_at table.now) seat.new.seat.me.0 }
{
    for scanned in 0..1_000_000 {
        let Some(grey) = stack.pop() else {
            return Ok(scanned);
        };
        stack.reserve(grey.refs() as usize)?;
        table.scan_object(seat, grey, stack);
    }
    Ok(1_000_000)
}

// A worker's part: it claims all registers, sets its globals, and scans what it won.
fn work(
    table: &TraceTable,
    alloc: Global,
    seat: &mut WorkerSeat,
    registers: &[u32],
    globals: Vec<GlobalRoot>,
    stack: Vec<Grey>,
) -> Result<Found, AllocError>
    requires table { IsTable table.now }
    requires seat { IsSeat table.now seat.old }
    requires done { IsDone (setup_at table.now) seat.old.seat.me.0 }
    requires roots { AreRoots (setup_at table.now).before registers.now }
    requires globals { All (IsGlobalRoot table.now) globals.items }
    requires tokens { All (IsGrey table.now) stack.items }
    ensures seat { IsSeat table.now seat.new }
    ensures done { IsDone (setup_at table.now) seat.new.seat.me.0 }
{
    let mut stack = stack;
    let last = race_registers(table, alloc, seat, registers, &mut stack)?;
    race_globals(table, seat, globals, &mut stack)?;
    let scanned = race_scans(table, seat, &mut stack)?;
    Ok((last, scanned))
}

// The same by value.
fn work_part(table: &TraceTable, alloc: Global, registers: &[u32], part: Part) -> Ended
    requires part { HasPart table.now part.seat part.globals.items
        part.stack.items }
    requires roots { AreRoots (setup_at table.now).before registers.now }
    ensures seat { IsSeat table.now result.0 }
{
    let Part {
        seat,
        globals,
        stack,
    } = part;
    let mut seat = seat;
    let found = work(table, alloc, &mut seat, registers, globals, stack);
    (seat, found)
}

/// Traces a heap from its registers and globals, and in a nursery collection from its logged
/// objects, by one worker.
pub(crate) fn trace_alone(
    rt: &impl Abort,
    alloc: Global,
    built: Built,
    run: TraceRun,
) -> Result<Outcome, Fail>
    requires { MayRun (heap_state built.heap) run }
{
    let Built { heap, registers } = built;
    let (mut table, mut seats) = TraceTable::begin(alloc, heap, run, 1)?;
    let globals = table.take_globals(alloc)?;
    let stack = table.take_logged(alloc)?;
    let Some(seat) = seats.pop() else {
        panic!(rt; "no seat");
    };
    let part = Part {
        seat,
        globals,
        stack,
    };
    let (seat, found) = work_part(&table, alloc, &registers, part);
    seats.push(seat)?;
    let traced = table.close(seats);
    let (registers, scanned) = found?;
    Ok(Outcome {
        traced,
        registers,
        scanned,
    })
}
