//! The reader of traces.

ghost use Rattle.std.specs.Prelude.{◌≤◌, length, All, IfOk};
ghost use Rattle.ideal_heap.specs.Commands.{IsValid};
ghost use Rattle.trace_text.specs.Grammar.{Gives, trace};

use crate::fault::TraceFault;
use crate::limits::MAX_COMMANDS;
use crate::line_reader::LineReader;
use ideal_heap::Command;
use std::alloc::Global;
use stored_commands::{StoredTrace, commands_of};

// The commands of the trace, stored.
fn read_stored(alloc: Global, bytes: &[u8]) -> Result<StoredTrace, TraceFault>
    ensures text { Gives (λ v. v) result (trace bytes.now) }
    ensures valid { IfOk result (All IsValid) }
    ensures few { IfOk result (λ v. length v ≤ MAX_COMMANDS) }
{
    let mut lines = LineReader::new(alloc);
    lines.reserve(bytes.len())?;
    lines.read(bytes)?;
    lines.finish()
}

/// Reads a trace in the format `mmtrace 1`: a header line, and after it one command per line.
///
/// A newline ends a line; bytes after the last newline are a line too. One space separates two
/// words. The commands are valid, in the order of their lines, and at most `MAX_COMMANDS`.
///
/// Errors: `Line` for the first bad line, `TooMany` for too many commands, `OutOfMemory`.
pub fn read_trace(alloc: Global, bytes: &[u8]) -> Result<Vec<Command>, TraceFault>
    ensures text { Gives (λ v. v.items) result (trace bytes.now) }
    ensures valid { IfOk result (λ v. All IsValid v.items) }
    ensures few { IfOk result (λ v. length v.items ≤ MAX_COMMANDS) }
{
    let stored = read_stored(alloc, bytes)?;
    Ok(commands_of(alloc, &stored)?)
}
