//! Lists of commands, stored and not.

ghost use Rattle.std.specs.Prelude.{◌≡◌, IfOk, length};
ghost use Rattle.stored_commands.specs.Lists.{lists_of};

use crate::packed_command::PackedCommand;
use crate::stored_trace::StoredTrace;
use ideal_heap::Command;
use std::alloc::{AllocError, Global};

/// The commands of a trace.
///
/// Fails if memory runs out.
pub fn commands_of(alloc: Global, trace: &StoredTrace) -> Result<Vec<Command>, AllocError>
    ensures { IfOk result (λ v. v.items ≡ trace.now) }
{
    let mut commands = Vec::with_capacity(alloc, trace.len())?;
    while let Some(command) = trace.get(commands.len()) {
        commands.push(command.command())?;
    }
    Ok(commands)
}

// A trace of these commands.
fn stored(alloc: Global, commands: &[Command]) -> Result<StoredTrace, AllocError>
    ensures { IfOk result (λ t. t ≡ commands.now) }
{
    let mut trace = StoredTrace::new(alloc);
    trace.reserve(commands.len())?;
    for command in commands {
        trace.push(PackedCommand::new(command))?;
    }
    Ok(trace)
}

/// Each trace with its commands stored.
///
/// Fails if memory runs out.
pub fn stored_traces(alloc: Global, traces: &[Vec<Command>]) -> Result<Vec<StoredTrace>, AllocError>
    ensures same { IfOk result (λ v. v.items ≡ lists_of traces.now) }
    ensures count { IfOk result (λ v. length v.items ≡ length traces.now) }
{
    let mut all = Vec::with_capacity(alloc, traces.len())?;
    for trace in traces {
        all.push(stored(alloc, trace)?)?;
    }
    Ok(all)
}
