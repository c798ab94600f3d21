//! The made trace, as a list and as it is stored.

ghost use Rattle.std.specs.Prelude.{◌≡◌, All, IfOk, length};
ghost use Rattle.ideal_heap.specs.Commands.{IsValid};
ghost use Rattle.stored_commands.specs.Made.{made_trace};

use ideal_heap::Command;
use std::alloc::{AllocError, Global};
use stored_commands::StoredTrace;

/// The made trace of `n` commands.
///
/// Fails if memory runs out.
pub fn made(alloc: Global, n: u32) -> Result<Vec<Command>, AllocError>
    ensures made { IfOk result (λ v. v.items ≡ made_trace n) }
    ensures count { IfOk result (λ v. length v.items ≡ n) }
    ensures valid { IfOk result (λ v. All IsValid v.items) }
{
    let mut trace = made_stored(alloc, n)?;
    let mut commands = Vec::with_capacity(alloc, trace.len())?;
    trace.prepare(0);
    while let Some(command) = trace.get(commands.len()) {
        commands.push(command.command())?;
        trace.prepare(commands.len());
    }
    Ok(commands)
}

/// The made trace of `n` commands, as it is stored: its commands are drawn as they are prepared.
///
/// Fails if memory runs out.
pub fn made_stored(alloc: Global, n: u32) -> Result<StoredTrace, AllocError>
    ensures made { IfOk result (λ t. t ≡ made_trace n) }
    ensures count { IfOk result (λ t. length t ≡ n) }
    ensures valid { IfOk result (λ t. All IsValid t) }
{
    let trace = StoredTrace::made(alloc, n)?;
    Ok(trace)
}
