//! The roots of a trace: registers and globals.

ghost use Rattle.std.specs.Prelude.{ℕ, List, OnOk};
ghost use Rattle.object_model.specs.Lawful.{IsRoot, AreRoots};
ghost use Rattle.trace_core.specs.Setups.{Setup};
ghost use Rattle.trace_core.specs.Machine.{Event};
ghost use Rattle.trace_core.specs.Views.{View};
ghost use Rattle.plain_tracer.specs.Tracers.{Tracks, TracerHolds};
ghost use Rattle.trace_tests.specs.Tokens.{AreGrey, AreUnset, TracerGoesOn};

use plain_tracer::{Claim, GlobalRoot, Grey, PlainTrace};
use std::alloc::{AllocError, Global};

/// The last values of registers, whose objects are claimed and copied.
pub(crate) fn trace_registers(
    alloc: Global,
    tracer: &mut PlainTrace,
    registers: &[u32],
    stack: &mut Vec<Grey>,
) -> Result<Vec<u32>, AllocError>
    requires { TracerHolds tracer.old (λ p es v. AreGrey p v stack.old.items
        × AreRoots p.before registers.now) }
    ensures { OnOk result ((p : Setup) (es : List Event) (v : View) → Tracks p es tracer.old v
        → AreGrey p v stack.old.items → AreRoots p.before registers.now
        → TracerGoesOn p v tracer.new stack.new.items) }
{
    let mut last = Vec::new(alloc);
    for register in registers {
        last.push(trace_register(tracer, *register, stack)?)?;
    }
    Ok(last)
}

/// The last value of a register, whose object is claimed and copied.
fn trace_register(
    tracer: &mut PlainTrace,
    register: u32,
    stack: &mut Vec<Grey>,
) -> Result<u32, AllocError>
    requires { TracerHolds tracer.old (λ p es v. AreGrey p v stack.old.items
        × IsRoot p.before register) }
    ensures { OnOk result ((p : Setup) (es : List Event) (v : View) → Tracks p es tracer.old v
        → AreGrey p v stack.old.items → IsRoot p.before register
        → TracerGoesOn p v tracer.new stack.new.items) }
{
    if register == 0 {
        return Ok(0);
    }
    match tracer.claim(register) {
        Claim::Old => Ok(register),
        Claim::Seen(target) => Ok(target),
        Claim::Won(won) => {
            let grey = tracer.copy(won);
            let target = grey.at();
            stack.push(grey)?;
            Ok(target)
        }
    }
}

/// Sets globals.
pub(crate) fn trace_globals(
    tracer: &mut PlainTrace,
    globals: Vec<GlobalRoot>,
    stack: &mut Vec<Grey>,
) -> Result<(), AllocError>
    requires { TracerHolds tracer.old (λ p es v. AreGrey p v stack.old.items
        × AreUnset v globals.items) }
    ensures { OnOk result (TracerHolds tracer.new (λ p es v. AreGrey p v stack.new.items)) }
{
    for global in globals {
        stack.reserve(1)?;
        tracer.trace_global(global, stack);
    }
    Ok(())
}
