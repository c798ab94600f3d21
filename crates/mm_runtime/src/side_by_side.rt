//! Parts of an epoch, run one after another or at the same time.
//!
//! `run_parts` calls `run_side_by_side`, `close_epoch` calls `run_in_turn`. The parts are those of
//! one epoch, or some of them next to each other.

ghost use Rattle.std.specs.Prelude.{◌≡◌, ◌<◌, ◌≤◌, ℕ, All, length, IfSome};
ghost use Rattle.std.specs.Thread.{IsSync};
ghost use Rattle.mm_runtime.specs.Prelude.{IsPartOf, RunsAll};

use crate::seat_part::{Part, run_part_at};
use plan_api::Plan;
use racing_world::World;
use std::thread::{Threads, join_mut};
use work_packets::Gate;

/// Runs each of these parts to its end, one after another.
pub(crate) fn run_in_turn<P: Plan, G: Gate>(world: &World<P>, gate: &G, parts: &mut [Part])
    requires parts { All (IsPartOf P.rules world.now) parts.old }
    ensures { RunsAll P.rules world.now parts.old parts.new }
{
    for k in 0..parts.len() {
        run_part_at(world, &mut parts[k], gate);
    }
}

/// The place of the last part that has commands left.
fn last_with_commands(parts: &[Part]) -> Option<usize>
    ensures { IfSome result (λ k. k < length parts.now) }
{
    let mut last = None;
    for (k, part) in parts.iter().enumerate() {
        if part.progress.replies.len() < part.progress.trace.len() {
            last = Some(k);
        }
    }
    last
}

/// Whether two of the parts have commands left.
fn two_have_commands(parts: &[Part]) -> bool {
    match last_with_commands(parts) {
        Some(last) => last_with_commands(&parts[..last]).is_some(),
        None => false,
    }
}

/// Runs each of these parts to its end. Each with commands left runs in a thread of its own where
/// one can be started. The caller runs the others and waits: a thread that the system puts on the
/// caller's processor runs at once, and not after a part that the caller runs.
fn run_in_threads<P: Plan + Sync, G: Gate, R: Threads + Sync>(
    rt: &R,
    world: &World<P>,
    gate: &G,
    parts: &mut [Part],
)
    requires parts { All (IsPartOf P.rules world.now) parts.old }
    ensures { RunsAll P.rules world.now parts.old parts.new }
{
    let Some(last) = last_with_commands(parts) else {
        run_in_turn(world, gate, parts);
        return;
    };
    let (front, back) = parts.split_at_mut(last);
    join_mut(
        rt,
        &mut ||
            requires { IsSync P.row × IsSync G.row × All (IsPartOf P.rules world.now) back.now }
            ensures { RunsAll P.rules world.entry.now back.entry.now back.exit.now }
        { run_in_turn(world, gate, back) },
        &mut ||
            requires { IsSync R.row × IsSync P.row × IsSync G.row
                × All (IsPartOf P.rules world.now) front.now }
            ensures { RunsAll P.rules world.entry.now front.entry.now front.exit.now }
        { run_in_threads(rt, world, gate, front) },
    );
}

/// Runs each of these parts to its end. Where two or more have commands left, they run at the same
/// time, each in a thread where one can be started.
pub(crate) fn run_side_by_side<P: Plan + Sync, G: Gate, R: Threads + Sync>(
    rt: &R,
    world: &World<P>,
    gate: &G,
    parts: &mut [Part],
)
    requires parts { All (IsPartOf P.rules world.now) parts.old }
    ensures { RunsAll P.rules world.now parts.old parts.new }
{
    if two_have_commands(parts) {
        run_in_threads(rt, world, gate, parts);
    } else {
        run_in_turn(world, gate, parts);
    }
}
