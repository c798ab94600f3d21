//! Allocations of mutators in turns, as in the model.

ghost use Rattle.plain_world.specs.Calls.{IsOpen};

use crate::model::{FILLERS, Model, shape_of};
use crate::worlds;
use mutator_calls::Allocated;
use plain_world::PlainWorld;
use plan_api::Plan;
use std::alloc::AllocError;
use std::process::Abort;

/// An allocation of mutator m into the register of its place, as in the model. Returns whether an
/// object was made.
pub(crate) fn allocate<P: Plan>(
    rt: &impl Abort,
    world: &mut PlainWorld<P>,
    model: &mut Model,
    m: u32,
    size: u32,
) -> Result<bool, AllocError>
    requires { IsOpen P.rules world.old }
    ensures { IsOpen P.rules world.new }
{
    assert!(rt; (m as usize) < FILLERS);
    let (refs, nums) = shape_of(size);
    let answer = worlds::allocate(rt, world, m, m, refs, nums);
    let register = worlds::address(rt, world, m, m);
    let want = model.allocate(m as usize, size)?;
    assert!(rt; (answer, register) == want, "{size} words of {m}");
    Ok(matches!(answer, Allocated::Made(_)))
}

// Sizes in no order: small ones, ones of some lines, and any, one of which is large.
fn next_size(state: &mut u32) -> u32 {
    *state = state.wrapping_mul(1_664_525).wrapping_add(1_013_904_223);
    let number = *state >> 8;
    let most = match number % 5 {
        0 | 1 => 14,
        2 => 46,
        3 => 300,
        _ => 2047,
    };
    (number / 5)
        .checked_rem(most)
        .unwrap_or(0)
        .saturating_add(3)
}

// The size at this place of the list, which is gone through again and again.
fn size_at(sizes: &[u32], place: u32) -> Option<u32> {
    let at = (place as usize).checked_rem(sizes.len())?;
    sizes.get(at).copied()
}

/// The mutators allocate objects in turns, at most so many each, until all stop many times in a
/// row. Returns whether they did. The sizes are those of the list in turns, or in no order if it
/// is empty.
pub(crate) fn fill<P: Plan>(
    rt: &impl Abort,
    world: &mut PlainWorld<P>,
    model: &mut Model,
    count: u32,
    most: u32,
    sizes: &[u32],
    state: &mut u32,
) -> Result<bool, AllocError>
    requires { IsOpen P.rules world.old }
    ensures { IsOpen P.rules world.new }
{
    let mut stopped = 0u32;
    for turn in 0..most.saturating_mul(count) {
        let (round, m) = match turn.checked_rem(count) {
            Some(m) => (turn / count, m),
            None => (0, 0),
        };
        let size = match size_at(sizes, round.saturating_add(m)) {
            Some(size) => size,
            None => next_size(state),
        };
        stopped = match allocate(rt, world, model, m, size)? {
            true => 0,
            false => stopped.saturating_add(1),
        };
        if stopped >= count.saturating_mul(10) {
            return Ok(true);
        }
    }
    Ok(false)
}
