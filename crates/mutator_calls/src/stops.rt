//! Polls and stops.

ghost use Rattle.std.specs.Prelude.{◌≡◌, ◌≢◌, ℕ};
ghost use Rattle.mutator_calls.specs.Effects.{raises};
ghost use Rattle.mutator_calls.specs.Stopping.{stop_of};

use crate::mutator_steps::MutatorSteps;
use crate::need::Polled;

/// Whether a stop is raised, and by which mutator.
pub fn poll<S: MutatorSteps>(seat: &mut S) -> Polled
    requires { S.is_ready seat.old }
    ensures ready { S.is_ready seat.new }
    ensures looks { S.only_loads seat.old seat.new }
    ensures stop { S.has_stop seat.new (stop_of result) }
    ensures raised { (n : ℕ) → result ≡ Polled.Raised n → n ≢ 0 }
{
    match seat.load_stop() {
        0 => Polled::Go,
        mutator => Polled::Raised(mutator),
    }
}

/// Raises a stop, unless one is raised.
pub fn raise<S: MutatorSteps>(seat: &mut S)
    requires { S.is_ready seat.old }
    ensures ready { S.is_ready seat.new }
    ensures goes { S.makes_steps seat.old raises seat.new }
{
    seat.raise_stop();
}
