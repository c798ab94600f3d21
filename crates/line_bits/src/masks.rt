//! Words with a run of bits set.

ghost use Rattle.std.specs.Prelude.{◌≡◌, ℕ, ◌<◌, ◌≤◌};
ghost use Rattle.std.specs.Int.{bit_at};
ghost use Rattle.line_bits.specs.LineMarks.{IsFromTo};

use side_meta::BITS_PER_WORD;

/// The word in which exactly bits `low` to `high` are set.
pub fn run_mask(low: u32, high: u32) -> u64
    requires order { low ≤ high }
    requires high { high < BITS_PER_WORD }
    ensures inside { (k : ℕ) → IsFromTo low high k → bit_at result k ≡ 1 }
    ensures only { (k : ℕ) → bit_at result k ≡ 1 → IsFromTo low high k }
{
    u64::MAX << low & u64::MAX >> (63 - high)
}
