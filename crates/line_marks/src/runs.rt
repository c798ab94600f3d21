//! The search for a run of clear bits in the line words of a block.

ghost use Rattle.std.specs.Prelude.{◌≡◌, ◌<◌, ◌≤◌, false, length, MatchOption};
ghost use Rattle.line_marks.specs.Bits.{bit_in, IsRunEnd, IsFirstClearRun, HasNoClearRun};

use crate::bits::first_bit;
use heap_layout::BLOCK_LINES;

/// A run of clear bits, from bit `start` on, before bit `end`.
#[derive(Clone, Copy, Debug, PartialEq, Eq)]
pub struct Run {
    /// Its first bit.
    pub start: u32,
    /// The bit after its last.
    pub end: u32,
}

/// The bit after the run of clear bits that contains bit `line`.
fn run_end(lines: &[u64], line: u32) -> u32
    requires words { length lines.now ≡ 4 }
    requires line { line < BLOCK_LINES }
    requires clear { bit_in lines.now line ≡ false }
    ensures { IsRunEnd lines.now line result }
{
    first_bit(lines, true, line).unwrap_or(BLOCK_LINES)
}

/// The first run of at least `needed` clear bits, among the bits from `from` on.
pub fn first_run(lines: &[u64], from: u32, needed: u32) -> Option<Run>
    requires words { length lines.now ≡ 4 }
    requires some { 1 ≤ needed }
    ensures { MatchOption result (HasNoClearRun lines.now from needed)
        (λ r. IsFirstClearRun lines.now from needed r.start r.end) }
{
    let mut at = from;
    while let Some(line) = first_bit(lines, false, at) {
        let end = run_end(lines, line);
        if end - line >= needed {
            return Some(Run { start: line, end });
        }
        at = end;
    }
    None
}
