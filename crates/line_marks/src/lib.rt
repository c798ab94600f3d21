//! Holes, which are runs of clear lines, and how many there are. Marks of lines are those of
//! `line_bits`.
#![tactic(auto)]

mod bits;
mod holes;
mod runs;

pub use bits::last_bit;
pub use holes::{Hole, LineCounts, count_holes, line_counts, line_words, marked_lines, next_hole};
pub use line_bits::mark;
pub use runs::{Run, first_run};
