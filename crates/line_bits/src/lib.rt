//! Line bits: marks of the lines that an object touches. Tracers, sweeps and the search for holes
//! stand on it.
#![tactic(auto)]

mod laws;
mod marks;
mod masks;

pub use laws::births_mark_lines;
pub use marks::mark;
pub use masks::run_mask;
