//! The plans: one type for each.
#![tactic(auto)]

mod gencopy;
mod immix;
mod marksweep;
mod nogc;
mod release;
mod semispace;
mod stickyimmix;

pub use gencopy::GenCopy;
pub use immix::Immix;
pub use marksweep::MarkSweep;
pub use nogc::NoGc;
pub use semispace::SemiSpace;
pub use stickyimmix::StickyImmix;
