//! Roots that a worker served.

/// The place of a root in the list of roots, and its target.
#[derive(Clone, Copy, Debug, PartialEq, Eq)]
pub struct Served {
    pub place: u32,
    pub target: u32,
}
