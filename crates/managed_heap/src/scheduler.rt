//! What runs the packets of collections.

/// The threads, the pool that hands packets to workers, and the gate that a worker passes at each
/// step.
#[derive(Clone, Copy)]
pub struct Scheduler<'a, R, Q, G> {
    pub rt: &'a R,
    pub pool: &'a Q,
    pub gate: &'a G,
}
