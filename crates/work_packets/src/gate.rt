//! Points at which tests can hold threads.

/// A point at which a thread passes the gate.
#[derive(Clone, Copy, Debug, PartialEq, Eq)]
pub enum Point {
    /// Before a mutator polls.
    Poll,
    /// Before a mutator allocates an object.
    Alloc,
    /// After a mutator has published a new object.
    Publish,
    /// Before a worker runs a packet.
    Packet,
    /// Before a worker processes an item of the packet.
    Claim,
    /// After a worker has processed the item.
    Claimed,
    /// Before a worker steals.
    Steal,
}

/// What mutators and workers call at each `Point`. It may delay a thread, and changes nothing that
/// contracts describe.
pub trait Gate: Sync {
    /// Called before the thread goes on: `who` is a mutator's number, from 1 to 16, or 16 and the
    /// number of a worker, which is counted from 1 too.
    fn pass(&self, who: u32, point: Point);
}

/// A gate that delays nobody.
#[derive(Clone, Copy, Debug)]
pub struct OpenGate;

impl Gate for OpenGate {
    fn pass(&self, _who: u32, _point: Point) {}
}
