//! A mutator, and the answers of its allocations and polls.

use ideal_heap::{Name, REGISTERS};

/// A mutator, as it is between two calls.
#[derive(Clone, Copy, Debug, PartialEq, Eq)]
pub struct Mutator {
    /// The mutator's number, 1 to 16.
    pub number: u32,
    /// The number of objects that it has allocated.
    pub births: u32,
    /// Its registers: addresses, or 0 for nil.
    pub registers: [u32; REGISTERS],
}

/// Why an allocation stopped.
#[derive(Clone, Copy, Debug, PartialEq, Eq)]
pub enum NeedCause {
    /// The object has more than 2,048 words.
    Large,
    /// No block has room that the mutator may fill, and the allowance is used up: the ticket that
    /// the mutator drew is not below it.
    Budget(u32),
}

/// An allocation that is left to the stop.
#[derive(Clone, Copy, Debug, PartialEq, Eq)]
pub struct Need {
    /// The register for the new object.
    pub register: u32,
    /// The number of reference fields.
    pub refs: u32,
    /// The number of numbers.
    pub nums: u32,
    /// Why the allocation stopped.
    pub cause: NeedCause,
}

/// The answer to an allocation.
#[derive(Clone, Copy, Debug, PartialEq, Eq)]
pub enum Allocated {
    /// The object is allocated and has this name.
    Made(Name),
    /// Nothing is allocated: the mutator is to stop.
    Stop(Need),
}

/// The answer to a poll.
#[derive(Clone, Copy, Debug, PartialEq, Eq)]
pub enum Polled {
    /// No stop is raised.
    Go,
    /// The mutator with this number raised a stop.
    Raised(u32),
}
