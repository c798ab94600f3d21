//! Tokens of a racing trace, and what a call answers.

ghost use Rattle.std.specs.Prelude.{◌≡◌, not, nat_eq};

use trace_words::TraceSeat;

/// The answer to a claim.
pub enum Claim {
    /// The collection is a nursery one, and the object is old. It stays where it is.
    Old,
    /// The object was claimed before. This is its target.
    Seen(u32),
    /// This claim gave the object its target.
    Won(Won),
}

/// An object that the seat claimed and is to copy next.
pub struct Won {
    pub(crate) object: u32,
    pub(crate) target: u32,
    pub(crate) size: u32,
    pub(crate) refs: u32,
}

/// The right to scan the fields of an object, with a seat of its own.
#[derive(Drop)]
pub struct Grey {
    pub(crate) seat: TraceSeat,
    pub(crate) object: u32,
    pub(crate) target: u32,
    pub(crate) size: u32,
    pub(crate) refs: u32,
}

/// The right to set a global to its last value, with a seat of its own.
#[derive(Drop)]
pub struct GlobalRoot {
    pub(crate) seat: TraceSeat,
    pub(crate) global: u32,
}

/// What a collector word says of an object.
pub(crate) enum Found {
    /// It is old, and stays.
    Old,
    /// It is claimed, and has this target.
    Seen(u32),
    /// It was not claimed. The word.
    Waits(u64),
}

impl Grey {
    /// The address where the object is after the collection.
    pub fn at(&self) -> u32
        ensures { result ≡ self.now.target }
    {
        self.target
    }

    /// The number of words of the object.
    pub fn size(&self) -> u32
        ensures { result ≡ self.now.size }
    {
        self.size
    }

    /// Whether the object leaves its place.
    pub fn has_moved(&self) -> bool
        ensures { result ≡ not (nat_eq self.now.target self.now.object) }
    {
        self.target != self.object
    }

    /// How many reference fields are to be scanned.
    pub fn refs(&self) -> u32
        ensures { result ≡ self.now.refs }
    {
        self.refs
    }
}

impl GlobalRoot {
    /// The number of the global, from 0 on.
    pub fn at(&self) -> u32
        ensures { result ≡ self.now.global }
    {
        self.global
    }
}
