//! Tokens: each is the right to one piece of the work of a tracing. None can be copied.

/// The answer to a claim.
#[derive(Debug)]
pub enum Claim {
    /// The collection is a nursery one, and the object is old. It stays where it is.
    Old,
    /// The object was claimed before. This is its target.
    Seen(u32),
    /// This claim gave the object its target.
    Won(Won),
}

/// The right to copy an object that was claimed. It must be spent.
#[derive(Debug)]
pub struct Won {
    pub(crate) object: u32,
    pub(crate) target: u32,
    pub(crate) size: u32,
    pub(crate) refs: u32,
}

/// The right to scan the fields of an object that is copied, or of one that is logged.
#[derive(Debug, Drop)]
pub struct Grey {
    pub(crate) object: u32,
    pub(crate) target: u32,
    pub(crate) size: u32,
    pub(crate) refs: u32,
}

impl Grey {
    ghost use Rattle.std.specs.Prelude.{◌≡◌, not, nat_eq};

    /// The address where the object is after the collection.
    pub fn at(&self) -> u32
        ensures { result ≡ self.now.target }
    {
        self.target
    }

    /// How many reference fields are to be scanned.
    pub fn refs(&self) -> u32
        ensures { result ≡ self.now.refs }
    {
        self.refs
    }

    /// The words of the object.
    pub fn size(&self) -> u32
        ensures { result ≡ self.now.size }
    {
        self.size
    }

    /// Whether the object leaves its place.
    pub fn has_moved(&self) -> bool
        ensures { result ≡ not (nat_eq self.now.target self.now.object) }
    {
        self.target != self.object
    }

    /// The right, without the shape.
    pub fn reached(self) -> Reached
        ensures object { result.object ≡ self.object }
        ensures target { result.target ≡ self.target }
    {
        Reached {
            object: self.object,
            target: self.target,
        }
    }
}

/// The right to scan the fields of an object that was claimed and copied, and whose shape is not
/// read yet.
#[derive(Debug, Drop)]
pub struct Reached {
    pub(crate) object: u32,
    pub(crate) target: u32,
}

/// The right to set a global to its last value.
#[derive(Debug, Drop)]
pub struct GlobalRoot {
    pub(crate) global: u32,
}

impl GlobalRoot {
    ghost use Rattle.std.specs.Prelude.{◌≡◌};

    /// The number of the global, from 0 on.
    pub fn at(&self) -> u32
        ensures { result ≡ self.now.global }
    {
        self.global
    }
}
